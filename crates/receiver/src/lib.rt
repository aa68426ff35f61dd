// The receiver of a list of edits in fragments, as bytes: whether it is good, what it holds, and the two ways in which it changes.
#![tactic(auto)]

ghost use Rattle.std.specs.Prelude.{◌≡◌, ◌++◌, ◌+◌, ◌≤◌, length};
ghost use Rattle.word.specs.Be.{cut, val};
ghost use Rattle.receiver.specs.Receiver.{capacity, receiver_size, holding, fresh, held, is_receiver, Good};

// Its size, and where its parts stand.
#[derive(Clone, Copy)]
pub struct Receiver {}

impl Receiver {
    // The longest list: version and length, 3; how many edits, 1; and 32 edits of 27 bytes.
    pub const CAPACITY: usize = 3 + 1 + 27 * 32;

    pub const COUNT_AT: usize = 0;

    pub const COUNT_WIDTH: usize = 2;

    // The bytes that it holds, from here on.
    pub const BYTES: usize = 2;

    pub const SIZE: usize = Receiver::BYTES + Receiver::CAPACITY;
}

// How many bytes the count says.
fn count(receiver: &[u8]) -> usize
    requires { length receiver.now ≡ receiver_size }
    ensures { result ≡ val (cut 0 2 receiver.now) }
{
    word::get_at(receiver, Receiver::COUNT_AT, Receiver::COUNT_WIDTH) as usize
}

pub fn is_good(receiver: &[u8]) -> bool
    ensures { result ≡ is_receiver receiver.now }
{
    if receiver.len() != Receiver::SIZE {
        return false;
    }
    let count = count(receiver);
    count <= Receiver::CAPACITY && word::all_zero(&receiver[Receiver::BYTES + count..])
}

// What it holds, as that part of it, not a copy.
pub fn held(receiver: &[u8]) -> &[u8]
    requires { Good receiver.now }
    ensures { result.now ≡ held receiver.now }
{
    let end = Receiver::BYTES + count(receiver);
    &receiver[Receiver::BYTES..end]
}

// Nothing is held, whatever the bytes were.
pub fn make_fresh(receiver: &mut [u8])
    requires { length receiver.old ≡ receiver_size }
    ensures { receiver.new ≡ fresh }
{
    receiver.fill(0);
}

// The bytes of a fragment for which there is room, behind what is held.
pub fn add(receiver: &mut [u8], fragment: &[u8])
    requires good { Good receiver.old }
    requires fragment_len_bound { length (held receiver.old) + length fragment.now ≤ capacity }
    ensures { receiver.new ≡ holding (held receiver.old ++ fragment.now) }
{
    let count = count(receiver);
    let begin = Receiver::BYTES + count;
    let end = begin + fragment.len();
    word::copy(&mut receiver[begin..end], fragment);
    let now = count + fragment.len();
    word::put_at(
        receiver,
        Receiver::COUNT_AT,
        Receiver::COUNT_WIDTH,
        now as u64,
    );
}
