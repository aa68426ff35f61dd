// The calls on a receiver, on plain values: a fresh one, a fragment, and closing, which gives what it holds to prepare.
#![tactic(auto)]

ghost use Rattle.calls.specs.Call.{Closed, Keeps};
ghost use Rattle.receiving.specs.Fragments.{received};
ghost use Rattle.receiving.specs.Fragments.ReceiverCall.{fresh_receiver, take_fragment};

use answers::Verdict;
use model::Refusal;
use receiver::Receiver;

// A fresh receiver, whatever the bytes were.
pub fn fresh_receiver(receiver: &mut [u8]) -> Result<Verdict, Refusal>
    ensures { Keeps result receiver.new (received fresh_receiver receiver.old) }
{
    if receiver.len() != Receiver::SIZE {
        return Err(Refusal::BadRegion);
    }
    receiver::make_fresh(receiver);
    Ok(Verdict::done(&[]))
}

// A fragment, behind what is held: how many bytes are held now.
pub fn take_fragment(receiver: &mut [u8], fragment: &[u8]) -> Result<Verdict, Refusal>
    ensures { Keeps result receiver.new (received (take_fragment fragment.now) receiver.old) }
{
    if !receiver::is_good(receiver) {
        return Err(Refusal::BadRegion);
    }
    let held = receiver::held(receiver).len();
    if fragment.len() > Receiver::CAPACITY - held {
        return Err(Refusal::ReceiverFull);
    }
    receiver::add(receiver, fragment);
    Ok(Verdict::done(&[(held + fragment.len()) as u64]))
}

// What is held goes to prepare, and whatever that says, a fresh receiver follows.
pub fn close_receiver(region: &mut [u8], receiver: &mut [u8], mode: u64) -> Result<Verdict, Refusal>
    ensures { Closed result region.old region.new receiver.old receiver.new mode }
{
    if !receiver::is_good(receiver) {
        return Err(Refusal::BadRegion);
    }
    let verdict = preparing::prepare(region, receiver::held(receiver), mode);
    receiver::make_fresh(receiver);
    verdict
}
