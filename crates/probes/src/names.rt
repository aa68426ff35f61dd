// Names, and calls on names.
use crate::{add, is, load_loose, load_packed, reads, start, start_head};
use asks::{Asks, Call, Kind};
use std::io;

// Three names, of which one is there already when it comes again.
pub fn good<R: Print>(asks: &mut Asks<R>, text: &mut [u8]) -> io::Result<()> {
    is(asks, Call::Start { setting: 3 }, 2, 0)?;
    start_head(asks, text)?;
    add(asks, text, 16, b"refs/bisect", 0, 1)?;
    add(asks, text, 32, b"refs/bisect/a", 0, 2)?;
    add(asks, text, 0, b"HEAD", 0, 0)
}

pub fn bad<R: Print>(asks: &mut Asks<R>, text: &mut [u8]) -> io::Result<()> {
    add(asks, text, 0, &[b'A'; 65], 18, 0)?;
    add(asks, text, 66, b"refs/a..b", 18, 0)?;
    add(asks, text, 80, b"refs/a.lock", 18, 0)?;
    add(asks, text, 96, b"refs/.a", 18, 0)?;
    add(asks, text, 112, b"head", 18, 0)
}

// One byte apart, at the front and at the back, and one that ends with another. The last two have one mark, so that the region's test
// compares their bytes.
pub fn alike<R: Print>(asks: &mut Asks<R>, text: &mut [u8]) -> io::Result<()> {
    start_head(asks, text)?;
    add(asks, text, 16, b"READ", 0, 1)?;
    add(asks, text, 32, b"HEAT", 0, 2)?;
    add(asks, text, 48, b"AHEAD", 0, 3)?;
    add(asks, text, 64, b"refs/heads/xijbinl", 0, 4)?;
    add(asks, text, 96, b"refs/heads/xjfheol", 0, 5)?;
    reads(asks, 0)
}

// Name 2 lies beneath name 1, and name 3 only begins alike. In the end name 2 has a loose value.
pub fn nested_loads<R: Print>(asks: &mut Asks<R>, text: &mut [u8]) -> io::Result<()> {
    start_head(asks, text)?;
    add(asks, text, 16, b"refs/heads/a", 0, 1)?;
    add(asks, text, 32, b"refs/heads/a/b", 0, 2)?;
    add(asks, text, 48, b"refs/heads/ab", 0, 3)?;
    load_loose(asks, 1, 3, 0, 0, 0)?;
    load_loose(asks, 2, 1, 7, 21, 0)?;
    load_loose(asks, 2, 0, 0, 0, 0)?;
    load_loose(asks, 3, 1, 7, 0, 0)?;
    load_loose(asks, 1, 0, 0, 0, 0)?;
    load_loose(asks, 2, 1, 7, 0, 0)?;
    load_loose(asks, 1, 1, 7, 21, 0)
}

// ---- 256 names

pub fn one_of_many<R: Print>(asks: &mut Asks<R>, text: &mut [u8], name: u8) -> io::Result<()> {
    let letters = [b'a' + name / 16, b'a' + name % 16];
    let bytes = [b'r', b'e', b'f', b's', b'/', letters[0], letters[1]];
    add(asks, text, 0, &bytes, 0, u64::from(name))
}

// There is no room for one name more.
pub fn full<R: Print>(asks: &mut Asks<R>, text: &mut [u8]) -> io::Result<()> {
    add(asks, text, 0, b"HEAD", 19, 0)?;
    add(asks, text, 16, b"refs/pp", 0, 255)
}

// ---- calls on the three names

pub fn loads<R: Print>(asks: &mut Asks<R>) -> io::Result<()> {
    no_names(asks)?;
    lock_kinds(asks)?;
    loose(asks)?;
    packed(asks)
}

// A number that is no name's comes back with all its bits.
fn no_names<R: Print>(asks: &mut Asks<R>) -> io::Result<()> {
    is(asks, Call::NameBytes { name: 3 }, 3, 3)?;
    is(asks, Call::ReadName { name: 65536 }, 3, 65536)?;
    let name = 65536;
    is(asks, Call::ReadLine { name, place: 0 }, 3, 65536)?;
    place_lock(asks, Kind::NAME, 3, 3, 3)?;
    lift_lock(asks, Kind::NAME, 65536, 3, 65536)
}

// A kind of lock that is neither is refused before the number is looked at. Beside the packed table no number is.
fn lock_kinds<R: Print>(asks: &mut Asks<R>) -> io::Result<()> {
    place_lock(asks, 2, 3, 2, 0)?;
    lift_lock(asks, u64::MAX, 3, 2, 0)?;
    place_lock(asks, Kind::PACKED_TABLE, 65536, 0, 0)?;
    place_lock(asks, Kind::PACKED_TABLE, 0, 20, 0)?;
    lift_lock(asks, Kind::PACKED_TABLE, 256, 0, 0)
}

fn place_lock<R: Print>(
    asks: &mut Asks<R>,
    kind: u64,
    number: u64,
    returns: u64,
    place: u64,
) -> io::Result<()> {
    is(asks, Call::PlaceLock { kind, number }, returns, place)
}

fn lift_lock<R: Print>(
    asks: &mut Asks<R>,
    kind: u64,
    number: u64,
    returns: u64,
    place: u64,
) -> io::Result<()> {
    is(asks, Call::LiftLock { kind, number }, returns, place)
}

fn loose<R: Print>(asks: &mut Asks<R>) -> io::Result<()> {
    load_loose(asks, 0, 2, 3, 3, 3)?;
    load_loose(asks, 0, 2, 65536, 3, 65536)?;
    load_loose(asks, 0, 1, 0, 21, 0)?;
    load_loose(asks, 0, 3, 7, 21, 0)?;
    load_loose(asks, 0, 4, 1, 21, 0)
}

// HEAD and what lies below refs/bisect/ have no packed values, and refs/bisect itself may.
fn packed<R: Print>(asks: &mut Asks<R>) -> io::Result<()> {
    load_packed(asks, 0, 1, 21)?;
    load_packed(asks, 1, 1, 0)?;
    load_packed(asks, 1, 2, 21)?;
    load_packed(asks, 2, 1, 21)?;
    load_packed(asks, 1, 0, 0)
}
