// Regions that are not good.
use crate::lists::log_line;
use crate::{add, load_loose, prepare, put, reads, start_head};
use asks::Asks;
use lent::Edit;
use std::io;

// A value on the slot behind the last name's.
pub fn past_names<R: Print>(asks: &mut Asks<R>, text: &mut [u8]) -> io::Result<()> {
    start_head(asks, text)?;
    put(asks, 16653 + 9, 1, 3)?;
    reads(asks, 1)?;
    put(asks, 16653 + 9, 1, 0)?;
    reads(asks, 0)
}

// A line that leads to no object.
pub fn line_to_none<R: Print>(asks: &mut Asks<R>) -> io::Result<()> {
    log_line(5).make(asks)?;
    reads(asks, 0)?;
    put(asks, 27021 + 10, 8, 0)?;
    reads(asks, 1)
}

// Five rows, of which the last has four ancestors.
pub fn chain<R: Print>(asks: &mut Asks<R>, text: &mut [u8]) -> io::Result<()> {
    start_head(asks, text)?;
    add(asks, text, 16, b"refs/heads/a", 0, 1)?;
    add(asks, text, 32, b"refs/heads/b", 0, 2)?;
    add(asks, text, 48, b"refs/heads/c", 0, 3)?;
    add(asks, text, 64, b"refs/heads/d", 0, 4)?;
    add(asks, text, 80, b"refs/heads/e", 0, 5)?;
    for name in 0..4 {
        load_loose(asks, name, 2, name + 1, 0, 0)?;
    }
    let edit = Edit {
        deref: 1,
        ..Edit::update(7)
    };
    prepare(asks, &[edit], 1, 0, 5)
}

// A sixth row, as the fifth is, for name 5, whose lock is ours. With the fourth row as its parent it has four ancestors; with the fifth
// it would have five.
pub fn ancestors<R: Print>(asks: &mut Asks<R>, region: &[u8]) -> io::Result<()> {
    for (offset, width) in [(0, 8), (8, 8), (16, 8), (24, 8), (32, 4)] {
        copy_number(asks, region, offset, width)?;
    }
    put(asks, 21441, 2, 5)?;
    put(asks, 21005 + 5, 1, 2)?;
    put(asks, 11, 1, 6)?;
    put(asks, 21441 + 27, 1, 3)?;
    reads(asks, 0)?;
    put(asks, 21441 + 27, 1, 4)?;
    reads(asks, 1)
}

// A number of the fifth row becomes one of the sixth.
fn copy_number<R: Print>(
    asks: &mut Asks<R>,
    region: &[u8],
    offset: usize,
    width: usize,
) -> io::Result<()> {
    let from = offset.saturating_add(21405);
    let number = lent::number_at(region, from, width);
    put(asks, offset.saturating_add(21441), width, number)
}

// A region that counts 257 names. Behind the last name's bytes stands the loose value of name 0: with an object whose number begins with
// the byte 65 and has zeros behind it, those bytes are a name too, A.
pub fn count_of_257<R: Print>(asks: &mut Asks<R>) -> io::Result<()> {
    let object = u64::from_be_bytes([b'A', 0, 0, 0, 0, 0, 0, 0]);
    load_loose(asks, 0, 1, object, 0, 0)?;
    reads(asks, 0)?;
    put(asks, 6, 2, 257)?;
    reads(asks, 1)
}
