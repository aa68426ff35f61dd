// Lists of edits, while a transaction is prepared and while none is.
use crate::{is, load_loose, load_packed, prepare, put, reads};
use asks::{Asks, Call};
use lent::Edit;
use plan::LogLine;
use std::io;

pub fn lists<R: Print>(asks: &mut Asks<R>) -> io::Result<()> {
    malformed(asks)?;
    prepared(asks)?;
    unprepared(asks)
}

// A mode of 4; a log byte of 2; a target beside an expected value that has none; links to what is no name, of which the expected one
// stands before the new one; one edit more than a list has.
fn malformed<R: Print>(asks: &mut Asks<R>) -> io::Result<()> {
    let update = Edit::update(7);
    prepare(asks, &[update], 4, 2, 0)?;
    let bad_log = Edit { log: 2, ..update };
    prepare(asks, &[bad_log], 1, 2, 0)?;
    let beside_none = Edit {
        expected: 2,
        expected_kind: 1,
        expected_number: 5,
        ..update
    };
    prepare(asks, &[beside_none], 1, 2, 0)?;
    let no_links = Edit {
        expected: 4,
        expected_kind: 2,
        expected_number: 65537,
        new_kind: 2,
        new_number: 65536,
        ..update
    };
    prepare(asks, &[no_links], 1, 3, 65537)?;
    prepare(asks, &[update; 33], 1, 2, 0)
}

fn prepared<R: Print>(asks: &mut Asks<R>) -> io::Result<()> {
    let update = Edit::update(7);
    prepare(asks, &[update], 1, 0, 1)?;
    prepare(asks, &[update], 1, 15, 0)?;
    load_loose(asks, 0, 1, 5, 15, 0)?;
    load_packed(asks, 1, 1, 15)
}

// A committer that is too large is refused, and the transaction stays prepared.
fn unprepared<R: Print>(asks: &mut Asks<R>) -> io::Result<()> {
    commit(asks, 65536, 2)?;
    commit(asks, u64::MAX, 2)?;
    roll_back(asks, 1)?;
    roll_back(asks, 0)?;
    commit(asks, 1, 15)
}

fn commit<R: Print>(asks: &mut Asks<R>, committer: u64, returns: u64) -> io::Result<()> {
    let allowance = 1;
    is(
        asks,
        Call::Commit {
            committer,
            allowance,
        },
        returns,
        0,
    )
}

fn roll_back<R: Print>(asks: &mut Asks<R>, rows: u64) -> io::Result<()> {
    is(asks, Call::Rollback, 0, rows)
}

// ---- a full log

pub fn log_line(object: u64) -> LogLine {
    LogLine {
        name: 0,
        previous: object,
        new: 2000,
        committer: 1,
        message: 0,
    }
}

// The log has room for 1,024 lines, and prepare sees that the next has none.
pub fn full_log<R: Print>(asks: &mut Asks<R>) -> io::Result<()> {
    let name = 0;
    asks.ask(Call::ReadLine { name, place: 1023 }, 0)?;
    is(asks, Call::ReadLine { name, place: 1024 }, 22, 0)?;
    prepare(asks, &[log_line(0).edit()], 1, 14, 0)
}

// ---- names beneath names: name 2, which has a loose value, lies beneath name 1

pub fn nested_rows<R: Print>(asks: &mut Asks<R>) -> io::Result<()> {
    over_loose(asks)?;
    over_unchanged(asks)?;
    over_deleted(asks)?;
    both(asks, 1, 25)?;
    both_direct(asks)?;
    row_beneath(asks)
}

fn update(name: u16, object: u64) -> Edit {
    Edit {
        name,
        ..Edit::update(object)
    }
}

// 25: name 1 would get a loose value above that of name 2.
fn over_loose<R: Print>(asks: &mut Asks<R>) -> io::Result<()> {
    prepare(asks, &[update(1, 9)], 1, 25, 1)
}

// It would not where it has that value packed.
fn over_unchanged<R: Print>(asks: &mut Asks<R>) -> io::Result<()> {
    load_packed(asks, 1, 1, 0)?;
    prepare(asks, &[update(1, 7)], 1, 0, 1)?;
    roll_back(asks, 1)
}

// Nor where it is deleted.
fn over_deleted<R: Print>(asks: &mut Asks<R>) -> io::Result<()> {
    let delete = Edit {
        kind: 2,
        new_kind: 0,
        ..update(1, 0)
    };
    prepare(asks, &[delete], 1, 0, 1)?;
    roll_back(asks, 1)?;
    load_loose(asks, 2, 0, 0, 0, 0)
}

fn both<R: Print>(asks: &mut Asks<R>, mode: u64, returns: u64) -> io::Result<()> {
    prepare(asks, &[update(1, 9), update(2, 9)], mode, returns, 2)
}

// Two rows that go straight to the packed table. Under mode 1 each would write a loose value, and such a region is not good.
fn both_direct<R: Print>(asks: &mut Asks<R>) -> io::Result<()> {
    both(asks, 3, 0)?;
    reads(asks, 0)?;
    put(asks, 10, 1, 1)?;
    reads(asks, 1)?;
    put(asks, 10, 1, 3)?;
    roll_back(asks, 2)
}

// Nor is one with a row beneath a loose value, here a broken one.
fn row_beneath<R: Print>(asks: &mut Asks<R>) -> io::Result<()> {
    prepare(asks, &[update(2, 9)], 3, 0, 1)?;
    put(asks, 16653 + 9, 1, 3)?;
    reads(asks, 1)?;
    put(asks, 16653 + 9, 1, 0)?;
    roll_back(asks, 1)
}
