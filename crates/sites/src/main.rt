// A site's settings, through the exported calls: records are written, read by an older and a newer reader, damaged, and started with. Each
// answer is one line: what was asked, the number, and the first four places. The file stdout has what docs/SETTINGS.md says of each.
#![tactic(auto)]

ghost use Rattle.std.specs.Prelude.{◌<◌, ◌≤◌, length};

mod asks;
mod bounds;

use asks::Settings;
use settings::{Heading, Record};
use silent::Silent;
use std::io;

// An older reader refuses it, and a newer one reads it.
fn readers(rt: &impl Print, record: &[u8]) -> io::Result<()> {
    for known in 0..4 {
        asks::read(rt, format_args!("known {known}"), record, known)?;
    }
    Ok(())
}

// Places count from 0.
fn places(rt: &impl Print, record: &[u8]) -> io::Result<()> {
    for place in 0..3 {
        asks::committer(rt, format_args!("place {place}"), record, place)?;
    }
    asks::committer(rt, "place 2^32", record, 1 << 32)
}

// One byte of a record is another. The line says which, and only where the record is still read.
fn damage(rt: &impl Print, record: &mut [u8], i: usize, by: u8) -> io::Result<()>
    requires { i < length record.old }
{
    let kept = record[i];
    record[i] = kept.wrapping_add(by);
    asks::still(rt, i, by, record)?;
    record[i] = kept;
    Ok(())
}

// Each byte in its turn is one greater, and one less.
fn damages(rt: &impl Print, record: &mut [u8]) -> io::Result<()> {
    for i in 0..record.len() {
        damage(rt, record, i, 1)?;
        damage(rt, record, i, 255)?;
    }
    Ok(())
}

// The first bytes of a buffer.
fn front(rt: &impl Print, what: &str, buffer: &[u8], n: usize) -> io::Result<()>
    requires { n ≤ length buffer.now }
{
    asks::read(rt, what, &buffer[..n], Record::VERSION_2)
}

// What is cut off, and what is too much.
fn lengths(rt: &impl Print, buffer: &[u8]) -> io::Result<()>
    requires { 44 ≤ length buffer.now }
{
    front(rt, "empty", buffer, 0)?;
    front(rt, "version alone", buffer, 1)?;
    front(rt, "one byte short", buffer, 42)?;
    front(rt, "one byte more", buffer, 44)
}

// A record of 43 bytes, in front of a longer buffer.
fn sample(rt: &impl Print, buffer: &mut [u8]) -> io::Result<()> {
    let from = Settings {
        version: Record::VERSION_2,
        site: 7,
        numbers: &[12, 40],
        lengths: &[7, 11],
        names: b"plannernight shift",
    };
    asks::write(rt, "example", buffer, &from)
}

// What is asked of that record as it stands, and when it is damaged.
fn whole(rt: &(impl Print + AllocGlobal), buffer: &mut [u8]) -> io::Result<()>
    requires { 43 ≤ length buffer.old }
{
    let record = &mut buffer[..43];
    readers(rt, record)?;
    places(rt, record)?;
    asks::start(rt, "start", record)?;
    damages(rt, record)
}

fn example(rt: &(impl Print + AllocGlobal)) -> io::Result<()> {
    let mut buffer = [0u8; 579];
    sample(rt, &mut buffer)?;
    lengths(rt, &buffer)?;
    whole(rt, &mut buffer)
}

// Two committers with numbers that follow each other, in version 1.
fn neighbours(rt: &impl Print) -> io::Result<()> {
    let mut record = [0u8; 22];
    let from = Settings {
        version: Record::VERSION_1,
        site: 0,
        numbers: &[1, 2],
        lengths: &[1, 1],
        names: b"ab",
    };
    asks::write(rt, "neighbours", &mut record, &from)?;
    damages(rt, &mut record)
}

// The longest name; and one that is a byte longer, in a record that is otherwise right, since its three lengths say so too.
fn longest_name(rt: &impl Print) -> io::Result<()> {
    let mut record = [b'a'; 50];
    let from = Settings {
        version: Record::VERSION_1,
        site: 0,
        numbers: &[1],
        lengths: &[32],
        names: &[b'a'; 32],
    };
    asks::write(rt, "longest name", &mut record, &from)?;
    front(rt, "it is read", &record, 49)?;
    record[Record::LENGTH_AT + 1] = 47;
    record[Record::COMMITTERS + 1] = 37;
    record[Record::LIST + Heading::LENGTH_AT] = 33;
    front(rt, "33 bytes are not", &record, 50)
}

fn main(rt: HostRuntime) -> io::Result<()> {
    let rt = Silent { rt };
    example(&rt)?;
    neighbours(&rt)?;
    longest_name(&rt)?;
    bounds::all(&rt)
}
