// What a record can hold, at each edge and past it.
use crate::asks::{Settings, write};
use settings::Record;
use std::io;

// A record is written where the longest has room.
fn written(rt: &impl Print, what: &str, from: &Settings) -> io::Result<()> {
    write(rt, what, &mut [0u8; 579], from)
}

// Names of 1, 32 and 33 bytes, and of none.
fn names(rt: &impl Print) -> io::Result<()> {
    let one = |what, names: &[u8]| {
        let from = Settings {
            version: Record::VERSION_2,
            site: 65535,
            numbers: &[65535],
            lengths: &[names.len() as u64],
            names,
        };
        written(rt, what, &from)
    };
    let bytes = [b'a'; 33];
    one("a name of 1", &bytes[..1])?;
    one("of 32", &bytes[..32])?;
    one("of 33", &bytes)?;
    one("of 0", &[])
}

// Numbers that do not rise, or do not fit, of two committers with names of one byte.
fn numbers(rt: &impl Print) -> io::Result<()> {
    let pairs = [
        ("rising", [1, 2]),
        ("equal", [2, 2]),
        ("from 0", [0, 2]),
        ("to 65536", [1, 65536]),
    ];
    for (what, numbers) in pairs {
        let from = Settings {
            version: Record::VERSION_1,
            site: 0,
            numbers: &numbers,
            lengths: &[1, 1],
            names: b"ab",
        };
        written(rt, what, &from)?;
    }
    Ok(())
}

// A site with no committers.
fn without(version: u64, site: u64) -> Settings<'static> {
    Settings {
        version,
        site,
        numbers: &[],
        lengths: &[],
        names: b"",
    }
}

// Sites and versions.
fn sites(rt: &impl Print) -> io::Result<()> {
    written(rt, "version 1, site 0", &without(Record::VERSION_1, 0))?;
    written(rt, "version 1, site 1", &without(Record::VERSION_1, 1))?;
    written(
        rt,
        "version 2, site 65536",
        &without(Record::VERSION_2, 65536),
    )?;
    written(rt, "version 3", &without(3, 0))
}

// A buffer that is just long enough, and one that is a byte shorter.
fn buffers(rt: &impl Print) -> io::Result<()> {
    let from = without(Record::VERSION_2, 7);
    write(rt, "19 bytes", &mut [0u8; 19], &from)?;
    write(rt, "18 bytes", &mut [0u8; 18], &from)
}

// 16 committers, and 17.
fn many(rt: &impl Print) -> io::Result<()> {
    let numbers = [1, 2, 3, 4, 5, 6, 7, 8, 9, 10, 11, 12, 13, 14, 15, 16, 17];
    let lengths = [32; 17];
    let names = [b'b'; 544];
    let most = Settings {
        version: Record::VERSION_2,
        site: 7,
        numbers: &numbers[..16],
        lengths: &lengths[..16],
        names: &names[..512],
    };
    let too_many = Settings {
        numbers: &numbers,
        lengths: &lengths,
        names: &names,
        ..most
    };
    written(rt, "16 committers", &most)?;
    written(rt, "17 committers", &too_many)
}

pub fn all(rt: &impl Print) -> io::Result<()> {
    names(rt)?;
    numbers(rt)?;
    sites(rt)?;
    buffers(rt)?;
    many(rt)
}
