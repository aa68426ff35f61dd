// Backups, through the exported calls: the packed table is written as text and read from one. Each answer is one line: what was asked, the number
// and the first place. Behind a writing stand all bytes of its buffer, which were dots before. The file stdout has what docs/PACKED-TEXT.md says
// of each.
#![tactic(auto)]

mod asks;
mod full;
mod readings;

use region::Layout;
use silent::Silent;
use std::io;

// An edit list of no edits: it is prepared, with no rows.
const NO_EDITS: [u8; 4] = [1, 0, 1, 0];

// The store of the document's whole example.
fn names(rt: &impl Print, region: &mut [u8]) -> io::Result<()> {
    let names = [
        "HEAD",
        "refs/heads/aisle-7",
        "refs/tags/2026-11",
        "refs/heads/aisle-10",
        "refs/heads/dock",
    ];
    for name in names {
        asks::name(rt, region, name)?;
    }
    Ok(())
}

fn values(rt: &impl Print, region: &mut [u8]) -> io::Result<()> {
    asks::loose(rt, region, 0, 2, 1)?;
    asks::loose(rt, region, 1, 1, 12)?;
    asks::packed(rt, region, 1, 7)?;
    asks::packed(rt, region, 2, 65537)?;
    asks::packed(rt, region, 3, 255)?;
    asks::loose(rt, region, 4, 1, 9)
}

// 180 bytes are enough, and those past them stay; one less is refused.
fn writings(rt: &impl Print, region: &[u8]) -> io::Result<()> {
    asks::write(rt, "186 bytes", region, &mut [b'.'; 186])?;
    asks::write(rt, "180 bytes", region, &mut [b'.'; 180])?;
    asks::write(rt, "179 bytes", region, &mut [b'.'; 179])?;
    asks::write(rt, "no bytes", region, &mut [])
}

// While a transaction is prepared the table can be written, and not read.
fn prepared(rt: &impl Print, region: &mut [u8]) -> io::Result<()> {
    asks::tell(rt, "prepared", |answer| {
        dehlbazin::dehlbazin_prepare(region, &NO_EDITS, 1, answer)
    })?;
    readings::written(rt, region)?;
    asks::read(rt, "while prepared", region, "")?;
    asks::tell(rt, "given up", |answer| {
        dehlbazin::dehlbazin_rollback(region, answer)
    })
}

// A record of another size: nothing is written, or read. And no store.
fn others(rt: &impl Print, region: &mut [u8]) -> io::Result<()> {
    let mut dots = [b'.'; 180];
    asks::tell(rt, "written with 127 bytes of answer", |answer| {
        dehlbazin::dehlbazin_write_packed(region, &mut dots, &mut answer[..127])
    })?;
    asks::tell_bytes(rt, &dots)?;
    asks::tell(rt, "read with 127 bytes of answer", |answer| {
        dehlbazin::dehlbazin_read_packed(region, b"", &mut answer[..127])
    })?;
    asks::write(rt, "no region", &[0; 16], &mut dots)?;
    asks::read(rt, "into no region", &mut [0; 16], "")
}

fn main(rt: HostRuntime) -> io::Result<()> {
    let rt = Silent { rt };
    let mut store = vec![in rt.alloc(); 0; Layout::SIZE]?;
    let region = &mut store[..];
    asks::start(&rt, region)?;
    names(&rt, region)?;
    values(&rt, region)?;
    writings(&rt, region)?;
    readings::refused(&rt, region)?;
    prepared(&rt, region)?;
    others(&rt, region)?;
    readings::taken(&rt, region)?;
    full::all(&rt, region)
}
