// The planner's message bus, through the exported calls: an edit list arrives in fragments. Each answer is one line: what was asked, the number,
// the first place, how many bytes the receiver holds afterwards, and whether it is fresh. The file stdout has what docs/SPEC.md says of each.
#![tactic(auto)]

mod asks;
mod bus;

use bus::{Bus, LIST};
use receiver::Receiver;
use silent::Silent;
use std::io;

// A list in three pieces, in two, and in single bytes.
fn pieces(rt: &impl Print, bus: &mut Bus) -> io::Result<()> {
    bus.take(rt, "2 bytes", &LIST[..2])?;
    bus.take(rt, "20 bytes", &LIST[2..22])?;
    bus.take(rt, "9 bytes", &LIST[22..])?;
    bus.end(rt, 1)?;
    bus.take_all(rt)?;
    bus.end(rt, 3)?;
    for byte in LIST {
        bus.take(rt, "a byte", &[byte])?;
    }
    bus.end(rt, 2)
}

fn lengths(rt: &impl Print, bus: &mut Bus) -> io::Result<()> {
    bus.send(rt, "nothing held", b"", 1)?;
    bus.send(rt, "too few", &LIST[..30], 1)?;
    bus.send(rt, "too many", &[1; 32], 1)
}

fn modes(rt: &impl Print, bus: &mut Bus) -> io::Result<()> {
    bus.send(rt, "mode 0", &LIST, 0)?;
    bus.send(rt, "mode 2^32 + 1", &LIST, (1 << 32) + 1)
}

// 15 comes before 2.
fn prepared(rt: &impl Print, bus: &mut Bus) -> io::Result<()> {
    bus.send(rt, "prepared", &LIST, 1)?;
    bus.send(rt, "while prepared", b"", 1)?;
    asks::give_up(rt, &mut bus.region)
}

// 868 bytes, and one more: none that came before is lost.
fn room(rt: &impl Print, bus: &mut Bus) -> io::Result<()> {
    let bytes = [1; 869];
    bus.take(rt, "512 bytes", &bytes[..512])?;
    bus.take(rt, "357 more", &bytes[..357])?;
    bus.take(rt, "356 more", &bytes[..356])?;
    bus.take(rt, "1 more", &bytes[..1])?;
    bus.send(rt, "868 bytes of no list", b"", 1)?;
    bus.take(rt, "869 bytes", &bytes)?;
    bus.take(rt, "868 bytes", &bytes[..868])?;
    bus.fresh(rt, "made fresh")
}

// Bytes that no fragments leave.
fn damages(rt: &impl Print, bus: &mut Bus) -> io::Result<()> {
    bus.take_all(rt)?;
    bus.damage(rt, "a byte behind", Receiver::BYTES + 31, 1)?;
    bus.damage(rt, "the last byte", Receiver::SIZE - 1, 255)?;
    bus.damage(rt, "a lower count", 1, 30)?;
    bus.damage(rt, "count 799", 0, 3)?;
    bus.end(rt, 1)
}

fn counts(rt: &impl Print, bus: &mut Bus) -> io::Result<()> {
    bus.take(rt, "868 bytes", &[0; 868])?;
    bus.damage(rt, "count 869", 1, 101)?;
    bus.damage(rt, "count 65380", 0, 255)?;
    bus.fresh(rt, "made fresh")
}

// A size beside the right one.
fn sizes(rt: &impl Print, region: &mut [u8]) -> io::Result<()> {
    bus::sized(rt, "871 bytes", region, &mut [0; 871])?;
    bus::sized(rt, "869 bytes", region, &mut [0; 869])?;
    bus::sized(rt, "no bytes", region, &mut [])
}

// An answer record of another size leaves all as it is; a region that is not good leaves a fresh receiver.
fn others(rt: &impl Print, bus: &mut Bus) -> io::Result<()> {
    bus.take(rt, "31 bytes", &LIST)?;
    asks::tell(
        rt,
        "127 bytes of answer",
        &mut bus.receiver,
        |receiver, answer| {
            dehlbazin::dehlbazin_close_receiver(&mut bus.region, receiver, 1, &mut answer[..127])
        },
    )?;
    bus.end(rt, 1)?;
    bus.take(rt, "bytes", &LIST)?;
    asks::close(rt, "no region", &mut [0; 16], &mut bus.receiver, 1)
}

fn main(rt: HostRuntime) -> io::Result<()> {
    let rt = Silent { rt };
    let mut bus = Bus::new(rt.alloc())?;
    asks::start(&rt, &mut bus.region)?;
    bus.take(&rt, "any bytes", b"")?;
    bus.fresh(&rt, "made fresh")?;
    pieces(&rt, &mut bus)?;
    lengths(&rt, &mut bus)?;
    modes(&rt, &mut bus)?;
    prepared(&rt, &mut bus)?;
    room(&rt, &mut bus)?;
    damages(&rt, &mut bus)?;
    counts(&rt, &mut bus)?;
    sizes(&rt, &mut bus.region)?;
    others(&rt, &mut bus)
}
