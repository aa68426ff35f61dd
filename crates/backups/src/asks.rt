// Calls, each on an answer record of its own, and the line that says what it answered.
use reply::Reply;
use std::io;
use std::io::Write;

// A call is made, and what it answered is said.
pub fn tell<F: FnOnce(&mut [u8; 128]) -> u32>(
    rt: &impl Print,
    what: &str,
    call: F,
) -> io::Result<()>
    requires { F.IsAlwaysCallable call }
{
    let reply = Reply::of(call);
    println!(rt; "{what}: {reply}")
}

// The bytes of a buffer, as they are.
pub fn tell_bytes(rt: &impl Print, bytes: &[u8]) -> io::Result<()> {
    io::writer(rt).write_all(bytes)?;
    println!(rt)
}

pub fn start(rt: &impl Print, region: &mut [u8]) -> io::Result<()> {
    tell(rt, "start", |answer| {
        dehlbazin::dehlbazin_start(region, 1, answer)
    })
}

pub fn name(rt: &impl Print, region: &mut [u8], name: &str) -> io::Result<()> {
    tell(rt, name, |answer| {
        dehlbazin::dehlbazin_add_name(region, name.as_bytes(), answer)
    })
}

pub fn loose(rt: &impl Print, region: &mut [u8], name: u64, kind: u64, x: u64) -> io::Result<()> {
    tell(rt, "loose", |answer| {
        dehlbazin::dehlbazin_load_loose(region, name, kind, x, answer)
    })
}

pub fn packed(rt: &impl Print, region: &mut [u8], name: u64, object: u64) -> io::Result<()> {
    tell(rt, "packed", |answer| {
        dehlbazin::dehlbazin_load_packed(region, name, 1, object, answer)
    })
}

// The buffer's bytes follow, the text and what stands past it.
pub fn write(rt: &impl Print, what: &str, region: &[u8], buffer: &mut [u8]) -> io::Result<()> {
    tell(rt, what, |answer| {
        dehlbazin::dehlbazin_write_packed(region, buffer, answer)
    })?;
    tell_bytes(rt, buffer)
}

pub fn read(rt: &impl Print, what: &str, region: &mut [u8], text: &str) -> io::Result<()> {
    tell(rt, what, |answer| {
        dehlbazin::dehlbazin_read_packed(region, text.as_bytes(), answer)
    })
}
