// One call each, on an answer record of its own, and the line that says what it answered and how many bytes the receiver holds then.
use receiver::Receiver;
use reply::Reply;
use std::{fmt, io};

// What a receiver's count says, whether it is good or not; and where all its bytes are 0, that it is fresh.
#[derive(Clone, Copy)]
struct Held<'a>(&'a [u8]);

impl fmt::Display for Held<'_> {
    fn fmt<W: fmt::Write>(&self, f: &mut fmt::Formatter<W>) -> fmt::Result {
        if let Some(bytes) = self.0.first_chunk::<{ Receiver::COUNT_WIDTH }>() {
            let count = u16::from_be_bytes(*bytes);
            write!(f, ", holds {count}")?;
        }
        if self.0.iter().all(|&byte| byte == 0) {
            write!(f, ", fresh")?;
        }
        Ok(())
    }
}

// A call is made with a receiver, and its line printed.
pub fn tell<F: FnOnce(&mut [u8], &mut [u8; 128]) -> u32>(
    rt: &impl Print,
    what: &str,
    receiver: &mut [u8],
    call: F,
) -> io::Result<()>
    requires { F.IsAlwaysCallable call }
{
    let reply = Reply::of(|answer| call(receiver, answer));
    println!(rt; "{what}: {reply}{}", Held(receiver))
}

pub fn fresh(rt: &impl Print, what: &str, receiver: &mut [u8]) -> io::Result<()> {
    tell(rt, what, receiver, |receiver, answer| {
        dehlbazin::dehlbazin_fresh_receiver(receiver, answer)
    })
}

pub fn take(rt: &impl Print, what: &str, receiver: &mut [u8], fragment: &[u8]) -> io::Result<()> {
    tell(rt, what, receiver, |receiver, answer| {
        dehlbazin::dehlbazin_take_fragment(receiver, fragment, answer)
    })
}

pub fn close(
    rt: &impl Print,
    what: &str,
    region: &mut [u8],
    receiver: &mut [u8],
    mode: u64,
) -> io::Result<()> {
    tell(rt, what, receiver, |receiver, answer| {
        dehlbazin::dehlbazin_close_receiver(region, receiver, mode, answer)
    })
}

// The rows that were prepared are given up: how many there were.
pub fn give_up(rt: &impl Print, region: &mut [u8]) -> io::Result<()> {
    let reply = Reply::of(|answer| dehlbazin::dehlbazin_rollback(region, answer));
    println!(rt; "given up: {reply}")
}

// A store with one name.
pub fn start(rt: &impl Print, region: &mut [u8]) -> io::Result<()> {
    let reply = Reply::of(|answer| dehlbazin::dehlbazin_start(region, 1, answer));
    println!(rt; "start: {reply}")?;
    let reply = Reply::of(|answer| {
        dehlbazin::dehlbazin_add_name(region, b"refs/heads/aisle-7", answer)
    });
    println!(rt; "a name: {reply}")
}
