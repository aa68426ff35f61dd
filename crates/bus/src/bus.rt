// A region with the receiver before it, and what is asked of the two together.
ghost use Rattle.std.specs.Prelude.{◌<◌};

use crate::asks;
use receiver::Receiver;
use region::Layout;
use std::alloc::{AllocError, Global};
use std::{io, mem};

// Update of name 0 to object 7, with message 3, whatever is there: 31 bytes.
pub const LIST: [u8; 31] = [
    1, 0, 28, 1, 1, 0, 0, 0, 0, 0, 0, 0, 0, 0, 0, 0, 0, 0, 1, 0, 0, 0, 0, 0, 0, 0, 7, 0, 0, 0, 3,
];

#[derive(Debug, Drop)]
pub struct Bus {
    pub region: Vec<u8>,
    pub receiver: [u8; Receiver::SIZE],
}

impl Bus {
    // The receiver's bytes are any.
    pub fn new(alloc: Global) -> Result<Bus, AllocError> {
        Ok(Bus {
            region: vec![in alloc; 0; Layout::SIZE]?,
            receiver: [7; Receiver::SIZE],
        })
    }

    pub fn fresh(&mut self, rt: &impl Print, what: &str) -> io::Result<()> {
        asks::fresh(rt, what, &mut self.receiver)
    }

    pub fn take(&mut self, rt: &impl Print, what: &str, fragment: &[u8]) -> io::Result<()> {
        asks::take(rt, what, &mut self.receiver, fragment)
    }

    // The list in two pieces, of which the first has no bytes.
    pub fn take_all(&mut self, rt: &impl Print) -> io::Result<()> {
        self.take(rt, "no bytes", b"")?;
        self.take(rt, "all bytes", &LIST)
    }

    // Bytes as they stand, then closed: so are one byte too few, one too many, and other modes.
    pub fn send(&mut self, rt: &impl Print, what: &str, bytes: &[u8], mode: u64) -> io::Result<()> {
        self.take(rt, "bytes", bytes)?;
        asks::close(rt, what, &mut self.region, &mut self.receiver, mode)
    }

    // What was prepared is given up.
    pub fn end(&mut self, rt: &impl Print, mode: u64) -> io::Result<()> {
        asks::close(rt, "close", &mut self.region, &mut self.receiver, mode)?;
        asks::give_up(rt, &mut self.region)
    }

    // The receiver with another byte in its place, for that time.
    pub fn damage(&mut self, rt: &impl Print, what: &str, i: usize, byte: u8) -> io::Result<()>
        requires { i < 870 }
    {
        let kept = mem::replace(&mut self.receiver[i], byte);
        refused(rt, what, &mut self.region, &mut self.receiver)?;
        self.receiver[i] = kept;
        Ok(())
    }
}

// A receiver that no fragments leave is refused, and stays as it is.
fn refused(rt: &impl Print, what: &str, region: &mut [u8], receiver: &mut [u8]) -> io::Result<()> {
    asks::take(rt, what, receiver, b"")?;
    asks::close(rt, what, region, receiver, 1)
}

// So is one of another size, which is not made fresh either.
pub fn sized(
    rt: &impl Print,
    what: &str,
    region: &mut [u8],
    receiver: &mut [u8],
) -> io::Result<()> {
    asks::fresh(rt, what, receiver)?;
    refused(rt, what, region, receiver)
}
