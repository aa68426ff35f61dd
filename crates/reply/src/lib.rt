// What a call of the library answered, for the programs that print it.
#![tactic(auto)]

ghost use Rattle.std.specs.Prelude.{◌≡◌, ◌*◌, ◌<◌, take, drop, replicate};
ghost use Rattle.std.specs.Int.{w64, from_be_bytes};
ghost use Rattle.std.specs.Fn.{FnOnceReturnsAtMut};

use std::fmt;

// The number that came back, and the answer record that was filled.
#[derive(Clone, Copy, Debug)]
pub struct Reply {
    pub number: u32,
    pub record: [u8; 128],
}

impl Reply {
    // A call is made with a record of zeros.
    pub fn of<F: FnOnce(&mut [u8; 128]) -> u32>(call: F) -> Reply
        requires { F.IsAlwaysCallable call }
        ensures { FnOnceReturnsAtMut F.FnOnce call (replicate 128 0) result.number result.record }
    {
        let mut record = [0u8; 128];
        let number = call(&mut record);
        Reply { number, record }
    }

    // A place of the record: eight bytes, the highest first.
    pub fn place(&self, i: usize) -> u64
        requires { i < 16 }
        ensures { result ≡ from_be_bytes w64 (take 8 (drop (8 * i) self.now.record)) }
    {
        let bytes = self.record[8 * i..].first_chunk().unwrap();
        u64::from_be_bytes(*bytes)
    }
}

// The number and the first place.
impl fmt::Display for Reply {
    fn fmt<W: fmt::Write>(&self, f: &mut fmt::Formatter<W>) -> fmt::Result {
        let number = self.number;
        let first = self.place(0);
        write!(f, "{number}, {first}")
    }
}
