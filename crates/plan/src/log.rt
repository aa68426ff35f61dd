// A line of the log, made by calls.
ghost use Rattle.std.specs.Prelude.{◌≡◌};

use asks::{Asks, Call};
use lent::Edit;
use std::io;

#[derive(Clone, Copy, Debug, PartialEq, Eq)]
pub struct LogLine {
    pub name: u64,
    pub previous: u64,
    pub new: u64,
    pub committer: u64,
    pub message: u64,
}

impl LogLine {
    // The edit that makes it: an update of the log only, forced, to the line's new object. The list has two bytes for name and message.
    pub fn edit(&self) -> Edit
        ensures object { result.new_number ≡ self.now.new }
        ensures log { result.log ≡ 1 }
        ensures force { result.force ≡ 1 }
    {
        Edit {
            log: 1,
            force: 1,
            name: (self.name & 0xffff) as u16,
            message: (self.message & 0xffff) as u16,
            ..Edit::update(self.new)
        }
    }

    // The line as it is before: the name has its object, which a commit then leads on to the next, in the log alone. One write is
    // made: the line.
    pub fn make<R: Print>(&self, asks: &mut Asks<R>) -> io::Result<()> {
        let alloc = asks.alloc();
        self.load(asks, self.previous)?;
        let edits = vec![in alloc; self.edit()]?;
        asks.ask(Call::Prepare { edits, mode: 1 }, 0)?;
        asks.ask(
            Call::Commit {
                committer: self.committer,
                allowance: 1000,
            },
            0,
        )?;
        asks.gives(&[1]);
        self.load(asks, 0)
    }

    // The name's loose value becomes an object, or none.
    fn load<R: Print>(&self, asks: &mut Asks<R>, object: u64) -> io::Result<()> {
        let kind = if object == 0 { 0 } else { 1 };
        asks.ask(
            Call::LoadLoose {
                name: self.name,
                kind,
                number: object,
            },
            0,
        )
    }
}
