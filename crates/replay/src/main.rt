// Replays recorded cases: each is a store, an edit list and what the Rust original answered. The calls are made on the proved
// library, and each number that is not the recorded one is printed. The last line says how many cases were replayed and how many
// of them differ. Standard input has the cases, in the form that tests/rust/FORMAT.md says.
#![tactic(auto)]

mod library;
mod replay;

use lines::input;
use lines::input::Ending;
use replay::Replay;
use silent::Silent;
use std::io;
use std::io::BufReader;

// Nothing says that a file ends. So the loop counts its turns, up to a number that no run uses up.
fn main(rt: HostRuntime) -> io::Result<()> {
    let alloc = rt.alloc();
    let mut input = BufReader::new(alloc, rt.reader())?;
    let mut line = Vec::new(alloc);
    let mut replay = Replay::new(alloc, Silent { rt: &rt })?;
    for _ in 0..u64::MAX {
        match input::next_line(&mut input, &mut line)? {
            Some(Ending::Newline) => replay.follow(&line)?,
            Some(Ending::TooLong) => replay.bad_line("it is too long")?,
            Some(Ending::NoNewline) => replay.bad_line("no newline ends it")?,
            None => break,
        }
    }
    replay.end()
}
