// Shows a region to a person: what its store holds, what is prepared in it and what a commit would write; of a region that is not good,
// what is wrong. Each argument names a file with one region; with no argument it is standard input.
#![tactic(auto)]

mod input;
mod judge;
mod store;

use silent::Silent;
use std::io;

fn main(rt: HostRuntime) -> io::Result<()> {
    input::all(&rt, &Silent { rt: &rt })
}
