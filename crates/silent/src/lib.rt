// A runtime for programs that go on in silence: what cannot be written to standard output is let go.
#![tactic(auto)]

ghost use Rattle.std.specs.Prelude.{◌≡◌, Ok};

use std::fmt::Display;
use std::io;

#[derive(Drop)]
pub struct Silent<R> {
    pub rt: R,
}

// Whatever came of the writing, the program goes on.
fn let_go(written: io::Result<()>) -> io::Result<()>
    ensures { result ≡ Ok tt }
{
    written.ok();
    Ok(())
}

impl<R: Print> Print for Silent<R> {
    fn print<D: Display + Drop>(&self, value: D) -> io::Result<()> {
        let_go(self.rt.print(value))
    }

    fn println<D: Display + Drop>(&self, value: D) -> io::Result<()> {
        let_go(self.rt.println(value))
    }

    fn write_all(&self, bytes: &[u8]) -> io::Result<()> {
        let_go(self.rt.write_all(bytes))
    }
}

impl<R: Alloc> Alloc for Silent<R> {
    type A = R::A;

    fn alloc(&self) -> R::A {
        self.rt.alloc()
    }
}
