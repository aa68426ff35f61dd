// What the program writes: a line for each difference, and one at the end.
#![tactic(auto)]

ghost use Rattle.std.specs.Prelude.{◌≡◌, ◌≢◌, ◌≤◌, true, false, OnOk};

use std::fmt::Display;
use std::io;

// Where in the file the program is, and what was counted so far.
#[derive(Drop)]
pub struct Report<R> {
    rt: R,

    // The line's place in the file, from 1.
    pub line: u64,

    // How many cases have ended, and how many of these differ.
    pub cases: u64,
    pub differ: u64,

    // A difference was seen since the last case ended.
    pub differs: bool,
}

impl<R: Print> Report<R> {
    pub fn new(rt: R) -> Report<R>
        ensures cases { result.cases ≡ 0 }
        ensures differ { result.differ ≡ 0 }
        ensures differs { result.differs ≡ false }
    {
        Report {
            rt,
            line: 0,
            cases: 0,
            differ: 0,
            differs: false,
        }
    }

    // The next line of the file is looked at.
    pub fn next_line(&mut self)
        ensures later { self.old.line ≤ self.new.line }
        ensures counts { self.new ≡ record self.old { line = self.new.line } }
    {
        self.line = self.line.saturating_add(1);
    }

    // A number is the recorded one, or the case differs.
    pub fn same(&mut self, what: impl Display + Drop, expected: u64, found: u64) -> io::Result<()>
        ensures equal { expected ≡ found → self.new ≡ self.old }
        ensures other { expected ≢ found → OnOk result (self.new ≡ record self.old { differs = true }) }
    {
        if expected != found {
            self.fault(format_args!("{what}: expected {expected}, found {found}"))?;
        }
        Ok(())
    }

    // The case differs: the line is not one of the format, or not here, or something is otherwise than it says.
    pub fn fault(&mut self, what: impl Display + Drop) -> io::Result<()>
        ensures { OnOk result (self.new ≡ record self.old { differs = true }) }
    {
        let rt = &self.rt;
        let cases = self.cases;
        let line = self.line;
        println!(rt; "case {cases}, line {line}, {what}")?;
        self.differs = true;
        Ok(())
    }

    // What was seen since the last case ended counts as one case that differs.
    fn settle(&mut self)
        ensures settled { self.new.differs ≡ false }
        ensures none { self.old.differs ≡ false → self.new ≡ self.old }
        ensures cases { self.new.cases ≡ self.old.cases }
    {
        if self.differs {
            self.differ = self.differ.saturating_add(1);
            self.differs = false;
        }
    }

    // A case has ended.
    pub fn close(&mut self)
        ensures settled { self.new.differs ≡ false }
        ensures more { self.old.cases ≤ self.new.cases }
        ensures none { self.old.differs ≡ false → self.new.differ ≡ self.old.differ }
    {
        self.settle();
        self.cases = self.cases.saturating_add(1);
    }

    // The file is at its end.
    pub fn end(&mut self) -> io::Result<()> {
        self.settle();
        let rt = &self.rt;
        let cases = self.cases;
        let differ = self.differ;
        println!(rt; "{cases} cases replayed, {differ} differ")
    }
}
