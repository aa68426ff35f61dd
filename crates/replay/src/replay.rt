// The lines of the file, each followed as it comes, and behind the last what no recorded case asks.
use crate::library;
use asks::Asks;
use lent::Lent;
use lines::order::Reading;
use plan::Case;
use report::Report;
use std::alloc::{AllocError, Global};
use std::io;

#[derive(Drop)]
pub struct Replay<R> {
    reading: Reading,
    case: Case,
    asks: Asks<R>,
    lent: Lent,
}

impl<R: Print + Drop> Replay<R> {
    pub fn new(alloc: Global, rt: R) -> Result<Replay<R>, AllocError> {
        Ok(Replay {
            reading: Reading::new(),
            case: Case::new(alloc),
            lent: Lent::new(alloc)?,
            asks: Asks::new(alloc, Report::new(rt)),
        })
    }

    // Does what a line of the file says, where it may stand there.
    pub fn follow(&mut self, line: &[u8]) -> io::Result<()> {
        let Some(entry) = self.reading.line(&mut self.asks.report, line)? else {
            return Ok(());
        };
        self.asks.clear();
        self.case.line(&mut self.asks, &self.lent, &entry, line)?;
        self.make_all(line)?;
        self.case.made(&mut self.asks, &self.lent, &entry, line)
    }

    pub fn bad_line(&mut self, what: &str) -> io::Result<()> {
        self.reading.bad_line(&mut self.asks.report, what)
    }

    // The file is at its end.
    pub fn end(&mut self) -> io::Result<()> {
        self.reading.end(&mut self.asks.report)?;
        let mut text = [0; 128];
        for probe in probes::all(self.asks.alloc())? {
            self.asks.clear();
            probe.plan(&mut self.asks, &mut text, &self.lent.region)?;
            self.make_all(&text)?;
        }
        self.asks.report.end()
    }

    // Makes the calls that were asked for, and judges each. The bytes of names stand in the text.
    fn make_all(&mut self, text: &[u8]) -> io::Result<()> {
        for ask in self.asks.calls.iter() {
            library::make(&mut self.lent, &ask.call, text)?;
            ask.judge(&self.lent.answer, &mut self.asks.report)?;
        }
        Ok(())
    }
}
