// The calls that are to be made, each with what it is to answer. They are kept in a queue, so that what a line of a case asks for is
// settled before a call is made.
#![tactic(auto)]

ghost use Rattle.std.specs.Prelude.{◌≡◌, ◌≤◌, [], OnOk, vec_len};

mod call;

pub use call::{Call, Kind};
use lent::Answer;
use report::Report;
use std::alloc::Global;
use std::io;

// A call that is to be made. What it returns is judged elsewhere where it is not said; and so are the places of its record.
#[derive(Drop)]
pub struct Ask {
    pub call: Call,
    returns: Option<u64>,
    places: Option<[u64; 16]>,
}

// The calls in their order, and the report that says where one answers otherwise.
#[derive(Drop)]
pub struct Asks<R> {
    pub report: Report<R>,
    pub calls: Vec<Ask>,
}

impl Ask {
    // The call was made: what it returned, and its record, are as they were to be.
    pub fn judge<R: Print>(&self, answer: &Answer, report: &mut Report<R>) -> io::Result<()> {
        let call = &self.call;
        let Some(returns) = self.returns else {
            return Ok(());
        };
        report.same(call, returns, answer.number)?;
        if let Some(places) = self.places {
            for i in (0..16usize).rev() {
                report.same(
                    format_args!("{call}, place {i}"),
                    places[i],
                    answer.places[i],
                )?;
            }
        }
        Ok(())
    }
}

impl<R: Print> Asks<R> {
    const MOST: usize = 1100;

    pub fn new(alloc: Global, report: Report<R>) -> Asks<R>
        ensures report { result.report ≡ report }
        ensures calls { result.calls.items ≡ [] }
    {
        Asks {
            report,
            calls: Vec::new(alloc),
        }
    }

    pub fn alloc(&self) -> Global {
        *self.calls.allocator()
    }

    // Nothing is asked for.
    pub fn clear(&mut self)
        ensures report { self.new.report ≡ self.old.report }
        ensures calls { self.new.calls.items ≡ [] }
    {
        self.calls.clear();
    }

    fn put(&mut self, call: Call, returns: Option<u64>) -> io::Result<()>
        ensures { OnOk result (vec_len self.old.calls ≤ vec_len self.new.calls) }
    {
        if self.calls.len() >= Self::MOST {
            return self.report.fault("too many calls");
        }
        self.calls.push(Ask {
            call,
            returns,
            places: None,
        })?;
        Ok(())
    }

    // A call is to be made, and to return this number.
    pub fn ask(&mut self, call: Call, returns: u64) -> io::Result<()>
        ensures { OnOk result (vec_len self.old.calls ≤ vec_len self.new.calls) }
    {
        self.put(call, Some(returns))
    }

    // A call is to be made. What it returns is judged elsewhere.
    pub fn ask_any(&mut self, call: Call) -> io::Result<()>
        ensures { OnOk result (vec_len self.old.calls ≤ vec_len self.new.calls) }
    {
        self.put(call, None)
    }

    // The record of the last call has these numbers, and zeros behind them.
    pub fn gives(&mut self, numbers: &[u64])
        ensures report { self.new.report ≡ self.old.report }
        ensures calls { vec_len self.new.calls ≡ vec_len self.old.calls }
    {
        if let Some(ask) = self.calls.last_mut() {
            let mut places = [0; 16];
            for (place, number) in places.iter_mut().zip(numbers) {
                *place = *number;
            }
            ask.places = Some(places);
        }
    }
}
