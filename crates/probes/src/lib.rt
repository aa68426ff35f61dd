// Calls that no recorded case makes, since the Rust has nothing that answers as they do: what docs/SPEC.md says of them. They are asked
// for in probes, behind the last case: a probe's calls are made before the next probe is planned.
#![tactic(auto)]

mod lists;
mod names;
mod regions;

use asks::{Asks, Call};
use lent::Edit;
use std::alloc::{AllocError, Global};
use std::io;

#[derive(Clone, Copy, Debug, PartialEq, Eq)]
pub enum Probe {
    GoodNames,
    BadNames,
    Loads,
    Lists,

    // A line of the log, from an object on.
    LogLine(u64),
    FullLog,
    PastNames,
    LineToNone,
    Chain,
    Ancestors,
    AlikeNames,
    NestedLoads,
    NestedRows,
    Start,

    // One of 256 names.
    Name(u8),
    FullNames,
    CountOf257,
}

// All of them, in the order in which they are made.
pub fn all(alloc: Global) -> Result<Vec<Probe>, AllocError> {
    let mut all = Vec::new(alloc);
    all.extend_from_slice(&[
        Probe::GoodNames,
        Probe::BadNames,
        Probe::Loads,
        Probe::Lists,
    ])?;
    for object in (0..1024).rev() {
        all.push(Probe::LogLine(object))?;
    }
    all.extend_from_slice(&[Probe::FullLog, Probe::PastNames, Probe::LineToNone])?;
    all.extend_from_slice(&[Probe::Chain, Probe::Ancestors, Probe::AlikeNames])?;
    all.extend_from_slice(&[Probe::NestedLoads, Probe::NestedRows, Probe::Start])?;
    for name in 0..=u8::MAX {
        all.push(Probe::Name(name))?;
    }
    all.extend_from_slice(&[Probe::FullNames, Probe::CountOf257])?;
    Ok(all)
}

impl Probe {
    // What a probe asks for. Names are put into the text.
    pub fn plan<R: Print>(
        self,
        asks: &mut Asks<R>,
        text: &mut [u8],
        region: &[u8],
    ) -> io::Result<()> {
        match self {
            Probe::GoodNames => names::good(asks, text),
            Probe::BadNames => names::bad(asks, text),
            Probe::Loads => names::loads(asks),
            Probe::Lists => lists::lists(asks),
            Probe::LogLine(object) => lists::log_line(object).make(asks),
            Probe::FullLog => lists::full_log(asks),
            Probe::PastNames => regions::past_names(asks, text),
            Probe::LineToNone => regions::line_to_none(asks),
            Probe::Chain => regions::chain(asks, text),
            Probe::Ancestors => regions::ancestors(asks, region),
            Probe::AlikeNames => names::alike(asks, text),
            Probe::NestedLoads => names::nested_loads(asks, text),
            Probe::NestedRows => lists::nested_rows(asks),
            Probe::Start => start(asks, 0),
            Probe::Name(name) => names::one_of_many(asks, text, name),
            Probe::FullNames => names::full(asks, text),
            Probe::CountOf257 => regions::count_of_257(asks),
        }
    }
}

// ---- what the probes ask for

// A call, the number that it is to return, and place 0 of its record. The other places are 0.
fn is<R: Print>(asks: &mut Asks<R>, call: Call, returns: u64, place: u64) -> io::Result<()> {
    asks.ask(call, returns)?;
    asks.gives(&[place]);
    Ok(())
}

fn start<R: Print>(asks: &mut Asks<R>, setting: u64) -> io::Result<()> {
    is(asks, Call::Start { setting }, 0, 0)
}

fn put<R: Print>(asks: &mut Asks<R>, at: usize, width: usize, number: u64) -> io::Result<()> {
    asks.ask_any(Call::Put { at, width, number })
}

// Name 0 is read: 1 where the region is not good.
fn reads<R: Print>(asks: &mut Asks<R>, returns: u64) -> io::Result<()> {
    asks.ask(Call::ReadName { name: 0 }, returns)
}

// The name is put into the text, at a place where no other name of the probe stands.
fn add<R: Print>(
    asks: &mut Asks<R>,
    text: &mut [u8],
    from: usize,
    name: &[u8],
    returns: u64,
    place: u64,
) -> io::Result<()> {
    let to = from.saturating_add(name.len());
    if let Some(bytes) = text.get_mut(from..to) {
        for (byte, letter) in bytes.iter_mut().zip(name) {
            *byte = *letter;
        }
    }
    is(asks, Call::AddName { from, to }, returns, place)
}

fn start_head<R: Print>(asks: &mut Asks<R>, text: &mut [u8]) -> io::Result<()> {
    start(asks, 1)?;
    add(asks, text, 0, b"HEAD", 0, 0)
}

fn load_loose<R: Print>(
    asks: &mut Asks<R>,
    name: u64,
    kind: u64,
    number: u64,
    returns: u64,
    place: u64,
) -> io::Result<()> {
    is(asks, Call::LoadLoose { name, kind, number }, returns, place)
}

// An object beside kind 1, and none beside the others.
fn load_packed<R: Print>(asks: &mut Asks<R>, name: u64, kind: u64, returns: u64) -> io::Result<()> {
    let number = if kind == 1 { 7 } else { 0 };
    is(asks, Call::LoadPacked { name, kind, number }, returns, 0)
}

fn prepare<R: Print>(
    asks: &mut Asks<R>,
    edits: &[Edit],
    mode: u64,
    returns: u64,
    place: u64,
) -> io::Result<()> {
    let edits = edits.to_vec(asks.alloc())?;
    is(asks, Call::Prepare { edits, mode }, returns, place)
}
