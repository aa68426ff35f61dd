// A text from its first line to its end, or to its first line at fault.
ghost use Rattle.std.specs.Prelude.{◌≡◌, ◌+◌};
ghost use Rattle.texts.specs.Walk.{unended_as, past_as, Roomy, At, Goes, Checks};

use crate::{RefLine, Said};
use std::ops::ControlFlow;

// How a text ends: whole, or with a line at fault, which is malformed or says what cannot be loaded.
#[derive(Clone, Copy)]
pub enum Ending {
    Whole,
    Malformed,
    Unpackable,
}

// Where a line begins, with what must be known of those before it: how many there are, how many of them are ref lines, where the name of the
// last of these stands, and whether that is the line just before.
#[derive(Clone, Copy, Default)]
pub struct Place {
    pub at: usize,
    pub lines: u64,
    pub refs: u64,
    pub last: usize,
    pub end: usize,
    pub direct: bool,
}

// What stands behind the last line feed: nothing, or a line without one.
fn unended(length: usize) -> ControlFlow<Ending, Place>
    ensures { result ≡ unended_as length }
{
    if length == 0 {
        ControlFlow::Break(Ending::Whole)
    } else {
        ControlFlow::Break(Ending::Malformed)
    }
}

// Past the line of so many bytes that begins there.
fn past(place: Place, length: usize, said: Said) -> ControlFlow<Ending, Place>
    requires { Roomy place length }
    ensures { result ≡ past_as place length said }
{
    match said {
        Said::Malformed => ControlFlow::Break(Ending::Malformed),
        Said::Unpackable => ControlFlow::Break(Ending::Unpackable),
        Said::Nothing => ControlFlow::Continue(Place {
            at: place.at + length + 1,
            lines: place.lines + 1,
            direct: false,
            ..place
        }),
        Said::Ref => ControlFlow::Continue(Place {
            at: place.at + length + 1,
            lines: place.lines + 1,
            refs: place.refs + 1,
            last: place.at + RefLine::NAME,
            end: place.at + length,
            direct: true,
        }),
    }
}

fn next_line(text: &[u8], place: Place) -> ControlFlow<Ending, Place>
    requires { At text.now place }
    ensures { Goes text.now place result }
{
    let rest = &text[place.at..];
    let length = names::spelling::up_to(rest, RefLine::LINE_FEED);
    if length == rest.len() {
        return unended(length);
    }
    let last = &text[place.last..place.end];
    let said = crate::line_said(&rest[..length], last, place.direct);
    past(place, length, said)
}

// What a text comes to: how many lines stand before its end or before the first one at fault, how many of them are ref lines, and which of
// the two it is.
#[derive(Clone, Copy)]
pub struct Checked {
    pub lines: u64,
    pub refs: u64,
    pub ending: Ending,
}

pub fn check(text: &[u8]) -> Checked
    ensures { Checks text.now result }
{
    let mut place = Place::default();
    loop {
        match next_line(text, place) {
            ControlFlow::Break(ending) => {
                return Checked {
                    lines: place.lines,
                    refs: place.refs,
                    ending,
                };
            }
            ControlFlow::Continue(next) => place = next,
        }
    }
}
