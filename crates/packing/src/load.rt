// The refs of a text that is at no fault, line by line: whether their names have room, and their objects as packed values.
ghost use Rattle.std.specs.Prelude.{◌≡◌, ◌<◌, ◌≤◌, length};
ghost use Rattle.model.specs.Names.{pieces};
ghost use Rattle.model.specs.Store.{count};
ghost use Rattle.model.specs.PackedText.{line_feed, ref_in};
ghost use Rattle.texts.specs.Walk.{first_refs};
ghost use Rattle.region.specs.Region.{view, Laid};
ghost use Rattle.packing.specs.Load.{held_with, fits, Numbers, Numbered, LineLoads, LineLoaded, LinesLoad, LinesLoaded};

use target::{NameNumber, ObjectNumber};
use texts::RefLine;

// ---- room

// How many names are held with that of the line, where so many are held before it: one more if it is new.
fn held_with(region: &[u8], line: &[u8], held: usize) -> usize
    requires laid { Laid region.now }
    requires held_bound { held ≤ 256 }
    ensures { result ≡ held_with (view region.now).entries (ref_in line.now) held }
{
    let Some(_) = texts::reference(line) else {
        return held;
    };
    let Some(_) = steps::find_name(region, &line[RefLine::NAME..]) else {
        return held + 1;
    };
    held
}

// 19: the names of the first lines are all known, or have room. No name stands twice among them, so each is looked for in the region as it is.
pub fn has_room(region: &[u8], text: &[u8], lines: u64) -> bool
    requires laid { Laid region.now }
    requires lines_in_bounds { lines < length (pieces line_feed text.now) }
    ensures { result ≡ fits (view region.now).entries (count (view region.now)) (first_refs lines text.now) }
{
    let mut held = region::count_names(region);
    let mut rest = text;
    for left in (0..lines).rev() {
        let length = names::spelling::up_to(rest, RefLine::LINE_FEED);
        let more = held_with(region, &rest[..length], held);
        if more > NameNumber::LIMIT {
            return false;
        }
        held = more;
        rest = &rest[length + 1..];
    }
    true
}

// ---- loading

// The number of a name, which is added where it is new.
fn number_of(region: &mut [u8], name: &[u8]) -> NameNumber
    requires laid { Laid region.old }
    requires numbers { Numbers name.now (view region.old) }
    ensures { Numbered name.now (view region.old) result region.new }
{
    if let Some(known) = steps::find_name(region, name) {
        return known;
    }
    let n = region::count_names(region);
    writers::add_name(region, name);
    NameNumber::at(n)
}

// A ref line's object becomes the packed value of its name. Another line says nothing.
fn load_line(region: &mut [u8], line: &[u8])
    requires laid { Laid region.old }
    requires line_loads { LineLoads (ref_in line.now) (view region.old) }
    ensures { LineLoaded (ref_in line.now) (view region.old) region.new }
{
    let Some(object) = texts::reference(line) else {
        return;
    };
    let name = number_of(region, &line[RefLine::NAME..]);
    writers::put_packed_at(region, name, Some(ObjectNumber(object)));
}

// The first lines of the text.
pub fn load_lines(region: &mut [u8], text: &[u8], lines: u64)
    requires laid { Laid region.old }
    requires lines_in_bounds { lines < length (pieces line_feed text.now) }
    requires lines_load { LinesLoad (first_refs lines text.now) (view region.old) }
    ensures { LinesLoaded (first_refs lines text.now) (view region.old) region.new }
{
    let mut rest = text;
    for left in (0..lines).rev() {
        let length = names::spelling::up_to(rest, RefLine::LINE_FEED);
        load_line(region, &rest[..length]);
        rest = &rest[length + 1..];
    }
}
