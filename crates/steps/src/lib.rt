// What the calls are made of: functions on a region that is laid out so, each by what the model's call does.
#![tactic(auto)]

ghost use Rattle.std.specs.Prelude.{◌≡◌, ◌&&◌, eqb};
ghost use Rattle.model.specs.Store.{count, entry_of, lines_of};
ghost use Rattle.model.specs.Read.{packed_seen, found_in, found_of, value_of};
ghost use Rattle.model.specs.Commit.{freed, released};
ghost use Rattle.model.specs.Load.{number_from};
ghost use Rattle.region.specs.Region.{view, Laid, Became};
ghost use Rattle.steps.specs.Steps.{found_option, packed_by, free_names};
ghost use Rattle.steps.specs.Steps.{line_among, left_after};

use model::{Line, Lock, Loose};
use target::{Found, NameNumber, ObjectNumber, Target};

// ---- names

// The number of the name with these bytes.
pub fn find_name(region: &[u8], name: &[u8]) -> Option<NameNumber>
    requires { Laid region.now }
    ensures { found_option result ≡ number_from 0 name.now (view region.now).entries }
{
    for n in 0..region::count_names(region) {
        let at = NameNumber::at(n);
        if word::same(name, region::name_at(region, at)) {
            return Some(at);
        }
    }
    None
}

// ---- loads

// A packed value of a kind and a number, on a name that is packable or not.
pub fn packed_of(packable: bool, kind: u64, number: u64) -> Option<Option<ObjectNumber>>
    ensures { result ≡ packed_by packable kind number }
{
    match kind {
        Target::NONE => { if number == 0 { Some(None) } else { None } }
        Target::OBJECT => {
            let oid = ObjectNumber::new(number)?;
            if packable { Some(Some(oid)) } else { None }
        }
        _ => None,
    }
}

// ---- locks

pub fn freed_lock(lock: Lock) -> Lock
    ensures { result ≡ freed lock }
{
    match lock {
        Lock::Free => Lock::Free,
        Lock::Foreign => Lock::Foreign,
        Lock::Ours => Lock::Free,
    }
}

// Every lock that is ours is free.
pub fn free_names(region: &mut [u8])
    requires { Laid region.old }
    ensures { Became region.new (free_names (count (view region.old)) (view region.old)) }
{
    let count = region::count_names(region);
    for n in 0..count {
        let at = NameNumber::at(n);
        let lock = freed_lock(region::lock_at(region, at));
        writers::put_lock_at(region, at, lock);
    }
}

// The transaction is forgotten, and the locks that were ours are free.
pub fn release(region: &mut [u8])
    requires { Laid region.old }
    ensures { Became region.new (released (view region.old)) }
{
    free_names(region);
    let lock = freed_lock(region::packed_lock(region));
    writers::put_packed_lock(region, lock);
    writers::forget_rows(region);
}

// ---- reads

// The packed value, where the packed table is seen.
fn packed_seen(seen: bool, packed: Option<ObjectNumber>) -> Option<ObjectNumber>
    ensures { result ≡ packed_seen seen packed }
{
    if seen { packed } else { None }
}

// A loose target; if that is none or broken, the packed value.
fn found_in(loose: Loose, packed: Option<ObjectNumber>) -> Found
    ensures { result ≡ found_in loose packed }
{
    match loose {
        Loose::Target(t) => Found::Loose(t),
        Loose::None => match packed {
            Some(oid) => Found::Packed(oid),
            None => Found::Absent,
        },
        Loose::Broken => match packed {
            Some(oid) => Found::PackedBehindBroken(oid),
            None => Found::AbsentBehindBroken,
        },
    }
}

// What a name reads and where it is found, with the packed table seen or not; a number that is not registered reads absent.
pub fn found_of(region: &[u8], seen: bool, name: NameNumber) -> Found
    requires { Laid region.now }
    ensures { result ≡ found_of seen (entry_of (view region.now) name) }
{
    if name.place() >= region::count_names(region) {
        return Found::Absent;
    }
    let packed = packed_seen(seen, region::packed_at(region, name));
    found_in(region::loose_at(region, name), packed)
}

// The value part.
pub fn value_of(region: &[u8], seen: bool, name: NameNumber) -> Option<Target>
    requires { Laid region.now }
    ensures { result ≡ value_of seen (entry_of (view region.now) name) }
{
    found_of(region, seen, name).value()
}

// Whether a line is the one: it is the name's, and no other is to be passed before.
fn is_here(same: bool, left: u64) -> bool
    ensures { result ≡ (same && eqb left 0) }
{
    same && left == 0
}

// How many of the name's lines are to be passed after this one.
fn left_after(same: bool, left: u64) -> u64
    ensures { result ≡ left_after same left }
{
    if same { left.saturating_sub(1) } else { left }
}

// The line of a name at a place among its lines.
pub fn find_line(region: &[u8], name: NameNumber, place: u64) -> Option<Line>
    requires { Laid region.now }
    ensures { result ≡ line_among place (lines_of (view region.now) name) }
{
    let mut left = place;
    for i in 0..region::count_lines(region) {
        let line = region::line_at(region, i);
        let same = line.name == name;
        if is_here(same, left) {
            return Some(line);
        }
        left = left_after(same, left);
    }
    None
}
