// The names of a store, each with what it reads and where that stands.
ghost use Rattle.std.specs.Prelude.{◌<◌};
ghost use Rattle.model.specs.Store.{count};
ghost use Rattle.region.specs.Region.{view, Laid};

use model::Lock;
use std::{fmt, io, str};
use target::{Found, NameNumber, Target};

// A name as it is called: by its bytes, or by its number where that is not registered, or the bytes are no text.
#[derive(Clone, Copy)]
pub struct Called<'a> {
    pub region: &'a [u8],
    pub name: NameNumber,
    ghost laid: { Laid region.now },
}

impl fmt::Display for Called<'_> {
    fn fmt<W: fmt::Write>(&self, f: &mut fmt::Formatter<W>) -> fmt::Result {
        let (region, name) = (self.region, self.name);
        if name.place() < region::count_names(region) {
            if let Ok(text) = str::from_utf8(region::name_at(region, name)) {
                return f.pad(text);
            }
        }
        write!(f, "name {}", name.0)
    }
}

// What a target points to.
#[derive(Clone, Copy)]
pub struct Pointed<'a> {
    pub region: &'a [u8],
    pub target: Target,
    ghost laid: { Laid region.now },
}

impl fmt::Display for Pointed<'_> {
    fn fmt<W: fmt::Write>(&self, f: &mut fmt::Formatter<W>) -> fmt::Result {
        let region = self.region;
        match self.target {
            Target::Object(oid) => write!(f, "object {}", oid.0),
            Target::Symbolic(name) => write!(f, "link to {}", Called { region, name }),
        }
    }
}

// ---- values

// The place where a value is found.
#[derive(Clone, Copy)]
pub struct Place(pub Found);

impl fmt::Display for Place {
    fn fmt<W: fmt::Write>(&self, f: &mut fmt::Formatter<W>) -> fmt::Result {
        f.write_str(match self.0 {
            Found::Loose(_) => "loose",
            Found::Packed(_) => "packed",
            Found::PackedBehindBroken(_) => "packed behind a broken loose",
            Found::Absent => "absent",
            Found::AbsentBehindBroken => "absent behind a broken loose",
        })
    }
}

// The value, unless it is absent, and where it is found; and a packed value that a loose one hides.
fn value(rt: &impl Print, region: &[u8], n: NameNumber) -> io::Result<()>
    requires laid { Laid region.now }
    requires n_bound { n.0 < count (view region.now) }
{
    let found = steps::found_of(region, true, n);
    if let Some(target) = found.value() {
        print!(rt; "{}, ", Pointed { region, target })?;
    }
    print!(rt; "{}", Place(found))?;
    if let (Found::Loose(_), Some(oid)) = (found, region::packed_at(region, n)) {
        print!(rt; " (over packed {})", oid.0)?;
    }
    Ok(())
}

// ---- one name, and all of them

// A free lock is not said.
fn locked(lock: Lock) -> &'static str {
    match lock {
        Lock::Free => "",
        Lock::Foreign => ", locked by another",
        Lock::Ours => ", locked by us",
    }
}

fn entry(rt: &impl Print, region: &[u8], name: NameNumber, width: usize) -> io::Result<()>
    requires laid { Laid region.now }
    requires name_bound { name.0 < count (view region.now) }
{
    print!(rt; "{:>4}  {:<width$}  ", name.0, Called { region, name })?;
    value(rt, region, name)?;
    println!(rt; "{}", locked(region::lock_at(region, name)))
}

// How long the longest name is.
fn longest(region: &[u8]) -> usize
    requires { Laid region.now }
{
    let mut most = 0;
    for n in 0..region::count_names(region) {
        most = most.max(region::name_at(region, NameNumber::at(n)).len());
    }
    most
}

pub fn all(rt: &impl Print, region: &[u8]) -> io::Result<()>
    requires { Laid region.now }
{
    let count = region::count_names(region);
    println!(rt; "names: {count}")?;
    let width = longest(region);
    for n in 0..count {
        entry(rt, region, NameNumber::at(n), width)?;
    }
    Ok(())
}
