// A region that is not laid out so: which fields of the head are out of bounds, and which slot of a table is the first that does
// not fit.
#![tactic(auto)]

ghost use Rattle.std.specs.Prelude.{◌≡◌, ◌<◌, ◌≤◌, length};
ghost use Rattle.region.specs.Layout.{region_size};
ghost use Rattle.layout.specs.Tables.{limit_of};

use layout::Table;
use region::Layout;
use std::{fmt, io};

// ---- the head

// A number of the head, and its bounds.
#[derive(Clone, Copy)]
struct Field {
    what: &'static str,
    found: u64,
    least: u64,
    most: u64,
}

// What is wrong with a field that is out of bounds.
impl fmt::Display for Field {
    fn fmt<W: fmt::Write>(&self, f: &mut fmt::Formatter<W>) -> fmt::Result {
        let (what, found, least) = (self.what, self.found, self.least);
        write!(f, "{what} is {found}, and must be {least}")?;
        if least < self.most {
            write!(f, " to {}", self.most)?;
        }
        Ok(())
    }
}

// The fields that are out of bounds.
fn wrong(rt: &impl Print, fields: &[Field]) -> io::Result<()> {
    for field in fields {
        if !(field.least..=field.most).contains(&field.found) {
            println!(rt; "{field}")?;
        }
    }
    Ok(())
}

// Version and length of the rest, which other sizes of a region have too.
pub fn version(rt: &impl Print, region: &[u8]) -> io::Result<()>
    requires { 5 ≤ length region.now }
{
    let version = Field {
        what: "the version",
        found: word::get_at(region, Layout::VERSION_AT, 1),
        least: Layout::VERSION,
        most: Layout::VERSION,
    };
    let rest = Field {
        what: "the length of the rest",
        found: word::get_at(region, Layout::REST_AT, 4),
        least: Layout::REST,
        most: Layout::REST,
    };
    wrong(rt, &[version, rest])
}

fn counts(rt: &impl Print, region: &[u8]) -> io::Result<()>
    requires { length region.now ≡ region_size }
{
    let setting = Field {
        what: "the log setting",
        found: word::get_at(region, Layout::SETTING_AT, 1),
        least: 0,
        most: 2,
    };
    let names = Field {
        what: "the count of names",
        found: word::get_at(region, Layout::NAME_COUNT, 2),
        least: 0,
        most: 256,
    };
    let lines = Field {
        what: "the count of lines",
        found: word::get_at(region, Layout::LINE_COUNT, 2),
        least: 0,
        most: 1024,
    };
    wrong(rt, &[setting, names, lines])
}

// With no mode nothing is prepared, so there are no rows.
fn transaction(rt: &impl Print, region: &[u8]) -> io::Result<()>
    requires { length region.now ≡ region_size }
{
    let mode = Field {
        what: "the mode",
        found: word::get_at(region, Layout::MODE_AT, 1),
        least: 0,
        most: 3,
    };
    let rows = Field {
        what: "the count of rows",
        found: word::get_at(region, Layout::ROW_COUNT, 1),
        least: 0,
        most: layout::most_rows(mode.found) as u64,
    };
    let lock = Field {
        what: "the packed table's lock",
        found: word::get_at(region, Layout::PACKED_LOCK, 1),
        least: 0,
        most: 2,
    };
    wrong(rt, &[mode, rows, lock])
}

// ---- the tables

// Whether one slot fits: one in use has a value's form, any other is zeros.
fn fits(region: &[u8], table: Table, i: usize, used: bool) -> bool
    requires region_len { length region.now ≡ region_size }
    requires i_bound { i < limit_of table }
{
    let width = table.width();
    let at = table.base() + i * width;
    layout::slots_ok(region, table, width, 1, usize::from(used), at)
}

// The first slot that does not fit, where n are in use.
fn first_bad(region: &[u8], table: Table, n: usize) -> Option<usize>
    requires { length region.now ≡ region_size }
{
    for i in 0..table.limit() {
        if !fits(region, table, i, i < n) {
            return Some(i);
        }
    }
    None
}

// A table whose count is out of bounds is passed over. Whether something is wrong with it is what the region's own test says.
fn table(rt: &impl Print, region: &[u8], what: &str, table: Table, n: usize) -> io::Result<()>
    requires { length region.now ≡ region_size }
{
    if n > table.limit() || layout::table_ok(region, table, n) {
        return Ok(());
    }
    match first_bad(region, table, n) {
        None => Ok(()),
        Some(i) if i < n => println!(rt; "{what}, slot {i} does not fit"),
        Some(i) => println!(rt; "{what}, slot {i} is past the count, and not all zeros"),
    }
}

fn tables(rt: &impl Print, region: &[u8]) -> io::Result<()>
    requires { length region.now ≡ region_size }
{
    let names = word::get_at(region, Layout::NAME_COUNT, 2) as usize;
    let rows = word::get_at(region, Layout::ROW_COUNT, 1) as usize;
    let lines = word::get_at(region, Layout::LINE_COUNT, 2) as usize;
    let tables = [
        ("names", Table::Names, names),
        ("loose values", Table::Looses, names),
        ("packed values", Table::Packeds, names),
        ("locks", Table::Locks, names),
        ("rows", Table::Rows, rows),
        ("lines", Table::Lines, lines),
    ];
    for (what, kind, n) in tables {
        table(rt, region, what, kind, n)?;
    }
    Ok(())
}

pub fn all(rt: &impl Print, region: &[u8]) -> io::Result<()>
    requires { length region.now ≡ region_size }
{
    version(rt, region)?;
    counts(rt, region)?;
    transaction(rt, region)?;
    tables(rt, region)
}
