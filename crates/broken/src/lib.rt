// A region that is laid out so, but whose store breaks a rule: which, and where. The tests of the six groups decide; what is said
// behind a group's heading is where it was found.
#![tactic(auto)]

ghost use Rattle.std.specs.Prelude.{◌<◌, length};
ghost use Rattle.model.specs.Store.{count, rows_in};
ghost use Rattle.region.specs.Region.{view, Laid};

mod nested;

use model::{Lock, Loose};
use std::fmt::Display;
use std::{fmt, io};
use target::{NameNumber, ObjectNumber};
use transaction::Edit;

// What is not as it must be.
#[derive(Clone, Copy)]
enum Of {
    Name(NameNumber),
    Line(usize),
    Row(usize),
}

impl fmt::Display for Of {
    fn fmt<W: fmt::Write>(&self, f: &mut fmt::Formatter<W>) -> fmt::Result {
        match self {
            Of::Name(n) => write!(f, "name {}", n.0),
            Of::Line(i) => write!(f, "line {i}"),
            Of::Row(i) => write!(f, "row {i}"),
        }
    }
}

// Says what is wrong with it, unless it is fine.
fn fault(rt: &impl Print, fine: bool, of: Of, what: impl Display + Drop) -> io::Result<()> {
    if fine {
        return Ok(());
    }
    println!(rt; "  {of} {what}")
}

// ---- names

fn link_ok(region: &[u8], n: NameNumber) -> bool
    requires laid { Laid region.now }
    requires n_bound { n.0 < count (view region.now) }
{
    match region::loose_at(region, n) {
        Loose::Target(target) => rules::target_ok(region::count_names(region), target),
        Loose::None | Loose::Broken => true,
    }
}

fn packed_ok(region: &[u8], n: NameNumber) -> bool
    requires laid { Laid region.now }
    requires n_bound { n.0 < count (view region.now) }
{
    !kept::is_packed(region::packed_at(region, n)) || rows::name_packable(region, n)
}

// The names before it that are spelled as it is.
fn name_twins(rt: &impl Print, region: &[u8], n: NameNumber) -> io::Result<()>
    requires laid { Laid region.now }
    requires n_bound { n.0 < count (view region.now) }
{
    let name = region::name_at(region, n);
    for place in 0..n.place() {
        let earlier = NameNumber::at(place);
        let twin = word::same(name, region::name_at(region, earlier));
        fault(
            rt,
            !twin,
            Of::Name(n),
            format_args!("is spelled as name {place}"),
        )?;
    }
    Ok(())
}

fn name(rt: &impl Print, region: &[u8], n: NameNumber) -> io::Result<()>
    requires laid { Laid region.now }
    requires n_bound { n.0 < count (view region.now) }
{
    let of = Of::Name(n);
    let spelled = names::is_name(region::name_at(region, n));
    fault(rt, spelled, of, "is not spelled as a name")?;
    fault(rt, link_ok(region, n), of, "links to no registered name")?;
    fault(rt, packed_ok(region, n), of, "is packed, and not packable")?;
    name_twins(rt, region, n)
}

fn names(rt: &impl Print, region: &[u8]) -> io::Result<()>
    requires { Laid region.now }
{
    println!(rt; "rules of names are broken")?;
    for n in 0..region::count_names(region) {
        name(rt, region, NameNumber::at(n))?;
    }
    Ok(())
}

// ---- lines

fn line(rt: &impl Print, region: &[u8], i: usize) -> io::Result<()>
    requires laid { Laid region.now }
    requires i_in_bounds { i < length (view region.now).lines }
{
    let of = Of::Line(i);
    let line = region::line_at(region, i);
    let registered = line.name.place() < region::count_names(region);
    fault(rt, registered, of, "has no registered name")?;
    fault(
        rt,
        line.new.0 != ObjectNumber::NULL,
        of,
        "leads to object 0",
    )?;
    fault(rt, line.committer != 0, of, "has no committer")
}

fn lines(rt: &impl Print, region: &[u8]) -> io::Result<()>
    requires { Laid region.now }
{
    println!(rt; "rules of lines are broken")?;
    for i in 0..region::count_lines(region) {
        line(rt, region, i)?;
    }
    Ok(())
}

// ---- rows

fn targets(rt: &impl Print, region: &[u8], i: usize) -> io::Result<()>
    requires laid { Laid region.now }
    requires i_in_bounds { i < length (rows_in (view region.now).prepared) }
{
    let of = Of::Row(i);
    let change = region::row_at(region, i).update.change;
    let count = region::count_names(region);
    let expected = rules::option_ok(count, change.previous_value());
    fault(rt, expected, of, "expects a link to no registered name")?;
    let new = rules::option_ok(count, change.new_value());
    fault(rt, new, of, "makes a link to no registered name")
}

// Whether the parent, if there is one, is an earlier row.
fn parent_ok(region: &[u8], i: usize) -> bool
    requires laid { Laid region.now }
    requires i_in_bounds { i < length (rows_in (view region.now).prepared) }
{
    region::row_at(region, i)
        .parent_index
        .is_none_or(|parent| parent < i)
}

// The parent of a row, if it has one and that is an earlier row.
fn earlier_parent(region: &[u8], i: usize) -> Option<usize>
    requires { Laid region.now }
{
    if i >= region::count_rows(region) {
        return None;
    }
    region::row_at(region, i)
        .parent_index
        .filter(|&parent| parent < i)
}

// Whether a row has more than four ancestors: five steps up, each time to an earlier row.
fn is_deep(region: &[u8], i: usize) -> bool
    requires { Laid region.now }
{
    let mut row = i;
    for _ in 0..=Edit::ANCESTORS {
        match earlier_parent(region, row) {
            Some(parent) => row = parent,
            None => return false,
        }
    }
    true
}

// The rows before it that have its name.
fn row_twins(rt: &impl Print, region: &[u8], i: usize) -> io::Result<()>
    requires laid { Laid region.now }
    requires i_in_bounds { i < length (rows_in (view region.now).prepared) }
{
    let name = region::row_name(region, i);
    for j in 0..i {
        let twin = region::row_name(region, j) == name;
        fault(
            rt,
            !twin,
            Of::Row(i),
            format_args!("has the name of row {j}"),
        )?;
    }
    Ok(())
}

fn row(rt: &impl Print, region: &[u8], i: usize) -> io::Result<()>
    requires laid { Laid region.now }
    requires i_in_bounds { i < length (rows_in (view region.now).prepared) }
{
    let of = Of::Row(i);
    targets(rt, region, i)?;
    fault(
        rt,
        parent_ok(region, i),
        of,
        "has a parent that is no earlier row",
    )?;
    fault(rt, !is_deep(region, i), of, "has more than four ancestors")?;
    let registered = region::row_name(region, i).place() < region::count_names(region);
    fault(rt, registered, of, "has no registered name")?;
    row_twins(rt, region, i)
}

fn rows(rt: &impl Print, region: &[u8]) -> io::Result<()>
    requires { Laid region.now }
{
    println!(rt; "rules of rows are broken")?;
    for i in 0..region::count_rows(region) {
        row(rt, region, i)?;
    }
    Ok(())
}

// ---- locks

// Whether a row keeps the lock of its name.
fn any_keeps(region: &[u8], n: NameNumber) -> bool
    requires { Laid region.now }
{
    let mode = region::mode(region);
    for i in 0..region::count_rows(region) {
        let of_name = region::row_name(region, i) == n;
        if of_name && rows::keeps_lock(region, mode, region::row_at(region, i)) {
            return true;
        }
    }
    false
}

fn lock(rt: &impl Print, region: &[u8], n: NameNumber) -> io::Result<()>
    requires laid { Laid region.now }
    requires n_bound { n.0 < count (view region.now) }
{
    let of = Of::Name(n);
    let ours = region::lock_at(region, n) == Lock::Ours;
    let keeps = any_keeps(region, n);
    fault(
        rt,
        !ours || keeps,
        of,
        "is locked by us, and no row keeps that lock",
    )?;
    fault(
        rt,
        ours || !keeps,
        of,
        "is not locked by us, and a row keeps that lock",
    )
}

fn packed_lock(rt: &impl Print, region: &[u8]) -> io::Result<()>
    requires { Laid region.now }
{
    let ours = region::packed_lock(region) == Lock::Ours;
    match (ours, kept::opens_table(region)) {
        (true, false) => {
            println!(rt; "  the packed table is locked by us, and the rows do not open it")
        }
        (false, true) => {
            println!(rt; "  the packed table is not locked by us, and the rows open it")
        }
        _ => Ok(()),
    }
}

fn locks(rt: &impl Print, region: &[u8]) -> io::Result<()>
    requires { Laid region.now }
{
    println!(rt; "rules of locks are broken")?;
    packed_lock(rt, region)?;
    for n in 0..region::count_names(region) {
        lock(rt, region, NameNumber::at(n))?;
    }
    Ok(())
}

// ---- all groups

fn room(rt: &impl Print, region: &[u8]) -> io::Result<()>
    requires { Laid region.now }
{
    let due = kept::count_due(region);
    let lines = region::count_lines(region);
    println!(rt; "there is no room for the lines that are due: {due}, beside log lines: {lines}")
}

pub fn all(rt: &impl Print, region: &[u8]) -> io::Result<()>
    requires { Laid region.now }
{
    if !rules::names_fine(region) {
        names(rt, region)?;
    }
    if !rules::lines_fine(region) {
        lines(rt, region)?;
    }
    if !rules::rows_fine(region) {
        rows(rt, region)?;
    }
    if !kept::locks_fine(region) {
        locks(rt, region)?;
    }
    if !kept::room_fine(region) {
        room(rt, region)?;
    }
    if !nested::is_fine(region) {
        nested::all(rt, region)?;
    }
    Ok(())
}
