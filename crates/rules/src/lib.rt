// The rules of a store, tested through the region's accessors: names and values, lines, rows.
#![tactic(auto)]

ghost use Rattle.std.specs.Prelude.{◌≡◌, not, ◌+◌, ◌<◌, ◌≤◌, length};
ghost use Rattle.word.specs.Flags.{Flags, nowhere};
ghost use Rattle.model.specs.Basic.{below};
ghost use Rattle.model.specs.Store.{count, entry_of, rows_in};
ghost use Rattle.model.specs.Rows.{ancestors};
ghost use Rattle.model.specs.Fine.{fine_target, fine_option, fine_loose, fine_packed, fine_entry, fine_line, fine_parent, fine_row, apart_names};
ghost use Rattle.model.specs.Fine.{Upward, fine_names, fine_lines, fine_rows};
ghost use Rattle.region.specs.Region.{view, Laid};
ghost use Rattle.rules.specs.Tests.{name_test};
ghost use Rattle.rules.specs.Marks.{mark_of, Marked, seen, Stood};

use model::{Line, Loose};
use target::{NameNumber, ObjectNumber, Target};
use transaction::Edit;

// ---- names and values

pub fn target_ok(n: usize, t: Target) -> bool
    ensures { result ≡ fine_target n t }
{
    match t {
        Target::Object(oid) => oid.0 != ObjectNumber::NULL,
        Target::Symbolic(name) => name.place() < n,
    }
}

pub fn option_ok(n: usize, t: Option<Target>) -> bool
    ensures { result ≡ fine_option n t }
{
    match t {
        None => true,
        Some(target) => target_ok(n, target),
    }
}

fn loose_ok(n: usize, v: Loose) -> bool
    ensures { result ≡ fine_loose n v }
{
    match v {
        Loose::None | Loose::Broken => true,
        Loose::Target(t) => target_ok(n, t),
    }
}

fn packed_ok(name: &[u8], v: Option<ObjectNumber>) -> bool
    ensures { result ≡ fine_packed name.now v }
{
    match v {
        None => true,
        Some(oid) => oid.0 != ObjectNumber::NULL && names::is_packable(name),
    }
}

#[tactic(auto, unfolding(model::specs::Fine::fine_entry))]
fn entry_ok(region: &[u8], n: NameNumber) -> bool
    requires laid { Laid region.now }
    requires n_bound { n.0 < count (view region.now) }
    ensures { result ≡ fine_entry (count (view region.now)) (entry_of (view region.now) n) }
{
    let name = region::name_at(region, n);
    names::is_name(name)
        && loose_ok(region::count_names(region), region::loose_at(region, n))
        && packed_ok(name, region::packed_at(region, n))
}

// ---- names are apart: by their marks first, since two names that have other marks are no pair

// A number that every byte of a name enters, so that names which begin alike, or end alike, still have other marks as a rule.
#[tactic(auto, unfolding(crate::specs::Marks::mark_of, crate::specs::Marks::mark_on))]
fn mark(name: &[u8]) -> u64
    ensures { result ≡ mark_of name.now }
{
    let mut acc: u64 = 0;
    for &byte in name {
        acc = acc % 4294967296 * 257 + (byte as u64);
    }
    acc
}

fn mark_names(region: &[u8], marks: &mut [u64])
    requires laid { Laid region.now }
    requires marks_len { length marks.old ≡ 256 }
    ensures { Marked (view region.now) marks.new }
{
    for n in 0..region::count_names(region) {
        marks[n] = mark(region::name_at(region, NameNumber::at(n)));
    }
}

fn same_names(region: &[u8], marks: &[u64], n: usize, m: usize) -> bool
    requires laid { Laid region.now }
    requires marked { Marked (view region.now) marks.now }
    requires n_bound { (n < count (view region.now)) × (m < count (view region.now)) }
    ensures { not result ≡ apart_names (view region.now) n m }
{
    marks[n] == marks[m]
        && word::same(
            region::name_at(region, NameNumber::at(n)),
            region::name_at(region, NameNumber::at(m)),
        )
}

// No earlier name has the same bytes.
fn name_apart(region: &[u8], marks: &[u64], n: usize) -> bool
    requires laid { Laid region.now }
    requires marked { Marked (view region.now) marks.now }
    requires n_bound { n < count (view region.now) }
    ensures { result ≡ below n (apart_names (view region.now) n) }
{
    for m in 0..n {
        if same_names(region, marks, n, m) {
            return false;
        }
    }
    true
}

#[tactic(auto, unfolding(crate::specs::Tests::name_test))]
fn name_ok(region: &[u8], marks: &[u64], n: usize) -> bool
    requires laid { Laid region.now }
    requires marked { Marked (view region.now) marks.now }
    requires n_bound { n < count (view region.now) }
    ensures { result ≡ name_test (view region.now) n }
{
    entry_ok(region, NameNumber::at(n)) && name_apart(region, marks, n)
}

fn marked_fine(region: &[u8], marks: &[u64]) -> bool
    requires laid { Laid region.now }
    requires marked { Marked (view region.now) marks.now }
    ensures { result ≡ fine_names (view region.now) }
{
    for n in 0..region::count_names(region) {
        if !name_ok(region, marks, n) {
            return false;
        }
    }
    true
}

pub fn names_fine(region: &[u8]) -> bool
    requires { Laid region.now }
    ensures { result ≡ fine_names (view region.now) }
{
    let mut marks = [0u64; NameNumber::LIMIT];
    mark_names(region, &mut marks);
    marked_fine(region, &marks)
}

// ---- lines

#[tactic(auto, unfolding(model::specs::Fine::fine_line))]
fn line_ok(n: usize, l: Line) -> bool
    ensures { result ≡ fine_line n l }
{
    l.name.place() < n && l.new.0 != ObjectNumber::NULL && l.committer != 0
}

pub fn lines_fine(region: &[u8]) -> bool
    requires { Laid region.now }
    ensures { result ≡ fine_lines (view region.now) }
{
    let count = region::count_names(region);
    for i in 0..region::count_lines(region) {
        if !line_ok(count, region::line_at(region, i)) {
            return false;
        }
    }
    true
}

// ---- rows

// The parent is an earlier row, or none.
fn parent_ok(i: usize, parent: Option<usize>) -> bool
    ensures { result ≡ fine_parent i parent }
{
    match parent {
        None => true,
        Some(j) => j < i,
    }
}

// How many ancestors the row at place i has: the climb from row to parent ends, since each parent's place is smaller.
fn count_ancestors(region: &[u8], i: usize) -> usize
    requires laid { Laid region.now }
    requires i_in_bounds { i < length (rows_in (view region.now).prepared) }
    requires upward { Upward (i + 1) (rows_in (view region.now).prepared) }
    ensures { (result ≡ length (ancestors (rows_in (view region.now).prepared) i)) × (result ≤ i) }
{
    match region::row_at(region, i).parent_index {
        None => 0,
        Some(j) => 1 + count_ancestors(region, j),
    }
}

#[tactic(auto, unfolding(model::specs::Fine::fine_row))]
fn row_ok(region: &[u8], i: usize) -> bool
    requires laid { Laid region.now }
    requires i_in_bounds { i < length (rows_in (view region.now).prepared) }
    requires upward { Upward i (rows_in (view region.now).prepared) }
    ensures { result ≡ fine_row (count (view region.now)) (rows_in (view region.now).prepared) i }
{
    let count = region::count_names(region);
    let row = region::row_at(region, i);
    if row.update.name.place() >= count {
        return false;
    }
    if row.update.deref {
        return false;
    }
    if !option_ok(count, row.update.change.previous_value()) {
        return false;
    }
    if !option_ok(count, row.update.change.new_value()) {
        return false;
    }
    if !parent_ok(i, row.parent_index) {
        return false;
    }
    count_ancestors(region, i) <= Edit::ANCESTORS
}

// Its own rules, and a name that no earlier row has: the flags of the names seen so far tell. If it stands, its own flag goes up.
fn row_stands(region: &[u8], i: usize, flags: &mut [bool]) -> bool
    requires laid { Laid region.now }
    requires i_in_bounds { i < length (rows_in (view region.now).prepared) }
    requires upward { Upward i (rows_in (view region.now).prepared) }
    requires flags { Flags (seen (rows_in (view region.now).prepared) i) flags.old }
    ensures { Stood (view region.now) i result flags.new }
{
    if !row_ok(region, i) {
        return false;
    }
    let n = region::row_name(region, i).place();
    if flags[n] {
        return false;
    }
    word::raise(flags, n);
    true
}

fn flagged_rows_fine(region: &[u8], flags: &mut [bool]) -> bool
    requires laid { Laid region.now }
    requires flags { Flags nowhere flags.old }
    ensures { result ≡ fine_rows (view region.now) }
{
    for i in 0..region::count_rows(region) {
        if !row_stands(region, i, flags) {
            return false;
        }
    }
    true
}

pub fn rows_fine(region: &[u8]) -> bool
    requires { Laid region.now }
    ensures { result ≡ fine_rows (view region.now) }
{
    let mut flags = [false; NameNumber::LIMIT];
    flagged_rows_fine(region, &mut flags)
}
