// The region's rule on names beneath names: no loose value beneath another, and no row that 25 refuses. The names above a given one
// end at its own slashes, so a name is looked at byte by byte, and compared only where a slash stands at the length of another.
#![tactic(auto)]

ghost use Rattle.std.specs.Prelude.{◌≡◌, true, cond, ◌<◌, length, set};
ghost use Rattle.word.specs.Flags.{Flags, nowhere};
ghost use Rattle.model.specs.Basic.{below};
ghost use Rattle.model.specs.Store.{count, entry_at, rows_in, mode_in};
ghost use Rattle.model.specs.Rows.{name_in, row_at};
ghost use Rattle.model.specs.Beneath.{is_loose};
ghost use Rattle.model.specs.Fine.{clear_row, fine_nests};
ghost use Rattle.region.specs.Region.{view, Laid};
ghost use Rattle.rows.specs.Rows.{Named};
ghost use Rattle.nests.specs.Under.{is_up, chosen, chosen_for, size_for, slashed, slash_at, under_one, under, flagged_under, none_under};

use target::NameNumber;
use transaction::{Edit, PackedRefs};

// ---- flags: names with a loose value, names of rows, names of rows that will write one

// The flag of a name with a loose value goes up.
fn flag_name(region: &[u8], n: usize, flags: &mut [bool])
    requires laid { Laid region.now }
    requires n_bound { n < count (view region.now) }
    ensures { flags.new ≡ cond (is_loose (view region.now) n) (set flags.old n true) flags.old }
{
    if beneath::is_loose(region, NameNumber::at(n)) {
        word::raise(flags, n);
    }
}

fn flag_loose(region: &[u8], flags: &mut [bool])
    requires laid { Laid region.now }
    requires flags { Flags nowhere flags.old }
    ensures { Flags (is_loose (view region.now)) flags.new }
{
    let count = region::count_names(region);
    for n in 0..count {
        flag_name(region, n, flags);
    }
}

// Every row, or those alone that will write a loose value.
#[tactic(auto, unfolding(crate::specs::Under::chosen))]
fn is_chosen(region: &[u8], mode: PackedRefs, writing: bool, row: Edit) -> bool
    requires { Laid region.now }
    ensures { result ≡ chosen (view region.now) mode writing row }
{
    !writing || beneath::will_write(region, mode, row)
}

fn flag_row(region: &[u8], mode: PackedRefs, writing: bool, i: usize, flags: &mut [bool])
    requires laid { Laid region.now }
    requires i_in_bounds { i < length (rows_in (view region.now).prepared) }
    ensures { flags.new ≡ cond (chosen (view region.now) mode writing (row_at (rows_in (view region.now).prepared) i)) (set flags.old (name_in (row_at (rows_in (view region.now).prepared) i)).0 true) flags.old }
{
    let row = region::row_at(region, i);
    if is_chosen(region, mode, writing, row) {
        word::raise(flags, row.update.name.place());
    }
}

fn flag_rows(region: &[u8], writing: bool, flags: &mut [bool])
    requires laid { Laid region.now }
    requires flags { Flags nowhere flags.old }
    ensures { Flags (chosen_for (view region.now) writing) flags.new }
{
    let mode = region::mode(region);
    let rows = region::count_rows(region);
    for i in 0..rows {
        flag_row(region, mode, writing, i, flags);
    }
}

// ---- names beneath flagged ones

// The length of a flagged name.
fn flag_size(region: &[u8], upper: &[bool], m: usize, sizes: &mut [bool])
    requires laid { Laid region.now }
    requires m_bound { m < count (view region.now) }
    ensures { sizes.new ≡ cond (is_up upper.now m) (set sizes.old (length (entry_at (view region.now) m).name) true) sizes.old }
{
    if word::is_raised(upper, m) {
        word::raise(sizes, region::name_at(region, NameNumber::at(m)).len());
    }
}

fn flag_sizes(region: &[u8], upper: &[bool], sizes: &mut [bool])
    requires laid { Laid region.now }
    requires flags { Flags nowhere sizes.old }
    ensures { Flags (size_for (view region.now) upper.now) sizes.new }
{
    let count = region::count_names(region);
    for m in 0..count {
        flag_size(region, upper, m, sizes);
    }
}

#[tactic(auto, unfolding(crate::specs::Under::slashed))]
fn is_slash_at(name: &[u8], sizes: &[bool], i: usize) -> bool
    requires { i < length name.now }
    ensures { result ≡ slashed name.now sizes.now i }
{
    name[i] == b'/' && word::is_raised(sizes, i)
}

// A slash stands in the name where a flagged name could end.
#[tactic(auto, unfolding(crate::specs::Under::slash_at))]
fn has_slash_at(name: &[u8], sizes: &[bool]) -> bool
    ensures { result ≡ slash_at name.now sizes.now }
{
    for i in 0..name.len() {
        if is_slash_at(name, sizes, i) {
            return true;
        }
    }
    false
}

#[tactic(auto, unfolding(crate::specs::Under::under_one))]
fn is_under_one(region: &[u8], upper: &[bool], n: usize, m: usize) -> bool
    requires laid { Laid region.now }
    requires n_bound { (n < count (view region.now)) × (m < count (view region.now)) }
    ensures { result ≡ under_one (view region.now) upper.now n m }
{
    word::is_raised(upper, m) && beneath::lies_beneath(region, NameNumber::at(n), NameNumber::at(m))
}

// The name lies beneath a flagged one.
#[tactic(auto, unfolding(crate::specs::Under::under))]
fn is_under(region: &[u8], upper: &[bool], n: usize) -> bool
    requires laid { Laid region.now }
    requires n_bound { n < count (view region.now) }
    ensures { result ≡ under (view region.now) upper.now n }
{
    let count = region::count_names(region);
    for m in 0..count {
        if is_under_one(region, upper, n, m) {
            return true;
        }
    }
    false
}

// The same of a name that is flagged itself. Its slashes are looked at first: as a rule none stands where a flagged name could end.
#[tactic(auto, unfolding(crate::specs::Under::flagged_under))]
fn is_flagged_under(region: &[u8], lower: &[bool], upper: &[bool], sizes: &[bool], n: usize) -> bool
    requires laid { Laid region.now }
    requires n_bound { n < count (view region.now) }
    requires flags { Flags (size_for (view region.now) upper.now) sizes.now }
    ensures { result ≡ flagged_under (view region.now) lower.now upper.now n }
{
    word::is_raised(lower, n)
        && has_slash_at(region::name_at(region, NameNumber::at(n)), sizes)
        && is_under(region, upper, n)
}

fn none_sized(region: &[u8], lower: &[bool], upper: &[bool], sizes: &[bool]) -> bool
    requires laid { Laid region.now }
    requires flags { Flags (size_for (view region.now) upper.now) sizes.now }
    ensures { result ≡ none_under (view region.now) lower.now upper.now }
{
    let count = region::count_names(region);
    for n in 0..count {
        if is_flagged_under(region, lower, upper, sizes, n) {
            return false;
        }
    }
    true
}

// No name that is flagged in the first lies beneath one that is flagged in the second.
fn none_under(region: &[u8], lower: &[bool], upper: &[bool]) -> bool
    requires { Laid region.now }
    ensures { result ≡ none_under (view region.now) lower.now upper.now }
{
    let mut sizes = [false; NameNumber::LIMIT];
    flag_sizes(region, upper, &mut sizes);
    none_sized(region, lower, upper, &sizes)
}

// ---- the rule

// No row that 25 refuses: none beneath a loose value, and of those that will write one, none above a loose value and no two nested.
fn rows_clear(region: &[u8], loose: &[bool]) -> bool
    requires laid { Laid region.now }
    requires named { Named (view region.now) }
    requires flags { Flags (is_loose (view region.now)) loose.now }
    ensures { result ≡ below (length (rows_in (view region.now).prepared)) (clear_row (view region.now) (mode_in (view region.now).prepared) (rows_in (view region.now).prepared)) }
{
    let mut all = [false; NameNumber::LIMIT];
    flag_rows(region, false, &mut all);
    if !none_under(region, &all, loose) {
        return false;
    }
    let mut writing = [false; NameNumber::LIMIT];
    flag_rows(region, true, &mut writing);
    if !none_under(region, loose, &writing) {
        return false;
    }
    none_under(region, &writing, &writing)
}

pub fn nests_fine(region: &[u8]) -> bool
    requires laid { Laid region.now }
    requires named { Named (view region.now) }
    ensures { result ≡ fine_nests (view region.now) }
{
    let mut loose = [false; NameNumber::LIMIT];
    flag_loose(region, &mut loose);
    if !none_under(region, &loose, &loose) {
        return false;
    }
    if region::count_rows(region) == 0 {
        return true;
    }
    rows_clear(region, &loose)
}
