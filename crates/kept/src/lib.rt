// What the rules ask of all rows together: R2, whether the packed table is opened; R4, which locks are ours; and the room that the
// due lines take.
#![tactic(auto)]

ghost use Rattle.std.specs.Prelude.{◌≡◌, true, ◌&&◌, cond, ◌<◌, ◌≤◌, length, set};
ghost use Rattle.word.specs.Flags.{Flags, nowhere};
ghost use Rattle.model.specs.Basic.{any, below};
ghost use Rattle.model.specs.Store.{Entry, count, rows_in, mode_in, is_packed};
ghost use Rattle.model.specs.Rows.{name_in, row_at, packs_updates, counts_as_update, opens, keeps_lock};
ghost use Rattle.model.specs.Due.{unsigned, due_line, due_lines};
ghost use Rattle.model.specs.Fine.{kept_for, fine_lock, fine_packed_lock, fine_locks, fine_room};
ghost use Rattle.region.specs.Region.{view, Laid};
ghost use Rattle.rows.specs.Due.{lined};
ghost use Rattle.kept.specs.Counting.{counting};

use model::{Line, Lock};
use target::{NameNumber, ObjectNumber};
use transaction::{Edit, PackedRefs};

// ---- R2

fn is_counting(region: &[u8], update: bool, row: Edit) -> bool
    requires { Laid region.now }
    ensures { result ≡ counting update (view region.now) row }
{
    if update {
        rows::counts_as_update(region, row)
    } else {
        rows::counts_row(region, row)
    }
}

pub fn any_counting(region: &[u8], update: bool) -> bool
    requires { Laid region.now }
    ensures { result ≡ any (counting update (view region.now)) (rows_in (view region.now).prepared) }
{
    for i in 0..region::count_rows(region) {
        if is_counting(region, update, region::row_at(region, i)) {
            return true;
        }
    }
    false
}

pub fn is_packed(v: Option<ObjectNumber>) -> bool
    ensures { result ≡ is_packed v }
{
    v.is_some()
}

fn any_packed(region: &[u8]) -> bool
    requires { Laid region.now }
    ensures { result ≡ any (λ (e : Entry). is_packed e.packed) (view region.now).entries }
{
    for n in 0..region::count_names(region) {
        if is_packed(region::packed_at(region, NameNumber::at(n))) {
            return true;
        }
    }
    false
}

// Modes 2 and 3 pack updates too.
fn packs_update(region: &[u8]) -> bool
    requires { Laid region.now }
    ensures { result ≡ (packs_updates (mode_in (view region.now).prepared) && any (counts_as_update (view region.now)) (rows_in (view region.now).prepared)) }
{
    region::mode(region) != PackedRefs::DeletionsOnly && any_counting(region, true)
}

// R2: whether the packed table is opened.
#[tactic(auto, unfolding(model::specs::Rows::opens))]
pub fn opens_table(region: &[u8]) -> bool
    requires { Laid region.now }
    ensures { result ≡ opens (view region.now) (mode_in (view region.now).prepared) (rows_in (view region.now).prepared) }
{
    any_counting(region, false) && (packs_update(region) || any_packed(region))
}

// ---- R4: a lock is ours exactly if some row keeps it

// The lock that a row keeps, among the flags of kept ones.
fn flag_row(region: &[u8], mode: PackedRefs, i: usize, flags: &mut [bool])
    requires laid { Laid region.now }
    requires i_in_bounds { i < length (rows_in (view region.now).prepared) }
    ensures { flags.new ≡ cond (keeps_lock (view region.now) mode (row_at (rows_in (view region.now).prepared) i)) (set flags.old (name_in (row_at (rows_in (view region.now).prepared) i)).0 true) flags.old }
{
    let row = region::row_at(region, i);
    if rows::keeps_lock(region, mode, row) {
        word::raise(flags, row.update.name.place());
    }
}

// The flags of the names whose lock some row keeps, in one pass.
fn flag_rows(region: &[u8], flags: &mut [bool])
    requires laid { Laid region.now }
    requires flags { Flags nowhere flags.old }
    ensures { Flags (kept_for (view region.now)) flags.new }
{
    let mode = region::mode(region);
    for i in 0..region::count_rows(region) {
        flag_row(region, mode, i, flags);
    }
}

#[tactic(auto, unfolding(model::specs::Fine::fine_lock))]
fn lock_fine(region: &[u8], flags: &[bool], n: NameNumber) -> bool
    requires laid { Laid region.now }
    requires flags { Flags (kept_for (view region.now)) flags.now }
    requires n_bound { n.0 < count (view region.now) }
    ensures { result ≡ fine_lock (view region.now) n.0 }
{
    let ours = region::lock_at(region, n) == Lock::Ours;
    ours == flags[n.place()]
}

fn flagged_locks_fine(region: &[u8], flags: &[bool]) -> bool
    requires laid { Laid region.now }
    requires flags { Flags (kept_for (view region.now)) flags.now }
    ensures { result ≡ below (count (view region.now)) (fine_lock (view region.now)) }
{
    for n in 0..region::count_names(region) {
        if !lock_fine(region, flags, NameNumber::at(n)) {
            return false;
        }
    }
    true
}

fn name_locks_fine(region: &[u8]) -> bool
    requires { Laid region.now }
    ensures { result ≡ below (count (view region.now)) (fine_lock (view region.now)) }
{
    let mut flags = [false; NameNumber::LIMIT];
    flag_rows(region, &mut flags);
    flagged_locks_fine(region, &flags)
}

// The packed table's lock is ours exactly if it is opened.
fn packed_lock_fine(region: &[u8]) -> bool
    requires { Laid region.now }
    ensures { result ≡ fine_packed_lock (view region.now) }
{
    let ours = region::packed_lock(region) == Lock::Ours;
    ours == opens_table(region)
}

#[tactic(auto, unfolding(model::specs::Fine::fine_locks))]
pub fn locks_fine(region: &[u8]) -> bool
    requires { Laid region.now }
    ensures { result ≡ fine_locks (view region.now) }
{
    name_locks_fine(region) && packed_lock_fine(region)
}

// ---- room for the lines that are due

fn count_due_row(region: &[u8], flags: &[bool], row: Edit) -> usize
    requires laid { Laid region.now }
    requires flags { Flags (lined (view region.now)) flags.now }
    ensures { (result ≡ length (due_line unsigned (view region.now) row)) × (result ≤ 1) }
{
    let has = rows::is_lined(region, flags, row.update.name);
    match rows::due_line(region, has, 0, row) {
        None => 0,
        Some(_) => 1,
    }
}

fn count_flagged(region: &[u8], flags: &[bool]) -> usize
    requires laid { Laid region.now }
    requires flags { Flags (lined (view region.now)) flags.now }
    ensures { (result ≡ length (due_lines (view region.now) (rows_in (view region.now).prepared))) × (result ≤ length (rows_in (view region.now).prepared)) }
{
    let mut due: usize = 0;
    for i in 0..region::count_rows(region) {
        due += count_due_row(region, flags, region::row_at(region, i));
    }
    due
}

// How many lines the rows are due: at most one each.
pub fn count_due(region: &[u8]) -> usize
    requires { Laid region.now }
    ensures { (result ≡ length (due_lines (view region.now) (rows_in (view region.now).prepared))) × (result ≤ length (rows_in (view region.now).prepared)) }
{
    let mut flags = [false; NameNumber::LIMIT];
    rows::flag_lines(region, &mut flags);
    count_flagged(region, &flags)
}

// Log lines and due lines together are at most 1,024.
#[tactic(auto, unfolding(model::specs::Fine::fine_room))]
pub fn room_fine(region: &[u8]) -> bool
    requires { Laid region.now }
    ensures { result ≡ fine_room (view region.now) }
{
    region::count_lines(region) + count_due(region) <= Line::LIMIT
}
