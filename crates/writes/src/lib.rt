// The next write of commit as a value: decided here, made in crate committing. All writes stand in one list, by places: a place is
// a row's turn in W1, in W2 or in W4, or the packed write (W3). Who asks for the writes need not make them.
#![tactic(auto)]

ghost use Rattle.std.specs.Prelude.{◌≡◌, true, ◌||◌, not, map, ◌<◌, length};
ghost use Rattle.transaction.specs.Change.{is_delete};
ghost use Rattle.model.specs.Basic.{is_empty};
ghost use Rattle.model.specs.Store.{count};
ghost use Rattle.model.specs.Rows.{name_in, change_in, is_direct};
ghost use Rattle.model.specs.Due.{has_lines, due_line};
ghost use Rattle.model.specs.Demand3.{by};
ghost use Rattle.model.specs.Writes.{packed_set, packed_edit, packed_edits, w2, w3, w4};
ghost use Rattle.model.specs.Writes.Write.{append_line};
ghost use Rattle.region.specs.Region.{view, Laid};
ghost use Rattle.rows.specs.Rows.{Named};
ghost use Rattle.writes.specs.Next.{rows_of, mode_of, the_row, packed_list, write_list, loose_of, first_at, second_at, places};
ghost use Rattle.writes.specs.Told.{tells, Told};

use model::{Line, Loose};
use target::{NameNumber, ObjectNumber, Target};
use transaction::{Edit, PackedRefs};

// Which write, and for which name. The packed write's edits are those of the rows.
#[derive(Clone, Copy)]
pub enum NextWrite {
    AppendLine(Line),
    WriteLoose(NameNumber, Target),
    RemoveLog(NameNumber),
    WritePacked,
    RemoveLoose(NameNumber),
}

// ---- W1

// The log line of a row, if it is due. Whether its name has lines is told by the flag.
#[tactic(auto, unfolding(crate::specs::Next::write_list))]
fn next_line(region: &[u8], flags: &[bool], committer: u16, i: usize) -> Option<NextWrite>
    requires laid { Laid region.now }
    requires i_in_bounds { i < length (rows_of (view region.now)) }
    requires i_value { tells flags.now (the_row (view region.now) i) ≡ has_lines (view region.now) (name_in (the_row (view region.now) i)) }
    ensures { write_list (view region.now) result ≡ map append_line (due_line (by committer) (view region.now) (the_row (view region.now) i)) }
{
    let row = region::row_at(region, i);
    let has = word::is_raised(flags, row.update.name.place());
    let line = rows::due_line(region, has, committer, row)?;
    Some(NextWrite::AppendLine(line))
}

// The row's loose value, if its lock is kept, and it is not log-only and not direct.
#[tactic(auto, unfolding(crate::specs::Next::write_list, crate::specs::Next::loose_of))]
pub fn next_loose(region: &[u8], mode: PackedRefs, row: Edit) -> Option<NextWrite>
    requires { Laid region.now }
    ensures { write_list (view region.now) result ≡ loose_of (view region.now) mode row }
{
    if !rows::keeps_lock(region, mode, row)
        || row.update.change.is_log_only()
        || rows::is_direct(region, mode, row)
    {
        return None;
    }
    let t = row.update.change.new_value()?;
    Some(NextWrite::WriteLoose(row.update.name, t))
}

// ---- W2

// The log of a deleted name, if it has one, as the flag tells.
#[tactic(auto, unfolding(crate::specs::Next::write_list, model::specs::Writes::w2))]
fn next_log(region: &[u8], flags: &[bool], i: usize) -> Option<NextWrite>
    requires laid { Laid region.now }
    requires i_in_bounds { i < length (rows_of (view region.now)) }
    requires i_value { is_delete (change_in (the_row (view region.now) i)) ≡ true → tells flags.now (the_row (view region.now) i) ≡ has_lines (view region.now) (name_in (the_row (view region.now) i)) }
    ensures { write_list (view region.now) result ≡ w2 (view region.now) (the_row (view region.now) i) }
{
    let row = region::row_at(region, i);
    let name = row.update.name;
    if !row.update.change.is_delete() || !word::is_raised(flags, name.place()) {
        return None;
    }
    Some(NextWrite::RemoveLog(name))
}

// ---- W3

// What becomes of a name's packed value, if anything does: another object, or none.
fn packed_set(name: NameNumber, new: Option<Target>) -> Option<Option<ObjectNumber>>
    ensures { packed_list name result ≡ packed_set name new }
{
    Some(Some(new?.try_id()?))
}

// What the packed write does to the row's name: an object is set in modes 2 and 3, a deleted name's value goes.
#[tactic(auto, unfolding(model::specs::Writes::packed_edit))]
pub fn packed_edit(region: &[u8], mode: PackedRefs, row: Edit) -> Option<Option<ObjectNumber>>
    requires laid { Laid region.now }
    requires row_bound { (name_in row).0 < count (view region.now) }
    ensures { packed_list (name_in row) result ≡ packed_edit (view region.now) mode row }
{
    let name = row.update.name;
    if !rows::counts_row(region, row) {
        return None;
    }
    if row.update.change.is_delete() {
        return kept::is_packed(region::packed_at(region, name)).then_some(None);
    }
    if mode == PackedRefs::DeletionsOnly {
        return None;
    }
    packed_set(name, row.update.change.new_value())
}

fn any_edit(region: &[u8]) -> bool
    requires laid { Laid region.now }
    requires named { Named (view region.now) }
    ensures { result ≡ not (is_empty (packed_edits (view region.now) (mode_of (view region.now)) (rows_of (view region.now)))) }
{
    let mode = region::mode(region);
    let rows = region::count_rows(region);
    for i in 0..rows {
        if packed_edit(region, mode, region::row_at(region, i)).is_some() {
            return true;
        }
    }
    false
}

// One packed write, if the table is opened and something is to be set or removed.
#[tactic(auto, unfolding(crate::specs::Next::write_list, model::specs::Writes::w3))]
pub fn next_packed(region: &[u8]) -> Option<NextWrite>
    requires laid { Laid region.now }
    requires named { Named (view region.now) }
    ensures { write_list (view region.now) result ≡ w3 (view region.now) (mode_of (view region.now)) (rows_of (view region.now)) }
{
    if !kept::opens_table(region) || !any_edit(region) {
        return None;
    }
    Some(NextWrite::WritePacked)
}

// ---- W4

fn goes(region: &[u8], mode: PackedRefs, row: Edit) -> bool
    requires { Laid region.now }
    ensures { result ≡ (is_delete (change_in row) || is_direct (view region.now) mode row) }
{
    row.update.change.is_delete() || rows::is_direct(region, mode, row)
}

// The loose value, broken or not, of a deletion or of a direct row, where the row is not log-only.
#[tactic(auto, unfolding(crate::specs::Next::write_list, model::specs::Writes::w4))]
pub fn next_gone(region: &[u8], mode: PackedRefs, row: Edit) -> Option<NextWrite>
    requires laid { Laid region.now }
    requires row_bound { (name_in row).0 < count (view region.now) }
    ensures { write_list (view region.now) result ≡ w4 (view region.now) mode row }
{
    let name = row.update.name;
    if !goes(region, mode, row)
        || row.update.change.is_log_only()
        || region::loose_at(region, name) == Loose::None
    {
        return None;
    }
    Some(NextWrite::RemoveLoose(name))
}

// ---- by places

// The write of a place; in W1 the first of two. The flags were raised before the first write: they tell of every row whose line or log
// is still to be decided whether its name has lines.
#[tactic(auto, unfolding(crate::specs::Next::first_at))]
pub fn next_first(region: &[u8], flags: &[bool], committer: u16, k: usize) -> Option<NextWrite>
    requires laid { Laid region.now }
    requires named { Named (view region.now) }
    requires told { Told flags.now (view region.now) (rows_of (view region.now)) k }
    requires k_bound { k < places (view region.now) }
    ensures { write_list (view region.now) result ≡ first_at (by committer) (view region.now) k }
{
    let rows = region::count_rows(region);
    if k < rows {
        return next_line(region, flags, committer, k);
    }
    let j = k - rows;
    if j < rows {
        return next_log(region, flags, j);
    }
    if j == rows {
        return next_packed(region);
    }
    let i = j - rows - 1;
    next_gone(region, region::mode(region), region::row_at(region, i))
}

// The second write of a place, in W1.
#[tactic(auto, unfolding(crate::specs::Next::write_list, crate::specs::Next::second_at))]
pub fn next_second(region: &[u8], k: usize) -> Option<NextWrite>
    requires { Laid region.now }
    ensures { write_list (view region.now) result ≡ second_at (view region.now) k }
{
    if k >= region::count_rows(region) {
        return None;
    }
    next_loose(region, region::mode(region), region::row_at(region, k))
}
