// Prepare: the list and the mode are read (2, 3), the rows are built in the region's own table and judged (4 to 14), and only then
// locks are taken (R2, R4). A refusal after the first row was written gives every byte back.
#![tactic(auto)]

ghost use Rattle.std.specs.Prelude.{◌≡◌, true, ◌&&◌, [], ◌∷◌, map, ◌<◌, length};
ghost use Rattle.std.specs.Prelude.{None};
ghost use Rattle.word.specs.Codec.{is_some};
ghost use Rattle.transaction.specs.Change.{row_of};
ghost use Rattle.model.specs.Basic.{any, collect};
ghost use Rattle.model.specs.EditList.{edits_of, numbers_of, first_out};
ghost use Rattle.model.specs.Store.{count, rows_in, mode_in, is_prepared, is_lock};
ghost use Rattle.model.specs.Rows.{name_in, row_at, counts};
ghost use Rattle.model.specs.Fine.{Fine, Upward};
ghost use Rattle.model.specs.Split.{splits};
ghost use Rattle.model.specs.Reply.Call.{prepare};
ghost use Rattle.model.specs.Calls.{step};
ghost use Rattle.model.specs.Numbers.{answer};
ghost use Rattle.region.specs.Region.{view, Laid, Became};
ghost use Rattle.rows.specs.Rows.{Named};
ghost use Rattle.writers.specs.Taken.{Taken, outcome_by};
ghost use Rattle.edits.specs.Edits.{edits_in, Registered};
ghost use Rattle.answers.specs.Answers.{answer_by};
ghost use Rattle.calls.specs.Call.{reply_to, Replied};
ghost use Rattle.preparing.specs.Rows.{names_judged, turns_judged, split_judged, judged_rows, list_judged, Begun, held_by, names_held, table_held, prepared_with};

use answers::Verdict;
use model::{Lock, Refusal};
use transaction::PackedRefs;

// ---- 4 to 14

// R2: a counting row, and a foreign lock on the packed table.
fn is_table_held(region: &[u8]) -> bool
    requires { Laid region.now }
    ensures { result ≡ (any (counts (view region.now)) (rows_in (view region.now).prepared) && is_lock Lock.Foreign (view region.now).packed_lock) }
{
    kept::any_counting(region, false) && turns::is_foreign(region::packed_lock(region))
}

// 6, then 7.
fn judge_names(region: &[u8]) -> Result<(), Refusal>
    requires { Laid region.now }
    ensures { outcome_by result tt ≡ names_judged (view region.now) (rows_in (view region.now).prepared) }
{
    splits::assure_one_name_has_one_edit(region)?;
    if is_table_held(region) {
        return Err(Refusal::PackedTransactionAcquire);
    }
    Ok(())
}

// 25 before 8 before 9 to 13, row by row; then 14.
fn judge_turns(region: &mut [u8]) -> Result<(), Refusal>
    requires laid { Laid region.old }
    requires upward { Upward (length (rows_in (view region.old).prepared)) (rows_in (view region.old).prepared) }
    ensures { Taken region.old region.new result (turns_judged (view region.old) (mode_in (view region.old).prepared) (rows_in (view region.old).prepared)) }
{
    let opened = kept::opens_table(region);
    let mode = region::mode(region);
    turns::take_turns(region, mode, opened)?;
    if !kept::room_fine(region) {
        return Err(Refusal::LogFull);
    }
    Ok(())
}

// 6 to 14.
fn judge_split(region: &mut [u8]) -> Result<(), Refusal>
    requires laid { Laid region.old }
    requires upward { Upward (length (rows_in (view region.old).prepared)) (rows_in (view region.old).prepared) }
    ensures { Taken region.old region.new result (split_judged (view region.old) (mode_in (view region.old).prepared) (rows_in (view region.old).prepared)) }
{
    judge_names(region)?;
    judge_turns(region)
}

// 4 or 5: the rows of the list, split.
fn split_rows(region: &mut [u8], list: &[u8]) -> Result<(), Refusal>
    requires laid { Laid region.old }
    requires region_value { is_prepared (view region.old).prepared ≡ true }
    requires region_value_2 { rows_in (view region.old).prepared ≡ [] }
    requires registered { Registered list.now }
    ensures { Taken region.old region.new result (splits (view region.old) (map row_of (edits_in list.now))) }
{
    splits::add_edits(region, list);
    splits::extend_with_splits_of_symbolic_refs(region, list)
}

// The rows of the list, split and judged.
fn judge_rows(region: &mut [u8], list: &[u8]) -> Result<(), Refusal>
    requires laid { Laid region.old }
    requires region_value { is_prepared (view region.old).prepared ≡ true }
    requires region_value_2 { rows_in (view region.old).prepared ≡ [] }
    requires registered { Registered list.now }
    ensures { Taken region.old region.new result (judged_rows (view region.old) (mode_in (view region.old).prepared) (edits_in list.now)) }
{
    split_rows(region, list)?;
    judge_split(region)
}

// ---- R2 and R4: locks are taken

fn hold_row(region: &mut [u8], mode: PackedRefs, i: usize)
    requires laid { Laid region.old }
    requires i_in_bounds { i < length (rows_in (view region.old).prepared) }
    requires i_bound { (name_in (row_at (rows_in (view region.old).prepared) i)).0 < count (view region.old) }
    ensures { Became region.new (held_by mode (row_at (rows_in (view region.old).prepared) i) (view region.old)) }
{
    let row = region::row_at(region, i);
    if rows::keeps_lock(region, mode, row) {
        writers::put_lock_at(region, row.update.name, Lock::Ours);
    }
}

fn hold_names(region: &mut [u8])
    requires laid { Laid region.old }
    requires named { Named (view region.old) }
    ensures { Became region.new (names_held (view region.old)) }
{
    let mode = region::mode(region);
    let rows = region::count_rows(region);
    for i in 0..rows {
        hold_row(region, mode, i);
    }
}

fn hold_table(region: &mut [u8])
    requires { Laid region.old }
    ensures { Became region.new (table_held (view region.old)) }
{
    if kept::opens_table(region) {
        writers::put_packed_lock(region, Lock::Ours);
    }
}

// The rows are taken: how many they are.
fn hold_rows(region: &mut [u8]) -> Verdict
    requires laid { Laid region.old }
    requires named { Named (view region.old) }
    ensures { (answer_by result ≡ answer 0 (length (rows_in (view region.old).prepared) ∷ [])) × Became region.new (names_held (table_held (view region.old))) }
{
    let rows = region::count_rows(region);
    hold_table(region);
    hold_names(region);
    Verdict::done(&[rows as u64])
}

// ---- the call

// The rows of a list whose names are registered, built and judged.
fn judge_list(region: &mut [u8], list: &[u8], mode: PackedRefs) -> Result<(), Refusal>
    requires laid { Laid region.old }
    requires region_value { (view region.old).prepared ≡ None }
    requires list_value { is_some (edits_of list.now) ≡ true }
    requires list_value_2 { first_out (count (view region.old)) (collect numbers_of (edits_in list.now)) ≡ None }
    ensures { Begun region.old region.new result mode (judged_rows (view region.old) mode (edits_in list.now)) }
{
    writers::begin_rows(region, mode);
    judge_rows(region, list)
}

// The rows take their place, or the region is as it was.
fn prepare_rows(region: &mut [u8], list: &[u8], mode: PackedRefs) -> Result<Verdict, Refusal>
    requires laid { Laid region.old }
    requires fine { Fine (view region.old) }
    requires region_value { (view region.old).prepared ≡ None }
    requires list_value { is_some (edits_of list.now) ≡ true }
    requires list_value_2 { first_out (count (view region.old)) (collect numbers_of (edits_in list.now)) ≡ None }
    ensures { Replied result region.old region.new (prepared_with mode (view region.old) (judged_rows (view region.old) mode (edits_in list.now))) }
{
    if let Err(why) = judge_list(region, list, mode) {
        writers::forget_rows(region);
        return Err(why);
    }
    Ok(hold_rows(region))
}

// 3, then the rows.
fn prepare_list(region: &mut [u8], list: &[u8], mode: PackedRefs) -> Result<Verdict, Refusal>
    requires laid { Laid region.old }
    requires fine { Fine (view region.old) }
    requires region_value { (view region.old).prepared ≡ None }
    requires list_value { is_some (edits_of list.now) ≡ true }
    ensures { Replied result region.old region.new (prepared_with mode (view region.old) (list_judged (view region.old) mode (edits_in list.now))) }
{
    let names = region::count_names(region);
    if let Some(number) = edits::first_out(list, names as u64) {
        return Err(Refusal::NotRegistered(number));
    }
    prepare_rows(region, list, mode)
}

// 2, then the list: nothing is prepared yet.
fn prepare_idle(region: &mut [u8], list: &[u8], mode: u64) -> Result<Verdict, Refusal>
    requires laid { Laid region.old }
    requires fine { Fine (view region.old) }
    requires region_value { (view region.old).prepared ≡ None }
    ensures { Replied result region.old region.new (step (prepare list.now mode) (view region.old)) }
{
    if !edits::is_list(list) {
        return Err(Refusal::Malformed);
    }
    let Ok(packed) = PackedRefs::try_from(mode) else {
        return Err(Refusal::Malformed);
    };
    prepare_list(region, list, packed)
}

pub fn prepare(region: &mut [u8], list: &[u8], mode: u64) -> Result<Verdict, Refusal>
    ensures { Replied result region.old region.new (reply_to (prepare list.now mode) region.old) }
{
    if !good::is_good(region) {
        return Err(Refusal::BadRegion);
    }
    if region::mode_number(region) != 0 {
        return Err(Refusal::WrongState);
    }
    prepare_idle(region, list, mode)
}
