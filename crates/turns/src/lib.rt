// R3 to R5, row by row, on the region's own table: the port of gix-ref's src/store/file/transaction/prepare.rs. A row's turn is judged
// (25, then 8, then 9 to 13), then what was found replaces what was expected, and its object goes to the row's ancestors.
#![tactic(auto)]

ghost use Rattle.std.specs.Prelude.{◌≡◌, ◌<◌, length, set};
ghost use Rattle.model.specs.Store.{entry_of, rows_in, is_lock, with_rows};
ghost use Rattle.model.specs.Rows.{row_at, ancestors, topmost};
ghost use Rattle.model.specs.Fine.{Upward};
ghost use Rattle.model.specs.Judge.{must_match, judge_delete, judge_update, judge};
ghost use Rattle.model.specs.Prepare.{existing, observing, observed, with_leaf, handed_to, turned, first_refusal, turn_tests, turn, turns_from};
ghost use Rattle.region.specs.Region.{view, Laid, Became};
ghost use Rattle.writers.specs.Taken.{Taken, outcome_by};
ghost use Rattle.turns.specs.Judged.{judged_option};

use model::{Lock, Refusal};
use target::{NameNumber, ObjectNumber, Target};
use transaction::{Change, Edit, PackedRefs, PreviousValue, RefEdit};

// ---- R3's judgement: the two matches of prepare.rs

fn must_match(name: NameNumber, expected: Target, actual: Target) -> Result<(), Refusal>
    ensures { judged_option result ≡ must_match name expected actual }
{
    if expected == actual {
        return Ok(());
    }
    Err(Refusal::ReferenceOutOfDate(name, expected, actual))
}

// What exists must match; nothing need exist.
fn may_match(name: NameNumber, expected: Target, existing: Option<Target>) -> Result<(), Refusal>
    ensures { judged_option result ≡ judge_delete name (PreviousValue.ExistingMustMatch expected) existing }
{
    let Some(actual) = existing else {
        return Ok(());
    };
    must_match(name, expected, actual)
}

fn judge_delete(
    name: NameNumber,
    expected: PreviousValue,
    existing: Option<Target>,
) -> Result<(), Refusal>
    ensures { judged_option result ≡ judge_delete name expected existing }
{
    match expected {
        PreviousValue::Any => Ok(()),
        PreviousValue::MustExist => {
            let Some(_) = existing else {
                return Err(Refusal::DeleteReferenceMustExist(name));
            };
            Ok(())
        }
        PreviousValue::MustNotExist => Err(Refusal::DeleteMustNotExist(name)),
        PreviousValue::MustExistAndMatch(t) => {
            let Some(actual) = existing else {
                return Err(Refusal::DeleteReferenceMustExist(name));
            };
            must_match(name, t, actual)
        }
        PreviousValue::ExistingMustMatch(t) => may_match(name, t, existing),
    }
}

fn free_for(name: NameNumber, new: Target, actual: Target) -> Result<(), Refusal>
    ensures { judged_option result ≡ judge_update name PreviousValue.MustNotExist new (Some actual) }
{
    if actual == new {
        return Ok(());
    }
    Err(Refusal::MustNotExist(name, actual, new))
}

fn judge_update(
    name: NameNumber,
    expected: PreviousValue,
    new: Target,
    existing: Option<Target>,
) -> Result<(), Refusal>
    ensures { judged_option result ≡ judge_update name expected new existing }
{
    match expected {
        PreviousValue::Any => Ok(()),
        PreviousValue::MustExist => {
            let Some(_) = existing else {
                let null = Target::Object(ObjectNumber::null());
                return Err(Refusal::MustExist(name, null));
            };
            Ok(())
        }
        PreviousValue::MustNotExist => {
            let Some(actual) = existing else {
                return Ok(());
            };
            free_for(name, new, actual)
        }
        PreviousValue::MustExistAndMatch(t) => {
            let Some(actual) = existing else {
                return Err(Refusal::MustExist(name, t));
            };
            must_match(name, t, actual)
        }
        PreviousValue::ExistingMustMatch(t) => may_match(name, t, existing),
    }
}

fn judge_change(name: NameNumber, change: Change, existing: Option<Target>) -> Result<(), Refusal>
    ensures { judged_option result ≡ judge name change existing }
{
    match change {
        Change::Update {
            log: _,
            expected,
            new,
        } => judge_update(name, expected, new, existing),
        Change::Delete { expected, log: _ } => judge_delete(name, expected, existing),
    }
}

// ---- what a turn writes

// R3: an existing value replaces what was expected.
fn observing_in(change: Change, existing: Option<Target>) -> Change
    ensures { result ≡ observing change existing }
{
    let Some(t) = existing else {
        return change;
    };
    match change {
        Change::Update {
            log,
            expected: _,
            new,
        } => Change::Update {
            log,
            expected: PreviousValue::MustExistAndMatch(t),
            new,
        },
        Change::Delete { expected: _, log } => Change::Delete {
            expected: PreviousValue::MustExistAndMatch(t),
            log,
        },
    }
}

fn observe(row: Edit, existing: Option<Target>) -> Edit
    ensures { result ≡ observed row existing }
{
    let next = observing_in(row.update.change, existing);
    Edit {
        update: RefEdit::new(next, row.update.name, row.update.deref),
        ..row
    }
}

// R3: the row at place i with the existing value, which it keeps from now on.
fn put_existing(region: &mut [u8], i: usize, opened: bool) -> Edit
    requires laid { Laid region.old }
    requires i_in_bounds { i < length (rows_in (view region.old).prepared) }
    ensures { (result ≡ observed (row_at (rows_in (view region.old).prepared) i) (existing (view region.old) opened (row_at (rows_in (view region.old).prepared) i))) × Became region.new (with_rows (view region.old) (set (rows_in (view region.old).prepared) i result)) }
{
    let row = region::row_at(region, i);
    let found = steps::value_of(region, opened, row.update.name);
    let kept = observe(row, found);
    writers::put_row_at(region, i, kept);
    kept
}

// R5: a row with another leaf-previous.
fn with_leaf(leaf: ObjectNumber, row: Edit) -> Edit
    ensures { result ≡ with_leaf leaf row }
{
    Edit {
        leaf_referent_previous_oid: leaf,
        ..row
    }
}

// R5: the row at place i gets the leaf-previous.
fn put_leaf(region: &mut [u8], i: usize, leaf: ObjectNumber)
    requires laid { Laid region.old }
    requires i_in_bounds { i < length (rows_in (view region.old).prepared) }
    ensures { Became region.new (with_rows (view region.old) (set (rows_in (view region.old).prepared) i (with_leaf leaf (row_at (rows_in (view region.old).prepared) i)))) }
{
    let up = with_leaf(leaf, region::row_at(region, i));
    writers::put_row_at(region, i, up);
}

// R5: every ancestor of the row at place i gets the leaf-previous.
fn hand_up(region: &mut [u8], i: usize, leaf: ObjectNumber)
    requires laid { Laid region.old }
    requires i_in_bounds { i < length (rows_in (view region.old).prepared) }
    requires upward { Upward (length (rows_in (view region.old).prepared)) (rows_in (view region.old).prepared) }
    ensures { Became region.new (with_rows (view region.old) (handed_to (ancestors (rows_in (view region.old).prepared) i) leaf (rows_in (view region.old).prepared))) }
{
    let row = region::row_at(region, i);
    if let Some(p) = row.parent_index {
        put_leaf(region, p, leaf);
        hand_up(region, p, leaf);
    }
}

// R3 and R5: the existing value replaces what was expected, and its object goes to the ancestors.
fn turn_row(region: &mut [u8], i: usize, opened: bool)
    requires laid { Laid region.old }
    requires i_in_bounds { i < length (rows_in (view region.old).prepared) }
    requires upward { Upward (length (rows_in (view region.old).prepared)) (rows_in (view region.old).prepared) }
    ensures { Became region.new (with_rows (view region.old) (turned (view region.old) opened (rows_in (view region.old).prepared) i)) }
{
    let kept = put_existing(region, i, opened);
    if let Some(oid) = kept.update.change.previous_oid() {
        hand_up(region, i, oid);
    }
}

// ---- a turn

pub fn is_foreign(lock: Lock) -> bool
    ensures { result ≡ is_lock Lock.Foreign lock }
{
    lock == Lock::Foreign
}

// Whether the lock of a name is foreign; a number that is not registered has none.
fn held_by_others(region: &[u8], name: NameNumber) -> bool
    requires { Laid region.now }
    ensures { result ≡ is_lock Lock.Foreign (entry_of (view region.now) name).lock }
{
    name.place() < region::count_names(region) && is_foreign(region::lock_at(region, name))
}

// The name of the topmost ancestor of the row at place i.
fn topmost_of(region: &[u8], i: usize) -> NameNumber
    requires laid { Laid region.now }
    requires i_in_bounds { i < length (rows_in (view region.now).prepared) }
    requires upward { Upward (length (rows_in (view region.now).prepared)) (rows_in (view region.now).prepared) }
    ensures { result ≡ topmost (rows_in (view region.now).prepared) i }
{
    let row = region::row_at(region, i);
    match row.parent_index {
        None => row.update.name,
        Some(p) => topmost_of(region, p),
    }
}

// 25, then 8, then 9 to 13.
fn judge_turn(region: &[u8], i: usize, mode: PackedRefs, opened: bool) -> Result<(), Refusal>
    requires laid { Laid region.now }
    requires i_in_bounds { i < length (rows_in (view region.now).prepared) }
    requires upward { Upward (length (rows_in (view region.now).prepared)) (rows_in (view region.now).prepared) }
    ensures { outcome_by result tt ≡ first_refusal (turn_tests (view region.now) mode opened (rows_in (view region.now).prepared) i) }
{
    let row = region::row_at(region, i);
    let name = row.update.name;
    let existing = steps::value_of(region, opened, name);
    if beneath::conflicts(region, mode, i, existing) {
        return Err(Refusal::NameConflict(name));
    }
    if held_by_others(region, name) {
        let top = topmost_of(region, i);
        return Err(Refusal::LockAcquire(top));
    }
    judge_change(name, row.update.change, existing)
}

// A row's turn.
fn lock_ref_and_apply_change(
    region: &mut [u8],
    i: usize,
    mode: PackedRefs,
    opened: bool,
) -> Result<(), Refusal>
    requires laid { Laid region.old }
    requires i_in_bounds { i < length (rows_in (view region.old).prepared) }
    requires upward { Upward (length (rows_in (view region.old).prepared)) (rows_in (view region.old).prepared) }
    ensures { Taken region.old region.new result (turn (view region.old) mode opened (rows_in (view region.old).prepared) i) }
{
    judge_turn(region, i, mode, opened)?;
    turn_row(region, i, opened);
    Ok(())
}

// All turns, in order, up to the first refusal.
pub fn take_turns(region: &mut [u8], mode: PackedRefs, opened: bool) -> Result<(), Refusal>
    requires laid { Laid region.old }
    requires upward { Upward (length (rows_in (view region.old).prepared)) (rows_in (view region.old).prepared) }
    ensures { Taken region.old region.new result (turns_from (view region.old) mode opened (length (rows_in (view region.old).prepared)) 0 (rows_in (view region.old).prepared)) }
{
    let count = region::count_rows(region);
    for i in 0..count {
        lock_ref_and_apply_change(region, i, mode, opened)?;
    }
    Ok(())
}
