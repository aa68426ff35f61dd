// The port of gix-ref's src/transaction/ext.rs, on rows in the region's own table: the splits of symbolic refs (R1), and the
// duplicates that are judged after it. A row in the table has no mark that its name is to be followed: the first round is told by the
// edit list, and in every later round each newest row is.
#![tactic(auto)]

ghost use Rattle.std.specs.Prelude.{◌≡◌, true, [], ◌∷◌, map, ◌+◌, ◌-◌, ◌<◌, ◌≤◌, length, drop, replicate};
ghost use Rattle.word.specs.Codec.{is_some};
ghost use Rattle.word.specs.Flags.{Flags, nowhere};
ghost use Rattle.target.specs.Target.{same_name};
ghost use Rattle.transaction.specs.declared.RefEdit.{RefEdit as AnEdit};
ghost use Rattle.transaction.specs.Change.{row_of};
ghost use Rattle.model.specs.Basic.{any};
ghost use Rattle.model.specs.EditList.{edits_of};
ghost use Rattle.model.specs.Store.{entry_of, name_of, rows_in, is_prepared, with_rows};
ghost use Rattle.model.specs.Rows.{name_in};
ghost use Rattle.model.specs.Split.{link_in, parent_change, settled_with, settled, child_of, splits, lesser, one_name_one_edit};
ghost use Rattle.region.specs.Region.{view, Laid, Became};
ghost use Rattle.writers.specs.Taken.{Taken, outcome_by};
ghost use Rattle.edits.specs.Edits.{edits_in, Registered};
ghost use Rattle.splits.specs.Twice.{behind, Repeats, least_from};
ghost use Rattle.splits.specs.Round.{hide, hidden_rows, followed, stepped, steps, leads_on};

use model::{Loose, Refusal};
use target::{NameNumber, ObjectNumber};
use transaction::{Change, Edit, LogChange, PreviousValue, RefEdit, RefLog};

// ---- one row

// R1: broken, absent or an object means no split.
fn link_in(loose: Loose) -> Option<NameNumber>
    ensures { result ≡ link_in loose }
{
    match loose {
        Loose::Target(t) => t.try_name(),
        Loose::None | Loose::Broken => None,
    }
}

// The name that a name links to, looked up in the loose value of exactly that name; a number that is not registered links nowhere.
fn link_of(region: &[u8], name: NameNumber) -> Option<NameNumber>
    requires { Laid region.now }
    ensures { result ≡ link_in (entry_of (view region.now) name).loose }
{
    if name.place() >= region::count_names(region) {
        return None;
    }
    link_in(region::loose_at(region, name))
}

fn follow_row(region: &[u8], row: Edit, follow: bool) -> Option<NameNumber>
    requires { Laid region.now }
    ensures { result ≡ followed (view region.now) follow row }
{
    if !follow {
        return None;
    }
    link_of(region, row.update.name)
}

// R1: the parent becomes log-only, and an update's expected value moves to the child.
fn parent_change(change: Change) -> Change
    ensures { result ≡ parent_change change }
{
    match change {
        Change::Update {
            log,
            expected: _,
            new,
        } => {
            let kept = LogChange {
                mode: RefLog::Only,
                ..log
            };
            Change::Update {
                log: kept,
                expected: PreviousValue::Any,
                new,
            }
        }
        Change::Delete { expected, log: _ } => Change::Delete {
            expected,
            log: RefLog::Only,
        },
    }
}

// A row with another change, not dereferenced any more.
fn settled_with(change: Change, row: Edit) -> Edit
    ensures { result ≡ settled_with change row }
{
    Edit {
        update: RefEdit::new(change, row.update.name, false),
        ..row
    }
}

fn settle(to: Option<NameNumber>, row: Edit) -> Edit
    ensures { result ≡ settled to row }
{
    let change = row.update.change;
    let Some(_) = to else {
        return settled_with(change, row);
    };
    settled_with(parent_change(change), row)
}

// R1: the child has the parent's change, on the name that the link names.
fn child(to: NameNumber, i: usize, row: Edit) -> Edit
    ensures { (result ∷ []) ≡ map hide (child_of (Some to) i row) }
{
    Edit {
        update: RefEdit::new(row.update.change, to, false),
        parent_index: Some(i),
        leaf_referent_previous_oid: ObjectNumber::null(),
    }
}

// One row of a round: settled, and its child appended.
fn split_row(region: &mut [u8], i: usize, follow: bool)
    requires laid { Laid region.old }
    requires region_value { is_prepared (view region.old).prepared ≡ true }
    requires i_in_bounds { i < length (rows_in (view region.old).prepared) }
    requires region_len_bound { length (rows_in (view region.old).prepared) < 160 }
    ensures { Became region.new (with_rows (view region.old) (stepped (view region.old) follow i (rows_in (view region.old).prepared))) }
{
    let row = region::row_at(region, i);
    let to = follow_row(region, row, follow);
    let kept = settle(to, row);
    writers::put_row_at(region, i, kept);
    let Some(name) = to else {
        return;
    };
    writers::add_row(region, child(name, i, row));
}

// ---- rounds

// The rows of the edits, in their order.
pub fn add_edits(region: &mut [u8], list: &[u8])
    requires laid { Laid region.old }
    requires region_value { is_prepared (view region.old).prepared ≡ true }
    requires region_value_2 { rows_in (view region.old).prepared ≡ [] }
    requires registered { Registered list.now }
    ensures { Became region.new (with_rows (view region.old) (hidden_rows (edits_in list.now))) }
{
    let count = edits::count_edits(list);
    for i in 0..count {
        let edit = edits::edit_at(list, i);
        let update = RefEdit::new(edit.change, edit.name, false);
        writers::add_row(region, Edit::new(update));
    }
}

// The first round: each edit's row, which is followed if the edit says so.
fn split_first(region: &mut [u8], list: &[u8])
    requires laid { Laid region.old }
    requires region_value { is_prepared (view region.old).prepared ≡ true }
    requires list_value { is_some (edits_of list.now) ≡ true }
    requires region_len { length (rows_in (view region.old).prepared) ≡ length (edits_in list.now) }
    ensures { Became region.new (with_rows (view region.old) (steps (view region.old) (map (λ (e : AnEdit). e.deref) (edits_in list.now)) 0 (rows_in (view region.old).prepared))) }
{
    let end = edits::count_edits(list);
    for i in 0..end {
        split_row(region, i, edits::is_followed(list, i));
    }
}

// A later round: every row from place `first` on is followed. There is room for a child of each.
fn split_round(region: &mut [u8], first: usize)
    requires laid { Laid region.old }
    requires region_value { is_prepared (view region.old).prepared ≡ true }
    requires first_in_bounds { first ≤ length (rows_in (view region.old).prepared) }
    requires first_len_bound { length (rows_in (view region.old).prepared) + (length (rows_in (view region.old).prepared) - first) ≤ 160 }
    ensures { Became region.new (with_rows (view region.old) (steps (view region.old) (replicate (length (rows_in (view region.old).prepared) - first) true) first (rows_in (view region.old).prepared))) }
{
    let end = region::count_rows(region);
    for i in first..end {
        split_row(region, i, true);
    }
}

// Whether a row from place `first` on leads on to another name.
fn leads_on(region: &[u8], first: usize) -> bool
    requires { Laid region.now }
    ensures { result ≡ leads_on (view region.now) first (rows_in (view region.now).prepared) }
{
    let end = region::count_rows(region);
    for i in first..end {
        if follow_row(region, region::row_at(region, i), true).is_some() {
            return true;
        }
    }
    false
}

// R1, on the rows of the edits: five rounds, of which the last may yield no child (4). There is always room (5): a list has at most
// 32 edits, and each gives at most one child a round.
pub fn extend_with_splits_of_symbolic_refs(region: &mut [u8], list: &[u8]) -> Result<(), Refusal>
    requires laid { Laid region.old }
    requires region_value { is_prepared (view region.old).prepared ≡ true }
    requires list_value { is_some (edits_of list.now) ≡ true }
    requires region_value_2 { rows_in (view region.old).prepared ≡ hidden_rows (edits_in list.now) }
    ensures { Taken region.old region.new result (splits (view region.old) (map row_of (edits_in list.now))) }
{
    let mut first = region::count_rows(region);
    split_first(region, list);
    for _ in 0..3usize {
        let end = region::count_rows(region);
        if end + (end - first) > Edit::LIMIT {
            return Err(Refusal::TooManyRows);
        }
        split_round(region, first);
        first = end;
    }
    if leads_on(region, first) {
        return Err(Refusal::ReferenceCycle);
    }
    Ok(())
}

// ---- 6: two rows, one name

// The bytes of a name; a number that is not registered has none.
fn bytes_of(region: &[u8], name: NameNumber) -> &[u8]
    requires { Laid region.now }
    ensures { result.now ≡ name_of (view region.now) name }
{
    if name.place() >= region::count_names(region) {
        return &region[0..0];
    }
    region::name_at(region, name)
}

// The least in byte order.
fn lesser_of(region: &[u8], name: NameNumber, other: Option<NameNumber>) -> Option<NameNumber>
    requires { Laid region.now }
    ensures { result ≡ lesser (view region.now) name other }
{
    let Some(m) = other else {
        return Some(name);
    };
    if names::spelling::is_before(bytes_of(region, name), bytes_of(region, m)) {
        return Some(name);
    }
    Some(m)
}

// Whether a row from place i on has the name.
fn stands_again(region: &[u8], name: NameNumber, i: usize) -> bool
    requires { Laid region.now }
    ensures { result ≡ any (same_name name) (map name_in (drop i (rows_in (view region.now).prepared))) }
{
    let rows = region::count_rows(region);
    for j in i..rows {
        if name == region::row_name(region, j) {
            return true;
        }
    }
    false
}

// The same by the flags of the rows from place i on; a number that has no flag is looked for among them.
fn stands_behind(region: &[u8], flags: &[bool], name: NameNumber, i: usize) -> bool
    requires laid { Laid region.now }
    requires flags { Flags (behind (rows_in (view region.now).prepared) i) flags.now }
    ensures { result ≡ any (same_name name) (map name_in (drop i (rows_in (view region.now).prepared))) }
{
    let n = name.place();
    if n < flags.len() {
        return flags[n];
    }
    stands_again(region, name, i)
}

// Whether the name of row i stands again behind it. Its own flag goes up.
fn repeats(region: &[u8], flags: &mut [bool], i: usize) -> bool
    requires laid { Laid region.now }
    requires i_in_bounds { i < length (rows_in (view region.now).prepared) }
    requires flags { Flags (behind (rows_in (view region.now).prepared) (i + 1)) flags.old }
    ensures { Repeats (rows_in (view region.now).prepared) i result flags.new }
{
    let name = region::row_name(region, i);
    let again = stands_behind(region, flags, name, i + 1);
    word::raise(flags, name.place());
    again
}

// The least name in byte order that stands twice. Rows are looked at from the last on, as the least is defined.
fn least_repeated(region: &[u8], flags: &mut [bool]) -> Option<NameNumber>
    requires laid { Laid region.now }
    requires flags { Flags nowhere flags.old }
    ensures { result ≡ least_from (view region.now) (rows_in (view region.now).prepared) 0 }
{
    let mut least = None;
    let rows = region::count_rows(region);
    for i in (0..rows).rev() {
        if repeats(region, flags, i) {
            least = lesser_of(region, region::row_name(region, i), least);
        }
    }
    least
}

// 6, with that name.
pub fn assure_one_name_has_one_edit(region: &[u8]) -> Result<(), Refusal>
    requires { Laid region.now }
    ensures { outcome_by result tt ≡ one_name_one_edit (view region.now) (rows_in (view region.now).prepared) }
{
    let mut flags = [false; NameNumber::LIMIT];
    match least_repeated(region, &mut flags) {
        None => Ok(()),
        Some(name) => Err(Refusal::MultipleEdits(name)),
    }
}
