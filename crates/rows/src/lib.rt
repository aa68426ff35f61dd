// What the rules ask of one row, by value: R2, R4, and the log line that it is due. The region's test, prepare and commit ask the
// same functions. The names are those of the scope.
#![tactic(auto)]

ghost use Rattle.std.specs.Prelude.{◌≡◌, not};
ghost use Rattle.word.specs.Flags.{Flags, nowhere};
ghost use Rattle.target.specs.Target.{same_object};
ghost use Rattle.transaction.specs.Change.{matched, id_of};
ghost use Rattle.model.specs.Basic.{when};
ghost use Rattle.model.specs.Names.{packable, logs};
ghost use Rattle.model.specs.Store.{name_of};
ghost use Rattle.model.specs.Rows.{name_in, counts, counts_as_update, is_direct, keeps_lock};
ghost use Rattle.model.specs.Due.{has_lines, is_logged, or_leaf, symbolic_move, move_of, due_line};
ghost use Rattle.region.specs.Region.{view, Laid};
ghost use Rattle.rows.specs.Due.{move_list, line_list, lined};

use model::{Line, WriteReflog};
use target::{NameNumber, ObjectNumber, Target};
use transaction::{Change, Edit, PackedRefs, PreviousValue};

// ---- R2

// Whether the name of a number is packable; a number that is not registered has no bytes.
pub fn name_packable(region: &[u8], name: NameNumber) -> bool
    requires { Laid region.now }
    ensures { result ≡ packable (name_of (view region.now) name) }
{
    name.place() < region::count_names(region) && names::is_packable(region::name_at(region, name))
}

// R2: a row counts if it is not log-only and its name is packable.
#[tactic(auto, unfolding(model::specs::Rows::counts))]
pub fn counts_row(region: &[u8], row: Edit) -> bool
    requires { Laid region.now }
    ensures { result ≡ counts (view region.now) row }
{
    !row.update.change.is_log_only() && name_packable(region, row.update.name)
}

pub fn counts_as_update(region: &[u8], row: Edit) -> bool
    requires { Laid region.now }
    ensures { result ≡ counts_as_update (view region.now) row }
{
    counts_row(region, row) && target::is_object(row.update.change.new_value())
}

// ---- R4

// R4: mode 3, an update to an object, and a packable name.
#[tactic(auto, unfolding(model::specs::Rows::is_direct))]
pub fn is_direct(region: &[u8], mode: PackedRefs, row: Edit) -> bool
    requires { Laid region.now }
    ensures { result ≡ is_direct (view region.now) mode row }
{
    mode == PackedRefs::DeletionsAndNonSymbolicUpdatesRemoveLooseSourceReference
        && target::is_object(row.update.change.new_value())
        && name_packable(region, row.update.name)
}

// R4: whether a prepared row keeps its lock.
#[tactic(auto, unfolding(model::specs::Rows::keeps_lock, model::specs::Rows::is_direct))]
pub fn keeps_lock(region: &[u8], mode: PackedRefs, row: Edit) -> bool
    requires { Laid region.now }
    ensures { result ≡ keeps_lock (view region.now) mode row }
{
    let change = row.update.change;
    let new = change.new_value();
    change.is_delete()
        || is_direct(region, mode, row)
        || target::is_symbolic(new)
        || new != change.existing()
}

// ---- due lines

// Whether the name has lines in the log.
pub fn has_lines(region: &[u8], name: NameNumber) -> bool
    requires { Laid region.now }
    ensures { result ≡ has_lines (view region.now) name }
{
    for i in 0..region::count_lines(region) {
        if region::line_at(region, i).name == name {
            return true;
        }
    }
    false
}

// The flags of the names that have lines, in one pass.
pub fn flag_lines(region: &[u8], flags: &mut [bool])
    requires laid { Laid region.now }
    requires flags { Flags nowhere flags.old }
    ensures { Flags (lined (view region.now)) flags.new }
{
    for i in 0..region::count_lines(region) {
        word::raise(flags, region::line_name(region, i).place());
    }
}

// Whether the name has lines, by its flag; a number that has no flag is looked for in the log.
pub fn is_lined(region: &[u8], flags: &[bool], name: NameNumber) -> bool
    requires laid { Laid region.now }
    requires flags { Flags (lined (view region.now)) flags.now }
    ensures { result ≡ has_lines (view region.now) name }
{
    let n = name.place();
    if n < flags.len() {
        return flags[n];
    }
    has_lines(region, name)
}

// Whether the setting by itself has the name logged; a number that is not registered has no bytes.
fn name_logged(region: &[u8], setting: WriteReflog, name: NameNumber) -> bool
    requires { Laid region.now }
    ensures { result ≡ logs setting (name_of (view region.now) name) }
{
    name.place() < region::count_names(region)
        && names::is_logged(setting, region::name_at(region, name))
}

// Setting 0 never writes; else a line is written if the name has lines, or force is set, or the setting's own rule says so.
// Whether the name has lines is what the caller knows already.
#[tactic(auto, unfolding(model::specs::Due::is_logged))]
pub fn is_logged(region: &[u8], has: bool, row: Edit) -> bool
    requires laid { Laid region.now }
    requires has_value { has ≡ has_lines (view region.now) (name_in row) }
    ensures { result ≡ is_logged (view region.now) row }
{
    let setting = region::setting(region);
    setting != WriteReflog::Disable
        && (has
            || row.update.change.log().force_create_reflog
            || name_logged(region, setting, row.update.name))
}

// What was there, where it was an object; else the leaf-previous.
fn previous_or(expected: PreviousValue, leaf: ObjectNumber) -> ObjectNumber
    ensures { result ≡ or_leaf (id_of (matched expected)) leaf }
{
    match expected.matched() {
        Some(Target::Object(oid)) => oid,
        _ => leaf,
    }
}

// What a line tells: the object before (0 if none) and the object after. Equal means none.
fn object_move(previous: ObjectNumber, new: ObjectNumber) -> Option<(ObjectNumber, ObjectNumber)>
    ensures { move_list result ≡ when (not (same_object previous new)) (record { previous = previous; new = new }) }
{
    (previous != new).then_some((previous, new))
}

// A symbolic new target has a line only where expected is still 4 with an object.
fn link_move(expected: PreviousValue) -> Option<(ObjectNumber, ObjectNumber)>
    ensures { move_list result ≡ symbolic_move expected }
{
    match expected {
        PreviousValue::ExistingMustMatch(Target::Object(oid)) => Some((ObjectNumber::null(), oid)),
        _ => None,
    }
}

pub fn move_of(change: Change, leaf: ObjectNumber) -> Option<(ObjectNumber, ObjectNumber)>
    ensures { move_list result ≡ move_of change leaf }
{
    match change {
        Change::Delete { .. } => None,
        Change::Update {
            expected,
            new: Target::Object(oid),
            ..
        } => object_move(previous_or(expected, leaf), oid),
        Change::Update {
            expected,
            new: Target::Symbolic(_),
            ..
        } => link_move(expected),
    }
}

// The row's log line, if it is due.
#[tactic(auto, unfolding(model::specs::Due::due_line))]
pub fn due_line(region: &[u8], has: bool, committer: u16, row: Edit) -> Option<Line>
    requires laid { Laid region.now }
    requires has_value { has ≡ has_lines (view region.now) (name_in row) }
    ensures { line_list result ≡ due_line (record { committer = committer }) (view region.now) row }
{
    let change = row.update.change;
    let (previous, new) = move_of(change, row.leaf_referent_previous_oid)?;
    if !is_logged(region, has, row) {
        return None;
    }
    Some(Line {
        name: row.update.name,
        previous,
        new,
        committer,
        message: change.log().message,
    })
}
