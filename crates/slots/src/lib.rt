// The forms of a store's values in slots of bytes: a loose value, a packed value, a lock, a log line and a row, each read and
// written at the region's edge. Reading a slot finds a value, or none where the bytes are no form of one.
#![tactic(auto)]

ghost use Rattle.std.specs.Prelude.{◌≡◌, ◌+◌, ◌≤◌, ◌<◌, length, get_or};
ghost use Rattle.word.specs.Be.{val};
ghost use Rattle.word.specs.Fields.{unfields};
ghost use Rattle.slots.specs.Values.{loose_form, loose_kind, loose_number, target_from, unbroken, loose_from, loose_in};
ghost use Rattle.slots.specs.Values.{packed_form, packed_from, lock_form, lock_in, line_from, line_form, line_widths};
ghost use Rattle.model.specs.EditList.{change_of};
ghost use Rattle.slots.specs.Row.{row_in, row_form, row_numbers, row_widths, slot_target, slot_expected, parent_from, slot_parent, slot_change};

use model::{Line, Lock, Loose};
use target::{NameNumber, ObjectNumber, Target};
use transaction::{Change, Edit, LogChange, PreviousValue, RefEdit, RefLog};

// ---- a loose value: a kind and a number

// What is not broken is none or a target.
fn unbroken_of(value: Option<Target>) -> Loose
    ensures { result ≡ unbroken value }
{
    match value {
        None => Loose::None,
        Some(t) => Loose::Target(t),
    }
}

pub fn loose_from(kind: u64, number: u64) -> Option<Loose>
    ensures { result ≡ loose_from kind number }
{
    if kind == Loose::BROKEN {
        if number != 0 {
            return None;
        }
        return Some(Loose::Broken);
    }
    let value = target_from(kind, number)?;
    Some(unbroken_of(value))
}

pub fn get_loose(slot: &[u8]) -> Option<Loose>
    requires { length slot.now ≡ 9 }
    ensures { result ≡ loose_in slot.now }
{
    let kind = word::get_at(slot, 0, 1);
    let number = word::get_at(slot, 1, 8);
    loose_from(kind, number)
}

pub fn loose_kind(v: Loose) -> u64
    ensures { result ≡ loose_kind v }
{
    match v {
        Loose::None => Loose::NONE,
        Loose::Target(t) => match t {
            Target::Object(_) => Loose::OBJECT,
            Target::Symbolic(_) => Loose::LINK,
        },
        Loose::Broken => Loose::BROKEN,
    }
}

pub fn loose_number(v: Loose) -> u64
    ensures { result ≡ loose_number v }
{
    match v {
        Loose::None => 0,
        Loose::Target(t) => match t {
            Target::Object(oid) => oid.0,
            Target::Symbolic(name) => name.0 as u64,
        },
        Loose::Broken => 0,
    }
}

pub fn put_loose(slot: &mut [u8], v: Loose)
    requires { length slot.old ≡ 9 }
    ensures { slot.new ≡ loose_form v }
{
    let kind = loose_kind(v);
    let number = loose_number(v);
    word::put_at(slot, 0, 1, kind);
    word::put_at(slot, 1, 8, number);
}

// ---- a packed value: its object's number, 0 for none

pub fn get_packed(slot: &[u8]) -> Option<ObjectNumber>
    requires { length slot.now ≡ 8 }
    ensures { result ≡ packed_from (val slot.now) }
{
    ObjectNumber::new(word::get(slot))
}

pub fn put_packed(slot: &mut [u8], v: Option<ObjectNumber>)
    requires { length slot.old ≡ 8 }
    ensures { slot.new ≡ packed_form v }
{
    match v {
        None => word::put(slot, ObjectNumber::NULL),
        Some(oid) => word::put(slot, oid.0),
    }
}

// ---- a lock: 0 free, 1 foreign, 2 ours

pub fn get_lock(slot: &[u8]) -> Option<Lock>
    requires { length slot.now ≡ 1 }
    ensures { result ≡ lock_in slot.now }
{
    Lock::try_from(word::get(slot)).ok()
}

pub fn put_lock(slot: &mut [u8], v: Lock)
    requires { length slot.old ≡ 1 }
    ensures { slot.new ≡ lock_form v }
{
    word::put(slot, u64::from(v));
}

// ---- a log line

pub fn get_line(slot: &[u8]) -> Line
    requires { length slot.now ≡ 22 }
    ensures { result ≡ line_from (unfields 0 line_widths slot.now) }
{
    let name = word::get16_at(slot, 0);
    let previous = word::get_at(slot, 2, 8);
    let new = word::get_at(slot, 10, 8);
    let committer = word::get16_at(slot, 18);
    let message = word::get16_at(slot, 20);
    Line {
        name: NameNumber(name),
        previous: ObjectNumber(previous),
        new: ObjectNumber(new),
        committer,
        message,
    }
}

pub fn put_line(slot: &mut [u8], line: Line)
    requires { length slot.old ≡ 22 }
    ensures { slot.new ≡ line_form line }
{
    word::put_at(slot, 0, 2, line.name.0 as u64);
    word::put_at(slot, 2, 8, line.previous.0);
    word::put_at(slot, 10, 8, line.new.0);
    word::put_at(slot, 18, 2, line.committer as u64);
    word::put_at(slot, 20, 2, line.message as u64);
}

// ---- a row: thirteen numbers, each at its place in the slot

pub fn target_from(kind: u64, number: u64) -> Option<Option<Target>>
    ensures { result ≡ target_from kind number }
{
    match kind {
        Target::NONE => {
            if number != 0 {
                return None;
            }
            Some(None)
        }
        Target::OBJECT => {
            let oid = ObjectNumber::new(number)?;
            Some(Some(Target::Object(oid)))
        }
        Target::SYMBOLIC => {
            if number >= 65536 {
                return None;
            }
            Some(Some(Target::Symbolic(NameNumber(number as u16))))
        }
        _ => None,
    }
}

pub fn parent_from(has: u64, place: u64) -> Option<Option<usize>>
    ensures { result ≡ parent_from has place }
{
    match has {
        0 => {
            if place != 0 {
                return None;
            }
            Some(None)
        }
        1 => Some(Some(place as usize)),
        _ => None,
    }
}

// A delete has no force, no message and no new target; an update has one.
pub fn change_from(
    kind: u64,
    log: RefLog,
    force: bool,
    expected: PreviousValue,
    new: Option<Target>,
    message: u16,
) -> Option<Change>
    ensures { result ≡ change_of kind log force expected new message }
{
    match kind {
        Change::UPDATE => {
            let target = new?;
            Some(Change::Update {
                log: LogChange {
                    mode: log,
                    force_create_reflog: force,
                    message,
                },
                expected,
                new: target,
            })
        }
        Change::DELETE => {
            if force || message != 0 {
                return None;
            }
            if new.is_some() {
                return None;
            }
            Some(Change::Delete { expected, log })
        }
        _ => None,
    }
}

// A target of nine bytes: its kind and its number.
fn get_target(slot: &[u8], at: usize) -> Option<Option<Target>>
    requires { at + 9 ≤ length slot.now }
    ensures { result ≡ slot_target at slot.now }
{
    let kind = word::get_at(slot, at, 1);
    let number = word::get_at(slot, at + 1, 8);
    target_from(kind, number)
}

// What the edit expects, with the target that it expects.
fn get_expected(slot: &[u8]) -> Option<PreviousValue>
    requires { length slot.now ≡ 36 }
    ensures { result ≡ slot_expected slot.now }
{
    let was = get_target(slot, 8)?;
    PreviousValue::new(word::get_at(slot, 7, 1), was)
}

fn get_change(slot: &[u8]) -> Option<Change>
    requires { length slot.now ≡ 36 }
    ensures { result ≡ slot_change slot.now }
{
    let log = RefLog::try_from(word::get_at(slot, 3, 1)).ok()?;
    let force = word::get_at(slot, 4, 1);
    if force > 1 {
        return None;
    }
    let expected = get_expected(slot)?;
    let new = get_target(slot, 17)?;
    let kind = word::get_at(slot, 2, 1);
    let message = word::get16_at(slot, 5);
    change_from(kind, log, force == 1, expected, new, message)
}

fn get_parent(slot: &[u8]) -> Option<Option<usize>>
    requires { length slot.now ≡ 36 }
    ensures { result ≡ slot_parent slot.now }
{
    let has = word::get_at(slot, 26, 1);
    let place = word::get_at(slot, 27, 1);
    parent_from(has, place)
}

// A row is not dereferenced.
pub fn get_row(slot: &[u8]) -> Option<Edit>
    requires { length slot.now ≡ 36 }
    ensures { result ≡ row_in slot.now }
{
    let change = get_change(slot)?;
    let parent = get_parent(slot)?;
    let name = word::get16_at(slot, 0);
    let leaf = word::get_at(slot, 28, 8);
    Some(Edit {
        update: RefEdit::new(change, NameNumber(name), false),
        parent_index: parent,
        leaf_referent_previous_oid: ObjectNumber(leaf),
    })
}

// The numbers of a row, in the order of its slot.
pub fn row_numbers(row: Edit) -> [u64; 13]
    ensures { result ≡ row_numbers row }
{
    let parent = row.parent_index;
    let log = row.update.change.log();
    let expected = row.update.change.expected();
    let was = row.update.change.previous_value();
    let new = row.update.change.new_value();
    [
        row.update.name.0 as u64,
        row.update.change.byte(),
        u64::from(log.mode),
        u64::from(log.force_create_reflog),
        log.message as u64,
        expected.byte(),
        target::target_byte(was),
        target::target_number(was),
        target::target_byte(new),
        target::target_number(new),
        u64::from(parent.is_some()),
        parent.unwrap_or(0) as u64,
        row.leaf_referent_previous_oid.0,
    ]
}

// How wide the number at a place is in a row's slot.
fn row_width(i: usize) -> usize
    requires { i < 13 }
    ensures { result ≡ get_or row_widths i 0 }
{
    let widths: [usize; 13] = [2, 1, 1, 1, 2, 1, 1, 8, 1, 8, 1, 1, 8];
    widths[i]
}

pub fn put_row(slot: &mut [u8], row: Edit)
    requires { length slot.old ≡ 36 }
    ensures { slot.new ≡ row_form row }
{
    let p = row_numbers(row);
    let mut at: usize = 0;
    for i in 0..13 {
        let width = row_width(i);
        word::put_at(slot, at, width, p[i]);
        at += width;
    }
}
