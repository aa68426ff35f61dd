// The edit list: from bytes to edits. A list is first tested as a whole, then its name numbers against the count of names, by place;
// then each edit is read. A link's number has 64 bits until it is known to be registered.
#![tactic(auto)]

ghost use Rattle.std.specs.Prelude.{◌≡◌, true, ◌&&◌, ◌+◌, ◌<◌, ◌≤◌, length, get_or, eqb, leb};
ghost use Rattle.word.specs.Be.{cut, val};
ghost use Rattle.word.specs.Codec.{is_some};
ghost use Rattle.model.specs.Basic.{collect};
ghost use Rattle.model.specs.EditList.{byte_at, edit_of, edits_from, is_framed, edits_of, numbers_of, first_out};
ghost use Rattle.edits.specs.Read.{target_low, target_by, expected_by, change_by, edit_by};
ghost use Rattle.edits.specs.Edits.{edit_in, edits_in, no_edit, Registered};

use target::{NameNumber, ObjectNumber, Target};
use transaction::{Change, LogChange, PreviousValue, RefEdit, RefLog};

// What stands where in a list, and in a record of 27 bytes.
#[derive(Clone, Copy)]
pub struct EditList {}

impl EditList {
    pub const VERSION: u64 = 1;

    pub const VERSION_AT: usize = 0;

    pub const LENGTH_AT: usize = 1;

    pub const COUNT_AT: usize = 3;

    pub const RECORDS: usize = 4;

    pub const KIND: usize = 0;

    pub const DEREF: usize = 1;

    pub const LOG: usize = 2;

    pub const FORCE: usize = 3;

    pub const EXPECTED: usize = 4;

    pub const EXPECTED_TARGET: usize = 5;

    pub const NEW_TARGET: usize = 14;

    pub const NAME: usize = 23;

    pub const MESSAGE: usize = 25;
}

// ---- a record

fn byte_at(part: &[u8], at: usize) -> u64
    requires { at < length part.now }
    ensures { result ≡ byte_at at part.now }
{
    wide(part[at])
}

fn wide(x: u8) -> u64
    ensures { result ≡ x }
{
    x as u64
}

// A link by the low 16 bits of its number.
fn target_low(kind: u64, number: u64) -> Option<Option<Target>>
    ensures { result ≡ target_low kind number }
{
    if kind == Target::SYMBOLIC {
        let name = NameNumber((number % 65536) as u16);
        return Some(Some(Target::Symbolic(name)));
    }
    slots::target_from(kind, number)
}

fn get_target(part: &[u8], at: usize) -> Option<Option<Target>>
    requires { (at + 9 ≤ length part.now) × (at < 32) }
    ensures { result ≡ target_by target_low at part.now }
{
    let kind = byte_at(part, at);
    let number = word::get_at(part, at + 1, 8);
    target_low(kind, number)
}

fn get_expected(part: &[u8]) -> Option<PreviousValue>
    requires { length part.now ≡ 27 }
    ensures { result ≡ expected_by target_low part.now }
{
    let was = get_target(part, EditList::EXPECTED_TARGET)?;
    PreviousValue::new(byte_at(part, EditList::EXPECTED), was)
}

fn get_change(part: &[u8]) -> Option<Change>
    requires { length part.now ≡ 27 }
    ensures { result ≡ change_by target_low part.now }
{
    let log = RefLog::try_from(byte_at(part, EditList::LOG)).ok()?;
    let force = byte_at(part, EditList::FORCE);
    if force > 1 {
        return None;
    }
    let expected = get_expected(part)?;
    let new = get_target(part, EditList::NEW_TARGET)?;
    let kind = byte_at(part, EditList::KIND);
    let message = word::get16_at(part, EditList::MESSAGE);
    slots::change_from(kind, log, force == 1, expected, new, message)
}

// The edit of a record, if it is well formed.
fn get_edit(part: &[u8]) -> Option<RefEdit>
    requires { length part.now ≡ 27 }
    ensures { result ≡ edit_by target_low part.now }
{
    let deref = byte_at(part, EditList::DEREF);
    if deref > 1 {
        return None;
    }
    let change = get_change(part)?;
    let name = word::get16_at(part, EditList::NAME);
    Some(RefEdit::new(change, NameNumber(name), deref == 1))
}

fn is_edit(part: &[u8]) -> bool
    requires { length part.now ≡ 27 }
    ensures { result ≡ is_some (edit_of part.now) }
{
    get_edit(part).is_some()
}

// ---- the list

// Version, length, count and exact size.
fn is_framed(list: &[u8]) -> bool
    ensures { result ≡ is_framed list.now }
{
    if list.len() < EditList::RECORDS {
        return false;
    }
    if byte_at(list, EditList::VERSION_AT) != EditList::VERSION {
        return false;
    }
    if 3 + (word::get_at(list, EditList::LENGTH_AT, 2) as usize) != list.len() {
        return false;
    }
    let count = byte_at(list, EditList::COUNT_AT) as usize;
    if count > RefEdit::LIMIT {
        return false;
    }
    EditList::RECORDS + count * RefEdit::RECORD == list.len()
}

// Each record is well formed. It is handed on as a part of the list that begins at its own offset.
fn are_edits(list: &[u8]) -> bool
    requires { is_framed list.now ≡ true }
    ensures { result ≡ is_some (edits_from (byte_at 3 list.now) 4 list.now) }
{
    for record in list[EditList::RECORDS..].chunks_exact(RefEdit::RECORD) {
        if !is_edit(record) {
            return false;
        }
    }
    true
}

// Whether the list is well formed.
pub fn is_list(list: &[u8]) -> bool
    ensures { result ≡ is_some (edits_of list.now) }
{
    is_framed(list) && are_edits(list)
}

pub fn count_edits(list: &[u8]) -> usize
    requires { is_some (edits_of list.now) ≡ true }
    ensures { (result ≡ length (edits_in list.now)) × (result ≤ 32) }
{
    byte_at(list, EditList::COUNT_AT) as usize
}

// ---- name numbers by place

// Whether the target at a place of the record is a link to a number that is not registered.
fn link_out(part: &[u8], at: usize, names: u64) -> bool
    requires { (at + 9 ≤ length part.now) × (at < 32) }
    ensures { result ≡ (eqb (byte_at at part.now) 2 && leb names (val (cut (at + 1) 8 part.now))) }
{
    byte_at(part, at) == Target::SYMBOLIC && names <= word::get_at(part, at + 1, 8)
}

// The first name number of a record that is not registered, by place: expected target, new target, name.
fn number_out(part: &[u8], names: u64) -> Option<u64>
    requires part_len { length part.now ≡ 27 }
    requires part_value { is_some (edit_of part.now) ≡ true }
    ensures { result ≡ first_out names (numbers_of (edit_in part.now)) }
{
    if link_out(part, EditList::EXPECTED_TARGET, names) {
        return Some(word::get_at(part, EditList::EXPECTED_TARGET + 1, 8));
    }
    if link_out(part, EditList::NEW_TARGET, names) {
        return Some(word::get_at(part, EditList::NEW_TARGET + 1, 8));
    }
    let name = word::get_at(part, EditList::NAME, 2);
    if name < names {
        return None;
    }
    Some(name)
}

// The first of the list.
pub fn first_out(list: &[u8], names: u64) -> Option<u64>
    requires { is_some (edits_of list.now) ≡ true }
    ensures { result ≡ first_out names (collect numbers_of (edits_in list.now)) }
{
    for record in list[EditList::RECORDS..].chunks_exact(RefEdit::RECORD) {
        if let Some(number) = number_out(record, names) {
            return Some(number);
        }
    }
    None
}

// ---- the edits of a list whose numbers are all registered

// Whether the edit at a place is made through the name's links.
pub fn is_followed(list: &[u8], i: usize) -> bool
    requires list_value { is_some (edits_of list.now) ≡ true }
    requires i_in_bounds { i < length (edits_in list.now) }
    ensures { result ≡ (get_or (edits_in list.now) i no_edit).deref }
{
    let at = EditList::RECORDS + i * RefEdit::RECORD;
    byte_at(list, at + EditList::DEREF) == 1
}

pub fn edit_at(list: &[u8], i: usize) -> RefEdit
    requires registered { Registered list.now }
    requires i_in_bounds { i < length (edits_in list.now) }
    ensures { result ≡ get_or (edits_in list.now) i no_edit }
{
    let at = EditList::RECORDS + i * RefEdit::RECORD;
    let e = at + RefEdit::RECORD;
    get_edit(&list[at..e]).unwrap_or(no_edit())
}

// What stands past the edits, where nothing reads.
fn no_edit() -> RefEdit
    ensures { result ≡ no_edit }
{
    let change = Change::Update {
        log: LogChange::default(),
        expected: PreviousValue::Any,
        new: Target::Object(ObjectNumber::null()),
    };
    RefEdit::new(change, NameNumber::at(0), false)
}
