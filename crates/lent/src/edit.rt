// The edits of a list, and its bytes.
ghost use Rattle.std.specs.Prelude.{◌≡◌, ◌+◌, vec_len, OnOk};

use std::alloc::{AllocError, Global};

// An edit, with its fields as the list has them.
#[derive(Clone, Copy, Debug, PartialEq, Eq)]
pub struct Edit {
    pub kind: u8,
    pub deref: u8,
    pub log: u8,
    pub force: u8,
    pub expected: u8,
    pub expected_kind: u8,
    pub expected_number: u64,
    pub new_kind: u8,
    pub new_number: u64,
    pub name: u16,
    pub message: u16,
}

impl Edit {
    // An update of name 0 to an object, with nothing else.
    pub fn update(object: u64) -> Edit
        ensures object { result.new_number ≡ object }
        ensures name { result.name ≡ 0 }
    {
        Edit {
            kind: 1,
            deref: 0,
            log: 0,
            force: 0,
            expected: 0,
            expected_kind: 0,
            expected_number: 0,
            new_kind: 1,
            new_number: object,
            name: 0,
            message: 0,
        }
    }

    // An edit of these fields, if each fits into the bytes that a list has for it.
    pub fn of_fields(fields: &[u64]) -> Option<Edit> {
        let [
            kind,
            deref,
            log,
            force,
            expected,
            expected_kind,
            expected_number,
            rest @ ..,
        ] = fields
        else {
            return None;
        };
        let [new_kind, new_number, name, message, ..] = rest else {
            return None;
        };
        Some(Edit {
            kind: u8::try_from(*kind).ok()?,
            deref: u8::try_from(*deref).ok()?,
            log: u8::try_from(*log).ok()?,
            force: u8::try_from(*force).ok()?,
            expected: u8::try_from(*expected).ok()?,
            expected_kind: u8::try_from(*expected_kind).ok()?,
            expected_number: *expected_number,
            new_kind: u8::try_from(*new_kind).ok()?,
            new_number: *new_number,
            name: u16::try_from(*name).ok()?,
            message: u16::try_from(*message).ok()?,
        })
    }

    fn put(&self, list: &mut Vec<u8>) -> Result<(), AllocError>
        ensures { OnOk result (vec_len list.new ≡ vec_len list.old + 27) }
    {
        list.extend_from_slice(&[self.kind, self.deref, self.log, self.force])?;
        list.extend_from_slice(&[self.expected, self.expected_kind])?;
        list.extend_from_slice(&self.expected_number.to_be_bytes())?;
        list.push(self.new_kind)?;
        list.extend_from_slice(&self.new_number.to_be_bytes())?;
        list.extend_from_slice(&self.name.to_be_bytes())?;
        list.extend_from_slice(&self.message.to_be_bytes())?;
        Ok(())
    }
}

// The list of these edits, of which there are 255 at most: a header of 4 bytes, and 27 for each edit.
pub fn list(alloc: Global, edits: &[Edit]) -> Result<Vec<u8>, AllocError> {
    let count = u8::try_from(edits.len()).unwrap_or(u8::MAX);
    let size = 1 + 27 * u16::from(count);
    let mut list = Vec::new(alloc);
    list.push(1)?;
    list.extend_from_slice(&size.to_be_bytes())?;
    list.push(count)?;
    for edit in edits.iter().take(usize::from(count)) {
        edit.put(&mut list)?;
    }
    Ok(list)
}
