// Edits, and the rows that they become. The port of gix-ref's src/transaction/mod.rs, and the declarations of
// src/store/file/transaction/mod.rs that a store holds: the row (Edit) and PackedRefs.
#![tactic(auto)]

ghost use Rattle.std.specs.Prelude.{◌≡◌, ok_or};
ghost use Rattle.transaction.specs.Change.{new_value, previous_value, previous_oid, default_log, expected_target, row_of};
ghost use Rattle.transaction.specs.Change.{expected_of, log_change, is_log_only, is_delete, matched, existing_in};
ghost use Rattle.transaction.specs.Fields.{ref_log_byte, ref_log_of, previous_byte, previous_of, change_byte};
ghost use Rattle.transaction.specs.Fields.{packed_refs_number, packed_refs_of};
ghost use Rattle.transaction.specs.Same.{same_ref_log, same_log_change, same_previous, same_change, same_ref_edit};

use target::{NameNumber, NoSuchNumber, ObjectNumber, Target};

// Whether an edit changes the reference and its log, or the log only.
#[derive(Clone, Copy, PartialEq, Eq, Default)]
pub enum RefLog {
    #[default]
    AndReference,
    Only,
}

impl RefLog {
    pub const AND_REFERENCE: u64 = 0;

    pub const ONLY: u64 = 1;

    // `==`, as the definition has it; so it is below.
    pub fn is_same(self, other: RefLog) -> bool
        ensures { result ≡ same_ref_log self other }
    {
        self == other
    }
}

impl TryFrom<u64> for RefLog {
    type Error = NoSuchNumber;

    ghost try_from_gives = { λ byte log. log ≡ ok_or (ref_log_of byte) (record { 0 = byte }) };

    fn try_from(byte: u64) -> Result<RefLog, NoSuchNumber> {
        match byte {
            RefLog::AND_REFERENCE => Ok(RefLog::AndReference),
            RefLog::ONLY => Ok(RefLog::Only),
            _ => Err(NoSuchNumber(byte)),
        }
    }
}

impl From<RefLog> for u64 {
    ghost from_gives = { λ log byte. byte ≡ ref_log_byte log };

    fn from(log: RefLog) -> u64 {
        match log {
            RefLog::AndReference => RefLog::AND_REFERENCE,
            RefLog::Only => RefLog::ONLY,
        }
    }
}

// A change to a name's log.
#[derive(Clone, Copy, PartialEq, Eq, Default)]
pub struct LogChange {
    pub mode: RefLog,
    // Make a line even where the log setting alone would make none.
    pub force_create_reflog: bool,
    pub message: u16,
}

impl LogChange {
    pub fn is_same(self, log: LogChange) -> bool
        ensures { result ≡ same_log_change self log }
    {
        self == log
    }
}

// What an edit expects of the value that it replaces.
#[derive(Clone, Copy, PartialEq, Eq)]
pub enum PreviousValue {
    Any,
    MustExist,
    MustNotExist,
    MustExistAndMatch(Target),
    ExistingMustMatch(Target),
}

impl PreviousValue {
    pub const ANY: u64 = 0;

    pub const MUST_EXIST: u64 = 1;

    pub const MUST_NOT_EXIST: u64 = 2;

    pub const MUST_EXIST_AND_MATCH: u64 = 3;

    pub const EXISTING_MUST_MATCH: u64 = 4;

    // A target stands exactly with 3 and 4.
    pub fn new(byte: u64, target: Option<Target>) -> Option<PreviousValue>
        ensures { result ≡ previous_of byte target }
    {
        match target {
            None => match byte {
                PreviousValue::ANY => Some(PreviousValue::Any),
                PreviousValue::MUST_EXIST => Some(PreviousValue::MustExist),
                PreviousValue::MUST_NOT_EXIST => Some(PreviousValue::MustNotExist),
                _ => None,
            },
            Some(t) => match byte {
                PreviousValue::MUST_EXIST_AND_MATCH => Some(PreviousValue::MustExistAndMatch(t)),
                PreviousValue::EXISTING_MUST_MATCH => Some(PreviousValue::ExistingMustMatch(t)),
                _ => None,
            },
        }
    }

    pub fn byte(self) -> u64
        ensures { result ≡ previous_byte self }
    {
        match self {
            PreviousValue::Any => PreviousValue::ANY,
            PreviousValue::MustExist => PreviousValue::MUST_EXIST,
            PreviousValue::MustNotExist => PreviousValue::MUST_NOT_EXIST,
            PreviousValue::MustExistAndMatch(_) => PreviousValue::MUST_EXIST_AND_MATCH,
            PreviousValue::ExistingMustMatch(_) => PreviousValue::EXISTING_MUST_MATCH,
        }
    }

    pub fn target(self) -> Option<Target>
        ensures { result ≡ expected_target self }
    {
        match self {
            PreviousValue::Any | PreviousValue::MustExist | PreviousValue::MustNotExist => None,
            PreviousValue::MustExistAndMatch(t) | PreviousValue::ExistingMustMatch(t) => Some(t),
        }
    }

    // The target that a prepared row was judged to match, if it was: 3 has it, anything else found nothing.
    pub fn matched(self) -> Option<Target>
        ensures { result ≡ matched self }
    {
        match self {
            PreviousValue::MustExistAndMatch(t) => Some(t),
            _ => None,
        }
    }

    pub fn is_same(self, expected: PreviousValue) -> bool
        ensures { result ≡ same_previous self expected }
    {
        self == expected
    }
}

// What an edit does to its name.
#[derive(Clone, Copy, PartialEq, Eq)]
pub enum Change {
    Update {
        log: LogChange,
        expected: PreviousValue,
        new: Target,
    },
    Delete {
        expected: PreviousValue,
        log: RefLog,
    },
}

impl Change {
    pub const UPDATE: u64 = 1;

    pub const DELETE: u64 = 2;

    pub fn byte(self) -> u64
        ensures { result ≡ change_byte self }
    {
        match self {
            Change::Update { .. } => Change::UPDATE,
            Change::Delete { .. } => Change::DELETE,
        }
    }

    // The value that the name has after the change, if this is an update.
    pub fn new_value(self) -> Option<Target>
        ensures { result ≡ new_value self }
    {
        match self {
            Change::Update { new, .. } => Some(new),
            Change::Delete { .. } => None,
        }
    }

    pub fn expected(self) -> PreviousValue
        ensures { result ≡ expected_of self }
    {
        match self {
            Change::Update { expected, .. } | Change::Delete { expected, .. } => expected,
        }
    }

    // The previous observed value: the target that is expected with 3 and 4.
    pub fn previous_value(self) -> Option<Target>
        ensures { result ≡ previous_value self }
    {
        self.expected().target()
    }

    // Of a prepared row, the value that it found.
    pub fn existing(self) -> Option<Target>
        ensures { result ≡ existing_in self }
    {
        self.expected().matched()
    }

    // What a change says of its log. A deletion has no force and no message.
    pub fn log(self) -> LogChange
        ensures { result ≡ log_change self }
    {
        match self {
            Change::Update { log, .. } => log,
            Change::Delete { log, .. } => LogChange {
                mode: log,
                ..LogChange::default()
            },
        }
    }

    pub fn is_log_only(self) -> bool
        ensures { result ≡ is_log_only self }
    {
        self.log().mode == RefLog::Only
    }

    pub fn is_delete(self) -> bool
        ensures { result ≡ is_delete self }
    {
        matches!(self, Change::Delete { .. })
    }

    // The previous observed value where it is an object: what R5 hands to the ancestors.
    pub fn previous_oid(self) -> Option<ObjectNumber>
        ensures { result ≡ previous_oid self }
    {
        let Some(previous) = self.previous_value() else {
            return None;
        };
        previous.try_id()
    }

    #[tactic(auto, using(crate::proofs::Derived::change_same))]
    pub fn is_same(self, change: Change) -> bool
        ensures { result ≡ same_change self change }
    {
        self == change
    }
}

// A change to a name. With `deref` it is made through the name's symbolic links.
#[derive(Clone, Copy, PartialEq, Eq)]
pub struct RefEdit {
    pub change: Change,
    pub name: NameNumber,
    pub deref: bool,
}

impl RefEdit {
    // A list has up to 32 edits, each a record of 27 bytes.
    pub const LIMIT: usize = 32;

    pub const RECORD: usize = 27;

    pub fn new(change: Change, name: NameNumber, deref: bool) -> RefEdit
        ensures { result ≡ record { change = change; name = name; deref = deref } }
    {
        RefEdit {
            change,
            name,
            deref,
        }
    }

    #[tactic(auto, using(crate::proofs::Derived::ref_edit_same))]
    pub fn is_same(self, edit: RefEdit) -> bool
        ensures { result ≡ same_ref_edit self edit }
    {
        self == edit
    }
}

// A row of a prepared transaction.
#[derive(Clone, Copy, PartialEq, Eq)]
pub struct Edit {
    pub update: RefEdit,
    // The row that this one was split from, where its name was reached through a symbolic link.
    pub parent_index: Option<usize>,
    // Of a symbolic ref: the previous object of the leaf that it leads to, for its log. 0 is none.
    pub leaf_referent_previous_oid: ObjectNumber,
}

impl Edit {
    // A list has up to 32 edits, and each gives at most four children.
    pub const LIMIT: usize = 160;
    // So no row has more than four ancestors.
    pub const ANCESTORS: usize = 4;

    // A row as an edit begins: no parent, no leaf-previous.
    pub fn new(update: RefEdit) -> Edit
        ensures { result ≡ row_of update }
    {
        Edit {
            update,
            parent_index: None,
            leaf_referent_previous_oid: ObjectNumber::null(),
        }
    }
}

// How a transaction treats the packed table.
#[derive(Clone, Copy, PartialEq, Eq)]
pub enum PackedRefs {
    DeletionsOnly,
    DeletionsAndNonSymbolicUpdates,
    DeletionsAndNonSymbolicUpdatesRemoveLooseSourceReference,
}

impl PackedRefs {
    pub const DELETIONS_ONLY: u64 = 1;

    pub const DELETIONS_AND_NON_SYMBOLIC_UPDATES: u64 = 2;

    pub const DELETIONS_AND_NON_SYMBOLIC_UPDATES_REMOVE_LOOSE_SOURCE_REFERENCE: u64 = 3;
}

impl TryFrom<u64> for PackedRefs {
    type Error = NoSuchNumber;

    ghost try_from_gives = { λ number mode. mode ≡ ok_or (packed_refs_of number) (record { 0 = number }) };

    fn try_from(number: u64) -> Result<PackedRefs, NoSuchNumber> {
        match number {
            PackedRefs::DELETIONS_ONLY => Ok(PackedRefs::DeletionsOnly),
            PackedRefs::DELETIONS_AND_NON_SYMBOLIC_UPDATES => Ok(
                PackedRefs::DeletionsAndNonSymbolicUpdates,
            ),
            PackedRefs::DELETIONS_AND_NON_SYMBOLIC_UPDATES_REMOVE_LOOSE_SOURCE_REFERENCE => Ok(
                PackedRefs::DeletionsAndNonSymbolicUpdatesRemoveLooseSourceReference,
            ),
            _ => Err(NoSuchNumber(number)),
        }
    }
}

impl From<PackedRefs> for u64 {
    ghost from_gives = { λ mode number. number ≡ packed_refs_number mode };

    fn from(mode: PackedRefs) -> u64 {
        match mode {
            PackedRefs::DeletionsOnly => PackedRefs::DELETIONS_ONLY,
            PackedRefs::DeletionsAndNonSymbolicUpdates =>
                PackedRefs::DELETIONS_AND_NON_SYMBOLIC_UPDATES,
            PackedRefs::DeletionsAndNonSymbolicUpdatesRemoveLooseSourceReference =>
                PackedRefs::DELETIONS_AND_NON_SYMBOLIC_UPDATES_REMOVE_LOOSE_SOURCE_REFERENCE,
        }
    }
}
