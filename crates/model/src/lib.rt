// The values that a store holds, and why a call is refused. What every call means stands in specs/.
#![tactic(auto)]

ghost use Rattle.std.specs.Prelude.{◌≡◌, ok_or};
ghost use Rattle.model.specs.Store.{lock_byte, lock_from};
ghost use Rattle.model.specs.Load.{setting_byte, setting_of};

use target::{NameNumber, NoSuchNumber, ObjectNumber, Target};

// A name's loose value.
#[derive(Clone, Copy, PartialEq, Eq)]
pub enum Loose {
    None,
    Target(Target),
    Broken,
}

// The kinds of a loose value, in a slot and in a load.
impl Loose {
    pub const NONE: u64 = 0;

    pub const OBJECT: u64 = 1;

    pub const LINK: u64 = 2;

    pub const BROKEN: u64 = 3;
}

// A lock, of a name or of the packed table.
#[derive(Clone, Copy, PartialEq, Eq)]
pub enum Lock {
    Free,
    Foreign,
    Ours,
}

// A lock in a slot.
impl Lock {
    pub const FREE: u64 = 0;

    pub const FOREIGN: u64 = 1;

    pub const OURS: u64 = 2;
}

impl TryFrom<u64> for Lock {
    type Error = NoSuchNumber;

    ghost try_from_gives = { λ byte lock. lock ≡ ok_or (lock_from byte) (record { 0 = byte }) };

    fn try_from(byte: u64) -> Result<Lock, NoSuchNumber> {
        match byte {
            Lock::FREE => Ok(Lock::Free),
            Lock::FOREIGN => Ok(Lock::Foreign),
            Lock::OURS => Ok(Lock::Ours),
            _ => Err(NoSuchNumber(byte)),
        }
    }
}

impl From<Lock> for u64 {
    ghost from_gives = { λ lock byte. byte ≡ lock_byte lock };

    fn from(lock: Lock) -> u64 {
        match lock {
            Lock::Free => Lock::FREE,
            Lock::Foreign => Lock::FOREIGN,
            Lock::Ours => Lock::OURS,
        }
    }
}

// What has a lock.
#[derive(Clone, Copy, PartialEq, Eq)]
pub enum Lockable {
    Name(NameNumber),
    PackedTable,
}

// The kind that a caller passes.
impl Lockable {
    pub const NAME: u64 = 0;

    pub const PACKED_TABLE: u64 = 1;
}

// The log setting, fixed at the start.
#[derive(Clone, Copy, PartialEq, Eq)]
pub enum WriteReflog {
    Disable,
    Normal,
    Always,
}

impl WriteReflog {
    pub const DISABLE: u64 = 0;

    pub const NORMAL: u64 = 1;

    pub const ALWAYS: u64 = 2;
}

impl TryFrom<u64> for WriteReflog {
    type Error = NoSuchNumber;

    ghost try_from_gives = { λ number setting. setting ≡ ok_or (setting_of number) (record { 0 = number }) };

    fn try_from(number: u64) -> Result<WriteReflog, NoSuchNumber> {
        match number {
            WriteReflog::DISABLE => Ok(WriteReflog::Disable),
            WriteReflog::NORMAL => Ok(WriteReflog::Normal),
            WriteReflog::ALWAYS => Ok(WriteReflog::Always),
            _ => Err(NoSuchNumber(number)),
        }
    }
}

impl From<WriteReflog> for u64 {
    ghost from_gives = { λ setting number. number ≡ setting_byte setting };

    fn from(setting: WriteReflog) -> u64 {
        match setting {
            WriteReflog::Disable => WriteReflog::DISABLE,
            WriteReflog::Normal => WriteReflog::NORMAL,
            WriteReflog::Always => WriteReflog::ALWAYS,
        }
    }
}

// A line of the log. Previous is 0 where there was none.
#[derive(Clone, Copy, PartialEq, Eq)]
pub struct Line {
    pub name: NameNumber,
    pub previous: ObjectNumber,
    pub new: ObjectNumber,
    pub committer: u16,
    pub message: u16,
}

impl Line {
    // At most 1,024 lines in all.
    pub const LIMIT: usize = 1024;

    // Committers are 1 to 65,535; 0 says that there is none.
    pub const COMMITTERS: u64 = 65535;
}

// Why a call is refused, with what the caller is told. Named after the Rust's errors where it has one.
#[derive(Clone, Copy, PartialEq, Eq)]
pub enum Refusal {
    BadRegion,
    Malformed,
    NotRegistered(u64),
    ReferenceCycle,
    TooManyRows,
    MultipleEdits(NameNumber),
    PackedTransactionAcquire,
    LockAcquire(NameNumber),
    DeleteReferenceMustExist(NameNumber),
    MustNotExist(NameNumber, Target, Target),
    MustExist(NameNumber, Target),
    ReferenceOutOfDate(NameNumber, Target, Target),
    DeleteMustNotExist(NameNumber),
    LogFull,
    WrongState,
    BadName,
    NamesFull,
    WrongLock,
    BadLoad,
    NothingThere,
    MalformedRecord,
    UnknownVersion,
    NameConflict(NameNumber),
    ReceiverFull,
    MalformedLine(u64),
    TextTooLong,
    ShortBuffer,
}
