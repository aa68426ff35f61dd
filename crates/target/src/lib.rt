// Targets: what a name points to. The port of gix-ref's src/target.rs, by value.
//
// An object number stands for the Rust's ObjectId, a name number for its FullName. The planner has confused the two
// counts before, so each is a type of its own.
#![tactic(auto)]

ghost use Rattle.std.specs.Prelude.{◌≡◌, ◌<◌, ◌≤◌};
ghost use Rattle.target.specs.Target.{same, is_null, kind_of, try_id, try_name, is_object, is_symbolic};
ghost use Rattle.target.specs.Fields.{name_below, object_of, target_byte, target_number, place_number};
ghost use Rattle.target.specs.Found.{value_in};

// The number of a registered name, from 0 in order of arrival.
#[derive(Clone, Copy, PartialEq, Eq)]
pub struct NameNumber(pub u16);

impl NameNumber {
    // 256 names, numbered from 0.
    pub const LIMIT: usize = 256;
    // A name has 1 to 64 bytes.
    pub const LONGEST: usize = 64;

    // The name of a number, from all 64 bits that a caller passed, where so many names are registered.
    pub fn new(number: u64, names: usize) -> Option<NameNumber>
        requires { names ≤ 256 }
        ensures { result ≡ name_below names number }
    {
        if number < (names as u64) {
            Some(NameNumber(number as u16))
        } else {
            None
        }
    }

    // The name at a place in the order of arrival, and that place.
    pub fn at(place: usize) -> NameNumber
        requires { place < 256 }
        ensures { result ≡ record { 0 = place } }
    {
        NameNumber(place as u16)
    }

    pub fn place(self) -> usize
        ensures { result ≡ self.0 }
    {
        self.0 as usize
    }
}

// The number of an object, 1 to 2^64-1. 0 is the null id and never a target.
#[derive(Clone, Copy, PartialEq, Eq)]
pub struct ObjectNumber(pub u64);

impl ObjectNumber {
    pub const NULL: u64 = 0;

    // The object of a number, unless that is the null id.
    pub fn new(number: u64) -> Option<ObjectNumber>
        ensures { result ≡ object_of number }
    {
        if number == ObjectNumber::NULL {
            None
        } else {
            Some(ObjectNumber(number))
        }
    }

    pub fn null() -> ObjectNumber
        ensures { result.0 ≡ 0 }
    {
        ObjectNumber(ObjectNumber::NULL)
    }
}

// The kind of a target.
#[derive(Clone, Copy, PartialEq, Eq)]
pub enum Kind {
    Object,
    Symbolic,
}

// An object, or a symbolic link to a registered name.
#[derive(Clone, Copy, PartialEq, Eq)]
pub enum Target {
    Object(ObjectNumber),
    Symbolic(NameNumber),
}

impl Target {
    pub fn kind(self) -> Kind
        ensures { result ≡ kind_of self }
    {
        match self {
            Target::Symbolic(_) => Kind::Symbolic,
            Target::Object(_) => Kind::Object,
        }
    }

    // `==`, as the definition has it.
    pub fn is_same(self, other: Target) -> bool
        ensures { result ≡ same self other }
    {
        self == other
    }

    // True of the null id alone.
    pub fn is_null(self) -> bool
        ensures { result ≡ is_null self }
    {
        match self {
            Target::Symbolic(_) => false,
            Target::Object(oid) => oid.0 == ObjectNumber::NULL,
        }
    }

    pub fn try_id(self) -> Option<ObjectNumber>
        ensures { result ≡ try_id self }
    {
        match self {
            Target::Symbolic(_) => None,
            Target::Object(oid) => Some(oid),
        }
    }

    pub fn try_name(self) -> Option<NameNumber>
        ensures { result ≡ try_name self }
    {
        match self {
            Target::Symbolic(name) => Some(name),
            Target::Object(_) => None,
        }
    }
}

// ---- a target that may be missing, in a record or an answer: a kind byte and a number

// The kinds.
impl Target {
    pub const NONE: u64 = 0;

    pub const OBJECT: u64 = 1;

    pub const SYMBOLIC: u64 = 2;
}

pub fn target_byte(target: Option<Target>) -> u64
    ensures { result ≡ target_byte target }
{
    match target {
        None => Target::NONE,
        Some(Target::Object(_)) => Target::OBJECT,
        Some(Target::Symbolic(_)) => Target::SYMBOLIC,
    }
}

pub fn target_number(target: Option<Target>) -> u64
    ensures { result ≡ target_number target }
{
    match target {
        None => 0,
        Some(Target::Object(oid)) => oid.0,
        Some(Target::Symbolic(name)) => name.0 as u64,
    }
}

pub fn is_object(target: Option<Target>) -> bool
    ensures { result ≡ is_object target }
{
    matches!(target, Some(Target::Object(_)))
}

pub fn is_symbolic(target: Option<Target>) -> bool
    ensures { result ≡ is_symbolic target }
{
    matches!(target, Some(Target::Symbolic(_)))
}

// A number that stands for no variant of an enum.
#[derive(Clone, Copy, PartialEq, Eq)]
pub struct NoSuchNumber(pub u64);

// ---- where a value is found

// What reading a name comes to: the value, and the place where it was found. A broken loose value hides no packed one.
#[derive(Clone, Copy, PartialEq, Eq)]
pub enum Found {
    Loose(Target),
    Packed(ObjectNumber),
    PackedBehindBroken(ObjectNumber),
    Absent,
    AbsentBehindBroken,
}

// The places as numbers in an answer.
impl Found {
    pub const LOOSE: u64 = 1;

    pub const PACKED: u64 = 2;

    pub const PACKED_BEHIND_BROKEN: u64 = 3;

    pub const ABSENT: u64 = 4;

    pub const ABSENT_BEHIND_BROKEN: u64 = 5;

    pub fn value(self) -> Option<Target>
        ensures { result ≡ value_in self }
    {
        match self {
            Found::Loose(target) => Some(target),
            Found::Packed(oid) | Found::PackedBehindBroken(oid) => Some(Target::Object(oid)),
            Found::Absent | Found::AbsentBehindBroken => None,
        }
    }

    pub fn place(self) -> u64
        ensures { result ≡ place_number self }
    {
        match self {
            Found::Loose(_) => Found::LOOSE,
            Found::Packed(_) => Found::PACKED,
            Found::PackedBehindBroken(_) => Found::PACKED_BEHIND_BROKEN,
            Found::Absent => Found::ABSENT,
            Found::AbsentBehindBroken => Found::ABSENT_BEHIND_BROKEN,
        }
    }
}
