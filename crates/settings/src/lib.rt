// The settings record, by name: its versions, tags and limits, and where its parts stand. What a record means stands in specs/, and what is
// proved of it in proofs/. Crate reader reads records, crate scribe writes them.
#![tactic(auto)]

ghost use Rattle.std.specs.Prelude.{◌≡◌};
ghost use Rattle.settings.specs.Format.{is_version};

// A record: its versions, and where its parts stand that have a fixed place.
#[derive(Clone, Copy)]
pub struct Record {}

impl Record {
    pub const VERSION_1: u64 = 1;

    // Adds the site.
    pub const VERSION_2: u64 = 2;

    pub const VERSION_AT: usize = 0;

    pub const LENGTH_AT: usize = 1;

    pub const ENTRIES: usize = 3;

    // The usual mode's entry, behind the log setting's.
    pub const MODE: usize = 7;

    // The committers' entry, whose content has no fixed length, and its content.
    pub const COMMITTERS: usize = 11;

    pub const LIST: usize = 14;
}

// An entry: the length of its rest in 2 bytes, its tag, its content.
#[derive(Clone, Copy)]
pub struct Tag {}

impl Tag {
    pub const LOG: u64 = 1;

    pub const MODE: u64 = 2;

    pub const COMMITTERS: u64 = 3;

    pub const SITE: u64 = 4;

    // Where the tag and the content stand in an entry.
    pub const AT: usize = 2;

    pub const CONTENT: usize = 3;

    // How long an entry is whose content is one byte.
    pub const OF_BYTE: usize = 4;
}

// The site's number.
#[derive(Clone, Copy)]
pub struct Site {}

impl Site {
    pub const MOST: u64 = 65535;

    pub const WIDTH: usize = 2;

    pub const NONE: u64 = 0;
}

// What stands before a committer's name: its number, and how long the name is.
#[derive(Clone, Copy)]
pub struct Heading {
    pub number: u64,
    pub length: usize,
}

impl Heading {
    // Up to 16 committers, numbered 1 to 65,535, with names of 1 to 32 bytes.
    pub const LIMIT: usize = 16;

    pub const MOST: u64 = 65535;

    pub const LONGEST: usize = 32;

    // Where the name's length and the name stand.
    pub const LENGTH_AT: usize = 2;

    pub const NAME: usize = 3;
}

pub fn is_version(v: u64) -> bool
    ensures { result ≡ is_version v }
{
    v == Record::VERSION_1 || v == Record::VERSION_2
}
