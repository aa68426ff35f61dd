// The library's calls, each with its arguments.
use lent::Edit;
use std::fmt;

#[derive(Drop)]
pub enum Call {
    Start {
        setting: u64,
    },
    LoadLoose {
        name: u64,
        kind: u64,
        number: u64,
    },
    LoadPacked {
        name: u64,
        kind: u64,
        number: u64,
    },
    PlaceLock {
        kind: u64,
        number: u64,
    },
    LiftLock {
        kind: u64,
        number: u64,
    },
    Commit {
        committer: u64,
        allowance: u64,
    },
    Rollback,
    NameBytes {
        name: u64,
    },
    ReadName {
        name: u64,
    },
    ReadLine {
        name: u64,
        place: u64,
    },
    ReadRow {
        place: u64,
    },

    // The name's bytes stand in the text that goes with the calls: from one on, up to another.
    AddName {
        from: usize,
        to: usize,
    },
    Prepare {
        edits: Vec<Edit>,
        mode: u64,
    },

    // No call, but a number that is put into bytes of the region.
    Put {
        at: usize,
        width: usize,
        number: u64,
    },
}

// What a lock is placed on and lifted from, by the numbers of the calls.
#[derive(Clone, Copy, Debug)]
pub struct Kind {}

impl Kind {
    pub const NAME: u64 = 0;

    pub const PACKED_TABLE: u64 = 1;
}

impl Call {
    // How the call is told: its word, and its first two numbers.
    fn told(&self) -> (&'static str, u64, u64) {
        match self {
            Call::Start { setting } => ("start", *setting, 0),
            Call::LoadLoose { name, kind, .. } => ("load_loose", *name, *kind),
            Call::LoadPacked { name, kind, .. } => ("load_packed", *name, *kind),
            Call::PlaceLock { kind, number } => ("place_lock", *kind, *number),
            Call::LiftLock { kind, number } => ("lift_lock", *kind, *number),
            Call::Commit {
                committer,
                allowance,
            } => ("commit", *committer, *allowance),
            Call::Rollback => ("rollback", 0, 0),
            Call::NameBytes { name } => ("name_bytes", *name, 0),
            Call::ReadName { name } => ("read_name", *name, 0),
            Call::ReadLine { name, place } => ("read_line", *name, *place),
            Call::ReadRow { place } => ("read_row", *place, 0),
            Call::AddName { from, to } => ("add_name", *from as u64, *to as u64),
            Call::Prepare { edits, mode } => ("prepare", edits.len() as u64, *mode),
            Call::Put { at, width, .. } => ("put", *at as u64, *width as u64),
        }
    }
}

impl fmt::Display for Call {
    fn fmt<W: fmt::Write>(&self, f: &mut fmt::Formatter<W>) -> fmt::Result {
        let (word, first, second) = self.told();
        write!(f, "{word} {first} {second}")
    }
}
