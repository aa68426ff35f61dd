// What a case says of a name.
ghost use Rattle.std.specs.Prelude.{◌≡◌};

// A lock, as it is to be.
#[derive(Clone, Copy, Debug, PartialEq, Eq)]
pub enum Lock {
    Free,
    Foreign,
    Ours,
}

// Where the value that a name reads is found, by the numbers of an answer. A loose value may be broken.
#[derive(Clone, Copy, Debug, PartialEq, Eq)]
pub enum Found {
    Loose = 1,
    Packed = 2,
    PackedBehindBroken = 3,
    Nowhere = 4,
    NowhereBehindBroken = 5,
}

// The kinds of values, by the numbers of the calls; 0 is none.
const OBJECT: u64 = 1;

const LINK: u64 = 2;

const BROKEN: u64 = 3;

// Its values and its lock, as they are to be, and how many of its log lines were seen. What is not known yet is 0.
#[derive(Clone, Copy, Debug, PartialEq, Eq)]
pub struct Told {
    pub kind: u64,
    pub number: u64,
    pub packed: u64,
    pub lock: Lock,
    pub lines: u64,
}

impl Told {
    pub fn nothing() -> Told
        ensures loose { result.kind ≡ 0 }
        ensures packed { result.packed ≡ 0 }
    {
        Told {
            kind: 0,
            number: 0,
            packed: 0,
            lock: Lock::Free,
            lines: 0,
        }
    }

    fn reads_loose(&self) -> bool {
        self.kind == OBJECT || self.kind == LINK
    }

    // What the name reads, by kind and number: its loose target, and where it has none its packed value.
    pub fn read(&self) -> (u64, u64) {
        if self.reads_loose() {
            (self.kind, self.number)
        } else if self.packed != 0 {
            (OBJECT, self.packed)
        } else {
            (0, 0)
        }
    }

    // Where that is found, with the packed table seen or not.
    pub fn found(&self, is_table_seen: bool) -> Found {
        if self.reads_loose() {
            return Found::Loose;
        }
        match (self.kind == BROKEN, is_table_seen && self.packed != 0) {
            (false, true) => Found::Packed,
            (true, true) => Found::PackedBehindBroken,
            (false, false) => Found::Nowhere,
            (true, false) => Found::NowhereBehindBroken,
        }
    }

    // No value is known any more, and no lock is ours. Foreign ones are as before.
    pub fn give_up(&mut self)
        ensures loose { self.new.kind ≡ 0 }
        ensures packed { self.new.packed ≡ 0 }
        ensures lines { self.new.lines ≡ self.old.lines }
    {
        self.kind = 0;
        self.number = 0;
        self.packed = 0;
        if self.lock == Lock::Ours {
            self.lock = Lock::Free;
        }
    }
}
