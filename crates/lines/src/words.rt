// A line's first word, and the numbers behind it.
use std::str;

// The words of a block's lines.
#[derive(Clone, Copy, Debug, PartialEq, Eq)]
pub enum Word {
    Case,
    Setting,
    Name,
    Loose,
    Packed,
    Line,
    Lock,
    LockPacked,
    Edit,
    Prepare,
    Answer,
    Row,
    Ours,
    OursPacked,
    Commit,
    Rollback,
    NowLoose,
    NowPacked,
    NowLine,
    End,
}

const WORDS: [(&[u8], Word); 20] = [
    (b"case", Word::Case),
    (b"setting", Word::Setting),
    (b"name", Word::Name),
    (b"loose", Word::Loose),
    (b"packed", Word::Packed),
    (b"line", Word::Line),
    (b"lock", Word::Lock),
    (b"lockpacked", Word::LockPacked),
    (b"edit", Word::Edit),
    (b"prepare", Word::Prepare),
    (b"answer", Word::Answer),
    (b"row", Word::Row),
    (b"ours", Word::Ours),
    (b"ourspacked", Word::OursPacked),
    (b"commit", Word::Commit),
    (b"rollback", Word::Rollback),
    (b"nowloose", Word::NowLoose),
    (b"nowpacked", Word::NowPacked),
    (b"nowline", Word::NowLine),
    (b"end", Word::End),
];

// The fields of a line: as many as its word says, and zeros behind them.
pub type Fields = [u64; 13];

impl Word {
    // The word that a line begins with.
    pub fn of(line: &[u8]) -> Option<Word> {
        let first = first(line);
        for (text, word) in WORDS {
            if text == first {
                return Some(word);
            }
        }
        None
    }

    // How many fields a line has. A name's bytes are no number, and are looked at by the call that adds it.
    fn many(self) -> usize {
        match self {
            Word::Case | Word::Setting | Word::Lock | Word::Prepare | Word::Ours => 1,
            Word::Packed | Word::Commit | Word::NowPacked => 2,
            Word::Loose | Word::NowLoose => 3,
            Word::Line | Word::NowLine => 5,
            Word::Answer => 6,
            Word::Edit => 11,
            Word::Row => 13,
            Word::Name | Word::LockPacked | Word::OursPacked | Word::Rollback | Word::End => 0,
        }
    }

    // The fields of a line of this word, where it has just these.
    pub fn fields(self, line: &[u8]) -> Option<Fields> {
        match self {
            Word::Name => Some([0; 13]),
            _ => fields(line, self.many()),
        }
    }
}

// The bytes up to the first space: all of a line that has none.
pub fn first(line: &[u8]) -> &[u8] {
    line.split(|byte| *byte == b' ').next().unwrap_or(line)
}

// The numbers behind a line's first word, where there are so many and nothing else.
pub fn fields(line: &[u8], many: usize) -> Option<Fields> {
    let mut fields = [0; 13];
    let mut words = line.split(|byte| *byte == b' ').skip(1);
    for field in fields.iter_mut().take(many) {
        *field = number(words.next()?)?;
    }
    match words.next() {
        None => Some(fields),
        Some(_) => None,
    }
}

// No number has a sign, or begins with 0 but 0 itself, or has more than 64 bits.
fn number(word: &[u8]) -> Option<u64> {
    match word {
        [b'0', _, ..] => None,
        [b'0'..=b'9', ..] => str::from_utf8(word).ok()?.parse::<u64>().ok(),
        _ => None,
    }
}
