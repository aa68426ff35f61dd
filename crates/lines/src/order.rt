// Which line may follow which in a block, and what the numbers of a line have to be there. What is wrong is said, and the block given up.
use crate::words;
use crate::words::{Fields, Word};
use report::Report;
use std::{fmt, io};

// The places of a block's lines, in the order in which they stand. Rollback stands where commit does.
#[derive(Clone, Copy, Debug, PartialEq, Eq, PartialOrd, Ord)]
pub enum Place {
    Case,
    Setting,
    Name,
    Loose,
    Packed,
    Line,
    Lock,
    LockPacked,
    Edit,
    Prepare,
    Answer,
    Row,
    Ours,
    OursPacked,
    Commit,
    AnswerAfter,
    NowLoose,
    NowPacked,
    NowLine,
    End,
}

impl Place {
    // An answer behind prepare's is commit's or rollback's.
    fn of(word: Word, last: Place) -> Place {
        match word {
            Word::Case => Place::Case,
            Word::Setting => Place::Setting,
            Word::Name => Place::Name,
            Word::Loose => Place::Loose,
            Word::Packed => Place::Packed,
            Word::Line => Place::Line,
            Word::Lock => Place::Lock,
            Word::LockPacked => Place::LockPacked,
            Word::Edit => Place::Edit,
            Word::Prepare => Place::Prepare,
            Word::Answer if last > Place::Prepare => Place::AnswerAfter,
            Word::Answer => Place::Answer,
            Word::Row => Place::Row,
            Word::Ours => Place::Ours,
            Word::OursPacked => Place::OursPacked,
            Word::Commit | Word::Rollback => Place::Commit,
            Word::NowLoose => Place::NowLoose,
            Word::NowPacked => Place::NowPacked,
            Word::NowLine => Place::NowLine,
            Word::End => Place::End,
        }
    }

    // Lines of this place may stand more than once in a block.
    fn repeats(self) -> bool {
        self.is_named() || matches!(self, Place::Name | Place::Edit | Place::Row)
    }

    // They begin with a name's number.
    fn is_named(self) -> bool {
        self.is_rising() || matches!(self, Place::Line | Place::NowLine)
    }

    // They stand by rising name.
    fn is_rising(self) -> bool {
        self.is_valued() || matches!(self, Place::Lock | Place::Ours)
    }

    // Their second field is a kind or an object, and neither is 0: what has no value has no line.
    fn is_valued(self) -> bool {
        matches!(
            self,
            Place::Loose | Place::Packed | Place::NowLoose | Place::NowPacked
        )
    }
}

// What can be wrong with a line.
#[derive(Clone, Copy, Debug, PartialEq, Eq)]
enum Fault {
    NoLine,
    Fields,
    Place,
    NoName,
    NotRising,
    NoValue,
}

impl fmt::Display for Fault {
    fn fmt<W: fmt::Write>(&self, f: &mut fmt::Formatter<W>) -> fmt::Result {
        f.write_str(match self {
            Fault::NoLine => "it is no line of a block",
            Fault::Fields => "its fields are not those of its word",
            Fault::Place => "it may not stand here",
            Fault::NoName => "no name has that number",
            Fault::NotRising => "names do not rise",
            Fault::NoValue => "it has no value",
        })
    }
}

// A block that has begun: the place of its last line, how many names it has, the least that the next line may have where names rise,
// and whether its prepare was refused.
#[derive(Clone, Copy, Debug, PartialEq, Eq)]
struct Block {
    last: Place,
    names: u64,
    next_name: u64,
    is_refused: bool,
}

impl Block {
    fn new() -> Block {
        Block {
            last: Place::Case,
            names: 0,
            next_name: 0,
            is_refused: false,
        }
    }

    // The furthest place that may follow: the next line that no block is without. A refused prepare is followed by the end.
    fn bound(&self) -> Place {
        let bounds = [Place::Setting, Place::Prepare, Place::Answer];
        for bound in bounds {
            if self.last < bound {
                return bound;
            }
        }
        if self.is_refused {
            return Place::End;
        }
        if self.last < Place::Commit {
            return Place::Commit;
        }
        if self.last < Place::AnswerAfter {
            return Place::AnswerAfter;
        }
        Place::End
    }

    fn may_go_to(&self, place: Place) -> bool {
        if self.bound() < place {
            return false;
        }
        if self.last == place {
            return place.repeats();
        }
        if self.is_refused && Place::Prepare < self.last {
            return place == Place::End;
        }
        self.last < place
    }

    // A line of this place comes next.
    fn go_to(&mut self, place: Place) -> Result<(), Fault> {
        if !self.may_go_to(place) {
            return Err(Fault::Place);
        }
        if place != self.last {
            self.next_name = 0;
        }
        self.last = place;
        Ok(())
    }

    // Its numbers are those of names of the block, rise where they have to, and say that there is a value.
    fn take(&mut self, fields: &Fields) -> Result<(), Fault> {
        let [first, second, ..] = *fields;
        if self.last.is_named() && first >= self.names {
            return Err(Fault::NoName);
        }
        if self.last.is_rising() {
            if first < self.next_name {
                return Err(Fault::NotRising);
            }
            self.next_name = first.saturating_add(1);
        }
        if self.last.is_valued() && second == 0 {
            return Err(Fault::NoValue);
        }
        match self.last {
            Place::Name => self.names = self.names.saturating_add(1),
            Place::Answer => self.is_refused = first != 0,
            _ => {}
        }
        Ok(())
    }
}

// Where the reader of the file is: behind a block; where a case has to follow, as it has at the file's beginning and behind a line for
// people; in a block; or behind a fault, where all is passed over until the next case begins.
#[derive(Clone, Copy, Debug, PartialEq, Eq)]
enum State {
    Between,
    Awaiting,
    Within(Block),
    Lost,
}

// A line that may be followed.
#[derive(Clone, Copy, Debug, PartialEq, Eq)]
pub struct Entry {
    pub word: Word,
    pub place: Place,
    pub fields: Fields,
}

// How far the file was read, and how many cases it says that it has.
#[derive(Clone, Copy, Debug, PartialEq, Eq)]
pub struct Reading {
    told: u64,
    state: State,
}

impl Reading {
    pub fn new() -> Reading {
        Reading {
            told: 0,
            state: State::Awaiting,
        }
    }

    // The next line of the file: what it says, where it is one of a block and may stand there.
    pub fn line<R: Print>(
        &mut self,
        report: &mut Report<R>,
        line: &[u8],
    ) -> io::Result<Option<Entry>> {
        report.next_line();
        if report.line == 1 {
            self.header(report, line)?;
            return Ok(None);
        }
        if line.starts_with(b"#") {
            self.remark(report)?;
            return Ok(None);
        }
        self.of_block(report, line)
    }

    // A line that is none.
    pub fn bad_line<R: Print>(&mut self, report: &mut Report<R>, what: &str) -> io::Result<()> {
        report.next_line();
        report.fault(what)?;
        self.give_up(report, false);
        Ok(())
    }

    // The file is at its end, behind a block, and has as many cases as it said.
    pub fn end<R: Print>(&self, report: &mut Report<R>) -> io::Result<()> {
        let cases = report.cases;
        report.same("cases", self.told, cases)?;
        match self.state {
            State::Between | State::Lost => Ok(()),
            State::Awaiting | State::Within(_) => report.fault("the file ends here"),
        }
    }

    // The file's first line says how many cases there are.
    fn header<R: Print>(&mut self, report: &mut Report<R>, line: &[u8]) -> io::Result<()> {
        self.state = State::Between;
        if words::first(line) != b"cases".as_slice() {
            return report.fault("the first line does not say how many cases there are");
        }
        match words::fields(line, 1) {
            Some(fields) => self.told = fields[0],
            None => report.fault(Fault::Fields)?,
        }
        Ok(())
    }

    // A line for people stands just before a case.
    fn remark<R: Print>(&mut self, report: &mut Report<R>) -> io::Result<()> {
        match self.state {
            State::Between => self.state = State::Awaiting,
            State::Lost => {}
            State::Awaiting | State::Within(_) => report.fault(Fault::Place)?,
        }
        Ok(())
    }

    // If the line may not be followed, it is said why, and the block is given up.
    fn of_block<R: Print>(
        &mut self,
        report: &mut Report<R>,
        line: &[u8],
    ) -> io::Result<Option<Entry>> {
        let word = Word::of(line);
        let begins = word == Some(Word::Case);
        if self.state == State::Lost && !begins {
            return Ok(None);
        }
        if begins {
            self.close_unended(report)?;
        }
        match self.entry(word, line) {
            Ok(entry) => Ok(Some(entry)),
            Err(fault) => {
                report.fault(fault)?;
                self.give_up(report, begins);
                Ok(None)
            }
        }
    }

    // A case begins where a block has no end yet.
    fn close_unended<R: Print>(&mut self, report: &mut Report<R>) -> io::Result<()> {
        if let State::Within(_) = self.state {
            report.fault("the block before it has no end")?;
            report.close();
            self.state = State::Between;
        }
        Ok(())
    }

    fn entry(&mut self, word: Option<Word>, line: &[u8]) -> Result<Entry, Fault> {
        let word = word.ok_or(Fault::NoLine)?;
        let fields = word.fields(line).ok_or(Fault::Fields)?;
        let place = self.place(word, &fields)?;
        Ok(Entry {
            word,
            place,
            fields,
        })
    }

    // Between blocks a case begins, and no other line may stand.
    fn place(&mut self, word: Word, fields: &Fields) -> Result<Place, Fault> {
        let State::Within(mut block) = self.state else {
            if word != Word::Case {
                return Err(Fault::Place);
            }
            self.state = State::Within(Block::new());
            return Ok(Place::Case);
        };
        let place = Place::of(word, block.last);
        block.go_to(place)?;
        block.take(fields)?;
        self.state = match place {
            Place::End => State::Between,
            _ => State::Within(block),
        };
        Ok(place)
    }

    // What follows a fault is passed over until the next case begins. The block that has begun counts as a case.
    fn give_up<R: Print>(&mut self, report: &mut Report<R>, begins: bool) {
        if begins || matches!(self.state, State::Within(_)) {
            report.close();
        }
        self.state = State::Lost;
    }
}
