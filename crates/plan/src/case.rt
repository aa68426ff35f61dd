// A case, as far as its lines were read.
use crate::log::LogLine;
use crate::told::{Lock, Told};
use asks::{Asks, Call, Kind};
use lent::{At, Edit, Lent};
use lines::order::{Entry, Place};
use lines::words::{Fields, Word};
use std::alloc::Global;
use std::{io, mem};

// What the library answers where a call cannot be done: nothing is prepared; a lock that is not free cannot be placed, and one that is
// not foreign cannot be lifted; there is no such log line or row.
const NOT_PREPARED: u64 = 15;

const WRONG_LOCK: u64 = 20;

const NO_SUCH: u64 = 22;

// As many edits as a list has room for, and one more.
const MOST_EDITS: usize = 33;

// What it says of its store, kept until a call has made it so.
#[derive(Drop)]
pub struct Case {
    names: u64,

    // What is told of each name. A region has no place for more than 256, and of the others nothing is kept.
    told: Vec<Told>,
    packed_lock: Lock,
    edits: Vec<Edit>,

    // How many rows and lines of the log afterwards were seen, and how many rows prepare is to give.
    rows: u64,
    lines: u64,
    rows_told: u64,
    is_refused: bool,
}

impl Case {
    pub fn new(alloc: Global) -> Case {
        Case {
            names: 0,
            told: Vec::new(alloc),
            packed_lock: Lock::Free,
            edits: Vec::new(alloc),
            rows: 0,
            lines: 0,
            rows_told: 0,
            is_refused: false,
        }
    }

    // The next line of the block: the calls that it asks for stand in the queue.
    pub fn line<R: Print>(
        &mut self,
        asks: &mut Asks<R>,
        lent: &Lent,
        entry: &Entry,
        line: &[u8],
    ) -> io::Result<()> {
        let fields = entry.fields;
        let [first, ..] = fields;
        match entry.place {
            Place::Case => self.begin(asks, first),
            Place::Setting => asks.ask(Call::Start { setting: first }, 0),
            Place::Name => self.name(asks, line.len()),
            Place::Loose | Place::NowLoose => self.loose(fields),
            Place::Packed | Place::NowPacked => self.packed(fields),
            Place::Line => log_line(fields).make(asks),
            Place::Lock => self.lock(asks, first, Lock::Foreign),
            Place::LockPacked => self.lock_packed(asks, Lock::Foreign),
            Place::Edit => self.edit(asks, fields),
            Place::Prepare => self.prepare(asks, first),
            Place::Answer => self.prepared(asks, lent, fields),
            Place::Row => self.row(asks, lent, fields),
            Place::Ours => self.lock(asks, first, Lock::Ours),
            Place::OursPacked => self.lock_packed(asks, Lock::Ours),
            Place::Commit => self.finish(asks, lent, entry),
            Place::AnswerAfter => answer(asks, lent, fields),
            Place::NowLine => self.now_line(asks, lent, fields),
            Place::End => self.after(asks, lent),
        }
    }

    // The calls of the line were made. The bytes of a name stand where the last of them says.
    pub fn made<R: Print>(
        &self,
        asks: &mut Asks<R>,
        lent: &Lent,
        entry: &Entry,
        line: &[u8],
    ) -> io::Result<()> {
        match entry.place {
            Place::Name if self.names <= 256 => match line.get(5..) {
                Some(name) if lent.holds(name) => Ok(()),
                _ => asks.report.fault("the name's bytes are others"),
            },
            Place::End => {
                asks.report.close();
                Ok(())
            }
            _ => Ok(()),
        }
    }

    // ---- what the lines say

    fn begin<R: Print>(&mut self, asks: &mut Asks<R>, place: u64) -> io::Result<()> {
        *self = Case::new(asks.alloc());
        let cases = asks.report.cases;
        asks.report.same("the case's place", cases, place)
    }

    fn of(&self, name: u64) -> Told {
        match self.told.get(name as usize) {
            Some(told) => *told,
            None => Told::nothing(),
        }
    }

    // A loose value, as it is to be.
    fn loose(&mut self, [name, kind, number, ..]: Fields) -> io::Result<()> {
        if let Some(told) = self.told.get_mut(name as usize) {
            told.kind = kind;
            told.number = number;
        }
        Ok(())
    }

    fn packed(&mut self, [name, object, ..]: Fields) -> io::Result<()> {
        if let Some(told) = self.told.get_mut(name as usize) {
            told.packed = object;
        }
        Ok(())
    }

    // A lock, foreign or ours. None is both.
    fn lock<R: Print>(&mut self, asks: &mut Asks<R>, name: u64, lock: Lock) -> io::Result<()> {
        let was = self.of(name).lock;
        if let Some(told) = self.told.get_mut(name as usize) {
            told.lock = lock;
        }
        asks.report
            .same(format_args!("another lock of name {name}"), 0, was as u64)
    }

    fn lock_packed<R: Print>(&mut self, asks: &mut Asks<R>, lock: Lock) -> io::Result<()> {
        let was = self.packed_lock;
        self.packed_lock = lock;
        asks.report
            .same("another lock of the packed table", 0, was as u64)
    }

    // One edit more of the list.
    fn edit<R: Print>(&mut self, asks: &mut Asks<R>, fields: Fields) -> io::Result<()> {
        match Edit::of_fields(&fields) {
            Some(edit) if self.edits.len() < MOST_EDITS => self.edits.push(edit)?,
            _ => asks.report.fault("no list has such an edit")?,
        }
        Ok(())
    }

    // What prepare answered. A refusal leaves every byte as it was, and ends the case.
    fn prepared<R: Print>(
        &mut self,
        asks: &mut Asks<R>,
        lent: &Lent,
        fields: Fields,
    ) -> io::Result<()> {
        answer(asks, lent, fields)?;
        let [number, rows, ..] = fields;
        self.rows_told = rows;
        self.is_refused = number != 0;
        if self.is_refused {
            let is_changed = u64::from(lent.is_changed);
            asks.report.same("the store was changed", 0, is_changed)?;
        }
        Ok(())
    }

    // ---- the store, made by calls: each of them is done, or the case differs

    // The bytes behind the word 'name' are a new name's, which gets the next number. They stand where docs/LAYOUT.md has them.
    fn name<R: Print>(&mut self, asks: &mut Asks<R>, to: usize) -> io::Result<()> {
        let name = self.names;
        self.names = name.saturating_add(1);
        asks.ask(Call::AddName { from: 5, to }, 0)?;
        asks.gives(&[name]);
        if name < 256 {
            self.told.push(Told::nothing())?;
            asks.ask(Call::NameBytes { name }, 0)?;
            let size = (to as u64).wrapping_sub(5);
            asks.gives(&[At::NAMES + At::NAME_WIDTH * name, size]);
        }
        Ok(())
    }

    // Values and foreign locks of a name, as they are told.
    fn load<R: Print>(&self, asks: &mut Asks<R>, name: u64) -> io::Result<()> {
        let told = self.of(name);
        let Told { kind, number, .. } = told;
        if kind != 0 {
            asks.ask(Call::LoadLoose { name, kind, number }, 0)?;
        }
        let number = told.packed;
        if number != 0 {
            let kind = 1;
            asks.ask(Call::LoadPacked { name, kind, number }, 0)?;
        }
        if told.lock != Lock::Free {
            asks.ask(place_lock(Kind::NAME, name), 0)?;
        }
        Ok(())
    }

    // The store is made, and the edits are prepared.
    fn prepare<R: Print>(&mut self, asks: &mut Asks<R>, mode: u64) -> io::Result<()> {
        for name in (0..self.names).rev() {
            self.load(asks, name)?;
        }
        if self.packed_lock != Lock::Free {
            asks.ask(place_lock(Kind::PACKED_TABLE, 0), 0)?;
        }
        let edits = mem::try_take(&mut self.edits)?;
        asks.ask_any(Call::Prepare { edits, mode })
    }

    // ---- what the calls left, against what is recorded

    // The next row has the line's fields, and behind them the place where prepare found the value that was there. The packed table was
    // opened where its lock is ours. Whether that is as it is to be, is judged with the other locks.
    fn row<R: Print>(&mut self, asks: &mut Asks<R>, lent: &Lent, fields: Fields) -> io::Result<()> {
        let [name, ..] = fields;
        let is_opened = lent::number_at(&lent.region, At::PACKED_LOCK, 1) == 2;
        let mut places = [0; 14];
        places[..13].copy_from_slice(&fields);
        places[13] = self.of(name).found(is_opened) as u64;
        asks.ask(Call::ReadRow { place: self.rows }, 0)?;
        asks.gives(&places);
        self.rows = self.rows.saturating_add(1);
        Ok(())
    }

    // What was prepared is judged as a whole, before commit or rollback ends it: there are as many rows as prepare said, and not one
    // more, and no value is changed.
    fn finish<R: Print>(
        &mut self,
        asks: &mut Asks<R>,
        lent: &Lent,
        entry: &Entry,
    ) -> io::Result<()> {
        let [committer, allowance, ..] = entry.fields;
        let place = self.rows;
        asks.report.same("rows", self.rows_told, place)?;
        asks.ask(Call::ReadRow { place }, NO_SUCH)?;
        self.store(asks, lent)?;
        asks.ask_any(match entry.word {
            Word::Rollback => Call::Rollback,
            _ => Call::Commit {
                committer,
                allowance,
            },
        })?;
        self.give_up();
        Ok(())
    }

    fn give_up(&mut self) {
        for told in self.told.iter_mut() {
            told.give_up();
        }
        if self.packed_lock == Lock::Ours {
            self.packed_lock = Lock::Free;
        }
    }

    // Every name has the values that it is to have, and reads what it is to read, and every lock is free, foreign or ours, as it is to be.
    fn store<R: Print>(&self, asks: &mut Asks<R>, lent: &Lent) -> io::Result<()> {
        for name in (0..self.names.min(256)).rev() {
            self.values(asks, lent, name)?;
        }
        for name in (0..self.names).rev() {
            let told = self.of(name);
            let (kind, number) = told.read();
            asks.ask(Call::ReadName { name }, 0)?;
            asks.gives(&[kind, number, told.found(true) as u64]);
            lock_stays(asks, told.lock, Kind::NAME, name)?;
        }
        lock_stays(asks, self.packed_lock, Kind::PACKED_TABLE, 0)
    }

    // The values of a name in the region: a packed one that a loose one hides, no call tells.
    fn values<R: Print>(&self, asks: &mut Asks<R>, lent: &Lent, name: u64) -> io::Result<()> {
        let told = self.of(name);
        let place = name as usize;
        let loose = At::LOOSES.saturating_add(place.saturating_mul(At::LOOSE_WIDTH));
        let packed = At::PACKEDS.saturating_add(place.saturating_mul(At::PACKED_WIDTH));
        let region = &lent.region;
        for (expected, found) in [
            (told.kind, lent::number_at(region, loose, 1)),
            (
                told.number,
                lent::number_at(region, loose.saturating_add(1), 8),
            ),
            (told.packed, lent::number_at(region, packed, 8)),
        ] {
            asks.report.same(
                format_args!("the value in the region of name {name}"),
                expected,
                found,
            )?;
        }
        Ok(())
    }

    // The next line of the log: its place in the whole log is read in the region, and its place among its name's lines by a call.
    fn now_line<R: Print>(
        &mut self,
        asks: &mut Asks<R>,
        lent: &Lent,
        fields: Fields,
    ) -> io::Result<()> {
        let [name, ..] = fields;
        if let Some(found) = lent::line_fields(&lent.region, self.lines) {
            for (i, (expected, found)) in fields.iter().zip(found.iter()).enumerate() {
                asks.report.same(format_args!("the log line's field {i}"), *expected, *found)?;
            }
        }
        let place = self.of(name).lines;
        asks.ask(Call::ReadLine { name, place }, 0)?;
        asks.gives(&fields[1..5]);
        if let Some(told) = self.told.get_mut(name as usize) {
            told.lines = place.saturating_add(1);
        }
        self.lines = self.lines.saturating_add(1);
        Ok(())
    }

    // The log has as many lines as were told, and no name has one behind its last.
    fn log<R: Print>(&self, asks: &mut Asks<R>, lent: &Lent) -> io::Result<()> {
        let found = lent::number_at(&lent.region, At::LINE_COUNT, 2);
        asks.report.same("lines of the log", self.lines, found)?;
        for name in (0..self.names).rev() {
            let place = self.of(name).lines;
            asks.ask(Call::ReadLine { name, place }, NO_SUCH)?;
        }
        Ok(())
    }

    // The store afterwards. A refused prepare left it as it was, which its answer's line has judged.
    fn after<R: Print>(&self, asks: &mut Asks<R>, lent: &Lent) -> io::Result<()> {
        if self.is_refused {
            return Ok(());
        }
        self.log(asks, lent)?;
        self.store(asks, lent)?;
        asks.ask(
            Call::Commit {
                committer: 1,
                allowance: 1,
            },
            NOT_PREPARED,
        )
    }
}

fn log_line([name, previous, new, committer, message, ..]: Fields) -> LogLine {
    LogLine {
        name,
        previous,
        new,
        committer,
        message,
    }
}

// The line is the last call's answer: its number, and places 0 to 4. The others are 0.
fn answer<R: Print>(asks: &mut Asks<R>, lent: &Lent, fields: Fields) -> io::Result<()> {
    let [number, ..] = fields;
    let places = &fields[1..];
    asks.report.same("number", number, lent.answer.number)?;
    for (i, found) in lent.answer.places.iter().enumerate() {
        let expected = places.get(i).copied().unwrap_or(0);
        asks.report
            .same(format_args!("place {i}"), expected, *found)?;
    }
    Ok(())
}

fn place_lock(kind: u64, number: u64) -> Call {
    Call::PlaceLock { kind, number }
}

fn lift_lock(kind: u64, number: u64) -> Call {
    Call::LiftLock { kind, number }
}

// A lock is what it is to be, as the calls that place and lift it tell. What they change they change back.
fn lock_stays<R: Print>(asks: &mut Asks<R>, lock: Lock, kind: u64, number: u64) -> io::Result<()> {
    match lock {
        Lock::Free => {
            asks.ask(lift_lock(kind, number), WRONG_LOCK)?;
            asks.ask(place_lock(kind, number), 0)?;
            asks.ask(lift_lock(kind, number), 0)
        }
        Lock::Foreign => {
            asks.ask(place_lock(kind, number), WRONG_LOCK)?;
            asks.ask(lift_lock(kind, number), 0)?;
            asks.ask(place_lock(kind, number), 0)
        }
        Lock::Ours => {
            asks.ask(place_lock(kind, number), WRONG_LOCK)?;
            asks.ask(lift_lock(kind, number), WRONG_LOCK)
        }
    }
}
