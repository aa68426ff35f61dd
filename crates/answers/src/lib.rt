// What a call answers, and the record that is filled with it.
#![tactic(auto)]

ghost use Rattle.std.specs.Prelude.{◌≡◌, [], ◌∷◌, ◌++◌, ◌≤◌, length};
ghost use Rattle.target.specs.Fields.{place_number};
ghost use Rattle.model.specs.Numbers.{answer, row_places, target_places, refusal_answer};
ghost use Rattle.answers.specs.Answers.{record_of, answer_by, answered};

use model::Refusal;
use target::{Found, NameNumber, Target};
use transaction::Edit;

// The answer record, 16 places of 8 bytes, and the numbers that calls return.
#[derive(Clone, Copy)]
pub struct Answer {}

impl Answer {
    pub const PLACES: usize = 16;

    pub const WIDTH: usize = 8;

    pub const SIZE: usize = 128;

    pub const DONE: u32 = 0;

    pub const BAD_REGION: u32 = 1;

    pub const MALFORMED: u32 = 2;

    pub const NOT_REGISTERED: u32 = 3;

    pub const REFERENCE_CYCLE: u32 = 4;

    pub const TOO_MANY_ROWS: u32 = 5;

    pub const MULTIPLE_EDITS: u32 = 6;

    pub const PACKED_TRANSACTION_ACQUIRE: u32 = 7;

    pub const LOCK_ACQUIRE: u32 = 8;

    pub const DELETE_REFERENCE_MUST_EXIST: u32 = 9;

    pub const MUST_NOT_EXIST: u32 = 10;

    pub const MUST_EXIST: u32 = 11;

    pub const REFERENCE_OUT_OF_DATE: u32 = 12;

    pub const DELETE_MUST_NOT_EXIST: u32 = 13;

    pub const LOG_FULL: u32 = 14;

    pub const WRONG_STATE: u32 = 15;

    pub const NO_COMMITTER: u32 = 16;

    pub const USED_UP: u32 = 17;

    pub const BAD_NAME: u32 = 18;

    pub const NAMES_FULL: u32 = 19;

    pub const WRONG_LOCK: u32 = 20;

    pub const BAD_LOAD: u32 = 21;

    pub const NOTHING_THERE: u32 = 22;

    pub const MALFORMED_RECORD: u32 = 23;

    pub const UNKNOWN_VERSION: u32 = 24;

    pub const NAME_CONFLICT: u32 = 25;

    pub const RECEIVER_FULL: u32 = 26;

    pub const MALFORMED_LINE: u32 = 27;

    pub const TEXT_TOO_LONG: u32 = 32;

    pub const SHORT_BUFFER: u32 = 33;
}

// What a call answers: its number, and every place of the record. So equal answers are equal verdicts.
#[derive(Clone, Copy, PartialEq, Eq)]
pub struct Verdict {
    pub number: u32,
    pub places: [u64; 16],
}

impl Verdict {
    // A number with as many places as it uses; the others are 0.
    pub fn new(number: u32, used: &[u64]) -> Verdict
        requires { length used.now ≤ 16 }
        ensures { answer_by result ≡ answer number used.now }
    {
        let mut places = [0u64; Answer::PLACES];
        places[..used.len()].copy_from_slice(used);
        Verdict { number, places }
    }

    // A call is done, and this is what it gives.
    pub fn done(used: &[u64]) -> Verdict
        requires { length used.now ≤ 16 }
        ensures { answer_by result ≡ answer 0 used.now }
    {
        Verdict::new(Answer::DONE, used)
    }

    // What reading a row answers: its numbers, as its slot has them, and the place of its existing value.
    pub fn row(row: Edit, found: Found) -> Verdict
        ensures { answer_by result ≡ answer 0 (row_places row ++ (place_number found ∷ [])) }
    {
        let p = slots::row_numbers(row);
        Verdict::done(&[
            p[0],
            p[1],
            p[2],
            p[3],
            p[4],
            p[5],
            p[6],
            p[7],
            p[8],
            p[9],
            p[10],
            p[11],
            p[12],
            found.place(),
        ])
    }
}

// A refusal's number, and what goes with it.
impl From<Refusal> for Verdict {
    ghost from_gives = { λ refusal verdict. answer_by verdict ≡ refusal_answer refusal };

    fn from(refusal: Refusal) -> Verdict {
        match refusal {
            Refusal::BadRegion => Verdict::new(Answer::BAD_REGION, &[]),
            Refusal::Malformed => Verdict::new(Answer::MALFORMED, &[]),
            Refusal::NotRegistered(number) => Verdict::new(Answer::NOT_REGISTERED, &[number]),
            Refusal::ReferenceCycle => Verdict::new(Answer::REFERENCE_CYCLE, &[]),
            Refusal::TooManyRows => Verdict::new(Answer::TOO_MANY_ROWS, &[]),
            Refusal::MultipleEdits(n) => named(Answer::MULTIPLE_EDITS, n),
            Refusal::PackedTransactionAcquire => Verdict::new(
                Answer::PACKED_TRANSACTION_ACQUIRE,
                &[],
            ),
            Refusal::LockAcquire(n) => named(Answer::LOCK_ACQUIRE, n),
            Refusal::DeleteReferenceMustExist(n) => named(Answer::DELETE_REFERENCE_MUST_EXIST, n),
            Refusal::MustNotExist(n, actual, new) => named_two(
                Answer::MUST_NOT_EXIST,
                n,
                actual,
                new,
            ),
            Refusal::MustExist(n, expected) => named_one(Answer::MUST_EXIST, n, expected),
            Refusal::ReferenceOutOfDate(n, expected, actual) => named_two(
                Answer::REFERENCE_OUT_OF_DATE,
                n,
                expected,
                actual,
            ),
            Refusal::DeleteMustNotExist(n) => named(Answer::DELETE_MUST_NOT_EXIST, n),
            Refusal::LogFull => Verdict::new(Answer::LOG_FULL, &[]),
            Refusal::WrongState => Verdict::new(Answer::WRONG_STATE, &[]),
            Refusal::BadName => Verdict::new(Answer::BAD_NAME, &[]),
            Refusal::NamesFull => Verdict::new(Answer::NAMES_FULL, &[]),
            Refusal::WrongLock => Verdict::new(Answer::WRONG_LOCK, &[]),
            Refusal::BadLoad => Verdict::new(Answer::BAD_LOAD, &[]),
            Refusal::NothingThere => Verdict::new(Answer::NOTHING_THERE, &[]),
            Refusal::MalformedRecord => Verdict::new(Answer::MALFORMED_RECORD, &[]),
            Refusal::UnknownVersion => Verdict::new(Answer::UNKNOWN_VERSION, &[]),
            Refusal::NameConflict(n) => named(Answer::NAME_CONFLICT, n),
            Refusal::ReceiverFull => Verdict::new(Answer::RECEIVER_FULL, &[]),
            Refusal::MalformedLine(line) => Verdict::new(Answer::MALFORMED_LINE, &[line]),
            Refusal::TextTooLong => Verdict::new(Answer::TEXT_TOO_LONG, &[]),
            Refusal::ShortBuffer => Verdict::new(Answer::SHORT_BUFFER, &[]),
        }
    }
}

// A name, and targets behind it: each is two places, kind and number.
fn named(number: u32, name: NameNumber) -> Verdict
    ensures { answer_by result ≡ answer number (name.0 ∷ []) }
{
    Verdict::new(number, &[u64::from(name.0)])
}

fn named_one(number: u32, name: NameNumber, t: Target) -> Verdict
    ensures { answer_by result ≡ answer number (name.0 ∷ target_places t) }
{
    let there = Some(t);
    Verdict::new(
        number,
        &[
            u64::from(name.0),
            target::target_byte(there),
            target::target_number(there),
        ],
    )
}

fn named_two(number: u32, name: NameNumber, t: Target, u: Target) -> Verdict
    ensures { answer_by result ≡ answer number (name.0 ∷ target_places t ++ target_places u) }
{
    let first = Some(t);
    let second = Some(u);
    Verdict::new(
        number,
        &[
            u64::from(name.0),
            target::target_byte(first),
            target::target_number(first),
            target::target_byte(second),
            target::target_number(second),
        ],
    )
}

// ---- the record

fn put_places(answer: &mut [u8], places: [u64; 16])
    requires { length answer.old ≡ 128 }
    ensures { answer.new ≡ record_of places }
{
    for i in 0..Answer::PLACES {
        word::put_at(answer, i * Answer::WIDTH, Answer::WIDTH, places[i]);
    }
}

// Fills the record with what a call gives or is refused for, and gives the number.
pub fn finish(answer: &mut [u8], outcome: Result<Verdict, Refusal>) -> u32
    requires { length answer.old ≡ 128 }
    ensures { (result ≡ (answered outcome).number) × (answer.new ≡ record_of (answered outcome).places) }
{
    let verdict = match outcome {
        Ok(verdict) => verdict,
        Err(refusal) => Verdict::from(refusal),
    };
    put_places(answer, verdict.places);
    verdict.number
}
