// Commit: place by place the next write is asked for, judged (17, then 16), made and counted; then our locks are freed, and the
// transaction is forgotten, as by a rollback.
#![tactic(auto)]

ghost use Rattle.std.specs.Prelude.{◌≡◌, true, ◌&&◌, [], ◌∷◌, ◌+◌, ◌<◌, ◌≤◌, length, eqb};
ghost use Rattle.word.specs.Flags.{Flags};
ghost use Rattle.model.specs.Store.{is_prepared, with_entries};
ghost use Rattle.model.specs.Rows.{row_at};
ghost use Rattle.model.specs.Writes.{apply_packed, packed_edit, packed_edits};
ghost use Rattle.model.specs.Commit.{lines_in, committing};
ghost use Rattle.model.specs.Fine.{Fine};
ghost use Rattle.model.specs.Reply.Call.{commit};
ghost use Rattle.model.specs.Calls.{step};
ghost use Rattle.model.specs.Numbers.{answer};
ghost use Rattle.model.specs.Demand3.{by, apply_all};
ghost use Rattle.region.specs.Region.{view, Laid, Became};
ghost use Rattle.rows.specs.Rows.{Named, Apart};
ghost use Rattle.rows.specs.Due.{lined};
ghost use Rattle.writes.specs.Next.{rows_of, mode_of, write_list, first_at, second_at, places};
ghost use Rattle.writes.specs.Told.{Told};
ghost use Rattle.answers.specs.Answers.{answer_by};
ghost use Rattle.calls.specs.Call.{reply_to, Replied};
ghost use Rattle.committing.specs.Running.{Makes, is_line_write, halt_number, Turned, Placed, RanOut};

use answers::{Answer, Verdict};
use model::{Line, Loose, Refusal};
use target::NameNumber;
use transaction::PackedRefs;
use writes::NextWrite;

// ---- a write, made

// What the packed write does to one row's name.
fn pack_row(region: &mut [u8], mode: PackedRefs, i: usize)
    requires laid { Laid region.old }
    requires named { Named (view region.old) }
    requires i_in_bounds { i < length (rows_of (view region.old)) }
    ensures { Became region.new (with_entries (view region.old) (apply_packed (packed_edit (view region.old) mode (row_at (rows_of (view region.old)) i)) (view region.old).entries)) }
{
    let row = region::row_at(region, i);
    if let Some(v) = writes::packed_edit(region, mode, row) {
        writers::put_packed_at(region, row.update.name, v);
    }
}

// W3: one write, whatever the number of rows; no stop comes between them.
fn pack_rows(region: &mut [u8])
    requires laid { Laid region.old }
    requires named { Named (view region.old) }
    requires apart { Apart (rows_of (view region.old)) }
    ensures { Became region.new (with_entries (view region.old) (apply_packed (packed_edits (view region.old) (mode_of (view region.old)) (rows_of (view region.old))) (view region.old).entries)) }
{
    let mode = region::mode(region);
    let rows = region::count_rows(region);
    for i in 0..rows {
        pack_row(region, mode, i);
    }
}

fn make(region: &mut [u8], next: Option<NextWrite>)
    requires laid { Laid region.old }
    requires makes { Makes (view region.old) next }
    ensures { Became region.new (apply_all (write_list (view region.old) next) (view region.old)) }
{
    match next {
        None => {}
        Some(NextWrite::AppendLine(line)) => writers::add_line(region, line),
        Some(NextWrite::WriteLoose(n, t)) => writers::put_loose_at(region, n, Loose::Target(t)),
        Some(NextWrite::RemoveLog(n)) => writers::remove_lines(region, n),
        Some(NextWrite::WritePacked) => pack_rows(region),
        Some(NextWrite::RemoveLoose(n)) => writers::put_loose_at(region, n, Loose::None),
    }
}

// ---- a turn

// Why a run has stopped.
#[derive(Clone, Copy)]
pub enum Halt {
    NoCommitter,
    UsedUp,
}

// How far a run has come: the allowance that is left, the writes made, and why it stopped, if it has.
#[derive(Clone, Copy)]
pub struct Ran {
    pub left: u64,
    pub made: u64,
    pub stop: Option<Halt>,
}

// A log line needs a committer.
fn wants_committer(next: Option<NextWrite>, committer: u16) -> bool
    ensures { result ≡ (is_line_write next && eqb committer 0) }
{
    matches!(next, Some(NextWrite::AppendLine(_))) && committer == 0
}

// One turn: passed if the run has stopped or there is nothing to write; else allowance used up, 17; else a line without
// committer, 16; else the write is made and counted. There are at most 481 places of two writes, so the count is far from its bound.
fn turn(region: &mut [u8], committer: u16, next: Option<NextWrite>, at: Ran) -> Ran
    requires laid { Laid region.old }
    requires makes { Makes (view region.old) next }
    requires made_bound { at.made ≤ 2000 }
    ensures { Turned (by committer) at (write_list (view region.old) next) result region.old region.new }
{
    if at.stop.is_some() || next.is_none() {
        return at;
    }
    if at.left == 0 {
        return Ran {
            stop: Some(Halt::UsedUp),
            ..at
        };
    }
    if wants_committer(next, committer) {
        return Ran {
            stop: Some(Halt::NoCommitter),
            ..at
        };
    }
    make(region, next);
    Ran {
        left: at.left - 1,
        made: at.made + 1,
        stop: None,
    }
}

// The first write of a place, by the region as it is; the flags tell which names have lines.
fn first_turn(region: &mut [u8], flags: &[bool], committer: u16, k: usize, at: Ran) -> Ran
    requires laid { Laid region.old }
    requires named { Named (view region.old) }
    requires apart { Apart (rows_of (view region.old)) }
    requires told { Told flags.now (view region.old) (rows_of (view region.old)) k }
    requires committer_bound { committer ≤ 65535 }
    requires k_bound { k < places (view region.old) }
    requires k_len_bound { length (view region.old).lines + lines_in (first_at (by committer) (view region.old) k) ≤ 1024 }
    requires made_bound { at.made ≤ 2000 }
    ensures { Turned (by committer) at (first_at (by committer) (view region.old) k) result region.old region.new }
{
    let next = writes::next_first(region, flags, committer, k);
    turn(region, committer, next, at)
}

// And its second.
fn second_turn(region: &mut [u8], committer: u16, k: usize, at: Ran) -> Ran
    requires laid { Laid region.old }
    requires named { Named (view region.old) }
    requires apart { Apart (rows_of (view region.old)) }
    requires made_bound { at.made ≤ 2000 }
    ensures { Turned (by committer) at (second_at (view region.old) k) result region.old region.new }
{
    let next = writes::next_second(region, k);
    turn(region, committer, next, at)
}

// The two writes of a place: what the first leaves is what the second is asked of.
fn place_turns(region: &mut [u8], flags: &[bool], committer: u16, k: usize, at: Ran) -> Ran
    requires laid { Laid region.old }
    requires named { Named (view region.old) }
    requires apart { Apart (rows_of (view region.old)) }
    requires told { Told flags.now (view region.old) (rows_of (view region.old)) k }
    requires committer_bound { committer ≤ 65535 }
    requires k_bound { k < places (view region.old) }
    requires k_len_bound { length (view region.old).lines + lines_in (first_at (by committer) (view region.old) k) ≤ 1024 }
    requires made_bound { at.made < 2000 }
    ensures { Placed (by committer) at k result region.old region.new }
{
    let between = first_turn(region, flags, committer, k, at);
    second_turn(region, committer, k, between)
}

// ---- the call

// W1 to W4: every place in order.
fn commit_places(region: &mut [u8], flags: &[bool], committer: u16, allowance: u64) -> Ran
    requires laid { Laid region.old }
    requires fine { Fine (view region.old) }
    requires flags { Flags (lined (view region.old)) flags.now }
    requires committer_bound { committer ≤ 65535 }
    ensures { RanOut (committing (by committer) allowance (view region.old)) result region.new }
{
    let rows = region::count_rows(region);
    let places = rows * 3 + 1;
    let mut at = Ran {
        left: allowance,
        made: 0,
        stop: None,
    };
    for k in 0..places {
        at = place_turns(region, flags, committer, k, at);
    }
    at
}

// Which names have lines is gathered once. A write changes that of its own row's name alone, of which it is not asked again.
fn commit_inner(region: &mut [u8], committer: u16, allowance: u64) -> Ran
    requires laid { Laid region.old }
    requires fine { Fine (view region.old) }
    requires committer_bound { committer ≤ 65535 }
    ensures { RanOut (committing (by committer) allowance (view region.old)) result region.new }
{
    let mut flags = [false; NameNumber::LIMIT];
    rows::flag_lines(region, &mut flags);
    commit_places(region, &flags, committer, allowance)
}

// How many writes were made, and why there are no more.
fn report(ran: Ran) -> Verdict
    ensures { answer_by result ≡ answer (halt_number ran.stop) (ran.made ∷ []) }
{
    match ran.stop {
        None => Verdict::done(&[ran.made]),
        Some(Halt::NoCommitter) => Verdict::new(Answer::NO_COMMITTER, &[ran.made]),
        Some(Halt::UsedUp) => Verdict::new(Answer::USED_UP, &[ran.made]),
    }
}

// The writes of the prepared transaction; then our locks are free, and it is forgotten.
fn commit_by(region: &mut [u8], committer: u16, allowance: u64) -> Result<Verdict, Refusal>
    requires laid { Laid region.old }
    requires fine { Fine (view region.old) }
    requires region_value { is_prepared (view region.old).prepared ≡ true }
    requires committer_bound { committer ≤ 65535 }
    ensures { Replied result region.old region.new (step (commit committer allowance) (view region.old)) }
{
    let ran = commit_inner(region, committer, allowance);
    steps::release(region);
    Ok(report(ran))
}

// 2, then the writes: a transaction is prepared. An allowance may be any number.
fn commit_prepared(region: &mut [u8], committer: u64, allowance: u64) -> Result<Verdict, Refusal>
    requires laid { Laid region.old }
    requires fine { Fine (view region.old) }
    requires region_value { is_prepared (view region.old).prepared ≡ true }
    ensures { Replied result region.old region.new (step (commit committer allowance) (view region.old)) }
{
    if committer > Line::COMMITTERS {
        return Err(Refusal::Malformed);
    }
    commit_by(region, committer as u16, allowance)
}

pub fn commit(region: &mut [u8], committer: u64, allowance: u64) -> Result<Verdict, Refusal>
    ensures { Replied result region.old region.new (reply_to (commit committer allowance) region.old) }
{
    if !good::is_good(region) {
        return Err(Refusal::BadRegion);
    }
    if region::mode_number(region) == 0 {
        return Err(Refusal::WrongState);
    }
    commit_prepared(region, committer, allowance)
}
