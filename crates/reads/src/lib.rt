// Reads: a name's value with the place where it is found, a line of its log, and a row of the prepared transaction with the
// place where its existing value was.
#![tactic(auto)]

ghost use Rattle.model.specs.Reply.Call.{read_name, read_line, read_row};
ghost use Rattle.calls.specs.Call.{reply_to, Replied};

use answers::Verdict;
use model::Refusal;

pub fn read_name(region: &[u8], name: u64) -> Result<Verdict, Refusal>
    ensures { Replied result region.now region.now (reply_to (read_name name) region.now) }
{
    if !good::is_good(region) {
        return Err(Refusal::BadRegion);
    }
    let n = region::known(region, name).ok_or(Refusal::NotRegistered(name))?;
    let found = steps::found_of(region, true, n);
    let value = found.value();
    Ok(Verdict::done(&[
        target::target_byte(value),
        target::target_number(value),
        found.place(),
    ]))
}

pub fn read_line(region: &[u8], name: u64, place: u64) -> Result<Verdict, Refusal>
    ensures { Replied result region.now region.now (reply_to (read_line name place) region.now) }
{
    if !good::is_good(region) {
        return Err(Refusal::BadRegion);
    }
    let n = region::known(region, name).ok_or(Refusal::NotRegistered(name))?;
    let line = steps::find_line(region, n, place).ok_or(Refusal::NothingThere)?;
    Ok(Verdict::done(&[
        line.previous.0,
        line.new.0,
        u64::from(line.committer),
        u64::from(line.message),
    ]))
}

pub fn read_row(region: &[u8], place: u64) -> Result<Verdict, Refusal>
    ensures { Replied result region.now region.now (reply_to (read_row place) region.now) }
{
    if !good::is_good(region) {
        return Err(Refusal::BadRegion);
    }
    if place >= (region::count_rows(region) as u64) {
        return Err(Refusal::NothingThere);
    }
    let row = region::row_at(region, place as usize);
    // R3 saw the packed table where R2 opened it.
    let opened = kept::opens_table(region);
    Ok(Verdict::row(row, steps::found_of(region, opened, row.update.name)))
}
