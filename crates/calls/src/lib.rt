// The calls that look at no name: start, with a setting or with a settings record, which tests the region's size alone, and rollback.
// What all calls have in common stands in specs and proofs.
#![tactic(auto)]

ghost use Rattle.std.specs.Prelude.{◌≡◌};
ghost use Rattle.model.specs.Reply.Call.{start, rollback};
ghost use Rattle.calls.specs.Call.{reply_to, reply_to_record, Replied};

use answers::{Answer, Verdict};
use model::{Refusal, WriteReflog};
use region::Layout;
use settings::Record;

// ---- start

// An empty store, whatever the region held.
pub fn start_with(region: &mut [u8], setting: u64) -> Result<Verdict, Refusal>
    ensures { Replied result region.old region.new (reply_to (start setting) region.old) }
{
    if region.len() != Layout::SIZE {
        return Err(Refusal::BadRegion);
    }
    let log = WriteReflog::try_from(setting)
        .ok()
        .ok_or(Refusal::Malformed)?;
    writers::make_empty(region, log);
    Ok(Verdict::done(&[]))
}

// The same with the log setting of a settings record.
pub fn start_with_settings(region: &mut [u8], bytes: &[u8]) -> Result<Verdict, Refusal>
    ensures { Replied result region.old region.new (reply_to_record bytes.now region.old) }
{
    if region.len() != Layout::SIZE {
        return Err(Refusal::BadRegion);
    }
    let summary = reader::read(bytes, Record::VERSION_2)?;
    start_with(region, summary.log)
}

// ---- rollback

// The transaction is forgotten, and its locks are free: how many rows it had.
pub fn roll_back(region: &mut [u8]) -> Result<Verdict, Refusal>
    ensures { Replied result region.old region.new (reply_to rollback region.old) }
{
    if !good::is_good(region) {
        return Err(Refusal::BadRegion);
    }
    let rows = region::count_rows(region);
    steps::release(region);
    Ok(Verdict::done(&[rows as u64]))
}
