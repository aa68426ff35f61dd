// The packed table as text, on plain values: written into a buffer, and read in the place of the whole table.
#![tactic(auto)]

ghost use Rattle.model.specs.Reply.Call.{read_packed};
ghost use Rattle.calls.specs.Call.{reply_to, Replied, Wrote};

use answers::Verdict;
use model::Refusal;
use target::NameNumber;
use texts::walk::Ending;

pub mod load;

// A line for each name that has a packed value, in byte order: how long they are.
pub fn write_packed(region: &[u8], buffer: &mut [u8]) -> Result<Verdict, Refusal>
    ensures { Wrote result region.now buffer.old buffer.new }
{
    if !good::is_good(region) {
        return Err(Refusal::BadRegion);
    }
    let mut numbers = [0u8; NameNumber::LIMIT];
    let count = ordering::sort(region, &mut numbers);
    let length = ordering::write::text_length(region, &numbers, count);
    if buffer.len() < length {
        return Err(Refusal::TextTooLong);
    }
    ordering::write::write_lines(region, &numbers, count, buffer);
    Ok(Verdict::done(&[length as u64]))
}

// What the text says, in the place of all packed values: how many refs it has. All is judged before anything changes.
pub fn read_packed(region: &mut [u8], text: &[u8]) -> Result<Verdict, Refusal>
    ensures { Replied result region.old region.new (reply_to (read_packed text.now) region.old) }
{
    if !good::is_good(region) {
        return Err(Refusal::BadRegion);
    }
    if region::mode_number(region) != 0 {
        return Err(Refusal::WrongState);
    }
    let checked = texts::walk::check(text);
    if !load::has_room(region, text, checked.lines) {
        return Err(Refusal::NamesFull);
    }
    match checked.ending {
        Ending::Malformed => Err(Refusal::MalformedLine(checked.lines + 1)),
        Ending::Unpackable => Err(Refusal::BadLoad),
        Ending::Whole => {
            writers::forget_packed(region);
            load::load_lines(region, text, checked.lines);
            Ok(Verdict::done(&[checked.refs]))
        }
    }
}
