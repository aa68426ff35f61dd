// Names: adding one, and its bytes as a stretch of the region.
#![tactic(auto)]

ghost use Rattle.std.specs.Prelude.{◌≡◌, true};
ghost use Rattle.model.specs.Reply.Call.{add_name, name_bytes};
ghost use Rattle.region.specs.Region.{good};
ghost use Rattle.calls.specs.Call.{reply_to, Replied, name_part};

use answers::Verdict;
use model::Refusal;
use region::Layout;
use target::NameNumber;

pub fn add_name(region: &mut [u8], name: &[u8]) -> Result<Verdict, Refusal>
    ensures { Replied result region.old region.new (reply_to (add_name name.now) region.old) }
{
    if !good::is_good(region) {
        return Err(Refusal::BadRegion);
    }
    if !names::is_name(name) {
        return Err(Refusal::BadName);
    }
    if let Some(known) = steps::find_name(region, name) {
        return Ok(Verdict::done(&[known.0 as u64]));
    }
    let n = region::count_names(region);
    if n >= NameNumber::LIMIT {
        return Err(Refusal::NamesFull);
    }
    writers::add_name(region, name);
    Ok(Verdict::done(&[n as u64]))
}

// The bytes of a registered name as that stretch of a good region, not a copy; empty where the number is not registered.
fn part_of(region: &[u8], name: u64) -> &[u8]
    requires { good region.now ≡ true }
    ensures { result.now ≡ name_part name region.now }
{
    let Some(n) = region::known(region, name) else {
        return &region[0..0];
    };
    region::name_at(region, n)
}

// The same of any region; empty on refusal.
pub fn name_part(region: &[u8], name: u64) -> &[u8]
    ensures { result.now ≡ name_part name region.now }
{
    if !good::is_good(region) {
        return &region[0..0];
    }
    part_of(region, name)
}

// Where the part stands. No name is empty, so an empty part is that of a number that is not registered.
pub fn name_bytes(region: &[u8], name: u64) -> Result<Verdict, Refusal>
    ensures { Replied result region.now region.now (reply_to (name_bytes name) region.now) }
{
    if !good::is_good(region) {
        return Err(Refusal::BadRegion);
    }
    let length = part_of(region, name).len() as u64;
    if length == 0 {
        return Err(Refusal::NotRegistered(name));
    }
    let width = Layout::NAME_WIDTH as u64;
    let at = (Layout::NAMES as u64) + name * width + 1;
    Ok(Verdict::done(&[at, length]))
}
