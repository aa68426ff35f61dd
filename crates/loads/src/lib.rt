// Loads: a loose or a packed value set while nothing is prepared.
#![tactic(auto)]

ghost use Rattle.std.specs.Prelude.{◌≡◌, ◌&&◌, not, eqb, ltb};
ghost use Rattle.model.specs.Store.{count};
ghost use Rattle.model.specs.Load.{nests};
ghost use Rattle.model.specs.Reply.Call.{load_loose, load_packed};
ghost use Rattle.region.specs.Region.{view, Laid};
ghost use Rattle.calls.specs.Call.{reply_to, Replied};

use answers::Verdict;
use model::{Loose, Refusal};
use target::NameNumber;

// A link to a number that is not registered.
fn is_stray_link(region: &[u8], kind: u64, number: u64) -> bool
    requires { Laid region.now }
    ensures { result ≡ (eqb kind 2 && not (ltb number (count (view region.now)))) }
{
    kind == Loose::LINK && region::known(region, number).is_none()
}

// A loose value, broken too, that would stand beneath another, or above one.
fn is_nested(region: &[u8], name: NameNumber, value: Loose) -> bool
    requires { Laid region.now }
    ensures { result ≡ nests (view region.now) name.0 value }
{
    beneath::is_value(value)
        && (beneath::loose_above(region, name) || beneath::loose_beneath(region, name))
}

pub fn load_loose(region: &mut [u8], name: u64, kind: u64, number: u64) -> Result<Verdict, Refusal>
    ensures { Replied result region.old region.new (reply_to (load_loose name kind number) region.old) }
{
    if !good::is_good(region) {
        return Err(Refusal::BadRegion);
    }
    if region::mode_number(region) != 0 {
        return Err(Refusal::WrongState);
    }
    let n = region::known(region, name).ok_or(Refusal::NotRegistered(name))?;
    if is_stray_link(region, kind, number) {
        return Err(Refusal::NotRegistered(number));
    }
    let value = slots::loose_from(kind, number).ok_or(Refusal::BadLoad)?;
    if is_nested(region, n, value) {
        return Err(Refusal::BadLoad);
    }
    writers::put_loose_at(region, n, value);
    Ok(Verdict::done(&[]))
}

pub fn load_packed(region: &mut [u8], name: u64, kind: u64, number: u64) -> Result<Verdict, Refusal>
    ensures { Replied result region.old region.new (reply_to (load_packed name kind number) region.old) }
{
    if !good::is_good(region) {
        return Err(Refusal::BadRegion);
    }
    if region::mode_number(region) != 0 {
        return Err(Refusal::WrongState);
    }
    let n = region::known(region, name).ok_or(Refusal::NotRegistered(name))?;
    let packable = names::is_packable(region::name_at(region, n));
    let value = steps::packed_of(packable, kind, number).ok_or(Refusal::BadLoad)?;
    writers::put_packed_at(region, n, value);
    Ok(Verdict::done(&[]))
}
