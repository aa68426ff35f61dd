// Foreign locks: other programs hold a name, or the packed table. One call places a lock, one lifts it; what is locked is a value, so
// nothing below the test of a caller's kind and number can cross the two.
#![tactic(auto)]

ghost use Rattle.std.specs.Prelude.{◌≡◌, true};
ghost use Rattle.model.specs.Store.{is_lock};
ghost use Rattle.model.specs.Reply.Call.{place_lock, lift_lock};
ghost use Rattle.model.specs.Load.{lockable, lock_of, set_lock, relocked};
ghost use Rattle.region.specs.Region.{view, Laid, Became};
ghost use Rattle.calls.specs.Call.{reply_to, Replied};
ghost use Rattle.locks.specs.Locks.{is_there};

use answers::Verdict;
use model::{Lock, Lockable, Refusal};

// ---- what is locked

// What a kind and a number stand for, or why for nothing.
fn lockable_of(region: &[u8], kind: u64, number: u64) -> Result<Lockable, Refusal>
    requires { Laid region.now }
    ensures { result ≡ lockable kind number (view region.now) }
{
    match kind {
        Lockable::NAME => {
            let name = region::known(region, number).ok_or(Refusal::NotRegistered(number))?;
            Ok(Lockable::Name(name))
        }
        Lockable::PACKED_TABLE => Ok(Lockable::PackedTable),
        _ => Err(Refusal::Malformed),
    }
}

// ---- its lock

fn lock_of(region: &[u8], what: Lockable) -> Lock
    requires laid { Laid region.now }
    requires region_value { is_there what (view region.now) ≡ true }
    ensures { result ≡ lock_of what (view region.now) }
{
    match what {
        Lockable::Name(name) => region::lock_at(region, name),
        Lockable::PackedTable => region::packed_lock(region),
    }
}

fn set_lock(region: &mut [u8], what: Lockable, lock: Lock)
    requires laid { Laid region.old }
    requires region_value { is_there what (view region.old) ≡ true }
    ensures { Became region.new (set_lock what lock (view region.old)) }
{
    match what {
        Lockable::Name(name) => writers::put_lock_at(region, name, lock),
        Lockable::PackedTable => writers::put_packed_lock(region, lock),
    }
}

// A lock that is what it must be becomes another.
fn relock(
    region: &mut [u8],
    kind: u64,
    number: u64,
    must: Lock,
    becomes: Lock,
) -> Result<Verdict, Refusal>
    requires { Laid region.old }
    ensures { Replied result region.old region.new (relocked must becomes kind number (view region.old)) }
{
    let what = lockable_of(region, kind, number)?;
    if lock_of(region, what) != must {
        return Err(Refusal::WrongLock);
    }
    set_lock(region, what, becomes);
    Ok(Verdict::done(&[]))
}

// ---- the calls

pub fn place_lock(region: &mut [u8], kind: u64, number: u64) -> Result<Verdict, Refusal>
    ensures { Replied result region.old region.new (reply_to (place_lock kind number) region.old) }
{
    if !good::is_good(region) {
        return Err(Refusal::BadRegion);
    }
    relock(region, kind, number, Lock::Free, Lock::Foreign)
}

pub fn lift_lock(region: &mut [u8], kind: u64, number: u64) -> Result<Verdict, Refusal>
    ensures { Replied result region.old region.new (reply_to (lift_lock kind number) region.old) }
{
    if !good::is_good(region) {
        return Err(Refusal::BadRegion);
    }
    relock(region, kind, number, Lock::Foreign, Lock::Free)
}
