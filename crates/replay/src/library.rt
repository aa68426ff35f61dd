// The library's calls, as a foreign program makes them, on a region and a record of the right sizes.
use asks::Call;
use lent::{Answer, Edit, Lent, RECORD_SIZE};
use std::alloc::AllocError;

// Makes a call that was asked for. What it returned, and the places of its record, are kept.
pub fn make(lent: &mut Lent, call: &Call, text: &[u8]) -> Result<(), AllocError> {
    if let Call::Put { at, width, number } = call {
        lent::put_number(&mut lent.region, *at, *width, *number);
        return Ok(());
    }
    let mut record = [0; RECORD_SIZE];
    let number = match call {
        Call::Prepare { edits, mode } => prepare(lent, edits, *mode, &mut record)?,
        Call::AddName { from, to } => {
            let name = text.get(*from..*to).unwrap_or(b"");
            dehlbazin::dehlbazin_add_name(&mut lent.region, name, &mut record)
        }
        _ => make_plain(&mut lent.region, call, &mut record),
    };
    lent.answer = Answer::new(number, &record);
    Ok(())
}

// A call that takes numbers alone. The others are made above.
fn make_plain(region: &mut [u8], call: &Call, record: &mut [u8]) -> u32 {
    match call {
        Call::Start { setting } => dehlbazin::dehlbazin_start(region, *setting, record),
        Call::LoadLoose { name, kind, number } => {
            dehlbazin::dehlbazin_load_loose(region, *name, *kind, *number, record)
        }
        Call::LoadPacked { name, kind, number } => {
            dehlbazin::dehlbazin_load_packed(region, *name, *kind, *number, record)
        }
        Call::PlaceLock { kind, number } => {
            dehlbazin::dehlbazin_place_lock(region, *kind, *number, record)
        }
        Call::LiftLock { kind, number } => {
            dehlbazin::dehlbazin_lift_lock(region, *kind, *number, record)
        }
        Call::Commit {
            committer,
            allowance,
        } => dehlbazin::dehlbazin_commit(region, *committer, *allowance, record),
        Call::Rollback => dehlbazin::dehlbazin_rollback(region, record),
        Call::NameBytes { name } => dehlbazin::dehlbazin_name_bytes(region, *name, record),
        Call::ReadName { name } => dehlbazin::dehlbazin_read_name(region, *name, record),
        Call::ReadLine { name, place } => {
            dehlbazin::dehlbazin_read_line(region, *name, *place, record)
        }
        Call::ReadRow { place } => dehlbazin::dehlbazin_read_row(region, *place, record),
        Call::AddName { .. } | Call::Prepare { .. } | Call::Put { .. } => 0,
    }
}

// Prepares a list of these edits, and notes whether a byte of the region changed.
fn prepare(
    lent: &mut Lent,
    edits: &[Edit],
    mode: u64,
    record: &mut [u8],
) -> Result<u32, AllocError> {
    let alloc = *lent.region.allocator();
    let list = lent::list(alloc, edits)?;
    lent.before.clear();
    lent.before.extend_from_slice(&lent.region)?;
    let number = dehlbazin::dehlbazin_prepare(&mut lent.region, &list, mode, record);
    lent.is_changed = lent.before != lent.region;
    Ok(number)
}
