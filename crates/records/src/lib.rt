// The calls on a settings record, on plain values: each judges a record or a buffer and gives a verdict.
#![tactic(auto)]

ghost use Rattle.std.specs.Prelude.{◌≡◌};
ghost use Rattle.settings.specs.Lent.{settings_given, committers_given};
ghost use Rattle.calls.specs.Call.{Keeps};
ghost use Rattle.records.specs.Record.{kept, committer_part};
ghost use Rattle.records.specs.Record.RecordCall.{read_settings, read_committer, write_settings};

use answers::Verdict;
use model::Refusal;

// The settings of a record, as a reader that knows versions up to the one given.
pub fn read_settings(bytes: &[u8], known: u64) -> Result<Verdict, Refusal>
    ensures { Keeps result bytes.now (kept (read_settings known) bytes.now) }
{
    let s = reader::read(bytes, known)?;
    Ok(Verdict::done(&[s.log, s.mode, s.site, s.committers]))
}

// A committer of it by place.
pub fn read_committer(bytes: &[u8], known: u64, place: u64) -> Result<Verdict, Refusal>
    ensures { Keeps result bytes.now (kept (read_committer known place) bytes.now) }
{
    let s = reader::read_committer(bytes, known, place)?;
    Ok(Verdict::done(&[s.number, s.at as u64, s.length as u64, 0]))
}

// Its name as that stretch of the record, not a copy; empty on a refusal.
pub fn committer_part(bytes: &[u8], known: u64, place: u64) -> &[u8]
    ensures { result.now ≡ committer_part known place bytes.now }
{
    reader::committer_name(bytes, known, place)
}

// Writes the settings given at the beginning of a buffer.
pub fn write_settings(
    buffer: &mut [u8],
    version: u64,
    log: u64,
    mode: u64,
    site: u64,
    numbers: &[u64],
    lengths: &[u64],
    names: &[u8],
) -> Result<Verdict, Refusal>
    ensures { Keeps result buffer.new (kept (write_settings version (settings_given log mode site (committers_given numbers.now lengths.now names.now))) buffer.old) }
{
    let length = scribe::write(buffer, version, log, mode, site, numbers, lengths, names)?;
    Ok(Verdict::done(&[length as u64]))
}
