// Writes settings records. All is judged before the first byte is written, so that a refusal leaves the buffer as it is.
#![tactic(auto)]

ghost use Rattle.std.specs.Prelude.{◌≡◌, ◌&&◌, ◌+◌, ◌<◌, length, ltb, leb};
ghost use Rattle.word.specs.Be.{be};
ghost use Rattle.settings.specs.Format.{within, entry, listed, form};
ghost use Rattle.settings.specs.Lent.{settings_given, committers_given, write_given};
ghost use Rattle.scribe.specs.Writing.{given_rising, given_writable, content_from, Slot, settings_from, Wrote, numbers_fit, front_bytes, length_for, Ready};

use model::{Refusal, WriteReflog};
use settings::{Heading, Record, Site, Tag};
use transaction::PackedRefs;

// ---- what is given

// A committer's number rises from the last one, and its name has a length that a record can hold.
fn is_heading(number: u64, length: u64, last: u64) -> bool
    ensures { result ≡ (ltb last number && (leb number 65535 && within 1 32 length)) }
{
    number > last && number <= Heading::MOST && length >= 1 && length <= Heading::LONGEST as u64
}

// The committers given are in bounds: as many numbers as lengths, and names of just these lengths.
fn are_committers(numbers: &[u64], lengths: &[u64], names: &[u8], last: u64) -> bool
    ensures { result ≡ given_rising last (committers_given numbers.now lengths.now names.now) }
{
    if numbers.len() == 0 {
        if lengths.len() == 0 {
            return names.len() == 0;
        }
        return false;
    }
    if lengths.len() == 0 {
        return false;
    }
    let number = numbers[0];
    let length = lengths[0];
    if !is_heading(number, length, last) {
        return false;
    }
    let end = length as usize;
    if names.len() < end {
        return false;
    }
    are_committers(&numbers[1..], &lengths[1..], &names[end..], number)
}

// The numbers given are in bounds; version 1 has no place for a site.
#[tactic(auto, unfolding(crate::specs::Writing::numbers_fit))]
fn are_numbers(version: u64, log: u64, mode: u64, site: u64) -> bool
    ensures { result ≡ numbers_fit version log mode site }
{
    let most = if version == Record::VERSION_2 {
        Site::MOST
    } else {
        Site::NONE
    };
    log <= WriteReflog::ALWAYS
        && mode >= PackedRefs::DELETIONS_ONLY
        && mode <= PackedRefs::DELETIONS_AND_NON_SYMBOLIC_UPDATES_REMOVE_LOOSE_SOURCE_REFERENCE
        && site <= most
}

// Whether the settings given can be written.
#[tactic(auto, using(crate::proofs::Given::tests))]
fn is_writable(
    version: u64,
    log: u64,
    mode: u64,
    site: u64,
    numbers: &[u64],
    lengths: &[u64],
    names: &[u8],
) -> bool
    ensures { result ≡ given_writable version (settings_given log mode site (committers_given numbers.now lengths.now names.now)) }
{
    are_numbers(version, log, mode, site)
        && numbers.len() <= Heading::LIMIT
        && are_committers(numbers, lengths, names, 0)
}

// ---- what is written

// An entry whose content is a number of `width` bytes.
fn put_number(slot: &mut [u8], tag: u64, width: usize, number: u64)
    requires { (length slot.old ≡ 3 + width) × (tag < 256) }
    ensures { slot.new ≡ entry tag (be width number) }
{
    word::put_at(slot, 0, 2, 1 + (width as u64));
    word::put_at(slot, Tag::AT, 1, tag);
    word::put_at(slot, Tag::CONTENT, width, number);
}

// All that stands before the committers' content, which has `content` bytes: version, length, log setting, mode, length and tag.
fn put_front(slot: &mut [u8], version: u64, rest: u64, log: u64, mode: u64, content: u64)
    requires { (length slot.old ≡ 14) × (content < 65536) }
    ensures { slot.new ≡ front_bytes version rest log mode content }
{
    word::put_at(slot, Record::VERSION_AT, 1, version);
    word::put_at(slot, Record::LENGTH_AT, 2, rest);
    put_number(&mut slot[Record::ENTRIES..Record::MODE], Tag::LOG, 1, log);
    put_number(
        &mut slot[Record::MODE..Record::COMMITTERS],
        Tag::MODE,
        1,
        mode,
    );
    word::put_at(slot, Record::COMMITTERS, 2, 1 + content);
    word::put_at(slot, Record::COMMITTERS + Tag::AT, 1, Tag::COMMITTERS);
}

// A committer: its number, its name's length, its name.
fn put_committer(slot: &mut [u8], number: u64, name: &[u8])
    requires { length slot.old ≡ 3 + length name.now }
    ensures { slot.new ≡ listed (record { number = number; name = name.now }) }
{
    word::put_at(slot, 0, 2, number);
    word::put_at(slot, Heading::LENGTH_AT, 1, name.len() as u64);
    word::copy(&mut slot[Heading::NAME..], name);
}

// The committers, one after the other.
fn put_committers(slot: &mut [u8], numbers: &[u64], lengths: &[u64], names: &[u8])
    requires { Slot numbers.now lengths.now names.now slot.old }
    ensures { slot.new ≡ content_from numbers.now lengths.now names.now }
{
    if numbers.len() == 0 {
        return;
    }
    let length = lengths[0] as usize;
    let end = Heading::NAME + length;
    put_committer(&mut slot[0..end], numbers[0], &names[0..length]);
    put_committers(
        &mut slot[end..],
        &numbers[1..],
        &lengths[1..],
        &names[length..],
    );
}

// How long the record is whose committers' content has so many bytes.
fn length_of(version: u64, content: usize) -> usize
    requires { content < 65536 }
    ensures { result ≡ length_for version content }
{
    if version == Record::VERSION_2 {
        Record::LIST + content + Tag::CONTENT + Site::WIDTH
    } else {
        Record::LIST + content
    }
}

// The whole record, into a slot that is as long.
fn put_record(
    slot: &mut [u8],
    version: u64,
    log: u64,
    mode: u64,
    site: u64,
    numbers: &[u64],
    lengths: &[u64],
    names: &[u8],
)
    requires { Ready version log mode site numbers.now lengths.now names.now slot.old }
    ensures { slot.new ≡ form version (settings_from log mode site numbers.now lengths.now names.now) }
{
    let content = Heading::NAME * numbers.len() + names.len();
    let behind = Record::LIST + content;
    let rest = slot.len() - Record::ENTRIES;
    put_front(
        &mut slot[0..Record::LIST],
        version,
        rest as u64,
        log,
        mode,
        content as u64,
    );
    put_committers(&mut slot[Record::LIST..behind], numbers, lengths, names);
    if version == Record::VERSION_2 {
        put_number(&mut slot[behind..], Tag::SITE, Site::WIDTH, site);
    }
}

// Writes the settings given as a record of this version at the beginning of the buffer.
pub fn write(
    buffer: &mut [u8],
    version: u64,
    log: u64,
    mode: u64,
    site: u64,
    numbers: &[u64],
    lengths: &[u64],
    names: &[u8],
) -> Result<usize, Refusal>
    ensures { Wrote result buffer.old buffer.new (write_given version (settings_given log mode site (committers_given numbers.now lengths.now names.now))) }
{
    if !settings::is_version(version) {
        return Err(Refusal::UnknownVersion);
    }
    if !is_writable(version, log, mode, site, numbers, lengths, names) {
        return Err(Refusal::MalformedRecord);
    }
    let length = length_of(version, Heading::NAME * numbers.len() + names.len());
    if buffer.len() < length {
        return Err(Refusal::ShortBuffer);
    }
    put_record(
        &mut buffer[0..length],
        version,
        log,
        mode,
        site,
        numbers,
        lengths,
        names,
    );
    Ok(length)
}
