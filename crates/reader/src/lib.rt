// Reads settings records. Each part of the code is handed a part of the record, and answers what the format's definition reads there.
#![tactic(auto)]

ghost use Rattle.std.specs.Prelude.{◌≡◌, ◌<◌, ◌≤◌, length, drop};
ghost use Rattle.settings.specs.Format.{has_site, entry_in, number_in, committer_in, committers_in, site_in, entries_in, settings_in, read};
ghost use Rattle.reader.specs.Reading.{size_in, value_in, heading_in, count_in, tail_in};
ghost use Rattle.reader.specs.Reading.{summary_in, told, committers_of, placed};
ghost use Rattle.reader.specs.Reading.{committer_found, stretch_in, Lists, content_at, from_first};

use model::{Refusal, WriteReflog};
use settings::{Heading, Record, Site, Tag};
use transaction::PackedRefs;

// What stands behind the settings of one byte: how many committers, and the site.
#[derive(Clone, Copy)]
pub struct Tail {
    pub committers: u64,
    pub site: u64,
}

// What reading a record tells.
#[derive(Clone, Copy)]
pub struct Summary {
    pub log: u64,
    pub mode: u64,
    pub site: u64,
    pub committers: u64,
}

// A committer's number, and where its name stands.
#[derive(Clone, Copy)]
pub struct Stretch {
    pub number: u64,
    pub at: usize,
    pub length: usize,
}

// ---- entries

// How long the content is of the entry that a part begins with, if it has this tag and stands in the part whole.
fn content_of(part: &[u8], tag: u64) -> Option<usize>
    ensures { result ≡ size_in (entry_in tag part.now) }
{
    if part.len() < Tag::CONTENT {
        return None;
    }
    let rest = word::get_at(part, 0, 2) as usize;
    if rest == 0 {
        return None;
    }
    if part.len() - Tag::AT < rest {
        return None;
    }
    if word::get_at(part, Tag::AT, 1) != tag {
        return None;
    }
    Some(rest - 1)
}

// The number that is the content of such an entry, if it is as wide and within bounds.
fn number_in(part: &[u8], tag: u64, width: usize, least: u64, most: u64) -> Option<u64>
    requires { width ≤ 8 }
    ensures { result ≡ value_in (number_in tag width least most part.now) }
{
    let length = content_of(part, tag)?;
    if length != width {
        return None;
    }
    let value = word::get_at(part, Tag::CONTENT, width);
    if value < least {
        return None;
    }
    if value > most {
        return None;
    }
    Some(value)
}

// ---- committers

// The committer that a list begins with, behind one with the number `last`.
fn heading_in(list: &[u8], last: u64) -> Option<Heading>
    ensures { result ≡ heading_in (committer_in last list.now) }
{
    if list.len() < Heading::NAME {
        return None;
    }
    let number = word::get_at(list, 0, 2);
    if number <= last {
        return None;
    }
    let length = word::get_at(list, Heading::LENGTH_AT, 1) as usize;
    if length == 0 {
        return None;
    }
    if length > Heading::LONGEST {
        return None;
    }
    if list.len() - Heading::NAME < length {
        return None;
    }
    Some(Heading { number, length })
}

// How many committers a list has, if it is well formed and has room for them.
fn count_committers(list: &[u8], room: usize, last: u64) -> Option<usize>
    ensures { result ≡ count_in (committers_in room last list.now) }
{
    if list.len() == 0 {
        return Some(0);
    }
    if room == 0 {
        return None;
    }
    let first = heading_in(list, last)?;
    let behind = Heading::NAME + first.length;
    let others = count_committers(&list[behind..], room - 1, first.number)?;
    Some(others + 1)
}

// ---- the record

// The site, which is the last entry of version 2, and 0 in version 1. Nothing stands behind it.
fn site_in(part: &[u8], version: u64) -> Option<u64>
    ensures { result ≡ site_in (has_site version) part.now }
{
    if version != Record::VERSION_2 {
        if part.len() == 0 {
            return Some(Site::NONE);
        }
        return None;
    }
    if part.len() != Tag::CONTENT + Site::WIDTH {
        return None;
    }
    number_in(part, Tag::SITE, Site::WIDTH, 0, Site::MOST)
}

// The committers' entry, and what stands behind it.
fn tail_in(part: &[u8], version: u64) -> Option<Tail>
    ensures { result ≡ tail_in version part.now }
{
    let length = content_of(part, Tag::COMMITTERS)?;
    let behind = Tag::CONTENT + length;
    let count = count_committers(&part[Tag::CONTENT..behind], Heading::LIMIT, 0)?;
    let site = site_in(&part[behind..], version)?;
    Some(Tail {
        committers: count as u64,
        site,
    })
}

// All entries, by rising tag.
fn entries_in(part: &[u8], version: u64) -> Option<Summary>
    ensures { result ≡ summary_in (entries_in version part.now) }
{
    let log = number_in(part, Tag::LOG, 1, WriteReflog::DISABLE, WriteReflog::ALWAYS)?;
    let behind = &part[Tag::OF_BYTE..];
    let mode = number_in(
        behind,
        Tag::MODE,
        1,
        PackedRefs::DELETIONS_ONLY,
        PackedRefs::DELETIONS_AND_NON_SYMBOLIC_UPDATES_REMOVE_LOOSE_SOURCE_REFERENCE,
    )?;
    let tail = tail_in(&behind[Tag::OF_BYTE..], version)?;
    Some(Summary {
        log,
        mode,
        site: tail.site,
        committers: tail.committers,
    })
}

// What stands behind the version: the length of the rest, which is exact, and the entries.
fn settings_in(bytes: &[u8], version: u64) -> Option<Summary>
    ensures { result ≡ summary_in (settings_in version (drop 1 bytes.now)) }
{
    if bytes.len() < Record::ENTRIES {
        return None;
    }
    let rest = word::get_at(bytes, Record::LENGTH_AT, 2) as usize;
    if Record::ENTRIES + rest != bytes.len() {
        return None;
    }
    entries_in(&bytes[Record::ENTRIES..], version)
}

// Reads a record, as a reader that knows versions up to the one given: 1 or 2.
pub fn read(bytes: &[u8], known: u64) -> Result<Summary, Refusal>
    ensures { result ≡ told (read known bytes.now) }
{
    if !settings::is_version(known) {
        return Err(Refusal::UnknownVersion);
    }
    if bytes.len() == 0 {
        return Err(Refusal::MalformedRecord);
    }
    let version = word::get_at(bytes, Record::VERSION_AT, 1);
    if !settings::is_version(version) {
        return Err(Refusal::UnknownVersion);
    }
    if version > known {
        return Err(Refusal::UnknownVersion);
    }
    settings_in(bytes, version).ok_or(Refusal::MalformedRecord)
}

// ---- a committer by place

// The committer at a place of a well formed list, and where its name stands there.
fn committer_from(list: &[u8], place: usize, room: usize, last: u64) -> Stretch
    requires { place < length (committers_of room last list.now) }
    ensures { result ≡ placed place (committers_of room last list.now) }
{
    let number = word::get_at(list, 0, 2);
    let length = word::get_at(list, Heading::LENGTH_AT, 1) as usize;
    if place == 0 {
        return Stretch {
            number,
            at: Heading::NAME,
            length,
        };
    }
    let behind = Heading::NAME + length;
    let found = committer_from(&list[behind..], place - 1, room - 1, number);
    Stretch {
        number: found.number,
        at: behind + found.at,
        length: found.length,
    }
}

// The same of a record that was read and has the place.
fn committer_at(bytes: &[u8], place: usize) -> Stretch
    requires { Lists place bytes.now }
    ensures { result ≡ from_first (placed place (committers_of 16 0 (content_at bytes.now))) }
{
    let rest = word::get_at(bytes, Record::COMMITTERS, 2) as usize;
    let behind = Record::LIST - 1 + rest;
    let found = committer_from(&bytes[Record::LIST..behind], place, Heading::LIMIT, 0);
    Stretch {
        number: found.number,
        at: Record::LIST + found.at,
        length: found.length,
    }
}

// The committer at a place of any record: its number, and the stretch of the record that its name is.
pub fn read_committer(bytes: &[u8], known: u64, place: u64) -> Result<Stretch, Refusal>
    ensures { result ≡ committer_found place (read known bytes.now) }
{
    let summary = read(bytes, known)?;
    if place >= summary.committers {
        return Err(Refusal::NothingThere);
    }
    Ok(committer_at(bytes, place as usize))
}

// The bytes of its name as that stretch of the record, not a copy; empty on a refusal.
pub fn committer_name(bytes: &[u8], known: u64, place: u64) -> &[u8]
    ensures { result.now ≡ stretch_in (committer_found place (read known bytes.now)) bytes.now }
{
    match read_committer(bytes, known, place) {
        Ok(found) => &bytes[found.at..found.at + found.length],
        Err(_) => &bytes[..0],
    }
}
