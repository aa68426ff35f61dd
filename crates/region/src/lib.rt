// The region: what is read in it, as a store. Every accessor asks for a region that is laid out so (Laid). Crate writers has the
// accessors that write.
#![tactic(auto)]

ghost use Rattle.std.specs.Prelude.{◌≡◌, ◌+◌, ◌*◌, ◌<◌, ◌≤◌, length, get_or};
ghost use Rattle.word.specs.Codec.{slot};
ghost use Rattle.target.specs.Fields.{name_below};
ghost use Rattle.model.specs.Store.{count, entry_of, rows_in, mode_in, no_line, no_row};
ghost use Rattle.model.specs.Rows.{name_in, row_at};
ghost use Rattle.region.specs.Region.{view, mode_byte, Laid};

use model::{Line, Lock, Loose, WriteReflog};
use target::{NameNumber, ObjectNumber, Target};
use transaction::{Change, Edit, LogChange, PackedRefs, PreviousValue, RefEdit};

// Where each part of a store stands, in bytes: the fields of the head, the tables, and how wide their slots are.
#[derive(Clone, Copy)]
pub struct Layout {}

impl Layout {
    pub const SIZE: usize = 49549;

    // What stands behind the length field.
    pub const REST: u64 = 49544;

    pub const VERSION: u64 = 1;

    pub const VERSION_AT: usize = 0;

    pub const REST_AT: usize = 1;

    pub const SETTING_AT: usize = 5;

    pub const NAME_COUNT: usize = 6;

    pub const LINE_COUNT: usize = 8;

    pub const MODE_AT: usize = 10;

    pub const ROW_COUNT: usize = 11;

    pub const PACKED_LOCK: usize = 12;

    pub const NAMES: usize = 13;

    pub const NAME_WIDTH: usize = 65;

    pub const LOOSES: usize = 16653;

    pub const LOOSE_WIDTH: usize = 9;

    pub const PACKEDS: usize = 18957;

    pub const PACKED_WIDTH: usize = 8;

    pub const LOCKS: usize = 21005;

    pub const LOCK_WIDTH: usize = 1;

    pub const ROWS: usize = 21261;

    pub const ROW_WIDTH: usize = 36;

    pub const LINES: usize = 27021;

    pub const LINE_WIDTH: usize = 22;
}

// ---- the head

pub fn count_names(region: &[u8]) -> usize
    requires { Laid region.now }
    ensures { result ≡ count (view region.now) }
{
    word::get_at(region, Layout::NAME_COUNT, 2) as usize
}

pub fn count_lines(region: &[u8]) -> usize
    requires { Laid region.now }
    ensures { result ≡ length (view region.now).lines }
{
    word::get_at(region, Layout::LINE_COUNT, 2) as usize
}

// 0 where nothing is prepared.
pub fn mode_number(region: &[u8]) -> u64
    requires { Laid region.now }
    ensures { result ≡ mode_byte (view region.now).prepared }
{
    word::get_at(region, Layout::MODE_AT, 1)
}

pub fn mode(region: &[u8]) -> PackedRefs
    requires { Laid region.now }
    ensures { result ≡ mode_in (view region.now).prepared }
{
    PackedRefs::try_from(mode_number(region)).unwrap_or(PackedRefs::DeletionsOnly)
}

pub fn count_rows(region: &[u8]) -> usize
    requires { Laid region.now }
    ensures { result ≡ length (rows_in (view region.now).prepared) }
{
    word::get_at(region, Layout::ROW_COUNT, 1) as usize
}

pub fn setting(region: &[u8]) -> WriteReflog
    requires { Laid region.now }
    ensures { result ≡ (view region.now).setting }
{
    let byte = word::get_at(region, Layout::SETTING_AT, 1);
    WriteReflog::try_from(byte).unwrap_or(WriteReflog::Disable)
}

pub fn packed_lock(region: &[u8]) -> Lock
    requires { Laid region.now }
    ensures { result ≡ (view region.now).packed_lock }
{
    let byte = word::get_at(region, Layout::PACKED_LOCK, 1);
    Lock::try_from(byte).unwrap_or(Lock::Free)
}

// ---- names and values

// The name of a number, from all 64 bits that a caller passed, if it is registered.
pub fn known(region: &[u8], number: u64) -> Option<NameNumber>
    requires { Laid region.now }
    ensures { result ≡ name_below (count (view region.now)) number }
{
    NameNumber::new(number, count_names(region))
}

// The bytes of a name, as that stretch of the region.
pub fn name_at(region: &[u8], n: NameNumber) -> &[u8]
    requires laid { Laid region.now }
    requires n_bound { n.0 < count (view region.now) }
    ensures { result.now ≡ (entry_of (view region.now) n).name }
{
    let a = Layout::NAMES + n.place() * Layout::NAME_WIDTH;
    let b = a + 1;
    let e = b + (region[a] as usize);
    &region[b..e]
}

// Slot i of a table whose slots are `width` bytes wide, as that stretch of the region.
fn slot(region: &[u8], base: usize, width: usize, i: usize) -> &[u8]
    requires { base + i * width + width ≤ length region.now }
    ensures { result.now ≡ slot base width i region.now }
{
    let at = base + i * width;
    &region[at..at + width]
}

pub fn loose_at(region: &[u8], n: NameNumber) -> Loose
    requires laid { Laid region.now }
    requires n_bound { n.0 < count (view region.now) }
    ensures { result ≡ (entry_of (view region.now) n).loose }
{
    let slot = slot(region, Layout::LOOSES, Layout::LOOSE_WIDTH, n.place());
    slots::get_loose(slot).unwrap_or(Loose::None)
}

pub fn packed_at(region: &[u8], n: NameNumber) -> Option<ObjectNumber>
    requires laid { Laid region.now }
    requires n_bound { n.0 < count (view region.now) }
    ensures { result ≡ (entry_of (view region.now) n).packed }
{
    let slot = slot(region, Layout::PACKEDS, Layout::PACKED_WIDTH, n.place());
    slots::get_packed(slot)
}

pub fn lock_at(region: &[u8], n: NameNumber) -> Lock
    requires laid { Laid region.now }
    requires n_bound { n.0 < count (view region.now) }
    ensures { result ≡ (entry_of (view region.now) n).lock }
{
    let slot = slot(region, Layout::LOCKS, Layout::LOCK_WIDTH, n.place());
    slots::get_lock(slot).unwrap_or(Lock::Free)
}

// What stands past the rows, where nothing reads.
fn no_row() -> Edit
    ensures { result ≡ no_row }
{
    let change = Change::Update {
        log: LogChange::default(),
        expected: PreviousValue::Any,
        new: Target::Object(ObjectNumber::null()),
    };
    Edit::new(RefEdit::new(change, NameNumber::at(0), false))
}

pub fn row_at(region: &[u8], i: usize) -> Edit
    requires laid { Laid region.now }
    requires i_in_bounds { i < length (rows_in (view region.now).prepared) }
    ensures { result ≡ row_at (rows_in (view region.now).prepared) i }
{
    let slot = slot(region, Layout::ROWS, Layout::ROW_WIDTH, i);
    slots::get_row(slot).unwrap_or(no_row())
}

pub fn row_name(region: &[u8], i: usize) -> NameNumber
    requires laid { Laid region.now }
    requires i_in_bounds { i < length (rows_in (view region.now).prepared) }
    ensures { result ≡ name_in (row_at (rows_in (view region.now).prepared) i) }
{
    row_at(region, i).update.name
}

pub fn line_at(region: &[u8], i: usize) -> Line
    requires laid { Laid region.now }
    requires i_in_bounds { i < length (view region.now).lines }
    ensures { result ≡ get_or (view region.now).lines i no_line }
{
    slots::get_line(slot(region, Layout::LINES, Layout::LINE_WIDTH, i))
}

pub fn line_name(region: &[u8], i: usize) -> NameNumber
    requires laid { Laid region.now }
    requires i_in_bounds { i < length (view region.now).lines }
    ensures { result ≡ (get_or (view region.now).lines i no_line).name }
{
    line_at(region, i).name
}
