// The test of a region's layout: version, length, counts, and every slot of every table.
#![tactic(auto)]

ghost use Rattle.std.specs.Prelude.{◌≡◌, true, cond, ◌+◌, ◌*◌, ◌≤◌, length, eqb};
ghost use Rattle.word.specs.Codec.{ok_table};
ghost use Rattle.word.specs.Tests.{every};
ghost use Rattle.region.specs.Layout.{region_size};
ghost use Rattle.region.specs.Region.{layout};
ghost use Rattle.layout.specs.Tables.{width_of, limit_of, base_of, test_of, table_test, head_tests, count_tests, table_tests};

use model::{Line, Lock, WriteReflog};
use region::Layout;
use target::NameNumber;
use transaction::{Edit, PackedRefs};

// The tables of a region.
#[derive(Clone, Copy)]
pub enum Table {
    Names,
    Looses,
    Packeds,
    Locks,
    Rows,
    Lines,
}

impl Table {
    // How wide a slot is.
    pub fn width(self) -> usize
        ensures { result ≡ width_of self }
    {
        match self {
            Table::Names => Layout::NAME_WIDTH,
            Table::Looses => Layout::LOOSE_WIDTH,
            Table::Packeds => Layout::PACKED_WIDTH,
            Table::Locks => Layout::LOCK_WIDTH,
            Table::Rows => Layout::ROW_WIDTH,
            Table::Lines => Layout::LINE_WIDTH,
        }
    }

    // How many slots there are.
    pub fn limit(self) -> usize
        ensures { result ≡ limit_of self }
    {
        match self {
            Table::Names => NameNumber::LIMIT,
            Table::Looses => NameNumber::LIMIT,
            Table::Packeds => NameNumber::LIMIT,
            Table::Locks => NameNumber::LIMIT,
            Table::Rows => Edit::LIMIT,
            Table::Lines => Line::LIMIT,
        }
    }

    // Where the first one begins.
    pub fn base(self) -> usize
        ensures { result ≡ base_of self }
    {
        match self {
            Table::Names => Layout::NAMES,
            Table::Looses => Layout::LOOSES,
            Table::Packeds => Layout::PACKEDS,
            Table::Locks => Layout::LOCKS,
            Table::Rows => Layout::ROWS,
            Table::Lines => Layout::LINES,
        }
    }
}

// A name's slot: its length, its bytes, and zeros.
fn text_ok(slot: &[u8]) -> bool
    requires { length slot.now ≡ width_of Table.Names }
    ensures { result ≡ test_of Table.Names slot.now }
{
    let n = slot[0] as usize;
    if n > NameNumber::LONGEST {
        return false;
    }
    let a = n + 1;
    word::all_zero(&slot[a..])
}

// A slot that holds something.
fn held_ok(table: Table, slot: &[u8]) -> bool
    requires { length slot.now ≡ width_of table }
    ensures { result ≡ test_of table slot.now }
{
    match table {
        Table::Names => text_ok(slot),
        Table::Looses => slots::get_loose(slot).is_some(),
        Table::Locks => slots::get_lock(slot).is_some(),
        Table::Rows => slots::get_row(slot).is_some(),
        Table::Packeds | Table::Lines => true,
    }
}

// A table of `count` slots of `width` bytes from `base` on, of which the first n are in use: each of these is tested by itself, and what
// stands behind them is one run of zeros.
pub fn slots_ok(
    region: &[u8],
    table: Table,
    width: usize,
    count: usize,
    n: usize,
    base: usize,
) -> bool
    requires width_value { width ≡ width_of table }
    requires width_in_bounds { base + count * width ≤ length region.now }
    requires region_len { length region.now ≡ region_size }
    requires n_le_count { n ≤ count }
    requires count_bound { count ≤ 1024 }
    ensures { result ≡ ok_table width (test_of table) count n base region.now }
{
    for i in 0..n {
        let a = base + i * width;
        let e = a + width;
        if !held_ok(table, &region[a..e]) {
            return false;
        }
    }
    let free = base + n * width;
    let end = base + count * width;
    word::all_zero(&region[free..end])
}

pub fn table_ok(region: &[u8], table: Table, n: usize) -> bool
    requires region_len { length region.now ≡ region_size }
    requires n_bound { n ≤ limit_of table }
    ensures { result ≡ table_test table n region.now }
{
    slots_ok(region, table, table.width(), table.limit(), n, table.base())
}

// Version, length of the rest, setting and counts; then the other counts.
fn head_ok(region: &[u8]) -> bool
    requires { length region.now ≡ region_size }
    ensures { result ≡ every (head_tests region.now) }
{
    if word::get_at(region, Layout::VERSION_AT, 1) != Layout::VERSION {
        return false;
    }
    if word::get_at(region, Layout::REST_AT, 4) != Layout::REST {
        return false;
    }
    if word::get_at(region, Layout::SETTING_AT, 1) > WriteReflog::ALWAYS {
        return false;
    }
    let names = word::get_at(region, Layout::NAME_COUNT, 2) as usize;
    if names > NameNumber::LIMIT {
        return false;
    }
    let lines = word::get_at(region, Layout::LINE_COUNT, 2) as usize;
    if lines > Line::LIMIT {
        return false;
    }
    counts_ok(region)
}

// Nothing prepared has no rows.
pub fn most_rows(mode: u64) -> usize
    ensures { result ≡ cond (eqb mode 0) 0 160 }
{
    if mode == 0 { 0 } else { Edit::LIMIT }
}

// Mode, count of rows and the packed table's lock.
fn counts_ok(region: &[u8]) -> bool
    requires { length region.now ≡ region_size }
    ensures { result ≡ every (count_tests region.now) }
{
    let mode = word::get_at(region, Layout::MODE_AT, 1);
    if mode > PackedRefs::DELETIONS_AND_NON_SYMBOLIC_UPDATES_REMOVE_LOOSE_SOURCE_REFERENCE {
        return false;
    }
    let rows = word::get_at(region, Layout::ROW_COUNT, 1) as usize;
    if rows > most_rows(mode) {
        return false;
    }
    word::get_at(region, Layout::PACKED_LOCK, 1) <= Lock::OURS
}

// The head is tested already, so no count is past its table's slots.
fn tables_ok(region: &[u8]) -> bool
    requires region_len { length region.now ≡ region_size }
    requires region_value { every (head_tests region.now) ≡ true }
    ensures { result ≡ every (table_tests region.now) }
{
    let names = word::get_at(region, Layout::NAME_COUNT, 2) as usize;
    let lines = word::get_at(region, Layout::LINE_COUNT, 2) as usize;
    let rows = word::get_at(region, Layout::ROW_COUNT, 1) as usize;
    if !table_ok(region, Table::Names, names) {
        return false;
    }
    if !table_ok(region, Table::Looses, names) {
        return false;
    }
    if !table_ok(region, Table::Packeds, names) {
        return false;
    }
    if !table_ok(region, Table::Locks, names) {
        return false;
    }
    if !table_ok(region, Table::Rows, rows) {
        return false;
    }
    table_ok(region, Table::Lines, lines)
}

// Whether a region is laid out so.
pub fn is_laid(region: &[u8]) -> bool
    ensures { result ≡ layout region.now }
{
    if region.len() != Layout::SIZE {
        return false;
    }
    if !head_ok(region) {
        return false;
    }
    tables_ok(region)
}
