// The region written: every accessor asks for a region that is laid out so (Laid), and leaves one (Became), in which the changed
// store is seen.
#![tactic(auto)]

ghost use Rattle.std.specs.Prelude.{◌≡◌, true, not, [], ◌∷◌, ◌++◌, ◌≤◌, ◌<◌, length, take, set};
ghost use Rattle.std.specs.Prelude.{None, Some};
ghost use Rattle.model.specs.Basic.{select};
ghost use Rattle.model.specs.Store.{count, rows_in, is_prepared, is_of, empty, put_loose, put_packed, put_lock, change_entry, with_entries};
ghost use Rattle.model.specs.Store.{with_lines, with_packed_lock, with_prepared, with_rows};
ghost use Rattle.model.specs.Load.{new_entry};
ghost use Rattle.model.specs.PackedText.{unpacked};
ghost use Rattle.slots.specs.Values.{FitsLoose, FitsPacked, FitsLine};
ghost use Rattle.slots.specs.Row.{FitsRow};
ghost use Rattle.region.specs.Layout.{region_size};
ghost use Rattle.region.specs.Region.{image, view, Laid, Became};
ghost use Rattle.writers.specs.Moved.{moved, placed};

use model::{Line, Lock, Loose, WriteReflog};
use region::Layout;
use target::{NameNumber, ObjectNumber};
use transaction::{Edit, PackedRefs};

// ---- values of a name

pub fn put_loose_at(region: &mut [u8], n: NameNumber, v: Loose)
    requires laid { Laid region.old }
    requires n_bound { n.0 < count (view region.old) }
    requires fits_loose { FitsLoose v }
    ensures { Became region.new (change_entry (put_loose v) n.0 (view region.old)) }
{
    let a = Layout::LOOSES + (n.0 as usize) * Layout::LOOSE_WIDTH;
    let e = a + Layout::LOOSE_WIDTH;
    slots::put_loose(&mut region[a..e], v);
}

pub fn put_packed_at(region: &mut [u8], n: NameNumber, v: Option<ObjectNumber>)
    requires laid { Laid region.old }
    requires n_bound { n.0 < count (view region.old) }
    requires fits_packed { FitsPacked v }
    ensures { Became region.new (change_entry (put_packed v) n.0 (view region.old)) }
{
    let a = Layout::PACKEDS + (n.0 as usize) * Layout::PACKED_WIDTH;
    let e = a + Layout::PACKED_WIDTH;
    slots::put_packed(&mut region[a..e], v);
}

pub fn put_lock_at(region: &mut [u8], n: NameNumber, v: Lock)
    requires laid { Laid region.old }
    requires n_bound { n.0 < count (view region.old) }
    ensures { Became region.new (change_entry (put_lock v) n.0 (view region.old)) }
{
    let a = Layout::LOCKS + (n.0 as usize) * Layout::LOCK_WIDTH;
    let e = a + Layout::LOCK_WIDTH;
    slots::put_lock(&mut region[a..e], v);
}

pub fn put_packed_lock(region: &mut [u8], v: Lock)
    requires { Laid region.old }
    ensures { Became region.new (with_packed_lock (view region.old) v) }
{
    word::put_at(region, Layout::PACKED_LOCK, 1, u64::from(v));
}

// No name has a packed value any more.
pub fn forget_packed(region: &mut [u8])
    requires { Laid region.old }
    ensures { Became region.new (unpacked (view region.old)) }
{
    region[Layout::PACKEDS..Layout::LOCKS].fill(0);
}

// A name more, with no value and a free lock.
pub fn add_name(region: &mut [u8], name: &[u8])
    requires laid { Laid region.old }
    requires region_bound { count (view region.old) < 256 }
    requires name_len_bound { length name.now ≤ 64 }
    ensures { Became region.new (with_entries (view region.old) ((view region.old).entries ++ (new_entry name.now ∷ []))) }
{
    let n = region::count_names(region);
    let a = Layout::NAMES + n * Layout::NAME_WIDTH;
    let b = a + 1;
    let e = b + name.len();
    region[a] = name.len() as u8;
    word::copy(&mut region[b..e], name);
    word::put_at(region, Layout::NAME_COUNT, 2, (n + 1) as u64);
}

// ---- rows

// Rows under a mode, none so far.
pub fn begin_rows(region: &mut [u8], mode: PackedRefs)
    requires laid { Laid region.old }
    requires region_value { (view region.old).prepared ≡ None }
    ensures { Became region.new (with_prepared (view region.old) (Some (record { mode = mode; rows = [] }))) }
{
    word::put_at(region, Layout::MODE_AT, 1, u64::from(mode));
}

pub fn put_row_at(region: &mut [u8], i: usize, row: Edit)
    requires laid { Laid region.old }
    requires i_in_bounds { i < length (rows_in (view region.old).prepared) }
    requires fits_row { FitsRow row }
    ensures { Became region.new (with_rows (view region.old) (set (rows_in (view region.old).prepared) i row)) }
{
    let a = Layout::ROWS + i * Layout::ROW_WIDTH;
    let e = a + Layout::ROW_WIDTH;
    slots::put_row(&mut region[a..e], row);
}

// A row more.
pub fn add_row(region: &mut [u8], row: Edit)
    requires laid { Laid region.old }
    requires region_value { is_prepared (view region.old).prepared ≡ true }
    requires region_len_bound { length (rows_in (view region.old).prepared) < 160 }
    requires fits_row { FitsRow row }
    ensures { Became region.new (with_rows (view region.old) (rows_in (view region.old).prepared ++ (row ∷ []))) }
{
    let n = region::count_rows(region);
    let a = Layout::ROWS + n * Layout::ROW_WIDTH;
    let e = a + Layout::ROW_WIDTH;
    slots::put_row(&mut region[a..e], row);
    word::put_at(region, Layout::ROW_COUNT, 1, (n + 1) as u64);
}

// The rows are forgotten, and nothing is prepared any more.
pub fn forget_rows(region: &mut [u8])
    requires { Laid region.old }
    ensures { Became region.new (with_prepared (view region.old) None) }
{
    word::put_at(region, Layout::MODE_AT, 1, 0);
    word::put_at(region, Layout::ROW_COUNT, 1, 0);
    region[Layout::ROWS..Layout::LINES].fill(0);
}

// ---- log lines

pub fn put_line_at(region: &mut [u8], i: usize, line: Line)
    requires laid { Laid region.old }
    requires i_in_bounds { i < length (view region.old).lines }
    requires fits_line { FitsLine line }
    ensures { Became region.new (with_lines (view region.old) (set (view region.old).lines i line)) }
{
    let a = Layout::LINES + i * Layout::LINE_WIDTH;
    let e = a + Layout::LINE_WIDTH;
    slots::put_line(&mut region[a..e], line);
}

// A line more.
pub fn add_line(region: &mut [u8], line: Line)
    requires laid { Laid region.old }
    requires region_len_bound { length (view region.old).lines < 1024 }
    requires fits_line { FitsLine line }
    ensures { Became region.new (with_lines (view region.old) ((view region.old).lines ++ (line ∷ []))) }
{
    let n = region::count_lines(region);
    let a = Layout::LINES + n * Layout::LINE_WIDTH;
    let e = a + Layout::LINE_WIDTH;
    slots::put_line(&mut region[a..e], line);
    word::put_at(region, Layout::LINE_COUNT, 2, (n + 1) as u64);
}

// The first j lines stay. The bytes of the others become zeros, as those behind the last line are already.
pub fn keep_lines(region: &mut [u8], j: usize)
    requires laid { Laid region.old }
    requires j_in_bounds { j ≤ length (view region.old).lines }
    ensures { Became region.new (with_lines (view region.old) (take j (view region.old).lines)) }
{
    let count = region::count_lines(region);
    let a = Layout::LINES + j * Layout::LINE_WIDTH;
    let e = Layout::LINES + count * Layout::LINE_WIDTH;
    region[a..e].fill(0);
    word::put_at(region, Layout::LINE_COUNT, 2, j as u64);
}

// The line at place i: kept at place j, unless it is the name's. The next place for a line that is kept.
fn move_line(region: &mut [u8], name: NameNumber, i: usize, j: usize) -> usize
    requires laid { Laid region.old }
    requires i_in_bounds { (i < length (view region.old).lines) × (j ≤ i) }
    ensures { (result ≡ placed name i j (view region.old).lines) × Became region.new (with_lines (view region.old) (moved name i j (view region.old).lines)) }
{
    let line = region::line_at(region, i);
    if line.name == name {
        return j;
    }
    put_line_at(region, j, line);
    j + 1
}

// W2: the lines of a name are removed. Lines that are kept close the gap, and the tail is cut off.
pub fn remove_lines(region: &mut [u8], name: NameNumber)
    requires { Laid region.old }
    ensures { Became region.new (with_lines (view region.old) (select (λ l. not (is_of name l)) (view region.old).lines)) }
{
    let count = region::count_lines(region);
    let mut j: usize = 0;
    for i in 0..count {
        j = move_line(region, name, i, j);
    }
    keep_lines(region, j);
}

// ---- a new region

// The image of an empty store.
pub fn make_empty(region: &mut [u8], setting: WriteReflog)
    requires { length region.old ≡ region_size }
    ensures { region.new ≡ image (empty setting) }
{
    region.fill(0);
    word::put_at(region, Layout::VERSION_AT, 1, Layout::VERSION);
    word::put_at(region, Layout::REST_AT, 4, Layout::REST);
    word::put_at(region, Layout::SETTING_AT, 1, u64::from(setting));
}
