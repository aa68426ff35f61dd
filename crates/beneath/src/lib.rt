// Names beneath names: whether 25 refuses a row. The region's test, prepare and loads ask the same functions.
#![tactic(auto)]

ghost use Rattle.std.specs.Prelude.{◌≡◌, not, ◌<◌, length};
ghost use Rattle.model.specs.Store.{entry_of, rows_in, is_none};
ghost use Rattle.model.specs.Beneath.{is_loose, lies, loose_above, loose_beneath, would_write, will_write, meets_earlier, conflicts};
ghost use Rattle.region.specs.Region.{view, Laid};
ghost use Rattle.beneath.specs.Facing.{facing, some_facing, nested, meets};

use model::Loose;
use target::{NameNumber, Target};
use transaction::{Edit, PackedRefs};

// ---- two names

// A broken value is a value.
pub fn is_value(v: Loose) -> bool
    ensures { result ≡ not (is_none v) }
{
    v != Loose::None
}

// Whether a name has a loose value; a number that is not registered has none.
pub fn is_loose(region: &[u8], name: NameNumber) -> bool
    requires { Laid region.now }
    ensures { result ≡ is_loose (view region.now) name.0 }
{
    name.place() < region::count_names(region) && is_value(region::loose_at(region, name))
}

// The bytes of a name; a number that is not registered has none.
pub fn bytes_of(region: &[u8], name: NameNumber) -> &[u8]
    requires { Laid region.now }
    ensures { result.now ≡ (entry_of (view region.now) name).name }
{
    if name.place() < region::count_names(region) {
        region::name_at(region, name)
    } else {
        &region[..0]
    }
}

// The first name lies beneath the second.
pub fn lies_beneath(region: &[u8], name: NameNumber, above: NameNumber) -> bool
    requires { Laid region.now }
    ensures { result ≡ lies (view region.now) name.0 above.0 }
{
    names::spelling::is_beneath(bytes_of(region, name), bytes_of(region, above))
}

// ---- loose values above and beneath

// The other name has a loose value and stands above, or beneath.
#[tactic(auto, unfolding(crate::specs::Facing::facing))]
fn is_facing(region: &[u8], up: bool, name: NameNumber, other: NameNumber) -> bool
    requires { Laid region.now }
    ensures { result ≡ facing up (view region.now) name.0 other.0 }
{
    let (lower, upper) = if up { (name, other) } else { (other, name) };
    is_loose(region, other) && lies_beneath(region, lower, upper)
}

fn any_facing(region: &[u8], up: bool, name: NameNumber) -> bool
    requires { Laid region.now }
    ensures { result ≡ some_facing up (view region.now) name.0 }
{
    let count = region::count_names(region);
    for m in 0..count {
        if is_facing(region, up, name, NameNumber::at(m)) {
            return true;
        }
    }
    false
}

#[tactic(auto, unfolding(crate::specs::Facing::some_facing, crate::specs::Facing::facing, model::specs::Beneath::loose_above))]
pub fn loose_above(region: &[u8], name: NameNumber) -> bool
    requires { Laid region.now }
    ensures { result ≡ loose_above (view region.now) name.0 }
{
    any_facing(region, true, name)
}

#[tactic(auto, unfolding(crate::specs::Facing::some_facing, crate::specs::Facing::facing, model::specs::Beneath::loose_beneath))]
pub fn loose_beneath(region: &[u8], name: NameNumber) -> bool
    requires { Laid region.now }
    ensures { result ≡ loose_beneath (view region.now) name.0 }
{
    any_facing(region, false, name)
}

// ---- rows

// The row would write a loose value in W1.
#[tactic(auto, unfolding(model::specs::Beneath::would_write, model::specs::Rows::is_direct))]
pub fn would_write(region: &[u8], mode: PackedRefs, row: Edit, existing: Option<Target>) -> bool
    requires { Laid region.now }
    ensures { result ≡ would_write (view region.now) mode row existing }
{
    let change = row.update.change;
    let new = change.new_value();
    !change.is_delete()
        && !change.is_log_only()
        && !rows::is_direct(region, mode, row)
        && (target::is_symbolic(new) || new != existing)
}

// The same of a row that had its turn.
pub fn will_write(region: &[u8], mode: PackedRefs, row: Edit) -> bool
    requires { Laid region.now }
    ensures { result ≡ will_write (view region.now) mode row }
{
    would_write(region, mode, row, row.update.change.existing())
}

// One of the two names lies beneath the other.
#[tactic(auto, unfolding(crate::specs::Facing::nested))]
fn are_nested(region: &[u8], name: NameNumber, other: NameNumber) -> bool
    requires { Laid region.now }
    ensures { result ≡ nested (view region.now) name.0 other.0 }
{
    lies_beneath(region, name, other) || lies_beneath(region, other, name)
}

// The row at place j would write a loose value, and stands above or beneath the name.
#[tactic(auto, unfolding(crate::specs::Facing::meets))]
fn meets_row(region: &[u8], mode: PackedRefs, name: NameNumber, j: usize) -> bool
    requires laid { Laid region.now }
    requires j_in_bounds { j < length (rows_in (view region.now).prepared) }
    ensures { result ≡ meets (view region.now) mode (rows_in (view region.now).prepared) name.0 j }
{
    are_nested(region, name, region::row_name(region, j))
        && will_write(region, mode, region::row_at(region, j))
}

fn meets_earlier(region: &[u8], mode: PackedRefs, i: usize) -> bool
    requires laid { Laid region.now }
    requires i_in_bounds { i < length (rows_in (view region.now).prepared) }
    ensures { result ≡ meets_earlier (view region.now) mode (rows_in (view region.now).prepared) i }
{
    let name = region::row_name(region, i);
    for j in 0..i {
        if meets_row(region, mode, name, j) {
            return true;
        }
    }
    false
}

// 25, of the row at place i with this existing value.
#[tactic(auto, unfolding(model::specs::Beneath::conflicts))]
pub fn conflicts(region: &[u8], mode: PackedRefs, i: usize, existing: Option<Target>) -> bool
    requires laid { Laid region.now }
    requires i_in_bounds { i < length (rows_in (view region.now).prepared) }
    ensures { result ≡ conflicts (view region.now) mode (rows_in (view region.now).prepared) i existing }
{
    let row = region::row_at(region, i);
    let name = row.update.name;
    loose_above(region, name)
        || would_write(region, mode, row, existing)
            && (loose_beneath(region, name) || meets_earlier(region, mode, i))
}
