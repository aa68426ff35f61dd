// The names that have a packed value, in byte order: by number, so that no name is copied. Each number is put in its place among those that are sorted,
// which halving finds; names are compared as for 6.
#![tactic(auto)]

ghost use Rattle.std.specs.Prelude.{◌≡◌, true, ◌+◌, ◌≤◌, ◌<◌, length};
ghost use Rattle.region.specs.Region.{view, good, Laid};
ghost use Rattle.model.specs.Store.{count};
ghost use Rattle.model.specs.Texts.{rises};
ghost use Rattle.ordering.specs.Order.{first_at, Places, Opened, Ordered};

use target::NameNumber;

pub mod write;

// Where among the first `held` numbers the name belongs: behind those that it does not stand before.
fn place(region: &[u8], numbers: &[u8], held: usize, name: NameNumber) -> usize
    requires laid { Laid region.now }
    requires held_in_bounds { held ≤ length numbers.now }
    requires numbers_value { rises (first_at (view region.now) held numbers.now) ≡ true }
    ensures { Places (view region.now) numbers.now held name.0 result }
{
    let mut low: usize = 0;
    let mut high = held;
    while low < high {
        let middle = low + (high - low) / 2;
        let other = NameNumber::at(numbers[middle] as usize);
        let first = names::spelling::is_before(
            beneath::bytes_of(region, name),
            beneath::bytes_of(region, other),
        );
        if first {
            high = middle;
        } else {
            low = middle + 1;
        }
    }
    low
}

// The numbers from `at` to `held` move up by one. A loop, since `copy_within` has the archive ask for a function from outside.
fn open(numbers: &mut [u8], at: usize, held: usize)
    requires at_le_held { at ≤ held }
    requires held_in_bounds { held < length numbers.old }
    ensures { Opened numbers.old at held numbers.new }
{
    for i in (at..held).rev() {
        numbers[i + 1] = numbers[i];
    }
}

// With name n too, if it has a packed value: how many there are then.
fn sort_in(region: &[u8], numbers: &mut [u8], held: usize, n: usize) -> usize
    requires region_value { good region.now ≡ true }
    requires n_bound { n < count (view region.now) }
    requires ordered { Ordered (view region.now) (n + 1) numbers.old held }
    ensures { Ordered (view region.now) n numbers.new result }
{
    let name = NameNumber::at(n);
    let Some(_) = region::packed_at(region, name) else {
        return held;
    };
    let at = place(region, numbers, held, name);
    open(numbers, at, held);
    numbers[at] = n as u8;
    held + 1
}

// The numbers of all of them, and how many there are.
pub fn sort(region: &[u8], numbers: &mut [u8]) -> usize
    requires region_value { good region.now ≡ true }
    requires numbers_len { length numbers.old ≡ 256 }
    ensures { Ordered (view region.now) 0 numbers.new result }
{
    let mut held = 0;
    for n in (0..region::count_names(region)).rev() {
        held = sort_in(region, numbers, held, n);
    }
    held
}
