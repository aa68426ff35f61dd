// The lines of names in an order that is given by number.
ghost use Rattle.std.specs.Prelude.{◌≡◌, ◌++◌, ◌≤◌, length, drop};
ghost use Rattle.model.specs.Basic.{collect};
ghost use Rattle.model.specs.Store.{entry_of};
ghost use Rattle.model.specs.PackedText.{ref_line};
ghost use Rattle.model.specs.Texts.{lengths};
ghost use Rattle.region.specs.Region.{view, Laid};
ghost use Rattle.ordering.specs.Order.{object_in, first_at};

use target::NameNumber;
use texts::RefLine;

// The object that a name has packed; 0 where it has none.
fn object_of(region: &[u8], name: NameNumber) -> u64
    requires { Laid region.now }
    ensures { result ≡ object_in (entry_of (view region.now) name).packed }
{
    if name.place() >= region::count_names(region) {
        return 0;
    }
    region::packed_at(region, name).map_or(0, |oid| oid.0)
}

// How long the lines of the first `held` are.
pub fn text_length(region: &[u8], numbers: &[u8], held: usize) -> usize
    requires laid { Laid region.now }
    requires held_in_bounds { held ≤ length numbers.now }
    requires held_bound { held ≤ 256 }
    ensures { result ≡ lengths (first_at (view region.now) held numbers.now) }
{
    let mut total = 0;
    for i in 0..held {
        let name = NameNumber::at(numbers[i] as usize);
        let bytes = beneath::bytes_of(region, name);
        total += RefLine::FRAME + bytes.len();
    }
    total
}

// Those lines, one after the other, at the beginning of the buffer.
pub fn write_lines(region: &[u8], numbers: &[u8], held: usize, buffer: &mut [u8])
    requires laid { Laid region.now }
    requires held_in_bounds { held ≤ length numbers.now }
    requires numbers_in_bounds { lengths (first_at (view region.now) held numbers.now) ≤ length buffer.old }
    ensures { buffer.new ≡ collect ref_line (first_at (view region.now) held numbers.now) ++ drop (lengths (first_at (view region.now) held numbers.now)) buffer.old }
{
    let mut at = 0;
    for i in 0..held {
        let name = NameNumber::at(numbers[i] as usize);
        let bytes = beneath::bytes_of(region, name);
        let object = object_of(region, name);
        let end = at + (RefLine::FRAME + bytes.len());
        texts::write_packed_ref(&mut buffer[at..end], bytes, object);
        at = end;
    }
}
