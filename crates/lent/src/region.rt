// Numbers in the region.
ghost use Rattle.std.specs.Prelude.{◌≡◌, ◌<◌, ◌↔◌, length, IsSome};

// Where docs/LAYOUT.md has what no call tells, or none that changes nothing.
#[derive(Clone, Copy, Debug)]
pub struct At {}

impl At {
    pub const LINE_COUNT: usize = 8;

    pub const PACKED_LOCK: usize = 12;

    pub const NAMES: u64 = 14;

    pub const NAME_WIDTH: u64 = 65;

    pub const LOOSES: usize = 16653;

    pub const LOOSE_WIDTH: usize = 9;

    pub const PACKEDS: usize = 18957;

    pub const PACKED_WIDTH: usize = 8;

    pub const LINES: usize = 27021;

    pub const LINE_WIDTH: usize = 22;
}

// The number that some bytes make, the highest first.
pub(crate) fn number(bytes: &[u8]) -> u64 {
    bytes
        .iter()
        .fold(0, |number, byte| (number << 8) | u64::from(*byte))
}

// The number in some bytes of the region, where they lie in it; else 0.
pub fn number_at(region: &[u8], at: usize, width: usize) -> u64 {
    let rest = region.get(at..).unwrap_or(b"");
    number(rest.get(..width).unwrap_or(b""))
}

// Puts a number into bytes of the region, where they lie in it.
pub fn put_number(region: &mut [u8], at: usize, width: usize, x: u64)
    ensures { length region.new ≡ length region.old }
{
    if let Some(bytes) = region.get_mut(at..at.saturating_add(width)) {
        for (byte, part) in bytes.iter_mut().rev().zip(x.to_be_bytes().iter().rev()) {
            *byte = *part;
        }
    }
}

// The fields of a line of the log, by its place in it: name, previous, new, committer and message.
pub fn line_fields(region: &[u8], place: u64) -> Option<[u64; 5]>
    ensures { IsSome result ↔ (place < 1024) }
{
    if place >= 1024 {
        return None;
    }
    let at = At::LINES + place as usize * At::LINE_WIDTH;
    Some([
        number_at(region, at, 2),
        number_at(region, at + 2, 8),
        number_at(region, at + 10, 8),
        number_at(region, at + 18, 2),
        number_at(region, at + 20, 2),
    ])
}
