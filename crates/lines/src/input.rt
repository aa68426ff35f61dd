// The input, line by line.
ghost use Rattle.std.specs.Prelude.{◌≤◌, OnOk, vec_len};

use std::alloc::AllocError;
use std::io::Read;

// How a line of the input ends: behind 120 bytes at most; behind more than a line may have; or with the input, and no newline.
#[derive(Clone, Copy, Debug, PartialEq, Eq)]
pub enum Ending {
    Newline,
    TooLong,
    NoNewline,
}

const LONGEST: usize = 120;

// Takes the next line, up to its newline and no further. Its bytes are left in `line`, without the newline; of a line that is too long
// only as many as show that it is. There is none where the input is at its end, or cannot be read.
pub fn next_line<R: Read>(input: &mut R, line: &mut Vec<u8>) -> Result<Option<Ending>, AllocError>
    ensures { OnOk result (vec_len line.new ≤ 121) }
{
    line.clear();
    for byte in input.bytes() {
        match byte {
            Ok(b'\n') if line.len() <= LONGEST => return Ok(Some(Ending::Newline)),
            Ok(b'\n') => return Ok(Some(Ending::TooLong)),
            Ok(byte) if line.len() <= LONGEST => line.push(byte)?,
            Ok(_) => {}
            Err(_) => break,
        }
    }
    if line.is_empty() {
        return Ok(None);
    }
    Ok(Some(Ending::NoNewline))
}
