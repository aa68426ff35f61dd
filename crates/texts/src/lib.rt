// The packed table's text, with no region: a ref line as it is written, and what a line says. Module walk goes through a whole text.
// Every answer is that of a definition of crates/model/specs/PackedText.antt.
#![tactic(auto)]

ghost use Rattle.std.specs.Prelude.{◌≡◌, true, ◌&&◌, [], ◌∷◌, ◌++◌, ◌+◌, ◌<◌, length};
ghost use Rattle.word.specs.Codec.{is_some};
ghost use Rattle.model.specs.Basic.{all};
ghost use Rattle.model.specs.PackedText.{digit, digits_on, ref_line, is_digit, digit_value, digits_from, ref_in, is_peeled};
ghost use Rattle.texts.specs.Lines.{Digits, ref_by, SaysRef, SaysLine};

pub mod walk;

// A ref line: 40 digits, of which the first 24 are zeros, a space, the name, a line feed.
#[derive(Clone, Copy)]
pub struct RefLine {}

impl RefLine {
    pub const ZEROS: usize = 24;

    pub const DIGITS: usize = 40;

    pub const NAME: usize = 41;

    // What a line has beside its name.
    pub const FRAME: usize = 42;

    pub const SPACE: u8 = b' ';

    pub const LINE_FEED: u8 = b'\n';
}

// ---- writing

// The byte of a hex digit.
fn digit(value: u64) -> u8
    requires { value < 16 }
    ensures { result ≡ digit value }
{
    let low = value as u8;
    if low < 10 {
        b'0' + low
    } else {
        b'a' - 10 + low
    }
}

// The low digits of x, as many as s has bytes, the highest first.
fn put_digits(s: &mut [u8], x: u64)
    ensures { s.new ≡ digits_on (length s.old) x [] }
{
    let mut left = x;
    for i in (0..s.len()).rev() {
        s[i] = digit(left % 16);
        left /= 16;
    }
}

// What stands behind them: a space, the name, a line feed.
fn put_name(rest: &mut [u8], name: &[u8])
    requires { length rest.old ≡ 2 + length name.now }
    ensures { rest.new ≡ 32 ∷ (name.now ++ (10 ∷ [])) }
{
    let end = 1 + name.len();
    rest[0] = RefLine::SPACE;
    rest[end] = RefLine::LINE_FEED;
    word::copy(&mut rest[1..end], name);
}

// A ref line, in a part that is as long.
pub fn write_packed_ref(line: &mut [u8], name: &[u8], object: u64)
    requires { length line.old ≡ 42 + length name.now }
    ensures { line.new ≡ ref_line (record { name = name.entry.now; object = object }) }
{
    put_digits(&mut line[..RefLine::DIGITS], object);
    put_name(&mut line[RefLine::DIGITS..], name);
}

// ---- digits read

fn is_digit(byte: u8) -> bool
    ensures { result ≡ is_digit byte }
{
    matches!(byte, b'0'..=b'9' | b'a'..=b'f')
}

fn are_digits(bytes: &[u8]) -> bool
    ensures { result ≡ all is_digit bytes.now }
{
    bytes.iter().all(|&byte| is_digit(byte))
}

fn digit_value(byte: u8) -> u64
    requires { is_digit byte ≡ true }
    ensures { result ≡ digit_value byte }
{
    let value = if byte <= b'9' {
        byte - b'0'
    } else {
        byte - b'a' + 10
    };
    u64::from(value)
}

// The number that the digits make, the highest first.
fn number(digits: &[u8]) -> u64
    requires { Digits digits.now }
    ensures { result ≡ digits_from 0 digits.now }
{
    let mut acc = 0;
    for &digit in digits {
        acc = acc * 16 + digit_value(digit);
    }
    acc
}

// ---- what a line says, without its line feed

// 40 digits, of which the first 24 are zeros, a space, and a name.
#[tactic(auto, using(crate::proofs::Lines::ref_is))]
fn is_ref_line(line: &[u8]) -> bool
    ensures { result ≡ is_some (ref_in line.now) }
{
    line.len() >= RefLine::NAME
        && are_digits(&line[..RefLine::DIGITS])
        && names::spelling::begins_with(line, b"000000000000000000000000")
        && line[RefLine::DIGITS] == RefLine::SPACE
        && names::is_name(&line[RefLine::NAME..])
}

// The object of a ref line, which may be 0. Its name stands behind the space.
#[tactic(auto, using(crate::proofs::Lines::ref_long))]
pub fn reference(line: &[u8]) -> Option<u64>
    ensures { ref_by result line.now ≡ ref_in line.now }
{
    if is_ref_line(line) {
        Some(number(&line[RefLine::ZEROS..RefLine::DIGITS]))
    } else {
        None
    }
}

// `^` and 40 digits.
#[tactic(auto, unfolding(model::specs::PackedText::is_peeled))]
fn is_peeled(line: &[u8]) -> bool
    ensures { result ≡ is_peeled line.now }
{
    names::spelling::begins_with(line, b"^")
        && line.len() == RefLine::NAME
        && are_digits(&line[1..])
}

// The same where the line just before is a ref line.
fn is_peeled_after(line: &[u8], direct: bool) -> bool
    ensures { result ≡ (direct && is_peeled line.now) }
{
    direct && is_peeled(line)
}

// What a line says, by the model's definition: why it is at fault, nothing, or a ref.
#[derive(Clone, Copy)]
pub enum Said {
    Malformed,
    Unpackable,
    Nothing,
    Ref,
}

// A line that must be a ref line, where the last one had the name `last`.
fn ref_said(line: &[u8], last: &[u8]) -> Said
    ensures { SaysRef result last.now line.now }
{
    let Some(object) = reference(line) else {
        return Said::Malformed;
    };
    let name = &line[RefLine::NAME..];
    if !names::spelling::is_before(last, name) {
        return Said::Malformed;
    }
    if object == 0 {
        return Said::Unpackable;
    }
    if !names::is_packable(name) {
        return Said::Unpackable;
    }
    Said::Ref
}

// Any line. `direct` says that the line just before is a ref line.
fn line_said(line: &[u8], last: &[u8], direct: bool) -> Said
    ensures { SaysLine result last.now direct line.now }
{
    if names::spelling::begins_with(line, b"#") {
        return Said::Nothing;
    }
    if is_peeled_after(line, direct) {
        return Said::Nothing;
    }
    ref_said(line, last)
}
