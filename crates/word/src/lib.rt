// Bytes: big-endian numbers of one to eight of them, and what every other layer does with a part of a slice. One reader and one
// writer serve every width: the width is the length of the part that is lent.
#![tactic(auto)]

ghost use Rattle.std.specs.Prelude.{◌≡◌, true, false, ◌&&◌, ◌+◌, ◌≤◌, length, get_or, replicate, set, eqb};
ghost use Rattle.word.specs.Be.{cut, val, be};
ghost use Rattle.word.specs.Cut.{put};
ghost use Rattle.word.specs.Tests.{same_list};
ghost use Rattle.word.specs.Codec.{zeros};

// ---- numbers

// The number that the bytes of s make, the highest first.
pub fn get(s: &[u8]) -> u64
    requires { length s.now ≤ 8 }
    ensures { result ≡ val s.now }
{
    let mut acc: u64 = 0;
    for &byte in s {
        acc = acc * 256 + u64::from(byte);
    }
    acc
}

// The number of `width` bytes from the at-th on, and of two of them.
pub fn get_at(s: &[u8], at: usize, width: usize) -> u64
    requires { (at + width ≤ length s.now) × (width ≤ 8) }
    ensures { result ≡ val (cut at width s.now) }
{
    let e = at + width;
    get(&s[at..e])
}

pub fn get16_at(s: &[u8], at: usize) -> u16
    requires { at + 2 ≤ length s.now }
    ensures { result ≡ val (cut at 2 s.now) }
{
    get_at(s, at, 2) as u16
}

// The low bytes of x, as many as s has, the highest first.
pub fn put(s: &mut [u8], x: u64)
    ensures { s.new ≡ be (length s.old) x }
{
    let mut left = x;
    for i in (0..s.len()).rev() {
        s[i] = (left % 256) as u8;
        left = left / 256;
    }
}

// The low bytes of x, `width` of them, from the at-th byte of s on.
pub fn put_at(s: &mut [u8], at: usize, width: usize, x: u64)
    requires { at + width ≤ length s.old }
    ensures { s.new ≡ put at width s.old (be width x) }
{
    let e = at + width;
    put(&mut s[at..e], x);
}

// ---- parts

// Every byte is 0. The greatest is looked for, with no way out before the end, so that many bytes can be looked at in one step.
pub fn all_zero(s: &[u8]) -> bool
    ensures { result ≡ zeros s.now }
{
    let mut most: u8 = 0;
    for &byte in s {
        most = most.max(byte);
    }
    most == 0
}

// The two are as long, and byte by byte the same. Most names begin alike, so the bytes are compared from the back.
pub fn same(a: &[u8], b: &[u8]) -> bool
    ensures { result ≡ same_list a.now b.now }
{
    if a.len() != b.len() {
        return false;
    }
    for i in (0..a.len()).rev() {
        if a[i] != b[i] {
            return false;
        }
    }
    true
}

// The bytes of src, put into a part that is as long. A loop, since `copy_from_slice` has the archive ask for a function from outside.
pub fn copy(dst: &mut [u8], src: &[u8])
    requires { length dst.old ≡ length src.now }
    ensures { dst.new ≡ src.now }
{
    for i in 0..dst.len() {
        dst[i] = src[i];
    }
}

// ---- flags, by number

// The flag of a number goes up. A number that has no flag is passed over.
pub fn raise(flags: &mut [bool], k: usize)
    ensures { flags.new ≡ set flags.old k true }
{
    if k < flags.len() {
        flags[k] = true;
    }
}

// Whether the flag of a number is up. A number that has no flag has none that is.
pub fn is_raised(flags: &[bool], k: usize) -> bool
    ensures { result ≡ get_or flags.now k false }
{
    flags.get(k).copied().unwrap_or(false)
}
