// Byte strings compared: one begins or ends another, stands in it, or stands before it in order.
// Every answer is that of a definition of crates/model/specs/Names.antt, or of specs/.
ghost use Rattle.std.specs.Prelude.{◌≡◌};
ghost use Rattle.model.specs.Names.{begins, within, beneath, before};
ghost use Rattle.names.specs.Ends.{ends};
ghost use Rattle.names.specs.Parts.{up_to};

// The name begins with the prefix.
pub fn begins_with(name: &[u8], prefix: &[u8]) -> bool
    ensures { result ≡ begins prefix.now name.now }
{
    name.starts_with(prefix)
}

// The name ends with the suffix.
pub fn ends_with(name: &[u8], suffix: &[u8]) -> bool
    ensures { result ≡ ends suffix.now name.now }
{
    name.ends_with(suffix)
}

// The part stands somewhere in the name.
pub fn contains(name: &[u8], part: &[u8]) -> bool
    ensures { result ≡ within part.now name.now }
{
    part.is_empty() || (0..name.len()).any(|i| begins_with(&name[i..], part))
}

// How many bytes stand before the first such byte, or in all where there is none.
pub fn up_to(bytes: &[u8], byte: u8) -> usize
    ensures { result ≡ up_to byte bytes.now }
{
    bytes.iter().position(|&b| b == byte).unwrap_or(bytes.len())
}

// The name begins with the other and a `/`. Lengths and the `/` are asked first: as a rule they tell, and no byte more is compared.
#[tactic(auto, using(crate::proofs::Beneath::beneath_is))]
pub fn is_beneath(name: &[u8], above: &[u8]) -> bool
    ensures { result ≡ beneath name.now above.now }
{
    let end = above.len();
    end < name.len() && name[end] == b'/' && word::same(above, &name[..end])
}

// Byte order: the first stands before the second. A loop, since `<` takes longer over what the two share.
pub fn is_before(a: &[u8], b: &[u8]) -> bool
    ensures { result ≡ before a.now b.now }
{
    for i in 0..b.len() {
        if a.len() <= i {
            return true;
        }
        if a[i] != b[i] {
            return a[i] < b[i];
        }
    }
    false
}
