// Names: which byte strings are one, which names are packable and which are logged.
// Every answer is that of a definition of crates/model/specs/Names.antt.
#![tactic(auto)]

use model::WriteReflog;
use target::NameNumber;

pub mod spelling;

ghost use Rattle.std.specs.Prelude.{◌≡◌};
ghost use Rattle.model.specs.Basic.{all};
ghost use Rattle.model.specs.Names.{is_upper, is_special, is_component_byte, is_component};
ghost use Rattle.model.specs.Names.{components, is_ref, is_name, packable, logs};

// A byte of a special name after its first: A to Z and `_`.
fn is_upper(byte: u8) -> bool
    ensures { result ≡ is_upper byte }
{
    matches!(byte, b'A'..=b'Z' | b'_')
}

// A byte of a component: letters, digits, `-`, `_`, `.`.
fn is_component_byte(byte: u8) -> bool
    ensures { result ≡ is_component_byte byte }
{
    matches!(byte, b'A'..=b'Z' | b'a'..=b'z' | b'0'..=b'9' | b'-' | b'_' | b'.')
}

// Each of the bytes is one of a component.
fn are_component_bytes(bytes: &[u8]) -> bool
    ensures { result ≡ all is_component_byte bytes.now }
{
    bytes.iter().all(|&byte| is_component_byte(byte))
}

// Each of the bytes is one of a special name.
fn are_upper(bytes: &[u8]) -> bool
    ensures { result ≡ all is_upper bytes.now }
{
    bytes.iter().all(|&byte| is_upper(byte))
}

// A special name: A to Z and `_`, first a letter.
#[tactic(auto, unfolding(model::specs::Names::is_special))]
fn is_special(name: &[u8]) -> bool
    ensures { result ≡ is_special name.now }
{
    match name {
        [b'A'..=b'Z', rest @ ..] => are_upper(rest),
        _ => false,
    }
}

// A component: of its bytes alone, not empty, not begun with `.`, not ended with `.lock`.
#[tactic(auto, unfolding(model::specs::Names::is_component))]
fn is_component(part: &[u8]) -> bool
    ensures { result ≡ is_component part.now }
{
    !part.is_empty()
        && are_component_bytes(part)
        && !spelling::begins_with(part, b".")
        && !spelling::ends_with(part, b".lock")
}

// What stands between the `/` are components, each of them.
fn are_components(bytes: &[u8]) -> bool
    ensures { result ≡ all is_component (components bytes.now) }
{
    bytes.split(|&byte| byte == b'/').all(is_component)
}

// `refs/` and components joined by single `/`; `..` nowhere; no final `.`.
#[tactic(auto, unfolding(model::specs::Names::is_ref))]
fn is_ref(name: &[u8]) -> bool
    ensures { result ≡ is_ref name.now }
{
    spelling::begins_with(name, b"refs/")
        && are_components(&name[5..])
        && !spelling::contains(name, b"..")
        && !spelling::ends_with(name, b".")
}

// A name has 1 to 64 bytes, and is special or under `refs/`.
#[tactic(auto, unfolding(model::specs::Names::is_name))]
pub fn is_name(name: &[u8]) -> bool
    ensures { result ≡ is_name name.now }
{
    !name.is_empty() && name.len() <= NameNumber::LONGEST && (is_special(name) || is_ref(name))
}

// The packed table may hold the name: under `refs/`, and in none of the three places that are a worktree's own.
#[tactic(auto, unfolding(model::specs::Names::packable))]
pub fn is_packable(name: &[u8]) -> bool
    ensures { result ≡ packable name.now }
{
    spelling::begins_with(name, b"refs/")
        && !spelling::begins_with(name, b"refs/bisect/")
        && !spelling::begins_with(name, b"refs/worktree/")
        && !spelling::begins_with(name, b"refs/rewritten/")
}

// Setting 1: `HEAD`, branches, remotes and notes.
#[tactic(auto, unfolding(model::specs::Names::logs))]
fn is_logged_normally(name: &[u8]) -> bool
    ensures { result ≡ logs WriteReflog.Normal name.now }
{
    word::same(b"HEAD", name)
        || spelling::begins_with(name, b"refs/heads/")
        || spelling::begins_with(name, b"refs/remotes/")
        || spelling::begins_with(name, b"refs/notes/")
}

// Setting 2: `HEAD` and all under `refs/`.
#[tactic(auto, unfolding(model::specs::Names::logs))]
fn is_logged_always(name: &[u8]) -> bool
    ensures { result ≡ logs WriteReflog.Always name.now }
{
    word::same(b"HEAD", name) || spelling::begins_with(name, b"refs/")
}

// The log setting by itself has the name logged, whatever lines it has already.
#[tactic(auto, unfolding(model::specs::Names::logs))]
pub fn is_logged(setting: WriteReflog, name: &[u8]) -> bool
    ensures { result ≡ logs setting name.now }
{
    match setting {
        WriteReflog::Disable => false,
        WriteReflog::Normal => is_logged_normally(name),
        WriteReflog::Always => is_logged_always(name),
    }
}
