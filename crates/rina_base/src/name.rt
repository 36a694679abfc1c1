//! Names of nodes, facilities and labels.
ghost use Rattle.std.specs.Prelude.{◌≡◌, ◌<◌, ◌≤◌, ◌^◌, length, IfOk, IfSome, OnOk, is_ok};
ghost use Rattle.std.specs.Str.{bytes_eq};
ghost use Rattle.rina_base.specs.Names.{Gives, name_at, length_at, bytes_at, bad_at, is_name_byte};

use crate::memory::Memory;
use std::alloc::{AllocError, Global};
use std::marker::Model;

/// Why a text is no name. The length is tried first.
#[derive(Clone, Copy, Debug, PartialEq, Eq)]
pub enum NameError {
    /// An allocation failed.
    Memory,
    /// A part of the text has not 1 to 64 bytes, but `len`.
    BadLength { len: usize },
    /// The byte at `at`, counted from 0, is the first that no name has.
    BadByte { at: usize },
}

impl From<AllocError> for NameError {
    ghost use Rattle.std.specs.Prelude.{◌≡◌};
    ghost use Rattle.rina_base.specs.declared.name.NameError.TheVariants.{Memory};

    ghost from_gives = { λ _ e. e ≡ Memory };

    fn from(_error: AllocError) -> NameError {
        NameError::Memory
    }
}

/// A name: 1 to 64 bytes of `a`-`z`, `0`-`9`, `.`, `-` and `_`. A contract sees its bytes.
#[derive(Drop)]
pub struct Name {
    bytes: Vec<u8>,
}

impl Model for Name {
    ghost use Rattle.std.specs.Prelude.{◌≡◌, List, ℕ, Ok};
    ghost use Rattle.rina_base.specs.Names.{name_at};

    ghost Value = { List ℕ };

    ghost view = { λ n. n.bytes.items };

    ghost invariant = { λ n. name_at n.bytes.items ≡ Ok n.bytes.items };
}

#[tactic(auto, unfolding(crate::specs::Names::is_name_byte))]
fn is_name_char(b: u8) -> bool
    ensures { result ≡ is_name_byte b }
{
    matches!(b, b'a'..=b'z' | b'0'..=b'9' | b'-' | b'.' | b'_')
}

#[tactic(auto, unfolding(crate::specs::Names::bad_at))]
fn first_bad(text: &[u8]) -> Option<usize>
    ensures at { result ≡ bad_at text.now }
    ensures within { IfSome result (λ k. k < length text.now) }
{
    text.iter().position(|b| !is_name_char(*b))
}

/// Whether a part of a name has 1 to 64 bytes.
#[tactic(auto, unfolding(crate::specs::Names::length_at))]
pub(crate) fn check_length(text: &[u8]) -> Result<(), NameError>
    ensures fault { Gives (λ t. t) result (length_at text.now) }
    ensures is { is_ok result ≡ is_ok (length_at text.now) }
    ensures short { OnOk result (length text.now ≤ 64) }
{
    if text.is_empty() || text.len() > 64 {
        return Err(NameError::BadLength { len: text.len() });
    }
    Ok(())
}

/// Whether all bytes may stand in a name; `before` bytes stand before these.
#[tactic(auto, unfolding(crate::specs::Names::bytes_at))]
pub(crate) fn check_bytes(before: usize, text: &[u8]) -> Result<(), NameError>
    requires { before < 2 ^ 32 }
    ensures fault { Gives (λ t. t) result (bytes_at before text.now) }
    ensures is { is_ok result ≡ is_ok (bytes_at before text.now) }
{
    match first_bad(text) {
        Some(at) => Err(NameError::BadByte { at: before + at }),
        None => Ok(()),
    }
}

/// Whether a text is a name.
#[tactic(auto, unfolding(crate::specs::Names::name_at))]
pub(crate) fn check_name(text: &[u8]) -> Result<(), NameError>
    ensures fault { Gives (λ _. text.now) result (name_at text.now) }
    ensures is { is_ok result ≡ is_ok (name_at text.now) }
{
    check_length(text)?;
    check_bytes(0, text)?;
    Ok(())
}

impl Name {
    /// The name that a text is, or its first fault: the length, then the bytes from the left.
    /// Only a text that is one wants memory.
    pub fn read(alloc: Global, text: &[u8]) -> Result<Name, NameError>
        ensures { Gives (λ n. n) result (name_at text.now) }
    {
        check_name(text)?;
        let bytes = Vec::from_slice(alloc, text)?;
        Ok(Name { bytes })
    }

    /// A copy.
    pub fn copy(&self, alloc: Global) -> Result<Name, Memory>
        ensures { IfOk result (λ n. n ≡ self.now) }
    {
        let bytes = Vec::from_slice(alloc, self.bytes.as_slice())?;
        Ok(Name { bytes })
    }

    /// Its bytes.
    pub fn as_bytes(&self) -> &[u8]
        ensures { result.now ≡ self.now }
    {
        self.bytes.as_slice()
    }

    /// Whether two names are the same.
    pub fn is(&self, other: &Name) -> bool
        ensures { result ≡ bytes_eq self.now other.now }
    {
        self.bytes.as_slice() == other.bytes.as_slice()
    }

    /// Whether a text is a name; takes no memory.
    pub fn is_name(text: &[u8]) -> bool
        ensures { result ≡ is_ok (name_at text.now) }
    {
        check_name(text).is_ok()
    }
}
