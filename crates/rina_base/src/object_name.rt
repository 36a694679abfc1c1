//! Names of the objects of a RIB (resource information base).
ghost use Rattle.std.specs.Prelude.{◌≡◌, true, IfErr, IfOk};
ghost use Rattle.rina_base.specs.ObjectNames.{is_object_byte, are_parts, is_object_name, object_name_of};

use crate::memory::Memory;
use std::alloc::Global;
use std::marker::Model;

/// The name of an object: `/`, or parts of 1 to 130 bytes of `a`-`z`, `0`-`9`, `.`, `-`, `_` and `!`
/// with a slash before each. A contract sees its bytes.
#[derive(Drop)]
pub struct ObjectName {
    bytes: Vec<u8>,
}

impl Model for ObjectName {
    ghost use Rattle.std.specs.Prelude.{◌≡◌, List, ℕ, true};
    ghost use Rattle.rina_base.specs.ObjectNames.{is_object_name};

    ghost Value = { List ℕ };

    ghost view = { λ n. n.bytes.items };

    ghost invariant = { λ n. is_object_name n.bytes.items ≡ true };
}

#[tactic(auto, unfolding(crate::specs::ObjectNames::is_object_byte, crate::specs::Names::is_name_byte))]
fn is_object_char(b: u8) -> bool
    ensures { result ≡ is_object_byte b }
{
    matches!(b, b'a'..=b'z' | b'0'..=b'9' | b'-' | b'.' | b'_' | b'!')
}

#[tactic(auto, unfolding(crate::specs::ObjectNames::are_parts))]
fn has_parts(text: &[u8]) -> bool
    ensures { result ≡ are_parts 0 text.now }
{
    let mut before = 0u32;
    'bytes: for b in text {
        if *b == b'/' {
            if before < 1 {
                return false;
            }
            before = 0;
        } else if is_object_char(*b) && before < 130 {
            before += 1;
        } else {
            return false;
        }
    }
    before >= 1
}

/// Whether a text is the name of an object; takes no memory.
#[tactic(auto, unfolding(crate::specs::ObjectNames::is_object_name))]
pub fn is_object_name(text: &[u8]) -> bool
    ensures { result ≡ is_object_name text.now }
{
    match text {
        [] => false,
        [first, rest @ ..] => *first == b'/' && (rest.is_empty() || has_parts(rest)),
    }
}

impl ObjectName {
    /// The name that a text is; None where it is none, whatever memory there is.
    #[tactic(auto, unfolding(crate::specs::ObjectNames::object_name_of))]
    pub fn read(alloc: Global, text: &[u8]) -> Result<Option<ObjectName>, Memory>
        ensures read { IfOk result (λ n. n ≡ object_name_of text.now) }
        ensures memory { IfErr result (λ _. is_object_name text.now ≡ true) }
    {
        if !is_object_name(text) {
            return Ok(None);
        }
        let bytes = Vec::from_slice(alloc, text)?;
        Ok(Some(ObjectName { bytes }))
    }

    /// Its bytes, which are the name of an object.
    pub fn as_bytes(&self) -> &[u8]
        ensures bytes { result.now ≡ self.now }
        ensures name { is_object_name result.now ≡ true }
    {
        self.bytes.as_slice()
    }
}
