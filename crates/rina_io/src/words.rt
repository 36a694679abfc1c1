//! The words of the command line.
ghost use Rattle.std.specs.Prelude.{◌≡◌, ◌≤◌, ◌∷◌, [], All, length, IfOk, IfSome, string_bytes};
ghost use Rattle.std.specs.Str.{IsUtf8};

use std::alloc::{AllocError, Global};
use std::env::FillError;
use std::rt::Env;
use std::str;

/// How many bytes of a word are read.
const ROOM: usize = 256;

/// Stands for a word that is no UTF-8 or has more than `ROOM` bytes.
const NO_TEXT: &str = "\u{FFFD}";

/// The word of some bytes, which is U+FFFD where they are no UTF-8.
fn word_of(alloc: Global, bytes: &[u8]) -> Result<String, AllocError>
    ensures text { IfOk result (λ w. IsUtf8 bytes.now → string_bytes w ≡ bytes.now) }
    ensures other { IfOk result (λ w. ¬ (IsUtf8 bytes.now) → string_bytes w ≡ 239 ∷ 191 ∷ 189 ∷ []) }
    ensures short { length bytes.now ≤ 256 → IfOk result (λ w. length (string_bytes w) ≤ 256) }
{
    match str::from_utf8(bytes) {
        Ok(text) => String::from_str(alloc, text),
        Err(_) => String::from_str(alloc, NO_TEXT),
    }
}

/// The word at a place, where the program's name has place 0. None behind the last.
fn word_at<E: Env>(alloc: Global, env: &E, place: usize) -> Result<Option<String>, AllocError>
    ensures { IfOk result (λ word. IfSome word (λ w. length (string_bytes w) ≤ 256)) }
{
    let mut bytes = [0u8; ROOM];
    match env.arg(place, &mut bytes) {
        Ok(length) => Ok(Some(word_of(alloc, &bytes[..length])?)),
        Err(FillError::TooLong) => Ok(Some(String::from_str(alloc, NO_TEXT)?)),
        Err(FillError::NotPresent) => Ok(None),
    }
}

/// The words of the command line without the program's name. One that is no UTF-8, or has more than 256 bytes, is U+FFFD.
pub fn read_words<E: Env>(alloc: Global, env: &E) -> Result<Vec<String>, AllocError>
    ensures { IfOk result (λ words. All (λ w. length (string_bytes w) ≤ 256) words.items) }
{
    let mut words = Vec::new(alloc);
    'places: for place in 1..usize::MAX {
        let Some(word) = word_at(alloc, env, place)? else {
            break 'places;
        };
        words.push(word)?;
    }
    Ok(words)
}
