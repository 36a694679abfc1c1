//! Bytes in a line: as text, in hexadecimal, or as a count of zeros.
ghost use Rattle.std.specs.Prelude.{◌≡◌, ◌<◌, ◌+◌, ◌⊎◌, [], true, length, nat_lt, slice_index, if◌then◌else◌, None, IsSome, IfSome, IfErr, Ok, replicate};
ghost use Rattle.std.specs.List.{list_all};
ghost use Rattle.rina_schedule.specs.Bytes.{is_plain, are_plain, hex_digit, hex_pair_of, hex_of, plain_of, zeros_of, bytes_of, is_lower, lower_hex_of, printed_of, BeginsHex};
ghost use Rattle.rina_schedule.specs.Gives.{Gives, or_bad};

use crate::error::LineError;
use rina_base::{Bytes, Seq, read_number};
use std::alloc::Global;

/// The greatest count that may stand behind `z`.
const ZEROS: u32 = 65_535;

#[tactic(auto, unfolding(crate::specs::Bytes::is_plain))]
fn is_plain_byte(b: u8) -> bool
    ensures { result ≡ is_plain b }
{
    b.is_ascii_graphic()
}

#[tactic(auto, using(std::proofs::lemmas::List::drop_more))]
fn all_plain(bytes: &[u8]) -> bool
    ensures { result ≡ list_all is_plain bytes.now }
{
    'bytes: for byte in bytes {
        if !is_plain_byte(*byte) {
            return false;
        }
    }
    true
}

#[tactic(auto, unfolding(crate::specs::Bytes::are_plain))]
pub(crate) fn is_plain_text(bytes: &[u8]) -> bool
    ensures { result ≡ are_plain bytes.now }
{
    !bytes.is_empty() && all_plain(bytes)
}

#[tactic(auto, unfolding(crate::specs::Bytes::hex_digit))]
fn digit_value(b: u8) -> Option<u8>
    ensures value { result ≡ hex_digit b }
    ensures small { IfSome result (λ x. x < 16) }
{
    match b {
        b'0'..=b'9' => Some(b - b'0'),
        b'a'..=b'f' => Some(b - b'a' + 10),
        b'A'..=b'F' => Some(b - b'A' + 10),
        _ => None,
    }
}

#[tactic(auto, unfolding(crate::specs::Bytes::hex_pair_of))]
fn pair_value(high: u8, low: u8) -> Option<u8>
    ensures { result ≡ hex_pair_of high low }
{
    let x = digit_value(high)?;
    let y = digit_value(low)?;
    Some(x * 16 + y)
}

#[tactic(auto, unfolding(crate::specs::Bytes::plain_of))]
fn read_plain(alloc: Global, n: u32, text: &[u8]) -> Result<Bytes, LineError>
    ensures read { Gives (λ b. b) result (or_bad (LineError.BadBytes n) (plain_of text.now)) }
    ensures memory { IfErr result (λ e. e ≡ LineError.Memory → are_plain text.now ≡ true) }
{
    if !is_plain_text(text) {
        return Err(LineError::BadBytes { n });
    }
    let bytes = Seq::copy_of(alloc, text)?;
    Ok(bytes)
}

/// The byte of the two digits at a place; None where there are no two.
fn pair_at(text: &[u8], at: usize) -> Option<u8>
    requires { at < length text.now }
    ensures pair { result ≡ (if nat_lt (at + 1) (length text.now) then hex_pair_of (slice_index text.now at) (slice_index text.now (at + 1)) else None) }
    ensures within { IfSome result (λ _. at + 1 < length text.now) }
{
    let low = text.get(at + 1)?;
    pair_value(text[at], *low)
}

/// Appends the bytes whose pairs of digits these are. What was appended before the first fault stays.
#[tactic(auto, unfolding(crate::specs::Bytes::hex_of))]
fn push_pairs(bytes: &mut Bytes, n: u32, text: &[u8]) -> Result<(), LineError>
    requires { bytes.old ≡ [] }
    ensures read { Gives (λ _. bytes.new) result (or_bad (LineError.BadBytes n) (hex_of text.now)) }
    ensures memory { IfErr result (λ e. e ≡ LineError.Memory → 1 < length text.now) }
{
    let mut at = 0usize;
    'pairs: while at < text.len() {
        let Some(byte) = pair_at(text, at) else {
            return Err(LineError::BadBytes { n });
        };
        bytes.push(byte)?;
        at += 2;
    }
    Ok(())
}

fn read_hex(alloc: Global, n: u32, text: &[u8]) -> Result<Bytes, LineError>
    ensures read { Gives (λ b. b) result (or_bad (LineError.BadBytes n) (hex_of text.now)) }
    ensures memory { IfErr result (λ e. e ≡ LineError.Memory → 1 < length text.now) }
{
    let mut bytes = Seq::new(alloc);
    push_pairs(&mut bytes, n, text)?;
    Ok(bytes)
}

fn zeros(alloc: Global, count: u32) -> Result<Bytes, LineError>
    ensures { Gives (λ b. b) result (Ok (replicate count 0)) }
{
    let bytes = vec![in alloc; 0u8; count as usize]?;
    Ok(Seq::from_vec(bytes))
}

#[tactic(auto, unfolding(crate::specs::Bytes::zeros_of))]
fn read_zeros(alloc: Global, n: u32, text: &[u8]) -> Result<Bytes, LineError>
    ensures read { Gives (λ b. b) result (or_bad (LineError.BadBytes n) (zeros_of text.now)) }
    ensures memory { IfErr result (λ e. e ≡ LineError.Memory → IsSome (zeros_of text.now)) }
{
    match read_number(text) {
        Some(count) => {
            if count > ZEROS {
                return Err(LineError::BadBytes { n });
            }
            zeros(alloc, count)
        }
        None => Err(LineError::BadBytes { n }),
    }
}

/// Reads the bytes that a text spells: one or more from `!` to `~` behind `'`, pairs of hexadecimal
/// digits behind `x`, or a count of up to 65,535 zeros behind `z`. Fails with `BadBytes` of field `n`
/// where the text is none of these, and with `Memory` once an allocation fails.
#[tactic(auto, unfolding(crate::specs::Bytes::bytes_of, crate::specs::Bytes::plain_of))]
pub fn read_bytes(alloc: Global, n: u32, text: &[u8]) -> Result<Bytes, LineError>
    ensures read { Gives (λ b. b) result (or_bad (LineError.BadBytes n) (bytes_of text.now)) }
    // Pairs of digits are read one by one; any other text that spells no bytes is refused before it is copied.
    ensures memory { IfErr result (λ e. e ≡ LineError.Memory → BeginsHex text.now ⊎ IsSome (bytes_of text.now)) }
{
    match text {
        [b'\'', rest @ ..] => read_plain(alloc, n, rest),
        [b'x', rest @ ..] => read_hex(alloc, n, rest),
        [b'z', rest @ ..] => read_zeros(alloc, n, rest),
        _ => Err(LineError::BadBytes { n }),
    }
}

#[tactic(auto, unfolding(crate::specs::Bytes::is_lower))]
fn is_lower(b: u8) -> bool
    ensures { result ≡ is_lower b }
{
    !matches!(b, b'A'..=b'F')
}

#[tactic(auto, using(std::proofs::lemmas::List::drop_more))]
fn all_lower(text: &[u8]) -> bool
    ensures { result ≡ list_all is_lower text.now }
{
    'text: for byte in text {
        if !is_lower(*byte) {
            return false;
        }
    }
    true
}

#[tactic(auto, unfolding(crate::specs::Bytes::lower_hex_of))]
fn read_lower_hex(alloc: Global, n: u32, text: &[u8]) -> Result<Bytes, LineError>
    ensures read { Gives (λ b. b) result (or_bad (LineError.BadBytes n) (lower_hex_of text.now)) }
    ensures memory { IfErr result (λ e. e ≡ LineError.Memory → 1 < length text.now) }
{
    if !all_lower(text) {
        return Err(LineError::BadBytes { n });
    }
    let bytes = read_hex(alloc, n, text)?;
    if is_plain_text(bytes.as_slice()) {
        return Err(LineError::BadBytes { n });
    }
    Ok(bytes)
}

/// Reads the bytes that a text spells as they are printed: `'` and one or more bytes from `!` to `~`, or
/// `x` and pairs of lower-case hexadecimal digits for all others. Fails with `BadBytes` of field `n`
/// where the text is neither, and with `Memory` once an allocation fails.
#[tactic(auto, unfolding(crate::specs::Bytes::printed_of, crate::specs::Bytes::plain_of))]
pub fn read_printed(alloc: Global, n: u32, text: &[u8]) -> Result<Bytes, LineError>
    ensures read { Gives (λ b. b) result (or_bad (LineError.BadBytes n) (printed_of text.now)) }
    // Pairs of digits are read one by one; any other text that spells no bytes is refused before it is copied.
    ensures memory { IfErr result (λ e. e ≡ LineError.Memory → BeginsHex text.now ⊎ IsSome (printed_of text.now)) }
{
    match text {
        [b'\'', rest @ ..] => read_plain(alloc, n, rest),
        [b'x', rest @ ..] => read_lower_hex(alloc, n, rest),
        _ => Err(LineError::BadBytes { n }),
    }
}
