//! Reading the fields of a note, and numbers in them.
ghost use Rattle.std.specs.Prelude.{◌≡◌, ◌∷◌, [], ◌<◌, ◌≤◌, ◌==◌, length, position, IfSome, IfOk, MatchOption, IfErr, ◌≢◌, OnOk};
ghost use Rattle.std.specs.Str.{bytes_eq};
ghost use Rattle.rina_schedule.specs.Gives.{Gives};
ghost use Rattle.rina_report.specs.Fields.{fields_of, behind, is_numeral, numeral_of, max8, max32, max64, field_at, end_at, ended_at, number_at, word_at};

use rina_base::read_decimal;
use rina_schedule::LineError;

pub(crate) fn is(word: &[u8], other: &[u8]) -> bool
    ensures { result ≡ bytes_eq word.now other.now }
{
    word == other
}

/// The place of the first such byte, or None where the text has none.
pub(crate) fn place_of(byte: u8, text: &[u8]) -> Option<usize>
    ensures at { result ≡ position (λ x. x == byte) text.now }
    ensures within { IfSome result (λ k. k < length text.now) }
{
    text.iter().position(|x| *x == byte)
}

/// Splits off the first field of a text; gives it and the rest.
#[tactic(auto, unfolding(crate::specs::Fields::behind), using(crate::proofs::Split::cut_some, crate::proofs::Split::cut_none))]
pub(crate) fn first_field(text: &[u8]) -> (&[u8], &[u8])
    ensures { fields_of text.now ≡ result.0.now ∷ behind result.1.now }
{
    match place_of(b' ', text) {
        Some(at) => text.split_at(at),
        None => (text, &[]),
    }
}

/// Splits off the next field; gives it and the rest, or None at the end of the note.
#[tactic(auto, unfolding(crate::specs::Fields::behind))]
pub(crate) fn next_field(rest: &[u8]) -> Option<(&[u8], &[u8])>
    ensures { MatchOption result (behind rest.now ≡ []) (λ x. behind rest.now ≡ x.0.now ∷ behind x.1.now) }
{
    match rest {
        [] => None,
        [_space, text @ ..] => Some(first_field(text)),
    }
}

/// Reads field `n`, whatever it is.
pub(crate) fn field(n: u32, rest: &[u8]) -> Result<(&[u8], &[u8]), LineError>
    ensures read { Gives (λ x. (x.0.now, behind x.1.now)) result (field_at n (behind rest.now)) }
    ensures memory { IfErr result (λ e. e ≢ LineError.Memory) }
    ensures there { OnOk result (0 < length (behind rest.now)) }
{
    match next_field(rest) {
        Some(found) => Ok(found),
        None => Err(LineError::MissingField { n }),
    }
}

/// Checks that the note ends before field `n`.
pub(crate) fn end(n: u32, rest: &[u8]) -> Result<(), LineError>
    ensures read { Gives (λ x. x) result (end_at n (behind rest.now)) }
    ensures memory { IfErr result (λ e. e ≢ LineError.Memory) }
{
    match next_field(rest) {
        None => Ok(()),
        Some(_) => Err(LineError::Extra { n }),
    }
}

/// This value, where the note ends before field `n`.
pub(crate) fn ended<T: Drop>(value: T, n: u32, rest: &[u8]) -> Result<T, LineError>
    ensures read { Gives (λ x. x) result (ended_at value n (behind rest.now)) }
    ensures memory { IfErr result (λ e. e ≢ LineError.Memory) }
{
    end(n, rest)?;
    Ok(value)
}

#[tactic(auto, unfolding(crate::specs::Fields::is_numeral))]
fn is_numeral(text: &[u8]) -> bool
    ensures { result ≡ is_numeral text.now }
{
    match text {
        [] => false,
        [first, more @ ..] => more.is_empty() || !(*first == b'0'),
    }
}

/// The number that a text is in decimal, without a sign and without a leading zero. None where the text
/// is no such number, or one above `max`.
#[tactic(auto, unfolding(crate::specs::Fields::numeral_of))]
pub(crate) fn read_numeral(max: u64, text: &[u8]) -> Option<u64>
    ensures value { result ≡ numeral_of max text.now }
    ensures small { IfSome result (λ x. x ≤ max) }
{
    if !is_numeral(text) {
        return None;
    }
    read_decimal(max, text)
}

/// Reads field `n`, a number up to `max`.
#[tactic(auto, unfolding(crate::specs::Fields::number_at))]
pub(crate) fn number_up_to(max: u64, n: u32, rest: &[u8]) -> Result<(u64, &[u8]), LineError>
    ensures value { Gives (λ x. (x.0, behind x.1.now)) result (number_at max n (behind rest.now)) }
    ensures small { IfOk result (λ x. x.0 ≤ max) }
    ensures memory { IfErr result (λ e. e ≢ LineError.Memory) }
    ensures there { OnOk result (0 < length (behind rest.now)) }
{
    let (digits, rest) = field(n, rest)?;
    match read_numeral(max, digits) {
        Some(value) => Ok((value, rest)),
        None => Err(LineError::BadNumber { n }),
    }
}

/// Reads field `n`, a number of 32 bits.
pub(crate) fn number(n: u32, rest: &[u8]) -> Result<(u32, &[u8]), LineError>
    ensures read { Gives (λ x. (x.0, behind x.1.now)) result (number_at max32 n (behind rest.now)) }
    ensures memory { IfErr result (λ e. e ≢ LineError.Memory) }
    ensures there { OnOk result (0 < length (behind rest.now)) }
{
    let (value, rest) = number_up_to(u64::from(u32::MAX), n, rest)?;
    Ok((value as u32, rest))
}

/// Reads field `n`, a number of 8 bits.
pub(crate) fn byte(n: u32, rest: &[u8]) -> Result<(u8, &[u8]), LineError>
    ensures read { Gives (λ x. (x.0, behind x.1.now)) result (number_at max8 n (behind rest.now)) }
    ensures memory { IfErr result (λ e. e ≢ LineError.Memory) }
{
    let (value, rest) = number_up_to(u64::from(u8::MAX), n, rest)?;
    Ok((value as u8, rest))
}

/// Reads field `n`, a number of 64 bits.
pub(crate) fn long(n: u32, rest: &[u8]) -> Result<(u64, &[u8]), LineError>
    ensures read { Gives (λ x. (x.0, behind x.1.now)) result (number_at max64 n (behind rest.now)) }
    ensures memory { IfErr result (λ e. e ≢ LineError.Memory) }
{
    number_up_to(u64::MAX, n, rest)
}

/// Reads field `n`, which has to be this word.
#[tactic(auto, unfolding(crate::specs::Fields::word_at))]
pub(crate) fn word<'a>(expected: &[u8], n: u32, rest: &'a [u8]) -> Result<((), &'a [u8]), LineError>
    ensures read { Gives (λ x. (x.0, behind x.1.now)) result (word_at expected.now n (behind rest.now)) }
    ensures memory { IfErr result (λ e. e ≢ LineError.Memory) }
{
    let (found, rest) = field(n, rest)?;
    if !is(found, expected) {
        return Err(LineError::BadName { n });
    }
    Ok(((), rest))
}
