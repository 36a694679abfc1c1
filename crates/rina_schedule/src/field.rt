//! The fields of a line. Each function reads one field from the rest of the line, and gives its value
//! and the rest of the line after it.
ghost use Rattle.std.specs.Prelude.{◌≡◌, ◌≢◌, ◌+◌, ◌<◌, ◌≤◌, ◌==◌, not, length, position, IsSome, IfSome, IsOk, IfOk, IfErr, OnOk};
ghost use Rattle.std.specs.Option.{option_map};
ghost use Rattle.rina_schedule.specs.Gives.{Gives};
ghost use Rattle.rina_schedule.specs.Fields.{without_blanks, next_of, field_at, number_at, name_field_at, app_field_at, bytes_at, path_at, end_at, flag_at, behind, setting_at};

use crate::bytes::read_bytes;
use crate::error::LineError;
use rina_base::{AppName, Bytes, Name, NameError, ObjectName, read_number};
use std::alloc::Global;

fn first_letter(text: &[u8]) -> Option<usize>
    ensures at { result ≡ position (λ b. not (b == 32)) text.now }
    ensures within { IfSome result (λ k. k < length text.now) }
{
    text.iter().position(|b| !(*b == b' '))
}

fn first_blank(text: &[u8]) -> Option<usize>
    ensures at { result ≡ position (λ b. b == 32) text.now }
    ensures within { IfSome result (λ k. k < length text.now) }
{
    text.iter().position(|b| *b == b' ')
}

#[tactic(auto, unfolding(crate::specs::Fields::without_blanks))]
fn skip_blanks(text: &[u8]) -> &[u8]
    ensures { result.now ≡ without_blanks text.now }
{
    match first_letter(text) {
        Some(at) => text.split_at(at).1,
        None => &[],
    }
}

/// Splits off the first field of a text; gives it and the rest, or None where the text has no field.
#[tactic(auto, unfolding(crate::specs::Fields::next_of))]
pub fn next_field(text: &[u8]) -> Option<(&[u8], &[u8])>
    ensures { option_map (λ x. (x.0.now, x.1.now)) result ≡ next_of text.now }
{
    let text = skip_blanks(text);
    if text.is_empty() {
        return None;
    }
    match first_blank(text) {
        Some(at) => Some(text.split_at(at)),
        None => Some((text, &[])),
    }
}

#[tactic(auto, unfolding(crate::specs::Fields::field_at))]
fn field(n: u32, text: &[u8]) -> Result<(&[u8], &[u8]), LineError>
    ensures read { Gives (λ x. (x.0.now, x.1.now)) result (field_at n text.now) }
    ensures memory { IfErr result (λ e. e ≢ LineError.Memory) }
{
    match next_field(text) {
        Some(found) => Ok(found),
        None => Err(LineError::MissingField { n }),
    }
}

/// Reads field `n`, a number.
#[tactic(auto, unfolding(crate::specs::Fields::number_at))]
pub(crate) fn number<'a>(n: u32, text: &'a [u8]) -> Result<(u32, &'a [u8]), LineError>
    ensures read { Gives (λ x. (x.0, x.1.now)) result (number_at n text.now) }
    ensures memory { IfErr result (λ e. e ≢ LineError.Memory) }
{
    let (digits, rest) = field(n, text)?;
    match read_number(digits) {
        Some(value) => Ok((value, rest)),
        None => Err(LineError::BadNumber { n }),
    }
}

/// Reads field `n`, a name. Fails with `Memory` once an allocation fails.
#[tactic(auto, unfolding(crate::specs::Fields::name_field_at))]
pub(crate) fn name<'a>(alloc: Global, n: u32, text: &'a [u8]) -> Result<(Name, &'a [u8]), LineError>
    ensures read { Gives (λ x. (x.0, x.1.now)) result (name_field_at n text.now) }
    ensures memory { IfErr result (λ e. e ≡ LineError.Memory → IsOk (field_at n text.now)) }
    ensures there { OnOk result (IsOk (field_at n text.now)) }
{
    let (name, rest) = field(n, text)?;
    match Name::read(alloc, name) {
        Ok(name) => Ok((name, rest)),
        Err(NameError::Memory) => Err(LineError::Memory),
        Err(_) => Err(LineError::BadName { n }),
    }
}

/// Reads field `n`, an application name. Fails with `Memory` once an allocation fails.
#[tactic(auto, unfolding(crate::specs::Fields::app_field_at))]
pub(crate) fn app<'a>(
    alloc: Global,
    n: u32,
    text: &'a [u8],
) -> Result<(AppName, &'a [u8]), LineError>
    ensures read { Gives (λ x. (x.0, x.1.now)) result (app_field_at n text.now) }
    ensures memory { IfErr result (λ e. e ≡ LineError.Memory → IsOk (field_at n text.now)) }
{
    let (app, rest) = field(n, text)?;
    match AppName::read(alloc, app) {
        Ok(app) => Ok((app, rest)),
        Err(NameError::Memory) => Err(LineError::Memory),
        Err(_) => Err(LineError::BadName { n }),
    }
}

/// Reads field `n`, which spells bytes. Fails with `Memory` once an allocation fails.
#[tactic(auto, unfolding(crate::specs::Fields::bytes_at))]
pub(crate) fn bytes<'a>(
    alloc: Global,
    n: u32,
    text: &'a [u8],
) -> Result<(Bytes, &'a [u8]), LineError>
    ensures read { Gives (λ x. (x.0, x.1.now)) result (bytes_at n text.now) }
    ensures memory { IfErr result (λ e. e ≡ LineError.Memory → IsOk (field_at n text.now)) }
{
    let (spelled, rest) = field(n, text)?;
    let bytes = read_bytes(alloc, n, spelled)?;
    Ok((bytes, rest))
}

/// Reads field `n`, an optional object name. Fails with `Memory` once an allocation fails.
#[tactic(auto, unfolding(crate::specs::Fields::path_at))]
pub(crate) fn path<'a>(
    alloc: Global,
    n: u32,
    text: &'a [u8],
) -> Result<(Option<ObjectName>, &'a [u8]), LineError>
    ensures read { Gives (λ x. (x.0, x.1.now)) result (path_at n text.now) }
    ensures memory { IfErr result (λ e. e ≡ LineError.Memory → IsSome (next_of text.now)) }
{
    let Some((path, rest)) = next_field(text) else {
        return Ok((None, &[]));
    };
    match ObjectName::read(alloc, path) {
        Ok(Some(path)) => Ok((Some(path), rest)),
        Ok(None) => Err(LineError::BadName { n }),
        Err(_) => Err(LineError::Memory),
    }
}

/// Checks that the line ends before field `n`.
#[tactic(auto, unfolding(crate::specs::Fields::end_at))]
pub(crate) fn end(n: u32, text: &[u8]) -> Result<(), LineError>
    ensures read { Gives (λ x. x) result (end_at n text.now) }
    ensures memory { IfErr result (λ e. e ≢ LineError.Memory) }
{
    match next_field(text) {
        None => Ok(()),
        Some(_) => Err(LineError::Extra { n }),
    }
}

/// Reads this word as an optional field `n`. Gives whether it is there, the number of the next field, and
/// the rest of the line.
#[tactic(auto, unfolding(crate::specs::Fields::flag_at))]
pub(crate) fn flag<'a>(word: &[u8], n: u32, text: &'a [u8]) -> (bool, u32, &'a [u8])
    requires { n < 100 }
    ensures found { (result.0, result.1, result.2.now) ≡ flag_at word.now n text.now }
    ensures next { result.1 ≤ n + 1 }
{
    match next_field(text) {
        Some((field, rest)) => {
            if field == word {
                (true, n + 1, rest)
            } else {
                (false, n, text)
            }
        }
        None => (false, n, text),
    }
}

/// The text after this prefix, or None where the text does not begin with it.
#[tactic(auto, unfolding(crate::specs::Fields::behind))]
fn after<'a>(word: &[u8], text: &'a [u8]) -> Option<&'a [u8]>
    ensures { option_map (λ x. x.now) result ≡ behind word.now text.now }
{
    text.strip_prefix(word)
}

/// Reads an optional field `n`, this word with a number behind it. Gives the number, or the default
/// where the field is not there, then the number of the next field and the rest of the line.
#[tactic(auto, unfolding(crate::specs::Fields::setting_at))]
pub(crate) fn setting<'a>(
    word: &[u8],
    default: u32,
    n: u32,
    text: &'a [u8],
) -> Result<(u32, u32, &'a [u8]), LineError>
    requires { n < 100 }
    ensures found { Gives (λ x. (x.0, x.1, x.2.now)) result (setting_at word.now default n text.now) }
    ensures next { IfOk result (λ x. x.1 ≤ n + 1) }
    ensures memory { IfErr result (λ e. e ≢ LineError.Memory) }
{
    let Some((field, rest)) = next_field(text) else {
        return Ok((default, n, text));
    };
    let Some(digits) = after(word, field) else {
        return Ok((default, n, text));
    };
    match read_number(digits) {
        Some(value) => Ok((value, n + 1, rest)),
        None => Err(LineError::BadNumber { n }),
    }
}
