//! Reading values of more than one part, names and bytes.
ghost use Rattle.std.specs.Prelude.{◌≡◌, ◌+◌, ◌<◌, ◌≤◌, IfSome, IfErr, length, ◌≢◌, OnOk};
ghost use Rattle.rina_base.specs.Names.{name_at};
ghost use Rattle.rina_schedule.specs.Fields.{name_or_bad};
ghost use Rattle.rina_schedule.specs.Gives.{Gives};
ghost use Rattle.rina_report.specs.Fields.{behind, parts_of, max32, pair_of, triple_of, numeral_of, port_of, kind_of, truth_of, num_at, flow_at, key_at, port_at, truth_at, name_field_at, app_field_at, object_at, bytes_at};

use crate::read::field::{field, is, place_of, read_numeral};
use crate::state::PortNote;
use rina_base::{AppName, Bytes, FlowName, Key, Name, NameError, Num, PduKind};
use rina_schedule::{LineError, ObjectName, read_printed};
use std::alloc::Global;

/// The text before the first such byte, and the text after it.
#[tactic(auto, unfolding(crate::specs::Fields::parts_of))]
fn parts(byte: u8, text: &[u8]) -> (&[u8], &[u8])
    ensures { (result.0.now, result.1.now) ≡ parts_of byte text.now }
{
    match place_of(byte, text) {
        Some(at) => (&text[..at], &text[at + 1..]),
        None => (text, &[]),
    }
}

/// The number of 32 bits that a text is.
fn small(text: &[u8]) -> Option<u32>
    ensures { result ≡ numeral_of max32 text.now }
{
    let n = read_numeral(u64::from(u32::MAX), text)?;
    Some(n as u32)
}

/// The two numbers on the sides of the dot in a text, of which the second is up to `max`.
#[tactic(auto, unfolding(crate::specs::Fields::pair_of))]
fn pair(max: u64, text: &[u8]) -> Option<(u32, u64)>
    ensures value { result ≡ pair_of max text.now }
    ensures bound { IfSome result (λ x. x.1 ≤ max) }
{
    let (first, second) = parts(b'.', text);
    let a = small(first)?;
    let b = read_numeral(max, second)?;
    Some((a, b))
}

/// The three numbers of 32 bits between the dots of a text.
#[tactic(auto, unfolding(crate::specs::Fields::triple_of))]
fn triple(text: &[u8]) -> Option<(u32, u32, u32)>
    ensures { result ≡ triple_of text.now }
{
    let (first, rest) = parts(b'.', text);
    let a = small(first)?;
    let (b, c) = pair(u64::from(u32::MAX), rest)?;
    Some((a, b, c as u32))
}

/// Reads field `n`, CEP.SEQ.
#[tactic(auto, unfolding(crate::specs::Fields::num_at))]
pub(crate) fn num(n: u32, rest: &[u8]) -> Result<(Num, &[u8]), LineError>
    ensures read { Gives (λ x. (x.0, behind x.1.now)) result (num_at n (behind rest.now)) }
    ensures memory { IfErr result (λ e. e ≢ LineError.Memory) }
{
    let (text, rest) = field(n, rest)?;
    match pair(u64::MAX, text) {
        Some((cep, seq)) => Ok((Num { cep, seq }, rest)),
        None => Err(LineError::BadNumber { n }),
    }
}

/// Reads field `n`, SRC.TICK.COUNT.
#[tactic(auto, unfolding(crate::specs::Fields::flow_at))]
pub(crate) fn flow(n: u32, rest: &[u8]) -> Result<(FlowName, &[u8]), LineError>
    ensures read { Gives (λ x. (x.0, behind x.1.now)) result (flow_at n (behind rest.now)) }
    ensures memory { IfErr result (λ e. e ≢ LineError.Memory) }
    ensures there { OnOk result (0 < length (behind rest.now)) }
{
    let (text, rest) = field(n, rest)?;
    match triple(text) {
        Some((src, tick, count)) => Ok((FlowName { src, tick, count }, rest)),
        None => Err(LineError::BadNumber { n }),
    }
}

#[tactic(auto, unfolding(crate::specs::Fields::kind_of))]
fn kind(word: &[u8]) -> Option<PduKind>
    ensures { result ≡ kind_of word.now }
{
    if is(word, b"data") {
        Some(PduKind::Piece)
    } else if is(word, b"ack") {
        Some(PduKind::Ack)
    } else {
        None
    }
}

/// Reads fields `n` and `n + 1`, the kind of a PDU and SRC.SCEP.SEQ.
#[tactic(auto, unfolding(crate::specs::Fields::key_at))]
pub(crate) fn key(n: u32, rest: &[u8]) -> Result<(Key, &[u8]), LineError>
    requires { n < 1000 }
    ensures read { Gives (λ x. (x.0, behind x.1.now)) result (key_at n (behind rest.now)) }
    ensures memory { IfErr result (λ e. e ≢ LineError.Memory) }
    ensures there { OnOk result (0 < length (behind rest.now)) }
{
    let (word, rest) = field(n, rest)?;
    let Some(kind) = kind(word) else {
        return Err(LineError::BadName { n });
    };
    let (text, rest) = field(n + 1, rest)?;
    match triple(text) {
        Some((src, scep, seq)) => Ok((
            Key {
                kind,
                src,
                scep,
                seq,
            },
            rest,
        )),
        None => Err(LineError::BadNumber { n: n + 1 }),
    }
}

/// Reads the name that a text is, which is part of field `n`.
fn name_of(alloc: Global, n: u32, text: &[u8]) -> Result<Name, LineError>
    ensures { Gives (λ x. x) result (name_or_bad n (name_at text.now)) }
{
    match Name::read(alloc, text) {
        Ok(name) => Ok(name),
        Err(NameError::Memory) => Err(LineError::Memory),
        Err(_) => Err(LineError::BadName { n }),
    }
}

#[tactic(auto, unfolding(crate::specs::Fields::port_of))]
fn port_of(alloc: Global, n: u32, text: &[u8]) -> Result<PortNote, LineError>
    ensures { Gives (λ x. x) result (port_of n text.now) }
{
    let (fac, more) = parts(b'/', text);
    let fac = name_of(alloc, n, fac)?;
    let (node, digits) = parts(b'/', more);
    let node = name_of(alloc, n, node)?;
    match small(digits) {
        Some(port) => Ok(PortNote { fac, node, n: port }),
        None => Err(LineError::BadNumber { n }),
    }
}

/// Reads field `n`, FAC/NODE/N.
#[tactic(auto, unfolding(crate::specs::Fields::port_at))]
pub(crate) fn port<'a>(
    alloc: Global,
    n: u32,
    rest: &'a [u8],
) -> Result<(PortNote, &'a [u8]), LineError>
    ensures read { Gives (λ x. (x.0, behind x.1.now)) result (port_at n (behind rest.now)) }
    ensures memory { IfErr result (λ e. e ≡ LineError.Memory → 0 < length (behind rest.now)) }
{
    let (text, rest) = field(n, rest)?;
    let port = port_of(alloc, n, text)?;
    Ok((port, rest))
}

#[tactic(auto, unfolding(crate::specs::Fields::truth_of))]
fn truth_of(text: &[u8]) -> Option<bool>
    ensures { result ≡ truth_of text.now }
{
    if is(text, b"0") {
        Some(false)
    } else if is(text, b"1") {
        Some(true)
    } else {
        None
    }
}

/// Reads field `n`, 0 or 1.
#[tactic(auto, unfolding(crate::specs::Fields::truth_at))]
pub(crate) fn truth(n: u32, rest: &[u8]) -> Result<(bool, &[u8]), LineError>
    ensures read { Gives (λ x. (x.0, behind x.1.now)) result (truth_at n (behind rest.now)) }
    ensures memory { IfErr result (λ e. e ≢ LineError.Memory) }
{
    let (text, rest) = field(n, rest)?;
    match truth_of(text) {
        Some(truth) => Ok((truth, rest)),
        None => Err(LineError::BadNumber { n }),
    }
}

/// Reads field `n`, a name.
#[tactic(auto, unfolding(crate::specs::Fields::name_field_at))]
pub(crate) fn name<'a>(alloc: Global, n: u32, rest: &'a [u8]) -> Result<(Name, &'a [u8]), LineError>
    ensures read { Gives (λ x. (x.0, behind x.1.now)) result (name_field_at n (behind rest.now)) }
    ensures memory { IfErr result (λ e. e ≡ LineError.Memory → 0 < length (behind rest.now)) }
    ensures there { OnOk result (0 < length (behind rest.now)) }
{
    let (text, rest) = field(n, rest)?;
    let name = name_of(alloc, n, text)?;
    Ok((name, rest))
}

/// Reads field `n`, an application name.
#[tactic(auto, unfolding(crate::specs::Fields::app_field_at))]
pub(crate) fn app<'a>(
    alloc: Global,
    n: u32,
    rest: &'a [u8],
) -> Result<(AppName, &'a [u8]), LineError>
    ensures read { Gives (λ x. (x.0, behind x.1.now)) result (app_field_at n (behind rest.now)) }
    ensures memory { IfErr result (λ e. e ≡ LineError.Memory → 0 < length (behind rest.now)) }
{
    let (text, rest) = field(n, rest)?;
    match AppName::read(alloc, text) {
        Ok(app) => Ok((app, rest)),
        Err(NameError::Memory) => Err(LineError::Memory),
        Err(_) => Err(LineError::BadName { n }),
    }
}

/// Reads field `n`, an object name.
#[tactic(auto, unfolding(crate::specs::Fields::object_at))]
pub(crate) fn object<'a>(
    alloc: Global,
    n: u32,
    rest: &'a [u8],
) -> Result<(ObjectName, &'a [u8]), LineError>
    ensures read { Gives (λ x. (x.0, behind x.1.now)) result (object_at n (behind rest.now)) }
    ensures memory { IfErr result (λ e. e ≡ LineError.Memory → 0 < length (behind rest.now)) }
    ensures there { OnOk result (0 < length (behind rest.now)) }
{
    let (text, rest) = field(n, rest)?;
    match ObjectName::read(alloc, text) {
        Ok(Some(object)) => Ok((object, rest)),
        Ok(None) => Err(LineError::BadName { n }),
        Err(_) => Err(LineError::Memory),
    }
}

/// Reads field `n`, which spells bytes as they are printed.
#[tactic(auto, unfolding(crate::specs::Fields::bytes_at))]
pub(crate) fn bytes<'a>(
    alloc: Global,
    n: u32,
    rest: &'a [u8],
) -> Result<(Bytes, &'a [u8]), LineError>
    ensures read { Gives (λ x. (x.0, behind x.1.now)) result (bytes_at n (behind rest.now)) }
    ensures memory { IfErr result (λ e. e ≡ LineError.Memory → 0 < length (behind rest.now)) }
{
    let (text, rest) = field(n, rest)?;
    let bytes = read_printed(alloc, n, text)?;
    Ok((bytes, rest))
}
