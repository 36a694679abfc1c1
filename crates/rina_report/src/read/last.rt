//! Reading the last fields of a note.
ghost use Rattle.std.specs.Prelude.{◌<◌, ◌+◌, IfErr, length, ◌≡◌, ◌≢◌};
ghost use Rattle.rina_schedule.specs.Gives.{Gives};
ghost use Rattle.rina_report.specs.Fields.{behind, max32, max64, last_number_at, last_two_at, last_num_at, last_port_at, last_truth_at, last_bytes_at};

use crate::read::field::{ended, long, number};
use crate::read::value::{bytes, num, port, truth};
use crate::state::PortNote;
use rina_base::{Bytes, Num};
use rina_schedule::LineError;
use std::alloc::Global;

/// Reads field `n`, a number of 32 bits, and the end of the note.
#[tactic(auto, unfolding(crate::specs::Fields::last_number_at))]
pub(crate) fn last_number(n: u32, rest: &[u8]) -> Result<u32, LineError>
    requires { n < 1000 }
    ensures read { Gives (λ x. x) result (last_number_at max32 n (behind rest.now)) }
    ensures memory { IfErr result (λ e. e ≢ LineError.Memory) }
{
    let (value, rest) = number(n, rest)?;
    ended(value, n + 1, rest)
}

/// Reads field `n`, a number of 64 bits, and the end of the note.
#[tactic(auto, unfolding(crate::specs::Fields::last_number_at))]
pub(crate) fn last_long(n: u32, rest: &[u8]) -> Result<u64, LineError>
    requires { n < 1000 }
    ensures read { Gives (λ x. x) result (last_number_at max64 n (behind rest.now)) }
    ensures memory { IfErr result (λ e. e ≢ LineError.Memory) }
{
    let (value, rest) = long(n, rest)?;
    ended(value, n + 1, rest)
}

/// Reads fields `n` and `n + 1`, numbers of 32 bits, and the end of the note.
#[tactic(auto, unfolding(crate::specs::Fields::last_two_at))]
pub(crate) fn last_two(n: u32, rest: &[u8]) -> Result<(u32, u32), LineError>
    requires { n < 900 }
    ensures read { Gives (λ x. (x.0, x.1)) result (last_two_at max32 n (behind rest.now)) }
    ensures memory { IfErr result (λ e. e ≢ LineError.Memory) }
{
    let (first, rest) = number(n, rest)?;
    let second = last_number(n + 1, rest)?;
    Ok((first, second))
}

/// Reads field `n`, a number of 64 bits, the next one, a number of 32 bits, and the end of the note.
#[tactic(auto, unfolding(crate::specs::Fields::last_two_at))]
pub(crate) fn last_long_and_number(n: u32, rest: &[u8]) -> Result<(u64, u32), LineError>
    requires { n < 900 }
    ensures read { Gives (λ x. (x.0, x.1)) result (last_two_at max64 n (behind rest.now)) }
    ensures memory { IfErr result (λ e. e ≢ LineError.Memory) }
{
    let (first, rest) = long(n, rest)?;
    let second = last_number(n + 1, rest)?;
    Ok((first, second))
}

/// Reads field `n`, CEP.SEQ, and the end of the note.
#[tactic(auto, unfolding(crate::specs::Fields::last_num_at))]
pub(crate) fn last_num(n: u32, rest: &[u8]) -> Result<Num, LineError>
    requires { n < 1000 }
    ensures read { Gives (λ x. x) result (last_num_at n (behind rest.now)) }
    ensures memory { IfErr result (λ e. e ≢ LineError.Memory) }
{
    let (value, rest) = num(n, rest)?;
    ended(value, n + 1, rest)
}

/// Reads field `n`, FAC/NODE/N, and the end of the note.
#[tactic(auto, unfolding(crate::specs::Fields::last_port_at))]
pub(crate) fn last_port(alloc: Global, n: u32, rest: &[u8]) -> Result<PortNote, LineError>
    requires { n < 1000 }
    ensures read { Gives (λ x. x) result (last_port_at n (behind rest.now)) }
    ensures memory { IfErr result (λ e. e ≡ LineError.Memory → 0 < length (behind rest.now)) }
{
    let (value, rest) = port(alloc, n, rest)?;
    ended(value, n + 1, rest)
}

/// Reads field `n`, 0 or 1, and the end of the note.
#[tactic(auto, unfolding(crate::specs::Fields::last_truth_at))]
pub(crate) fn last_truth(n: u32, rest: &[u8]) -> Result<bool, LineError>
    requires { n < 1000 }
    ensures read { Gives (λ x. x) result (last_truth_at n (behind rest.now)) }
    ensures memory { IfErr result (λ e. e ≢ LineError.Memory) }
{
    let (value, rest) = truth(n, rest)?;
    ended(value, n + 1, rest)
}

/// Reads field `n`, which spells bytes, and the end of the note.
#[tactic(auto, unfolding(crate::specs::Fields::last_bytes_at))]
pub(crate) fn last_bytes(alloc: Global, n: u32, rest: &[u8]) -> Result<Bytes, LineError>
    requires { n < 1000 }
    ensures read { Gives (λ x. x) result (last_bytes_at n (behind rest.now)) }
    ensures memory { IfErr result (λ e. e ≡ LineError.Memory → 0 < length (behind rest.now)) }
{
    let (value, rest) = bytes(alloc, n, rest)?;
    ended(value, n + 1, rest)
}
