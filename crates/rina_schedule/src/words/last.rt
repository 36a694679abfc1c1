//! Reading the last fields of a line. Each function reads from field `n` on, and checks that the line ends there.
ghost use Rattle.std.specs.Prelude.{◌≡◌, ◌≢◌, ◌<◌, IfErr, IsOk};
ghost use Rattle.rina_schedule.specs.Gives.{Gives};
ghost use Rattle.rina_schedule.specs.Fields.{field_at};
ghost use Rattle.rina_schedule.specs.Shared.{last_name_at, last_number_at, last_numbers_at, last_bytes_at};

use crate::error::LineError;
use crate::field::{bytes, end, name, number};
use rina_base::{Bytes, Name};
use std::alloc::Global;

/// Reads a name.
#[tactic(auto, unfolding(crate::specs::Shared::last_name_at))]
pub(crate) fn last_name(alloc: Global, n: u32, text: &[u8]) -> Result<Name, LineError>
    requires { n < 100 }
    ensures read { Gives (λ x. x) result (last_name_at n text.now) }
    ensures memory { IfErr result (λ e. e ≡ LineError.Memory → IsOk (field_at n text.now)) }
{
    let (name, text) = name(alloc, n, text)?;
    end(n + 1, text)?;
    Ok(name)
}

/// Reads a number.
#[tactic(auto, unfolding(crate::specs::Shared::last_number_at))]
pub(crate) fn last_number(n: u32, text: &[u8]) -> Result<u32, LineError>
    requires { n < 100 }
    ensures read { Gives (λ x. x) result (last_number_at n text.now) }
    ensures memory { IfErr result (λ e. e ≢ LineError.Memory) }
{
    let (number, text) = number(n, text)?;
    end(n + 1, text)?;
    Ok(number)
}

/// Reads two numbers.
#[tactic(auto, unfolding(crate::specs::Shared::last_numbers_at))]
pub(crate) fn last_numbers(n: u32, text: &[u8]) -> Result<(u32, u32), LineError>
    requires { n < 99 }
    ensures read { Gives (λ x. x) result (last_numbers_at n text.now) }
    ensures memory { IfErr result (λ e. e ≢ LineError.Memory) }
{
    let (one, text) = number(n, text)?;
    let other = last_number(n + 1, text)?;
    Ok((one, other))
}

/// Reads bytes.
#[tactic(auto, unfolding(crate::specs::Shared::last_bytes_at))]
pub(crate) fn last_bytes(alloc: Global, n: u32, text: &[u8]) -> Result<Bytes, LineError>
    requires { n < 100 }
    ensures read { Gives (λ x. x) result (last_bytes_at n text.now) }
    ensures memory { IfErr result (λ e. e ≡ LineError.Memory → IsOk (field_at n text.now)) }
{
    let (bytes, text) = bytes(alloc, n, text)?;
    end(n + 1, text)?;
    Ok(bytes)
}
