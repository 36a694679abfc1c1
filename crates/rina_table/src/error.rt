//! The errors of reading a stack.
ghost use Rattle.std.specs.Prelude.{◌≡◌, ◌+◌, ◌<◌, ◌^◌, Ok, None, IfOk, OnOk, IsOk, ◌-◌, option_map, ◌≢◌, IfErr};
ghost use Rattle.rina_table.specs.Faults.{Gives, rule_error, unless};

use rina_base::Memory;
use std::alloc::AllocError;

/// Why a text describes no stack.
#[derive(Clone, Copy, Debug, PartialEq, Eq)]
pub enum StackError {
    /// Memory ran out.
    Memory,
    /// The text is not TOML.
    NotToml,
    /// Rule `n` is broken, and no rule before it. `item` is the first item that breaks it: 0 for the
    /// top, then 1 for the first wire and so on; places past 4,294,967,295 are given as that.
    StackRule { n: u32, item: u32 },
}

impl From<AllocError> for StackError {
    ghost use Rattle.std.specs.Prelude.{◌≡◌};
    ghost use Rattle.rina_table.specs.declared.error.StackError.TheVariants.{Memory};

    ghost from_gives = { λ _ e. e ≡ Memory };

    fn from(_error: AllocError) -> StackError {
        StackError::Memory
    }
}

impl From<Memory> for StackError {
    ghost use Rattle.std.specs.Prelude.{◌≡◌};
    ghost use Rattle.rina_table.specs.declared.error.StackError.TheVariants.{Memory};

    ghost from_gives = { λ _ e. e ≡ Memory };

    fn from(_error: Memory) -> StackError {
        StackError::Memory
    }
}

/// The error for a rule that is broken at an item.
pub(crate) fn rule_error(n: u32, item: usize) -> StackError
    ensures { result ≡ rule_error n item }
{
    StackError::StackRule {
        n,
        item: item.min(4_294_967_295) as u32,
    }
}

/// The error for rule `n`, where `fault` is the first item that breaks it.
pub fn check(n: u32, fault: Option<usize>) -> Result<(), StackError>
    ensures read { Gives (λ t. t) result (unless n fault) }
    ensures passes { OnOk result (fault ≡ None) }
    ensures memory { IfErr result (λ e. e ≢ StackError.Memory) }
{
    match fault {
        None => Ok(()),
        Some(item) => Err(rule_error(n, item)),
    }
}

/// The item of the first DIF: the top is item 0, wires are items from 1 on, and DIFs follow them. Fails with
/// `Memory` where items cannot be counted.
pub fn first_dif_item(wires: usize, difs: usize) -> Result<usize, StackError>
    ensures place { Gives (λ n. n) result (Ok (1 + wires)) }
    ensures wires { IfOk result (λ _. 1 + wires < 2 ^ 64) }
    ensures room { IfOk result (λ n. n + difs < 2 ^ 64) }
    ensures counted { wires < 2 ^ 63 - 1 → difs < 2 ^ 63 - 1 → IsOk result }
{
    if wires < usize::MAX / 2 && difs < usize::MAX / 2 {
        Ok(1 + wires)
    } else {
        Err(StackError::Memory)
    }
}

/// The error for rule `n`, where `fault` is the place of the first wire that breaks it.
pub fn check_wires(n: u32, fault: Option<usize>) -> Result<(), StackError>
    ensures read { Gives (λ t. t) result (unless n (option_map (λ i. 1 + i) fault)) }
    ensures passes { OnOk result (fault ≡ None) }
    ensures memory { IfErr result (λ e. e ≢ StackError.Memory) }
{
    check_difs(n, 1, fault)
}

/// The error for rule `n`, where `fault` is the place of the first DIF that breaks it. `first` is the item of
/// the first DIF.
pub fn check_difs(n: u32, first: usize, fault: Option<usize>) -> Result<(), StackError>
    ensures read { Gives (λ t. t) result (unless n (option_map (λ i. first + i) fault)) }
    ensures passes { OnOk result (fault ≡ None) }
    ensures memory { IfErr result (λ e. e ≢ StackError.Memory) }
{
    match fault {
        None => Ok(()),
        Some(at) => Err(rule_error(n, first.saturating_add(at))),
    }
}
