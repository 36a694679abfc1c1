//! Names, numbers and references at the keys of a table (rules 4, 6 and 7).
ghost use Rattle.std.specs.Prelude.{◌≡◌, ◌≤◌, ◌<◌, ◌^◌, false, Ok, codes, IsSome, IfOk, IfSome, ◌≢◌, IfErr, OnOk};
ghost use Rattle.std.specs.Str.{bytes_eq};
ghost use Rattle.std.specs.Result.{result_ok};
ghost use Rattle.rina_base.specs.Names.{app_at};
ghost use Rattle.toml.specs.View.{view};
ghost use Rattle.rina_table.specs.Faults.{Gives, required_by};
ghost use Rattle.rina_table.specs.Values.{text_at};
ghost use Rattle.rina_table.specs.Names.{as_name, as_subject, lower_named};
ghost use Rattle.rina_table.specs.Fields.{named, name_in, subject_in, is_between, as_number, ranged, number_in, number_or, as_width, width_in, node_named, node_in, lower_in};

use crate::error::{StackError, rule_error};
use crate::scope::{Places, Scope};
use crate::value::{integer_of, integer_or_else, text_of};
use rina_access::Subject;
use rina_base::{AppName, Name, NameError};
use rina_plan::Lower;
use std::alloc::Global;
use toml::Value;

/// What rule `n` requires; where only earlier rules are tried, `instead` is read in its place.
fn require_by<T: Drop>(
    scope: &Scope<'_>,
    n: u32,
    item: usize,
    instead: T,
    found: Option<T>,
) -> Result<T, StackError>
    ensures read { Gives (λ t. t) result (required_by scope.now.upto n item instead found) }
    ensures memory { IfErr result (λ e. e ≢ StackError.Memory) }
{
    match found {
        Some(found) => Ok(found),
        None => {
            if scope.upto < n {
                Ok(instead)
            } else {
                Err(rule_error(n, item))
            }
        }
    }
}

fn read_name(alloc: Global, text: &[u8]) -> Result<Option<Name>, StackError>
    ensures { Gives (λ n. n) result (Ok (as_name text.now)) }
{
    match Name::read(alloc, text) {
        Ok(name) => Ok(Some(name)),
        Err(NameError::Memory) => Err(StackError::Memory),
        Err(_) => Ok(None),
    }
}

fn placeholder(alloc: Global) -> Result<Name, StackError>
    ensures { Gives (λ n. n) result (Ok (codes "-")) }
{
    match Name::read(alloc, b"-") {
        Ok(name) => Ok(name),
        Err(_) => Err(StackError::Memory),
    }
}

/// A text as a name (rule 4).
#[tactic(auto, unfolding(crate::specs::Fields::named))]
pub(crate) fn name(
    alloc: Global,
    scope: &Scope<'_>,
    item: usize,
    text: &str,
) -> Result<Name, StackError>
    ensures { Gives (λ n. n) result (named scope.now item text.now) }
{
    match read_name(alloc, text.as_bytes())? {
        Some(name) => Ok(name),
        None => {
            if scope.upto < 4 {
                placeholder(alloc)
            } else {
                Err(rule_error(4, item))
            }
        }
    }
}

/// The name at a key of an item (rule 4).
#[tactic(auto, unfolding(crate::specs::Fields::name_in))]
pub(crate) fn name_of(
    alloc: Global,
    scope: &Scope<'_>,
    item: usize,
    table: &Value,
    key: &str,
) -> Result<Name, StackError>
    ensures read { Gives (λ n. n) result (name_in scope.now item key.now (view table.now)) }
    ensures memory { IfErr result (λ e. e ≡ StackError.Memory → IsSome (text_at key.now (view table.now))) }
    ensures there { OnOk result (IsSome (text_at key.now (view table.now))) }
{
    let text = text_of(item, table, key)?;
    name(alloc, scope, item, text)
}

fn read_app(alloc: Global, text: &[u8]) -> Result<Option<AppName>, StackError>
    ensures { Gives (λ n. n) result (Ok (result_ok (app_at text.now))) }
{
    match AppName::read(alloc, text) {
        Ok(name) => Ok(Some(name)),
        Err(NameError::Memory) => Err(StackError::Memory),
        Err(_) => Ok(None),
    }
}

/// The subject of an access rule: `*`, or the name of an application.
#[tactic(auto, unfolding(crate::specs::Names::as_subject))]
fn subject(alloc: Global, text: &str) -> Result<Option<Subject>, StackError>
    ensures read { Gives (λ s. s) result (Ok (as_subject text.now)) }
    ensures memory { IfErr result (λ e. e ≡ StackError.Memory → bytes_eq text.now (codes "*") ≡ false) }
{
    if text == "*" {
        return Ok(Some(Subject::All));
    }
    match read_app(alloc, text.as_bytes())? {
        Some(name) => Ok(Some(Subject::App(name))),
        None => Ok(None),
    }
}

/// The subject of an access rule at a key of an item (rule 4).
#[tactic(auto, unfolding(crate::specs::Fields::subject_in))]
pub(crate) fn subject_of(
    alloc: Global,
    scope: &Scope<'_>,
    item: usize,
    table: &Value,
    key: &str,
) -> Result<Subject, StackError>
    ensures read { Gives (λ s. s) result (subject_in scope.now item key.now (view table.now)) }
    ensures memory { IfErr result (λ e. e ≡ StackError.Memory → IsSome (text_at key.now (view table.now))) }
    ensures there { OnOk result (IsSome (text_at key.now (view table.now))) }
{
    let text = text_of(item, table, key)?;
    let subject = subject(alloc, text)?;
    require_by(scope, 4, item, Subject::All, subject)
}

fn is_in_range(least: i64, most: i64, number: i64) -> bool
    ensures { result ≡ is_between least most number }
{
    least <= number && number <= most
}

/// A number, where it is in range.
#[tactic(auto, unfolding(crate::specs::Fields::as_number))]
fn number_between(least: u32, most: u64, number: i64) -> Option<u64>
    requires { most < 2 ^ 63 }
    ensures number { result ≡ as_number least most number }
    ensures within { IfSome result (λ n. n ≤ most) }
{
    if is_in_range(i64::from(least), most as i64, number) {
        Some(number as u64)
    } else {
        None
    }
}

/// A number from `least` to `most` (rule 6).
#[tactic(auto, unfolding(crate::specs::Fields::ranged))]
fn ranged(
    scope: &Scope<'_>,
    item: usize,
    least: u32,
    most: u64,
    number: i64,
) -> Result<u64, StackError>
    requires small { most < 2 ^ 63 }
    requires order { least ≤ most }
    ensures gives { Gives (λ n. n) result (ranged scope.now item least most number) }
    ensures within { IfOk result (λ n. n ≤ most) }
    ensures memory { IfErr result (λ e. e ≢ StackError.Memory) }
{
    match number_between(least, most, number) {
        Some(number) => Ok(number),
        None => {
            if scope.upto < 6 {
                Ok(u64::from(least))
            } else {
                Err(rule_error(6, item))
            }
        }
    }
}

/// The number at a key of an item, from `least` to `most` (rule 6).
#[tactic(auto, unfolding(crate::specs::Fields::number_in))]
pub(crate) fn number(
    scope: &Scope<'_>,
    item: usize,
    table: &Value,
    key: &str,
    least: u32,
    most: u64,
) -> Result<u64, StackError>
    requires small { most < 2 ^ 63 }
    requires order { least ≤ most }
    ensures gives { Gives (λ n. n) result (number_in scope.now item key.now (view table.now) least most) }
    ensures within { IfOk result (λ n. n ≤ most) }
    ensures memory { IfErr result (λ e. e ≢ StackError.Memory) }
{
    let number = integer_of(item, table, key)?;
    ranged(scope, item, least, most, number)
}

/// The number at a key of an item, and `least` where there is no such key.
#[tactic(auto, unfolding(crate::specs::Fields::number_or))]
pub(crate) fn number_or_else(
    scope: &Scope<'_>,
    item: usize,
    table: &Value,
    key: &str,
    least: u32,
    most: u64,
) -> Result<u64, StackError>
    requires small { most < 2 ^ 63 }
    requires order { least ≤ most }
    ensures gives { Gives (λ n. n) result (number_or scope.now item key.now (view table.now) least most) }
    ensures within { IfOk result (λ n. n ≤ most) }
    ensures memory { IfErr result (λ e. e ≢ StackError.Memory) }
{
    let number = integer_or_else(item, least, table, key)?;
    ranged(scope, item, least, most, number)
}

fn width(number: u64) -> Option<u8>
    requires { number ≤ 4 }
    ensures { result ≡ as_width number }
{
    match number {
        1 => Some(1),
        2 => Some(2),
        4 => Some(4),
        _ => None,
    }
}

/// The width of a field at a key of an item: 1, 2 or 4 bytes (rule 6).
#[tactic(auto, unfolding(crate::specs::Fields::width_in))]
pub(crate) fn width_of(
    scope: &Scope<'_>,
    item: usize,
    table: &Value,
    key: &str,
) -> Result<u8, StackError>
    ensures read { Gives (λ n. n) result (width_in scope.now item key.now (view table.now)) }
    ensures memory { IfErr result (λ e. e ≢ StackError.Memory) }
{
    let number = number(scope, item, table, key, 1, 4)?;
    require_by(scope, 6, item, 1u8, width(number))
}

/// The place of the node that a text names (rule 7).
#[tactic(auto, unfolding(crate::specs::Fields::node_named))]
pub(crate) fn node(
    alloc: Global,
    scope: &Scope<'_>,
    item: usize,
    text: &str,
) -> Result<usize, StackError>
    ensures { Gives (λ n. n) result (node_named scope.now item text.now) }
{
    let name = name(alloc, scope, item, text)?;
    require_by(scope, 7, item, 0usize, scope.nodes.find(name.as_bytes()))
}

/// The place of the node that is named at a key of an item (rule 7).
#[tactic(auto, unfolding(crate::specs::Fields::node_in))]
pub(crate) fn node_of(
    alloc: Global,
    scope: &Scope<'_>,
    item: usize,
    table: &Value,
    key: &str,
) -> Result<usize, StackError>
    ensures read { Gives (λ n. n) result (node_in scope.now item key.now (view table.now)) }
    ensures memory { IfErr result (λ e. e ≡ StackError.Memory → IsSome (text_at key.now (view table.now))) }
    ensures there { OnOk result (IsSome (text_at key.now (view table.now))) }
{
    let text = text_of(item, table, key)?;
    node(alloc, scope, item, text)
}

#[tactic(auto, unfolding(crate::specs::Names::lower_named))]
fn lower(wires: &Places<'_>, difs: &Places<'_>, name: &[u8]) -> Option<Lower>
    ensures { result ≡ lower_named wires.now difs.now name.now }
{
    match wires.find(name) {
        Some(wire) => Some(Lower::Wire(wire)),
        None => Some(Lower::Dif(difs.find(name)?)),
    }
}

/// The wire or DIF that is named at a key of an item (rule 7).
#[tactic(auto, unfolding(crate::specs::Fields::lower_in))]
pub(crate) fn lower_of(
    alloc: Global,
    scope: &Scope<'_>,
    item: usize,
    table: &Value,
    key: &str,
) -> Result<Lower, StackError>
    ensures read { Gives (λ n. n) result (lower_in scope.now item key.now (view table.now)) }
    ensures memory { IfErr result (λ e. e ≡ StackError.Memory → IsSome (text_at key.now (view table.now))) }
    ensures there { OnOk result (IsSome (text_at key.now (view table.now))) }
{
    let name = name_of(alloc, scope, item, table, key)?;
    let found = lower(&scope.wires, &scope.difs, name.as_bytes());
    require_by(scope, 7, item, Lower::Wire(0), found)
}
