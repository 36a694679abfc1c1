//! What stands at the keys of a table, each value of its type (rule 3).
ghost use Rattle.std.specs.Prelude.{◌≡◌, Ok, pos, map, option_map, ◌≢◌, IfErr};
ghost use Rattle.std.specs.List.{list_all};
ghost use Rattle.toml.specs.View.{view};
ghost use Rattle.rina_table.specs.Faults.{Gives, required};
ghost use Rattle.rina_table.specs.Keys.{list_of, items_in, items_at};
ghost use Rattle.rina_table.specs.Values.{text_at, text_in, integer_at, integer_in, integer_or, truth_or, truth_in, items_or, element, has_third, is_table, tables_of, tables_in};
ghost use Rattle.toml.specs.Data.{get, as_array};

use crate::error::{StackError, rule_error};
use toml::Value;

/// A value that rule 3 requires.
pub(crate) fn require<T>(item: usize, found: Option<T>) -> Result<T, StackError>
    ensures read { Gives (λ t. t) result (required item found) }
    ensures memory { IfErr result (λ e. e ≢ StackError.Memory) }
{
    match found {
        Some(found) => Ok(found),
        None => Err(rule_error(3, item)),
    }
}

/// The text at a key.
pub(crate) fn text<'a>(table: &'a Value, key: &str) -> Option<&'a str>
    ensures { option_map (λ s. s.now) result ≡ text_at key.now (view table.now) }
{
    table.get(key)?.as_str()
}

/// The text at a key of an item.
pub(crate) fn text_of<'a>(item: usize, table: &'a Value, key: &str) -> Result<&'a str, StackError>
    ensures read { Gives (λ t. t.now) result (text_in item key.now (view table.now)) }
    ensures memory { IfErr result (λ e. e ≢ StackError.Memory) }
{
    match text(table, key) {
        Some(text) => Ok(text),
        None => Err(rule_error(3, item)),
    }
}

fn integer(table: &Value, key: &str) -> Option<i64>
    ensures { result ≡ integer_at key.now (view table.now) }
{
    table.get(key)?.as_integer()
}

/// The integer at a key of an item.
pub(crate) fn integer_of(item: usize, table: &Value, key: &str) -> Result<i64, StackError>
    ensures read { Gives (λ t. t) result (integer_in item key.now (view table.now)) }
    ensures memory { IfErr result (λ e. e ≢ StackError.Memory) }
{
    require(item, integer(table, key))
}

/// The integer at a key of an item, or a default where there is no such key.
pub(crate) fn integer_or_else(
    item: usize,
    default: u32,
    table: &Value,
    key: &str,
) -> Result<i64, StackError>
    ensures read { Gives (λ t. t) result (integer_or item (pos default) (get key.now (view table.now))) }
    ensures memory { IfErr result (λ e. e ≢ StackError.Memory) }
{
    match table.get(key) {
        None => Ok(i64::from(default)),
        Some(value) => require(item, value.as_integer()),
    }
}

/// The truth value at a key of an item, or a default where there is no such key.
pub(crate) fn truth_or_else(
    item: usize,
    default: bool,
    table: &Value,
    key: &str,
) -> Result<bool, StackError>
    ensures read { Gives (λ t. t) result (truth_or item default (get key.now (view table.now))) }
    ensures memory { IfErr result (λ e. e ≢ StackError.Memory) }
{
    match table.get(key) {
        None => Ok(default),
        Some(value) => require(item, value.as_bool()),
    }
}

/// The truth value at a key of an item.
pub(crate) fn truth_of(item: usize, table: &Value, key: &str) -> Result<bool, StackError>
    ensures read { Gives (λ t. t) result (truth_in item key.now (view table.now)) }
    ensures memory { IfErr result (λ e. e ≢ StackError.Memory) }
{
    match table.get(key) {
        None => Err(rule_error(3, item)),
        Some(value) => require(item, value.as_bool()),
    }
}

/// What stands at a key of an item.
pub(crate) fn value_of<'a>(
    item: usize,
    table: &'a Value,
    key: &str,
) -> Result<&'a Value, StackError>
    ensures read { Gives (λ v. view v.now) result (required item (get key.now (view table.now))) }
    ensures memory { IfErr result (λ e. e ≢ StackError.Memory) }
{
    match table.get(key) {
        Some(value) => Ok(value),
        None => Err(rule_error(3, item)),
    }
}

/// The text that stands in the list at a key, at a place.
pub(crate) fn text_among<'a>(table: &'a Value, key: &str, at: usize) -> Option<&'a str>
    ensures { option_map (λ s. s.now) result ≡ element at key.now (view table.now) }
{
    table.get(key)?.get(at)?.as_str()
}

/// Whether the list at a key has more than two elements.
pub(crate) fn has_more_than_two(table: &Value, key: &str) -> bool
    ensures { result ≡ has_third key.now (view table.now) }
{
    match table.get(key) {
        Some(list) => list.get(2usize).is_some(),
        None => false,
    }
}

/// The elements of an array.
#[tactic(auto, using(crate::proofs::Tables::list_of_view))]
fn elements(value: &Value) -> Option<&[Value]>
    ensures { option_map (λ s. map view s.now) result ≡ option_map list_of (as_array (view value.now)) }
{
    Some(value.as_array()?.as_slice())
}

#[tactic(auto, using(crate::proofs::Tables::list_of_view))]
fn elements_at<'a>(table: &'a Value, key: &str) -> Option<&'a [Value]>
    ensures { option_map (λ s. map view s.now) result ≡ items_in key.now (view table.now) }
{
    elements(table.get(key)?)
}

/// The elements of the array at a key, none where there is no array.
pub fn items_at<'a>(table: &'a Value, key: &str) -> &'a [Value]
    ensures { map view result.now ≡ items_at key.now (view table.now) }
{
    match elements_at(table, key) {
        Some(values) => values,
        None => &[],
    }
}

/// The elements of the list at a key of an item.
pub(crate) fn items<'a>(item: usize, table: &'a Value, key: &str) -> Result<&'a [Value], StackError>
    ensures read { Gives (λ s. map view s.now) result (required item (items_in key.now (view table.now))) }
    ensures memory { IfErr result (λ e. e ≢ StackError.Memory) }
{
    match elements_at(table, key) {
        Some(values) => Ok(values),
        None => Err(rule_error(3, item)),
    }
}

/// The elements of the list at a key of an item, none where there is no such key.
pub(crate) fn items_or_none<'a>(
    item: usize,
    table: &'a Value,
    key: &str,
) -> Result<&'a [Value], StackError>
    ensures read { Gives (λ s. map view s.now) result (items_or item (get key.now (view table.now))) }
    ensures memory { IfErr result (λ e. e ≢ StackError.Memory) }
{
    match table.get(key) {
        None => Ok(&[]),
        Some(value) => match elements(value) {
            Some(values) => Ok(values),
            None => Err(rule_error(3, item)),
        },
    }
}

#[tactic(auto, using(std::proofs::lemmas::List::drop_more))]
fn are_tables_here(values: &[Value]) -> bool
    ensures { result ≡ list_all (λ v. is_table (view v)) values.now }
{
    'values: for value in values {
        if !value.is_table() {
            return false;
        }
    }
    true
}

fn are_tables(values: &[Value]) -> bool
    ensures { result ≡ list_all is_table (map view values.now) }
{
    are_tables_here(values)
}

/// The elements of a list of tables.
fn tables(value: &Value) -> Option<&[Value]>
    ensures { option_map (λ s. map view s.now) result ≡ tables_of (view value.now) }
{
    let values = elements(value)?;
    if are_tables(values) {
        Some(values)
    } else {
        None
    }
}

/// The list of tables at a key of an item, empty where there is no such key.
pub(crate) fn tables_at<'a>(
    item: usize,
    table: &'a Value,
    key: &str,
) -> Result<&'a [Value], StackError>
    ensures read { Gives (λ s. map view s.now) result (tables_in item key.now (view table.now)) }
    ensures memory { IfErr result (λ e. e ≢ StackError.Memory) }
{
    match table.get(key) {
        None => Ok(&[]),
        Some(value) => match tables(value) {
            Some(values) => Ok(values),
            None => Err(rule_error(3, item)),
        },
    }
}
