//! Lists of tables, each table read by itself.
ghost use Rattle.std.specs.Prelude.{◌≡◌, ◌<◌, ◌+◌, ◌^◌, ℕ, map, length, Result, IsSome, IfErr, OnOk};
ghost use Rattle.toml.specs.View.{view};
ghost use Rattle.toml.specs.Data.{Data};
ghost use Rattle.rina_base.specs.Traverse.{traverse};
ghost use Rattle.rina_table.specs.declared.error.StackError.{StackError};
ghost use Rattle.rina_table.specs.declared.scope.Scope.{Scope};
ghost use Rattle.rina_table.specs.Faults.{Gives};
ghost use Rattle.rina_table.specs.Keys.{items_in, items_at};
ghost use Rattle.rina_table.specs.Values.{rows, rows_in, rows_or};

use crate::error::StackError;
use crate::scope::Scope;
use crate::value::{items, items_or_none};
use rina_base::Seq;
use std::alloc::Global;
use toml::Value;

/// A type that is read from one table of a list.
pub(crate) trait Row: Drop {
    ghost reads_as: { Scope → ℕ → Data → Result Self StackError };

    /// What stands in a table that is copied. Nothing else takes memory.
    ghost copies: { Data → Type 0 };

    /// Reads a table that belongs to an item.
    fn read(
        alloc: Global,
        scope: &Scope<'_>,
        item: usize,
        table: &Value,
    ) -> Result<Self, StackError>
        ensures read { Gives (λ t. t) result (reads_as scope.now item (view table.now)) }
        ensures memory { IfErr result (λ e. e ≡ StackError.Memory → copies (view table.now)) };
}

/// The rows of one item.
fn all_of<T: Row>(
    alloc: Global,
    scope: &Scope<'_>,
    item: usize,
    values: &[Value],
) -> Result<Seq<T>, StackError>
    ensures read { Gives (λ t. t) result (rows (T.reads_as scope.now item) (map view values.now)) }
    ensures memory { IfErr result (λ e. e ≡ StackError.Memory → 0 < length values.now) }
{
    let mut read = Seq::new(alloc);
    'values: for value in values {
        let row = T::read(alloc, scope, item, value)?;
        read.push(row)?;
    }
    Ok(read)
}

/// Rows that are items of their own; the first one is item `first`.
pub(crate) fn items_from<T: Row>(
    alloc: Global,
    scope: &Scope<'_>,
    first: usize,
    values: &[Value],
) -> Result<Seq<T>, StackError>
    requires { first + length values.now < 2 ^ 64 }
    ensures read { Gives (λ t. t) result (traverse (T.reads_as scope.now) first (map view values.now)) }
    ensures memory { IfErr result (λ e. e ≡ StackError.Memory → 0 < length values.now) }
{
    let mut read = Seq::new(alloc);
    let mut at = first;
    'values: for value in values {
        let row = T::read(alloc, scope, at, value)?;
        read.push(row)?;
        at += 1;
    }
    Ok(read)
}

/// The rows of the list at a key of an item.
#[tactic(auto, unfolding(crate::specs::Values::rows_in))]
pub(crate) fn rows_of<T: Row>(
    alloc: Global,
    scope: &Scope<'_>,
    item: usize,
    table: &Value,
    key: &str,
) -> Result<Seq<T>, StackError>
    ensures read { Gives (λ t. t) result (rows_in (T.reads_as scope.now item) item key.now (view table.now)) }
    ensures memory { IfErr result (λ e. e ≡ StackError.Memory → 0 < length (items_at key.now (view table.now))) }
    ensures there { OnOk result (IsSome (items_in key.now (view table.now))) }
{
    let values = items(item, table, key)?;
    all_of(alloc, scope, item, values)
}

/// The rows of the list at a key of an item, none where there is no such key.
#[tactic(auto, unfolding(crate::specs::Values::rows_or))]
pub(crate) fn rows_or_none<T: Row>(
    alloc: Global,
    scope: &Scope<'_>,
    item: usize,
    table: &Value,
    key: &str,
) -> Result<Seq<T>, StackError>
    ensures read { Gives (λ t. t) result (rows_or (T.reads_as scope.now item) item key.now (view table.now)) }
    ensures memory { IfErr result (λ e. e ≡ StackError.Memory → 0 < length (items_at key.now (view table.now))) }
{
    let values = items_or_none(item, table, key)?;
    all_of(alloc, scope, item, values)
}
