//! The table of a wire.
ghost use Rattle.std.specs.Prelude.{◌≡◌, codes, option_map, ◌≢◌, IsSome, IfErr};
ghost use Rattle.toml.specs.View.{view};
ghost use Rattle.rina_table.specs.Faults.{Gives, required};
ghost use Rattle.rina_table.specs.Values.{element};
ghost use Rattle.rina_table.specs.Rows.{storm_at, storm_or, wire_end};

use crate::error::{StackError, rule_error};
use crate::fields::{name_of, node, number};
use crate::rows::Row;
use crate::scope::Scope;
use crate::sketch::WireSketch;
use crate::value::{has_more_than_two, text_among};
use rina_base::Storm;
use std::alloc::Global;
use toml::Value;

#[tactic(auto, unfolding(crate::specs::Rows::storm_at))]
fn storm(scope: &Scope<'_>, item: usize, table: &Value) -> Result<Storm, StackError>
    ensures read { Gives (λ s. s) result (storm_at scope.now item (view table.now)) }
    ensures memory { IfErr result (λ e. e ≢ StackError.Memory) }
{
    let seed = number(scope, item, table, "seed", 0, 9_007_199_254_740_991)?;
    let lose = number(scope, item, table, "lose", 0, 1000)?;
    let repeat = number(scope, item, table, "repeat", 0, 1000)?;
    let spread = number(scope, item, table, "spread", 0, 100_000)?;
    Ok(Storm {
        seed,
        lose: lose as u32,
        repeat: repeat as u32,
        spread: spread as u32,
    })
}

fn storm_of(
    scope: &Scope<'_>,
    item: usize,
    table: Option<&Value>,
) -> Result<Option<Storm>, StackError>
    ensures read { Gives (λ s. s) result (storm_or scope.now item (option_map (λ v. view v.now) table.entry)) }
    ensures memory { IfErr result (λ e. e ≢ StackError.Memory) }
{
    match table {
        None => Ok(None),
        Some(table) => {
            let storm = storm(scope, item, table)?;
            Ok(Some(storm))
        }
    }
}

fn end_text(item: usize, table: &Value, at: usize) -> Result<&str, StackError>
    ensures read { Gives (λ t. t.now) result (required item (element at (codes "ends") (view table.now))) }
    ensures memory { IfErr result (λ e. e ≢ StackError.Memory) }
{
    match text_among(table, "ends", at) {
        Some(text) => Ok(text),
        None => Err(rule_error(3, item)),
    }
}

#[tactic(auto, unfolding(crate::specs::Rows::wire_end))]
fn end(
    alloc: Global,
    scope: &Scope<'_>,
    item: usize,
    table: &Value,
    at: usize,
) -> Result<usize, StackError>
    ensures read { Gives (λ n. n) result (wire_end scope.now item (view table.now) at) }
    ensures memory { IfErr result (λ e. e ≡ StackError.Memory → IsSome (element at (codes "ends") (view table.now))) }
{
    let text = end_text(item, table, at)?;
    node(alloc, scope, item, text)
}

impl Row for WireSketch {
    ghost use Rattle.std.specs.Prelude.{codes, IsSome};
    ghost use Rattle.rina_table.specs.Values.{text_at};
    ghost use Rattle.rina_table.specs.Rows.{wire_at};

    ghost reads_as = { wire_at };

    ghost copies = { λ d. IsSome (text_at (codes "name") d) };

    #[tactic(auto, unfolding(crate::specs::Rows::wire_at))]
    fn read(
        alloc: Global,
        scope: &Scope<'_>,
        item: usize,
        table: &Value,
    ) -> Result<WireSketch, StackError> {
        let name = name_of(alloc, scope, item, table, "name")?;
        let a = end(alloc, scope, item, table, 0)?;
        let b = end(alloc, scope, item, table, 1)?;
        if has_more_than_two(table, "ends") {
            return Err(rule_error(3, item));
        }
        let delay = number(scope, item, table, "delay", 1, 100_000)?;
        let life = number(scope, item, table, "life", 1, 100_000)?;
        let largest = number(scope, item, table, "largest", 1, 65_535)?;
        let storm = storm_of(scope, item, table.get("storm"))?;
        Ok(WireSketch {
            name,
            a,
            b,
            delay: delay as u32,
            life: life as u32,
            largest: largest as u32,
            storm,
        })
    }
}
