//! The whole table of a stack.
ghost use Rattle.std.specs.Prelude.{◌≡◌, ◌<◌, ◌+◌, codes, length, option_map, ◌≢◌, IfErr};
ghost use Rattle.toml.specs.View.{view};
ghost use Rattle.rina_table.specs.Faults.{Gives};
ghost use Rattle.rina_table.specs.Keys.{items_at};
ghost use Rattle.rina_table.specs.Items.{rounds_of, rounds_or, sketch_at, HasRows};
ghost use Rattle.rina_table.specs.Groups.{items_of};

use crate::error::{StackError, first_dif_item, rule_error};
use crate::fields::name;
use crate::rows::{Row, items_from, rows_of};
use crate::scope::Scope;
use crate::sketch::{Rounds, Sketch, WireSketch};
use crate::value::{require, tables_at};
use rina_base::{Name, Seq};
use rina_plan::DifPlan;
use std::alloc::Global;
use toml::Value;

fn rounds_named(word: &str) -> Option<Rounds>
    ensures { result ≡ rounds_of word.now }
{
    match word {
        "auto" => Some(Rounds::Auto),
        "manual" => Some(Rounds::Manual),
        _ => None,
    }
}

fn rounds(value: Option<&Value>) -> Result<Rounds, StackError>
    ensures read { Gives (λ r. r) result (rounds_or (option_map (λ v. view v.now) value.entry)) }
    ensures memory { IfErr result (λ e. e ≢ StackError.Memory) }
{
    match value {
        None => Ok(Rounds::Auto),
        Some(value) => match value.as_str() {
            Some(word) => require(0, rounds_named(word)),
            None => Err(rule_error(3, 0)),
        },
    }
}

/// The names of nodes; a fault in one belongs to item 0.
impl Row for Name {
    ghost use Rattle.std.specs.Prelude.{IsSome};
    ghost use Rattle.toml.specs.Data.{as_str};
    ghost use Rattle.rina_table.specs.Items.{node_row};

    ghost reads_as = { node_row };

    ghost copies = { λ d. IsSome (as_str d) };

    #[tactic(auto, unfolding(crate::specs::Items::node_row))]
    fn read(
        alloc: Global,
        scope: &Scope<'_>,
        item: usize,
        value: &Value,
    ) -> Result<Name, StackError> {
        match value.as_str() {
            Some(text) => name(alloc, scope, item, text),
            None => Err(rule_error(3, item)),
        }
    }
}

/// The wires and the DIFs of a stack, each an item of its own.
#[tactic(auto, unfolding(crate::specs::Groups::items_of))]
fn read_items(
    alloc: Global,
    scope: &Scope<'_>,
    stack: &Value,
) -> Result<(Seq<WireSketch>, Seq<DifPlan>), StackError>
    ensures read { Gives (λ t. t) result (items_of scope.now (view stack.now)) }
    ensures memory { IfErr result (λ e. e ≡ StackError.Memory → 0 < length (items_at (codes "wire") (view stack.now)) + length (items_at (codes "dif") (view stack.now))) }
{
    let wire_tables = tables_at(0, stack, "wire")?;
    let dif_tables = tables_at(0, stack, "dif")?;
    let first = first_dif_item(wire_tables.len(), dif_tables.len())?;
    let wires = items_from(alloc, scope, 1, wire_tables)?;
    let difs = items_from(alloc, scope, first, dif_tables)?;
    Ok((wires, difs))
}

/// Reads a stack, and tries the rules on single values that the scope names.
#[tactic(auto, using(crate::proofs::Groups::sketch_groups))]
pub fn read_sketch(alloc: Global, scope: &Scope<'_>, stack: &Value) -> Result<Sketch, StackError>
    ensures read { Gives (λ s. s) result (sketch_at scope.now (view stack.now)) }
    // Only rows are copied: a stack without a list of nodes, or without any row, never fails with `Memory`.
    ensures memory { IfErr result (λ e. e ≡ StackError.Memory → HasRows (view stack.now)) }
{
    let nodes = rows_of(alloc, scope, 0, stack, "nodes")?;
    let rounds = rounds(stack.get("rounds"))?;
    let (wires, difs) = read_items(alloc, scope, stack)?;
    Ok(Sketch {
        nodes,
        rounds,
        wires,
        difs,
    })
}
