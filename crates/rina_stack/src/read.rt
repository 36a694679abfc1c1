//! A stack is read from a text, rule by rule.
ghost use Rattle.std.specs.Prelude.{◌≡◌, ◌<◌, ◌^◌, ◌↔◌, All, Ok, None, IfOk, IfErr, IsOk, map};
ghost use Rattle.toml.specs.View.{view};
ghost use Rattle.toml.specs.Errors.{IsMemory};
ghost use Rattle.rina_table.specs.declared.sketch.WireSketch.{WireSketch};
ghost use Rattle.rina_table.specs.Faults.{Gives};
ghost use Rattle.rina_table.specs.Keys.{keys_fault};
ghost use Rattle.rina_stack.specs.Stack.{narrow, plan_of, unknown_item, resolved_at, stack_at, Reads};
ghost use Rattle.rina_stack.specs.Plan.{IsPlan};

use crate::duplicates::named_twice;
use crate::order::check_rules;
use crate::plan::{Plan, WirePlan};
use crate::policies::{Policies, first_unknown};
use crate::references::{read_resolved, read_unresolved};
use rina_base::{Memory, Seq};
use rina_table::{Sketch, StackError, WireSketch, check, first_dif_item, key_fault};
use std::alloc::Global;
use toml::Value;

/// The item of the first DIF whose policy does not exist.
fn unknown_of<P: Policies>(policies: &P, named: &Sketch) -> Result<Option<usize>, StackError>
    ensures read { Gives (λ f. f) result (Ok (unknown_item (P.knows policies.now) named.now)) }
    ensures counted { IsOk result }
{
    let difs = named.difs.as_slice();
    let first = first_dif_item(named.wires.as_slice().len(), difs.len())?;
    match first_unknown(policies, difs) {
        Some(at) => Ok(Some(first + at)),
        None => Ok(None),
    }
}

/// The stack with its references resolved among the names that it has.
#[tactic(auto, unfolding(crate::specs::Stack::resolved_at))]
fn resolved<P: Policies>(
    alloc: Global,
    policies: &P,
    named: &Sketch,
    stack: &Value,
) -> Result<Sketch, StackError>
    ensures { Gives (λ s. s) result (resolved_at (P.knows policies.now) named.now (view stack.now)) }
{
    let unknown = unknown_of(policies, named)?;
    read_resolved(alloc, named, unknown, stack)
}

fn narrow(alloc: Global, wire: &WireSketch) -> Result<WirePlan, Memory>
    requires a { wire.now.a < 2 ^ 16 }
    requires b { wire.now.b < 2 ^ 16 }
    ensures { IfOk result (λ w. w ≡ narrow wire.now) }
{
    Ok(WirePlan {
        name: wire.name.copy(alloc)?,
        a: wire.a as u16,
        b: wire.b as u16,
        delay: wire.delay,
        life: wire.life,
        largest: wire.largest,
        storm: wire.storm,
    })
}

fn narrowed(alloc: Global, wires: &[WireSketch]) -> Result<Seq<WirePlan>, Memory>
    requires { All (λ (w : WireSketch). (w.a < 2 ^ 16) × (w.b < 2 ^ 16)) wires.now }
    ensures { IfOk result (λ ws. ws ≡ map narrow wires.now) }
{
    let mut plans = Seq::new(alloc);
    'wires: for wire in wires {
        plans.push(narrow(alloc, wire)?)?;
    }
    Ok(plans)
}

/// The plan of a stack that breaks no rule.
fn plan(alloc: Global, sketch: Sketch) -> Result<Plan, Memory>
    requires { All (λ (w : WireSketch). (w.a < 2 ^ 16) × (w.b < 2 ^ 16)) sketch.wires }
    ensures { IfOk result (λ p. p ≡ plan_of sketch) }
{
    let wires = narrowed(alloc, sketch.wires.as_slice())?;
    Ok(Plan {
        nodes: sketch.nodes,
        rounds: sketch.rounds,
        wires,
        difs: sketch.difs,
    })
}

/// The stack of a table, or the first rule that it breaks. A key that is not listed is told also where memory ran out.
#[tactic(auto, unfolding(crate::specs::Stack::stack_at))]
fn stack_of<P: Policies>(alloc: Global, policies: &P, stack: &Value) -> Result<Plan, StackError>
    ensures read { Gives (λ p. p) result (stack_at (P.knows policies.now) (view stack.now)) }
    ensures memory { IfErr result (λ e. e ≡ StackError.Memory → keys_fault (view stack.now) ≡ None) }
{
    let unlisted = key_fault(stack)?;
    check(2, unlisted)?;
    read_unresolved(alloc, 3, stack)?;
    let named = read_unresolved(alloc, 4, stack)?;
    let duplicate = named_twice(alloc, &named)?;
    check(5, duplicate)?;
    read_unresolved(alloc, 6, stack)?;
    let sketch = resolved(alloc, policies, &named, stack)?;
    check_rules(alloc, &sketch)?;
    Ok(plan(alloc, sketch)?)
}

/// Why a text was not read as TOML: memory ran out, or it is none.
fn unread(error: &toml::de::Error) -> StackError
    ensures memory { (result ≡ StackError.Memory) ↔ IsMemory error.now }
    ensures other { (result ≡ StackError.NotToml) ↔ ¬ (IsMemory error.now) }
{
    if error.is_memory() {
        StackError::Memory
    } else {
        StackError::NotToml
    }
}

/// The stack that a text describes, or the first rule that it breaks.
pub fn read_stack<P: Policies>(alloc: Global, text: &[u8], policies: &P) -> Result<Plan, StackError>
    ensures reads { Reads (P.knows policies.now) result text.now }
    ensures plan { IfOk result IsPlan }
{
    match toml::table_from_slice(alloc, text) {
        Ok(table) => stack_of(alloc, policies, &Value::Table(table)),
        Err(error) => Err(unread(&error)),
    }
}
