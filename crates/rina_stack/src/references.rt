//! The two ways to read a whole stack.
ghost use Rattle.std.specs.Prelude.{IfOk};
ghost use Rattle.toml.specs.View.{view};
ghost use Rattle.rina_table.specs.Faults.{Gives};
ghost use Rattle.rina_table.specs.Items.{sketch_at};
ghost use Rattle.rina_stack.specs.Scopes.{unresolved_scope, resolved_scope};
ghost use Rattle.rina_stack.specs.Ranges.{IsSoundSketch};

use crate::duplicates::{names_of_difs, names_of_wires, texts_of};
use rina_table::{Places, Scope, Sketch, StackError, read_sketch};
use std::alloc::Global;
use toml::Value;

/// The stack of a table, read with the rules up to `upto`; no reference is resolved.
pub(crate) fn read_unresolved(alloc: Global, upto: u32, stack: &Value) -> Result<Sketch, StackError>
    ensures { Gives (λ s. s) result (sketch_at (unresolved_scope upto) (view stack.now)) }
{
    let scope = Scope {
        upto,
        nodes: Places::of(alloc, Vec::new(alloc))?,
        wires: Places::of(alloc, Vec::new(alloc))?,
        difs: Places::of(alloc, Vec::new(alloc))?,
        unknown: None,
    };
    read_sketch(alloc, &scope, stack)
}

/// The stack of a table with its references, which are looked up among the names of `named`. `unknown` is
/// the item of the first DIF whose policy does not exist.
#[tactic(auto, using(crate::proofs::Reading::sound_where_read))]
pub(crate) fn read_resolved(
    alloc: Global,
    named: &Sketch,
    unknown: Option<usize>,
    stack: &Value,
) -> Result<Sketch, StackError>
    ensures reads { Gives (λ s. s) result (sketch_at (resolved_scope named.now unknown) (view stack.now)) }
    ensures sound { IfOk result (IsSoundSketch named.now) }
{
    let nodes = texts_of(alloc, named.nodes.as_slice())?;
    let wires = names_of_wires(alloc, named.wires.as_slice())?;
    let difs = names_of_difs(alloc, named.difs.as_slice())?;
    let scope = Scope {
        upto: 7,
        nodes: Places::of(alloc, nodes)?,
        wires: Places::of(alloc, wires)?,
        difs: Places::of(alloc, difs)?,
        unknown,
    };
    read_sketch(alloc, &scope, stack)
}
