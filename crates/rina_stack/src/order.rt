//! The rules from 8 on in their order, over a stack in which names are resolved.
ghost use Rattle.std.specs.Prelude.{◌≡◌, ◌+◌, None, IfOk, IfErr, length, map, option_map, position};
ghost use Rattle.rina_plan.specs.Difs.{lacks_lower};
ghost use Rattle.rina_plan.specs.Links.{is_misused};
ghost use Rattle.rina_plan.specs.Counts.{first_full};
ghost use Rattle.rina_table.specs.Faults.{Gives, unless};
ghost use Rattle.rina_stack.specs.Rules.{first_wire, is_unfit_wire};
ghost use Rattle.rina_stack.specs.Order.{ends_of, alone_at, linked_at, difs_at, rules_at};

use crate::rules::{first_unfit_wire, too_many};
use rina_plan::{
    DifPlan, WireEnds, first_full, first_loaded, first_misplaced, first_mistimed, first_misused,
    first_oversized, first_uncarried, first_unjoined, first_with_unfit_link, first_with_unfit_pdu,
    first_without_cubes, first_without_lower,
};
use rina_table::{Sketch, StackError, WireSketch, check, check_difs, check_wires, first_dif_item};
use std::alloc::{AllocError, Global};

/// What the rules on DIFs read of wires.
fn ends(alloc: Global, wires: &[WireSketch]) -> Result<Vec<WireEnds>, AllocError>
    ensures { IfOk result (λ v. v.items ≡ map ends_of wires.now) }
{
    let mut ends = Vec::new(alloc);
    'wires: for wire in wires {
        ends.push(WireEnds {
            a: wire.a,
            b: wire.b,
            largest: wire.largest,
        })?;
    }
    Ok(ends)
}

/// The rules from 9 to 14. `first` is the item of the first DIF. Rule 9 wants no memory.
#[tactic(auto, unfolding(crate::specs::Order::alone_at))]
fn check_alone(alloc: Global, first: usize, difs: &[DifPlan]) -> Result<(), StackError>
    ensures read { Gives (λ t. t) result (alone_at first difs.now) }
    ensures memory { IfErr result (λ e. e ≡ StackError.Memory → position (lacks_lower difs.now) difs.now ≡ None) }
{
    check_difs(9, first, first_without_lower(difs))?;
    let cubes = first_without_cubes(alloc, difs)?;
    check_difs(10, first, cubes)?;
    check_difs(11, first, first_mistimed(difs))?;
    let members = first_misplaced(alloc, difs)?;
    check_difs(12, first, members)?;
    check_difs(13, first, first_with_unfit_pdu(difs))?;
    check_difs(14, first, first_oversized(difs))
}

/// The rules from 15 to 18, on links and flows. Rule 15 wants no memory.
#[tactic(auto, unfolding(crate::specs::Order::linked_at))]
fn check_linked(
    alloc: Global,
    first: usize,
    wires: &[WireEnds],
    difs: &[DifPlan],
) -> Result<(), StackError>
    ensures read { Gives (λ t. t) result (linked_at first wires.now difs.now) }
    ensures memory { IfErr result (λ e. e ≡ StackError.Memory → position (is_misused difs.now) difs.now ≡ None) }
{
    check_difs(15, first, first_misused(difs))?;
    let loaded = first_loaded(alloc, wires.len(), difs)?;
    check_wires(16, loaded)?;
    check_difs(16, first, first_with_unfit_link(wires, difs))?;
    check_difs(17, first, first_uncarried(wires, difs))?;
    let unjoined = first_unjoined(alloc, difs)?;
    check_difs(18, first, unjoined)
}

/// The rules from 9 to 18.
#[tactic(auto, unfolding(crate::specs::Order::difs_at))]
fn check_all_difs(alloc: Global, sketch: &Sketch) -> Result<(), StackError>
    ensures { Gives (λ t. t) result (difs_at (1 + length sketch.now.wires) (map ends_of sketch.now.wires) sketch.now.difs) }
{
    let difs = sketch.difs.as_slice();
    let first = first_dif_item(sketch.wires.len(), difs.len())?;
    let wires = ends(alloc, sketch.wires.as_slice())?;
    check_alone(alloc, first, difs)?;
    check_linked(alloc, first, wires.as_slice(), difs)
}

/// Rule 19 over the DIFs.
fn check_counts(alloc: Global, sketch: &Sketch) -> Result<(), StackError>
    ensures { Gives (λ t. t) result (unless 19 (option_map (λ i. 1 + length sketch.now.wires + i) (first_full sketch.now.difs))) }
{
    let difs = sketch.difs.as_slice();
    let first = first_dif_item(sketch.wires.len(), difs.len())?;
    let full = first_full(alloc, difs)?;
    check_difs(19, first, full)
}

/// The rules from 8 on. Rule 8 wants no memory.
#[tactic(auto, unfolding(crate::specs::Order::rules_at))]
pub(crate) fn check_rules(alloc: Global, sketch: &Sketch) -> Result<(), StackError>
    ensures read { Gives (λ t. t) result (rules_at sketch.now) }
    ensures memory { IfErr result (λ e. e ≡ StackError.Memory → first_wire is_unfit_wire sketch.now.wires ≡ None) }
{
    check(8, first_unfit_wire(sketch.wires.as_slice()))?;
    check_all_difs(alloc, sketch)?;
    check(19, too_many(sketch))?;
    check_counts(alloc, sketch)
}
