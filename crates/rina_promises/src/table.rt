//! The table of the promises of a stack.
ghost use Rattle.std.specs.Prelude.{◌≡◌, ◌<◌, length, slice_get, Some, IfOk, OnOk};
ghost use Rattle.std.specs.List.{range_with_len};
ghost use Rattle.rina_schedule.specs.Spelling.{Adds};
ghost use Rattle.rina_stack.specs.Plan.{IsPlan};
ghost use Rattle.rina_promises.specs.Promises.{AddsText, AreTexts, IsDifText, IsFlowOf, IsFlowText, IsTowerOf, ShowsPromises, columns};

use crate::rows::{add_rows, rows_of};
use crate::standing::standing_of;
use rina_base::Memory;
use rina_plan::{DifPlan, FlowPlan, number_in_rank};
use rina_schedule::Text;
use rina_stack::Plan;
use rina_tower::Tower;
use std::alloc::Global;

/// Appends the lines of a flow of the DIF at a place of the stack.
fn add_flow(
    alloc: Global,
    text: &mut Text,
    plan: &Plan,
    tower: &Tower,
    at: usize,
    dif: &DifPlan,
    flow: &FlowPlan,
) -> Result<(), Memory>
    requires tower { IsTowerOf plan.now tower.now }
    requires flow { IsFlowOf plan.now at dif.now flow.now }
    ensures { OnOk result (AddsText (IsFlowText plan.now tower.now at dif.now flow.now) text.old text.new) }
{
    let fac = number_in_rank(plan.difs.as_slice(), at);
    let Some(there) = standing_of(tower, u16::from(dif.rank), fac) else {
        unreachable!()
    };
    let rows = rows_of(alloc, there.below, there.dif, flow)?;
    add_rows(text, plan.nodes.as_slice(), &dif.name, flow, &rows)
}

/// Appends the lines of the flows of the DIF at a place of the stack.
fn add_flows(
    alloc: Global,
    text: &mut Text,
    plan: &Plan,
    tower: &Tower,
    at: usize,
    dif: &DifPlan,
) -> Result<(), Memory>
    requires tower { IsTowerOf plan.now tower.now }
    requires dif { slice_get plan.now.difs at ≡ Some dif.now }
    ensures { OnOk result (AddsText (AreTexts (IsFlowText plan.now tower.now at dif.now) dif.now.flows) text.old text.new) }
{
    'flows: for flow in dif.flows.as_slice() {
        add_flow(alloc, text, plan, tower, at, dif, flow)?;
    }
    Ok(())
}

/// Appends the lines of the DIF at a place of the stack.
fn add_dif(
    alloc: Global,
    text: &mut Text,
    plan: &Plan,
    tower: &Tower,
    at: usize,
) -> Result<(), Memory>
    requires tower { IsTowerOf plan.now tower.now }
    requires at { at < length plan.now.difs }
    ensures { OnOk result (AddsText (IsDifText plan.now tower.now at) text.old text.new) }
{
    let Some(dif) = plan.difs.get(at) else {
        unreachable!()
    };
    add_flows(alloc, text, plan, tower, at, dif)
}

/// Appends the lines of all DIFs, in stack order.
fn add_difs(alloc: Global, text: &mut Text, plan: &Plan, tower: &Tower) -> Result<(), Memory>
    requires { IsTowerOf plan.now tower.now }
    ensures { OnOk result (AddsText (AreTexts (IsDifText plan.now tower.now) (range_with_len 0 (length plan.now.difs))) text.old text.new) }
{
    'difs: for at in 0..plan.difs.len() {
        add_dif(alloc, text, plan, tower, at)?;
    }
    Ok(())
}

/// Appends the names of the columns.
#[tactic(auto, unfolding(crate::specs::Promises::columns))]
pub(crate) fn add_columns(text: &mut Text) -> Result<(), Memory>
    ensures { Adds result text.old text.new columns }
{
    text.add(b"facility from to cube way charges slack window pieces trip promise\n")
}

/// The table of the promises of a stack: the names of the columns, and for each flow of each DIF, in stack order, a line for each direction.
pub fn promises_table(alloc: Global, plan: &Plan) -> Result<Vec<u8>, Memory>
    requires { IsPlan plan.now }
    ensures { IfOk result (λ v. ShowsPromises plan.now v.items) }
{
    let tower = Tower::build(alloc, plan)?;
    let mut text = Text::new(alloc);
    add_columns(&mut text)?;
    add_difs(alloc, &mut text, plan, &tower)?;
    Ok(text.into_vec())
}
