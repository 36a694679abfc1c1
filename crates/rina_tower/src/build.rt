//! How a tower is built of a plan: rank by rank, and on each rank links before flows.
ghost use Rattle.std.specs.Prelude.{◌≡◌, false, ◌<◌, ◌+◌, IfOk, OnOk, length, map, slice_get, Some, [], ◌∷◌};
ghost use Rattle.rina_iface.specs.Bind.{CanBind};
ghost use Rattle.rina_stack.specs.Ranges.{HasNames};
ghost use Rattle.rina_stack.specs.Plan.{IsPlan};
ghost use Rattle.rina_dif.specs.Laying.{CanBindAll};
ghost use Rattle.rina_dif.specs.Planned.{flow_fixed};
ghost use Rattle.rina_tower.specs.Built.{IsBuilt};
ghost use Rattle.rina_tower.specs.BuiltWhole.{IsBuiltWhole};
ghost use Rattle.rina_tower.specs.MemoryFailure.{has_failed};
ghost use Rattle.rina_tower.specs.Fits.{flows_at};
ghost use Rattle.rina_tower.specs.Layout.{IsGround};
ghost use Rattle.rina_tower.specs.BuildSteps.{AreLaid, HasBound, IsHalfMade, IsHighest, IsPlain, IsRaised, LaysNext, flows_there};
ghost use Rattle.rina_tower.specs.PlanSettings.{IsAsPlanned};
ghost use Rattle.rina_tower.specs.Ranks.{height_of, seen_of};
ghost use Rattle.rina_tower.specs.Stands.{IsTower};

use crate::difs::Difs;
use crate::tower::{Rank, Tower};
use rina_base::{AppName, Memory, Name};
use rina_dif::Dif;
use rina_iface::{Facility, Fixed};
use rina_plan::{DifPlan, FlowPlan, number_in_rank};
use rina_stack::Plan;
use rina_wire::Wires;
use std::alloc::Global;

/// The highest rank of a DIF; 0 where there is none.
fn highest(difs: &[DifPlan]) -> u8
    ensures { IsHighest difs.now result }
{
    let mut top = 0;
    for dif in difs {
        if top < dif.rank {
            top = dif.rank;
        }
    }
    top
}

/// The application of a name.
fn app_of(alloc: Global, name: &Name) -> Result<AppName, Memory>
    ensures { IfOk result (λ a. a ≡ name.now) }
{
    match AppName::read(alloc, name.as_bytes()) {
        Ok(app) => Ok(app),
        Err(_) => Err(Memory),
    }
}

/// A flow of the DIF at a place of the stack, as a fixed flow of that DIF.
fn flow_fixed(alloc: Global, plan: &Plan, place: usize, flow: &FlowPlan) -> Result<Fixed, Memory>
    requires plan { IsPlan plan.now }
    requires place { place < length plan.now.difs }
    requires from { flow.now.from.node < length plan.now.nodes }
    requires to { flow.now.to.node < length plan.now.nodes }
    requires names { HasNames flow.now }
    ensures exact { IfOk result (λ f. f ≡ flow_fixed plan.now place flow.now) }
    ensures plain { IfOk result IsPlain }
{
    Ok(Fixed {
        fac: number_in_rank(plan.difs.as_slice(), place),
        cube: flow.cube,
        a: flow.from.node as u16,
        a_app: app_of(alloc, &flow.from.app)?,
        b: flow.to.node as u16,
        b_app: app_of(alloc, &flow.to.app)?,
    })
}

/// Makes a flow on the top rank.
fn bind_flow(alloc: Global, tower: &mut Tower, fixed: &Fixed) -> Result<(), Memory>
    requires valid { IsTower tower.old }
    requires can { CanBind (seen_of tower.old) fixed.now }
    requires plain { IsPlain fixed.now }
    ensures { OnOk result (HasBound tower.old (fixed.now ∷ []) tower.new) }
{
    match tower.bind(alloc, fixed) {
        Ok(_) => Ok(()),
        Err(_) => Err(Memory),
    }
}

/// Makes the flows of the DIF at a place of the stack, which is of the top rank, in stack order.
fn bind_flows(
    alloc: Global,
    plan: &Plan,
    place: usize,
    dif: &DifPlan,
    tower: &mut Tower,
) -> Result<(), Memory>
    requires plan { IsPlan plan.now }
    requires place { slice_get plan.now.difs place ≡ Some dif.now }
    requires valid { IsTower tower.old }
    requires can { CanBindAll (seen_of tower.old) (map (flow_fixed plan.now place) dif.now.flows) }
    ensures { OnOk result (HasBound tower.old (map (flow_fixed plan.now place) dif.now.flows) tower.new) }
{
    for flow in dif.flows.as_slice() {
        let fixed = flow_fixed(alloc, plan, place, flow)?;
        bind_flow(alloc, tower, &fixed)?;
    }
    Ok(())
}

/// Makes the flows of the DIF at a place of the stack, where that DIF is of this rank.
fn bind_flows_on_rank(
    alloc: Global,
    plan: &Plan,
    rank: u8,
    place: usize,
    tower: &mut Tower,
) -> Result<(), Memory>
    requires plan { IsPlan plan.now }
    requires place { place < length plan.now.difs }
    requires valid { IsTower tower.old }
    requires can { CanBindAll (seen_of tower.old) (flows_there plan.now rank place) }
    ensures { OnOk result (HasBound tower.old (flows_there plan.now rank place) tower.new) }
{
    let Some(dif) = plan.difs.get(place) else {
        unreachable!()
    };
    if dif.rank != rank {
        return Ok(());
    }
    bind_flows(alloc, plan, place, dif, tower)
}

/// Makes the flows of the DIFs of the top rank, in stack order.
fn bind_rank(alloc: Global, plan: &Plan, rank: u8, tower: &mut Tower) -> Result<(), Memory>
    requires plan { IsPlan plan.now }
    requires valid { IsTower tower.old }
    requires can { CanBindAll (seen_of tower.old) (flows_at plan.now rank) }
    ensures { OnOk result (HasBound tower.old (flows_at plan.now rank) tower.new) }
{
    for place in 0..plan.difs.len() {
        bind_flows_on_rank(alloc, plan, rank, place, tower)?;
    }
    Ok(())
}

/// Makes the DIF at a place of the stack behind the others, where it is of the rank above a tower.
fn make_next_dif(
    alloc: Global,
    plan: &Plan,
    rank: u8,
    place: usize,
    difs: &mut Difs,
    below: &mut Tower,
) -> Result<(), Memory>
    requires plan { IsPlan plan.now }
    requires rank { rank < 8 }
    requires place { place < length plan.now.difs }
    requires valid { IsTower below.old }
    requires laying { IsHalfMade plan.now rank place difs.old (seen_of below.old) }
    ensures { OnOk result (LaysNext plan.now rank place difs.old below.old difs.new below.new) }
{
    let Some(dif) = plan.difs.get(place) else {
        unreachable!()
    };
    if dif.rank != rank + 1 {
        return Ok(());
    }
    let made = Dif::of_plan(alloc, plan, place, below)?;
    difs.push(made)?;
    Ok(())
}

/// Makes the DIFs of the rank above a tower, in stack order.
fn make_rank(alloc: Global, plan: &Plan, rank: u8, below: &mut Tower) -> Result<Difs, Memory>
    requires plan { IsPlan plan.now }
    requires rank { rank < 8 }
    requires valid { IsTower below.old }
    requires ground { IsGround plan.now rank (seen_of below.old) }
    ensures { IfOk result (λ difs. AreLaid plan.now rank (length plan.now.difs) below.old difs below.new) }
{
    let mut difs = Difs::new(alloc);
    for place in 0..plan.difs.len() {
        make_next_dif(alloc, plan, rank, place, &mut difs, below)?;
    }
    Ok(difs)
}

/// Makes the rank above a tower of so many ranks, and then the flows of the rank that was its top.
fn add_rank(alloc: Global, plan: &Plan, rank: u8, mut below: Tower) -> Result<Tower, Memory>
    requires plan { IsPlan plan.now }
    requires rank { rank < 8 }
    requires raised { IsRaised plan.now rank below }
    ensures { IfOk result (IsRaised plan.now (rank + 1)) }
{
    let difs = make_rank(alloc, plan, rank, &mut below)?;
    bind_rank(alloc, plan, rank, &mut below)?;
    match Box::new(alloc, Rank { difs, below }) {
        Ok(own) => Ok(Tower::Rank(own)),
        Err(_) => Err(Memory),
    }
}

impl Tower {
    /// The tower of a plan at the start: its wires, and a rank of DIFs for each rank up to the highest that a DIF has,
    /// with the links and flows that the stack fixes.
    pub fn build(alloc: Global, plan: &Plan) -> Result<Tower, Memory>
        requires plan { IsPlan plan.now }
        ensures stands { IfOk result IsTower }
        ensures built { IfOk result (IsBuilt plan.now) }
        ensures whole { IfOk result (IsBuiltWhole plan.now) }
        ensures height { IfOk result (λ t. IsHighest plan.now.difs (height_of t)) }
        ensures planned { IfOk result (IsAsPlanned plan.now) }
        ensures alive { IfOk result (λ t. has_failed t ≡ false) }
    {
        let top = highest(plan.difs.as_slice());
        let mut tower = Tower::Wires(Wires::new(alloc, plan)?);
        for rank in 0..top {
            tower = add_rank(alloc, plan, rank, tower)?;
        }
        bind_rank(alloc, plan, top, &mut tower)?;
        // Each call that failed has answered `Memory`; but the trait does not say that no other place has remembered a failure.
        if tower.has_failed() {
            return Err(Memory);
        }
        Ok(tower)
    }
}
