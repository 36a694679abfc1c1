//! Where a run begins: the tower of a plan, and a label for each end of each flow of the stack.
ghost use Rattle.std.specs.Prelude.{◌≡◌, ◌<◌, ◌≤◌, ◌+◌, ◌*◌, ◌^◌, ◌==◌, ℕ, List, [], ◌∷◌, count_by, length, map, slice_get, None, Some, IfOk, IfSome, OnOk};
ghost use Rattle.std.specs.List.{range_with_len};
ghost use Rattle.rina_iface.specs.declared.ask.Fixed.{Fixed};
ghost use Rattle.rina_policy.specs.Slots.{Slot};
ghost use Rattle.rina_stack.specs.Plan.{IsPlan};
ghost use Rattle.rina_dif.specs.Planned.{link_fixed};
ghost use Rattle.rina_tower.specs.declared.tower.Tower.{Tower};
ghost use Rattle.rina_tower.specs.Built.{IsBuilt};
ghost use Rattle.rina_tower.specs.Fits.{links_at};
ghost use Rattle.rina_tower.specs.Flows.{links_on};
ghost use Rattle.rina_tower.specs.BuildSteps.{IsHighest};
ghost use Rattle.rina_tower.specs.Ranks.{height_of};
ghost use Rattle.rina_tower.specs.Stands.{IsTower};
ghost use Rattle.rina_notes.specs.Look.{ends_at};
ghost use Rattle.rina_run.specs.Opening.{Adds, AreDifLabels, AreFlowLabels, AreLabelsOf, IsLabelOf, IsOpening, links_of_rank};
ghost use Rattle.rina_words.specs.Step.{stage};

use rina_base::Memory;
use rina_iface::{End, PortState};
use rina_notes::{Label, Labels, ends_at};
use rina_plan::{DifPlan, EndPlan, FlowPlan, facility_number, number_in_rank};
use rina_stack::Plan;
use rina_tower::Tower;
use rina_words::Run;
use std::alloc::Global;

/// How many links of the DIF at a place of the stack are on the facility of a number.
fn links_with(plan: &Plan, at: usize, dif: &DifPlan, fac: u16) -> usize
    requires plan { IsPlan plan.now }
    requires at { slice_get plan.now.difs at ≡ Some dif.now }
    ensures { result ≡ count_by (λ (f : Fixed). f.fac == fac) (map (link_fixed plan.now dif.now) dif.now.links) }
{
    let mut count = 0;
    'links: for link in dif.links.as_slice() {
        if facility_number(plan.difs.as_slice(), link.on) == fac {
            count += 1;
        }
    }
    count
}

/// The same, where the DIF is of a rank; 0 where it is not.
fn links_there(plan: &Plan, rank: u8, at: usize, fac: u16) -> usize
    requires plan { IsPlan plan.now }
    requires at { at < length plan.now.difs }
    ensures { result ≡ count_by (λ (f : Fixed). f.fac == fac) (links_of_rank plan.now rank at) }
{
    let Some(dif) = plan.difs.get(at) else {
        unreachable!()
    };
    if dif.rank != rank {
        return 0;
    }
    links_with(plan, at, dif, fac)
}

/// How many links the DIFs of a rank have on the facility of a number. None only where they are 2^64 or more, and so many fit into no
/// memory.
fn links_at(plan: &Plan, rank: u8, fac: u16) -> Option<usize>
    requires { IsPlan plan.now }
    ensures some { IfSome result (λ n. n ≡ count_by (λ (f : Fixed). f.fac == fac) (links_at plan.now rank)) }
    ensures none { result ≡ None → 2 ^ 64 ≤ count_by (λ (f : Fixed). f.fac == fac) (links_at plan.now rank) }
{
    let mut count = 0usize;
    'difs: for at in 0..plan.difs.len() {
        count = count.checked_add(links_there(plan, rank, at, fac))?;
    }
    Some(count)
}

/// The place of the first end of the flows of the DIF at a place of the stack, behind the links on it. None only where it is 2^64 or more.
fn first_end(plan: &Plan, at: usize, dif: &DifPlan) -> Option<usize>
    requires plan { IsPlan plan.now }
    requires at { slice_get plan.now.difs at ≡ Some dif.now }
    ensures some { IfSome result (λ n. n ≡ 2 * links_on plan.now at dif.now) }
    ensures none { result ≡ None → 2 ^ 64 ≤ 2 * links_on plan.now at dif.now }
{
    let fac = number_in_rank(plan.difs.as_slice(), at);
    let links = links_at(plan, dif.rank + 1, fac)?;
    let ends = links.checked_mul(2)?;
    Some(ends)
}

/// Gives a label to the end at a place among those of a DIF of a rank.
fn open_label(
    alloc: Global,
    ends: &[End],
    rank: u16,
    place: usize,
    side: &EndPlan,
    labels: &mut Labels,
) -> Result<(), Memory>
    requires { place < length ends.now }
    ensures { OnOk result ((t : Tower) (fac : ℕ) → ends_at t rank fac ≡ ends.now → Adds (IsLabelOf t rank fac place side.now) labels.old labels.new) }
{
    let label = Label {
        name: side.label.copy(alloc)?,
        rank,
        port: ends[place].port,
        shown: Some(PortState::Allocated),
    };
    labels.push(label)?;
    Ok(())
}

/// Gives labels to the two ends of a flow, which stand at a place and behind it.
fn open_flow(
    alloc: Global,
    ends: &[End],
    rank: u16,
    place: usize,
    flow: &FlowPlan,
    labels: &mut Labels,
) -> Result<(), Memory>
    requires { place + 1 < length ends.now }
    ensures { OnOk result ((t : Tower) (fac : ℕ) → ends_at t rank fac ≡ ends.now → Adds (AreFlowLabels t rank fac place (flow.now ∷ [])) labels.old labels.new) }
{
    open_label(alloc, ends, rank, place, &flow.from, labels)?;
    open_label(alloc, ends, rank, place + 1, &flow.to, labels)
}

/// Gives labels to the ends of flows, of which the first stands at a place.
fn open_flows(
    alloc: Global,
    ends: &[End],
    rank: u16,
    first: usize,
    flows: &[FlowPlan],
    labels: &mut Labels,
) -> Result<(), Memory>
    requires { (k : ℕ) → k < length flows.now → first + 2 * k + 1 < length ends.now }
    ensures { OnOk result ((t : Tower) (fac : ℕ) → ends_at t rank fac ≡ ends.now → Adds (AreFlowLabels t rank fac first flows.now) labels.old labels.new) }
{
    let mut place = first;
    'flows: for flow in flows {
        open_flow(alloc, ends, rank, place, flow, labels)?;
        place += 2;
    }
    Ok(())
}

/// Gives labels to the ends of the flows of the DIF at a place of the stack.
fn open_dif(
    alloc: Global,
    plan: &Plan,
    tower: &Tower,
    at: usize,
    labels: &mut Labels,
) -> Result<(), Memory>
    requires plan { IsPlan plan.now }
    requires tower { IsTower tower.now }
    requires built { IsBuilt plan.now tower.now }
    requires height { IsHighest plan.now.difs (height_of tower.now) }
    requires at { at < length plan.now.difs }
    ensures { OnOk result (Adds (AreDifLabels plan.now tower.now at) labels.old labels.new) }
{
    let Some(dif) = plan.difs.get(at) else {
        unreachable!()
    };
    let Some(first) = first_end(plan, at, dif) else {
        return Err(Memory);
    };
    let rank = u16::from(dif.rank);
    let fac = number_in_rank(plan.difs.as_slice(), at);
    let ends = ends_at(tower, rank, fac);
    open_flows(alloc, ends, rank, first, dif.flows.as_slice(), labels)
}

/// The labels that a run begins with: one for each end of each flow of the stack, in stack order.
fn open_labels(alloc: Global, plan: &Plan, tower: &Tower) -> Result<Labels, Memory>
    requires plan { IsPlan plan.now }
    requires tower { IsTower tower.now }
    requires built { IsBuilt plan.now tower.now }
    requires height { IsHighest plan.now.difs (height_of tower.now) }
    ensures { IfOk result (λ labels. AreLabelsOf plan.now tower.now (range_with_len 0 (length plan.now.difs)) labels) }
{
    let mut labels = Labels::new(alloc);
    'difs: for at in 0..plan.difs.len() {
        open_dif(alloc, plan, tower, at, &mut labels)?;
    }
    Ok(labels)
}

/// The run that a run begins with: the tower of the plan, and the labels of the stack's flows.
pub fn open_run(alloc: Global, plan: &Plan) -> Result<Run, Memory>
    requires { IsPlan plan.now }
    ensures opens { IfOk result (λ w. (slots : List Slot) → IsOpening plan.now slots (stage w slots)) }
    ensures stands { IfOk result (λ w. IsTower w.tower) }
{
    let tower = Tower::build(alloc, plan)?;
    let labels = open_labels(alloc, plan, &tower)?;
    Ok(Run { tower, labels })
}
