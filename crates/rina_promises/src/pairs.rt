//! What each pair of members of a DIF may rely on, whether a flow is between them or not.
ghost use Rattle.std.specs.Prelude.{◌≡◌, ◌<◌, length, slice_get, Some, IfOk, IsSome, OnOk};
ghost use Rattle.rina_data.specs.Configs.{cube_by};
ghost use Rattle.rina_stack.specs.Plan.{IsPlan};
ghost use Rattle.rina_tower.specs.Stands.{IsTower};
ghost use Rattle.rina_promises.specs.Pairs.{IsFromText, IsPairText, IsToText, IsWayText, ShowsPairs};
ghost use Rattle.rina_promises.specs.Promises.{AddsText, AreTexts, IsTowerOf};

use crate::rows::row;
use crate::standing::{Standing, standing_of};
use crate::table::add_columns;
use rina_base::{Memory, Name};
use rina_cube::Cube;
use rina_data::Member;
use rina_plan::{DifPlan, number_in_rank};
use rina_schedule::Text;
use rina_stack::Plan;
use rina_tower::Tower;
use rina_way::{add_row, node_name};
use std::alloc::Global;

/// Appends the line of a cube: of what a member may send to another one in a flow of it.
fn add_way(
    alloc: Global,
    text: &mut Text,
    nodes: &[Name],
    fac: &Name,
    there: &Standing<'_>,
    from: &Member,
    to: &Member,
    cube: &Cube,
) -> Result<(), Memory>
    requires below { IsTower there.now.below.now }
    requires cube { IsSome (cube_by cube.now.id there.now.dif.now.settings.cubes) }
    ensures { OnOk result (AddsText (IsWayText nodes.now fac.now there.now.below.now there.now.dif.now from.now to.now cube.now) text.old text.new) }
{
    let (source, target) = (from.node, to.node);
    let row = row(
        alloc,
        there.below,
        there.dif,
        cube.id,
        usize::from(source),
        usize::from(target),
    )?;
    add_row(
        text,
        fac,
        node_name(nodes, source),
        node_name(nodes, target),
        nodes,
        &row,
    )
}

/// Appends a line for each cube of the DIF.
fn add_pair(
    alloc: Global,
    text: &mut Text,
    nodes: &[Name],
    fac: &Name,
    there: &Standing<'_>,
    from: &Member,
    to: &Member,
) -> Result<(), Memory>
    requires { IsTower there.now.below.now }
    ensures { OnOk result (AddsText (IsPairText nodes.now fac.now there.now.below.now there.now.dif.now from.now to.now) text.old text.new) }
{
    'cubes: for cube in there.dif.settings().cubes.as_slice() {
        add_way(alloc, text, nodes, fac, there, from, to, cube)?;
    }
    Ok(())
}

/// Appends the lines of two members, where they are at two nodes.
fn add_to(
    alloc: Global,
    text: &mut Text,
    nodes: &[Name],
    fac: &Name,
    there: &Standing<'_>,
    from: &Member,
    to: &Member,
) -> Result<(), Memory>
    requires { IsTower there.now.below.now }
    ensures { OnOk result (AddsText (IsToText nodes.now fac.now there.now.below.now there.now.dif.now from.now to.now) text.old text.new) }
{
    if from.node == to.node {
        Ok(())
    } else {
        add_pair(alloc, text, nodes, fac, there, from, to)
    }
}

/// Appends the lines of a member and each other one.
fn add_from(
    alloc: Global,
    text: &mut Text,
    nodes: &[Name],
    fac: &Name,
    there: &Standing<'_>,
    from: &Member,
) -> Result<(), Memory>
    requires { IsTower there.now.below.now }
    ensures { OnOk result (AddsText (IsFromText nodes.now fac.now there.now.below.now there.now.dif.now from.now) text.old text.new) }
{
    'members: for to in there.dif.settings().members.as_slice() {
        add_to(alloc, text, nodes, fac, there, from, to)?;
    }
    Ok(())
}

/// Appends the lines of all pairs of members.
fn add_pairs(
    alloc: Global,
    text: &mut Text,
    nodes: &[Name],
    fac: &Name,
    there: &Standing<'_>,
) -> Result<(), Memory>
    requires { IsTower there.now.below.now }
    ensures { OnOk result (AddsText (AreTexts (IsFromText nodes.now fac.now there.now.below.now there.now.dif.now) there.now.dif.now.settings.members) text.old text.new) }
{
    'members: for from in there.dif.settings().members.as_slice() {
        add_from(alloc, text, nodes, fac, there, from)?;
    }
    Ok(())
}

/// The table of a DIF of a stack, by the tower of the stack.
fn pairs_in(
    alloc: Global,
    plan: &Plan,
    tower: &Tower,
    at: usize,
    dif: &DifPlan,
) -> Result<Vec<u8>, Memory>
    requires tower { IsTowerOf plan.now tower.now }
    requires dif { slice_get plan.now.difs at ≡ Some dif.now }
    ensures { IfOk result (λ v. ShowsPairs plan.now at v.items) }
{
    let fac = number_in_rank(plan.difs.as_slice(), at);
    let Some(there) = standing_of(tower, u16::from(dif.rank), fac) else {
        unreachable!()
    };
    let mut text = Text::new(alloc);
    add_columns(&mut text)?;
    add_pairs(alloc, &mut text, plan.nodes.as_slice(), &dif.name, &there)?;
    Ok(text.into_vec())
}

/// The table of the DIF at a place of a stack: the names of the columns, and for each pair of its members in each direction, in stack order, a line
/// for each of its cubes.
pub fn pairs_table(alloc: Global, plan: &Plan, at: usize) -> Result<Vec<u8>, Memory>
    requires plan { IsPlan plan.now }
    requires at { at < length plan.now.difs }
    ensures { IfOk result (λ v. ShowsPairs plan.now at v.items) }
{
    let tower = Tower::build(alloc, plan)?;
    let Some(dif) = plan.difs.get(at) else {
        unreachable!()
    };
    pairs_in(alloc, plan, &tower, at, dif)
}
