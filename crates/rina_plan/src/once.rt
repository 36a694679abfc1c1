//! Numbers that stand twice: ids of cubes, and nodes and addresses of members. Each function returns
//! the place of the first DIF that breaks its rule.
ghost use Rattle.std.specs.Prelude.{◌≡◌, ◌<◌, ◌==◌, ◌||◌, map, position, IfOk};
ghost use Rattle.rina_cube.specs.declared.Cube.{Cube};
ghost use Rattle.rina_plan.specs.declared.dif.MemberPlan.{MemberPlan};
ghost use Rattle.rina_plan.specs.declared.dif.DifPlan.{DifPlan};
ghost use Rattle.rina_plan.specs.Difs.{has_twice, lacks_cubes, is_misplaced};

use crate::dif::{DifPlan, MemberPlan};
use crate::difs::any_misaddressed;
use rina_cube::Cube;
use std::alloc::{AllocError, Global};
use std::collections::BTreeMap;

/// Whether a list has a number twice.
pub(crate) fn has_twice(alloc: Global, numbers: &[usize]) -> Result<bool, AllocError>
    ensures { IfOk result (λ b. b ≡ has_twice numbers.now) }
{
    let mut seen = BTreeMap::new(alloc);
    let mut twice = false;
    let mut at = numbers.len();
    while at > 0 {
        at -= 1;
        let again = seen.insert(numbers[at], ())?.is_some();
        twice = again || twice;
    }
    Ok(twice)
}

fn ids_of(alloc: Global, cubes: &[Cube]) -> Result<Vec<usize>, AllocError>
    ensures { IfOk result (λ v. v.items ≡ map (λ (c : Cube). c.id) cubes.now) }
{
    cubes.iter().map(|cube| usize::from(cube.id)).collect(alloc)
}

fn nodes_of(alloc: Global, members: &[MemberPlan]) -> Result<Vec<usize>, AllocError>
    ensures { IfOk result (λ v. v.items ≡ map (λ (m : MemberPlan). m.node) members.now) }
{
    members.iter().map(|member| member.node).collect(alloc)
}

fn addresses_of(alloc: Global, members: &[MemberPlan]) -> Result<Vec<usize>, AllocError>
    ensures { IfOk result (λ v. v.items ≡ map (λ (m : MemberPlan). m.addr) members.now) }
{
    members
        .iter()
        .map(|member| member.addr as usize)
        .collect(alloc)
}

#[tactic(auto, unfolding(crate::specs::Difs::lacks_cubes))]
fn lacks_cubes(alloc: Global, dif: &DifPlan) -> Result<bool, AllocError>
    ensures { IfOk result (λ b. b ≡ lacks_cubes dif.now) }
{
    let ids = ids_of(alloc, dif.cubes.as_slice())?;
    let twice = has_twice(alloc, ids.as_slice())?;
    Ok(dif.cubes.len() == 0 || twice)
}

fn shares_node(alloc: Global, members: &[MemberPlan]) -> Result<bool, AllocError>
    ensures { IfOk result (λ b. b ≡ has_twice (map (λ (m : MemberPlan). m.node) members.now)) }
{
    let nodes = nodes_of(alloc, members)?;
    has_twice(alloc, nodes.as_slice())
}

fn shares_address(alloc: Global, members: &[MemberPlan]) -> Result<bool, AllocError>
    ensures { IfOk result (λ b. b ≡ has_twice (map (λ (m : MemberPlan). m.addr) members.now)) }
{
    let addresses = addresses_of(alloc, members)?;
    has_twice(alloc, addresses.as_slice())
}

fn any_of(empty: bool, node: bool, address: bool, misaddressed: bool) -> bool
    ensures { result ≡ (empty || node || address || misaddressed) }
{
    empty || node || address || misaddressed
}

#[tactic(auto, unfolding(crate::specs::Difs::is_misplaced))]
fn is_misplaced(alloc: Global, dif: &DifPlan) -> Result<bool, AllocError>
    ensures { IfOk result (λ b. b ≡ is_misplaced dif.now) }
{
    let members = dif.members.as_slice();
    let node = shares_node(alloc, members)?;
    let address = shares_address(alloc, members)?;
    let misaddressed = any_misaddressed(dif.widths.addr, members);
    Ok(any_of(dif.members.len() == 0, node, address, misaddressed))
}

/// The first DIF without a cube, or with two cubes of one id (rule 10). Fails where memory runs out.
pub fn first_without_cubes(alloc: Global, difs: &[DifPlan]) -> Result<Option<usize>, AllocError>
    ensures { IfOk result (λ f. f ≡ position lacks_cubes difs.now) }
{
    let mut at = 0usize;
    'difs: for dif in difs {
        let lacks = lacks_cubes(alloc, dif)?;
        if lacks {
            return Ok(Some(at));
        }
        at += 1;
    }
    Ok(None)
}

/// The first DIF without a member, with two members on one node or of one address, or with an address that
/// is 0 or too wide (rule 12). Fails where memory runs out.
pub fn first_misplaced(alloc: Global, difs: &[DifPlan]) -> Result<Option<usize>, AllocError>
    ensures { IfOk result (λ f. f ≡ position is_misplaced difs.now) }
{
    let mut at = 0usize;
    'difs: for dif in difs {
        let misplaced = is_misplaced(alloc, dif)?;
        if misplaced {
            return Ok(Some(at));
        }
        at += 1;
    }
    Ok(None)
}
