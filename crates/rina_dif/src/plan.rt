//! What the plan of a stack says of a DIF.
ghost use Rattle.std.specs.Prelude.{◌≡◌, ◌+◌, ◌-◌, ◌*◌, ◌^◌, ◌<◌, ◌≤◌, All, ◌∷◌, ◌++◌, flat_map, length, slice_get, Some, IfOk, if◌then◌else◌};
ghost use Rattle.rina_pci.specs.Spelling.{IsWidth};
ghost use Rattle.rina_plan.specs.declared.dif.DifPlan.{DifPlan};
ghost use Rattle.rina_plan.specs.declared.dif.MemberPlan.{MemberPlan};
ghost use Rattle.rina_plan.specs.Numbers.{IsLower};
ghost use Rattle.rina_stack.specs.Plan.{IsPlan};
ghost use Rattle.rina_dif.specs.Planned.{ipc_name, link_fixed, member_of, members_from, settings_by};

use rina_base::{AppName, Memory, Seq};
use rina_cube::Cube;
use rina_data::{Member, Settings};
use rina_iface::Fixed;
use rina_plan::{DifPlan, LinkPlan, MemberPlan, facility_number, number_in_rank};
use rina_stack::Plan;
use std::alloc::{AllocError, Global};

/// How many IPC processes these DIFs have.
fn processes_of(difs: &[DifPlan]) -> u32
    requires few { length difs.now ≤ 16 }
    requires small { All (λ (d : DifPlan). length d.members ≤ 64) difs.now }
    ensures count { result ≡ length (flat_map (λ (d : DifPlan). d.members) difs.now) }
    ensures most { result ≤ 1024 }
{
    let mut count = 0;
    for dif in difs {
        count += dif.members.len() as u32;
    }
    count
}

/// A text, a slash, and another text.
fn slashed(alloc: Global, dif: &[u8], node: &[u8]) -> Result<Vec<u8>, AllocError>
    ensures { IfOk result (λ v. v.items ≡ dif.now ++ 47 ∷ node.now) }
{
    let mut text = Vec::from_slice(alloc, dif)?;
    text.push(b'/')?;
    text.extend_from_slice(node)?;
    Ok(text)
}

/// The name of the IPC process of a DIF at a node.
#[tactic(auto, unfolding(crate::specs::Planned::ipc_name))]
fn ipc_name(alloc: Global, plan: &Plan, dif: &DifPlan, node: usize) -> Result<AppName, Memory>
    requires { node < length plan.now.nodes }
    ensures { IfOk result (λ name. name ≡ ipc_name plan.now dif.now node) }
{
    let Some(system) = plan.nodes.get(node) else {
        unreachable!()
    };
    let text = slashed(alloc, dif.name.as_bytes(), system.as_bytes())?;
    match AppName::read(alloc, text.as_slice()) {
        Ok(name) => Ok(name),
        Err(_) => Err(Memory),
    }
}

/// An IPC process of a DIF, which has this number in the stack.
fn member_of(
    alloc: Global,
    plan: &Plan,
    dif: &DifPlan,
    number: u32,
    member: &MemberPlan,
) -> Result<Member, Memory>
    requires few { length plan.now.nodes ≤ 64 }
    requires node { member.now.node < length plan.now.nodes }
    ensures { IfOk result (λ m. m ≡ member_of plan.now dif.now number member.now) }
{
    Ok(Member {
        addr: member.addr,
        name: ipc_name(alloc, plan, dif, member.node)?,
        node: member.node as u16,
        number,
    })
}

/// The IPC processes of a DIF, numbered in the stack from a number on.
fn members_of(alloc: Global, plan: &Plan, dif: &DifPlan, number: u32) -> Result<Seq<Member>, Memory>
    requires few { length plan.now.nodes ≤ 64 }
    requires nodes { All (λ (m : MemberPlan). m.node < length plan.now.nodes) dif.now.members }
    requires number { number ≤ 1024 }
    requires small { length dif.now.members ≤ 64 }
    ensures { IfOk result (λ ms. ms ≡ members_from plan.now dif.now number dif.now.members) }
{
    let mut members = Seq::new(alloc);
    let mut next = number;
    for member in dif.members.as_slice() {
        members.push(member_of(alloc, plan, dif, next, member)?)?;
        next += 1;
    }
    Ok(members)
}

/// A copy of cubes.
fn copy_of(alloc: Global, cubes: &[Cube]) -> Result<Seq<Cube>, AllocError>
    ensures { IfOk result (λ c. c ≡ cubes.now) }
{
    Ok(Seq::from_vec(Vec::from_slice(alloc, cubes)?))
}

/// The greatest number that a field of so many bytes holds.
fn greatest(width: u8) -> u32
    requires { IsWidth width }
    ensures { result ≡ 2 ^ (8 * width) - 1 }
{
    match width {
        1 => 255,
        2 => 65_535,
        _ => 4_294_967_295,
    }
}

/// How many fixed flows each member of a DIF may have: one for each CEP-id, and none where the DIF is not static.
fn admitted(dif: &DifPlan) -> u32
    requires { IsWidth dif.now.widths.cep }
    ensures { result ≡ if dif.now.is_static then 2 ^ (8 * dif.now.widths.cep) - 1 else 0 }
{
    if dif.is_static {
        greatest(dif.widths.cep)
    } else {
        0
    }
}

/// The settings of the DIF at a place of the stack.
pub(crate) fn settings_of(
    alloc: Global,
    plan: &Plan,
    at: usize,
    dif: &DifPlan,
) -> Result<Settings, Memory>
    requires plan { IsPlan plan.now }
    requires at { slice_get plan.now.difs at ≡ Some dif.now }
    ensures { IfOk result (λ s. s ≡ settings_by plan.now at dif.now) }
{
    let difs = plan.difs.as_slice();
    Ok(Settings {
        fac: number_in_rank(difs, at),
        members: members_of(alloc, plan, dif, processes_of(&difs[..at]))?,
        cubes: copy_of(alloc, dif.cubes.as_slice())?,
        widths: dif.widths,
        pdu: dif.pdu,
        cap: dif.queue,
        admits: admitted(dif),
        policy: dif.policy.copy(alloc)?,
    })
}

/// A link of a DIF as a fixed flow of the facility below.
pub(crate) fn link_fixed(
    alloc: Global,
    plan: &Plan,
    dif: &DifPlan,
    link: &LinkPlan,
) -> Result<Fixed, Memory>
    requires nodes { length plan.now.nodes ≤ 64 }
    requires difs { length plan.now.difs ≤ 16 }
    requires on { IsLower 128 (length plan.now.difs) link.now.on }
    requires a { link.now.a < length plan.now.nodes }
    requires b { link.now.b < length plan.now.nodes }
    ensures { IfOk result (λ f. f ≡ link_fixed plan.now dif.now link.now) }
{
    Ok(Fixed {
        fac: facility_number(plan.difs.as_slice(), link.on),
        cube: link.cube,
        a: link.a as u16,
        a_app: ipc_name(alloc, plan, dif, link.a)?,
        b: link.b as u16,
        b_app: ipc_name(alloc, plan, dif, link.b)?,
    })
}
