//! A DIF is made as the plan of a stack says, with its links laid on the rank below.
ghost use Rattle.std.specs.Prelude.{◌≡◌, ◌<◌, [], All, length, map, IfOk, Ok, OnOk, slice_get, Some};
ghost use Rattle.rina_base.specs.declared.number.Port.{Port};
ghost use Rattle.rina_iface.specs.Bind.{CanBind};
ghost use Rattle.rina_plan.specs.declared.dif.DifPlan.{DifPlan};
ghost use Rattle.rina_stack.specs.Plan.{IsPlan};
ghost use Rattle.rina_data.specs.Configs.{config_of};
ghost use Rattle.rina_dif.specs.Holding.{Stands};
ghost use Rattle.rina_dif.specs.Laying.{AreLaid, AreLinkedUp, AreSettings, BindsInTurn, CanBindAll, CanLay, IsLaidIn, IsNew, Lays, LaysLink, LaysPort, MayBind, Takes};
ghost use Rattle.rina_dif.specs.Linking.{IsConnected};
ghost use Rattle.rina_dif.specs.Planned.{link_fixed, links_of};

use crate::connections::Connections;
use crate::dif::{Dif, place};
use crate::layout::Layout;
use crate::managements::route_all;
use crate::plan::{link_fixed, settings_of};
use crate::processes::Processes;
use rina_base::{Memory, Port, Seq};
use rina_data::Settings;
use rina_flood::members_are_a_network;
use rina_iface::{Facility, Fixed};
use rina_plan::DifPlan;
use rina_stack::Plan;
use std::alloc::Global;

/// Gives the IPC process at the node of a port one link more, on that port.
fn lay_port(
    processes: &mut Processes,
    alloc: Global,
    settings: &Settings,
    port: Port,
) -> Result<(), Memory>
    requires { length processes.old ≡ length settings.now.members }
    ensures { OnOk result (LaysPort settings.now port processes.old processes.new) }
{
    match place(settings.members.as_slice(), port.node) {
        Some(at) => processes.add_link(alloc, at, port),
        None => Ok(()),
    }
}

/// Binds a link below, and gives the IPC processes at its ends one link more. Answers the ports of its ends.
fn lay_link<F: Facility>(
    processes: &mut Processes,
    alloc: Global,
    settings: &Settings,
    fixed: &Fixed,
    below: &mut F,
) -> Result<(Port, Port), Memory>
    requires valid { F.valid below.old }
    requires can { CanBind (F.seen below.old) fixed.now }
    requires aligned { length processes.old ≡ length settings.now.members }
    ensures valid { F.valid below.new }
    ensures below { F.same_below below.old below.new }
    ensures may { MayBind fixed.now (F.seen below.old) (F.seen below.new) }
    ensures ok { IfOk result (λ ports. LaysLink settings.now fixed.now ports (F.seen below.old) (F.seen below.new) processes.old processes.new) }
    ensures whole { OnOk result ((ports : Port × Port) × F.does_bind below.old fixed.now (Ok ports) below.new) }
{
    let Ok((a, b)) = below.bind(alloc, fixed) else {
        return Err(Memory);
    };
    lay_port(processes, alloc, settings, a)?;
    lay_port(processes, alloc, settings, b)?;
    Ok((a, b))
}

/// Binds the links of a DIF below, in stack order, and gives its IPC processes their links. Answers the ports of both ends of
/// each, in that order.
fn lay_links<F: Facility>(
    processes: &mut Processes,
    alloc: Global,
    plan: &Plan,
    dif: &DifPlan,
    settings: &Settings,
    below: &mut F,
) -> Result<Seq<(Port, Port)>, Memory>
    requires plan { IsPlan plan.now }
    requires settings { AreSettings plan.now dif.now settings.now }
    requires valid { F.valid below.old }
    requires binds { CanBindAll (F.seen below.old) (map (link_fixed plan.now dif.now) dif.now.links) }
    requires takes { All (Takes (F.seen below.old) settings.now.pdu) (map (link_fixed plan.now dif.now) dif.now.links) }
    requires up { AreLinkedUp settings.now [] processes.old }
    ensures valid { F.valid below.new }
    ensures below { F.same_below below.old below.new }
    ensures laid { IsLaidIn (config_of settings.now) (F.seen below.old) (F.seen below.new) }
    ensures ok { IfOk result (λ ports. AreLaid plan.now dif.now settings.now dif.now.links (F.seen below.old) (F.seen below.new) ports processes.new) }
    ensures whole { OnOk result (BindsInTurn F.does_bind below.old (map (link_fixed plan.now dif.now) dif.now.links) below.new) }
{
    let mut ports = Seq::new(alloc);
    for link in dif.links.as_slice() {
        let fixed = link_fixed(alloc, plan, dif, link)?;
        let pair = lay_link(processes, alloc, settings, &fixed, below)?;
        ports.push(pair)?;
    }
    Ok(ports)
}

impl Dif {
    /// The DIF at a place of the stack, counted from 0, without its flows: its links are bound on the rank below, in
    /// stack order, each enrolled member holds the items of the start, and each link has its management connection. Without memory
    /// some of the links may have been bound.
    pub fn of_plan<F: Facility>(
        alloc: Global,
        plan: &Plan,
        at: usize,
        below: &mut F,
    ) -> Result<Dif, Memory>
        requires plan { IsPlan plan.now }
        requires at { at < length plan.now.difs }
        requires valid { F.valid below.old }
        requires can { CanLay plan.now at (F.seen below.old) }
        ensures valid { F.valid below.new }
        ensures below { F.same_below below.old below.new }
        ensures laid { Lays plan.now at (F.seen below.old) (F.seen below.new) }
        ensures stands { IfOk result (λ d. Stands d (F.seen below.new)) }
        ensures exact { IfOk result (λ d. IsNew plan.now at d (F.seen below.old) (F.seen below.new)) }
        ensures whole { OnOk result (BindsInTurn F.does_bind below.old (links_of plan.now at) below.new) }
        ensures connected { IfOk result (λ d. (dif : DifPlan) → slice_get plan.now.difs at ≡ Some dif → IsConnected d dif.manage (links_of plan.now at) (F.seen below.old) (F.seen below.new)) }
        ensures laid_so { IfOk result (λ d. (dif : DifPlan) → slice_get plan.now.difs at ≡ Some dif → d.laid ≡ record { is_static = dif.is_static; links = dif.links; wait = dif.wait }) }
    {
        let Some(dif) = plan.difs.get(at) else {
            unreachable!()
        };
        let settings = settings_of(alloc, plan, at, dif)?;
        let mut made = Dif::new(alloc, settings, dif.is_static, dif.manage, below.now())?;
        let ports = lay_links(&mut made.processes, alloc, plan, dif, &made.settings, below)?;
        let plans = dif.links.as_slice();
        let rules = dif.rules.as_slice();
        let managements = made.first_managements(alloc, dif.is_static, plans, rules, dif.allow)?;
        let members = made.settings.members.as_slice();
        route_all(&mut made.processes, alloc, members, managements.as_slice())?;
        made.managements = managements;
        made.laid = Layout::of(alloc, dif.is_static, plans, dif.wait)?;
        let (settings, clock) = (&made.settings, made.clock);
        let links = ports.as_slice();
        let manage = dif.manage;
        let connections = Connections::of_links(
            alloc,
            manage,
            settings,
            clock,
            &made.processes,
            links,
        )?;
        made.connections = connections;
        // A law, and no step: the members start as a network of flooding.
        members_are_a_network();
        Ok(made)
    }
}
