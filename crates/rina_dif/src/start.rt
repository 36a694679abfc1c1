//! How a DIF is made.
ghost use Rattle.std.specs.Prelude.{◌≡◌, [], false, map, IfOk};
ghost use Rattle.rina_iface.specs.Journal.{AreKept};
ghost use Rattle.rina_iface.specs.Seen.{Seen};
ghost use Rattle.rina_data.specs.declared.settings.Member.{Member};
ghost use Rattle.rina_data.specs.Configs.{config_of};
ghost use Rattle.rina_dif_law.specs.Numbered.{AreMembers};
ghost use Rattle.rina_member.specs.Short.{AreNamed};
ghost use Rattle.rina_member.specs.Start.{first_enrolled};
ghost use Rattle.rina_dif.specs.Building.{AreBare, IsBare, IsBareDif, IsFree, queue_ids};
ghost use Rattle.rina_dif.specs.Connected.{CanManage};
ghost use Rattle.rina_dif.specs.Holding.{Holds};

use crate::connections::Connections;
use crate::dif::Dif;
use crate::layout::Layout;
use crate::managements::start_all;
use crate::names::are_named;
use crate::processes::Processes;
use rina_account::Ledger;
use rina_base::{Memory, Node, Seq, Tick};
use rina_cube::Cube;
use rina_data::{IpcProcess, Member, Settings};
use rina_flood::members_are_a_network;
use rina_flows::Flows;
use rina_ids::MemberIds;
use rina_member::first_enrolled;
use rina_queue::Queues;
use std::alloc::{AllocError, Global};

/// The ids of the queues of a link: that of management, and those of the cubes.
fn queue_ids(alloc: Global, cubes: &[Cube]) -> Result<Vec<u8>, AllocError>
    ensures { IfOk result (λ v. v.items ≡ queue_ids cubes.now) }
{
    let mut ids = Vec::new(alloc);
    ids.push(0)?;
    for cube in cubes {
        ids.push(cube.id)?;
    }
    Ok(ids)
}

/// An IPC process without links.
fn bare(alloc: Global, settings: &Settings) -> Result<IpcProcess, Memory>
    ensures { IfOk result (IsBare settings.now) }
{
    let ids = queue_ids(alloc, settings.cubes.as_slice())?;
    Ok(IpcProcess {
        links: Seq::new(alloc),
        routes: Seq::new(alloc),
        queues: Queues::new(alloc, settings.cap, ids.as_slice())?,
        ledger: Ledger::new(alloc),
    })
}

/// An IPC process without links for each member.
fn all_bare(alloc: Global, settings: &Settings) -> Result<Processes, Memory>
    ensures { IfOk result (AreBare settings.now) }
{
    let mut processes = Processes::new(alloc);
    for _member in settings.members.as_slice() {
        processes.push(bare(alloc, settings)?)?;
    }
    Ok(processes)
}

/// The nodes of members.
fn nodes_of(alloc: Global, members: &[Member]) -> Result<Seq<Node>, AllocError>
    ensures { IfOk result (λ nodes. nodes ≡ map (λ (m : Member). m.node) members.now) }
{
    Ok(Seq::from_vec(members.iter().map(|member| member.node).collect(alloc)?))
}

impl Dif {
    /// A DIF of these settings, static or not, whose clock is that of the rank below, without links, names and flows, where
    /// everyone may enrol. `manage` is the cube of the management connections that its links will have. It stands on every kept rank where
    /// no end has a member as its application or its peer, if it can have such connections.
    pub fn new(
        alloc: Global,
        settings: Settings,
        is_static: bool,
        manage: Cube,
        clock: Tick,
    ) -> Result<Dif, Memory>
        ensures settings { IfOk result (λ d. d.settings ≡ settings) }
        ensures clock { IfOk result (λ d. d.clock ≡ clock) }
        ensures manage { IfOk result (λ d. d.connections.manage ≡ manage) }
        ensures alive { IfOk result (λ d. d.failed ≡ false) }
        ensures bare { IfOk result IsBareDif }
        ensures static_so { IfOk result (λ d. d.laid.is_static ≡ is_static) }
        ensures enrolled { IfOk result (λ d. d.enrolled ≡ map (λ (m : Member). m.node) (first_enrolled is_static d.settings.members)) }
        ensures named { IfOk result (λ d. AreNamed d.settings.members) }
        ensures holds { IfOk result (λ d. (below : Seen) → AreKept below → CanManage (config_of settings) manage → AreMembers (config_of settings) → (is_static ≡ false → settings.admits ≡ 0) → clock ≡ below.now → IsFree (config_of settings) below → Holds d [] below) }
    {
        let processes = all_bare(alloc, &settings)?;
        let ids = MemberIds::new(alloc, settings.widths.cep, settings.members.len())?;
        let laid = Layout::none(alloc, is_static);
        let connections = Connections::none(alloc, manage);
        let members = settings.members.as_slice();
        let rules = Seq::new(alloc);
        let managements = start_all(
            alloc,
            is_static,
            settings.cubes.as_slice(),
            members,
            laid.links.as_slice(),
            rules.as_slice(),
            true,
            &processes,
        )?;
        let enrolled = nodes_of(alloc, first_enrolled(is_static, members))?;
        // Laws, and no steps: the members start as a network of flooding, and have names that they can tell each other.
        members_are_a_network();
        are_named(members);
        Ok(Dif {
            settings,
            clock,
            processes,
            managements,
            laid,
            connections,
            flows: Flows::new(alloc),
            ids,
            waiting: Vec::new(alloc),
            asks: Vec::new(alloc),
            names: Seq::new(alloc),
            enrolled,
            failed: false,
        })
    }
}
