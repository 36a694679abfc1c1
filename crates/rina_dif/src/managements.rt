//! The managements of the members of a DIF, and the next hops over the items that they hold.
ghost use Rattle.std.specs.Prelude.{◌≡◌, ◌<◌, ◌≤◌, ◌+◌, [], ◌∷◌, ◌++◌, length, map, slice_get, slice_set, None, Some, IfOk, OnOk, OnErr, MatchOption, if◌then◌else◌};
ghost use Rattle.rina_agent.specs.Counts.{spent};
ghost use Rattle.rina_dif.specs.Changing.{MayHaveEntered, changed_at, with_flow_at};
ghost use Rattle.rina_dif.specs.Managing.{AreStarted};
ghost use Rattle.rina_dif.specs.Posting.{posted};
ghost use Rattle.rina_dif.specs.Requesting.{with_invoke_at};
ghost use Rattle.rina_member.specs.declared.management.Management.{Management};
ghost use Rattle.rina_dif.specs.Routing.{AreRouted};
ghost use Rattle.rina_member.specs.Managements.{entered, with_objects, with_sent};
ghost use Rattle.rina_member.specs.Objects.{first_objects, removed};

use crate::dif::Dif;
use crate::processes::Processes;
use rina_access::{Rule, Rules};
use rina_alloc::FlowMessage;
use rina_base::{Addr, AppName, Cep, Memory, Seq};
use rina_cube::Cube;
use rina_data::Member;
use rina_member::{Management, first_objects, routes_of, start_items, started, starts_enrolled};
use rina_newest::Newest;
use rina_plan::LinkPlan;
use rina_rib::Rib;
use std::alloc::{AllocError, Global};
use std::marker::Model;

/// The managements of the members of a DIF, each at the place of its member. A contract sees the list of them.
#[derive(Drop)]
pub struct Managements {
    items: Vec<Management>,
}

impl Model for Managements {
    ghost use Rattle.std.specs.Prelude.{List};
    ghost use Rattle.rina_member.specs.declared.management.Management.{Management};

    ghost Value = { List Management };

    ghost view = { λ m. m.items.items };
}

impl Managements {
    /// No managements yet.
    pub fn new(alloc: Global) -> Managements
        ensures { result ≡ [] }
    {
        Managements {
            items: Vec::new(alloc),
        }
    }

    /// Adds a management.
    pub fn push(&mut self, management: Management) -> Result<(), AllocError>
        ensures ok { OnOk result (self.new ≡ self.old ++ management ∷ []) }
        ensures err { OnErr result (self.new ≡ self.old) }
    {
        self.items.push(management)?;
        Ok(())
    }

    /// All managements, each at the place of its member.
    pub fn as_slice(&self) -> &[Management]
        ensures { result.now ≡ self.now }
    {
        self.items.as_slice()
    }

    /// The management of the member at a place, counted from 0. None where the place is out of range.
    pub fn get(&self, at: usize) -> Option<&Management>
        ensures { MatchOption result (length self.now ≤ at) (λ m. slice_get self.now at ≡ Some m.now) }
    {
        self.items.get(at)
    }

    /// Gives the member at a place another management. Takes no memory.
    pub fn set(&mut self, at: usize, management: Management)
        requires { at < length self.old }
        ensures { self.new ≡ slice_set self.old at management }
    {
        self.items[at] = management;
    }

    /// Every member takes the directory entry of an application that is registered at the member of an address. Where an
    /// allocation fails, the agent of each member is as before, or holds the entry.
    pub fn enter_all(&mut self, alloc: Global, app: &AppName, address: Addr) -> Result<(), Memory>
        ensures ok { OnOk result (self.new ≡ map (entered app.now address) self.old) }
        ensures err { OnErr result (MayHaveEntered app.now address self.old self.new) }
    {
        for at in 0..self.items.len() {
            self.items[at].enter(alloc, app, address)?;
        }
        Ok(())
    }

    /// Shows the object of a flow at the member of a place. Where an allocation fails nothing changes.
    pub fn show_flow(&mut self, alloc: Global, at: usize, cep: Cep) -> Result<(), Memory>
        requires { at < length self.old }
        ensures ok { OnOk result (self.new ≡ with_flow_at at cep self.old) }
        ensures err { OnErr result (self.new ≡ self.old) }
    {
        self.items[at].show_flow(alloc, cep)
    }

    /// Deletes an object of the member at a place, where it is there. Takes no memory.
    pub fn remove(&mut self, at: usize, name: &[u8])
        requires { at < length self.old }
        ensures { self.new ≡ changed_at at (λ m. with_objects m (removed m.objects name.now)) self.old }
    {
        self.items[at].remove(name);
    }

    /// Lets a message about a flow wait for a link of the member at a place. Without memory nothing changes.
    pub fn put_message(
        &mut self,
        alloc: Global,
        at: usize,
        link: u16,
        message: FlowMessage,
    ) -> Result<(), Memory>
        requires { at < length self.old }
        ensures ok { OnOk result (self.new ≡ posted at (Some link) message self.old) }
        ensures err { OnErr result (self.new ≡ self.old) }
    {
        self.items[at].agent.put_message(alloc, link, message)
    }

    /// The invoke id that the member at a place draws next. It has one left.
    pub fn next_invoke(&self, at: usize) -> u32
        requires at { at < length self.now }
        requires left { (m : Management) → slice_get self.now at ≡ Some m → spent 1 m.agent.last_invoke ≡ None }
        ensures { (m : Management) → slice_get self.now at ≡ Some m → result ≡ m.agent.last_invoke + 1 }
    {
        self.items[at].agent.last_invoke + 1
    }

    /// Draws the next invoke id of the member at a place, which has one left. Takes no memory.
    pub fn draw_invoke(&mut self, at: usize)
        requires at { at < length self.old }
        requires left { (m : Management) → slice_get self.old at ≡ Some m → spent 1 m.agent.last_invoke ≡ None }
        ensures { self.new ≡ with_invoke_at at self.old }
    {
        self.items[at].agent.last_invoke += 1;
    }

    /// Takes the first message that waits for a link of the member at a place away, which was sent. Takes no memory.
    pub fn sent(&mut self, at: usize, link: u16)
        requires { at < length self.old }
        ensures { self.new ≡ changed_at at (λ m. with_sent m link) self.old }
    {
        self.items[at].sent(link);
    }

    /// Gives the member at a place other objects. Takes no memory.
    pub fn set_objects(&mut self, at: usize, objects: Rib)
        requires { at < length self.old }
        ensures { self.new ≡ changed_at at (λ m. with_objects m objects) self.old }
    {
        self.items[at].objects = objects;
    }
}

/// The objects that members show from the start.
#[derive(Drop)]
struct FirstObjects {
    /// Those of a member that is enrolled.
    enrolled: Rib,
    /// Those of one that is outside.
    outside: Rib,
}

impl FirstObjects {
    /// Those of members that hold these items where they are enrolled.
    fn of(alloc: Global, cubes: &[Cube], items: &Newest) -> Result<FirstObjects, Memory>
        ensures enrolled { IfOk result (λ f. f.enrolled ≡ first_objects cubes.now items.now) }
        ensures outside { IfOk result (λ f. f.outside ≡ first_objects cubes.now []) }
    {
        let none = Newest::new(alloc);
        Ok(FirstObjects {
            enrolled: first_objects(alloc, cubes, items)?,
            outside: first_objects(alloc, cubes, &none)?,
        })
    }

    /// A copy of those of a member that is enrolled, or outside.
    fn of_member(&self, enrolled: bool) -> Result<Rib, Memory>
        ensures { IfOk result (λ rib. rib ≡ if enrolled then self.now.enrolled else self.now.outside) }
    {
        if enrolled {
            self.enrolled.copy()
        } else {
            self.outside.copy()
        }
    }
}

/// The management of each member from the start, at the place of the member, where these are the cubes and the links of the
/// DIF, and its IPC processes have theirs. `rules` are tried from the first on; `allow` is what holds where none matches.
pub(crate) fn start_all(
    alloc: Global,
    is_static: bool,
    cubes: &[Cube],
    members: &[Member],
    plans: &[LinkPlan],
    rules: &[Rule],
    allow: bool,
    processes: &Processes,
) -> Result<Managements, Memory>
    requires aligned { length processes.now ≡ length members.now }
    requires few { length rules.now ≤ 256 }
    ensures { IfOk result (λ managements. AreStarted is_static cubes.now members.now plans.now rules.now allow (length members.now) processes.now managements) }
{
    let items = start_items(alloc, is_static, members, plans)?;
    let shown = FirstObjects::of(alloc, cubes, &items)?;
    let mut managements = Managements::new(alloc);
    for at in 0..members.len() {
        let Some(process) = processes.get(at) else {
            unreachable!()
        };
        let access = Rules::new(alloc, rules, allow)?;
        let member = &members[at];
        let links = process.links.as_slice();
        let enrolled = starts_enrolled(is_static, members, member.addr);
        let agent = started(
            alloc, is_static, members, plans, access, member, links, &items,
        )?;
        let objects = shown.of_member(enrolled)?;
        managements.push(Management { agent, objects })?;
    }
    Ok(managements)
}

impl Dif {
    /// The managements of the members from the start, where the DIF is static or not and these links of it were laid. `rules`
    /// are tried from the first on; `allow` is what holds where none matches.
    pub(crate) fn first_managements(
        &self,
        alloc: Global,
        is_static: bool,
        plans: &[LinkPlan],
        rules: &[Rule],
        allow: bool,
    ) -> Result<Managements, Memory>
        requires aligned { length self.now.processes ≡ length self.now.settings.members }
        requires few { length rules.now ≤ 256 }
        ensures { IfOk result (λ managements. AreStarted is_static self.now.settings.cubes self.now.settings.members plans.now rules.now allow (length self.now.settings.members) self.now.processes managements) }
    {
        let cubes = self.settings.cubes.as_slice();
        let members = self.settings.members.as_slice();
        let processes = &self.processes;
        start_all(
            alloc, is_static, cubes, members, plans, rules, allow, processes,
        )
    }
}

/// Gives each IPC process the next hops over the items that its management holds.
pub(crate) fn route_all(
    processes: &mut Processes,
    alloc: Global,
    members: &[Member],
    managements: &[Management],
) -> Result<(), Memory>
    requires { length processes.old ≡ length managements.now }
    ensures { OnOk result (AreRouted members.now managements.now (length managements.now) processes.old processes.new) }
{
    for at in 0..managements.len() {
        let routes = routes_of(alloc, &managements[at].agent, members)?;
        processes.set_routes(at, Seq::from_vec(routes));
    }
    Ok(())
}
