//! The management of one IPC process.
ghost use Rattle.std.specs.Prelude.{◌≡◌, [], ◌∷◌, ◌++◌, IfOk, OnOk, OnErr, option_copied};
ghost use Rattle.rina_agent.specs.Firsts.{first_items};

use crate::agenda::Agenda;
use crate::link::{Link, copies};
use crate::message::{ManagementMessage, Waiting};
use crate::state::MemberState;
use crate::text::numbered;
use rina_access::Rules;
use rina_alloc::FlowMessage;
use rina_base::{Addr, AppName, Memory, Name, Seq};
use rina_newest::{Newest, Version};
use std::alloc::Global;

/// The management of one IPC process.
#[derive(Drop)]
pub struct Agent {
    pub state: MemberState,
    /// Its address in its DIF.
    pub address: Addr,
    /// Its name as an application of the facilities below: that of its DIF, a slash, and that of its node.
    pub name: AppName,
    /// The name of its node.
    pub node: Name,
    /// Who may enrol here.
    pub rules: Rules,
    /// The items of its DIF that it keeps.
    pub items: Newest,
    /// The version count of the item that it made last; 0 before the first.
    pub last_count: u32,
    /// The invoke id of the request that it sent last; 0 before the first.
    pub last_invoke: u32,
    /// Its live links, of which no two have one number.
    pub links: Seq<Link>,
    /// The messages that wait for its links.
    pub agenda: Agenda,
}

/// What the first member of a DIF that is not static keeps from the start: its own member item.
#[tactic(auto, unfolding(rina_newest::specs::Newest::taken))]
pub fn first_items(alloc: Global, address: Addr, node: &Name) -> Result<Newest, Memory>
    ensures { IfOk result (λ items. items ≡ first_items address node.now) }
{
    let version = Version {
        tick: 0,
        count: 0,
        origin: address,
    };
    let key = numbered(alloc, b"/member/", u64::from(address))?;
    let mut items = Newest::new(alloc);
    let _ = items.take(alloc, key.as_slice(), version, Some(node.as_bytes()))?;
    Ok(items)
}

impl Agent {
    ghost use Rattle.rina_agent.specs.Agenda.{first_on, without_first};
    ghost use Rattle.rina_agent.specs.declared.message.ManagementMessage.TheVariants.{ToMember};
    ghost use Rattle.rina_agent.specs.declared.state.MemberState.TheVariants.{Outside, Enrolled};

    /// An IPC process that is no member yet: no items, no links.
    pub fn outside(alloc: Global, address: Addr, name: AppName, node: Name, rules: Rules) -> Agent
        ensures { result ≡ record { state = Outside; address = address; name = name; node = node; rules = rules; items = []; last_count = 0; last_invoke = 0; links = []; agenda = [] } }
    {
        Agent {
            state: MemberState::Outside,
            address,
            name,
            node,
            rules,
            items: Newest::new(alloc),
            last_count: 0,
            last_invoke: 0,
            links: Seq::new(alloc),
            agenda: Agenda::new(alloc),
        }
    }

    /// A member from the start: with the items and the links of a static start, or with the items of the first member
    /// (`first_items`) and no links.
    pub fn enrolled(
        alloc: Global,
        address: Addr,
        name: AppName,
        node: Name,
        rules: Rules,
        items: Newest,
        links: Seq<Link>,
    ) -> Agent
        ensures { result ≡ record { state = Enrolled; address = address; name = name; node = node; rules = rules; items = items; last_count = 0; last_invoke = 0; links = links; agenda = [] } }
    {
        Agent {
            state: MemberState::Enrolled,
            address,
            name,
            node,
            rules,
            items,
            last_count: 0,
            last_invoke: 0,
            links,
            agenda: Agenda::new(alloc),
        }
    }

    /// A copy.
    pub fn copy(&self, alloc: Global) -> Result<Agent, Memory>
        ensures { IfOk result (λ agent. agent ≡ self.now) }
    {
        let name = self.name.copy(alloc)?;
        let node = self.node.copy(alloc)?;
        let rules = self.rules.copy(alloc)?;
        let items = self.items.copy(alloc)?;
        let links = copies(alloc, self.links.as_slice())?;
        let agenda = self.agenda.copy(alloc)?;
        Ok(Agent {
            state: self.state,
            address: self.address,
            name,
            node,
            rules,
            items,
            last_count: self.last_count,
            last_invoke: self.last_invoke,
            links,
            agenda,
        })
    }

    /// The first message that waits for a link. None exactly where none does. Takes no memory.
    pub fn next_message(&self, link: u16) -> Option<&Waiting>
        ensures { option_copied result ≡ first_on link self.now.agenda }
    {
        self.agenda.first(link)
    }

    /// Takes the first message of a link away, where one waits. Takes no memory.
    pub fn take_message(&mut self, link: u16)
        ensures { self.new ≡ record self.old { agenda = without_first link self.old.agenda } }
    {
        self.agenda.take_first(link);
    }

    /// Lets a message about a flow wait for a link. Without memory nothing changes.
    pub fn put_message(&mut self, alloc: Global, link: u16, m: FlowMessage) -> Result<(), Memory>
        ensures ok { OnOk result (self.new ≡ record self.old { agenda = self.old.agenda ++ record { link = link; message = ToMember m } ∷ [] }) }
        ensures err { OnErr result (self.new ≡ self.old) }
    {
        let _ = alloc;
        self.agenda.put(link, ManagementMessage::ToMember(m))
    }
}
