//! What a member does with items: its own, and those that come on its links.
ghost use Rattle.std.specs.Prelude.{◌≡◌, ◌++◌, None, Some, option_copied, IfOk, OnOk, OnErr};
ghost use Rattle.std.specs.Fmt.{decimal};
ghost use Rattle.rina_newest.specs.Newest.{item_of};
ghost use Rattle.rina_agent.specs.Agenda.{floods};
ghost use Rattle.rina_agent.specs.Counts.{spent, unless};
ghost use Rattle.rina_agent.specs.Items.{made, stated, took};
ghost use Rattle.rina_agent.specs.Rows.{Does};

use crate::agent::Agent;
use crate::flood::floods;
use crate::link::Link;
use crate::message::Waiting;
use crate::neighbours::link_state;
use crate::state::{AgentError, check};
use crate::text::numbered;
use rina_base::{Memory, Tick};
use rina_newest::{Item, Version};
use std::alloc::Global;

/// The floods of a new item.
fn news(
    alloc: Global,
    out: Option<u16>,
    key: &[u8],
    version: Version,
    value: Option<&[u8]>,
    links: &[Link],
) -> Result<Vec<Waiting>, Memory>
    ensures { IfOk result (λ v. v.items ≡ floods out (item_of key.now version (option_copied value.entry)) links.now) }
{
    let item = Item::new(alloc, key, version, value)?;
    floods(alloc, out, &item, links)
}

impl Agent {
    /// Makes an item of its own, and floods it on each link that is up, but one. Without memory nothing changes.
    pub(crate) fn make(
        &mut self,
        alloc: Global,
        now: Tick,
        out: Option<u16>,
        key: &[u8],
        value: Option<&[u8]>,
    ) -> Result<(), Memory>
        ensures ok { OnOk result (self.new ≡ made out self.old now key.now (option_copied value.entry)) }
        ensures err { OnErr result (self.new ≡ self.old) }
    {
        let count = self.last_count.saturating_add(1);
        let version = Version {
            tick: now,
            count,
            origin: self.address,
        };
        let floods = news(alloc, out, key, version, value, self.links.as_slice())?;
        let before = self.agenda.len();
        self.agenda.append(floods)?;
        if self.items.take(alloc, key, version, value).is_err() {
            self.agenda.cut(before);
            return Err(Memory);
        }
        self.last_count = count;
        Ok(())
    }

    /// Makes the item of its own address in a folder, and floods it on each link that is up, but one. Without memory nothing
    /// changes.
    pub(crate) fn make_own(
        &mut self,
        alloc: Global,
        now: Tick,
        out: Option<u16>,
        folder: &[u8],
        value: &[u8],
    ) -> Result<(), Memory>
        ensures ok { OnOk result (self.new ≡ made out self.old now (folder.now ++ decimal self.old.address) (Some value.now)) }
        ensures err { OnErr result (self.new ≡ self.old) }
    {
        let key = numbered(alloc, folder, u64::from(self.address))?;
        self.make(alloc, now, out, key.as_slice(), Some(value))
    }

    /// Makes its link state, without one of its links, and floods it on the others. Without memory nothing changes.
    pub(crate) fn make_link_state(
        &mut self,
        alloc: Global,
        now: Tick,
        out: Option<u16>,
    ) -> Result<(), Memory>
        ensures ok { OnOk result (self.new ≡ stated out self.old now) }
        ensures err { OnErr result (self.new ≡ self.old) }
    {
        let text = link_state(alloc, self.links.as_slice(), out)?;
        self.make_own(alloc, now, out, b"/link/", text.as_slice())
    }

    /// Takes an item that came on a link: where it is newer than what is kept under its key, it is kept, and flooded on each
    /// link that is up but this one. Without memory nothing changes.
    #[tactic(auto, unfolding(rina_newest::specs::Newest::taken))]
    pub(crate) fn take_item(&mut self, alloc: Global, link: u16, item: &Item) -> Result<(), Memory>
        ensures ok { OnOk result (self.new ≡ took link self.old item.now) }
        ensures err { OnErr result (self.new ≡ self.old) }
    {
        let floods = floods(alloc, Some(link), item, self.links.as_slice())?;
        let before = self.agenda.len();
        self.agenda.append(floods)?;
        let key = item.key.as_slice();
        match self.items.take(alloc, key, item.version, item.live()) {
            Ok(true) => Ok(()),
            Ok(false) => {
                self.agenda.cut(before);
                Ok(())
            }
            Err(_) => {
                self.agenda.cut(before);
                Err(Memory)
            }
        }
    }

    /// Makes an item of its own at a tick, such as a directory entry, and floods it on each link that is up; no value is a
    /// deletion. Refused with `CountSpent` where it has made 4,294,967,295 items.
    pub fn make_item(
        &mut self,
        alloc: Global,
        now: Tick,
        key: &[u8],
        value: Option<&[u8]>,
    ) -> Result<(), AgentError>
        ensures { Does result self.old self.new (unless (spent 1 self.old.last_count) (made None self.old now key.now (option_copied value.entry))) }
    {
        check(1, self.last_count)?;
        self.make(alloc, now, None, key, value)?;
        Ok(())
    }
}
