//! Why the enrolled member at a node refuses to ask for a flow.
ghost use Rattle.std.specs.Prelude.{◌≡◌, ◌<◌, ◌*◌, ◌^◌, ◌-◌, IfOk, None, Some, length, slice_get};
ghost use Rattle.rina_dir.specs.Directory.{AreEntries, found};
ghost use Rattle.rina_member.specs.declared.management.Management.{Management};
ghost use Rattle.rina_pci.specs.Spelling.{AreWidths};
ghost use Rattle.rina_dif.specs.Allocating.{TellsAddress, TellsRefusal, TellsWay, by_count, by_ids, member_refusal, spent_ids, way};
ghost use Rattle.rina_dif.specs.Whole.{IsDif};

use crate::dif::Dif;
use crate::fixed_flows::drawn;
use rina_base::{Addr, AppName, Node};
use rina_data::next_link;
use rina_dir::find;
use rina_iface::{AllocateError, Ask};
use rina_member::its_items_are_entries;
use rina_pci::Widths;

/// The greatest CEP-id.
pub(crate) fn greatest_cep(widths: Widths) -> u32
    requires { AreWidths widths }
    ensures { result ≡ 2 ^ (8 * widths.cep) - 1 }
{
    match widths.cep {
        1 => 0xff,
        2 => 0xffff,
        _ => u32::MAX,
    }
}

/// Whether an invoke id is left behind the last one.
fn check_count(last: u32) -> Result<(), AllocateError>
    ensures { TellsRefusal (by_count last) result }
{
    let left = u32::MAX - last;
    if left < 1 {
        return Err(AllocateError::CountSpent { need: 1, left });
    }
    Ok(())
}

impl Dif {
    /// The address of another member at which the member at a place knows an application to be registered.
    pub(crate) fn address_of(&self, at: usize, app: &AppName) -> Result<Addr, AllocateError>
        requires at { at < length self.now.managements }
        requires entries { (m : Management) → slice_get self.now.managements at ≡ Some m → AreEntries m.agent.items }
        ensures { (m : Management) → slice_get self.now.managements at ≡ Some m → TellsAddress m app.now result }
    {
        let Some(management) = self.managements.get(at) else {
            unreachable!()
        };
        let Some(address) = find(&management.agent.items, app) else {
            return Err(AllocateError::NoSuchApp);
        };
        if address == management.agent.address {
            return Err(AllocateError::SameSystem);
        }
        Ok(address)
    }

    /// How many CEP-ids of the member at a place are in use or at rest, where none is free; or how many ports were drawn at its node, where all
    /// were. None exactly where a CEP-id and a port may be drawn there.
    pub(crate) fn ids_spent(&self, at: usize, node: Node) -> Option<u32>
        requires valid { IsDif self.now }
        requires at { at < length self.now.settings.members }
        ensures { result ≡ spent_ids self.now at node }
    {
        let greatest = greatest_cep(self.settings.widths);
        match self.ids.free(at, self.clock) {
            Some(cep) if cep <= greatest => {}
            _ => return Some(greatest),
        }
        if drawn(self.flows.journal.ends.as_slice(), node) < u32::MAX as usize {
            return None;
        }
        Some(u32::MAX)
    }

    /// Whether the member at a place may draw a CEP-id and a port.
    fn check_ids(&self, at: usize, node: Node) -> Result<(), AllocateError>
        requires valid { IsDif self.now }
        requires at { at < length self.now.settings.members }
        ensures { TellsRefusal (by_ids (spent_ids self.now at node) None) result }
    {
        match self.ids_spent(at, node) {
            Some(used) => Err(AllocateError::NoIds { used }),
            None => Ok(()),
        }
    }

    /// The link of the member at a place on which the way to an address begins.
    pub(crate) fn way_to(&self, at: usize, dst: Addr) -> Result<u16, AllocateError>
        requires { at < length self.now.processes }
        ensures { TellsWay (way self.now at dst) dst result }
    {
        let Some(process) = self.processes.get(at) else {
            unreachable!()
        };
        match next_link(process.routes.as_slice(), dst) {
            Some(link) => Ok(link),
            None => Err(AllocateError::NoRoute { dst }),
        }
    }

    /// Whether the member at a place has an invoke id left.
    fn check_invoke(&self, at: usize) -> Result<(), AllocateError>
        requires { at < length self.now.managements }
        ensures { (m : Management) → slice_get self.now.managements at ≡ Some m → TellsRefusal (by_count m.agent.last_invoke) result }
    {
        let Some(management) = self.managements.get(at) else {
            unreachable!()
        };
        check_count(management.agent.last_invoke)
    }

    /// The address of another member of which the enrolled member at a place may ask a flow, or the first cause for which it refuses: it knows
    /// the application nowhere, or at itself, it can draw no CEP-id or port, it knows no way to the address, or it has no invoke id left.
    pub(crate) fn asked_address(&self, at: usize, ask: &Ask) -> Result<Addr, AllocateError>
        requires valid { IsDif self.now }
        requires at { at < length self.now.settings.members }
        ensures refuses { (m : Management) → slice_get self.now.managements at ≡ Some m → TellsRefusal (member_refusal self.now at ask.now.node ask.now.to m) result }
        ensures finds { (m : Management) → slice_get self.now.managements at ≡ Some m → IfOk result (λ far. found m.agent.items ask.now.to ≡ Some far) }
    {
        // A law, and no step: what the member keeps has the form of a directory.
        its_items_are_entries();
        let far = self.address_of(at, &ask.to)?;
        self.check_ids(at, ask.node)?;
        let _link = self.way_to(at, far)?;
        self.check_invoke(at)?;
        Ok(far)
    }
}
