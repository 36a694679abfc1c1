//! The management of a member.
ghost use Rattle.std.specs.Prelude.{◌≡◌, Some, IfOk, OnErr, OnOk};
ghost use Rattle.std.specs.Fmt.{decimal};
ghost use Rattle.rina_newest.specs.Newest.{item_of, taken};
ghost use Rattle.rina_member.specs.Managements.{MayHoldEntry, entered, with_flow, with_objects};
ghost use Rattle.rina_member.specs.Objects.{removed};
ghost use Rattle.rina_member.specs.Start.{first_version};
ghost use Rattle.rina_dir.specs.Directory.{key_of};

use crate::objects::{flow_name, remove, show_live, tell};
use crate::texts::first_version;
use rina_agent::{Agent, numbered};
use rina_base::{Addr, AppName, Bytes, Cep, Memory};
use rina_dir::write_key;
use rina_newest::Newest;
use rina_rib::{Class, Rib};
use std::alloc::Global;

/// The management of a member of a DIF: what it holds, and the objects that it shows.
#[derive(Drop)]
pub struct Management {
    /// Its state in its DIF, the items that it holds, its links, and the messages that wait for them.
    pub agent: Agent,
    /// Its objects. Those below `/member`, `/link` and `/dir` are its live items. Below `/flow` stands an object for each
    /// allocated end at the member. What is kept of its value is empty before the first request, and then that of the last one:
    /// the numbers of a flow change with each PDU and with time, and are read from the connection at each request. Requests
    /// alone change what is below `/user`.
    pub objects: Rib,
}

/// The key of the directory entry of an application.
pub(crate) fn entry_key(alloc: Global, app: &AppName) -> Result<Bytes, Memory>
    ensures { IfOk result (λ key. key ≡ key_of app.now) }
{
    let name = app.as_bytes();
    let mut key = vec![in alloc; 0u8; name.len() + 5]?;
    let length = write_key(name, key.as_mut_slice());
    Ok(Bytes::copy_of(alloc, &key[..length])?)
}

/// The value of a directory entry: an address in decimal.
pub(crate) fn entry_value(alloc: Global, address: Addr) -> Result<Bytes, Memory>
    ensures { IfOk result (λ value. value ≡ decimal address) }
{
    Ok(numbered(alloc, b"", u64::from(address))?)
}

/// Takes the entry of an application at an address among items. Where an allocation fails nothing changes.
fn take_entry(alloc: Global, items: &mut Newest, key: &[u8], address: Addr) -> Result<(), Memory>
    ensures ok { OnOk result (items.new ≡ taken items.old (item_of key.now (first_version address) (Some (decimal address)))) }
    ensures err { OnErr result (items.new ≡ items.old) }
{
    let value = entry_value(alloc, address)?;
    let version = first_version(address);
    let _ = items.take(alloc, key, version, Some(value.as_slice()))?;
    Ok(())
}

impl Management {
    /// A copy.
    pub fn copy(&self, alloc: Global) -> Result<Management, Memory>
        ensures { IfOk result (λ m. m ≡ self.now) }
    {
        let agent = self.agent.copy(alloc)?;
        let objects = self.objects.copy()?;
        Ok(Management { agent, objects })
    }

    /// Takes the directory entry of an application that is registered at the member of an address from the start. Of two
    /// entries of one application that of the greater address stays. Where an allocation fails, its agent is as before, or
    /// holds the entry.
    #[tactic(auto, unfolding(crate::specs::Managements::entered))]
    pub fn enter(&mut self, alloc: Global, app: &AppName, address: Addr) -> Result<(), Memory>
        ensures ok { OnOk result (self.new ≡ entered app.now address self.old) }
        ensures err { OnErr result (MayHoldEntry app.now address self.old self.new) }
    {
        let key = entry_key(alloc, app)?;
        take_entry(alloc, &mut self.agent.items, key.as_slice(), address)?;
        show_live(alloc, &mut self.objects, &self.agent.items, key.as_slice())
    }

    /// Shows the object of a flow from now on, an end of which is allocated at the member. What is kept of its value is empty.
    /// Where an allocation fails nothing changes: neither what the member holds nor its objects.
    pub fn show_flow(&mut self, alloc: Global, cep: Cep) -> Result<(), Memory>
        ensures ok { OnOk result (self.new ≡ with_flow self.old cep) }
        ensures err { OnErr result (self.new ≡ self.old) }
    {
        let name = flow_name(alloc, cep)?;
        tell(
            alloc,
            &mut self.objects,
            name.as_slice(),
            Class::Flow,
            b"".as_slice(),
        )
    }

    /// Deletes an object of the member, where it is there. Takes no memory.
    pub fn remove(&mut self, name: &[u8])
        ensures { self.new ≡ with_objects self.old (removed self.old.objects name.now) }
    {
        remove(&mut self.objects, name);
    }
}
