//! Items and their versions.
ghost use Rattle.std.specs.Prelude.{◌≡◌, IfOk, option_copied};

use rina_base::{Addr, Bytes, Memory, Seq, Tick};
use std::alloc::Global;

/// When an item was made, and by whom. The greater version is the newer: by tick, then count, then
/// origin.
#[derive(Clone, Copy, Debug, PartialEq, Eq)]
pub struct Version {
    pub tick: Tick,
    /// How many items the origin had made by then.
    pub count: u32,
    /// The address of the member that made the item.
    pub origin: Addr,
}

/// What is replicated under a key. No value is a deletion.
#[derive(Drop)]
pub struct Item {
    pub key: Bytes,
    pub version: Version,
    pub value: Option<Bytes>,
}

impl Version {
    ghost use Rattle.rina_newest.specs.Newest.{is_below};

    /// Whether another version is the newer.
    #[tactic(auto, unfolding(crate::specs::Newest::is_below))]
    pub fn is_below(self, other: Version) -> bool
        ensures { result ≡ is_below self other }
    {
        self.tick < other.tick
            || (self.tick == other.tick
                && (self.count < other.count
                    || (self.count == other.count && self.origin < other.origin)))
    }
}

/// A copy of a value.
fn value_copy(alloc: Global, value: Option<&[u8]>) -> Result<Option<Bytes>, Memory>
    ensures { IfOk result (λ v. v ≡ option_copied value.entry) }
{
    match value {
        Some(bytes) => Ok(Some(Seq::copy_of(alloc, bytes)?)),
        None => Ok(None),
    }
}

impl Item {
    ghost use Rattle.rina_newest.specs.Newest.{item_of};

    /// An item with copies of a key and a value.
    pub fn new(
        alloc: Global,
        key: &[u8],
        version: Version,
        value: Option<&[u8]>,
    ) -> Result<Item, Memory>
        ensures { IfOk result (λ item. item ≡ item_of key.now version (option_copied value.entry)) }
    {
        let key = Seq::copy_of(alloc, key)?;
        let value = value_copy(alloc, value)?;
        Ok(Item {
            key,
            version,
            value,
        })
    }

    /// The value, where the item is no deletion.
    pub fn live(&self) -> Option<&[u8]>
        ensures { option_copied result ≡ self.now.value }
    {
        match &self.value {
            Some(bytes) => Some(bytes.as_slice()),
            None => None,
        }
    }

    /// A copy.
    pub fn copy(&self, alloc: Global) -> Result<Item, Memory>
        ensures { IfOk result (λ item. item ≡ self.now) }
    {
        Item::new(alloc, self.key.as_slice(), self.version, self.live())
    }
}
