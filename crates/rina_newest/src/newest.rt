//! The newest items.
ghost use Rattle.std.specs.Prelude.{ℕ, List, ◌≡◌, ◌+◌, [], ◌∷◌, ◌++◌, None, MatchOption, IfOk, OnOk, OnErr, option_copied, drop, map};
ghost use Rattle.std.specs.BTreeMap.{get_by, is_at};
ghost use Rattle.std.specs.List.Sorted.{IsStrictlySortedBy};
ghost use Rattle.std.specs.Map.{keys_of, values_of, lookup, remove_entry};
ghost use Rattle.std.specs.Ordering.{nat_cmp};
ghost use Rattle.std.specs.Cmp.Lexicographic.{slice_cmp};
ghost use Rattle.rina_newest.specs.Newest.{IsIndexed, IsNumbered, kept_at, value_at, is_newer, without, taken, item_of, items_under};

use crate::item::{Item, Version};
use rina_base::{Memory, Seq};
use std::alloc::{AllocError, Global};
use std::collections::BTreeMap;
use std::marker::Model;

/// The item of greatest version for each key, whatever the order in which the items came. A deletion
/// is kept as an item without a value. A contract sees the list of the kept items, in the order of
/// their last changes.
#[derive(Drop)]
pub struct Newest {
    /// The number of each key's last change.
    places: BTreeMap<Vec<u8>, u64>,
    /// The number and the item of each last change, in the rising order of the numbers.
    items: Vec<(u64, Item)>,
    /// The number of the next change.
    next: u64,
}

impl Model for Newest {
    ghost use Rattle.std.specs.Prelude.{List};
    ghost use Rattle.std.specs.BTreeMap.{get_by};
    ghost use Rattle.std.specs.Map.{values_of};
    ghost use Rattle.std.specs.Ordering.{nat_cmp};
    ghost use Rattle.std.specs.Cmp.Lexicographic.{slice_cmp};
    ghost use Rattle.rina_newest.specs.declared.item.Item.{Item};
    ghost use Rattle.rina_newest.specs.Newest.{IsIndexed};

    ghost Value = { List Item };

    ghost view = { λ n. values_of n.items.items };

    ghost invariant = { λ n. IsIndexed (λ key. get_by (λ k. slice_cmp nat_cmp key k.items) n.places) n.items.items n.next };
}

/// The index of the item of change `at`, among items in the rising order of their numbers.
fn index_of(items: &[(u64, Item)], at: u64) -> Option<usize>
    requires { IsStrictlySortedBy nat_cmp (keys_of items.now) }
    ensures { MatchOption result (lookup (is_at (nat_cmp at)) items.now ≡ None) (IsNumbered items.now at) }
{
    items.binary_search_by_key(&at, |&(number, _)| number).ok()
}

/// Takes out the item of change `at`, if it is there.
fn take_out(items: &mut Vec<(u64, Item)>, at: u64)
    requires { IsStrictlySortedBy nat_cmp (keys_of items.old.items) }
    ensures { items.new.items ≡ remove_entry (is_at (nat_cmp at)) items.old.items }
{
    if let Some(index) = index_of(items, at) {
        let _ = items.remove(index);
    }
}

/// Puts an item in the place of the one that has its key, as change `at`.
fn replace(
    places: &mut BTreeMap<Vec<u8>, u64>,
    items: &mut Vec<(u64, Item)>,
    at: u64,
    key: Vec<u8>,
    item: Item,
) -> Result<(), Memory>
    requires indexed { IsIndexed (λ q. get_by (λ k. slice_cmp nat_cmp q k.items) places.old) items.old.items at }
    requires same { item.key ≡ key.items }
    ensures index { OnOk result (IsIndexed (λ q. get_by (λ k. slice_cmp nat_cmp q k.items) places.new) items.new.items (at + 1)) }
    ensures ok { OnOk result (values_of items.new.items ≡ without item.key (values_of items.old.items) ++ item ∷ []) }
    ensures stays { OnErr result (IsIndexed (λ q. get_by (λ k. slice_cmp nat_cmp q k.items) places.new) items.new.items at) }
    ensures err { OnErr result (items.new.items ≡ items.old.items) }
{
    let Ok(_) = items.push((at, item)) else {
        return Err(Memory);
    };
    let Ok(replaced) = places.insert(key, at) else {
        let _ = items.pop();
        return Err(Memory);
    };
    let Some(before) = replaced else {
        return Ok(());
    };
    take_out(items, before);
    Ok(())
}

/// A copy of the numbers of the keys' last changes.
fn places_copy(places: &BTreeMap<Vec<u8>, u64>) -> Result<BTreeMap<Vec<u8>, u64>, AllocError>
    ensures { IfOk result (λ copied. (q : List ℕ) → get_by (λ k. slice_cmp nat_cmp q k.items) copied ≡ get_by (λ k. slice_cmp nat_cmp q k.items) places.now) }
{
    places.clone()
}

/// A copy of items with their numbers.
fn items_copy(alloc: Global, items: &[(u64, Item)]) -> Result<Vec<(u64, Item)>, Memory>
    ensures { IfOk result (λ copied. copied.items ≡ items.now) }
{
    let mut copied = Vec::with_capacity(alloc, items.len())?;
    for (at, item) in items {
        let item = item.copy(alloc)?;
        let Ok(_) = copied.push((*at, item)) else {
            return Err(Memory);
        };
    }
    Ok(copied)
}

impl Newest {
    /// A table without items.
    pub fn new(alloc: Global) -> Newest
        ensures { result ≡ [] }
    {
        Newest {
            places: BTreeMap::new(alloc),
            items: Vec::new(alloc),
            next: 0,
        }
    }

    /// A copy: the same items, in the order of their last changes.
    pub fn copy(&self, alloc: Global) -> Result<Newest, Memory>
        ensures { IfOk result (λ n. n ≡ self.now) }
    {
        let places = places_copy(&self.places)?;
        let items = items_copy(alloc, &self.items)?;
        Ok(Newest {
            places,
            items,
            next: self.next,
        })
    }

    /// The item that is kept under a key.
    fn kept(&self, key: &[u8]) -> Option<&Item>
        ensures { option_copied result ≡ kept_at self.now key.now }
    {
        let at = self.places.get(key)?;
        let index = index_of(&self.items, *at)?;
        Some(&self.items[index].1)
    }

    /// The value that is kept under a key. None where nothing is, or a deletion. Takes no memory.
    pub fn get(&self, key: &[u8]) -> Option<&[u8]>
        ensures { option_copied result ≡ value_at self.now key.now }
    {
        self.kept(key)?.live()
    }

    /// Whether a version is newer than that of the item that is kept under a key; true where nothing is
    /// kept. Takes no memory.
    pub fn is_newer(&self, key: &[u8], version: Version) -> bool
        ensures { result ≡ is_newer version (kept_at self.now key.now) }
    {
        match self.kept(key) {
            Some(item) => item.version.is_below(version),
            None => true,
        }
    }

    /// Puts an item in the place of the one that is kept under its key, as the last change.
    fn put(&mut self, key: Vec<u8>, item: Item) -> Result<(), Memory>
        requires { item.key ≡ key.items }
        ensures ok { OnOk result (self.new ≡ without item.key self.old ++ item ∷ []) }
        ensures err { OnErr result (self.new ≡ self.old) }
    {
        let Some(following) = self.next.checked_add(1) else {
            return Err(Memory);
        };
        replace(&mut self.places, &mut self.items, self.next, key, item)?;
        self.next = following;
        Ok(())
    }

    /// Takes an item: true exactly where its version is greater than the kept one, or nothing is kept
    /// under its key; it is then the kept one. No value is a deletion. A call that fails changes nothing.
    #[tactic(auto, unfolding(crate::specs::Newest::taken))]
    pub fn take(
        &mut self,
        alloc: Global,
        key: &[u8],
        version: Version,
        value: Option<&[u8]>,
    ) -> Result<bool, Memory>
        ensures news { IfOk result (λ news. news ≡ is_newer version (kept_at self.old key.now)) }
        ensures ok { OnOk result (self.new ≡ taken self.old (item_of key.now version (option_copied value.entry))) }
        ensures err { OnErr result (self.new ≡ self.old) }
    {
        if !self.is_newer(key, version) {
            return Ok(false);
        }
        let item = Item::new(alloc, key, version, value)?;
        self.put(Vec::from_slice(alloc, key)?, item)?;
        Ok(true)
    }

    /// Copies of the kept items in the order of their last changes, from place `place` on, counted
    /// from 0.
    #[tactic(auto, using(crate::proofs::Numbers::values_more, crate::proofs::Numbers::values_taken))]
    pub fn since(&self, alloc: Global, place: u32) -> Result<Seq<Item>, Memory>
        ensures { IfOk result (λ items. items ≡ drop place self.now) }
    {
        let mut items = Seq::new(alloc);
        let mut before = place;
        for (_, item) in &self.items {
            if before > 0 {
                before -= 1;
            } else {
                items.push(item.copy(alloc)?)?;
            }
        }
        Ok(items)
    }

    /// The kept items whose keys begin with a text, in the order of their last changes.
    #[tactic(auto, using(crate::proofs::Numbers::values_more, crate::proofs::Numbers::values_taken))]
    pub fn under(&self, alloc: Global, text: &[u8]) -> Result<Vec<&Item>, Memory>
        ensures { IfOk result (λ found. map (λ item. item.now) found.items ≡ items_under text.now self.now) }
    {
        let mut found = Vec::new(alloc);
        for (_, item) in &self.items {
            if item.key.as_slice().starts_with(text) {
                if found.push(item).is_err() {
                    return Err(Memory);
                }
            }
        }
        Ok(found)
    }
}
