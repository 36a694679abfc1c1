//! The shelf: policies by name.
ghost use Rattle.std.specs.Prelude.{◌≡◌, ◌+◌, ◌<◌, ◌≤◌, ◌↔◌, [], ◌∷◌, ◌++◌, ℕ, length, option_map, slice_get, true, false, Some, None, IfSome, IfNone, IfOk, MatchOption, OnOk, OnErr, IsErr};
ghost use Rattle.std.specs.Str.{bytes_eq};
ghost use Rattle.rina_policy.specs.Count.{counted};
ghost use Rattle.rina_policy.specs.Slots.{slot, slots_of, place_of, has_name, count_of, asked, retired, policy_of};

use crate::policy::{Head, Policy};
use rina_base::{Memory, Name};
use std::alloc::{AllocError, Global};

/// Why no policy is added.
#[derive(Clone, Copy, Debug, PartialEq, Eq)]
pub enum ShelfError {
    /// Memory was not found.
    Memory,
    /// The shelf has that name, live or retired.
    Twice,
}

impl From<AllocError> for ShelfError {
    ghost use Rattle.std.specs.Prelude.{◌≡◌};
    ghost use Rattle.rina_policy.specs.declared.shelf.ShelfError.TheVariants.{Memory};

    ghost from_gives = { λ _ e. e ≡ Memory };

    fn from(_error: AllocError) -> ShelfError {
        ShelfError::Memory
    }
}

/// The shelf has no live policy of that name.
#[derive(Clone, Copy, Debug, PartialEq, Eq)]
pub struct NoPolicy;

/// A place of a shelf.
#[derive(Drop)]
pub struct Place {
    pub name: Name,
    /// None where the policy is retired.
    pub policy: Option<Box<dyn Policy>>,
}

/// Policies by name, in the order in which they were added.
#[derive(Drop)]
pub struct Shelf {
    pub places: Vec<Place>,
}

fn ask_policy(policy: &mut Box<dyn Policy>, who: u32, heads: &[Head]) -> u32
    requires some { 0 < length heads.now }
    requires few { length heads.now ≤ 256 }
    ensures answer { may_pick policy.old who heads.now result }
    ensures within { result < length heads.now }
    ensures counted { count policy.new ≡ counted (count policy.old) result }
{
    policy.pick(who, heads)
}

/// Asks the policy of a place, where it is live.
fn ask_place(place: &mut Place, who: u32, heads: &[Head]) -> u32
    requires some { 0 < length heads.now }
    requires few { length heads.now ≤ 256 }
    ensures name { place.new.name ≡ place.old.name }
    ensures asked { option_map (λ b. count b) place.new.policy ≡ option_map (λ c. counted c result) (option_map (λ b. count b) place.old.policy) }
    ensures answer { MatchOption place.old.policy (result ≡ 0) (λ b. may_pick b who heads.now result) }
    ensures within { result < length heads.now }
    ensures dead { place.old.policy ≡ None → result ≡ 0 }
{
    match &mut place.policy {
        Some(policy) => ask_policy(policy, who, heads),
        None => 0,
    }
}

fn retire_place(place: &mut Place)
    ensures name { place.new.name ≡ place.old.name }
    ensures gone { place.new.policy ≡ None }
{
    place.policy = None;
}

fn has_that_name(place: &Place, name: &Name) -> bool
    ensures { result ≡ bytes_eq place.now.name name.now }
{
    place.name.is(name)
}

/// Where a name stands first.
fn first_of(places: &[Place], name: &Name) -> Option<usize>
    ensures found { IfSome result (λ k. (p : _) × (slice_get places.now k ≡ Some p) × (bytes_eq p.name name.now ≡ true)) }
    ensures within { IfSome result (λ k. k < length places.now) }
    ensures first { IfSome result (λ k. (j : ℕ) (p : _) → j < k → slice_get places.now j ≡ Some p → bytes_eq p.name name.now ≡ false) }
    ensures none { IfNone result ((j : ℕ) (p : _) → slice_get places.now j ≡ Some p → bytes_eq p.name name.now ≡ false) }
{
    for at in 0..places.len() {
        if has_that_name(&places[at], name) {
            return Some(at);
        }
    }
    None
}

impl Shelf {
    /// A shelf without policies.
    pub fn new(alloc: Global) -> Result<Shelf, Memory>
        ensures { IfOk result (λ s. s.places.items ≡ []) }
    {
        Ok(Shelf {
            places: Vec::new(alloc),
        })
    }

    /// The place of a name.
    fn find(&self, name: &Name) -> Option<usize>
        ensures place { result ≡ place_of name.now (slots_of (λ p. p.name) (λ p. p.policy) (λ b. count b) self.now.places.items) }
        ensures found { IfSome result (λ k. (p : _) × (slice_get self.now.places.items k ≡ Some p) × (p.name ≡ name.now)) }
        ensures policy { IfSome result (λ k. (p : _) × (slice_get self.now.places.items k ≡ Some p) × (policy_of (λ q. q.name) (λ q. q.policy) name.now self.now.places.items ≡ p.policy)) }
        ensures none { IfNone result (policy_of (λ q. q.name) (λ q. q.policy) name.now self.now.places.items ≡ None) }
        ensures within { IfSome result (λ k. k < length self.now.places.items) }
    {
        first_of(self.places.as_slice(), name)
    }

    /// Whether the shelf has a name, live or retired. Takes no memory.
    pub fn has(&self, name: &Name) -> bool
        ensures { result ≡ has_name name.now (slots_of (λ p. p.name) (λ p. p.policy) (λ b. count b) self.now.places.items) }
    {
        self.find(name).is_some()
    }

    /// Puts a policy last on the shelf.
    pub fn add(
        &mut self,
        _alloc: Global,
        name: Name,
        policy: Box<dyn Policy>,
    ) -> Result<(), ShelfError>
        ensures ok { OnOk result (slots_of (λ p. p.name) (λ p. p.policy) (λ b. count b) self.new.places.items ≡ slots_of (λ p. p.name) (λ p. p.policy) (λ b. count b) self.old.places.items ++ slot name (Some (count policy)) ∷ []) }
        ensures twice { (result ≡ Err ShelfError.Twice) ↔ (has_name name (slots_of (λ p. p.name) (λ p. p.policy) (λ b. count b) self.old.places.items) ≡ true) }
        ensures err { OnErr result (self.new.places.items ≡ self.old.places.items) }
    {
        if self.has(&name) {
            return Err(ShelfError::Twice);
        }
        let policy = Some(policy);
        match self.places.push(Place { name, policy }) {
            Ok(()) => Ok(()),
            Err(_) => Err(ShelfError::Memory),
        }
    }

    /// Drops the policy of a name; the shelf keeps the name. Takes no memory.
    pub fn retire(&mut self, name: &Name) -> Result<(), NoPolicy>
        ensures ok { OnOk result (slots_of (λ p. p.name) (λ p. p.policy) (λ b. count b) self.new.places.items ≡ retired name.now (slots_of (λ p. p.name) (λ p. p.policy) (λ b. count b) self.old.places.items)) }
        ensures none { IsErr result ↔ (count_of name.now (slots_of (λ p. p.name) (λ p. p.policy) (λ b. count b) self.old.places.items) ≡ None) }
        ensures err { OnErr result (self.new.places.items ≡ self.old.places.items) }
    {
        let Some(at) = self.find(name) else {
            return Err(NoPolicy);
        };
        if self.places[at].policy.is_none() {
            return Err(NoPolicy);
        }
        retire_place(&mut self.places[at]);
        Ok(())
    }

    /// What the live policy of a name answers, and 0 where there is none. Takes no memory.
    pub fn pick(&mut self, name: &Name, who: u32, heads: &[Head]) -> u32
        requires some { 0 < length heads.now }
        requires few { length heads.now ≤ 256 }
        ensures answer { MatchOption (policy_of (λ p. p.name) (λ p. p.policy) name.now self.old.places.items) (result ≡ 0) (λ b. may_pick b who heads.now result) }
        ensures within { result < length heads.now }
        ensures dead { count_of name.now (slots_of (λ p. p.name) (λ p. p.policy) (λ b. count b) self.old.places.items) ≡ None → result ≡ 0 }
        ensures asked { slots_of (λ p. p.name) (λ p. p.policy) (λ b. count b) self.new.places.items ≡ asked name.now result (slots_of (λ p. p.name) (λ p. p.policy) (λ b. count b) self.old.places.items) }
    {
        match self.find(name) {
            Some(at) => ask_place(&mut self.places[at], who, heads),
            None => 0,
        }
    }
}
