//! What a run asks of a shelf.
ghost use Rattle.std.specs.Prelude.{◌≡◌, ◌↔◌, ◌<◌, ◌≤◌, ℕ, List, length, None, IsErr, MatchOption, OnErr, OnOk};
ghost use Rattle.rina_policy.specs.Slots.{Slot, slots_of, count_of, asked, policy_of, retired};
ghost use Rattle.rina_policy.specs.declared.policy.Head.{Head};

use crate::policy::{Head, Policy};
use crate::shelf::{NoPolicy, Shelf};
use rina_base::Name;

/// Picks by name: what a step over any shelf needs to know of it.
pub trait Picks {
    ghost slots: { Self → List Slot };

    // The places that a name may answer to the IPC process of a number that shows it these heads.
    ghost may_answer: { Self → List ℕ → ℕ → List Head → ℕ → Type 0 };

    /// What the live policy of a name answers, and 0 where there is none. Takes no memory.
    fn ask(&mut self, name: &Name, who: u32, heads: &[Head]) -> u32
        requires some { 0 < length heads.now }
        requires few { length heads.now ≤ 256 }
        ensures answer { may_answer self.old name.now who heads.now result }
        ensures within { result < length heads.now }
        ensures dead { count_of name.now (slots self.old) ≡ None → result ≡ 0 }
        ensures asked { slots self.new ≡ asked name.now result (slots self.old) };
}

impl Picks for Shelf {
    ghost slots = { λ s. slots_of (λ p. p.name) (λ p. p.policy) (λ b. (Policy-box b).count b.value) s.places.items };

    ghost may_answer = { λ s name who heads place. MatchOption (policy_of (λ p. p.name) (λ p. p.policy) name s.places.items) (place ≡ 0) (λ b. (Policy-box b).may_pick b.value who heads place) };

    fn ask(&mut self, name: &Name, who: u32, heads: &[Head]) -> u32 {
        self.pick(name, who, heads)
    }
}

/// A shelf whose policies are withdrawn by name too.
pub trait Retires: Picks {
    /// Drops the policy of a name; the shelf keeps the name. Takes no memory.
    fn withdraw(&mut self, name: &Name) -> Result<(), NoPolicy>
        ensures ok { OnOk result (Self.slots self.new ≡ retired name.now (Self.slots self.old)) }
        ensures none { IsErr result ↔ (count_of name.now (Self.slots self.old) ≡ None) }
        ensures err { OnErr result (Self.slots self.new ≡ Self.slots self.old) };
}

impl Retires for Shelf {
    fn withdraw(&mut self, name: &Name) -> Result<(), NoPolicy> {
        self.retire(name)
    }
}
