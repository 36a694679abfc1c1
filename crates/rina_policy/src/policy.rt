//! A policy: which of several queues is served next.
ghost use Rattle.std.specs.Prelude.{◌≡◌, ◌<◌, ◌≤◌, ℕ, List, length};
ghost use Rattle.rina_policy.specs.Count.{counted};
ghost use Rattle.rina_policy.specs.declared.count.Count.{Count};
ghost use Rattle.rina_policy.specs.declared.policy.Head.{Head};

use rina_base::Tick;

/// The first PDU of a queue that is not empty.
#[derive(Clone, Copy, Debug, PartialEq, Eq)]
pub struct Head {
    /// The id of the queue's cube.
    pub qos: u8,
    /// How many PDUs the queue holds.
    pub waiting: u32,
    /// How many bytes the PDU's body has.
    pub len: u32,
    /// The tick at which the PDU was made here, or delivered to this system.
    pub since: Tick,
}

/// Picks one of the heads of the queues of a link, each time that the link can send.
pub trait Policy: Drop {
    ghost count: { Self → Count };

    // The places that it may answer to the IPC process of a number that shows it these heads.
    ghost may_pick: { Self → ℕ → List Head → ℕ → Type 0 };

    /// The place of one of the heads, which stand in the order of cube ids. `who` is the number of the
    /// IPC process that asks, counted from 0 over all DIFs of the stack. Takes no memory.
    fn pick(&mut self, who: u32, heads: &[Head]) -> u32
        requires some { 0 < length heads.now }
        requires few { length heads.now ≤ 256 }
        ensures answer { may_pick self.old who heads.now result }
        ensures within { result < length heads.now }
        ensures counted { count self.new ≡ counted (count self.old) result };

    /// How often it has picked; it stays at the greatest u64.
    fn picks(&self) -> u64
        ensures { result ≡ (count self.now).picks };

    /// The place that the last pick answered, and 0 before the first.
    fn last(&self) -> u32
        ensures { result ≡ (count self.now).last };
}
