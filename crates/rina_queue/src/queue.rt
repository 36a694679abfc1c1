//! One queue, and what it holds.
ghost use Rattle.std.specs.Prelude.{◌≡◌, ◌-◌, ◌<◌, ◌↔◌, [], ◌∷◌, ◌++◌, length, drop, slice_get, true, IsOk, OnOk, OnErr, IfErr, IfOk};
ghost use Rattle.rina_queue.specs.Queues.{emptied, waits, with_items, head_of};
ghost use Rattle.rina_queue.specs.declared.queue.QueueFull.{QueueFull};

use circular_buffer::HeapCircularBuffer;
use rina_base::{Memory, Pdu, Tick};
use rina_policy::Head;
use std::alloc::Global;

/// A PDU that waits to be sent.
#[derive(Drop)]
pub struct Queued {
    pub pdu: Pdu,
    /// Its lifetime when it came into this system, in ticks.
    pub left: u32,
    /// The tick at which it was made here, or delivered to this system.
    pub since: Tick,
}

/// The queue holds `cap` PDUs, as many as it can.
#[derive(Clone, Copy, Debug, PartialEq, Eq)]
pub struct QueueFull {
    pub cap: u32,
}

/// The PDUs of one cube that wait for one link.
#[derive(Drop)]
pub struct Queue {
    pub link: u16,
    /// The id of the cube; 0 is that of management.
    pub qos: u8,
    /// The PDUs, the first that came at the front.
    pub ring: HeapCircularBuffer<Queued>,
}

impl Queue {
    ghost use Rattle.rina_queue.specs.Queues.{no_items};

    /// An empty queue with room for `cap` PDUs.
    pub fn new(alloc: Global, link: u16, qos: u8, cap: u32) -> Result<Queue, Memory>
        ensures { IfOk result (λ q. q ≡ no_items cap link qos) }
    {
        let ring = HeapCircularBuffer::with_capacity(alloc, cap as usize)?;
        Ok(Queue { link, qos, ring })
    }

    /// Puts a PDU last.
    pub fn push(&mut self, cap: u32, item: Queued) -> Result<(), QueueFull>
        ensures ok { OnOk result (self.new ≡ with_items (self.old.ring.items ++ item ∷ []) self.old) }
        ensures full { IsOk result ↔ (length self.old.ring.items < self.old.ring.capacity) }
        // It is refused exactly where the queue holds as many as it can, and not more.
        ensures refused { IfErr result (λ _. length self.old.ring.items ≡ self.old.ring.capacity) }
        ensures capacity { self.new.ring.capacity ≡ self.old.ring.capacity }
        ensures link { self.new.link ≡ self.old.link }
        ensures qos { self.new.qos ≡ self.old.qos }
        ensures cap { IfErr result (λ e. e.cap ≡ cap) }
        ensures err { OnErr result (self.new ≡ self.old) }
    {
        prove!(self.ring.len() <= self.ring.capacity());
        match self.ring.try_push_back(item) {
            Ok(()) => Ok(()),
            Err(_item) => Err(QueueFull { cap }),
        }
    }

    /// Takes the first PDU away.
    pub fn take(&mut self) -> Option<Queued>
        ensures first { result ≡ slice_get self.old.ring.items 0 }
        ensures rest { self.new ≡ with_items (drop 1 self.old.ring.items) self.old }
    {
        self.ring.pop_front()
    }

    /// Takes all PDUs away, where the queue is one for this link.
    #[tactic(auto, unfolding(crate::specs::Queues::emptied))]
    pub fn empty(&mut self, link: u16)
        ensures { self.new ≡ emptied link self.old }
    {
        if self.link == link {
            self.ring.clear();
        }
    }

    /// Whether a PDU waits here for a link.
    #[tactic(auto, unfolding(crate::specs::Queues::waits))]
    pub fn waits(&self, link: u16) -> bool
        ensures waits { result ≡ waits link self.now }
        ensures holds { result ≡ true → 0 < length self.now.ring.items }
    {
        self.link == link && !self.ring.is_empty()
    }

    /// What a policy is shown of the first PDU.
    #[tactic(auto, unfolding(crate::specs::Queues::head_of))]
    pub fn head(&self) -> Head
        ensures { result ≡ head_of self.now }
    {
        match self.ring.front() {
            Some(first) => Head {
                qos: self.qos,
                waiting: self.ring.len().min(0xffff_ffff) as u32,
                len: first.pdu.body.len().min(0xffff_ffff) as u32,
                since: first.since,
            },
            None => Head {
                qos: self.qos,
                waiting: 0,
                len: 0,
                since: 0,
            },
        }
    }
}
