//! The queues of all cubes and links.
ghost use Rattle.std.specs.Prelude.{◌≡◌, ◌≢◌, ◌+◌, ◌-◌, ◌<◌, ◌≤◌, ◌↔◌, ◌==◌, [], ◌∷◌, ◌++◌, ℕ, length, map, min, take, drop, filter, None, IsNone, position, slice_get, true, false, Some, IsSome, IfSome, IsOk, OnOk, OnErr, IfOk, IfErr, option_copied};
ghost use Rattle.rina_policy.specs.Slots.{asked, count_of};
ghost use Rattle.rina_queue.specs.Queues.{added, emptied, AllOfCubes, HaveRoom, has_link, is_queue, queue_place, waiting, waits, head_of, heads_of, head_at, first_in, with_items, no_queues, AreIds, IdsRise, Changes};
ghost use Rattle.rina_queue.specs.declared.queue.Queue.{Queue};
ghost use Rattle.rina_queue.specs.declared.queue.Queued.{Queued};
ghost use Rattle.std.specs.List.Sorted.{IsStrictlyIncreasing};

use crate::queue::{Queue, QueueFull, Queued};
use rina_base::{Memory, Name, Seq};
use rina_policy::{Head, Picks};
use std::alloc::{AllocError, Global};

/// One queue for each cube and link that was added.
#[derive(Drop)]
pub struct Queues {
    /// How many PDUs each queue can hold.
    pub cap: u32,
    /// The ids of the cubes that have a queue, in rising order, which is that of the heads shown.
    pub cubes: Seq<u8>,
    /// The queues, link by link in the order in which these were added, and of each link in the order
    /// of `cubes`.
    pub queues: Vec<Queue>,
    pub ghost caps: { HaveRoom cap queues.items },
    pub ghost ids: { IsStrictlyIncreasing cubes },
    pub ghost rising: { IdsRise queues.items },
    pub ghost own: { AllOfCubes queues.items },
}

/// Fewer heads than these are shown in a short row: to fill a long one would be most of the work.
const FEW: usize = 8;

const NO_HEAD: Head = Head {
    qos: 0,
    waiting: 0,
    len: 0,
    since: 0,
};

#[tactic(auto, unfolding(crate::specs::Queues::is_queue))]
fn is_queue(queue: &Queue, qos: u8, link: u16) -> bool
    ensures { result ≡ is_queue qos link queue.now }
{
    queue.link == link && queue.qos == qos
}

/// Where the queue of a cube and link stands.
fn place(queues: &[Queue], qos: u8, link: u16) -> Option<usize>
    ensures place { result ≡ queue_place qos link queues.now }
    ensures within { IfSome result (λ k. k < length queues.now) }
{
    queues.iter().position(|queue| is_queue(queue, qos, link))
}

/// The ids that are given, each once and in rising order.
fn rising(alloc: Global, given: &[u8]) -> Result<Vec<u8>, AllocError>
    ensures { IfOk result (λ ids. AreIds given.now ids.items) }
{
    let mut ids = Vec::from_slice(alloc, given)?;
    ids.sort_unstable();
    ids.dedup();
    Ok(ids)
}

/// Empty queues for a link, one for each cube.
fn make(alloc: Global, cubes: &[u8], link: u16, cap: u32) -> Result<Vec<Queue>, Memory>
    ensures { IfOk result (λ v. v.items ≡ no_queues cap link cubes.now) }
{
    let mut queues = Vec::new(alloc);
    for &qos in cubes {
        let queue = Queue::new(alloc, link, qos, cap)?;
        if queues.push(queue).is_err() {
            return Err(Memory);
        }
    }
    Ok(queues)
}

/// One of the queues in which a PDU waits for a link, counted from 0.
fn nth_waiting(queues: &[Queue], link: u16, nth: usize) -> Option<&Queue>
    ensures nth { option_copied result ≡ slice_get (filter (waits link) queues.now) nth }
    ensures there { IsSome result ↔ (nth < length (filter (waits link) queues.now)) }
    ensures holds { IfSome result (λ q. 0 < length q.now.ring.items) }
{
    match queues {
        [] => None,
        [first, others @ ..] => {
            if !first.waits(link) {
                return nth_waiting(others, link, nth);
            }
            if nth == 0 {
                return Some(first);
            }
            nth_waiting(others, link, nth - 1)
        }
    }
}

/// The first PDU of a queue.
fn lend(queue: Option<&Queue>) -> Option<&Queued>
    requires { IfSome queue (λ q. 0 < length q.now.ring.items) }
    ensures first { option_copied result ≡ first_in (option_copied queue.entry) }
    ensures some { IsSome result ↔ IsSome queue.entry }
{
    match queue {
        Some(queue) => queue.ring.front(),
        None => None,
    }
}

/// Whether the queues of a link are there.
#[tactic(auto, unfolding(crate::specs::Queues::has_link))]
fn has_link(queues: &[Queue], link: u16) -> bool
    ensures { result ≡ has_link link queues.now }
{
    queues.iter().any(|queue| queue.link == link)
}

/// Shows the heads of the queues in which a PDU waits for a link, as many as the row has room for, and gives how
/// many these are.
fn show(queues: &[Queue], link: u16, heads: &mut [Head]) -> usize
    ensures count { result ≡ min (length (filter (waits link) queues.now)) (length heads.old) }
    ensures heads { take result heads.new ≡ take (length heads.old) (map head_of (filter (waits link) queues.now)) }
{
    let most = heads.len();
    let mut count = 0;
    for queue in queues {
        if count < most && queue.waits(link) {
            heads[count] = queue.head();
            count += 1;
        }
    }
    count
}

/// What a policy answers that is asked once and shown the first 256 heads of a link, where there are any.
fn ask_many<S: Picks>(queues: &[Queue], shelf: &mut S, name: &Name, who: u32, link: u16) -> u32
    requires { filter (waits link) queues.now ≢ [] }
    ensures within { result < length (filter (waits link) queues.now) }
    ensures answer { S.may_answer shelf.old name.now who (heads_of link queues.now) result }
    ensures dead { count_of name.now (S.slots shelf.old) ≡ None → result ≡ 0 }
    ensures asked { S.slots shelf.new ≡ asked name.now result (S.slots shelf.old) }
{
    let mut heads = [NO_HEAD; 256];
    let count = show(queues, link, &mut heads);
    shelf.ask(name, who, &heads[..count])
}

/// What a policy answers that is asked once and shown the first 256 heads of a link; None where there are none, and it
/// is not asked.
fn ask<S: Picks>(queues: &[Queue], shelf: &mut S, name: &Name, who: u32, link: u16) -> Option<u32>
    ensures none { IsNone result ↔ (filter (waits link) queues.now ≡ []) }
    ensures idle { IsNone result → S.slots shelf.new ≡ S.slots shelf.old }
    ensures within { IfSome result (λ place. place < length (filter (waits link) queues.now)) }
    ensures answer { IfSome result (λ place. S.may_answer shelf.old name.now who (heads_of link queues.now) place) }
    ensures dead { IfSome result (λ place. count_of name.now (S.slots shelf.old) ≡ None → place ≡ 0) }
    ensures asked { IfSome result (λ place. S.slots shelf.new ≡ asked name.now place (S.slots shelf.old)) }
{
    let mut heads = [NO_HEAD; FEW];
    let count = show(queues, link, &mut heads);
    if count == 0 {
        return None;
    }
    if count < FEW {
        return Some(shelf.ask(name, who, &heads[..count]));
    }
    Some(ask_many(queues, shelf, name, who, link))
}

/// Takes all PDUs that wait for a link away.
fn empty_all(queues: &mut Vec<Queue>, link: u16)
    ensures { queues.new.items ≡ map (emptied link) queues.old.items }
{
    for queue in queues.iter_mut() {
        queue.empty(link);
    }
}

impl Queues {
    /// No link yet. Each cube id gets one queue, also where it is given twice, and the queues stand in
    /// the order of the ids, whatever the order in which these are given.
    pub fn new(alloc: Global, cap: u32, cubes: &[u8]) -> Result<Queues, Memory>
        ensures cap { IfOk result (λ q. q.cap ≡ cap) }
        ensures cubes { IfOk result (λ q. AreIds cubes.now q.cubes) }
        ensures empty { IfOk result (λ q. q.queues.items ≡ []) }
    {
        Ok(Queues {
            cap,
            cubes: Seq::from_vec(rising(alloc, cubes)?),
            queues: Vec::new(alloc),
        })
    }

    /// Makes the queues of a link; nothing changes where they are there.
    #[tactic(auto, unfolding(crate::specs::Queues::added))]
    pub fn add_link(&mut self, alloc: Global, link: u16) -> Result<(), Memory>
        ensures ok { OnOk result (self.new.queues.items ≡ added self.old.cap link self.old.cubes self.old.queues.items) }
        ensures err { OnErr result (self.new.queues.items ≡ self.old.queues.items) }
        ensures same { (self.new.cap ≡ self.old.cap) × (self.new.cubes ≡ self.old.cubes) }
    {
        if has_link(self.queues.as_slice(), link) {
            return Ok(());
        }
        let mut made = make(alloc, self.cubes.as_slice(), link, self.cap)?;
        self.queues.append(&mut made)?;
        Ok(())
    }

    /// Whether a cube and link have a queue. Takes no memory.
    pub fn has(&self, qos: u8, link: u16) -> bool
        ensures there { result ≡ true → IsSome (queue_place qos link self.now.queues.items) }
        ensures lacks { result ≡ false → queue_place qos link self.now.queues.items ≡ None }
    {
        place(self.queues.as_slice(), qos, link).is_some()
    }

    /// Puts a PDU of a cube last in its queue for a link, which has one. Takes no memory.
    pub fn push(&mut self, qos: u8, link: u16, item: Queued) -> Result<(), QueueFull>
        requires there { IsSome (queue_place qos link self.old.queues.items) }
        requires cube { item.pdu.qos ≡ qos }
        ensures ok { OnOk result (Changes qos link (λ q. with_items (q.ring.items ++ item ∷ []) q) self.old.queues.items self.new.queues.items) }
        ensures full { IsOk result ↔ (length (waiting qos link self.old.queues.items) < self.old.cap) }
        // It is refused exactly where the queue holds `cap` PDUs, and not more.
        ensures refused { IfErr result (λ _. length (waiting qos link self.old.queues.items) ≡ self.old.cap) }
        ensures cap { IfErr result (λ e. e.cap ≡ self.old.cap) }
        ensures err { OnErr result (self.new.queues.items ≡ self.old.queues.items) }
        ensures same { (self.new.cap ≡ self.old.cap) × (self.new.cubes ≡ self.old.cubes) }
    {
        let cap = self.cap;
        match place(self.queues.as_slice(), qos, link) {
            Some(at) => self.queues[at].push(cap, item),
            None => unreachable!(),
        }
    }

    /// Takes the first PDU of the queue of a cube and link, which has one; None exactly where that is
    /// empty. Takes no memory.
    pub fn take(&mut self, qos: u8, link: u16) -> Option<Queued>
        requires { IsSome (queue_place qos link self.old.queues.items) }
        ensures first { result ≡ slice_get (waiting qos link self.old.queues.items) 0 }
        ensures rest { Changes qos link (λ q. with_items (drop 1 q.ring.items) q) self.old.queues.items self.new.queues.items }
        ensures same { (self.new.cap ≡ self.old.cap) × (self.new.cubes ≡ self.old.cubes) }
    {
        match place(self.queues.as_slice(), qos, link) {
            Some(at) => self.queues[at].take(),
            None => unreachable!(),
        }
    }

    /// Takes all PDUs that wait for a link away; its queues stay. Takes no memory.
    pub fn empty(&mut self, link: u16)
        ensures empty { self.new.queues.items ≡ map (emptied link) self.old.queues.items }
        ensures same { (self.new.cap ≡ self.old.cap) × (self.new.cubes ≡ self.old.cubes) }
    {
        empty_all(&mut self.queues, link);
    }

    /// How many more PDUs the queue of a cube and link can take, which has one. Takes no memory.
    pub fn room(&self, qos: u8, link: u16) -> u32
        requires { IsSome (queue_place qos link self.now.queues.items) }
        ensures room { result ≡ self.now.cap - length (waiting qos link self.now.queues.items) }
        // The queue holds as many PDUs as it can, or fewer.
        ensures within { length (waiting qos link self.now.queues.items) ≤ self.now.cap }
    {
        match place(self.queues.as_slice(), qos, link) {
            Some(at) => (self.cap as usize).saturating_sub(self.queues[at].ring.len()) as u32,
            None => unreachable!(),
        }
    }

    /// The PDU that the policy of a name picks, of the heads of the queues of a link, which it is asked
    /// once and shown the first 256. None exactly where no queue of that link holds a PDU. Nothing is
    /// removed, and no memory is taken; `take` with the PDU's cube takes it.
    pub fn serve<S: Picks>(
        &self,
        shelf: &mut S,
        name: &Name,
        who: u32,
        link: u16,
    ) -> Option<&Queued>
        ensures none { IsNone result ↔ (filter (waits link) self.now.queues.items ≡ []) }
        ensures idle { filter (waits link) self.now.queues.items ≡ [] → (option_copied result ≡ None) × (S.slots shelf.new ≡ S.slots shelf.old) }
        ensures served { filter (waits link) self.now.queues.items ≢ [] → (place : ℕ) × (place < length (filter (waits link) self.now.queues.items)) × (S.may_answer shelf.old name.now who (heads_of link self.now.queues.items) place) × (S.slots shelf.new ≡ asked name.now place (S.slots shelf.old)) × (count_of name.now (S.slots shelf.old) ≡ None → place ≡ 0) × (option_copied result ≡ head_at place (filter (waits link) self.now.queues.items)) }
        ensures first { (item : Queued) → option_copied result ≡ Some item → slice_get (waiting item.pdu.qos link self.now.queues.items) 0 ≡ Some item }
    {
        let queues = self.queues.as_slice();
        let place = ask(queues, shelf, name, who, link)?;
        lend(nth_waiting(queues, link, place as usize))
    }
}
