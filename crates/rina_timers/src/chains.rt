//! Chains of ids: each id stands in one of them, or in none.
ghost use Rattle.std.specs.Prelude.{◌≡◌, ◌≢◌, ℕ, ◌<◌, List, Option, None, length, replicate, slice_set, IfOk};
ghost use Rattle.rina_timers.specs.Chains.{chain_of, tick_of, is_before, led_by, set_link, Within, IsMember, IsFirstSome, IsFirstChain, IsEarliestOf};

use rina_base::{Memory, Tick};
use std::alloc::Global;
use std::marker::Model;

/// How many chains there are: number 0, in which no id stands, that of the timers that are due, and those of the 512
/// slots of the wheel.
pub(crate) const CHAINS: usize = 514;

/// For each id the number of its chain, 0 where it stands in none. Each call but `first_chain` and `earliest` takes
/// the same time, however many ids there are, and none takes memory.
#[derive(Drop)]
pub(crate) struct Chains {
    chain: Vec<u32>,
    /// The id after an id in its chain.
    next: Vec<Option<u32>>,
    /// The id before an id in its chain.
    prev: Vec<Option<u32>>,
    /// The first id of each chain.
    first: Vec<Option<u32>>,
    /// No id stands in a chain before this one.
    low: usize,
}

impl Model for Chains {
    ghost use Rattle.std.specs.Prelude.{ℕ, List};
    ghost use Rattle.rina_timers.specs.Chains.{ChainedFrom};

    ghost Value = { List ℕ };

    ghost view = { λ c. c.chain.items };

    ghost invariant = { λ c. ChainedFrom c.chain.items c.next.items c.prev.items c.first.items c.low };
}

/// So many links that lead nowhere.
fn no_links(alloc: Global, size: usize) -> Result<Vec<Option<u32>>, Memory>
    ensures { IfOk result (λ v. v.items ≡ replicate size None) }
{
    Ok(vec![in alloc; None; size]?)
}

/// The first place from one on that has a link, the end where there is none.
fn first_some(links: &[Option<u32>], from: usize) -> usize
    ensures { IsFirstSome links.now from result }
{
    for at in from..links.len() {
        if links[at].is_some() {
            return at;
        }
    }
    links.len()
}

/// Writes a link at an id, where there is one.
fn write_link(links: &mut Vec<Option<u32>>, at: Option<u32>, link: Option<u32>)
    requires { Within at (length links.old.items) }
    ensures { links.new.items ≡ set_link at link links.old.items }
{
    if let Some(at) = at {
        links[at as usize] = link;
    }
}

/// The chain in which an id is the first, None where another is before it.
fn led_by(chain: u32, prev: Option<u32>) -> Option<u32>
    ensures { result ≡ led_by chain prev }
{
    match prev {
        None => Some(chain),
        Some(_) => None,
    }
}

impl Chains {
    /// No id stands in a chain; ids are those below `ids`. All memory is taken here.
    pub(crate) fn new(alloc: Global, ids: u32) -> Result<Chains, Memory>
        ensures { IfOk result (λ c. c ≡ replicate ids 0) }
    {
        let chain = vec![in alloc; 0; ids as usize]?;
        let next = no_links(alloc, ids as usize)?;
        let prev = no_links(alloc, ids as usize)?;
        let first = no_links(alloc, CHAINS)?;
        Ok(Chains {
            chain,
            next,
            prev,
            first,
            low: CHAINS,
        })
    }

    /// The number of the chain of an id.
    pub(crate) fn chain_of(&self, id: u32) -> u32
        requires { id < length self.now }
        ensures { result ≡ chain_of self.now id }
    {
        self.chain[id as usize]
    }

    /// An id of this chain, None exactly where none stands in it.
    pub(crate) fn first(&self, chain: u32) -> Option<u32>
        requires some { chain ≢ 0 }
        requires within { chain < 514 }
        ensures { IsMember self.now chain result }
    {
        self.first[chain as usize]
    }

    /// Takes an id out of its chain.
    fn take(&mut self, id: u32)
        requires within { id < length self.old }
        requires some { chain_of self.old id ≢ 0 }
        ensures { self.new ≡ slice_set self.old id 0 }
    {
        let at = id as usize;
        let next = self.next[at];
        let prev = self.prev[at];
        write_link(&mut self.first, led_by(self.chain[at], prev), next);
        write_link(&mut self.next, prev, next);
        write_link(&mut self.prev, next, prev);
        self.chain[at] = 0;
    }

    /// Puts an id that stands in no chain first in one.
    fn push(&mut self, id: u32, chain: u32)
        requires within { id < length self.old }
        requires none { chain_of self.old id ≡ 0 }
        requires some { chain ≢ 0 }
        requires chain { chain < 514 }
        ensures { self.new ≡ slice_set self.old id chain }
    {
        let at = id as usize;
        let next = self.first[chain as usize];
        write_link(&mut self.prev, next, Some(id));
        self.prev[at] = None;
        self.next[at] = next;
        self.first[chain as usize] = Some(id);
        self.chain[at] = chain;
        self.low = self.low.min(chain as usize);
    }

    /// Moves an id to a chain, or to none.
    pub(crate) fn put(&mut self, id: u32, chain: u32)
        requires within { id < length self.old }
        requires chain { chain < 514 }
        ensures { self.new ≡ slice_set self.old id chain }
    {
        if self.chain_of(id) != 0 {
            self.take(id);
        }
        if chain != 0 {
            self.push(id, chain);
        }
    }

    /// The least number of a chain in which an id stands, None exactly where there is none. It looks on from where it
    /// found one last, or from the least chain that an id came into since.
    pub(crate) fn first_chain(&mut self) -> Option<u32>
        ensures chain { IsFirstChain self.old result }
        ensures same { self.new ≡ self.old }
    {
        self.low = first_some(&self.first, self.low);
        if self.low < CHAINS {
            Some(self.low as u32)
        } else {
            None
        }
    }

    /// Of the ids of a chain that of the least tick, and of those the least.
    pub(crate) fn earliest(&self, chain: u32, times: &[Option<Tick>]) -> Option<u32>
        requires some { chain ≢ 0 }
        requires within { chain < 514 }
        requires times { length times.now ≡ length self.now }
        ensures { IsEarliestOf times.now self.now chain result }
    {
        let mut id = self.first[chain as usize]?;
        let mut best = id;
        for _ in 0..self.next.len() {
            let Some(next) = self.next[id as usize] else {
                return Some(best)
            };
            id = next;
            best = if is_before(times, id, best) { id } else { best };
        }
        Some(best)
    }
}

/// The tick at which a timer is set, 0 where it is not.
pub(crate) fn tick_of(times: &[Option<Tick>], id: u32) -> Tick
    requires { id < length times.now }
    ensures { result ≡ tick_of times.now id }
{
    times[id as usize].unwrap_or(0)
}

/// Whether a timer is due before another.
fn is_before(times: &[Option<Tick>], id: u32, other: u32) -> bool
    requires id { id < length times.now }
    requires other { other < length times.now }
    ensures { result ≡ is_before times.now id other }
{
    let at = tick_of(times, id);
    let later = tick_of(times, other);
    at < later || (at == later && id < other)
}
