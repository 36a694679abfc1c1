//! When a DIF rests.
ghost use Rattle.std.specs.Prelude.{◌≡◌, ◌<◌, [], true};
ghost use Rattle.rina_dif.specs.Resting.{AreAtRest, AreEmpty, IsAtRest, NoneComes, NoneWaits, RestsUntil};
ghost use Rattle.rina_dif.specs.Shown.{seen_of};

use crate::dif::Dif;
use rina_base::Tick;
use rina_data::{IpcProcess, Link, lost_link};
use rina_iface::Facility;
use rina_member::Management;
use rina_queue::Queue;

/// Whether no PDU waits in any of the queues.
fn are_empty(queues: &[Queue]) -> bool
    ensures { result ≡ true → AreEmpty queues.now }
{
    for place in 0..queues.len() {
        if queues[place].ring.len() > 0 {
            return false;
        }
    }
    true
}

/// Whether no SDU waits below at any of the live links.
fn none_comes<F: Facility>(links: &[Link], below: &F) -> bool
    requires { F.valid below.now }
    ensures { result ≡ true → NoneComes links.now (F.seen below.now) }
{
    for place in 0..links.len() {
        let link = &links[place];
        if link.live && below.peek(link.port).is_some() {
            return false;
        }
    }
    true
}

/// Whether an IPC process has nothing to send, to take, or to lose.
fn is_at_rest<F: Facility>(process: &IpcProcess, below: &F) -> bool
    requires { F.valid below.now }
    ensures { result ≡ true → IsAtRest process.now (F.seen below.now) }
{
    let links = process.links.as_slice();
    are_empty(process.queues.queues.as_slice())
        && none_comes(links, below)
        && lost_link(links, below).is_none()
}

/// Whether that is so of each.
fn are_at_rest<F: Facility>(processes: &[IpcProcess], below: &F) -> bool
    requires { F.valid below.now }
    ensures { result ≡ true → AreAtRest processes.now (F.seen below.now) }
{
    for at in 0..processes.len() {
        if !is_at_rest(&processes[at], below) {
            return false;
        }
    }
    true
}

/// Whether no message waits for any link of the members.
fn none_waits(managements: &[Management]) -> bool
    ensures { result ≡ true → NoneWaits managements.now }
{
    for at in 0..managements.len() {
        if managements[at].agent.agenda.len() > 0 {
            return false;
        }
    }
    true
}

impl Dif {
    /// Whether no far end waits to be claimed.
    pub fn none_waits(&self) -> bool
        ensures { result ≡ true → (seen_of self.now).waiting ≡ [] }
    {
        self.waiting.len() == 0
    }

    /// A tick before which the DIF has nothing to do over the rank below, whatever the clock says, as long as that rank
    /// shows the same. It is after the clock only where that is so now. Takes no memory.
    pub fn rests_until<F: Facility>(&self, below: &F) -> Tick
        requires { F.valid below.now }
        ensures { self.now.clock < result → RestsUntil result self.now (F.seen below.now) }
    {
        let until = self
            .flows
            .quiet_until()
            .min(self.connections.flows.quiet_until())
            .min(self.asks_wait_until());
        if until <= self.clock || self.failed {
            return self.clock;
        }
        if !none_waits(self.managements.as_slice()) {
            return self.clock;
        }
        if !are_at_rest(self.processes.as_slice(), below) {
            return self.clock;
        }
        until
    }
}
