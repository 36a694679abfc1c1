//! Links that are lost.
ghost use Rattle.std.specs.Prelude.{◌≡◌, find, option_copied};
ghost use Rattle.rina_agent.specs.Agenda.{without_at};
ghost use Rattle.rina_agent.specs.Enrolments.{is_numbered, place_of};
ghost use Rattle.rina_agent.specs.Rows.{Does, lost_state, dropped, was_up, lost};

use crate::agent::Agent;
use crate::link::{Link, is_numbered, place};
use crate::state::{AgentError, MemberState, check};
use crate::vectors::remove;
use rina_base::{Seq, Tick};
use std::alloc::Global;

/// The state of a member that lost a link.
fn lost_state(state: MemberState, link: u16) -> MemberState
    ensures { result ≡ lost_state link state }
{
    match state {
        MemberState::Joining { link: number } if number == link => MemberState::Outside,
        state => state,
    }
}

/// The link of a number.
fn find_link(links: &[Link], number: u16) -> Option<&Link>
    ensures { option_copied result ≡ find (is_numbered number) links.now }
{
    links.iter().find(|link| is_numbered(link, number))
}

/// Whether the link of a number is up.
fn is_up(links: &[Link], number: u16) -> bool
    ensures { result ≡ was_up (find (is_numbered number) links.now) }
{
    match find_link(links, number) {
        Some(link) => link.up,
        None => false,
    }
}

/// Takes the link of a number away. Takes no memory.
fn take_out(alloc: Global, links: &mut Seq<Link>, number: u16)
    ensures { links.new ≡ without_at (place_of number links.old) links.old }
{
    let Some(at) = place(links.as_slice(), number) else {
        return;
    };
    let mut all = std::mem::replace(links, Seq::new(alloc)).into_vec();
    remove(&mut all, at);
    *links = Seq::from_vec(all);
}

impl Agent {
    /// Takes a link away, with all that waits for it. Takes no memory.
    fn drop_link(&mut self, alloc: Global, link: u16)
        ensures { self.new ≡ dropped self.old link }
    {
        take_out(alloc, &mut self.links, link);
        self.agenda.drop_link(link);
        self.state = lost_state(self.state, link);
    }

    /// Loses a link at a tick: what waits for it goes, the enrolment that runs on it ends, and where it was up the member makes
    /// its link state without it. Refused with `CountSpent` where it was up and no version count is left.
    pub fn lose_link(&mut self, alloc: Global, now: Tick, link: u16) -> Result<(), AgentError>
        ensures { Does result self.old self.new (lost self.old now link) }
    {
        if is_up(self.links.as_slice(), link) {
            check(1, self.last_count)?;
            self.make_link_state(alloc, now, Some(link))?;
            self.drop_link(alloc, link);
            return Ok(());
        }
        self.drop_link(alloc, link);
        Ok(())
    }
}
