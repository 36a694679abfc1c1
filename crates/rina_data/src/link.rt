//! The links of an IPC process, and its next hops.
ghost use Rattle.std.specs.Prelude.{◌≡◌, ◌<◌, length, position, IfSome};
ghost use Rattle.rina_data.specs.Process.{is_link, link_by, next_hop};

use rina_base::{Addr, Port};

/// A flow of the rank below between two IPC processes, by one of them.
#[derive(Clone, Copy, Debug, PartialEq, Eq)]
pub struct Link {
    /// Its port below.
    pub port: Port,
    /// Its number here.
    pub number: u16,
    /// False once the link was lost; a lost link is no longer used.
    pub live: bool,
}

/// The next hop to an address is this link.
#[derive(Clone, Copy, Debug, PartialEq, Eq)]
pub struct Route {
    pub dst: Addr,
    pub link: u16,
}

#[tactic(auto, unfolding(crate::specs::Process::is_link))]
fn is_link(link: &Link, number: u16) -> bool
    ensures { result ≡ is_link number link.now }
{
    link.live && link.number == number
}

fn place(links: &[Link], number: u16) -> Option<usize>
    ensures place { result ≡ position (is_link number) links.now }
    ensures within { IfSome result (λ k. k < length links.now) }
{
    links.iter().position(|link| is_link(link, number))
}

/// The live link of a number. None exactly where there is none.
pub fn live_link(links: &[Link], number: u16) -> Option<Link>
    ensures { result ≡ link_by number links.now }
{
    let at = place(links, number)?;
    Some(*links.get(at)?)
}

/// The number of the link that is the next hop to an address. None exactly where there is none.
pub fn next_link(routes: &[Route], dst: Addr) -> Option<u16>
    ensures { result ≡ next_hop dst routes.now }
{
    let route = routes.iter().find(|route| route.dst == dst)?;
    Some(route.link)
}
