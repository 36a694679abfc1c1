//! An end of the management connection of a link.
ghost use Rattle.std.specs.Prelude.{◌≡◌, ◌<◌, length, position, IfSome};
ghost use Rattle.rina_channel.specs.Channels.{has_port, is_at};

use rina_base::{Addr, Port};
use rina_conn::Peer;

/// Where an IPC process is attached to the flow below of a link.
#[derive(Clone, Copy, Debug, PartialEq, Eq)]
pub struct Attachment {
    /// The number of the link at the IPC process.
    pub number: u16,
    /// The port of its end of the flow below.
    pub port: Port,
}

/// An end of the management connection of a link, by the link that it belongs to.
#[derive(Clone, Copy, Debug, PartialEq, Eq)]
pub struct Channel {
    /// The place of the IPC process among the members of its DIF.
    pub member: usize,
    /// Its link. None until the IPC process claims its end of the flow below.
    pub link: Option<Attachment>,
    /// The place of the other end among all ends of management connections.
    pub partner: Addr,
}

#[tactic(auto, unfolding(crate::specs::Channels::is_at))]
fn is_at(link: &Attachment, port: Port) -> bool
    ensures { result ≡ is_at port link.now }
{
    link.port == port
}

fn has_port(channel: &Channel, port: Port) -> bool
    ensures { result ≡ has_port port channel.now }
{
    channel.link.is_some_and(|link| is_at(&link, port))
}

/// The place of the channel whose link has a port below. None exactly where none has it.
pub fn channel_at(channels: &[Channel], port: Port) -> Option<usize>
    ensures place { result ≡ position (has_port port) channels.now }
    ensures within { IfSome result (λ k. k < length channels.now) }
{
    channels.iter().position(|channel| has_port(channel, port))
}

/// The two ends of a management connection by the one at `place`: they are named by their places, and have CEP-id 0.
pub fn peer_at(place: Addr, partner: Addr) -> Peer
    ensures { result ≡ record { own = place; far = partner; scep = 0; dcep = 0 } }
{
    Peer {
        own: place,
        far: partner,
        scep: 0,
        dcep: 0,
    }
}
