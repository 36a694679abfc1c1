//! New links of an IPC process: which number a link gets, and how it is added.
ghost use Rattle.std.specs.Prelude.{◌≡◌, ◌<◌, ◌∷◌, ◌++◌, [], IfOk, OnErr, OnOk, Some, false, length};
ghost use Rattle.rina_data.specs.declared.process.IpcProcess.{IpcProcess};
ghost use Rattle.rina_data.specs.Deciding.{process_of, queue_settings};
ghost use Rattle.rina_dif.specs.Elsewhere.{ChangesProcess};
ghost use Rattle.rina_dif.specs.Enrolling.{IsLeastNumber, ShowsAt, TakesLinkAt, is_full};
ghost use Rattle.rina_dif.specs.LinkTaking.{TakesLink, link_of};

use crate::processes::{MOST_LINKS, Processes};
use rina_base::{Memory, Seq};
use rina_channel::Attachment;
use rina_data::{IpcProcess, Link, live_link};
use std::alloc::Global;

/// Whether an IPC process has as many live links as it may have.
pub(crate) fn is_full(links: &[Link]) -> bool
    ensures { result ≡ is_full links.now }
{
    links.iter().filter(|link| link.live).count() >= usize::from(MOST_LINKS)
}

/// The least number that no live link has. With fewer live links than there may be, one of the first numbers is free.
pub(crate) fn least_number(links: &[Link]) -> u16
    requires { is_full links.now ≡ false }
    ensures { IsLeastNumber links.now result }
{
    for number in 0..MOST_LINKS {
        if live_link(links, number).is_none() {
            return number;
        }
    }
    unreachable!()
}

/// The links of an IPC process, and one more behind them.
fn links_with(alloc: Global, links: &[Link], link: Attachment) -> Result<Seq<Link>, Memory>
    ensures { IfOk result (λ all. all ≡ links.now ++ link_of link ∷ []) }
{
    let mut all = Seq::from_vec(Vec::from_slice(alloc, links)?);
    all.push(Link {
        port: link.port,
        number: link.number,
        live: true,
    })?;
    Ok(all)
}

/// Gives an IPC process one link more, and queues for it, where no earlier link of its number left some. Without memory nothing
/// changes.
fn take_link(process: &mut IpcProcess, alloc: Global, link: Attachment) -> Result<(), Memory>
    ensures ok { OnOk result (TakesLink link process.old process.new) }
    ensures err { OnErr result (process_of process.new ≡ process_of process.old) }
    ensures kept { queue_settings process.new ≡ queue_settings process.old }
{
    let links = links_with(alloc, process.links.as_slice(), link)?;
    process.queues.add_link(alloc, link.number)?;
    process.links = links;
    Ok(())
}

impl Processes {
    /// Gives the IPC process at a place one link more, with its queues. Without memory it shows what it showed.
    pub(crate) fn take_link(
        &mut self,
        alloc: Global,
        at: usize,
        link: Attachment,
    ) -> Result<(), Memory>
        requires { at < length self.old }
        ensures ok { OnOk result (TakesLinkAt at link self.old self.new) }
        ensures err { OnErr result (ShowsAt at self.old self.new) }
        ensures leaves { ChangesProcess (Some at) self.old self.new }
    {
        let process = &mut self.items[at];
        take_link(process, alloc, link)
    }
}
