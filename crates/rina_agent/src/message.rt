//! Messages that wait for a link.
ghost use Rattle.std.specs.Prelude.{◌≡◌, IfOk};

use rina_alloc::FlowMessage;
use rina_base::Memory;
use rina_enrol::LinkMessage;
use std::alloc::Global;

/// A message between IPC processes of one DIF.
#[derive(Drop)]
pub enum ManagementMessage {
    /// To the neighbour at the other end of the link: one of an enrolment, or the flood of an item.
    ToNeighbour(LinkMessage),
    /// About a flow, to the member of an address, who may be further on.
    ToMember(FlowMessage),
}

/// A message that waits for a link.
#[derive(Drop)]
pub struct Waiting {
    /// The number of the link.
    pub link: u16,
    pub message: ManagementMessage,
}

impl ManagementMessage {
    /// A copy.
    pub fn copy(&self, alloc: Global) -> Result<ManagementMessage, Memory>
        ensures { IfOk result (λ m. m ≡ self.now) }
    {
        match self {
            ManagementMessage::ToNeighbour(m) => {
                Ok(ManagementMessage::ToNeighbour(m.copy(alloc)?))
            }
            ManagementMessage::ToMember(m) => Ok(ManagementMessage::ToMember(m.copy(alloc)?)),
        }
    }
}

impl Waiting {
    /// A copy.
    pub fn copy(&self, alloc: Global) -> Result<Waiting, Memory>
        ensures { IfOk result (λ w. w ≡ self.now) }
    {
        let message = self.message.copy(alloc)?;
        Ok(Waiting {
            link: self.link,
            message,
        })
    }
}
