//! What the steps of an IPC process answer.
use rina_base::{Cause, Cep, Key, Memory, Num, Port};
use rina_iface::SendError;

/// How a PDU that an IPC process took from a link was handled.
#[derive(Clone, Copy, Debug, PartialEq, Eq)]
pub enum Took {
    /// It was for this IPC process.
    Accepted,
    /// It waits in the queue of the next hop.
    Relayed,
    /// It was written off.
    Off(Cause),
}

/// What an IPC process decided on a PDU by what it knows itself.
#[derive(Clone, Copy, Debug, PartialEq, Eq)]
pub enum Decision {
    /// It is for a connection of this IPC process.
    Here,
    /// It waits in the queue of the next hop.
    Relayed,
    /// It was written off.
    Off(Cause),
}

/// What an IPC process did with the oldest SDU of a link.
#[derive(Clone, Copy, Debug, PartialEq, Eq)]
pub enum InStep {
    /// No SDU waits there.
    Idle,
    /// The PDU in it was taken.
    Took { key: Key, end: Took },
}

/// What an IPC process did with the PDUs that wait for a link.
#[derive(Clone, Copy, Debug, PartialEq, Eq)]
pub enum OutStep {
    /// No PDU waits there.
    Idle,
    /// The PDU was sent on the flow below.
    Sent { key: Key },
    /// The PDU was written off.
    Off { key: Key, cause: Cause },
    /// The flow below refused the PDU for now, so it stays first.
    Held { why: SendError },
}

/// What an IPC process did by the clock: the first of its items that was due.
#[derive(Clone, Copy, Debug, PartialEq, Eq)]
pub enum ClockStep {
    /// Nothing was due.
    Idle,
    /// The link of this number was lost: its flow below failed, was closed, or was refused.
    LinkLost { link: u16 },
    /// A flow that came in below was claimed as the link of this number. Only a member that asks for links, or that is asked for one, makes it.
    LinkNew { link: u16 },
    /// The pieces were written off that the connection of this CEP-id held of a state that has ended.
    Gone { cep: Cep },
    /// This number was given up, and its flow failed.
    GaveUp { num: Num },
    /// The ask at this port ran out of its time. Only flows that are asked for have one.
    Timeout { port: Port },
    /// The connection of this CEP-id made an acknowledgement.
    Ack { cep: Cep },
    /// This number was sent again.
    Again { num: Num },
    /// A message of management was offered to the connection of this link.
    Message { link: u16 },
}

/// Why a step was not taken.
#[derive(Clone, Copy, Debug, PartialEq, Eq)]
pub enum StepError {
    /// Memory was not found.
    Memory,
    /// The facility has no IPC process at that node.
    NoIpc,
    /// The IPC process has no live link of that number.
    NoLink,
    /// The member would need `need` version counts, and has `left`.
    CountSpent { need: u32, left: u32 },
}

impl From<Memory> for StepError {
    ghost use Rattle.std.specs.Prelude.{◌≡◌};
    ghost use Rattle.rina_data.specs.declared.step.StepError.TheVariants.{Memory};

    ghost from_gives = { λ _ e. e ≡ Memory };

    fn from(_error: Memory) -> StepError {
        StepError::Memory
    }
}
