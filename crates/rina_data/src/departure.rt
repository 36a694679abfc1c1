//! What an IPC process does with the PDUs that wait for a link: one of them, which a policy picks, is charged for its
//! hop and sent below, or written off.
ghost use Rattle.std.specs.Prelude.{◌≡◌, IsSome, length};
ghost use Rattle.rina_iface.specs.Later.{IsLater};
ghost use Rattle.rina_iface.specs.Send.{SendsAsSeen};
ghost use Rattle.rina_queue.specs.Queues.{queue_place};
ghost use Rattle.rina_data.specs.Configs.{config_of};
ghost use Rattle.rina_data.specs.Deciding.{process_of, queue_settings};
ghost use Rattle.rina_data.specs.Leaving.{Asks, CanGo, Drops, IsAsked, IsRoomy, IsTaken, Tries};
ghost use Rattle.rina_data.specs.Lower.{SendsBelow};
ghost use Rattle.rina_data.specs.Outgoing.{Goes, IsHeld};

use crate::hop::{charge, left_after, protect};
use crate::link::live_link;
use crate::process::IpcProcess;
use crate::settings::Settings;
use crate::step::{OutStep, StepError};
use rina_base::{Cause, Key, Port, Tick};
use rina_iface::{Facility, SendError};
use rina_policy::Picks;
use std::alloc::Global;

/// The first PDU of a queue, and where it is to go.
#[derive(Clone, Copy)]
struct First {
    key: Key,
    /// The id of its cube.
    qos: u8,
    /// The number of its link.
    link: u16,
    /// The link's port below.
    port: Port,
}

impl IpcProcess {
    /// Takes the first PDU of a queue away.
    fn take_first(&mut self, first: First)
        requires { IsSome (queue_place first.qos first.link self.old.queues.queues.items) }
        ensures taken { IsTaken (process_of self.old) first.qos first.link (process_of self.new) }
        ensures kept { queue_settings self.new ≡ queue_settings self.old }
    {
        self.queues.take(first.qos, first.link);
    }

    /// Writes the first PDU of a queue off.
    fn drop_first(
        &mut self,
        alloc: Global,
        first: First,
        cause: Cause,
    ) -> Result<OutStep, StepError>
        requires { IsSome (queue_place first.qos first.link self.old.queues.queues.items) }
        ensures does { Drops (process_of self.old) first cause result (process_of self.new) }
        ensures kept { queue_settings self.new ≡ queue_settings self.old }
    {
        self.ledger.note(alloc, first.key, cause)?;
        self.take_first(first);
        Ok(OutStep::Off {
            key: first.key,
            cause,
        })
    }

    /// Sends the first PDU of a queue below, in these bytes, which are not too many.
    fn send_first<F: Facility>(
        &mut self,
        alloc: Global,
        below: &mut F,
        first: First,
        bytes: &[u8],
    ) -> Result<OutStep, StepError>
        requires there { IsSome (queue_place first.qos first.link self.old.queues.queues.items) }
        requires valid { F.valid below.old }
        requires roomy { IsRoomy (F.seen below.old) first.port (length bytes.now) }
        ensures valid { F.valid below.new }
        ensures below { F.same_below below.old below.new }
        ensures later { IsLater (F.seen below.old) (F.seen below.new) }
        ensures does { Tries (F.refuses_send below.old first.port (length bytes.now)) (process_of self.old) (F.seen below.old) first bytes.now result (process_of self.new) (F.seen below.new) }
        ensures lower { SendsBelow (below.new ≡ below.old) (SendsAsSeen F.seen F.refuses_send F.does_send below.old below.new) result }
        ensures kept { queue_settings self.new ≡ queue_settings self.old }
    {
        match below.send(alloc, first.port, bytes) {
            Ok(_num) => {
                self.take_first(first);
                Ok(OutStep::Sent { key: first.key })
            }
            Err(SendError::Memory) => Err(StepError::Memory),
            Err(SendError::NotAllocated { state: _ }) | Err(SendError::Failed { fail: _ }) => {
                let port = first.port;
                self.drop_first(alloc, first, Cause::LinkDown { port })
            }
            Err(SendError::TooLong { len: _, max: _ }) => unreachable!(),
            Err(why) => Ok(OutStep::Held { why }),
        }
    }

    /// Takes one step at a link, for the IPC process of number `who` of the stack: the PDU that the policy picks is sent
    /// below with what is left of its lifetime, or written off, or stays. `now` is the clock of the rank below.
    pub fn out_step<F: Facility, S: Picks>(
        &mut self,
        alloc: Global,
        below: &mut F,
        shelf: &mut S,
        settings: &Settings,
        who: u32,
        now: Tick,
        link: u16,
    ) -> Result<OutStep, StepError>
        requires valid { F.valid below.old }
        requires can { CanGo (config_of settings.now) now (process_of self.old) (F.seen below.old) link }
        ensures valid { F.valid below.new }
        ensures below { F.same_below below.old below.new }
        ensures later { IsLater (F.seen below.old) (F.seen below.new) }
        ensures does { Goes (F.refuses_send below.old) (config_of settings.now) now (process_of self.old) (F.seen below.old) link result (process_of self.new) (F.seen below.new) }
        ensures lower { SendsBelow (below.new ≡ below.old) (SendsAsSeen F.seen F.refuses_send F.does_send below.old below.new) result }
        ensures shelf { Asks (S.slots shelf.new ≡ S.slots shelf.old)
            (IsAsked (S.may_answer shelf.old settings.now.policy who) (IsHeld (F.refuses_send below.old) (config_of settings.now) now (F.seen below.old) link (process_of self.old))
            settings.now.policy self.old.queues.queues.items link (S.slots shelf.old) (S.slots shelf.new) (process_of self.old) result (process_of self.new)) result }
        ensures kept { queue_settings self.new ≡ queue_settings self.old }
    {
        let Some(live) = live_link(self.links.as_slice(), link) else {
            return Err(StepError::NoLink);
        };
        let Some(item) = self.queues.serve(shelf, &settings.policy, who, link) else {
            return Ok(OutStep::Idle);
        };
        let Some(promise) = below.promise(live.port) else {
            unreachable!()
        };
        let first = First {
            key: item.pdu.key(),
            qos: item.pdu.qos,
            link,
            port: live.port,
        };
        let left = item.left;
        let charge = charge(now, item.since, promise);
        let Some(rest) = left_after(left, charge) else {
            return self.drop_first(alloc, first, Cause::Expired { left, charge });
        };
        let bytes = protect(alloc, rest, &item.pdu, settings.widths)?;
        self.send_first(alloc, below, first, bytes.as_slice())
    }
}
