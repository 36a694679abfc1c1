//! A DIF.
ghost use Rattle.std.specs.Prelude.{◌≡◌, ◌<◌, length, IfSome, true, false, ◌==◌, ◌↔◌, Err, position};
ghost use Rattle.rina_data.specs.Configs.{config_of};
ghost use Rattle.rina_dif_law.specs.Sending.{home};
ghost use Rattle.rina_data.specs.declared.settings.Member.{Member};
ghost use Rattle.rina_data.specs.declared.step.StepError.TheVariants.{Memory};

use crate::connections::Connections;
use crate::layout::Layout;
use crate::managements::Managements;
use crate::processes::Processes;
use crate::waiting_asks::WaitingAsk;
use rina_base::{Node, Seq, Tick};
use rina_data::{Member, Settings, StepError};
use rina_flows::Flows;
use rina_ids::MemberIds;
use rina_iface::Registered;

/// A DIF: IPC processes at its nodes, and the flows between the applications above them. Once an allocation has failed,
/// each call that takes `alloc` fails with `Memory` and changes nothing.
#[derive(Drop)]
pub struct Dif {
    pub(crate) settings: Settings,
    pub(crate) clock: Tick,
    pub(crate) processes: Processes,
    /// The managements of its members, one for each, in their order: the items that a member holds, what it made of them, and
    /// the objects that it shows. The next hops of an IPC process are read from the items.
    pub(crate) managements: Managements,
    /// Whether it is static, its links as they were laid, and how long an asker waits, which never change.
    pub(crate) laid: Layout,
    /// The management connections of its links.
    pub(crate) connections: Connections,
    pub(crate) flows: Flows,
    /// The CEP-ids of its members, each at the place of its member: which are in use, and which rest.
    pub(crate) ids: MemberIds,
    /// The places of the far ends that nobody has claimed yet, the oldest first.
    pub(crate) waiting: Vec<usize>,
    /// The asks for flows that wait for their answers, in the order in which they were made.
    pub(crate) asks: Vec<WaitingAsk>,
    pub(crate) names: Seq<Registered>,
    /// The nodes of its enrolled members, in the order of the members.
    pub(crate) enrolled: Seq<Node>,
    /// Whether an allocation has failed.
    pub(crate) failed: bool,
}

/// The place of the member at a node.
pub(crate) fn place(members: &[Member], node: Node) -> Option<usize>
    ensures place { result ≡ position (λ (m : Member). m.node == node) members.now }
    ensures within { IfSome result (λ i. i < length members.now) }
{
    members.iter().position(|member| member.node == node)
}

impl Dif {
    /// The place of the IPC process at a node. None exactly where the DIF has none there.
    pub(crate) fn place_at_node(&self, node: Node) -> Option<usize>
        ensures place { result ≡ home node (config_of self.now.settings).members }
        ensures within { IfSome result (λ i. i < length self.now.settings.members) }
    {
        place(self.settings.members.as_slice(), node)
    }

    /// Whether an allocation has failed.
    pub fn has_failed(&self) -> bool
        ensures { result ≡ self.now.failed }
    {
        self.failed
    }

    /// Passes the answer of a step on, and remembers where an allocation failed.
    pub(crate) fn remember_memory_failure<T>(
        failed: &mut bool,
        step: Result<T, StepError>,
    ) -> Result<T, StepError>
        requires { failed.old ≡ false }
        ensures same { result ≡ step }
        ensures noted { failed.new ≡ true ↔ (step ≡ Err Memory) }
    {
        match step {
            Err(StepError::Memory) => {
                *failed = true;
                Err(StepError::Memory)
            }
            other => other,
        }
    }
}
