//! What never changes of a DIF once it is laid out.
ghost use Rattle.std.specs.Prelude.{◌≡◌, [], IfOk};

use rina_base::Seq;
use rina_plan::LinkPlan;
use std::alloc::{AllocError, Global};

/// Whether a DIF is static, its links, and how long it waits for answers. No step changes them.
#[derive(Drop)]
pub struct Layout {
    /// Whether all its members were enrolled from the start; else the first one alone was, and it has no links of the stack.
    pub is_static: bool,
    /// Its links as they were laid, in stack order: what the link states say from the start.
    pub links: Seq<LinkPlan>,
    /// For how many ticks an asker for a flow waits for the answer.
    pub wait: u32,
}

impl Layout {
    /// No links, and asks that wait for one tick.
    pub(crate) fn none(alloc: Global, is_static: bool) -> Layout
        ensures { result ≡ record { is_static = is_static; links = []; wait = 1 } }
    {
        Layout {
            is_static,
            links: Seq::new(alloc),
            wait: 1,
        }
    }

    /// These links, and asks that wait for so many ticks.
    pub(crate) fn of(
        alloc: Global,
        is_static: bool,
        links: &[LinkPlan],
        wait: u32,
    ) -> Result<Layout, AllocError>
        ensures { IfOk result (λ l. l ≡ record { is_static = is_static; links = links.now; wait = wait }) }
    {
        Ok(Layout {
            is_static,
            links: Seq::from_vec(Vec::from_slice(alloc, links)?),
            wait,
        })
    }
}
