//! Rules 8 and 19, over a stack in which names are resolved.
ghost use Rattle.std.specs.Prelude.{◌≡◌, ◌<◌, length, IfSome, position};
ghost use Rattle.rina_stack.specs.Rules.{spread_of, is_unfit_wire, first_wire, top_fault};

use rina_base::Storm;
use rina_table::{Sketch, WireSketch};

fn spread(storm: Option<Storm>) -> u32
    ensures { result ≡ spread_of storm }
{
    match storm {
        Some(storm) => storm.spread,
        None => 0,
    }
}

// Rule 8: the ends of a wire differ, and a frame arrives in its lifetime.

#[tactic(auto, unfolding(crate::specs::Rules::is_unfit_wire))]
fn is_unfit_wire(wire: &WireSketch) -> bool
    ensures { result ≡ is_unfit_wire wire.now }
{
    wire.a == wire.b || u64::from(wire.life) < u64::from(wire.delay) + u64::from(spread(wire.storm))
}

fn first_unfit(wires: &[WireSketch]) -> Option<usize>
    ensures place { result ≡ position is_unfit_wire wires.now }
    ensures within { IfSome result (λ i. i < length wires.now) }
{
    wires.iter().position(|wire| is_unfit_wire(wire))
}

/// The item of the first wire whose ends are equal, or whose frames do not live until they arrive (rule 8).
pub(crate) fn first_unfit_wire(wires: &[WireSketch]) -> Option<usize>
    ensures { result ≡ first_wire is_unfit_wire wires.now }
{
    let at = first_unfit(wires)?;
    Some(1 + at)
}

// Rule 19: how many there may be.

/// Item 0, where there are more than 64 nodes, 128 wires or 16 DIFs (rule 19).
#[tactic(auto, unfolding(crate::specs::Rules::top_fault))]
pub(crate) fn too_many(sketch: &Sketch) -> Option<usize>
    ensures { result ≡ top_fault sketch.now }
{
    if sketch.nodes.len() > 64 || sketch.wires.len() > 128 || sketch.difs.len() > 16 {
        Some(0)
    } else {
        None
    }
}
