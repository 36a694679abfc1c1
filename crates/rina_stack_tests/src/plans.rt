//! What a plan says of a stack.
ghost use Rattle.rina_stack.specs.Plan.{IsPlan};

use crate::cases::WHOLE;
use rina_base::{Name, Storm};
use rina_plan::{DifPlan, LinkPlan, Lower};
use rina_stack::{BuiltIn, Plan, Rounds, WirePlan, read_stack};
use std::alloc::Global;

const STORM: Storm = Storm {
    seed: 1,
    lose: 2,
    repeat: 3,
    spread: 8,
};

const LINK: LinkPlan = LinkPlan {
    on: Lower::Dif(0),
    a: 0,
    b: 2,
    weight: 9,
    cube: 1,
};

/// Whether a wire is the second one of the stack.
fn is_wire(wire: &WirePlan) -> bool {
    (wire.a, wire.b) == (1, 2)
        && (wire.delay, wire.life, wire.largest) == (2, 10, 96)
        && wire.storm == Some(STORM)
}

/// Whether a DIF is the second one of the stack.
fn is_dif(dif: &DifPlan) -> bool {
    (dif.rank, dif.is_static, dif.pdu, dif.queue, dif.wait) == (2, true, 80, 64, 501)
        && dif.links.get(0) == Some(&LINK)
}

/// Whether a plan has the wire and the DIF.
fn has_both(plan: &Plan) -> bool {
    match (plan.wires.get(1), plan.difs.get(1)) {
        (Some(wire), Some(dif)) => is_wire(wire) && is_dif(dif),
        _ => false,
    }
}

/// Whether a name is that of the first wire of a plan and of no node.
fn is_named(alloc: Global, plan: &Plan) -> bool
    requires { IsPlan plan.now }
{
    match Name::read(alloc, b"w") {
        Ok(name) => plan.wire(&name) == Some(0) && plan.node(&name).is_none(),
        Err(_) => false,
    }
}

/// Whether the plan of the whole stack has what is written.
fn is_so(alloc: Global) -> bool {
    match read_stack(alloc, WHOLE.as_bytes(), &BuiltIn) {
        Ok(plan) => plan.rounds == Rounds::Auto && is_named(alloc, &plan) && has_both(&plan),
        Err(_) => false,
    }
}

#[test]
fn a_plan_has_what_is_written(rt: HostRuntime) {
    assert!(rt; is_so(rt.alloc()));
}
