//! All wires.
ghost use Rattle.std.specs.Prelude.{◌≡◌, ◌<◌, map, IfOk, MatchOption};
ghost use Rattle.rina_wire.specs.Air.{end_at, failed_air, seen_of};
ghost use Rattle.rina_wire.specs.Plan.{IsSoundPlan, air_of, line_of};
ghost use Rattle.rina_wire.specs.Sound.{IsSound};

mod calls;
mod events;
mod facility;
mod rest;
mod tick;

use crate::wire::Wire;
use rina_base::{Memory, Port, Tick};
use rina_iface::End;
use rina_stack::{Plan, WirePlan};
use std::alloc::{AllocError, Global};
use std::marker::Model;

/// The wires of a stack, and the clock.
#[derive(Drop)]
pub struct Wires {
    clock: Tick,
    wires: Vec<Wire>,
    failed: bool,
}

impl Model for Wires {
    ghost use Rattle.rina_wire.specs.Air.{Air};

    ghost Value = { Air };

    ghost view = { λ w. record { now = w.clock; wires = w.wires.items; failed = w.failed } };
}

/// A wire for each that is planned.
fn lay(alloc: Global, plans: &[WirePlan]) -> Result<Vec<Wire>, AllocError>
    ensures { IfOk result (λ wires. wires.items ≡ map line_of plans.now) }
{
    let mut wires = Vec::new(alloc);
    for plan in plans {
        wires.push(Wire::new(alloc, plan))?;
    }
    Ok(wires)
}

impl Wires {
    /// The wires of a plan at tick 0. No flow was made on them yet.
    #[tactic(auto, using(crate::proofs::Start::sound_start))]
    pub fn new(alloc: Global, plan: &Plan) -> Result<Wires, Memory>
        requires { IsSoundPlan plan.now }
        ensures valid { IfOk result (λ w. IsSound w) }
        ensures exact { IfOk result (λ w. w ≡ air_of plan.now) }
    {
        Ok(Wires {
            clock: 0,
            wires: lay(alloc, plan.wires.as_slice())?,
            failed: false,
        })
    }

    /// Whether an allocation has failed.
    pub fn has_failed(&self) -> bool
        ensures { result ≡ self.now.failed }
    {
        self.failed
    }

    /// Remembers that an allocation has failed of what stands on the wires: each call that allocates fails with `Memory`
    /// from now on.
    #[tactic(auto, using(crate::proofs::Sound::sound_failed))]
    pub fn remember_memory_failure(&mut self)
        requires { IsSound self.old }
        ensures valid { IsSound self.new }
        ensures journals { seen_of self.new ≡ seen_of self.old }
        ensures exact { self.new ≡ failed_air self.old }
    {
        self.failed = true;
    }

    /// The end of a port.
    fn end(&self, port: Port) -> Option<&End>
        ensures { MatchOption result (end_at self.now port ≡ None) (λ e. end_at self.now port ≡ Some e.now) }
    {
        self.wires.get(port.fac as usize)?.find(port)
    }
}
