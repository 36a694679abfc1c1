//! The words on wires: each calls the tower, and says what it answered.
ghost use Rattle.std.specs.Prelude.{IfOk, OnErr};
ghost use Rattle.rina_stack.specs.Plan.{IsPlan};
ghost use Rattle.rina_tower.specs.Events.{Cuts, HoldsBack, Loses, Mends, Repeats};
ghost use Rattle.rina_tower.specs.Stands.{IsTower};
ghost use Rattle.rina_words.specs.Step.{CallsWire, Cutting, Holding, Losing, Mending, Repeating, wire_of};
ghost use Rattle.rina_words.specs.Wanting.{HasFailed, WantsOnWire};

use crate::run::Run;
use rina_base::{Memory, Name, Tick};
use rina_notes::{Line, refused, tell_wire};
use rina_report::{Answer, Refusal};
use rina_stack::Plan;
use rina_wire::WireError;
use std::alloc::Global;

/// The word `lose`.
pub fn lose(plan: &Plan, run: &mut Run, wire: &Name, frame: u32) -> Option<Answer>
    requires plan { IsPlan plan.now }
    requires sound { IsTower run.old.tower }
    ensures does { Losing plan.now wire.now frame run.old result run.new }
    ensures sound { IsTower run.new.tower }
{
    let Some(wire) = plan.wire(wire) else {
        return refused(Some(Refusal::NoWire));
    };
    call_lose(run, wire, frame)
}

fn call_lose(run: &mut Run, wire: u16, frame: u32) -> Option<Answer>
    requires { IsTower run.old.tower }
    ensures does { CallsWire (Loses wire frame) run.old result run.new }
    ensures sound { IsTower run.new.tower }
{
    match run.tower.lose(wire, u64::from(frame)) {
        Ok(()) => Some(Answer::Done),
        Err(error) => refused(tell_wire(error)),
    }
}

/// The word `repeat`.
pub fn repeat(
    line: &Line<'_>,
    run: &mut Run,
    wire: &Name,
    frame: u32,
    at: Tick,
) -> Result<Option<Answer>, Memory>
    requires plan { IsPlan line.now.plan.now }
    requires sound { IsTower run.old.tower }
    ensures does { IfOk result (λ says. Repeating line.now.plan.now wire.now frame at run.old says run.new) }
    ensures memory { OnErr result (WantsOnWire (wire_of line.now.plan.now wire.now) (HasFailed run.new)) }
    ensures sound { IsTower run.new.tower }
{
    let Some(wire) = line.plan.wire(wire) else {
        return Ok(refused(Some(Refusal::NoWire)));
    };
    call_repeat(line.alloc, run, wire, frame, at)
}

fn call_repeat(
    alloc: Global,
    run: &mut Run,
    wire: u16,
    frame: u32,
    at: Tick,
) -> Result<Option<Answer>, Memory>
    requires { IsTower run.old.tower }
    ensures does { IfOk result (λ says. CallsWire (Repeats wire frame at) run.old says run.new) }
    ensures memory { OnErr result (HasFailed run.new) }
    ensures sound { IsTower run.new.tower }
{
    match run.tower.repeat(alloc, wire, u64::from(frame), at) {
        Ok(()) => Ok(Some(Answer::Done)),
        Err(WireError::Memory) => Err(Memory),
        Err(error) => Ok(refused(tell_wire(error))),
    }
}

/// The word `hold`.
pub fn hold(plan: &Plan, run: &mut Run, wire: &Name, frame: u32, at: Tick) -> Option<Answer>
    requires plan { IsPlan plan.now }
    requires sound { IsTower run.old.tower }
    ensures does { Holding plan.now wire.now frame at run.old result run.new }
    ensures sound { IsTower run.new.tower }
{
    let Some(wire) = plan.wire(wire) else {
        return refused(Some(Refusal::NoWire));
    };
    call_hold(run, wire, frame, at)
}

fn call_hold(run: &mut Run, wire: u16, frame: u32, at: Tick) -> Option<Answer>
    requires { IsTower run.old.tower }
    ensures does { CallsWire (HoldsBack wire frame at) run.old result run.new }
    ensures sound { IsTower run.new.tower }
{
    match run.tower.hold(wire, u64::from(frame), at) {
        Ok(()) => Some(Answer::Done),
        Err(error) => refused(tell_wire(error)),
    }
}

/// The word `cut`.
pub fn cut(plan: &Plan, run: &mut Run, wire: &Name) -> Option<Answer>
    requires plan { IsPlan plan.now }
    requires sound { IsTower run.old.tower }
    ensures does { Cutting plan.now wire.now run.old result run.new }
    ensures sound { IsTower run.new.tower }
{
    let Some(wire) = plan.wire(wire) else {
        return refused(Some(Refusal::NoWire));
    };
    call_cut(run, wire)
}

fn call_cut(run: &mut Run, wire: u16) -> Option<Answer>
    requires { IsTower run.old.tower }
    ensures does { CallsWire (Cuts wire) run.old result run.new }
    ensures sound { IsTower run.new.tower }
{
    match run.tower.cut(wire) {
        Ok(()) => Some(Answer::Done),
        Err(error) => refused(tell_wire(error)),
    }
}

/// The word `mend`.
pub fn mend(plan: &Plan, run: &mut Run, wire: &Name) -> Option<Answer>
    requires plan { IsPlan plan.now }
    requires sound { IsTower run.old.tower }
    ensures does { Mending plan.now wire.now run.old result run.new }
    ensures sound { IsTower run.new.tower }
{
    let Some(wire) = plan.wire(wire) else {
        return refused(Some(Refusal::NoWire));
    };
    call_mend(run, wire)
}

fn call_mend(run: &mut Run, wire: u16) -> Option<Answer>
    requires { IsTower run.old.tower }
    ensures does { CallsWire (Mends wire) run.old result run.new }
    ensures sound { IsTower run.new.tower }
{
    match run.tower.mend(wire) {
        Ok(()) => Some(Answer::Done),
        Err(error) => refused(tell_wire(error)),
    }
}
