//! One line of a schedule.
ghost use Rattle.std.specs.Prelude.{◌≡◌, ◌+◌, ◌<◌, ◌≤◌, nat_lt, true, IfOk, OnOk, OnErr};
ghost use Rattle.rina_stack.specs.Plan.{IsPlan};
ghost use Rattle.rina_tower.specs.Stands.{IsTower};
ghost use Rattle.rina_tower.specs.Ranks.{now_of};
ghost use Rattle.rina_words.specs.Kinds.{is_below, says_one};
ghost use Rattle.rina_words.specs.Wanting.{Wants};
ghost use Rattle.rina_notes.specs.Look.{Leads, Extends};
ghost use Rattle.rina_words.specs.Step.{Acts, Answering, HasNames, Says, Steps, Ticking, Ticks, TicksOnce, rounds_after, stage};

use crate::cdap::cdap;
use crate::dif::{clock, in_step};
use crate::flow::{FlowRequest, accept, allocate, register, send};
use crate::journal::journal;
use crate::ledger::ledger;
use crate::member::{enrol, member, publish};
use crate::policy::retire;
use crate::read::read;
use crate::release::{free, state, unregister};
use crate::rest::pass_idle_ticks;
use crate::rib::rib;
use crate::round::{go_round, out_step};
use crate::run::Run;
use crate::wire::{cut, hold, lose, mend, repeat};
use rina_base::Memory;
use rina_iface::Facility;
use rina_notes::{Line, tell, tell_labels, tick_of};
use rina_policy::Retires;
use rina_report::{Answer, Notes, Refusal};
use rina_schedule::Event;
use rina_stack::Rounds;
use rina_wire::TickError;

/// One tick and the round that follows it, after which the labels tell their states.
fn tick_once<P: Retires>(
    line: &Line<'_>,
    run: &mut Run,
    shelf: &mut P,
    trace: &mut Notes,
) -> Result<(), Memory>
    requires tower { IsTower run.old.tower }
    requires clock { now_of run.old.tower < 10_000_000 }
    ensures does { OnOk result (Leads (λ ns. TicksOnce line.now.plan.now line.now.number (stage run.old (P.slots shelf.old)) ns (stage run.new (P.slots shelf.new))) trace.old trace.new) }
    ensures more { OnErr result (Extends trace.old trace.new) }
    ensures clock { OnOk result (now_of run.new.tower ≡ now_of run.old.tower + 1) }
    ensures tower { IsTower run.new.tower }
    ensures names { HasNames (P.slots shelf.old) (P.slots shelf.new) }
{
    match run.tower.tick(line.alloc) {
        Ok(()) => {}
        Err(TickError::Memory) => return Err(Memory),
        Err(TickError::ClockSpent) => unreachable!(),
    }
    go_round(line.alloc, line.plan.rounds, run, shelf)?;
    tell_labels(line, &run.tower, &mut run.labels, trace)
}

/// The word `tick`.
fn tick<P: Retires>(
    line: &Line<'_>,
    run: &mut Run,
    shelf: &mut P,
    count: u32,
    trace: &mut Notes,
) -> Result<(), Memory>
    requires { IsTower run.old.tower }
    ensures does { OnOk result (Leads (λ ns. Ticking (nat_lt 10000000 (now_of run.old.tower + count)) line.now.plan.now line.now.number count (stage run.old (P.slots shelf.old)) ns (stage run.new (P.slots shelf.new))) trace.old trace.new) }
    ensures more { OnErr result (Extends trace.old trace.new) }
    ensures tower { IsTower run.new.tower }
    ensures names { HasNames (P.slots shelf.old) (P.slots shelf.new) }
{
    if u64::from(tick_of(&run.tower)) + u64::from(count) > 10_000_000 {
        let why = Refusal::ClockSpent;
        return tell(
            trace,
            line.number,
            tick_of(&run.tower),
            Some(Answer::Refused { why }),
        );
    }
    tick_all(line, run, shelf, count, trace)?;
    tell(trace, line.number, tick_of(&run.tower), Some(Answer::Done))
}

/// So many ticks. After each the clock goes on at once over those at which nothing happens.
fn tick_all<P: Retires>(
    line: &Line<'_>,
    run: &mut Run,
    shelf: &mut P,
    count: u32,
    trace: &mut Notes,
) -> Result<(), Memory>
    requires tower { IsTower run.old.tower }
    requires clock { now_of run.old.tower + count ≤ 10_000_000 }
    ensures does { OnOk result (Leads (λ ns. Ticks line.now.plan.now line.now.number count (stage run.old (P.slots shelf.old)) ns (stage run.new (P.slots shelf.new))) trace.old trace.new) }
    ensures more { OnErr result (Extends trace.old trace.new) }
    ensures tower { IsTower run.new.tower }
    ensures names { HasNames (P.slots shelf.old) (P.slots shelf.new) }
{
    let mut left = count;
    'ticks: while left > 0 {
        tick_once(line, run, shelf, trace)?;
        left -= 1;
        left -= pass_idle_ticks(line.plan.rounds, &mut run.tower, left);
    }
    Ok(())
}

/// Does what a line asks for, where its word is on a wire or on an IPC process, and gives its answer.
fn answer_below(line: &Line<'_>, run: &mut Run, event: &Event) -> Result<Option<Answer>, Memory>
    requires plan { IsPlan line.now.plan.now }
    requires below { is_below event.now ≡ true }
    requires sound { IsTower run.old.tower }
    ensures does { IfOk result (λ says. Answering line.now.plan.now event.now run.old says run.new) }
    ensures memory { OnErr result (Wants line.now.plan.now event.now run.old run.new) }
    ensures sound { IsTower run.new.tower }
{
    match event {
        Event::Lose { wire, frame } => Ok(lose(line.plan, run, wire, *frame)),
        Event::Repeat { wire, frame, at } => repeat(line, run, wire, *frame, *at),
        Event::Hold { wire, frame, at } => Ok(hold(line.plan, run, wire, *frame, *at)),
        Event::Cut { wire } => Ok(cut(line.plan, run, wire)),
        Event::Mend { wire } => Ok(mend(line.plan, run, wire)),
        Event::In { dif, node, link } => in_step(line, run, dif, node, *link),
        Event::Clock { dif, node } => clock(line, run, dif, node),
        Event::Cdap { dif, node, bytes } => cdap(line, run, dif, node, bytes),
        Event::Publish { dif, node, fac } => publish(line, run, dif, node, fac),
        Event::Enrol {
            dif,
            node,
            fac,
            peer,
        } => enrol(line, run, dif, node, fac, peer),
        Event::Member { dif, node } => Ok(member(line.plan, run, dif, node)),
        _ => unreachable!(),
    }
}

/// Does what a line asks for, where its word has one answer, and gives it.
fn answer(line: &Line<'_>, run: &mut Run, event: &Event) -> Result<Option<Answer>, Memory>
    requires plan { IsPlan line.now.plan.now }
    requires one { says_one event.now ≡ true }
    requires sound { IsTower run.old.tower }
    ensures does { IfOk result (λ says. Answering line.now.plan.now event.now run.old says run.new) }
    ensures memory { OnErr result (Wants line.now.plan.now event.now run.old run.new) }
    ensures sound { IsTower run.new.tower }
{
    match event {
        Event::Register { fac, node, app } => register(line, run, fac, node, app),
        Event::Unregister { fac, node, app } => unregister(line, run, fac, node, app),
        Event::Alloc {
            label,
            fac,
            node,
            app,
            to,
            want,
        } => {
            let asks = FlowRequest {
                label,
                fac,
                node,
                app,
                to,
                want: *want,
            };
            allocate(line, run, &asks)
        }
        Event::Accept {
            label,
            fac,
            node,
            app,
        } => accept(line, run, label, fac, node, app),
        Event::Send { label, bytes } => send(line, run, label, bytes),
        Event::State { label } => state(line, run, label),
        Event::Free { label } => free(line.alloc, run, label),
        _ => answer_below(line, run, event),
    }
}

/// Does what a line asks for, where its word has one answer, and adds its note.
fn act_once(line: &Line<'_>, run: &mut Run, event: &Event, trace: &mut Notes) -> Result<(), Memory>
    requires plan { IsPlan line.now.plan.now }
    requires one { says_one event.now ≡ true }
    requires sound { IsTower run.old.tower }
    ensures does { OnOk result (Leads (λ ns. Says line.now.number (Answering line.now.plan.now event.now run.old) ns run.new) trace.old trace.new) }
    ensures more { OnErr result (Extends trace.old trace.new) }
    ensures sound { IsTower run.new.tower }
{
    let says = answer(line, run, event)?;
    tell(trace, line.number, tick_of(&run.tower), says)
}

/// Does what a line asks for, and adds the notes of its answer.
fn act<P: Retires>(
    line: &Line<'_>,
    run: &mut Run,
    shelf: &mut P,
    event: &Event,
    trace: &mut Notes,
) -> Result<(), Memory>
    requires plan { IsPlan line.now.plan.now }
    requires sound { IsTower run.old.tower }
    ensures does { OnOk result (Leads (λ ns. Acts line.now.plan.now line.now.number event.now (stage run.old (P.slots shelf.old)) ns (stage run.new (P.slots shelf.new))) trace.old trace.new) }
    ensures more { OnErr result (Extends trace.old trace.new) }
    ensures sound { IsTower run.new.tower }
    ensures names { HasNames (P.slots shelf.old) (P.slots shelf.new) }
{
    match event {
        Event::Read { label } => read(line.alloc, run, line.number, label, trace),
        Event::Tick { count } => tick(line, run, shelf, *count, trace),
        Event::Journal { fac } => journal(line, run, fac, trace),
        Event::Ledger { dif, node } => ledger(line, run, dif, node, trace),
        Event::Rib { dif, node, path } => rib(line, run, dif, node, path, trace),
        Event::Out { dif, node, link } => {
            let says = out_step(line, run, shelf, dif, node, *link)?;
            tell(trace, line.number, tick_of(&run.tower), says)
        }
        Event::Round => {
            go_round(line.alloc, Rounds::Auto, run, shelf)?;
            tell(trace, line.number, tick_of(&run.tower), Some(Answer::Done))
        }
        Event::Retire { policy } => {
            let says = retire(shelf, policy);
            tell(trace, line.number, tick_of(&run.tower), says)
        }
        _ => act_once(line, run, event, trace),
    }
}

/// Who moves PDUs after a line. No round follows a line `tick`, since each of its ticks had one.
fn rounds_after(rounds: Rounds, event: &Event) -> Rounds
    ensures { result ≡ rounds_after rounds event.now }
{
    match event {
        Event::Tick { .. } => Rounds::Manual,
        _ => rounds,
    }
}

/// Runs a line: its word, the round that follows by itself, and then the states of the labels that
/// changed.
pub fn step<P: Retires>(
    line: &Line<'_>,
    run: &mut Run,
    shelf: &mut P,
    event: &Event,
    trace: &mut Notes,
) -> Result<(), Memory>
    requires plan { IsPlan line.now.plan.now }
    requires sound { IsTower run.old.tower }
    ensures does { OnOk result (Leads (λ ns. Steps line.now.plan.now line.now.number event.now (stage run.old (P.slots shelf.old)) ns (stage run.new (P.slots shelf.new))) trace.old trace.new) }
    ensures more { OnErr result (Extends trace.old trace.new) }
    ensures sound { IsTower run.new.tower }
    ensures names { HasNames (P.slots shelf.old) (P.slots shelf.new) }
{
    act(line, run, shelf, event, trace)?;
    go_round(
        line.alloc,
        rounds_after(line.plan.rounds, event),
        run,
        shelf,
    )?;
    tell_labels(line, &run.tower, &mut run.labels, trace)
}
