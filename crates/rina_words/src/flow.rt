//! The words on flows: each calls the tower, and says what it answered.
ghost use Rattle.std.specs.Prelude.{◌≡◌, ◌∷◌, ◌++◌, [], None, Some, true, IfOk, OnErr, OnOk};
ghost use Rattle.rina_words.specs.Step.{Registering, Allocating, Accepting, Sending, CallsRegister, CallsAllocate, CallsIncoming, CallsSend, port_answer, label_of, asked};
ghost use Rattle.rina_stack.specs.Plan.{IsPlan};
ghost use Rattle.rina_tower.specs.Stands.{IsTower};
ghost use Rattle.rina_notes.specs.Copying.{copies_drawn};
ghost use Rattle.rina_notes.specs.Look.{state_at};
ghost use Rattle.rina_notes.specs.Sites.{label_in, port_in, site_at};
ghost use Rattle.rina_words.specs.Wanting.{HasFailed, WantsAt, WantsLabel, WantsOn, WantsToAccept, WantsToSend};

use crate::run::Run;
use rina_base::{AppName, Bytes, Memory, Name, Port};
use rina_cube::Want;
use rina_iface::{AllocateError, Ask, Facility, RegisterError, SendError};
use rina_notes::{
    Label, Line, Site, find_site, refused, state_at, tell_allocate, tell_app_send, tell_drawn,
    tell_register,
};
use rina_report::{Answer, Refusal};
use rina_stack::Plan;
use rina_tower::{AppError, Tower};
use std::alloc::Global;

/// The answer that tells the state of a port of a rank.
pub fn say_port(
    alloc: Global,
    plan: &Plan,
    tower: &Tower,
    rank: u16,
    port: Port,
) -> Result<Option<Answer>, Memory>
    requires { IsTower tower.now }
    ensures told { IfOk result (λ o. o ≡ port_answer plan.now tower.now rank port) }
    ensures memory { OnErr result (copies_drawn plan.now rank (state_at tower.now rank port) ≡ true) }
{
    match tell_drawn(alloc, plan, rank, state_at(tower, rank, port))? {
        Some(state) => Ok(Some(Answer::Port { state })),
        None => Ok(None),
    }
}

/// The word `register`.
pub fn register(
    line: &Line<'_>,
    run: &mut Run,
    fac: &Name,
    node: &Name,
    app: &AppName,
) -> Result<Option<Answer>, Memory>
    requires plan { IsPlan line.now.plan.now }
    requires sound { IsTower run.old.tower }
    ensures does { IfOk result (λ says. Registering line.now.plan.now fac.now node.now app.now run.old says run.new) }
    ensures memory { OnErr result (WantsAt (site_at line.now.plan.now 1 fac.now node.now) (λ site. HasFailed run.new)) }
    ensures sound { IsTower run.new.tower }
{
    let site = match find_site(line.plan, 1, fac, node) {
        Ok(site) => site,
        Err(field) => return Ok(refused(Some(Refusal::Unknown { field }))),
    };
    call_register(line.alloc, run, site, app)
}

fn call_register(
    alloc: Global,
    run: &mut Run,
    site: Site,
    app: &AppName,
) -> Result<Option<Answer>, Memory>
    requires { IsTower run.old.tower }
    ensures does { IfOk result (λ says. CallsRegister app.now run.old site says run.new) }
    ensures memory { OnErr result (HasFailed run.new) }
    ensures sound { IsTower run.new.tower }
{
    match run
        .tower
        .app_register(alloc, site.rank, site.fac, site.node, app)
    {
        Ok(()) => Ok(Some(Answer::Done)),
        Err(AppError::Call(RegisterError::Memory)) => Err(Memory),
        Err(error) => Ok(refused(tell_register(error))),
    }
}

/// What a line `alloc` asks for: a label, the facility and the node, the two applications, and the wish.
#[derive(Drop)]
pub struct FlowRequest<'a> {
    pub label: &'a Name,
    pub fac: &'a Name,
    pub node: &'a Name,
    pub app: &'a AppName,
    pub to: &'a AppName,
    pub want: Want,
}

/// The word `alloc`.
pub fn allocate(
    line: &Line<'_>,
    run: &mut Run,
    asks: &FlowRequest<'_>,
) -> Result<Option<Answer>, Memory>
    requires plan { IsPlan line.now.plan.now }
    requires sound { IsTower run.old.tower }
    ensures does { IfOk result (λ says. Allocating line.now.plan.now asks.now.label.now asks.now.fac.now asks.now.node.now asks.now.app.now asks.now.to.now asks.now.want run.old says run.new) }
    ensures memory { OnErr result (WantsAt (site_at line.now.plan.now 2 asks.now.fac.now asks.now.node.now) (λ site. label_in run.old.labels asks.now.label.now ≡ None)) }
    ensures sound { IsTower run.new.tower }
{
    let site = match find_site(line.plan, 2, asks.fac, asks.node) {
        Ok(site) => site,
        Err(field) => return Ok(refused(Some(Refusal::Unknown { field }))),
    };
    if run.labels.has(asks.label) {
        return Ok(refused(Some(Refusal::LabelUsed)));
    }
    let ask = make_ask(line.alloc, site, asks.app, asks.to, asks.want)?;
    call_allocate(line, run, asks, site.rank, &ask)
}

fn make_ask(
    alloc: Global,
    site: Site,
    app: &AppName,
    to: &AppName,
    want: Want,
) -> Result<Ask, Memory>
    ensures { IfOk result (λ ask. ask ≡ asked site app.now to.now want) }
{
    Ok(Ask {
        fac: site.fac,
        node: site.node,
        app: app.copy(alloc)?,
        to: to.copy(alloc)?,
        want,
    })
}

fn call_allocate(
    line: &Line<'_>,
    run: &mut Run,
    asks: &FlowRequest<'_>,
    rank: u16,
    ask: &Ask,
) -> Result<Option<Answer>, Memory>
    requires { IsTower run.old.tower }
    ensures does { IfOk result (λ says. CallsAllocate line.now.plan.now asks.now.label.now asks.now.fac.now asks.now.node.now rank run.old ask.now says run.new) }
    ensures sound { IsTower run.new.tower }
{
    match run.tower.app_allocate(line.alloc, rank, ask) {
        Ok(port) => {
            give_label(line.alloc, run, asks.label, rank, port)?;
            say_port(line.alloc, line.plan, &run.tower, rank, port)
        }
        Err(AppError::Call(AllocateError::Memory)) => Err(Memory),
        Err(error) => Ok(refused(tell_allocate(line.alloc, asks.fac, asks.node, error)?)),
    }
}

/// Gives a label to a port of a rank, whose state is told now.
fn give_label(
    alloc: Global,
    run: &mut Run,
    name: &Name,
    rank: u16,
    port: Port,
) -> Result<(), Memory>
    requires { IsTower run.old.tower }
    ensures tower { run.new.tower ≡ run.old.tower }
    ensures labels { OnOk result (run.new.labels ≡ run.old.labels ++ label_of name.now run.old.tower rank port ∷ []) }
{
    let label = Label {
        name: name.copy(alloc)?,
        rank,
        port,
        shown: state_at(&run.tower, rank, port),
    };
    run.labels.push(label)?;
    Ok(())
}

/// The word `accept`.
pub fn accept(
    line: &Line<'_>,
    run: &mut Run,
    label: &Name,
    fac: &Name,
    node: &Name,
    app: &AppName,
) -> Result<Option<Answer>, Memory>
    requires plan { IsPlan line.now.plan.now }
    requires sound { IsTower run.old.tower }
    ensures does { IfOk result (λ says. Accepting line.now.plan.now label.now fac.now node.now app.now run.old says run.new) }
    ensures memory { OnErr result (WantsAt (site_at line.now.plan.now 2 fac.now node.now) (λ site. WantsLabel label.now run.old (WantsToAccept app.now run.old run.new site))) }
    ensures sound { IsTower run.new.tower }
{
    let site = match find_site(line.plan, 2, fac, node) {
        Ok(site) => site,
        Err(field) => return Ok(refused(Some(Refusal::Unknown { field }))),
    };
    if run.labels.has(label) {
        return Ok(refused(Some(Refusal::LabelUsed)));
    }
    call_incoming(line, run, label, site, app)
}

fn call_incoming(
    line: &Line<'_>,
    run: &mut Run,
    label: &Name,
    site: Site,
    app: &AppName,
) -> Result<Option<Answer>, Memory>
    requires { IsTower run.old.tower }
    ensures does { IfOk result (λ says. CallsIncoming line.now.plan.now label.now app.now run.old site says run.new) }
    ensures memory { OnErr result (WantsToAccept app.now run.old run.new site) }
    ensures sound { IsTower run.new.tower }
{
    match run.tower.app_incoming(site.rank, site.fac, site.node, app) {
        Some(port) => {
            give_label(line.alloc, run, label, site.rank, port)?;
            say_port(line.alloc, line.plan, &run.tower, site.rank, port)
        }
        None => Ok(Some(Answer::Nothing)),
    }
}

/// The word `send`.
pub fn send(
    line: &Line<'_>,
    run: &mut Run,
    label: &Name,
    bytes: &Bytes,
) -> Result<Option<Answer>, Memory>
    requires { IsTower run.old.tower }
    ensures does { IfOk result (λ says. Sending line.now.plan.now label.now bytes.now run.old says run.new) }
    ensures memory { OnErr result (WantsOn (port_in run.old.labels label.now) (WantsToSend line.now.plan.now bytes.now run.old run.new)) }
    ensures sound { IsTower run.new.tower }
{
    let Some((rank, port)) = run.labels.port(label) else {
        return Ok(refused(Some(Refusal::Unknown { field: 1 })));
    };
    call_send(line, run, rank, port, bytes)
}

fn call_send(
    line: &Line<'_>,
    run: &mut Run,
    rank: u16,
    port: Port,
    bytes: &Bytes,
) -> Result<Option<Answer>, Memory>
    requires { IsTower run.old.tower }
    ensures does { IfOk result (λ says. CallsSend line.now.plan.now bytes.now run.old rank port says run.new) }
    ensures memory { OnErr result (WantsToSend line.now.plan.now bytes.now run.old run.new rank port) }
    ensures sound { IsTower run.new.tower }
{
    match run.tower.app_send(line.alloc, rank, port, bytes.as_slice()) {
        Ok(num) => Ok(Some(Answer::Sent { num })),
        Err(AppError::Call(SendError::Memory)) => Err(Memory),
        Err(error) => Ok(refused(tell_app_send(line.alloc, line.plan, rank, error)?)),
    }
}
