//! A CEP-id that has rested is drawn again while a PDU of the old flow is still on its way.
ghost use Rattle.std.specs.Prelude.{◌≡◌, [], true, IfOk};
ghost use Rattle.rina_tower.specs.Stands.{IsTower};
ghost use Rattle.rina_tower_tests.specs.More.{MayBindAtTop};

use rina_account::Off;
use rina_base::{AppName, Cause, Key, Name, Num, PduKind, Port};
use rina_iface::{AllocateError, Facility, Fixed};
use rina_policy::{Head, Picks};
use rina_stack::{BuiltIn, read_stack};
use rina_tower::Tower;
use std::alloc::Global;
use std::test::Fail;

/// Two systems on a wire, and a DIF over it, with a flow from `p` at a to `q` at b. Its ids rest for 12 ticks.
static STACK: &str = "
nodes = ['a', 'b']
[[wire]]
name = 'w'
ends = ['a', 'b']
delay = 1
life = 3
largest = 1500
[[dif]]
name = 'd'
rank = 1
static = true
pdu = 96
widths = { addr = 1, cep = 1, len = 2, seq = 2 }
queue = 8
policy = 'strict'
wait = 50
manage = { mpl = 10, r = 20, a = 2, retry = 20, window = 8 }
cube = [{ id = 1, kind = 'datagram', mpl = 4, window = 8, largest = 64 }]
member = [{ node = 'a', addr = 1 }, { node = 'b', addr = 2 }]
link = [{ on = 'w', a = 'a', b = 'b' }]
flow = [{ cube = 1, from = { node = 'a', app = 'p', label = 'p' }, to = { node = 'b', app = 'q', label = 'q' } }]
";

/// The ports of the two ends of a flow.
type Ports = (Port, Port);

/// The ends of the flow that the stack fixes.
const OLD: Ports = (
    Port {
        fac: 0,
        node: 0,
        n: 1,
    },
    Port {
        fac: 0,
        node: 1,
        n: 1,
    },
);

/// No policies: the first head is taken.
#[derive(Drop)]
struct NoPolicies;

impl Picks for NoPolicies {
    ghost slots = { λ s. [] };

    ghost may_answer = { λ s name who heads place. place ≡ 0 };

    fn ask(&mut self, _name: &Name, _who: u32, _heads: &[Head]) -> u32 {
        0
    }
}

fn tower(alloc: Global) -> Result<Tower, Fail>
    ensures { IfOk result (λ t. IsTower t) }
{
    let plan = match read_stack(alloc, STACK.as_bytes(), &BuiltIn) {
        Ok(plan) => plan,
        Err(_) => return Err("no plan".into()),
    };
    match Tower::build(alloc, &plan) {
        Ok(tower) => Ok(tower),
        Err(_) => Err("no tower".into()),
    }
}

/// A flow from an application at a to one at b.
fn fixed(alloc: Global, from: &[u8], to: &[u8]) -> Result<Fixed, Fail> {
    Ok(Fixed {
        fac: 0,
        cube: 1,
        a: 0,
        a_app: AppName::read(alloc, from)?,
        b: 1,
        b_app: AppName::read(alloc, to)?,
    })
}

/// Whether a flow may be made at the DIF now.
fn may_bind(tower: &Tower, fixed: &Fixed) -> bool
    ensures { result ≡ true → MayBindAtTop tower.now fixed.now }
{
    let Tower::Rank(rank) = tower else {
        return false;
    };
    let Some(dif) = rank.difs.get(fixed.fac) else {
        return false;
    };
    dif.may_bind(fixed)
}

/// Makes a flow at the DIF, at whatever tick.
fn bind_dif(alloc: Global, tower: &mut Tower, fixed: &Fixed) -> Result<Ports, AllocateError>
    requires stands { IsTower tower.old }
    requires may { MayBindAtTop tower.old fixed.now }
    ensures { IsTower tower.new }
{
    match tower {
        Tower::Wires(_wires) => Err(AllocateError::Memory),
        Tower::Rank(rank) => rank.difs.bind(alloc, fixed),
    }
}

/// Makes a flow at the DIF, at whatever tick, where it may be made.
fn bind(alloc: Global, tower: &mut Tower, fixed: &Fixed) -> Result<Ports, Fail>
    requires { IsTower tower.old }
    ensures { IsTower tower.new }
{
    if !may_bind(tower, fixed) {
        return Err("no flow more".into());
    }
    match bind_dif(alloc, tower, fixed) {
        Ok(ports) => Ok(ports),
        Err(_) => Err("no flow".into()),
    }
}

/// A round.
fn go_round(alloc: Global, tower: &mut Tower) -> Result<(), Fail>
    requires { IsTower tower.old }
    ensures { IsTower tower.new }
{
    let mut shelf = NoPolicies;
    match tower.round(alloc, &mut shelf) {
        Ok(()) => Ok(()),
        Err(_) => Err("no memory for a round".into()),
    }
}

/// Rounds, with a tick after each.
fn wait(alloc: Global, tower: &mut Tower, ticks: u32) -> Result<(), Fail>
    requires { IsTower tower.old }
    ensures { IsTower tower.new }
{
    let mut shelf = NoPolicies;
    for _ in 0..ticks {
        if tower.round(alloc, &mut shelf).is_err() || tower.tick(alloc).is_err() {
            return Err("no memory to go on".into());
        }
    }
    Ok(())
}

/// Sends an SDU, and answers its number.
fn send(alloc: Global, tower: &mut Tower, port: Port, sdu: &[u8]) -> Result<Num, Fail>
    requires { IsTower tower.old }
    ensures { IsTower tower.new }
{
    match tower.app_send(alloc, 1, port, sdu) {
        Ok(num) => Ok(num),
        Err(_) => Err("the SDU was refused".into()),
    }
}

/// What came at a port and was not read yet; nothing where nothing did.
fn came(tower: &Tower, port: Port) -> &[u8]
    requires { IsTower tower.now }
{
    match tower.peek(port) {
        Some(lent) => lent.bytes,
        None => b"",
    }
}

#[test]
fn an_id_that_rests_is_not_drawn(rt: HostRuntime) -> Result<(), Fail> {
    let alloc = rt.alloc();
    let mut tower = tower(alloc)?;
    assert!(rt; tower.free(alloc, OLD.0).is_ok());
    wait(alloc, &mut tower, 11)?;
    let (from, _) = bind(alloc, &mut tower, &fixed(alloc, b"p", b"q")?)?;
    let sent = send(alloc, &mut tower, from, b"new")?;
    assert_eq!(rt; sent, Num { cep: 2, seq: 0 });
    Ok(())
}

#[test]
fn an_old_pdu_comes_to_no_new_flow_of_its_id(rt: HostRuntime) -> Result<(), Fail> {
    let alloc = rt.alloc();
    let mut tower = tower(alloc)?;
    // The end at a is closed. The message that tells b is lost, and sent again at tick 20. The frame of b's SDU comes at tick 14.
    assert!(rt; tower.free(alloc, OLD.0).is_ok());
    go_round(alloc, &mut tower)?;
    assert!(rt; tower.lose(0, 0).is_ok());
    wait(alloc, &mut tower, 11)?;
    let old = send(alloc, &mut tower, OLD.1, b"old")?;
    assert_eq!(rt; old, Num { cep: 1, seq: 0 });
    go_round(alloc, &mut tower)?;
    assert!(rt; tower.hold(0, 1, 14).is_ok());
    wait(alloc, &mut tower, 1)?;
    // At tick 12 id 1 of a has rested, and is drawn again.
    let (from, to) = bind(alloc, &mut tower, &fixed(alloc, b"p", b"q")?)?;
    let new = send(alloc, &mut tower, from, b"new")?;
    assert_eq!(rt; new, Num { cep: 1, seq: 0 });
    wait(alloc, &mut tower, 2)?;
    assert_eq!(rt; came(&tower, to), b"new".as_slice());
    let back = send(alloc, &mut tower, to, b"back")?;
    assert_eq!(rt; back, Num { cep: 2, seq: 0 });
    wait(alloc, &mut tower, 1)?;
    // The old PDU came to id 1 of a, and is of another flow than the one that has it now.
    let Some(offs) = tower.ledger(1, 0, 0) else {
        return Err("no member at a".into());
    };
    let key = Key {
        kind: PduKind::Piece,
        src: 2,
        scep: 1,
        seq: 0,
    };
    let cause = Cause::NoConnection { cep: 1 };
    assert_eq!(rt; offs, [Off { key, cause }].as_slice());
    assert_eq!(rt; came(&tower, from), b"".as_slice());
    wait(alloc, &mut tower, 1)?;
    assert_eq!(rt; came(&tower, from), b"back".as_slice());
    Ok(())
}
