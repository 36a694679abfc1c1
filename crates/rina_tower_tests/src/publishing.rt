//! IPC processes are published at the rank below.
ghost use Rattle.std.specs.Prelude.{IfOk};
ghost use Rattle.rina_tower.specs.Stands.{IsTower};

use rina_base::{AppName, Node};
use rina_iface::{Facility, RegisterError};
use rina_stack::{BuiltIn, read_stack};
use rina_tower::{PublishError, Tower};
use std::alloc::Global;
use std::test::Fail;

/// Three systems in a row, a DIF of all of them over the two wires, and one of the outer two over that DIF.
static STACK: &str = "
nodes = ['a', 'b', 'c']
[[wire]]
name = 'ab'
ends = ['a', 'b']
delay = 1
life = 3
largest = 1500
[[wire]]
name = 'bc'
ends = ['b', 'c']
delay = 1
life = 3
largest = 1500
[[dif]]
name = 'low'
rank = 1
static = true
pdu = 96
widths = { addr = 1, cep = 1, len = 2, seq = 2 }
queue = 8
policy = 'strict'
wait = 50
manage = { mpl = 10, r = 10, a = 2, retry = 5, window = 8 }
cube = [{ id = 1, kind = 'datagram', mpl = 8, window = 8, largest = 80 }]
member = [{ node = 'a', addr = 1 }, { node = 'b', addr = 2 }, { node = 'c', addr = 3 }]
link = [{ on = 'ab', a = 'a', b = 'b' }, { on = 'bc', a = 'b', b = 'c' }]
[[dif]]
name = 'high'
rank = 2
static = true
pdu = 80
widths = { addr = 1, cep = 1, len = 2, seq = 2 }
queue = 8
policy = 'strict'
wait = 50
manage = { mpl = 20, r = 20, a = 2, retry = 5, window = 8 }
cube = [{ id = 1, kind = 'datagram', mpl = 20, window = 8, largest = 60 }]
member = [{ node = 'a', addr = 1 }, { node = 'c', addr = 2 }]
link = [{ on = 'low', a = 'a', b = 'c', cube = 1 }]
";

fn tower(alloc: Global) -> Result<Tower, Fail>
    ensures { IfOk result (λ t. IsTower t) }
{
    let plan = match read_stack(alloc, STACK.as_bytes(), &BuiltIn) {
        Ok(plan) => plan,
        Err(_) => return Err("no plan".into()),
    };
    match Tower::build(alloc, &plan) {
        Ok(tower) => Ok(tower),
        Err(_) => Err("no tower".into()),
    }
}

/// What is answered where a DIF of a rank publishes its IPC process at a node, at a facility of the rank below.
type Published = (u16, u16, Node, u16, Result<(), PublishError>);

const ROWS: [Published; 9] = [
    (0, 0, 0, 0, Err(PublishError::NoIpc)),
    (3, 0, 0, 0, Err(PublishError::NoIpc)),
    (1, 1, 0, 0, Err(PublishError::NoIpc)),
    (2, 0, 1, 0, Err(PublishError::NoIpc)),
    (
        1,
        0,
        2,
        0,
        Err(PublishError::Lower(RegisterError::NoMember)),
    ),
    (
        1,
        0,
        2,
        2,
        Err(PublishError::Lower(RegisterError::NoMember)),
    ),
    (1, 0, 0, 0, Ok(())),
    (2, 0, 0, 0, Ok(())),
    (2, 0, 0, 0, Err(PublishError::Lower(RegisterError::Already))),
];

/// The tower that the top rank stands on.
fn below(tower: Tower) -> Result<Tower, Fail>
    requires { IsTower tower }
    ensures { IfOk result (λ t. IsTower t) }
{
    match tower {
        Tower::Wires(_) => Err("no rank".into()),
        Tower::Rank(rank) => Ok(Box::into_inner(rank).below),
    }
}

#[test]
fn an_ipc_process_is_published_at_the_rank_below(rt: HostRuntime) -> Result<(), Fail> {
    let alloc = rt.alloc();
    let mut tower = tower(alloc)?;
    for (r, dif, node, fac, want) in ROWS {
        assert_eq!(rt; tower.publish(alloc, r, dif, node, fac), want);
    }
    let names: [&'static [u8]; 2] = [b"high/a", b"low/a"];
    for name in names {
        tower = below(tower)?;
        let app = AppName::read(alloc, name)?;
        assert_eq!(rt;
            tower.register(alloc, 0, 0, &app),
            Err(RegisterError::Already)
        );
    }
    Ok(())
}
