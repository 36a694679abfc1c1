//! DIFs that are not static, at their start.
ghost use Rattle.std.specs.Prelude.{IfOk};
ghost use Rattle.rina_tower.specs.Stands.{IsTower};

use rina_agent::MemberState;
use rina_base::Node;
use rina_iface::RegisterError;
use rina_stack::{BuiltIn, read_stack};
use rina_tower::{PublishError, Tower};
use std::alloc::Global;
use std::test::Fail;

/// Two systems on a wire, a DIF over it, and another over that one. Neither is static.
static STACK: &str = "
nodes = ['a', 'b', 'c']
[[wire]]
name = 'w'
ends = ['a', 'b']
delay = 1
life = 3
largest = 1500
[[dif]]
name = 'low'
rank = 1
pdu = 96
widths = { addr = 1, cep = 1, len = 2, seq = 2 }
queue = 8
policy = 'strict'
wait = 50
manage = { mpl = 10, r = 10, a = 2, retry = 5, window = 8 }
cube = [{ id = 1, kind = 'datagram', mpl = 8, window = 8, largest = 80 }]
member = [{ node = 'a', addr = 1 }, { node = 'b', addr = 2 }]
[[dif]]
name = 'high'
rank = 2
static = false
pdu = 80
widths = { addr = 1, cep = 1, len = 2, seq = 2 }
queue = 8
policy = 'strict'
wait = 50
manage = { mpl = 20, r = 20, a = 2, retry = 5, window = 8 }
cube = [{ id = 1, kind = 'datagram', mpl = 20, window = 8, largest = 60 }]
member = [{ node = 'b', addr = 2 }, { node = 'a', addr = 1 }]
";

pub(crate) fn tower(alloc: Global) -> Result<Tower, Fail>
    ensures { IfOk result (λ t. IsTower t) }
{
    let plan = match read_stack(alloc, STACK.as_bytes(), &BuiltIn) {
        Ok(plan) => plan,
        Err(_) => return Err("no plan".into()),
    };
    match Tower::build(alloc, &plan) {
        Ok(tower) => Ok(tower),
        Err(_) => Err("no tower".into()),
    }
}

/// A rank, a DIF of it and a node, and the state of the member there.
type Told = (u16, u16, Node, Option<MemberState>);

const STATES: [Told; 8] = [
    (1, 0, 0, Some(MemberState::Enrolled)),
    (1, 0, 1, Some(MemberState::Outside)),
    (2, 0, 0, Some(MemberState::Outside)),
    (2, 0, 1, Some(MemberState::Enrolled)),
    (1, 0, 2, None),
    (1, 1, 0, None),
    (0, 0, 0, None),
    (3, 0, 0, None),
];

#[test]
fn the_first_member_is_enrolled_from_the_start(rt: HostRuntime) -> Result<(), Fail> {
    let tower = tower(rt.alloc())?;
    for (r, dif, node, want) in STATES {
        assert_eq!(rt; tower.member(r, dif, node), want);
    }
    Ok(())
}

#[test]
fn an_ipc_process_is_published_where_a_member_is_enrolled(rt: HostRuntime) -> Result<(), Fail> {
    let alloc = rt.alloc();
    let mut tower = tower(alloc)?;
    let outside = Err(PublishError::Lower(RegisterError::NoMember));
    assert_eq!(rt; tower.publish(alloc, 2, 0, 0, 0), Ok(()));
    assert_eq!(rt; tower.publish(alloc, 2, 0, 1, 0), outside);
    assert_eq!(rt; tower.publish(alloc, 1, 0, 1, 0), Ok(()));
    Ok(())
}
