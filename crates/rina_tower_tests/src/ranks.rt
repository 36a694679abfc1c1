//! A tower is built of a stack, and an SDU goes down its ranks and up again.
ghost use Rattle.std.specs.Prelude.{◌≡◌, [], IfOk};
ghost use Rattle.rina_tower.specs.Stands.{IsTower};

use rina_base::{Name, Node, Port};
use rina_data::{InStep, OutStep, Took};
use rina_iface::Facility;
use rina_policy::{Head, Picks};
use rina_stack::{BuiltIn, read_stack};
use rina_tower::Tower;
use std::alloc::Global;
use std::test::Fail;

/// Ranks of DIFs over wires, with a flow at the top.
static STACK: &str = "# Four DIFs on top of one another, over two ways from a to d.
nodes = ['a', 'b', 'c', 'd']

[[wire]]
name = 'ab'
ends = ['a', 'b']
delay = 2
life = 10
largest = 1500

[[wire]]
name = 'bd'
ends = ['b', 'd']
delay = 2
life = 10
largest = 1500

[[wire]]
name = 'ac'
ends = ['a', 'c']
delay = 2
life = 10
largest = 1500

[[wire]]
name = 'cd'
ends = ['c', 'd']
delay = 2
life = 10
largest = 1500

[[dif]]
name = 'd1'
rank = 1
static = true
pdu = 104
widths = { addr = 1, cep = 1, len = 2, seq = 2 }
queue = 64
policy = 'strict'
wait = 500
manage = { mpl = 40, r = 30, a = 2, retry = 10, window = 8 }
cube = [
  { id = 1, kind = 'datagram', mpl = 40, window = 16, largest = 88 },
]
member = [
  { node = 'a', addr = 1 },
  { node = 'b', addr = 2 },
  { node = 'c', addr = 3 },
  { node = 'd', addr = 4 },
]
link = [
  { on = 'ab', a = 'a', b = 'b' },
  { on = 'bd', a = 'b', b = 'd' },
  { on = 'ac', a = 'a', b = 'c' },
  { on = 'cd', a = 'c', b = 'd' },
]

[[dif]]
name = 'd2'
rank = 2
static = true
pdu = 88
widths = { addr = 1, cep = 1, len = 2, seq = 2 }
queue = 64
policy = 'strict'
wait = 500
manage = { mpl = 60, r = 30, a = 2, retry = 10, window = 8 }
cube = [
  { id = 1, kind = 'datagram', mpl = 60, window = 16, largest = 72 },
]
member = [{ node = 'a', addr = 1 }, { node = 'd', addr = 2 }]
link = [{ on = 'd1', a = 'a', b = 'd', cube = 1 }]

[[dif]]
name = 'd3'
rank = 3
static = true
pdu = 72
widths = { addr = 1, cep = 1, len = 2, seq = 2 }
queue = 64
policy = 'strict'
wait = 500
manage = { mpl = 80, r = 30, a = 2, retry = 10, window = 8 }
cube = [
  { id = 1, kind = 'datagram', mpl = 80, window = 16, largest = 56 },
]
member = [{ node = 'a', addr = 1 }, { node = 'd', addr = 2 }]
link = [{ on = 'd2', a = 'a', b = 'd', cube = 1 }]

[[dif]]
name = 'd4'
rank = 4
static = true
pdu = 56
widths = { addr = 1, cep = 1, len = 2, seq = 2 }
queue = 64
policy = 'strict'
wait = 500
manage = { mpl = 100, r = 30, a = 2, retry = 10, window = 16 }
cube = [
  { id = 1, kind = 'reliable', mpl = 100, r = 30, a = 2, retry = 10, window = 4, largest = 40 },
]
member = [{ node = 'a', addr = 1 }, { node = 'd', addr = 2 }]
link = [{ on = 'd3', a = 'a', b = 'd', cube = 1 }]
flow = [
  { cube = 1, from = { node = 'a', app = 's', label = 'p' }, to = { node = 'd', app = 't', label = 'q' } },
]
";

/// No policies: the first head is taken.
#[derive(Drop)]
pub(crate) struct NoPolicies;

impl Picks for NoPolicies {
    ghost slots = { λ s. [] };

    ghost may_answer = { λ s name who heads place. place ≡ 0 };

    fn ask(&mut self, _name: &Name, _who: u32, _heads: &[Head]) -> u32 {
        0
    }
}

/// One step of the DIF of a rank, at a link of the IPC process at a node; or a tick.
#[derive(Clone, Copy)]
enum Step {
    Out(u16, Node, u16),
    In(u16, Node, u16),
    Tick,
}

/// From a down the ranks, over b, and up again at d.
const WAY: [Step; 14] = [
    Step::Out(4, 0, 0),
    Step::Out(3, 0, 0),
    Step::Out(2, 0, 0),
    Step::Out(1, 0, 0),
    Step::Tick,
    Step::Tick,
    Step::In(1, 1, 0),
    Step::Out(1, 1, 1),
    Step::Tick,
    Step::Tick,
    Step::In(1, 3, 0),
    Step::In(2, 3, 0),
    Step::In(3, 3, 0),
    Step::In(4, 3, 0),
];

fn tower(alloc: Global) -> Result<Tower, Fail>
    ensures { IfOk result (λ t. IsTower t) }
{
    let plan = match read_stack(alloc, STACK.as_bytes(), &BuiltIn) {
        Ok(plan) => plan,
        Err(_) => return Err("no plan".into()),
    };
    match Tower::build(alloc, &plan) {
        Ok(tower) => Ok(tower),
        Err(_) => Err("no tower".into()),
    }
}

/// Takes a step, and tells whether a PDU went on.
fn goes_on(alloc: Global, tower: &mut Tower, step: Step) -> bool
    requires { IsTower tower.old }
    ensures { IsTower tower.new }
{
    match step {
        Step::Out(rank, node, link) => {
            let mut shelf = NoPolicies;
            let answer = tower.out_step(alloc, rank, 0, &mut shelf, node, link);
            matches!(answer, Ok(OutStep::Sent { .. }))
        }
        Step::In(rank, node, link) => {
            let answer = tower.in_step(alloc, rank, 0, node, link);
            matches!(
                answer,
                Ok(InStep::Took {
                    end: Took::Accepted | Took::Relayed,
                    ..
                })
            )
        }
        Step::Tick => tower.tick(alloc).is_ok(),
    }
}

#[test]
fn a_tower_has_a_rank_for_each_of_its_stack(rt: HostRuntime) -> Result<(), Fail> {
    let tower = tower(rt.alloc())?;
    assert_eq!(rt; tower.height(), 4);
    Ok(())
}

#[test]
fn an_sdu_goes_down_four_ranks_and_up_again(rt: HostRuntime) -> Result<(), Fail> {
    let alloc = rt.alloc();
    let mut tower = tower(alloc)?;
    let from = Port {
        fac: 0,
        node: 0,
        n: 1,
    };
    let to = Port {
        fac: 0,
        node: 3,
        n: 1,
    };
    assert!(rt; tower.app_send(alloc, 4, from, b"one").is_ok());
    for step in WAY {
        let went = goes_on(alloc, &mut tower, step);
        assert!(rt; went);
    }
    let Some(lent) = tower.peek(to) else {
        return Err("nothing came".into());
    };
    assert_eq!(rt; lent.at, 4);
    assert_eq!(rt; lent.bytes, b"one".as_slice());
    Ok(())
}

#[test]
fn rounds_carry_an_sdu_down_four_ranks_and_up_again(rt: HostRuntime) -> Result<(), Fail> {
    let alloc = rt.alloc();
    let mut tower = tower(alloc)?;
    let mut shelf = NoPolicies;
    let from = Port {
        fac: 0,
        node: 0,
        n: 1,
    };
    let to = Port {
        fac: 0,
        node: 3,
        n: 1,
    };
    assert!(rt; tower.app_send(alloc, 4, from, b"one").is_ok());
    // Two wires of 2 ticks each.
    for _ in 0..4 {
        assert_eq!(rt; tower.round(alloc, &mut shelf), Ok(()));
        assert!(rt; tower.peek(to).is_none());
        assert_eq!(rt; tower.tick(alloc), Ok(()));
    }
    assert_eq!(rt; tower.round(alloc, &mut shelf), Ok(()));
    let Some(lent) = tower.peek(to) else {
        return Err("nothing came".into());
    };
    assert_eq!(rt; lent.at, 4);
    assert_eq!(rt; lent.bytes, b"one".as_slice());
    Ok(())
}
