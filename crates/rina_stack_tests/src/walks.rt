//! Which nodes of a DIF a walk of its links joins.
use rina_plan::{DifPlan, are_joined};
use rina_stack::{BuiltIn, Plan, read_stack};
use std::alloc::Global;

/// A DIF whose links join the nodes 0, 1 and 2, and the nodes 3 and 4.
static HALVES: &str = "nodes = ['n0', 'n1', 'n2', 'n3', 'n4']
wire = [
  { name = 'v', ends = ['n0', 'n1'], delay = 2, life = 10, largest = 96 },
  { name = 'w', ends = ['n1', 'n2'], delay = 2, life = 10, largest = 96 },
  { name = 'x', ends = ['n3', 'n4'], delay = 2, life = 10, largest = 96 },
]
[[dif]]
name = 'd'
rank = 1
static = true
pdu = 96
widths = { addr = 1, cep = 1, len = 2, seq = 2 }
queue = 64
policy = 'strict'
wait = 500
manage = { mpl = 40, r = 30, a = 2, retry = 10, window = 8 }
cube = [{ id = 1, kind = 'datagram', mpl = 40, window = 16, largest = 80 }]
member = [
  { node = 'n0', addr = 1 }, { node = 'n1', addr = 2 }, { node = 'n2', addr = 3 },
  { node = 'n3', addr = 4 }, { node = 'n4', addr = 5 },
]
link = [
  { on = 'v', a = 'n0', b = 'n1' }, { on = 'w', a = 'n2', b = 'n1' }, { on = 'x', a = 'n4', b = 'n3' },
]
";

/// Two nodes, and whether a walk joins them.
static WALKS: [(usize, usize, bool); 9] = [
    (0, 1, true),
    (0, 2, true),
    (2, 0, true),
    (3, 4, true),
    (2, 2, true),
    (9, 9, true),
    (2, 3, false),
    (4, 0, false),
    (1, 9, false),
];

/// Whether walks in a DIF join what the table says.
fn walks_join(alloc: Global, dif: &DifPlan) -> bool {
    for (one, other, joined) in &WALKS {
        if are_joined(alloc, dif, *one, *other) != Ok(*joined) {
            return false;
        }
    }
    true
}

/// Whether walks in the first DIF of a plan do.
fn first_is_so(alloc: Global, plan: &Plan) -> bool {
    match plan.difs.get(0) {
        Some(dif) => walks_join(alloc, dif),
        None => false,
    }
}

/// Whether walks in the halves do.
fn halves_are_so(alloc: Global) -> bool {
    match read_stack(alloc, HALVES.as_bytes(), &BuiltIn) {
        Ok(plan) => first_is_so(alloc, &plan),
        Err(_) => false,
    }
}

#[test]
fn walks_join_what_links_lead_to(rt: HostRuntime) {
    assert!(rt; halves_are_so(rt.alloc()));
}
