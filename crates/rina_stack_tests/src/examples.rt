//! The stacks of the examples.
use crate::cases::is_told;
use std::alloc::Global;
use std::process::Abort;

/// What is told of each; then the stack, up to a line `%%`.
static STACKS: &str = "plan 1 0
# Two systems and a wire between them.
nodes = ['a', 'b']

[[wire]]
name = 'w'
ends = ['a', 'b']
delay = 2
life = 10
largest = 1500
%%
plan 1 1
# One static DIF over the wire, with a flow of each kind of cube.
nodes = ['a', 'b']

[[wire]]
name = 'w'
ends = ['a', 'b']
delay = 2
life = 10
largest = 1500

[[dif]]
name = 'd'
rank = 1
static = true
pdu = 96
widths = { addr = 1, cep = 1, len = 2, seq = 2 }
queue = 64
policy = 'strict'
wait = 500
manage = { mpl = 40, r = 30, a = 2, retry = 10, window = 8 }
cube = [
  { id = 1, kind = 'datagram', mpl = 40, window = 16, largest = 80 },
  { id = 2, kind = 'loose', mpl = 40, window = 16, largest = 240 },
  { id = 3, kind = 'reliable', mpl = 40, r = 30, a = 2, retry = 10, window = 4, largest = 240 },
]
member = [{ node = 'a', addr = 1 }, { node = 'b', addr = 2 }]
link = [{ on = 'w', a = 'a', b = 'b' }]
flow = [
  { cube = 1, from = { node = 'a', app = 's1', label = 'p1' }, to = { node = 'b', app = 't1', label = 'q1' } },
  { cube = 2, from = { node = 'a', app = 's2', label = 'p2' }, to = { node = 'b', app = 't2', label = 'q2' } },
  { cube = 3, from = { node = 'a', app = 's3', label = 'p3' }, to = { node = 'b', app = 't3', label = 'q3' } },
]
%%
plan 1 1
# A static DIF whose PDUs take whole messages of management; who may allocate is ruled.
nodes = ['a', 'b']

[[wire]]
name = 'w'
ends = ['a', 'b']
delay = 2
life = 10
largest = 1500

[[dif]]
name = 'd'
rank = 1
static = true
pdu = 400
widths = { addr = 1, cep = 1, len = 2, seq = 2 }
queue = 64
policy = 'strict'
wait = 500
manage = { mpl = 40, r = 30, a = 2, retry = 10, window = 8 }
cube = [
  { id = 1, kind = 'datagram', mpl = 40, window = 16, largest = 80 },
  { id = 2, kind = 'loose', mpl = 40, window = 16, largest = 240 },
  { id = 3, kind = 'reliable', mpl = 40, r = 30, a = 2, retry = 10, window = 4, largest = 240 },
]
member = [{ node = 'a', addr = 1 }, { node = 'b', addr = 2 }]
rule = [{ subject = 'ping', act = 'allocate', allow = true }, { subject = 'evil', act = 'allocate', allow = false }]
link = [{ on = 'w', a = 'a', b = 'b' }]
%%
plan 1 1
# A DIF whose second member is to enrol.
nodes = ['a', 'b']

[[wire]]
name = 'w'
ends = ['a', 'b']
delay = 2
life = 10
largest = 1500

[[dif]]
name = 'd'
rank = 1
pdu = 400
widths = { addr = 1, cep = 1, len = 2, seq = 2 }
queue = 64
policy = 'strict'
wait = 500
manage = { mpl = 40, r = 30, a = 2, retry = 10, window = 8 }
cube = [
  { id = 1, kind = 'datagram', mpl = 40, window = 16, largest = 80 },
]
member = [{ node = 'a', addr = 1 }, { node = 'b', addr = 2 }]
%%
plan 3 1
# A row of four systems; the flow is relayed twice.
nodes = ['a', 'b', 'c', 'd']

[[wire]]
name = 'w1'
ends = ['a', 'b']
delay = 2
life = 10
largest = 1500

[[wire]]
name = 'w2'
ends = ['b', 'c']
delay = 2
life = 10
largest = 1500

[[wire]]
name = 'w3'
ends = ['c', 'd']
delay = 2
life = 10
largest = 1500

[[dif]]
name = 'd'
rank = 1
static = true
pdu = 96
widths = { addr = 1, cep = 1, len = 2, seq = 2 }
queue = 64
policy = 'strict'
wait = 500
manage = { mpl = 40, r = 30, a = 2, retry = 10, window = 8 }
cube = [
  { id = 1, kind = 'datagram', mpl = 25, window = 16, largest = 80 },
]
member = [
  { node = 'a', addr = 1 },
  { node = 'b', addr = 2 },
  { node = 'c', addr = 3 },
  { node = 'd', addr = 4 },
]
link = [
  { on = 'w1', a = 'a', b = 'b' },
  { on = 'w2', a = 'b', b = 'c' },
  { on = 'w3', a = 'c', b = 'd' },
]
flow = [
  { cube = 1, from = { node = 'a', app = 's', label = 'p' }, to = { node = 'd', app = 't', label = 'q' } },
]
%%
plan 4 4
# Four DIFs on top of one another, over two ways from a to d.
nodes = ['a', 'b', 'c', 'd']

[[wire]]
name = 'ab'
ends = ['a', 'b']
delay = 2
life = 10
largest = 1500

[[wire]]
name = 'bd'
ends = ['b', 'd']
delay = 2
life = 10
largest = 1500

[[wire]]
name = 'ac'
ends = ['a', 'c']
delay = 2
life = 10
largest = 1500

[[wire]]
name = 'cd'
ends = ['c', 'd']
delay = 2
life = 10
largest = 1500

[[dif]]
name = 'd1'
rank = 1
static = true
pdu = 104
widths = { addr = 1, cep = 1, len = 2, seq = 2 }
queue = 64
policy = 'strict'
wait = 500
manage = { mpl = 40, r = 30, a = 2, retry = 10, window = 8 }
cube = [
  { id = 1, kind = 'datagram', mpl = 40, window = 16, largest = 88 },
]
member = [
  { node = 'a', addr = 1 },
  { node = 'b', addr = 2 },
  { node = 'c', addr = 3 },
  { node = 'd', addr = 4 },
]
link = [
  { on = 'ab', a = 'a', b = 'b' },
  { on = 'bd', a = 'b', b = 'd' },
  { on = 'ac', a = 'a', b = 'c' },
  { on = 'cd', a = 'c', b = 'd' },
]

[[dif]]
name = 'd2'
rank = 2
static = true
pdu = 88
widths = { addr = 1, cep = 1, len = 2, seq = 2 }
queue = 64
policy = 'strict'
wait = 500
manage = { mpl = 60, r = 30, a = 2, retry = 10, window = 8 }
cube = [
  { id = 1, kind = 'datagram', mpl = 60, window = 16, largest = 72 },
]
member = [{ node = 'a', addr = 1 }, { node = 'd', addr = 2 }]
link = [{ on = 'd1', a = 'a', b = 'd', cube = 1 }]

[[dif]]
name = 'd3'
rank = 3
static = true
pdu = 72
widths = { addr = 1, cep = 1, len = 2, seq = 2 }
queue = 64
policy = 'strict'
wait = 500
manage = { mpl = 80, r = 30, a = 2, retry = 10, window = 8 }
cube = [
  { id = 1, kind = 'datagram', mpl = 80, window = 16, largest = 56 },
]
member = [{ node = 'a', addr = 1 }, { node = 'd', addr = 2 }]
link = [{ on = 'd2', a = 'a', b = 'd', cube = 1 }]

[[dif]]
name = 'd4'
rank = 4
static = true
pdu = 56
widths = { addr = 1, cep = 1, len = 2, seq = 2 }
queue = 64
policy = 'strict'
wait = 500
manage = { mpl = 100, r = 30, a = 2, retry = 10, window = 16 }
cube = [
  { id = 1, kind = 'reliable', mpl = 100, r = 30, a = 2, retry = 10, window = 4, largest = 40 },
]
member = [{ node = 'a', addr = 1 }, { node = 'd', addr = 2 }]
link = [{ on = 'd3', a = 'a', b = 'd', cube = 1 }]
flow = [
  { cube = 1, from = { node = 'a', app = 's', label = 'p' }, to = { node = 'd', app = 't', label = 'q' } },
]
%%
plan 1 1
# One static DIF over the wire, with one datagram flow.
nodes = ['a', 'b']

[[wire]]
name = 'w'
ends = ['a', 'b']
delay = 2
life = 10
largest = 1500

[[dif]]
name = 'd'
rank = 1
static = true
pdu = 96
widths = { addr = 1, cep = 1, len = 2, seq = 2 }
queue = 64
policy = 'strict'
wait = 500
manage = { mpl = 40, r = 30, a = 2, retry = 10, window = 8 }
cube = [
  { id = 1, kind = 'datagram', mpl = 40, window = 16, largest = 80 },
]
member = [{ node = 'a', addr = 1 }, { node = 'b', addr = 2 }]
link = [{ on = 'w', a = 'a', b = 'b' }]
flow = [
  { cube = 1, from = { node = 'a', app = 's1', label = 'p1' }, to = { node = 'b', app = 't1', label = 'q1' } },
]
%%
plan 1 1
# One static DIF over the wire, with a datagram flow and a loose one.
nodes = ['a', 'b']

[[wire]]
name = 'w'
ends = ['a', 'b']
delay = 2
life = 10
largest = 1500

[[dif]]
name = 'd'
rank = 1
static = true
pdu = 96
widths = { addr = 1, cep = 1, len = 2, seq = 2 }
queue = 64
policy = 'strict'
wait = 500
manage = { mpl = 40, r = 30, a = 2, retry = 10, window = 8 }
cube = [
  { id = 1, kind = 'datagram', mpl = 40, window = 16, largest = 80 },
  { id = 2, kind = 'loose', mpl = 40, window = 16, largest = 240 },
]
member = [{ node = 'a', addr = 1 }, { node = 'b', addr = 2 }]
link = [{ on = 'w', a = 'a', b = 'b' }]
flow = [
  { cube = 1, from = { node = 'a', app = 's1', label = 'p1' }, to = { node = 'b', app = 't1', label = 'q1' } },
  { cube = 2, from = { node = 'a', app = 's2', label = 'p2' }, to = { node = 'b', app = 't2', label = 'q2' } },
]
%%
plan 1 3
# Three DIFs on top of one another, over one wire.
nodes = ['a', 'b']

[[wire]]
name = 'w'
ends = ['a', 'b']
delay = 2
life = 10
largest = 1500

[[dif]]
name = 'd1'
rank = 1
static = true
pdu = 96
widths = { addr = 1, cep = 1, len = 2, seq = 2 }
queue = 64
policy = 'strict'
wait = 500
manage = { mpl = 40, r = 30, a = 2, retry = 10, window = 8 }
cube = [
  { id = 1, kind = 'datagram', mpl = 40, window = 16, largest = 80 },
]
member = [{ node = 'a', addr = 1 }, { node = 'b', addr = 2 }]
link = [{ on = 'w', a = 'a', b = 'b' }]

[[dif]]
name = 'd2'
rank = 2
static = true
pdu = 80
widths = { addr = 1, cep = 1, len = 2, seq = 2 }
queue = 64
policy = 'strict'
wait = 500
manage = { mpl = 60, r = 30, a = 2, retry = 10, window = 8 }
cube = [
  { id = 1, kind = 'datagram', mpl = 60, window = 16, largest = 64 },
]
member = [{ node = 'a', addr = 1 }, { node = 'b', addr = 2 }]
link = [{ on = 'd1', a = 'a', b = 'b', cube = 1 }]

[[dif]]
name = 'd3'
rank = 3
static = true
pdu = 64
widths = { addr = 1, cep = 1, len = 2, seq = 2 }
queue = 64
policy = 'strict'
wait = 500
manage = { mpl = 80, r = 30, a = 2, retry = 10, window = 8 }
cube = [
  { id = 1, kind = 'datagram', mpl = 80, window = 16, largest = 48 },
]
member = [{ node = 'a', addr = 1 }, { node = 'b', addr = 2 }]
link = [{ on = 'd2', a = 'a', b = 'b', cube = 1 }]
flow = [
  { cube = 1, from = { node = 'a', app = 's', label = 'p' }, to = { node = 'b', app = 't', label = 'q' } },
]";

/// Whether the first line of a section tells what is told of the stack behind it.
fn is_so(alloc: Global, section: &str) -> bool {
    match section.split_once("\n") {
        Some((text, stack)) => is_told(alloc, stack.as_bytes(), text),
        None => false,
    }
}

/// Asserts that each section is so.
fn sections_are_so(rt: &impl Abort, alloc: Global) {
    for section in STACKS.split("\n%%\n") {
        assert!(rt; is_so(alloc, section), "{section}");
    }
}

#[test]
fn the_examples_are_read(rt: HostRuntime) {
    sections_are_so(&rt, rt.alloc());
}
