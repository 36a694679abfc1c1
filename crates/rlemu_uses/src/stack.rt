//! The stack of this use.

/// Two systems on a wire, and a DIF over it. The stack fixes one reliable flow, from `ping` at a to `echo` at b.
pub const STACK: &str = "
nodes = ['a', 'b']
[[wire]]
name = 'w'
ends = ['a', 'b']
delay = 2
life = 10
largest = 1500
[[dif]]
name = 'd'
rank = 1
static = true
pdu = 96
widths = { addr = 1, cep = 1, len = 2, seq = 2 }
queue = 64
policy = 'strict'
wait = 500
manage = { mpl = 40, r = 30, a = 2, retry = 10, window = 8 }
cube = [{ id = 1, kind = 'reliable', mpl = 40, r = 30, a = 2, retry = 10, window = 4, largest = 240 }]
member = [{ node = 'a', addr = 1 }, { node = 'b', addr = 2 }]
link = [{ on = 'w', a = 'a', b = 'b' }]
flow = [{ cube = 1, from = { node = 'a', app = 'ping', label = 'p' }, to = { node = 'b', app = 'echo', label = 'q' } }]
";
