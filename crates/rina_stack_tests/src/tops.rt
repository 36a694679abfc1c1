//! Whole stacks: the table at the top, and DIFs that are static or not.
use crate::cases::{is_told, rows_are_so};

/// What is told, and a stack.
static TOPS: &str = "no TOML: nodes = [
3 0: 
plan 0 0: nodes = []
plan 0 0: nodes = [] | rounds = 'auto' | dif = [] | wire = []
plan 0 0: nodes = [] | rounds = 'manual'
3 0: nodes = [] | rounds = 'never'
3 0: nodes = [] | rounds = 1
2 0: nodes = [] | node = 1
3 0: nodes = [] | dif = [1]
3 1: nodes = [] | [[dif]] | name = 'd'
3 0: nodes = [] | dif = 1
3 0: nodes = [] | wire = 1
3 0: nodes = [] | wire = [{}, 1]
3 1: nodes = [] | wire = [{}]
2 2: nodes = [] | wire = [1, { x = 1 }]
2 1: rounds = 'auto' | wire = [{ x = 1 }]
3 0: nodes = 'a'
3 0: nodes = ['a', 1]
4 0: nodes = ['a', '']
4 0: nodes = ['a', 'A']
5 0: nodes = ['a', 'b', 'a']
4 0: nodes = ['a', 'A', 'a']
plan 128 16: nodes = [ | * 64 'n#', | ] | wire = [ | * 128 { name = 'w#', ends = ['n0', 'n1'], delay = 2, life = 10, largest = 1500 }, | ] | dif = [ | * 16 { name = 'd#', rank = 1, pdu = 96, widths = { addr = 1, cep = 1, len = 2, seq = 2 }, queue = 64, policy = 'strict', wait = 500, manage = { mpl = 40, r = 30, a = 2, retry = 10, window = 8 }, cube = [{ id = 1, kind = 'datagram', mpl = 40, window = 16, largest = 80 }], member = [{ node = 'n0', addr = 1 }] }, | ]
19 0: nodes = [ | * 65 'n#', | ] | wire = [ | * 128 { name = 'w#', ends = ['n0', 'n1'], delay = 2, life = 10, largest = 1500 }, | ] | dif = [ | * 16 { name = 'd#', rank = 1, pdu = 96, widths = { addr = 1, cep = 1, len = 2, seq = 2 }, queue = 64, policy = 'strict', wait = 500, manage = { mpl = 40, r = 30, a = 2, retry = 10, window = 8 }, cube = [{ id = 1, kind = 'datagram', mpl = 40, window = 16, largest = 80 }], member = [{ node = 'n0', addr = 1 }] }, | ]
19 0: nodes = [ | * 2 'n#', | ] | wire = [ | * 129 { name = 'w#', ends = ['n0', 'n1'], delay = 2, life = 10, largest = 1500 }, | ] | dif = [ | * 16 { name = 'd#', rank = 1, pdu = 96, widths = { addr = 1, cep = 1, len = 2, seq = 2 }, queue = 64, policy = 'strict', wait = 500, manage = { mpl = 40, r = 30, a = 2, retry = 10, window = 8 }, cube = [{ id = 1, kind = 'datagram', mpl = 40, window = 16, largest = 80 }], member = [{ node = 'n0', addr = 1 }] }, | ]
19 0: nodes = [ | * 2 'n#', | ] | wire = [ | * 0 { name = 'w#', ends = ['n0', 'n1'], delay = 2, life = 10, largest = 1500 }, | ] | dif = [ | * 17 { name = 'd#', rank = 1, pdu = 96, widths = { addr = 1, cep = 1, len = 2, seq = 2 }, queue = 64, policy = 'strict', wait = 500, manage = { mpl = 40, r = 30, a = 2, retry = 10, window = 8 }, cube = [{ id = 1, kind = 'datagram', mpl = 40, window = 16, largest = 80 }], member = [{ node = 'n0', addr = 1 }] }, | ]";

#[test]
fn the_top_is_read(rt: HostRuntime) {
    rows_are_so(&rt, rt.alloc(), TOPS);
    assert!(rt; is_told(rt.alloc(), b"nodes = ['\xff']", "no TOML"));
}

/// What is told, and a stack whose DIFs are static or not.
static DIFS: &str = "plan 0 0: nodes = []
plan 0 0: nodes = [] | rounds = 'manual'
3 0: nodes = [] | dif = 1
3 0: nodes = [] | dif = [1]
no TOML: nodes = [
plan 1 0: nodes = ['n0', 'n1'] | wire = [{ name = 'w', ends = ['n0', 'n1'], delay = 2, life = 10, largest = 1500 }]
plan 1 0: nodes = ['n0', 'n1'] | wire = [{ name = 'w', ends = ['n0', 'n1'], delay = 2, life = 10, largest = 1500, storm = { seed = 1, lose = 1, repeat = 1, spread = 1 } }]
plan 1 1: nodes = ['n0', 'n1'] | wire = [{ name = 'w', ends = ['n0', 'n1'], delay = 2, life = 10, largest = 1500 }] | dif = [{ name = 'd', rank = 1, static = true, pdu = 96, widths = { addr = 1, cep = 1, len = 2, seq = 2 }, queue = 64, policy = 'strict', wait = 500, manage = { mpl = 40, r = 30, a = 2, retry = 10, window = 8 }, cube = [{ id = 1, kind = 'datagram', mpl = 40, window = 16, largest = 80 }], member = [{ node = 'n0', addr = 1 }] }]
plan 1 1: nodes = ['n0', 'n1'] | wire = [{ name = 'w', ends = ['n0', 'n1'], delay = 2, life = 10, largest = 1500, storm = { seed = 1, lose = 1, repeat = 1, spread = 1 } }] | dif = [{ name = 'd', rank = 1, static = true, pdu = 96, widths = { addr = 1, cep = 1, len = 2, seq = 2 }, queue = 64, policy = 'strict', wait = 500, manage = { mpl = 40, r = 30, a = 2, retry = 10, window = 8 }, cube = [{ id = 1, kind = 'datagram', mpl = 40, window = 16, largest = 80 }], member = [{ node = 'n0', addr = 1 }] }]
plan 1 1: nodes = ['n0', 'n1'] | wire = [{ name = 'w', ends = ['n0', 'n1'], delay = 2, life = 10, largest = 1500, storm = { seed = 1, lose = 1, repeat = 1, spread = 1 } }] | dif = [{ name = 'd', rank = 1, static = true, pdu = 96, widths = { addr = 1, cep = 1, len = 2, seq = 2 }, queue = 64, policy = 'strict', wait = 500, rule = [], manage = { mpl = 40, r = 30, a = 2, retry = 10, window = 8 }, cube = [{ id = 1, kind = 'datagram', mpl = 40, window = 16, largest = 80 }], member = [{ node = 'n0', addr = 1 }] }]
plan 1 1: nodes = ['n0', 'n1'] | wire = [{ name = 'w', ends = ['n0', 'n1'], delay = 2, life = 10, largest = 1500 }] | dif = [{ name = 'd', rank = 1, static = true, pdu = 96, widths = { addr = 1, cep = 1, len = 2, seq = 2 }, queue = 64, policy = 'strict', wait = 500, rule = [], manage = { mpl = 40, r = 30, a = 2, retry = 10, window = 8 }, cube = [{ id = 1, kind = 'datagram', mpl = 40, window = 16, largest = 80 }], member = [{ node = 'n0', addr = 1 }] }]
plan 1 1: nodes = ['n0', 'n1'] | wire = [{ name = 'w', ends = ['n0', 'n1'], delay = 2, life = 10, largest = 1500 }] | dif = [{ name = 'd', rank = 1, static = true, pdu = 96, widths = { addr = 1, cep = 1, len = 2, seq = 2 }, queue = 64, policy = 'strict', wait = 500, default = true, manage = { mpl = 40, r = 30, a = 2, retry = 10, window = 8 }, cube = [{ id = 1, kind = 'datagram', mpl = 40, window = 16, largest = 80 }], member = [{ node = 'n0', addr = 1 }] }]
plan 1 2: nodes = ['n0', 'n1'] | wire = [{ name = 'w', ends = ['n0', 'n1'], delay = 2, life = 10, largest = 1500 }] | dif = [{ name = 'd', rank = 1, static = true, pdu = 96, widths = { addr = 1, cep = 1, len = 2, seq = 2 }, queue = 64, policy = 'strict', wait = 500, manage = { mpl = 40, r = 30, a = 2, retry = 10, window = 8 }, cube = [{ id = 1, kind = 'datagram', mpl = 40, window = 16, largest = 80 }], member = [{ node = 'n0', addr = 1 }] }, { name = 'e', rank = 1, static = true, pdu = 96, widths = { addr = 1, cep = 1, len = 2, seq = 2 }, queue = 64, policy = 'strict', wait = 500, default = true, manage = { mpl = 40, r = 30, a = 2, retry = 10, window = 8 }, cube = [{ id = 1, kind = 'datagram', mpl = 40, window = 16, largest = 80 }], member = [{ node = 'n0', addr = 1 }] }]
2 2: nodes = ['n0', 'n1'] | wire = [{ name = 'w', ends = ['n0', 'n1'], delay = 2, life = 10, largest = 1500 }] | dif = [{ name = 'd', rank = 1, static = true, pdu = 96, widths = { addr = 1, cep = 1, len = 2, seq = 2 }, queue = 64, policy = 'strict', x = 1, wait = 500, manage = { mpl = 40, r = 30, a = 2, retry = 10, window = 8 }, cube = [{ id = 1, kind = 'datagram', mpl = 40, window = 16, largest = 80 }], member = [{ node = 'n0', addr = 1 }] }, { name = 'e', rank = 1, static = true, pdu = 96, widths = { addr = 1, cep = 1, len = 2, seq = 2 }, queue = 64, policy = 'strict', wait = 500, default = true, manage = { mpl = 40, r = 30, a = 2, retry = 10, window = 8 }, cube = [{ id = 1, kind = 'datagram', mpl = 40, window = 16, largest = 80 }], member = [{ node = 'n0', addr = 1 }] }]
2 0: nodes = ['n0', 'n1'] | wire = [{ name = 'w', ends = ['n0', 'n1'], delay = 2, life = 10, largest = 1500 }] | x = 1 | dif = [{ name = 'd', rank = 1, static = true, pdu = 96, widths = { addr = 1, cep = 1, len = 2, seq = 2 }, queue = 64, policy = 'strict', wait = 500, default = true, manage = { mpl = 40, r = 30, a = 2, retry = 10, window = 8 }, cube = [{ id = 1, kind = 'datagram', mpl = 40, window = 16, largest = 80 }], member = [{ node = 'n0', addr = 1 }] }]
plan 1 1: nodes = ['n0', 'n1'] | wire = [{ name = 'w', ends = ['n0', 'n1'], delay = 2, life = 10, largest = 1500 }] | dif = [{ name = 'd', rank = 1, pdu = 96, widths = { addr = 1, cep = 1, len = 2, seq = 2 }, queue = 64, policy = 'strict', wait = 500, manage = { mpl = 40, r = 30, a = 2, retry = 10, window = 8 }, cube = [{ id = 1, kind = 'datagram', mpl = 40, window = 16, largest = 80 }], member = [{ node = 'n0', addr = 1 }] }]
plan 1 1: nodes = ['n0', 'n1'] | wire = [{ name = 'w', ends = ['n0', 'n1'], delay = 2, life = 10, largest = 1500 }] | dif = [{ name = 'd', rank = 1, static = false, pdu = 96, widths = { addr = 1, cep = 1, len = 2, seq = 2 }, queue = 64, policy = 'strict', wait = 500, manage = { mpl = 40, r = 30, a = 2, retry = 10, window = 8 }, cube = [{ id = 1, kind = 'datagram', mpl = 40, window = 16, largest = 80 }], member = [{ node = 'n0', addr = 1 }] }]
3 2: nodes = ['n0', 'n1'] | wire = [{ name = 'w', ends = ['n0', 'n1'], delay = 2, life = 10, largest = 1500 }] | dif = [{ name = 'd', rank = 1, static = 1, pdu = 96, widths = { addr = 1, cep = 1, len = 2, seq = 2 }, queue = 64, policy = 'strict', wait = 500, manage = { mpl = 40, r = 30, a = 2, retry = 10, window = 8 }, cube = [{ id = 1, kind = 'datagram', mpl = 40, window = 16, largest = 80 }], member = [{ node = 'n0', addr = 1 }] }]
plan 1 2: nodes = ['n0', 'n1'] | wire = [{ name = 'w', ends = ['n0', 'n1'], delay = 2, life = 10, largest = 1500 }] | dif = [{ name = 'd', rank = 1, static = true, pdu = 96, widths = { addr = 1, cep = 1, len = 2, seq = 2 }, queue = 64, policy = 'strict', wait = 500, manage = { mpl = 40, r = 30, a = 2, retry = 10, window = 8 }, cube = [{ id = 1, kind = 'datagram', mpl = 40, window = 16, largest = 80 }], member = [{ node = 'n0', addr = 1 }] }, { name = 'e', rank = 1, pdu = 96, widths = { addr = 1, cep = 1, len = 2, seq = 2 }, queue = 64, policy = 'strict', wait = 500, manage = { mpl = 40, r = 30, a = 2, retry = 10, window = 8 }, cube = [{ id = 1, kind = 'datagram', mpl = 40, window = 16, largest = 80 }], member = [{ node = 'n0', addr = 1 }] }]
3 2: nodes = ['n0', 'n1'] | wire = [{ name = 'w', ends = ['n0', 'n1'], delay = 2, life = 10, largest = 1500 }] | dif = [{ name = 'd', rank = 1, static = true, pdu = 96, widths = { addr = 1, cep = 1, len = 2, seq = 2 }, queue = 64, policy = 'strict', manage = { mpl = 40, r = 30, a = 2, retry = 10, window = 8 }, cube = [{ id = 1, kind = 'datagram', mpl = 40, window = 16, largest = 80 }], member = [{ node = 'n0', addr = 1 }] }, { name = 'e', rank = 1, pdu = 96, widths = { addr = 1, cep = 1, len = 2, seq = 2 }, queue = 64, policy = 'strict', wait = 500, manage = { mpl = 40, r = 30, a = 2, retry = 10, window = 8 }, cube = [{ id = 1, kind = 'datagram', mpl = 40, window = 16, largest = 80 }], member = [{ node = 'n0', addr = 1 }] }]
3 0: nodes = ['n0', 'n1'] | wire = [{ name = 'w', ends = ['n0', 'n1'], delay = 2, life = 10, largest = 1500 }] | rounds = 1 | dif = [{ name = 'd', rank = 1, pdu = 96, widths = { addr = 1, cep = 1, len = 2, seq = 2 }, queue = 64, policy = 'strict', wait = 500, manage = { mpl = 40, r = 30, a = 2, retry = 10, window = 8 }, cube = [{ id = 1, kind = 'datagram', mpl = 40, window = 16, largest = 80 }], member = [{ node = 'n0', addr = 1 }] }]
plan 1 1: nodes = ['n0', 'n1'] | wire = [{ name = 'w', ends = ['n0', 'n1'], delay = 2, life = 10, largest = 1500 }] | dif = [{ name = 'd', rank = 1, pdu = 96, widths = { addr = 1, cep = 1, len = 2, seq = 2 }, queue = 64, policy = 'strict', wait = 500, rule = [], manage = { mpl = 40, r = 30, a = 2, retry = 10, window = 8 }, cube = [{ id = 1, kind = 'datagram', mpl = 40, window = 16, largest = 80 }], member = [{ node = 'n0', addr = 1 }] }]
6 2: nodes = ['n0', 'n1'] | wire = [{ name = 'w', ends = ['n0', 'n1'], delay = 2, life = 10, largest = 1500 }] | dif = [{ name = 'd', rank = 9, pdu = 96, widths = { addr = 1, cep = 1, len = 2, seq = 2 }, queue = 64, policy = 'strict', wait = 500, manage = { mpl = 40, r = 30, a = 2, retry = 10, window = 8 }, cube = [{ id = 1, kind = 'datagram', mpl = 40, window = 16, largest = 80 }], member = [{ node = 'n0', addr = 1 }] }]
7 2: nodes = ['n0', 'n1'] | wire = [{ name = 'w', ends = ['n0', 'n1'], delay = 2, life = 10, largest = 1500 }] | dif = [{ name = 'd', rank = 1, static = true, pdu = 96, widths = { addr = 1, cep = 1, len = 2, seq = 2 }, queue = 64, policy = 'odd', wait = 500, manage = { mpl = 40, r = 30, a = 2, retry = 10, window = 8 }, cube = [{ id = 1, kind = 'datagram', mpl = 40, window = 16, largest = 80 }], member = [{ node = 'n0', addr = 1 }] }]
9 2: nodes = ['n0', 'n1'] | wire = [{ name = 'w', ends = ['n0', 'n1'], delay = 2, life = 10, largest = 1500 }] | dif = [{ name = 'd', rank = 2, static = true, pdu = 96, widths = { addr = 1, cep = 1, len = 2, seq = 2 }, queue = 64, policy = 'strict', wait = 500, manage = { mpl = 40, r = 30, a = 2, retry = 10, window = 8 }, cube = [{ id = 1, kind = 'datagram', mpl = 40, window = 16, largest = 80 }], member = [{ node = 'n0', addr = 1 }] }]";

#[test]
fn static_and_other_difs_are_read(rt: HostRuntime) {
    rows_are_so(&rt, rt.alloc(), DIFS);
}
