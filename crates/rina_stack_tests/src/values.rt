//! The rules on single values: keys, types, names, ranges and references (rules 2 to 7).
use crate::cases::rows_are_so;

/// What is told, and a change of the whole stack.
static ROWS: &str = "# Rule 2.
plan 2 2: 'w', ends => 'w', ends
2 0: nodes = [ => x = 1 | nodes = [
2 1: delay = 2, life = 10, largest = 1500 => delay = 2, x = 1, life = 10, largest = 1500
2 2: repeat = 3 => repeat = 3, x = 1
2 3: wait = 500 => wait = 500 | x = 1
plan 2 2: wait = 500 => wait = 500 | default = false
2 3: seq = 2 => seq = 2, x = 1
2 4: window = 16 } | cube => window = 16, x = 1 } | cube
2 4: id = 3, => id = 3, x = 1,
2 4: addr = 300 => addr = 300, x = 1
2 3: allow = true => allow = true, x = 1
2 4: weight = 9 => weight = 9, x = 1
2 3: flow = [{ cube = 1 => flow = [{ x = 1, cube = 1
2 3: label = 'p' => label = 'p', x = 1
2 3: label = 'q' => label = 'q', x = 1
# Rule 3.
3 0: nodes = ['a', 'b', 'c'] => nodes = 'abc'
3 0: nodes = ['a', 'b', 'c'] => rounds = 'auto'
3 0: nodes = [ => rounds = 'odd' | nodes = [
plan 2 2: nodes = [ => rounds = 'manual' | nodes = [
3 1: name = 'w', ends => ends
3 1: name = 'w' => name = 1
3 1: ends = ['a', 'b'] => ends = ['a']
3 1: ends = ['a', 'b'] => ends = ['a', 'b', 'c']
3 1: ends = ['a', 'b'] => ends = ['a', 1]
3 1: ends = ['a', 'b'] => ends = 'a'
3 1: delay = 2, life = 10, largest = 1500 => life = 10, largest = 1500
3 1: life = 10, largest = 1500 => largest = 1500
3 1: life = 10, largest = 1500 => life = 10
3 1: life = 10, largest = 1500 => life = 10.0, largest = 1500
3 2: seed = 1, lose => lose
3 2: lose = 2 => lose = '2'
3 2: storm = { seed = 1, lose = 2, repeat = 3, spread = 8 } => storm = 1
plan 2 2: largest = 96, storm = { seed = 1, lose = 2, repeat = 3, spread = 8 } => largest = 96
3 4: name = 'e' => # no name
3 4: rank = 2 => rank = '2'
3 4: static = true | pdu = 80 => static = 1 | pdu = 80
3 4: pdu = 80 => # no pdu
3 3: seq = 2 } | queue = 5 => seq = '2' } | queue = 5
3 4: len = 1, seq = 2 => seq = 2
3 4: widths = { addr = 2, cep = 2, len = 1, seq = 2 } => widths = 2
3 4: manage = { mpl = 40, r = 31, a = 3, retry = 31, window = 16 } => # no manage
3 3: retry = 10, window = 5 => window = 5
3 4: policy = 'weighted' => policy = 1
3 3: cube = [{ id = 1, kind = 'datagram', mpl = 40, window = 16, largest = 80 }] => cube = 1
3 3: cube = [{ id = 1, kind = 'datagram', mpl = 40, window = 16, largest = 80 }] => cube = [1]
3 4: kind = 'loose' => kind = 'tight'
3 4: kind = 'loose' => kind = 1
3 4: mpl = 40, window = 4 => window = 4
3 4: r = 32 => r = true
3 4: addr = 4 }] => addr = 4 }, 1]
3 4: member = [{ node = 'c', addr = 300 }, { node = 'a', addr = 4 }] => # no members
3 4: node = 'c', addr = 300 => addr = 300
3 3: subject = 'x/a', act => act
3 3: act = 'enrol' => act = 'leave'
3 3: allow = true => allow = 1
3 3: act = 'enrol', allow = true => act = 'enrol'
3 3: rule = [{ subject = 'x/a', act = 'enrol', allow = true }] => rule = 1
3 3: wait = 500 => wait = 500 | default = 1
3 4: on = 'd', a => a
3 4: weight = 9 => weight = '9'
plan 2 2: cube = 1, weight = 9 => cube = 1
3 3: flow = [{ cube = 1, => flow = [{
3 3: node = 'a', app => app
3 3: label = 'q' => label = 1
# A key that is missing.
3 1: ends = ['a', 'b'], delay => delay
3 2: lose = 2, repeat => repeat
3 2: repeat = 3, spread => spread
3 2: repeat = 3, spread = 8 => repeat = 3
3 4: rank = 2 | static => static
3 4: widths = { addr = 2, cep = 2, len = 1, seq = 2 } => # no widths
3 4: queue = 64 => # no queue
3 4: policy = 'weighted' => # no policy
3 4: wait = 501 => # no wait
3 3: cube = [{ id = 1, kind = 'datagram', mpl = 40, window = 16, largest = 80 }] => # no cubes
3 4: addr = 2, cep = 2, len => cep = 2, len
3 4: cep = 2, len => len
3 4: len = 1, seq = 2 => len = 1
3 4: mpl = 40, r = 31 => r = 31
3 4: r = 31, a => a
3 4: a = 3, retry => retry
3 4: retry = 31, window => window
3 4: retry = 31, window = 16 => retry = 31
3 4: id = 3, kind => kind
3 4: kind = 'reliable', mpl => mpl
3 4: mpl = 40, r = 32 => r = 32
11 4: r = 32, a => a
plan 2 2: a = 4, retry => retry
11 4: retry = 11, window => window
3 4: window = 7, largest => largest
3 4: window = 7, largest = 240 => window = 7
3 4: node = 'c', addr = 300 => node = 'c'
3 3: subject = 'x/a', act = 'enrol', allow => subject = 'x/a', allow
3 4: on = 'd', a = 'a', b => on = 'd', b
3 4: a = 'a', b = 'c', cube => a = 'a', cube
17 4: cube = 1, weight => weight
3 3: from = { node = 'a', app = 's', label = 'p' }, to => to
3 3: 'p' }, to = { node = 'b', app = 't', label = 'q' } => 'p' }
3 3: app = 's', label => label
3 3: app = 's', label = 'p' => app = 's'
3 3: node = 'b', app => app
3 3: app = 't', label => label
3 3: app = 't', label = 'q' => app = 't'
# A value of another type.
3 1: delay = 2, life = 10, largest = 1500 => delay = '2', life = 10, largest = 1500
3 1: largest = 1500 => largest = '1500'
3 2: seed = 1 => seed = true
3 2: repeat = 3 => repeat = '3'
3 2: spread = 8 => spread = 8.0
3 4: name = 'e' => name = 1
3 4: pdu = 80 => pdu = '80'
3 4: queue = 64 => queue = 64.0
3 4: wait = 501 => wait = '501'
3 4: manage = { mpl = 40, r = 31, a = 3, retry = 31, window = 16 } => manage = 1
3 4: addr = 2, cep => addr = '2', cep
3 4: cep = 2, len => cep = '2', len
3 4: len = 1, seq => len = '1', seq
3 4: mpl = 40, r = 31 => mpl = '40', r = 31
3 4: r = 31, a => r = '31', a
3 4: a = 3, retry => a = '3', retry
3 4: retry = 31 => retry = '31'
3 4: window = 16 } | cube => window = '16' } | cube
3 4: id = 3 => id = '3'
3 4: mpl = 40, r = 32 => mpl = '40', r = 32
3 4: a = 4, retry => a = '4', retry
3 4: retry = 11 => retry = '11'
3 4: window = 7 => window = '7'
3 4: largest = 240 => largest = '240'
3 4: member = [{ node = 'c', addr = 300 }, { node = 'a', addr = 4 }] => member = 1
3 4: member = [{ node = 'c', addr = 300 }, { node = 'a', addr = 4 }] => member = { node = 'c', addr = 300 }
3 4: node = 'c', addr = 300 => node = 1, addr = 300
3 4: addr = 300 => addr = '300'
3 3: rule = [{ subject = 'x/a', act = 'enrol', allow = true }] => rule = [1]
3 3: subject = 'x/a' => subject = 1
3 3: act = 'enrol' => act = 1
3 4: link = [{ on = 'd', a = 'a', b = 'c', cube = 1, weight = 9 }] => link = 1
3 4: link = [{ on = 'd', a = 'a', b = 'c', cube = 1, weight = 9 }] => link = [1]
3 4: on = 'd' => on = 1
3 4: a = 'a', b = 'c', cube => a = 1, b = 'c', cube
3 4: b = 'c', cube => b = 1, cube
3 4: cube = 1, weight => cube = '1', weight
3 4: weight = 9 }] => weight = 9 }] | flow = 1
3 4: weight = 9 }] => weight = 9 }] | flow = [1]
3 3: flow = [{ cube = 1 => flow = [{ cube = '1'
3 3: from = { node = 'a', app = 's', label = 'p' } => from = 1
3 3: to = { node = 'b', app = 't', label = 'q' } => to = 1
3 3: from = { node = 'a' => from = { node = 1
3 3: app = 's' => app = 1
3 3: label = 'p' => label = 1
3 3: to = { node = 'b' => to = { node = 1
3 3: app = 't' => app = 1
# Rule 4.
4 0: nodes = [ => nodes = ['x y',
4 0: nodes = [ => nodes = ['nnnnnnnnnnnnnnnnnnnnnnnnnnnnnnnnnnnnnnnnnnnnnnnnnnnnnnnnnnnnnnnnn',
plan 2 2: nodes = [ => nodes = ['nnnnnnnnnnnnnnnnnnnnnnnnnnnnnnnnnnnnnnnnnnnnnnnnnnnnnnnnnnnnnnnn',
plan 2 2: nodes = [ => nodes = ['az09.-_',
4 1: 'w', ends => 'W', ends
4 1: 'w', ends => '', ends
4 2: ends = ['b', 'c'] => ends = ['b', 'C']
4 1: ends = ['a', 'b'] => ends = ['A', 'b']
4 4: name = 'e' => name = 'E'
4 4: policy = 'weighted' => policy = ''
4 4: node = 'c', addr = 300 => node = 'C', addr = 300
4 3: subject = 'x/a' => subject = 'x/'
4 3: subject = 'x/a' => subject = '/a'
4 3: subject = 'x/a' => subject = '**'
plan 2 2: subject = 'x/a' => subject = '*'
plan 2 2: subject = 'x/a' => subject = 'a'
4 3: app = 's' => app = 'x/a'
4 3: label = 'q' => label = 'Q'
4 4: on = 'd' => on = '*'
4 4: a = 'a', b = 'c', cube => a = 'A', b = 'c', cube
4 4: b = 'c', cube => b = 'C', cube
4 3: from = { node = 'a' => from = { node = 'A'
4 3: to = { node = 'b' => to = { node = ''
4 3: app = 't' => app = 'T'
4 3: label = 'p' => label = ''
4 3: subject = 'x/a' => subject = ''
4 3: subject = 'x/a' => subject = 'X/a'
4 3: subject = 'x/a' => subject = 'x/A'
4 3: subject = 'x/a' => subject = 'x/a/b'
# Rule 5.
5 0: nodes = ['a', 'b', 'c'] => nodes = ['a', 'b', 'c', 'b']
5 2: name = 'v' => name = 'w'
5 4: name = 'e' => name = 'w'
5 4: name = 'e' => name = 'd'
plan 2 2: name = 'e' => name = 'a'
plan 2 2: name = 'w', ends => name = 'a', ends ;; on = 'w' => on = 'a'
5 3: label = 'q' => label = 'p'
plan 2 2: label = 'q' => label = 'w'
5 3: flow = [ => flow = [ | { cube = 1, from = { node = 'a', app = 's', label = 'p' }, to = { node = 'b', app = 't', label = 'y' } },
5 3: flow = [ => flow = [ | { cube = 1, from = { node = 'a', app = 's', label = 'x' }, to = { node = 'b', app = 't', label = 'q' } },
5 3: flow = [ => flow = [ | { cube = 1, from = { node = 'a', app = 's', label = 'q' }, to = { node = 'b', app = 't', label = 'y' } },
plan 2 2: flow = [ => flow = [ | { cube = 1, from = { node = 'a', app = 's', label = 'x' }, to = { node = 'b', app = 't', label = 'y' } },
5 4: weight = 9 }] => weight = 9 }] | flow = [{ cube = 2, from = { node = 'a', app = 's', label = 'x' }, to = { node = 'c', app = 't', label = 'q' } }]
5 4: weight = 9 }] => weight = 9 }] | flow = [{ cube = 2, from = { node = 'a', app = 's', label = 'p' }, to = { node = 'c', app = 't', label = 'y' } }]
plan 2 2: weight = 9 }] => weight = 9 }] | flow = [{ cube = 2, from = { node = 'a', app = 's', label = 'x' }, to = { node = 'c', app = 't', label = 'y' } }]
# Rule 6.
6 1: delay = 2, life = 10, largest = 1500 => delay = 0, life = 10, largest = 1500
plan 2 2: delay = 2, life = 10, largest = 1500 => delay = 1, life = 10, largest = 1500
8 1: delay = 2, life = 10, largest = 1500 => delay = 100000, life = 10, largest = 1500
6 1: delay = 2, life = 10, largest = 1500 => delay = 100001, life = 10, largest = 1500
6 1: life = 10, largest = 1500 => life = 0, largest = 1500
8 1: life = 10, largest = 1500 => life = 1, largest = 1500
plan 2 2: life = 10, largest = 1500 => life = 100000, largest = 1500
6 1: life = 10, largest = 1500 => life = 100001, largest = 1500
6 1: largest = 1500 }, |   { name = 'v' => largest = 0 }, |   { name = 'v'
17 3: largest = 1500 }, |   { name = 'v' => largest = 1 }, |   { name = 'v'
plan 2 2: largest = 1500 }, |   { name = 'v' => largest = 65535 }, |   { name = 'v'
6 1: largest = 1500 }, |   { name = 'v' => largest = 65536 }, |   { name = 'v'
6 2: seed = 1 => seed = -1
plan 2 2: seed = 1 => seed = 0
plan 2 2: seed = 1 => seed = 9007199254740991
6 2: seed = 1 => seed = 9007199254740992
6 2: lose = 2 => lose = -1
plan 2 2: lose = 2 => lose = 0
plan 2 2: lose = 2 => lose = 1000
6 2: lose = 2 => lose = 1001
6 2: repeat = 3 => repeat = -1
plan 2 2: repeat = 3 => repeat = 0
plan 2 2: repeat = 3 => repeat = 1000
6 2: repeat = 3 => repeat = 1001
6 2: spread = 8 => spread = -1
plan 2 2: spread = 8 => spread = 0
8 2: spread = 8 => spread = 100000
6 2: spread = 8 => spread = 100001
6 4: rank = 2 => rank = 0
9 4: rank = 2 => rank = 8
6 4: rank = 2 => rank = 9
6 4: pdu = 80 => pdu = 17
13 4: pdu = 80 => pdu = 18
13 4: pdu = 80 => pdu = 4096
6 4: pdu = 80 => pdu = 4097
6 4: widths = { addr = 2, cep = 2, len = 1, seq = 2 } => widths = { addr = 0, cep = 2, len = 1, seq = 2 }
6 4: widths = { addr = 2, cep = 2, len = 1, seq = 2 } => widths = { addr = 3, cep = 2, len = 1, seq = 2 }
14 4: widths = { addr = 2, cep = 2, len = 1, seq = 2 } => widths = { addr = 4, cep = 2, len = 1, seq = 2 }
6 4: widths = { addr = 2, cep = 2, len = 1, seq = 2 } => widths = { addr = 5, cep = 2, len = 1, seq = 2 }
6 4: widths = { addr = 2, cep = 2, len = 1, seq = 2 } => widths = { addr = 2, cep = 0, len = 1, seq = 2 }
6 4: widths = { addr = 2, cep = 2, len = 1, seq = 2 } => widths = { addr = 2, cep = 3, len = 1, seq = 2 }
14 4: widths = { addr = 2, cep = 2, len = 1, seq = 2 } => widths = { addr = 2, cep = 4, len = 1, seq = 2 }
6 4: widths = { addr = 2, cep = 2, len = 1, seq = 2 } => widths = { addr = 2, cep = 5, len = 1, seq = 2 }
6 4: widths = { addr = 2, cep = 2, len = 1, seq = 2 } => widths = { addr = 2, cep = 2, len = 0, seq = 2 }
6 4: widths = { addr = 2, cep = 2, len = 1, seq = 2 } => widths = { addr = 2, cep = 2, len = 3, seq = 2 }
14 4: widths = { addr = 2, cep = 2, len = 1, seq = 2 } => widths = { addr = 2, cep = 2, len = 4, seq = 2 }
6 4: widths = { addr = 2, cep = 2, len = 1, seq = 2 } => widths = { addr = 2, cep = 2, len = 5, seq = 2 }
6 4: queue = 64 => queue = 0
14 4: queue = 64 => queue = 1
plan 2 2: queue = 64 => queue = 256
6 4: queue = 64 => queue = 257
6 4: wait = 501 => wait = 0
plan 2 2: wait = 501 => wait = 1
plan 2 2: wait = 501 => wait = 1000000
6 4: wait = 501 => wait = 1000001
6 4: manage = { mpl = 40, r = 31 => manage = { mpl = 0, r = 31
plan 2 2: manage = { mpl = 40, r = 31 => manage = { mpl = 1, r = 31
plan 2 2: manage = { mpl = 40, r = 31 => manage = { mpl = 1000000, r = 31
6 4: manage = { mpl = 40, r = 31 => manage = { mpl = 1000001, r = 31
6 4: r = 31, a = 3 => r = -1, a = 3
11 4: r = 31, a = 3 => r = 0, a = 3
plan 2 2: r = 31, a = 3 => r = 1000000, a = 3
6 4: r = 31, a = 3 => r = 1000001, a = 3
6 4: a = 3 => a = -1
plan 2 2: a = 3 => a = 0
plan 2 2: a = 3 => a = 1000000
6 4: a = 3 => a = 1000001
6 4: retry = 31 => retry = -1
11 4: retry = 31 => retry = 0
11 4: retry = 31 => retry = 1000000
6 4: retry = 31 => retry = 1000001
6 4: window = 16 } | cube => window = 0 } | cube
14 4: window = 16 } | cube => window = 1 } | cube
plan 2 2: window = 16 } | cube => window = 256 } | cube
6 4: window = 16 } | cube => window = 257 } | cube
6 4: id = 3 => id = 0
plan 2 2: id = 3 => id = 1
plan 2 2: id = 3 => id = 255
6 4: id = 3 => id = 256
6 4: mpl = 40, window = 4 => mpl = 0, window = 4
plan 2 2: mpl = 40, window = 4 => mpl = 1, window = 4
plan 2 2: mpl = 40, window = 4 => mpl = 1000000, window = 4
6 4: mpl = 40, window = 4 => mpl = 1000001, window = 4
6 4: r = 32 => r = -1
11 4: r = 32 => r = 0
plan 2 2: r = 32 => r = 1000000
6 4: r = 32 => r = 1000001
6 4: a = 4 => a = -1
plan 2 2: a = 4 => a = 0
plan 2 2: a = 4 => a = 1000000
6 4: a = 4 => a = 1000001
6 4: retry = 11 => retry = -1
11 4: retry = 11 => retry = 0
11 4: retry = 11 => retry = 1000000
6 4: retry = 11 => retry = 1000001
6 4: window = 7, largest = 240 => window = 0, largest = 240
14 4: window = 7, largest = 240 => window = 1, largest = 240
plan 2 2: window = 7, largest = 240 => window = 256, largest = 240
6 4: window = 7, largest = 240 => window = 257, largest = 240
6 4: largest = 240 }] | member => largest = 0 }] | member
plan 2 2: largest = 240 }] | member => largest = 1 }] | member
14 4: largest = 240 }] | member => largest = 65535 }] | member
6 4: largest = 240 }] | member => largest = 65536 }] | member
6 4: addr = 300 => addr = -1
12 4: addr = 300 => addr = 0
12 4: addr = 300 => addr = 4294967295
6 4: addr = 300 => addr = 4294967296
6 4: weight = 9 => weight = 0
plan 2 2: weight = 9 => weight = 1
plan 2 2: weight = 9 => weight = 65535
6 4: weight = 9 => weight = 65536
6 4: cube = 1, weight => cube = -1, weight
17 4: cube = 1, weight => cube = 0, weight
17 4: cube = 1, weight => cube = 255, weight
6 4: cube = 1, weight => cube = 256, weight
6 3: flow = [{ cube = 1 => flow = [{ cube = -1
18 3: flow = [{ cube = 1 => flow = [{ cube = 0
18 3: flow = [{ cube = 1 => flow = [{ cube = 255
6 3: flow = [{ cube = 1 => flow = [{ cube = 256
# Rule 7.
7 1: ends = ['a', 'b'] => ends = ['a', 'x']
7 2: ends = ['b', 'c'] => ends = ['v', 'c']
7 1: ends = ['a', 'b'] => ends = ['x', 'b']
7 4: node = 'c', addr = 300 => node = 'x', addr = 300
7 4: on = 'd' => on = 'x'
7 4: on = 'd' => on = 'a'
7 4: a = 'a', b = 'c', cube => a = 'x', b = 'c', cube
7 4: b = 'c', cube => b = 'x', cube
7 3: from = { node = 'a' => from = { node = 'x'
7 3: to = { node = 'b' => to = { node = 'x'
7 4: policy = 'weighted' => policy = 'none'
7 3: policy = 'strict' => policy = 'stric'
plan 2 2: policy = 'weighted' => policy = 'strict'
plan 2 2: policy = 'weighted' => policy = 'last'
plan 2 2: policy = 'weighted' => policy = 'first'
plan 2 2: policy = 'weighted' => policy = 'round'";

#[test]
fn each_value_has_its_rules(rt: HostRuntime) {
    rows_are_so(&rt, rt.alloc(), ROWS);
}
