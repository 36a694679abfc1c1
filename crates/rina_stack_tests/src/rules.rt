//! The rules on a stack as a whole (rules 8 to 19), and stacks that break two.
use crate::cases::rows_are_so;

/// What is told, and a change of the whole stack.
static ROWS: &str = "# Rule 8.
8 1: ends = ['a', 'b'] => ends = ['a', 'a']
8 1: life = 10, largest = 1500 => life = 1, largest = 1500
plan 2 2: life = 10, largest = 1500 => life = 2, largest = 1500
8 2: spread = 8 => spread = 9
8 2: delay = 2, life = 10, largest = 96 => delay = 3, life = 10, largest = 96
plan 2 2: delay = 2, life = 10, largest = 96 => delay = 3, life = 11, largest = 96
# Rule 9.
9 4: rank = 2 => rank = 3
9 3: rank = 1 => rank = 2
plan 2 2: rank = 2 => rank = 1 ;; link = [{ on = 'd', a = 'a', b = 'c', cube = 1, weight = 9 }] => # no links
# Rule 10.
10 4: id = 3 => id = 2
10 3: cube = [{ id = 1, kind = 'datagram', mpl = 40, window = 16, largest = 80 }] => cube = []
plan 2 2: largest = 80 }] => largest = 80 }, { id = 2, kind = 'datagram', mpl = 40, window = 16, largest = 80 }]
10 3: largest = 80 }] => largest = 80 }, { id = 1, kind = 'loose', mpl = 40, window = 16, largest = 80 }]
# Rule 11.
11 4: kind = 'loose', => kind = 'loose', r = 1,
plan 2 2: kind = 'loose', => kind = 'loose', r = 0,
11 3: kind = 'datagram', => kind = 'datagram', r = 1,
11 4: kind = 'loose', => kind = 'loose', a = 1,
plan 2 2: kind = 'loose', => kind = 'loose', a = 0,
11 3: kind = 'datagram', => kind = 'datagram', a = 1,
11 4: kind = 'loose', => kind = 'loose', retry = 1,
plan 2 2: kind = 'loose', => kind = 'loose', retry = 0,
11 3: kind = 'datagram', => kind = 'datagram', retry = 1,
11 4: retry = 11 => retry = 33
plan 2 2: retry = 11 => retry = 32
11 4: r = 32, a = 4, retry = 11 => r = 0, a = 4, retry = 0
plan 2 2: r = 32, a = 4, retry = 11 => r = 1, a = 4, retry = 1
11 3: retry = 10 => retry = 0
11 3: r = 30, a = 2, retry = 10 => r = 0, a = 2, retry = 0
11 4: r = 31, a = 3, retry = 31 => r = 31, a = 3, retry = 32
# Rule 12.
12 3: addr = 255 => addr = 256
12 3: addr = 255 => addr = 0
12 3: addr = 255 => addr = 2
plan 2 2: addr = 255 => addr = 3
12 4: addr = 300 => addr = 65536
plan 2 2: addr = 300 => addr = 65535
12 4: addr = 300 => addr = 4
12 4: node = 'c', addr = 300 => node = 'a', addr = 300
plan 2 2: addr = 2, cep => addr = 4, cep ;; largest = 244 => largest = 228 ;; addr = 300 => addr = 4294967295
12 4: [{ node = 'c', addr = 300 }, { node = 'a', addr = 4 }] => []
# Rule 13.
13 4: pdu = 80 => pdu = 256
17 4: pdu = 80 => pdu = 255
13 4: pdu = 80 => pdu = 19
13 4: pdu = 80 => pdu = 20
plan 2 2: pdu = 80 => pdu = 21 ;; queue = 64 => queue = 163 ;; retry = 31, window = 16 => retry = 31, window = 163 ;; largest = 244 => largest = 8 ;; largest = 240 => largest = 14
13 4: pdu = 80 | widths = { addr = 2, cep = 2, len = 1, seq = 2 => pdu = 24 | widths = { addr = 2, cep = 2, len = 1, seq = 4 ;; queue = 64 => queue = 163 ;; retry = 31, window = 16 => retry = 31, window = 163 ;; largest = 244 => largest = 8 ;; largest = 240 => largest = 14
plan 2 2: pdu = 80 | widths = { addr = 2, cep = 2, len = 1, seq = 2 => pdu = 25 | widths = { addr = 2, cep = 2, len = 1, seq = 4 ;; queue = 64 => queue = 163 ;; retry = 31, window = 16 => retry = 31, window = 163 ;; largest = 244 => largest = 8 ;; largest = 240 => largest = 14
# Rule 14.
14 3: largest = 80 } => largest = 81 }
plan 2 2: largest = 80 } => largest = 80 }
14 3: queue = 5 => queue = 4
14 3: window = 5 => window = 4
14 4: window = 4, largest = 244 => window = 4, largest = 245
plan 2 2: window = 4, largest = 244 => window = 5, largest = 245
14 4: window = 7, largest = 240 => window = 3, largest = 240
plan 2 2: window = 7, largest = 240 => window = 4, largest = 240
14 4: queue = 64 => queue = 5
plan 2 2: queue = 64 => queue = 6
14 4: queue = 64 => queue = 6 ;; largest = 240 => largest = 367
plan 2 2: queue = 64 => queue = 6 ;; largest = 240 => largest = 366
14 4: queue = 64 => queue = 6 ;; window = 4, largest = 244 => window = 7, largest = 367
plan 2 2: queue = 64 => queue = 6 ;; window = 4, largest = 244 => window = 7, largest = 366
14 4: retry = 31, window = 16 => retry = 31, window = 5
plan 2 2: retry = 31, window = 16 => retry = 31, window = 6
# Rule 15.
15 4: static = true | pdu = 80 => static = false | pdu = 80
plan 2 2: static = true | pdu = 80 => pdu = 80 ;; link = [{ on = 'd', a = 'a', b = 'c', cube = 1, weight = 9 }] => # no links
15 4: static = true | pdu = 80 => pdu = 80 ;; link = [{ on = 'd', a = 'a', b = 'c', cube = 1, weight = 9 }] => # no links | flow = [{ cube = 2, from = { node = 'a', app = 's', label = 'x' }, to = { node = 'c', app = 't', label = 'y' } }]
15 3: static = true | pdu = 96 => static = false | pdu = 96
15 4: static = true | pdu = 96 => static = false | pdu = 96 ;; link = [{ on = 'w', a = 'a', b = 'b' }, { on = 'v', a = 'c', b = 'b' }] => # no links ;; flow = [{ cube = 1, from = { node = 'a', app = 's', label = 'p' }, to = { node = 'b', app = 't', label = 'q' } }] => # no flows
plan 2 2: static = true | pdu = 96 => static = false | pdu = 96 ;; link = [{ on = 'w', a = 'a', b = 'b' }, { on = 'v', a = 'c', b = 'b' }] => # no links ;; flow = [{ cube = 1, from = { node = 'a', app = 's', label = 'p' }, to = { node = 'b', app = 't', label = 'q' } }] => # no flows ;; link = [{ on = 'd', a = 'a', b = 'c', cube = 1, weight = 9 }] => # no links
# Rule 16.
16 1: on = 'd' => on = 'w'
16 4: { on = 'w', a = 'a', b = 'b' }, { on => { on ;; node = 'c', addr = 300 => node = 'b', addr = 300 ;; on = 'd', a = 'a', b = 'c', cube = 1 => on = 'w', a = 'a', b = 'b'
16 4: on = 'd' => on = 'e'
16 3: static = true | pdu = 80 => pdu = 80 ;; link = [{ on = 'd', a = 'a', b = 'c', cube = 1, weight = 9 }] => # no links ;; on = 'v', a = 'c', b = 'b' => on = 'e', a = 'c', b = 'a'
16 3: on = 'v', a = 'c', b = 'b' => on = 'e', a = 'c', b = 'a'
16 4: a = 'a', b = 'c', cube => a = 'a', b = 'a', cube
16 4: a = 'a', b = 'c', cube => a = 'a', b = 'b', cube
16 4: a = 'a', b = 'c', cube => a = 'b', b = 'c', cube
16 4: , { node = 'c', addr = 255 }] => ] ;; , { on = 'v', a = 'c', b = 'b' }] => ]
plan 2 2: a = 'a', b = 'c', cube => a = 'c', b = 'a', cube
16 3: a = 'c', b = 'b' => a = 'a', b = 'b'
plan 2 2: a = 'c', b = 'b' => a = 'b', b = 'c'
16 1: b = 'b' }, { => b = 'b' }, { on = 'w', a = 'b', b = 'a' }, {
16 2: b = 'b' }, { => b = 'b' }, { on = 'v', a = 'b', b = 'c' }, {
# Rule 17.
17 4: cube = 1, weight => cube = 2, weight
17 4: pdu = 80 => pdu = 81
17 3: largest = 96, => largest = 95,
plan 2 2: largest = 96, => largest = 97,
17 3: b = 'b' }, { => b = 'b', cube = 1 }, {
plan 2 2: b = 'b' }, { => b = 'b', cube = 0 }, {
17 4: largest = 80 }] => largest = 80 }, { id = 2, kind = 'loose', mpl = 40, window = 16, largest = 79 }] ;; cube = 1, weight => cube = 2, weight
plan 2 2: largest = 80 }] => largest = 80 }, { id = 2, kind = 'loose', mpl = 40, window = 16, largest = 80 }] ;; cube = 1, weight => cube = 2, weight
# Rule 18.
18 3: flow = [{ cube = 1 => flow = [{ cube = 2
18 3: flow = [{ cube = 1 => flow = [{ cube = 0
plan 2 2: largest = 80 }] => largest = 80 }, { id = 2, kind = 'loose', mpl = 40, window = 16, largest = 80 }] ;; flow = [{ cube = 1 => flow = [{ cube = 2
18 3: to = { node = 'b' => to = { node = 'a'
plan 2 2: to = { node = 'b' => to = { node = 'c'
18 3: { on = 'w', a = 'a', b = 'b' }, { on => { on
18 4: , { on = 'v', a = 'c', b = 'b' }] => ]
18 4: weight = 9 }] => weight = 9 }] | flow = [{ cube = 2, from = { node = 'a', app = 's', label = 'x' }, to = { node = 'b', app = 't', label = 'y' } }]
18 4: weight = 9 }] => weight = 9 }] | flow = [{ cube = 1, from = { node = 'a', app = 's', label = 'x' }, to = { node = 'c', app = 't', label = 'y' } }]
18 4: weight = 9 }] => weight = 9 }] | flow = [{ cube = 2, from = { node = 'b', app = 's', label = 'x' }, to = { node = 'c', app = 't', label = 'y' } }]
plan 2 2: weight = 9 }] => weight = 9 }] | flow = [{ cube = 2, from = { node = 'c', app = 's', label = 'x' }, to = { node = 'a', app = 't', label = 'y' } }]
# Rule 19.
plan 2 2: cube = [{ id = 1, => cube = [ | * 7 { id = 1#, kind = 'datagram', mpl = 40, window = 16, largest = 80 }, | { id = 1,
19 3: cube = [{ id = 1, => cube = [ | * 8 { id = 1#, kind = 'datagram', mpl = 40, window = 16, largest = 80 }, | { id = 1,
plan 2 2: rule = [ => rule = [ | * 255 { subject = '*', act = 'enrol', allow = true },
19 3: rule = [ => rule = [ | * 256 { subject = '*', act = 'enrol', allow = true },
plan 2 2: flow = [ => flow = [ | * 253 { cube = 1, from = { node = 'a', app = 's', label = 'p#' }, to = { node = 'b', app = 't', label = 'q#' } },
19 3: flow = [ => flow = [ | * 254 { cube = 1, from = { node = 'a', app = 's', label = 'p#' }, to = { node = 'b', app = 't', label = 'q#' } },
plan 2 2: link = [{ on = 'd' => link = [ | * 15 { on = 'd', a = 'a', b = 'c', cube = 1 }, | { on = 'd'
19 4: link = [{ on = 'd' => link = [ | * 16 { on = 'd', a = 'a', b = 'c', cube = 1 }, | { on = 'd'
19 3: flow = [ => flow = [ | * 253 { cube = 1, from = { node = 'a', app = 's', label = 'p#' }, to = { node = 'b', app = 't', label = 'q#' } }, ;; link = [{ on = 'd' => link = [ | * 1 { on = 'd', a = 'a', b = 'c', cube = 1 }, | { on = 'd'
plan 2 2: flow = [ => flow = [ | * 252 { cube = 1, from = { node = 'a', app = 's', label = 'p#' }, to = { node = 'b', app = 't', label = 'q#' } }, ;; link = [{ on = 'd' => link = [ | * 1 { on = 'd', a = 'a', b = 'c', cube = 1 }, | { on = 'd'
plan 2 2: nodes = ['a' => nodes = [ | * 61 'n#', | 'a' ;; member = [{ node = 'a', addr = 1 }, => member = [ | * 61 { node = 'n#', addr = 9# }, | { node = 'a', addr = 1 }, ;; widths = { addr = 1, => widths = { addr = 2, ;; pdu = 96 => pdu = 98 ;; largest = 96, => largest = 98,
# Two rules at once, of which the first is told, though its item comes later.
2 4: delay = 2, life = 10, largest = 1500 => life = 10, largest = 1500 ;; wait = 501 => wait = 501 | x = 1
3 4: 'w', ends => 'W', ends ;; rank = 2 => rank = '2'
4 4: name = 'v' => name = 'w' ;; name = 'e' => name = 'E'
5 4: delay = 2, life = 10, largest = 1500 => delay = 0, life = 10, largest = 1500 ;; name = 'e' => name = 'd'
6 4: ends = ['a', 'b'] => ends = ['a', 'x'] ;; wait = 501 => wait = 0
7 4: ends = ['a', 'b'] => ends = ['a', 'a'] ;; policy = 'weighted' => policy = 'none'
8 2: spread = 8 => spread = 9 ;; rank = 2 => rank = 3
9 4: cube = [{ id = 1, kind = 'datagram', mpl = 40, window = 16, largest = 80 }] => cube = [] ;; rank = 2 => rank = 3
10 4: retry = 10 => retry = 0 ;; id = 3 => id = 2
11 4: addr = 255 => addr = 256 ;; retry = 11 => retry = 33
12 4: pdu = 96 | widths = { addr = 1, cep = 1, len = 2, => pdu = 256 | widths = { addr = 1, cep = 1, len = 1, ;; addr = 300 => addr = 4
13 4: largest = 80 } => largest = 81 } ;; pdu = 80 => pdu = 256
14 4: static = true | pdu = 96 => static = false | pdu = 96 ;; window = 4, largest = 244 => window = 4, largest = 245
15 4: a = 'c', b = 'b' } => a = 'c', b = 'c' } ;; static = true | pdu = 80 => static = false | pdu = 80
16 4: largest = 96, => largest = 95, ;; a = 'a', b = 'c', cube => a = 'a', b = 'b', cube
17 4: flow = [{ cube = 1 => flow = [{ cube = 2 ;; cube = 1, weight => cube = 2, weight
18 4: rule = [ => rule = [ | * 256 { subject = '*', act = 'enrol', allow = true }, ;; weight = 9 }] => weight = 9 }] | flow = [{ cube = 2, from = { node = 'a', app = 's', label = 'x' }, to = { node = 'b', app = 't', label = 'y' } }]
18 4: nodes = [ => nodes = [ | * 62 'n#', ;; weight = 9 }] => weight = 9 }] | flow = [{ cube = 2, from = { node = 'a', app = 's', label = 'x' }, to = { node = 'b', app = 't', label = 'y' } }]
16 1: a = 'c', b = 'b' } => a = 'c', b = 'c' } ;; on = 'd' => on = 'w'
2 4: rank = 2 => rank = '2' | x = 1
3 4: name = 'e' | rank = 2 => name = 'E' | rank = '2'
5 4: name = 'e' | rank = 2 => name = 'd' | rank = 9
9 4: rank = 2 | static = true | pdu = 80 => rank = 3 | static = true | pdu = 20
2 4: on = 'd' => on = 'x', y = 1
no TOML: spread = 8 => spread = 9, lose = 3
19 0: rule = [ => rule = [ | * 256 { subject = '*', act = 'enrol', allow = true }, ;; nodes = [ => nodes = [ | * 62 'n#',
# Two items at once, of which the first is told.
2 1: delay = 2, life = 10, largest = 1500 => x = 1, delay = 2, life = 10, largest = 1500 ;; wait = 501 => wait = 501 | x = 1
3 1: delay = 2, life = 10, largest = 1500 => life = 10, largest = 1500 ;; rank = 2 => rank = '2'
4 1: 'w', ends => 'W', ends ;; name = 'e' => name = 'E'
5 2: name = 'v' => name = 'w' ;; name = 'e' => name = 'd'
6 1: delay = 2, life = 10, largest = 1500 => delay = 0, life = 10, largest = 1500 ;; wait = 501 => wait = 0
7 1: ends = ['a', 'b'] => ends = ['a', 'x'] ;; policy = 'weighted' => policy = 'none'
8 1: ends = ['a', 'b'] => ends = ['a', 'a'] ;; spread = 8 => spread = 9
10 3: cube = [{ id = 1, kind = 'datagram', mpl = 40, window = 16, largest = 80 }] => cube = [] ;; id = 3 => id = 2
11 3: retry = 10 => retry = 0 ;; retry = 11 => retry = 33
12 3: addr = 255 => addr = 256 ;; addr = 300 => addr = 4
13 3: pdu = 96 | widths = { addr = 1, cep = 1, len = 2, => pdu = 256 | widths = { addr = 1, cep = 1, len = 1, ;; pdu = 80 => pdu = 256
14 3: largest = 80 } => largest = 81 } ;; window = 4, largest = 244 => window = 4, largest = 245
15 3: static = true | pdu = 96 => static = false | pdu = 96 ;; static = true | pdu = 80 => static = false | pdu = 80
16 3: a = 'c', b = 'b' } => a = 'c', b = 'c' } ;; a = 'a', b = 'c', cube => a = 'a', b = 'b', cube
17 3: largest = 96, => largest = 95, ;; cube = 1, weight => cube = 2, weight
18 3: flow = [{ cube = 1 => flow = [{ cube = 2 ;; weight = 9 }] => weight = 9 }] | flow = [{ cube = 2, from = { node = 'a', app = 's', label = 'x' }, to = { node = 'b', app = 't', label = 'y' } }]";

#[test]
fn each_stack_has_its_rules(rt: HostRuntime) {
    rows_are_so(&rt, rt.alloc(), ROWS);
}
