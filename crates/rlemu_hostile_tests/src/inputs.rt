//! The stacks and schedules that are run.

/// One wire between two systems, and an SDU that comes.
pub(crate) const HELLO: &str = "nodes = [\"a\", \"b\"]
[[wire]]
name = \"w\"
ends = [\"a\", \"b\"]
delay = 2
life = 10
largest = 1500
%%
register w b echo
alloc p w a ping echo
accept q w b echo
send p 'hello
tick 2
read q
";

/// What it writes.
pub(crate) const HELLO_NOTES: &str = "1 0 ok
2 0 ok allocated
3 0 ok allocated
4 0 sent 0.0
5 2 ok
6 2 got 2 'hello
end 2
";

/// Two ways from one system to another, under four ranks, of which the highest has a reliable flow.
pub(crate) const DIAMOND: &str = "nodes = [\"a\", \"b\", \"c\", \"d\"]
[[wire]]
name = \"ab\"
ends = [\"a\", \"b\"]
delay = 2
life = 10
largest = 1500
[[wire]]
name = \"bd\"
ends = [\"b\", \"d\"]
delay = 2
life = 10
largest = 1500
[[wire]]
name = \"ac\"
ends = [\"a\", \"c\"]
delay = 2
life = 10
largest = 1500
[[wire]]
name = \"cd\"
ends = [\"c\", \"d\"]
delay = 2
life = 10
largest = 1500
[[dif]]
name = \"d1\"
rank = 1
static = true
pdu = 104
widths = { addr = 1, cep = 1, len = 2, seq = 2 }
queue = 64
policy = \"strict\"
wait = 500
manage = { mpl = 40, r = 30, a = 2, retry = 10, window = 8 }
cube = [ { id = 1, kind = \"datagram\", mpl = 40, window = 16, largest = 88 } ]
member = [ { node = \"a\", addr = 1 }, { node = \"b\", addr = 2 }, { node = \"c\", addr = 3 }, { node = \"d\", addr = 4 } ]
link = [ { on = \"ab\", a = \"a\", b = \"b\" }, { on = \"bd\", a = \"b\", b = \"d\" }, { on = \"ac\", a = \"a\", b = \"c\" }, { on = \"cd\", a = \"c\", b = \"d\" } ]
[[dif]]
name = \"d2\"
rank = 2
static = true
pdu = 88
widths = { addr = 1, cep = 1, len = 2, seq = 2 }
queue = 64
policy = \"strict\"
wait = 500
manage = { mpl = 60, r = 30, a = 2, retry = 10, window = 8 }
cube = [ { id = 1, kind = \"datagram\", mpl = 60, window = 16, largest = 72 } ]
member = [ { node = \"a\", addr = 1 }, { node = \"d\", addr = 2 } ]
link = [ { on = \"d1\", a = \"a\", b = \"d\", cube = 1 } ]
[[dif]]
name = \"d3\"
rank = 3
static = true
pdu = 72
widths = { addr = 1, cep = 1, len = 2, seq = 2 }
queue = 64
policy = \"strict\"
wait = 500
manage = { mpl = 80, r = 30, a = 2, retry = 10, window = 8 }
cube = [ { id = 1, kind = \"datagram\", mpl = 80, window = 16, largest = 56 } ]
member = [ { node = \"a\", addr = 1 }, { node = \"d\", addr = 2 } ]
link = [ { on = \"d2\", a = \"a\", b = \"d\", cube = 1 } ]
[[dif]]
name = \"d4\"
rank = 4
static = true
pdu = 56
widths = { addr = 1, cep = 1, len = 2, seq = 2 }
queue = 64
policy = \"strict\"
wait = 500
manage = { mpl = 100, r = 30, a = 2, retry = 10, window = 16 }
cube = [ { id = 1, kind = \"reliable\", mpl = 100, r = 30, a = 2, retry = 10, window = 4, largest = 40 } ]
member = [ { node = \"a\", addr = 1 }, { node = \"d\", addr = 2 } ]
link = [ { on = \"d3\", a = \"a\", b = \"d\", cube = 1 } ]
flow = [ { cube = 1, from = { node = \"a\", app = \"s\", label = \"p\" }, to = { node = \"d\", app = \"t\", label = \"q\" } } ]
";

/// Two SDUs of the flow; the first way is cut between them, and the other one behind them.
pub(crate) const DIAMOND_LINES: &str = "send p 'one
tick 4
read q
cut ab
send p 'two
tick 4
read q
cut ac
";

/// One wire, whose storm repeats each frame and delays each copy by up to eight ticks, under flows of the three kinds.
pub(crate) const STORMY: &str = "nodes = [\"a\", \"b\"]
[[wire]]
name = \"w\"
ends = [\"a\", \"b\"]
delay = 2
life = 10
largest = 1500
storm = { seed = 0, lose = 0, repeat = 1000, spread = 8 }
[[dif]]
name = \"d\"
rank = 1
static = true
pdu = 96
widths = { addr = 1, cep = 1, len = 2, seq = 2 }
queue = 64
policy = \"strict\"
wait = 500
manage = { mpl = 40, r = 30, a = 2, retry = 10, window = 8 }
cube = [
  { id = 1, kind = \"datagram\", mpl = 40, window = 16, largest = 80 },
  { id = 2, kind = \"loose\", mpl = 40, window = 16, largest = 240 },
  { id = 3, kind = \"reliable\", mpl = 40, r = 30, a = 2, retry = 10, window = 4, largest = 240 },
]
member = [ { node = \"a\", addr = 1 }, { node = \"b\", addr = 2 } ]
link = [ { on = \"w\", a = \"a\", b = \"b\" } ]
flow = [
  { cube = 1, from = { node = \"a\", app = \"s1\", label = \"p1\" }, to = { node = \"b\", app = \"t1\", label = \"q1\" } },
  { cube = 2, from = { node = \"a\", app = \"s2\", label = \"p2\" }, to = { node = \"b\", app = \"t2\", label = \"q2\" } },
  { cube = 3, from = { node = \"a\", app = \"s3\", label = \"p3\" }, to = { node = \"b\", app = \"t3\", label = \"q3\" } },
]
";

/// Three flows over one link, with each step written in the schedule.
pub(crate) const MANUAL: &str = "nodes = [\"a\", \"b\"]
rounds = \"manual\"
[[wire]]
name = \"w\"
ends = [\"a\", \"b\"]
delay = 2
life = 10
largest = 1500
[[dif]]
name = \"d\"
rank = 1
static = true
pdu = 96
widths = { addr = 1, cep = 1, len = 2, seq = 2 }
queue = 64
policy = \"last\"
wait = 500
manage = { mpl = 40, r = 30, a = 2, retry = 10, window = 8 }
cube = [
  { id = 1, kind = \"datagram\", mpl = 40, window = 16, largest = 80 },
  { id = 2, kind = \"loose\", mpl = 40, window = 16, largest = 240 },
  { id = 3, kind = \"reliable\", mpl = 40, r = 30, a = 2, retry = 10, window = 4, largest = 240 },
]
member = [ { node = \"a\", addr = 1 }, { node = \"b\", addr = 2 } ]
link = [ { on = \"w\", a = \"a\", b = \"b\" } ]
flow = [
  { cube = 1, from = { node = \"a\", app = \"s1\", label = \"p1\" }, to = { node = \"b\", app = \"t1\", label = \"q1\" } },
  { cube = 2, from = { node = \"a\", app = \"s2\", label = \"p2\" }, to = { node = \"b\", app = \"t2\", label = \"q2\" } },
  { cube = 3, from = { node = \"a\", app = \"s3\", label = \"p3\" }, to = { node = \"b\", app = \"t3\", label = \"q3\" } },
]
";

/// PDUs of two of them wait there, and leave as the policy says.
pub(crate) const MANUAL_LINES: &str = "send p1 'a
send p1 'b
send p2 'c
send p2 'd
out d a 0
retire last
out d a 0
out d a 0
out d a 0
out d a 0
tick 2
in d b 0
read q2
";
