//! Words of the command line, then a stack, and behind a line `----` what is written for them; a line `====` parts the rows. Each was worked out by hand: a
//! wire charges its `life`, a reliable flow below its `r + mpl`, the slack is the `mpl` of the cube less the charges, and a trip is the charges there and
//! back and the cube's `a`.

/// The pairs of members of three DIFs; a wire, which has none; a further word; an input that is no stack; and a DIF that is not static, in which no way leads from
/// one member to the other.
pub(crate) static PAIR_ROWS: &str = "\
promises d
# Two wires of life 12, and a DIF over both: the lifetime of the second cube is a tick too short for them.
nodes = [\"a\", \"b\", \"c\"]

[[wire]]
name = \"w1\"
ends = [\"a\", \"b\"]
delay = 2
life = 12
largest = 1500

[[wire]]
name = \"w2\"
ends = [\"b\", \"c\"]
delay = 2
life = 12
largest = 1500

[[dif]]
name = \"d\"
rank = 1
static = true
pdu = 96
widths = { addr = 1, cep = 1, len = 2, seq = 2 }
queue = 64
policy = \"strict\"
wait = 500
manage = { mpl = 40, r = 30, a = 2, retry = 10, window = 8 }
cube = [
  { id = 1, kind = \"datagram\", mpl = 24, window = 16, largest = 80 },
  { id = 2, kind = \"reliable\", mpl = 23, r = 30, a = 2, retry = 10, window = 4, largest = 240 },
]
member = [{ node = \"a\", addr = 1 }, { node = \"b\", addr = 2 }, { node = \"c\", addr = 3 }]
link = [{ on = \"w1\", a = \"a\", b = \"b\" }, { on = \"w2\", a = \"b\", b = \"c\" }]
flow = [
  { cube = 1, from = { node = \"a\", app = \"s1\", label = \"p1\" }, to = { node = \"c\", app = \"t1\", label = \"q1\" } },
  { cube = 2, from = { node = \"a\", app = \"s2\", label = \"p2\" }, to = { node = \"c\", app = \"t2\", label = \"q2\" } },
]
----
facility from to cube way charges slack window pieces trip promise
d a b 1 a>b 12 12 16 1 - at most once, in any order, within 24 ticks
d a b 2 a>b 12 11 4 3 26 at most once, in order, without gaps, within 53 ticks
d a c 1 a>b>c 12+12 0 16 1 - at most once, in any order, within 24 ticks
d a c 2 a>b>c 12+12 -1 4 3 50 at most once, in order, without gaps, within 53 ticks; no SDU can arrive
d b a 1 b>a 12 12 16 1 - at most once, in any order, within 24 ticks
d b a 2 b>a 12 11 4 3 26 at most once, in order, without gaps, within 53 ticks
d b c 1 b>c 12 12 16 1 - at most once, in any order, within 24 ticks
d b c 2 b>c 12 11 4 3 26 at most once, in order, without gaps, within 53 ticks
d c a 1 c>b>a 12+12 0 16 1 - at most once, in any order, within 24 ticks
d c a 2 c>b>a 12+12 -1 4 3 50 at most once, in order, without gaps, within 53 ticks; no SDU can arrive
d c b 1 c>b 12 12 16 1 - at most once, in any order, within 24 ticks
d c b 2 c>b 12 11 4 3 26 at most once, in order, without gaps, within 53 ticks
====
promises d1
nodes = [\"a\", \"b\"]
[[wire]]
name = \"w\"
ends = [\"a\", \"b\"]
delay = 2
life = 10
largest = 1500
[[dif]]
name = \"d2\"
rank = 2
pdu = 80
static = true
widths = { addr = 1, cep = 1, len = 2, seq = 2 }
queue = 64
policy = \"strict\"
wait = 500
manage = { mpl = 100, r = 30, a = 2, retry = 10, window = 8 }
cube = [ { id = 3, kind = \"loose\", mpl = 100, window = 16, largest = 100 } ]
member = [ { node = \"a\", addr = 1 }, { node = \"b\", addr = 2 } ]
link = [ { on = \"d1\", a = \"a\", b = \"b\", cube = 2 } ]
flow = [ { cube = 3, from = { node = \"b\", app = \"s\", label = \"p\" }, to = { node = \"a\", app = \"t\", label = \"q\" } } ]
[[dif]]
name = \"d1\"
rank = 1
pdu = 96
static = true
widths = { addr = 1, cep = 1, len = 2, seq = 2 }
queue = 64
policy = \"strict\"
wait = 500
manage = { mpl = 40, r = 30, a = 2, retry = 10, window = 8 }
cube = [
  { id = 1, kind = \"datagram\", mpl = 40, window = 16, largest = 80 },
  { id = 2, kind = \"reliable\", mpl = 40, r = 30, a = 2, retry = 10, window = 4, largest = 240 },
]
member = [ { node = \"a\", addr = 1 }, { node = \"b\", addr = 2 } ]
link = [ { on = \"w\", a = \"a\", b = \"b\" } ]
flow = [ { cube = 2, from = { node = \"a\", app = \"s\", label = \"x\" }, to = { node = \"b\", app = \"t\", label = \"y\" } } ]
----
facility from to cube way charges slack window pieces trip promise
d1 a b 1 a>b 10 30 16 1 - at most once, in any order, within 40 ticks
d1 a b 2 a>b 10 30 4 3 22 at most once, in order, without gaps, within 70 ticks
d1 b a 1 b>a 10 30 16 1 - at most once, in any order, within 40 ticks
d1 b a 2 b>a 10 30 4 3 22 at most once, in order, without gaps, within 70 ticks
====
promises d2
nodes = [\"a\", \"b\"]
[[wire]]
name = \"w\"
ends = [\"a\", \"b\"]
delay = 2
life = 10
largest = 1500
[[dif]]
name = \"d2\"
rank = 2
pdu = 80
static = true
widths = { addr = 1, cep = 1, len = 2, seq = 2 }
queue = 64
policy = \"strict\"
wait = 500
manage = { mpl = 100, r = 30, a = 2, retry = 10, window = 8 }
cube = [ { id = 3, kind = \"loose\", mpl = 100, window = 16, largest = 100 } ]
member = [ { node = \"a\", addr = 1 }, { node = \"b\", addr = 2 } ]
link = [ { on = \"d1\", a = \"a\", b = \"b\", cube = 2 } ]
flow = [ { cube = 3, from = { node = \"b\", app = \"s\", label = \"p\" }, to = { node = \"a\", app = \"t\", label = \"q\" } } ]
[[dif]]
name = \"d1\"
rank = 1
pdu = 96
static = true
widths = { addr = 1, cep = 1, len = 2, seq = 2 }
queue = 64
policy = \"strict\"
wait = 500
manage = { mpl = 40, r = 30, a = 2, retry = 10, window = 8 }
cube = [
  { id = 1, kind = \"datagram\", mpl = 40, window = 16, largest = 80 },
  { id = 2, kind = \"reliable\", mpl = 40, r = 30, a = 2, retry = 10, window = 4, largest = 240 },
]
member = [ { node = \"a\", addr = 1 }, { node = \"b\", addr = 2 } ]
link = [ { on = \"w\", a = \"a\", b = \"b\" } ]
flow = [ { cube = 2, from = { node = \"a\", app = \"s\", label = \"x\" }, to = { node = \"b\", app = \"t\", label = \"y\" } } ]
----
facility from to cube way charges slack window pieces trip promise
d2 a b 3 a>b 70 30 16 2 - at most once, in order, within 100 ticks
d2 b a 3 b>a 70 30 16 2 - at most once, in order, within 100 ticks
====
promises w
nodes = [\"a\", \"b\"]
[[wire]]
name = \"w\"
ends = [\"a\", \"b\"]
delay = 2
life = 10
largest = 1500
[[dif]]
name = \"d2\"
rank = 2
pdu = 80
static = true
widths = { addr = 1, cep = 1, len = 2, seq = 2 }
queue = 64
policy = \"strict\"
wait = 500
manage = { mpl = 100, r = 30, a = 2, retry = 10, window = 8 }
cube = [ { id = 3, kind = \"loose\", mpl = 100, window = 16, largest = 100 } ]
member = [ { node = \"a\", addr = 1 }, { node = \"b\", addr = 2 } ]
link = [ { on = \"d1\", a = \"a\", b = \"b\", cube = 2 } ]
flow = [ { cube = 3, from = { node = \"b\", app = \"s\", label = \"p\" }, to = { node = \"a\", app = \"t\", label = \"q\" } } ]
[[dif]]
name = \"d1\"
rank = 1
pdu = 96
static = true
widths = { addr = 1, cep = 1, len = 2, seq = 2 }
queue = 64
policy = \"strict\"
wait = 500
manage = { mpl = 40, r = 30, a = 2, retry = 10, window = 8 }
cube = [
  { id = 1, kind = \"datagram\", mpl = 40, window = 16, largest = 80 },
  { id = 2, kind = \"reliable\", mpl = 40, r = 30, a = 2, retry = 10, window = 4, largest = 240 },
]
member = [ { node = \"a\", addr = 1 }, { node = \"b\", addr = 2 } ]
link = [ { on = \"w\", a = \"a\", b = \"b\" } ]
flow = [ { cube = 2, from = { node = \"a\", app = \"s\", label = \"x\" }, to = { node = \"b\", app = \"t\", label = \"y\" } } ]
----
fault Usage 1
====
promises d1 d2
nodes = [\"a\", \"b\"]
[[wire]]
name = \"w\"
ends = [\"a\", \"b\"]
delay = 2
life = 10
largest = 1500
[[dif]]
name = \"d2\"
rank = 2
pdu = 80
static = true
widths = { addr = 1, cep = 1, len = 2, seq = 2 }
queue = 64
policy = \"strict\"
wait = 500
manage = { mpl = 100, r = 30, a = 2, retry = 10, window = 8 }
cube = [ { id = 3, kind = \"loose\", mpl = 100, window = 16, largest = 100 } ]
member = [ { node = \"a\", addr = 1 }, { node = \"b\", addr = 2 } ]
link = [ { on = \"d1\", a = \"a\", b = \"b\", cube = 2 } ]
flow = [ { cube = 3, from = { node = \"b\", app = \"s\", label = \"p\" }, to = { node = \"a\", app = \"t\", label = \"q\" } } ]
[[dif]]
name = \"d1\"
rank = 1
pdu = 96
static = true
widths = { addr = 1, cep = 1, len = 2, seq = 2 }
queue = 64
policy = \"strict\"
wait = 500
manage = { mpl = 40, r = 30, a = 2, retry = 10, window = 8 }
cube = [
  { id = 1, kind = \"datagram\", mpl = 40, window = 16, largest = 80 },
  { id = 2, kind = \"reliable\", mpl = 40, r = 30, a = 2, retry = 10, window = 4, largest = 240 },
]
member = [ { node = \"a\", addr = 1 }, { node = \"b\", addr = 2 } ]
link = [ { on = \"w\", a = \"a\", b = \"b\" } ]
flow = [ { cube = 2, from = { node = \"a\", app = \"s\", label = \"x\" }, to = { node = \"b\", app = \"t\", label = \"y\" } } ]
----
fault Usage 2
====
promises d
nodes = [
----
fault NotToml
====
promises d
nodes = [\"a\", \"b\"]

[[wire]]
name = \"w\"
ends = [\"a\", \"b\"]
delay = 2
life = 10
largest = 1500

[[dif]]
name = \"d\"
rank = 1
pdu = 400
widths = { addr = 1, cep = 1, len = 2, seq = 2 }
queue = 64
policy = \"strict\"
wait = 500
manage = { mpl = 40, r = 30, a = 2, retry = 10, window = 8 }
cube = [
  { id = 1, kind = \"datagram\", mpl = 40, window = 16, largest = 80 },
]
member = [{ node = \"a\", addr = 1 }, { node = \"b\", addr = 2 }]
----
facility from to cube way charges slack window pieces trip promise
d a b 1 - - - 16 1 - at most once, in any order, within 40 ticks; no way
d b a 1 - - - 16 1 - at most once, in any order, within 40 ticks; no way
";
