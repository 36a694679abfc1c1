//! Stacks, each with a line `----` and what `promises` writes of it; a line `====` parts them. What is written was worked out by the rules.

pub(crate) static PROMISE_ROWS: &str = "\
# Two wires of life 12, and a DIF over both: the lifetime of the second cube is a tick too short for them.
nodes = [\"a\", \"b\", \"c\"]

[[wire]]
name = \"w1\"
ends = [\"a\", \"b\"]
delay = 2
life = 12
largest = 1500

[[wire]]
name = \"w2\"
ends = [\"b\", \"c\"]
delay = 2
life = 12
largest = 1500

[[dif]]
name = \"d\"
rank = 1
static = true
pdu = 96
widths = { addr = 1, cep = 1, len = 2, seq = 2 }
queue = 64
policy = \"strict\"
wait = 500
manage = { mpl = 40, r = 30, a = 2, retry = 10, window = 8 }
cube = [
  { id = 1, kind = \"datagram\", mpl = 24, window = 16, largest = 80 },
  { id = 2, kind = \"reliable\", mpl = 23, r = 30, a = 2, retry = 10, window = 4, largest = 240 },
]
member = [{ node = \"a\", addr = 1 }, { node = \"b\", addr = 2 }, { node = \"c\", addr = 3 }]
link = [{ on = \"w1\", a = \"a\", b = \"b\" }, { on = \"w2\", a = \"b\", b = \"c\" }]
flow = [
  { cube = 1, from = { node = \"a\", app = \"s1\", label = \"p1\" }, to = { node = \"c\", app = \"t1\", label = \"q1\" } },
  { cube = 2, from = { node = \"a\", app = \"s2\", label = \"p2\" }, to = { node = \"c\", app = \"t2\", label = \"q2\" } },
]
----
facility from to cube way charges slack window pieces trip promise
d p1 q1 1 a>b>c 12+12 0 16 1 - at most once, in any order, within 24 ticks
d q1 p1 1 c>b>a 12+12 0 16 1 - at most once, in any order, within 24 ticks
d p2 q2 2 a>b>c 12+12 -1 4 3 50 at most once, in order, without gaps, within 53 ticks; no SDU can arrive
d q2 p2 2 c>b>a 12+12 -1 4 3 50 at most once, in order, without gaps, within 53 ticks; no SDU can arrive
====
nodes = [\"a\", \"b\", \"c\", \"d\", \"e\", \"f\"]
[[wire]]
name = \"ab\"
ends = [\"a\", \"b\"]
delay = 2
life = 10
largest = 1500
[[wire]]
name = \"bc\"
ends = [\"b\", \"c\"]
delay = 2
life = 10
largest = 1500
[[wire]]
name = \"cd\"
ends = [\"c\", \"d\"]
delay = 2
life = 10
largest = 1500
[[wire]]
name = \"ae\"
ends = [\"a\", \"e\"]
delay = 2
life = 20
largest = 1500
[[wire]]
name = \"ef\"
ends = [\"e\", \"f\"]
delay = 2
life = 20
largest = 1500
[[wire]]
name = \"fd\"
ends = [\"f\", \"d\"]
delay = 2
life = 20
largest = 1500
[[dif]]
name = \"d\"
rank = 1
pdu = 96
static = true
widths = { addr = 1, cep = 1, len = 2, seq = 2 }
queue = 64
policy = \"strict\"
wait = 500
manage = { mpl = 40, r = 30, a = 2, retry = 10, window = 8 }
cube = [ { id = 1, kind = \"datagram\", mpl = 40, window = 16, largest = 80 } ]
member = [
  { node = \"a\", addr = 1 },
  { node = \"b\", addr = 2 },
  { node = \"c\", addr = 5 },
  { node = \"d\", addr = 6 },
  { node = \"e\", addr = 3 },
  { node = \"f\", addr = 4 },
]
link = [
  { on = \"ab\", a = \"a\", b = \"b\" },
  { on = \"bc\", a = \"b\", b = \"c\" },
  { on = \"cd\", a = \"c\", b = \"d\" },
  { on = \"ae\", a = \"a\", b = \"e\" },
  { on = \"ef\", a = \"e\", b = \"f\" },
  { on = \"fd\", a = \"f\", b = \"d\" },
]
flow = [ { cube = 1, from = { node = \"a\", app = \"s\", label = \"p\" }, to = { node = \"d\", app = \"t\", label = \"q\" } } ]
----
facility from to cube way charges slack window pieces trip promise
d p q 1 a>b>c>d 10+10+10 10 16 1 - at most once, in any order, within 40 ticks
d q p 1 d>f>e>a 20+20+20 -20 16 1 - at most once, in any order, within 40 ticks; no SDU can arrive
====
nodes = [\"a\", \"b\"]
[[wire]]
name = \"w\"
ends = [\"a\", \"b\"]
delay = 2
life = 10
largest = 1500
[[dif]]
name = \"d2\"
rank = 2
pdu = 80
static = true
widths = { addr = 1, cep = 1, len = 2, seq = 2 }
queue = 64
policy = \"strict\"
wait = 500
manage = { mpl = 100, r = 30, a = 2, retry = 10, window = 8 }
cube = [ { id = 3, kind = \"loose\", mpl = 100, window = 16, largest = 100 } ]
member = [ { node = \"a\", addr = 1 }, { node = \"b\", addr = 2 } ]
link = [ { on = \"d1\", a = \"a\", b = \"b\", cube = 2 } ]
flow = [ { cube = 3, from = { node = \"b\", app = \"s\", label = \"p\" }, to = { node = \"a\", app = \"t\", label = \"q\" } } ]
[[dif]]
name = \"d1\"
rank = 1
pdu = 96
static = true
widths = { addr = 1, cep = 1, len = 2, seq = 2 }
queue = 64
policy = \"strict\"
wait = 500
manage = { mpl = 40, r = 30, a = 2, retry = 10, window = 8 }
cube = [
  { id = 1, kind = \"datagram\", mpl = 40, window = 16, largest = 80 },
  { id = 2, kind = \"reliable\", mpl = 40, r = 30, a = 2, retry = 10, window = 4, largest = 240 },
]
member = [ { node = \"a\", addr = 1 }, { node = \"b\", addr = 2 } ]
link = [ { on = \"w\", a = \"a\", b = \"b\" } ]
flow = [ { cube = 2, from = { node = \"a\", app = \"s\", label = \"x\" }, to = { node = \"b\", app = \"t\", label = \"y\" } } ]
----
facility from to cube way charges slack window pieces trip promise
d2 p q 3 b>a 70 30 16 2 - at most once, in order, within 100 ticks
d2 q p 3 a>b 70 30 16 2 - at most once, in order, within 100 ticks
d1 x y 2 a>b 10 30 4 3 22 at most once, in order, without gaps, within 70 ticks
d1 y x 2 b>a 10 30 4 3 22 at most once, in order, without gaps, within 70 ticks
====
nodes = [\"a\"]
----
facility from to cube way charges slack window pieces trip promise
====
nodes = [
----
fault NotToml
====
nodes = [\"a\", \"b\"]
[[wire]]
name = \"w\"
ends = [\"a\", \"a\"]
delay = 2
life = 10
largest = 1500
----
fault StackRule 8 1
====
nodes = [\"a\", \"b\"]

[[wire]]
name = \"w\"
ends = [\"a\", \"b\"]
delay = 2
life = 10
largest = 1500

[[dif]]
name = \"d\"
rank = 1
pdu = 400
widths = { addr = 1, cep = 1, len = 2, seq = 2 }
queue = 64
policy = \"strict\"
wait = 500
manage = { mpl = 40, r = 30, a = 2, retry = 10, window = 8 }
cube = [
  { id = 1, kind = \"datagram\", mpl = 40, window = 16, largest = 80 },
]
member = [{ node = \"a\", addr = 1 }, { node = \"b\", addr = 2 }]
----
facility from to cube way charges slack window pieces trip promise
";
