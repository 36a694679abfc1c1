//! The examples from t to z, each an input, a line `----`, and what it writes; a line `====` parts them. Written by
//! `bin/examples-as-tests` from the folder examples/.

pub(crate) static EXAMPLES_T_TO_Z: &str = "\
# Three ranks of DIFs on one wire: an SDU goes down all three and up again, in the ticks of the wire alone.
nodes = [\"a\", \"b\"]
[[wire]]
name = \"w\"
ends = [\"a\", \"b\"]
delay = 2
life = 10
largest = 1500
[[dif]]
name = \"d1\"
rank = 1
static = true
pdu = 96
widths = { addr = 1, cep = 1, len = 2, seq = 2 }
queue = 64
policy = \"strict\"
wait = 500
manage = { mpl = 40, r = 30, a = 2, retry = 10, window = 8 }
cube = [ { id = 1, kind = \"datagram\", mpl = 40, window = 16, largest = 80 } ]
member = [ { node = \"a\", addr = 1 }, { node = \"b\", addr = 2 } ]
link = [ { on = \"w\", a = \"a\", b = \"b\" } ]
[[dif]]
name = \"d2\"
rank = 2
static = true
pdu = 80
widths = { addr = 1, cep = 1, len = 2, seq = 2 }
queue = 64
policy = \"strict\"
wait = 500
manage = { mpl = 60, r = 30, a = 2, retry = 10, window = 8 }
cube = [ { id = 1, kind = \"datagram\", mpl = 60, window = 16, largest = 64 } ]
member = [ { node = \"a\", addr = 1 }, { node = \"b\", addr = 2 } ]
link = [ { on = \"d1\", a = \"a\", b = \"b\", cube = 1 } ]
[[dif]]
name = \"d3\"
rank = 3
static = true
pdu = 64
widths = { addr = 1, cep = 1, len = 2, seq = 2 }
queue = 64
policy = \"strict\"
wait = 500
manage = { mpl = 80, r = 30, a = 2, retry = 10, window = 8 }
cube = [ { id = 1, kind = \"datagram\", mpl = 80, window = 16, largest = 48 } ]
member = [ { node = \"a\", addr = 1 }, { node = \"b\", addr = 2 } ]
link = [ { on = \"d2\", a = \"a\", b = \"b\", cube = 1 } ]
flow = [ { cube = 1, from = { node = \"a\", app = \"s\", label = \"p\" }, to = { node = \"b\", app = \"t\", label = \"q\" } } ]
%%
send p 'up
tick 2
read q
----
1 0 sent 1.0
2 2 ok
3 2 got 2 'up
end 2
====
# A tower of three ranks that the schedule builds. The stack gives no links: of each DIF the first member is enrolled, and the others enrol, over wires and then over the DIF below.
nodes = [\"a\", \"b\", \"c\"]
[[wire]]
name = \"w1\"
ends = [\"a\", \"b\"]
delay = 2
life = 10
largest = 1500
[[wire]]
name = \"w2\"
ends = [\"b\", \"c\"]
delay = 2
life = 10
largest = 1500
[[dif]]
name = \"d1\"
rank = 1
pdu = 400
widths = { addr = 1, cep = 1, len = 2, seq = 2 }
queue = 64
policy = \"strict\"
wait = 500
manage = { mpl = 40, r = 30, a = 2, retry = 10, window = 8 }
cube = [ { id = 1, kind = \"datagram\", mpl = 40, window = 16, largest = 320 } ]
member = [ { node = \"a\", addr = 1 }, { node = \"b\", addr = 2 }, { node = \"c\", addr = 3 } ]
[[dif]]
name = \"d2\"
rank = 2
pdu = 320
widths = { addr = 1, cep = 1, len = 2, seq = 2 }
queue = 64
policy = \"strict\"
wait = 500
manage = { mpl = 60, r = 30, a = 2, retry = 10, window = 8 }
cube = [ { id = 1, kind = \"datagram\", mpl = 60, window = 16, largest = 240 } ]
member = [ { node = \"a\", addr = 1 }, { node = \"c\", addr = 2 } ]
[[dif]]
name = \"d3\"
rank = 3
pdu = 240
widths = { addr = 1, cep = 1, len = 2, seq = 2 }
queue = 64
policy = \"strict\"
wait = 500
manage = { mpl = 80, r = 30, a = 2, retry = 10, window = 8 }
cube = [ { id = 1, kind = \"reliable\", mpl = 80, r = 40, a = 2, retry = 20, window = 16, largest = 80 } ]
member = [ { node = \"a\", addr = 1 }, { node = \"c\", addr = 2 } ]
%%
# Rank 1: b enrols at a over w1, and c at b over w2.
publish d1 a w1
enrol d1 b w1 a
tick 10
publish d1 b w2
enrol d1 c w2 b
tick 10
member d1 c
# Rank 2: the IPC process of d2 at a is registered in d1, and the members of d1 hear of that. The one at c asks d1 for a flow to it, and joins over that flow.
publish d2 a d1
tick 10
rib d1 c /dir
enrol d2 c d1 a
member d2 c
tick 40
member d2 c
# Rank 3: the same once more, over d2.
publish d3 a d2
tick 10
enrol d3 c d2 a
tick 60
member d3 c
# An application at each end: c registers echo, a asks for it.
register d3 c echo
tick 20
alloc p d3 a ping echo reliable
tick 20
accept q d3 c echo
send p 'hello
tick 20
read q
send q 'back
tick 20
read p
# The end that is freed tells the other one, which is closed.
free p
tick 20
state q
# Each rank has its flow: that of d1 carries d2, that of d2 carries d3.
journal d3
rib d2 a /flow
rib d1 c /flow
----
2 0 ok
3 0 ok
4 10 ok
5 10 ok
6 10 ok
7 20 ok
8 20 ok enrolled
10 20 ok
11 30 ok
12 30 obj /dir folder x
12 30 obj /dir/d2!a value '1
13 30 ok
14 30 ok joining 0
15 70 ok
16 70 ok enrolled
18 70 ok
19 80 ok
20 80 ok
21 140 ok
22 140 ok enrolled
24 140 ok
25 160 ok
26 160 ok pending
27 168 state p allocated
27 180 ok
28 180 ok allocated
29 180 sent 1.0
30 200 ok
31 200 got 184 'hello
32 200 sent 1.0
33 220 ok
34 220 got 204 'back
36 220 ok
36 220 state p closed
37 224 state q closed
37 240 ok
38 240 ok closed
40 240 flow 1.160.0 asker d3/a/1 ping echo 1 1 closed
40 240 s 180 1.0 'hello
40 240 g 204 1.0 'back
40 240 flow 1.160.0 far d3/c/1 echo ping 1 1 closed
40 240 s 200 1.0 'back
40 240 g 184 1.0 'hello
41 240 obj /flow folder x
41 240 obj /flow/1 flow 'tx=14,rx=15
42 240 obj /flow folder x
42 240 obj /flow/1 flow 'tx=26,rx=25
end 240
====
# Three systems in a row, a DIF over both wires, and a second DIF on a flow of the first.
nodes = [\"a\", \"b\", \"c\"]

[[wire]]
name = \"w1\"
ends = [\"a\", \"b\"]
delay = 2
life = 10
largest = 1500

[[wire]]
name = \"w2\"
ends = [\"b\", \"c\"]
delay = 3
life = 12
largest = 1400

[[dif]]
name = \"d1\"
rank = 1
static = true
pdu = 96
widths = { addr = 1, cep = 1, len = 2, seq = 2 }
queue = 32
policy = \"strict\"
wait = 500
manage = { mpl = 40, r = 30, a = 2, retry = 10, window = 8 }
cube = [
  { id = 1, kind = \"datagram\", mpl = 44, window = 16, largest = 80 },
  { id = 2, kind = \"reliable\", mpl = 44, window = 4, largest = 240, r = 60, a = 3, retry = 20 },
]
member = [
  { node = \"a\", addr = 1 },
  { node = \"b\", addr = 2 },
  { node = \"c\", addr = 3 },
]
link = [
  { on = \"w1\", a = \"a\", b = \"b\" },
  { on = \"w2\", a = \"b\", b = \"c\" },
]
flow = [
  { cube = 2, from = { node = \"a\", app = \"s1\", label = \"p1\" }, to = { node = \"b\", app = \"t1\", label = \"q1\" } },
]

[[dif]]
name = \"d2\"
rank = 2
static = true
pdu = 80
widths = { addr = 1, cep = 1, len = 2, seq = 2 }
queue = 64
policy = \"round\"
wait = 501
manage = { mpl = 64, r = 31, a = 4, retry = 11, window = 9 }
cube = [
  { id = 3, kind = \"datagram\", mpl = 64, window = 16, largest = 64 },
]
member = [
  { node = \"a\", addr = 11 },
  { node = \"c\", addr = 13 },
]
link = [
  { on = \"d1\", a = \"a\", b = \"c\", cube = 1 },
]
flow = [
  { cube = 3, from = { node = \"a\", app = \"s2\", label = \"p2\" }, to = { node = \"c\", app = \"t2\", label = \"q2\" } },
]
%%
send p2 'hello
tick 5
read q2
----
1 0 sent 1.0
2 5 ok
3 5 got 5 'hello
end 5
====
# Four numbers fit into the window; the fifth SDU is refused until an acknowledgement opens it.
nodes = [\"a\", \"b\"]
[[wire]]
name = \"w\"
ends = [\"a\", \"b\"]
delay = 2
life = 10
largest = 1500
[[dif]]
name = \"d\"
rank = 1
static = true
pdu = 96
widths = { addr = 1, cep = 1, len = 2, seq = 2 }
queue = 64
policy = \"strict\"
wait = 500
manage = { mpl = 40, r = 30, a = 2, retry = 10, window = 8 }
cube = [
  { id = 1, kind = \"datagram\", mpl = 40, window = 16, largest = 80 },
  { id = 2, kind = \"loose\", mpl = 40, window = 16, largest = 240 },
  { id = 3, kind = \"reliable\", mpl = 40, r = 30, a = 2, retry = 10, window = 4, largest = 240 },
]
member = [ { node = \"a\", addr = 1 }, { node = \"b\", addr = 2 } ]
link = [ { on = \"w\", a = \"a\", b = \"b\" } ]
flow = [
  { cube = 1, from = { node = \"a\", app = \"s1\", label = \"p1\" }, to = { node = \"b\", app = \"t1\", label = \"q1\" } },
  { cube = 2, from = { node = \"a\", app = \"s2\", label = \"p2\" }, to = { node = \"b\", app = \"t2\", label = \"q2\" } },
  { cube = 3, from = { node = \"a\", app = \"s3\", label = \"p3\" }, to = { node = \"b\", app = \"t3\", label = \"q3\" } },
]
%%
send p3 'a
send p3 'b
send p3 'c
send p3 'd
send p3 'e
tick 2
read q3
tick 4
send p3 'e
----
1 0 sent 3.0
2 0 sent 3.1
3 0 sent 3.2
4 0 sent 3.3
5 0 no WindowShut 1 0
6 2 ok
7 2 got 2 'a
7 2 got 2 'b
7 2 got 2 'c
7 2 got 2 'd
8 6 ok
9 6 sent 3.4
end 6
";
