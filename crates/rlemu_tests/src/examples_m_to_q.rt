//! The examples from m to q, each an input, a line `----`, and what it writes; a line `====` parts them. Written by
//! `bin/examples-as-tests` from the folder examples/.

pub(crate) static EXAMPLES_M_TO_Q: &str = "\
# A stack with a mistake. docs/stacks.md says what rule 8 is; item 2 is the second wire.
nodes = [\"a\", \"b\", \"c\"]
[[wire]]
name = \"w1\"
ends = [\"a\", \"b\"]
delay = 2
life = 10
largest = 1500
[[wire]]
name = \"w2\"
ends = [\"b\", \"b\"]
delay = 2
life = 10
largest = 1500
%%
tick 1
----
fault StackRule 8 2
====
# What an IPC process tells of itself: its flows with the numbers of both halves of each connection, and its neighbours.
nodes = [\"a\", \"b\"]
[[wire]]
name = \"w\"
ends = [\"a\", \"b\"]
delay = 2
life = 10
largest = 1500
[[dif]]
name = \"d\"
rank = 1
static = true
pdu = 96
widths = { addr = 1, cep = 1, len = 2, seq = 2 }
queue = 64
policy = \"strict\"
wait = 500
manage = { mpl = 40, r = 30, a = 2, retry = 10, window = 8 }
cube = [
  { id = 1, kind = \"datagram\", mpl = 40, window = 16, largest = 80 },
  { id = 2, kind = \"loose\", mpl = 40, window = 16, largest = 240 },
  { id = 3, kind = \"reliable\", mpl = 40, r = 30, a = 2, retry = 10, window = 4, largest = 240 },
]
member = [ { node = \"a\", addr = 1 }, { node = \"b\", addr = 2 } ]
link = [ { on = \"w\", a = \"a\", b = \"b\" } ]
flow = [
  { cube = 1, from = { node = \"a\", app = \"s1\", label = \"p1\" }, to = { node = \"b\", app = \"t1\", label = \"q1\" } },
  { cube = 2, from = { node = \"a\", app = \"s2\", label = \"p2\" }, to = { node = \"b\", app = \"t2\", label = \"q2\" } },
  { cube = 3, from = { node = \"a\", app = \"s3\", label = \"p3\" }, to = { node = \"b\", app = \"t3\", label = \"q3\" } },
]
%%
send p3 'a
tick 2
rib d a /flow
rib d b /flow
rib d b /link
----
1 0 sent 3.0
2 2 ok
3 2 obj /flow folder x
3 2 obj /flow/1 flow 'tx=-,rx=-
3 2 obj /flow/2 flow 'tx=-,rx=-
3 2 obj /flow/3 flow 'tx=1,rx=-
4 2 obj /flow folder x
4 2 obj /flow/1 flow 'tx=-,rx=-
4 2 obj /flow/2 flow 'tx=-,rx=-
4 2 obj /flow/3 flow 'tx=-,rx=1
5 2 obj /link folder x
5 2 obj /link/1 value '2:1
5 2 obj /link/2 value '1:1
end 2
====
# A wire carries a frame twice: the copy is written off, and the SDU comes once.
nodes = [\"a\", \"b\"]
[[wire]]
name = \"w\"
ends = [\"a\", \"b\"]
delay = 2
life = 10
largest = 1500
[[dif]]
name = \"d\"
rank = 1
static = true
pdu = 96
widths = { addr = 1, cep = 1, len = 2, seq = 2 }
queue = 64
policy = \"strict\"
wait = 500
manage = { mpl = 40, r = 30, a = 2, retry = 10, window = 8 }
cube = [
  { id = 1, kind = \"datagram\", mpl = 40, window = 16, largest = 80 },
  { id = 2, kind = \"loose\", mpl = 40, window = 16, largest = 240 },
  { id = 3, kind = \"reliable\", mpl = 40, r = 30, a = 2, retry = 10, window = 4, largest = 240 },
]
member = [ { node = \"a\", addr = 1 }, { node = \"b\", addr = 2 } ]
link = [ { on = \"w\", a = \"a\", b = \"b\" } ]
flow = [
  { cube = 1, from = { node = \"a\", app = \"s1\", label = \"p1\" }, to = { node = \"b\", app = \"t1\", label = \"q1\" } },
  { cube = 2, from = { node = \"a\", app = \"s2\", label = \"p2\" }, to = { node = \"b\", app = \"t2\", label = \"q2\" } },
  { cube = 3, from = { node = \"a\", app = \"s3\", label = \"p3\" }, to = { node = \"b\", app = \"t3\", label = \"q3\" } },
]
%%
send p1 'hello
repeat w 0 3
tick 3
read q1
ledger d b
----
1 0 sent 1.0
2 0 ok
3 3 ok
4 3 got 2 'hello
5 3 off data 1.1.0 Duplicate 1.0
end 3
====
# The other end was freed: what comes for it is written off.
nodes = [\"a\", \"b\"]
[[wire]]
name = \"w\"
ends = [\"a\", \"b\"]
delay = 2
life = 10
largest = 1500
[[dif]]
name = \"d\"
rank = 1
static = true
pdu = 96
widths = { addr = 1, cep = 1, len = 2, seq = 2 }
queue = 64
policy = \"strict\"
wait = 500
manage = { mpl = 40, r = 30, a = 2, retry = 10, window = 8 }
cube = [
  { id = 1, kind = \"datagram\", mpl = 40, window = 16, largest = 80 },
  { id = 2, kind = \"loose\", mpl = 40, window = 16, largest = 240 },
  { id = 3, kind = \"reliable\", mpl = 40, r = 30, a = 2, retry = 10, window = 4, largest = 240 },
]
member = [ { node = \"a\", addr = 1 }, { node = \"b\", addr = 2 } ]
link = [ { on = \"w\", a = \"a\", b = \"b\" } ]
flow = [
  { cube = 1, from = { node = \"a\", app = \"s1\", label = \"p1\" }, to = { node = \"b\", app = \"t1\", label = \"q1\" } },
  { cube = 2, from = { node = \"a\", app = \"s2\", label = \"p2\" }, to = { node = \"b\", app = \"t2\", label = \"q2\" } },
  { cube = 3, from = { node = \"a\", app = \"s3\", label = \"p3\" }, to = { node = \"b\", app = \"t3\", label = \"q3\" } },
]
%%
free q1
send p1 'hello
tick 2
ledger d b
----
1 0 ok
1 0 state q1 closed
2 0 sent 1.0
3 2 state p1 closed
3 2 ok
4 2 off data 1.1.0 NoConnection 1
end 2
====
# Nobody reads: as many SDUs as the window wait, and the next one is written off.
nodes = [\"a\", \"b\"]
[[wire]]
name = \"w\"
ends = [\"a\", \"b\"]
delay = 2
life = 10
largest = 1500
[[dif]]
name = \"d\"
rank = 1
static = true
pdu = 96
widths = { addr = 1, cep = 1, len = 2, seq = 2 }
queue = 64
policy = \"strict\"
wait = 500
manage = { mpl = 40, r = 30, a = 2, retry = 10, window = 8 }
cube = [
  { id = 1, kind = \"datagram\", mpl = 40, window = 1, largest = 80 },
  { id = 2, kind = \"loose\", mpl = 40, window = 16, largest = 240 },
  { id = 3, kind = \"reliable\", mpl = 40, r = 30, a = 2, retry = 10, window = 4, largest = 240 },
]
member = [ { node = \"a\", addr = 1 }, { node = \"b\", addr = 2 } ]
link = [ { on = \"w\", a = \"a\", b = \"b\" } ]
flow = [
  { cube = 1, from = { node = \"a\", app = \"s1\", label = \"p1\" }, to = { node = \"b\", app = \"t1\", label = \"q1\" } },
  { cube = 2, from = { node = \"a\", app = \"s2\", label = \"p2\" }, to = { node = \"b\", app = \"t2\", label = \"q2\" } },
  { cube = 3, from = { node = \"a\", app = \"s3\", label = \"p3\" }, to = { node = \"b\", app = \"t3\", label = \"q3\" } },
]
%%
send p1 'a
send p1 'b
tick 2
ledger d b
read q1
send p1 'c
tick 2
read q1
----
1 0 sent 1.0
2 0 sent 1.1
3 2 ok
4 2 off data 1.1.1 NoRoom 1
5 2 got 2 'a
6 2 sent 1.2
7 4 ok
8 4 got 4 'c
end 4
====
# The queue of a relay is full: two PDUs come to b in one tick, and one place waits for the link to c.
rounds = \"manual\"
nodes = [\"a\", \"b\", \"c\"]
[[wire]]
name = \"w\"
ends = [\"a\", \"b\"]
delay = 2
life = 10
largest = 1500
[[wire]]
name = \"v\"
ends = [\"b\", \"c\"]
delay = 2
life = 10
largest = 1500
[[dif]]
name = \"d\"
rank = 1
static = true
pdu = 400
widths = { addr = 1, cep = 1, len = 2, seq = 2 }
queue = 1
policy = \"strict\"
wait = 500
manage = { mpl = 40, r = 30, a = 2, retry = 10, window = 8 }
cube = [
  { id = 1, kind = \"datagram\", mpl = 40, window = 16, largest = 80 },
  { id = 2, kind = \"loose\", mpl = 40, window = 16, largest = 240 },
  { id = 3, kind = \"reliable\", mpl = 40, r = 30, a = 2, retry = 10, window = 4, largest = 240 },
]
member = [ { node = \"a\", addr = 1 }, { node = \"b\", addr = 2 }, { node = \"c\", addr = 3 } ]
link = [ { on = \"w\", a = \"a\", b = \"b\" }, { on = \"v\", a = \"b\", b = \"c\" } ]
flow = [
  { cube = 1, from = { node = \"a\", app = \"s1\", label = \"p1\" }, to = { node = \"c\", app = \"t1\", label = \"q1\" } },
]
%%
send p1 'a
out d a 0
send p1 'b
out d a 0
tick 2
in d b 0
in d b 0
ledger d b
out d b 1
tick 2
in d c 0
read q1
----
1 0 sent 1.0
2 0 out data 1.1.0
3 0 sent 1.1
4 0 out data 1.1.1
5 2 ok
6 2 in data 1.1.0 relayed
7 2 in data 1.1.1 off QueueFull 1
8 2 off data 1.1.1 QueueFull 1
9 2 out data 1.1.0
10 4 ok
11 4 in data 1.1.0 accepted
12 4 got 4 'a
end 4
====
# The last piece of an SDU is lost: the others are held until the state of the receiver ends, 2 * mpl ticks after the last one came.
nodes = [\"a\", \"b\"]
[[wire]]
name = \"w\"
ends = [\"a\", \"b\"]
delay = 2
life = 10
largest = 1500
[[dif]]
name = \"d\"
rank = 1
static = true
pdu = 96
widths = { addr = 1, cep = 1, len = 2, seq = 2 }
queue = 64
policy = \"strict\"
wait = 500
manage = { mpl = 40, r = 30, a = 2, retry = 10, window = 8 }
cube = [
  { id = 1, kind = \"datagram\", mpl = 40, window = 16, largest = 80 },
  { id = 2, kind = \"loose\", mpl = 40, window = 16, largest = 240 },
  { id = 3, kind = \"reliable\", mpl = 40, r = 30, a = 2, retry = 10, window = 4, largest = 240 },
]
member = [ { node = \"a\", addr = 1 }, { node = \"b\", addr = 2 } ]
link = [ { on = \"w\", a = \"a\", b = \"b\" } ]
flow = [
  { cube = 1, from = { node = \"a\", app = \"s1\", label = \"p1\" }, to = { node = \"b\", app = \"t1\", label = \"q1\" } },
  { cube = 2, from = { node = \"a\", app = \"s2\", label = \"p2\" }, to = { node = \"b\", app = \"t2\", label = \"q2\" } },
  { cube = 3, from = { node = \"a\", app = \"s3\", label = \"p3\" }, to = { node = \"b\", app = \"t3\", label = \"q3\" } },
]
%%
send p2 z200
lose w 2
tick 2
ledger d b
tick 79
ledger d b
tick 1
ledger d b
----
1 0 sent 2.0
2 0 ok
3 2 ok
4 2 none
5 81 ok
6 81 none
7 82 ok
8 82 off data 1.2.0 StateGone 2
8 82 off data 1.2.1 StateGone 2
end 82
====
# Two of three SDUs are late. The cube is loose, in order with gaps: what comes behind a later SDU is written off,
# and the ledger of b says so.
nodes = [\"a\", \"b\"]
[[wire]]
name = \"w\"
ends = [\"a\", \"b\"]
delay = 2
life = 10
largest = 1500
[[dif]]
name = \"d\"
rank = 1
static = true
pdu = 96
widths = { addr = 1, cep = 1, len = 2, seq = 2 }
queue = 64
policy = \"strict\"
wait = 500
manage = { mpl = 40, r = 30, a = 2, retry = 10, window = 8 }
cube = [
  { id = 1, kind = \"datagram\", mpl = 40, window = 16, largest = 80 },
  { id = 2, kind = \"loose\", mpl = 40, window = 16, largest = 240 },
  { id = 3, kind = \"reliable\", mpl = 40, r = 30, a = 2, retry = 10, window = 4, largest = 240 },
]
member = [ { node = \"a\", addr = 1 }, { node = \"b\", addr = 2 } ]
link = [ { on = \"w\", a = \"a\", b = \"b\" } ]
flow = [
  { cube = 1, from = { node = \"a\", app = \"s1\", label = \"p1\" }, to = { node = \"b\", app = \"t1\", label = \"q1\" } },
  { cube = 2, from = { node = \"a\", app = \"s2\", label = \"p2\" }, to = { node = \"b\", app = \"t2\", label = \"q2\" } },
  { cube = 3, from = { node = \"a\", app = \"s3\", label = \"p3\" }, to = { node = \"b\", app = \"t3\", label = \"q3\" } },
]
%%
send p2 'a
send p2 'b
send p2 'c
hold w 0 3
hold w 1 4
tick 12
read q2
ledger d b
----
1 0 sent 2.0
2 0 sent 2.1
3 0 sent 2.2
4 0 ok
5 0 ok
6 12 ok
7 12 got 2 'c
8 12 off data 1.2.0 Behind 2
8 12 off data 1.2.1 Behind 2
end 12
====
# A DIF that is not static. Its first member is enrolled and is published on the wire; the other one is outside, and no application has a place there.
nodes = [\"a\", \"b\"]
[[wire]]
name = \"w\"
ends = [\"a\", \"b\"]
delay = 2
life = 10
largest = 1500
[[dif]]
name = \"d\"
rank = 1
pdu = 400
widths = { addr = 1, cep = 1, len = 2, seq = 2 }
queue = 64
policy = \"strict\"
wait = 500
manage = { mpl = 40, r = 30, a = 2, retry = 10, window = 8 }
cube = [ { id = 1, kind = \"datagram\", mpl = 40, window = 16, largest = 80 } ]
member = [ { node = \"a\", addr = 1 }, { node = \"b\", addr = 2 } ]
%%
member d a
member d b
publish d a w
publish d a w
register d a echo
rib d a /dir
register d b echo
rib d b
----
1 0 ok enrolled
2 0 ok outside
3 0 ok
4 0 no Already
5 0 ok
6 0 obj /dir folder x
6 0 obj /dir/echo value '1
7 0 no NoMember
8 0 obj / folder x
8 0 obj /cube folder x
8 0 obj /cube/1 cube 'datagram
8 0 obj /dir folder x
8 0 obj /flow folder x
8 0 obj /link folder x
8 0 obj /member folder x
8 0 obj /user folder x
end 0
====
# The policy `last` sends the PDU of the last cube first. It is retired then, and the first place is taken.
nodes = [\"a\", \"b\"]
rounds = \"manual\"
[[wire]]
name = \"w\"
ends = [\"a\", \"b\"]
delay = 2
life = 10
largest = 1500
[[dif]]
name = \"d\"
rank = 1
static = true
pdu = 96
widths = { addr = 1, cep = 1, len = 2, seq = 2 }
queue = 64
policy = \"last\"
wait = 500
manage = { mpl = 40, r = 30, a = 2, retry = 10, window = 8 }
cube = [
  { id = 1, kind = \"datagram\", mpl = 40, window = 16, largest = 80 },
  { id = 2, kind = \"loose\", mpl = 40, window = 16, largest = 240 },
  { id = 3, kind = \"reliable\", mpl = 40, r = 30, a = 2, retry = 10, window = 4, largest = 240 },
]
member = [ { node = \"a\", addr = 1 }, { node = \"b\", addr = 2 } ]
link = [ { on = \"w\", a = \"a\", b = \"b\" } ]
flow = [
  { cube = 1, from = { node = \"a\", app = \"s1\", label = \"p1\" }, to = { node = \"b\", app = \"t1\", label = \"q1\" } },
  { cube = 2, from = { node = \"a\", app = \"s2\", label = \"p2\" }, to = { node = \"b\", app = \"t2\", label = \"q2\" } },
  { cube = 3, from = { node = \"a\", app = \"s3\", label = \"p3\" }, to = { node = \"b\", app = \"t3\", label = \"q3\" } },
]
%%
send p1 'a
send p1 'b
send p2 'c
send p2 'd
out d a 0
retire last
out d a 0
out d a 0
out d a 0
out d a 0
tick 2
in d b 0
read q2
----
1 0 sent 1.0
2 0 sent 1.1
3 0 sent 2.0
4 0 sent 2.1
5 0 out data 1.2.0
6 0 ok
7 0 out data 1.1.0
8 0 out data 1.1.1
9 0 out data 1.2.1
10 0 idle
11 2 ok
12 2 in data 1.2.0 accepted
13 2 got 2 'c
end 2
====
# The policy `strict` on the same traffic as in policy-last: the PDU of the first cube goes first, in the order of the
# cubes' ids. Retired or not, it picks the first place.
nodes = [\"a\", \"b\"]
rounds = \"manual\"
[[wire]]
name = \"w\"
ends = [\"a\", \"b\"]
delay = 2
life = 10
largest = 1500
[[dif]]
name = \"d\"
rank = 1
static = true
pdu = 96
widths = { addr = 1, cep = 1, len = 2, seq = 2 }
queue = 64
policy = \"strict\"
wait = 500
manage = { mpl = 40, r = 30, a = 2, retry = 10, window = 8 }
cube = [
  { id = 1, kind = \"datagram\", mpl = 40, window = 16, largest = 80 },
  { id = 2, kind = \"loose\", mpl = 40, window = 16, largest = 240 },
  { id = 3, kind = \"reliable\", mpl = 40, r = 30, a = 2, retry = 10, window = 4, largest = 240 },
]
member = [ { node = \"a\", addr = 1 }, { node = \"b\", addr = 2 } ]
link = [ { on = \"w\", a = \"a\", b = \"b\" } ]
flow = [
  { cube = 1, from = { node = \"a\", app = \"s1\", label = \"p1\" }, to = { node = \"b\", app = \"t1\", label = \"q1\" } },
  { cube = 2, from = { node = \"a\", app = \"s2\", label = \"p2\" }, to = { node = \"b\", app = \"t2\", label = \"q2\" } },
  { cube = 3, from = { node = \"a\", app = \"s3\", label = \"p3\" }, to = { node = \"b\", app = \"t3\", label = \"q3\" } },
]
%%
send p1 'a
send p1 'b
send p2 'c
send p2 'd
out d a 0
retire strict
out d a 0
out d a 0
out d a 0
out d a 0
tick 2
in d b 0
read q2
----
1 0 sent 1.0
2 0 sent 1.1
3 0 sent 2.0
4 0 sent 2.1
5 0 out data 1.1.0
6 0 ok
7 0 out data 1.1.1
8 0 out data 1.2.0
9 0 out data 1.2.1
10 0 idle
11 2 ok
12 2 in data 1.1.0 accepted
13 2 none
end 2
====
# Six SDUs for a queue of five. A step says that nothing waits, or that there is no such link.
nodes = [\"a\", \"b\"]
rounds = \"manual\"
[[wire]]
name = \"w\"
ends = [\"a\", \"b\"]
delay = 2
life = 10
largest = 1500
[[dif]]
name = \"d\"
rank = 1
static = true
pdu = 96
widths = { addr = 1, cep = 1, len = 2, seq = 2 }
queue = 5
policy = \"strict\"
wait = 500
manage = { mpl = 40, r = 30, a = 2, retry = 10, window = 8 }
cube = [
  { id = 1, kind = \"datagram\", mpl = 40, window = 16, largest = 80 },
]
member = [ { node = \"a\", addr = 1 }, { node = \"b\", addr = 2 } ]
link = [ { on = \"w\", a = \"a\", b = \"b\" } ]
flow = [
  { cube = 1, from = { node = \"a\", app = \"s1\", label = \"p1\" }, to = { node = \"b\", app = \"t1\", label = \"q1\" } },
]
%%
send p1 'a
send p1 'a
send p1 'a
send p1 'a
send p1 'a
send p1 'a
in d b 0
in d b 1
clock d a
----
1 0 sent 1.0
2 0 sent 1.1
3 0 sent 1.2
4 0 sent 1.3
5 0 sent 1.4
6 0 no QueueFull 1 0
7 0 idle
8 0 no NoLink
9 0 idle
end 0
";
