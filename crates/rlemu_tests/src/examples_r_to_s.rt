//! The examples from r to s, each an input, a line `----`, and what it writes; a line `====` parts them. Written by
//! `bin/examples-as-tests` from the folder examples/.

pub(crate) static EXAMPLES_R_TO_S: &str = "\
# What a wire refuses, and how a flow is closed.
nodes = [\"a\", \"b\"]
[[wire]]
name = \"w\"
ends = [\"a\", \"b\"]
delay = 2
life = 10
largest = 1500
%%
register w b echo
register w b echo
alloc p w a ping echo
alloc r w a ping echo
alloc r w a ping echo ordered
unregister w a echo
free p
send p 'x
----
1 0 ok
2 0 no Already
3 0 ok allocated
4 0 no Busy w/a/1
5 0 no NoCube
6 0 no NotThere
7 0 ok
7 0 state p closed
8 0 no NotAllocated closed
end 0
====
# An SDU that was refused was not sent: too long, a window that is shut, an end that was freed.
nodes = [\"a\", \"b\"]
[[wire]]
name = \"w\"
ends = [\"a\", \"b\"]
delay = 2
life = 10
largest = 1500
[[dif]]
name = \"d\"
rank = 1
static = true
pdu = 96
widths = { addr = 1, cep = 1, len = 2, seq = 2 }
queue = 64
policy = \"strict\"
wait = 500
manage = { mpl = 40, r = 30, a = 2, retry = 10, window = 8 }
cube = [
  { id = 1, kind = \"datagram\", mpl = 40, window = 16, largest = 80 },
  { id = 2, kind = \"loose\", mpl = 40, window = 16, largest = 240 },
  { id = 3, kind = \"reliable\", mpl = 40, r = 30, a = 2, retry = 10, window = 4, largest = 240 },
]
member = [ { node = \"a\", addr = 1 }, { node = \"b\", addr = 2 } ]
link = [ { on = \"w\", a = \"a\", b = \"b\" } ]
flow = [
  { cube = 1, from = { node = \"a\", app = \"s1\", label = \"p1\" }, to = { node = \"b\", app = \"t1\", label = \"q1\" } },
  { cube = 2, from = { node = \"a\", app = \"s2\", label = \"p2\" }, to = { node = \"b\", app = \"t2\", label = \"q2\" } },
  { cube = 3, from = { node = \"a\", app = \"s3\", label = \"p3\" }, to = { node = \"b\", app = \"t3\", label = \"q3\" } },
]
%%
send p1 z81
send p3 'a
send p3 'b
send p3 'c
send p3 z160
send p3 'd
tick 6
send p3 'e
read q3
tick 4
send p3 'e
free p1
send p1 'x
----
1 0 no TooLong 81 80
2 0 sent 3.0
3 0 sent 3.1
4 0 sent 3.2
5 0 no WindowShut 2 1
6 0 sent 3.3
7 6 ok
8 6 no WindowShut 1 0
9 6 got 2 'a
9 6 got 2 'b
9 6 got 2 'c
9 6 got 2 'd
10 10 ok
11 10 sent 3.4
12 10 ok
12 10 state p1 closed
13 10 no NotAllocated closed
end 10
====
# The same three SDUs and the same delays. The cube is reliable: all come, in order. What came first without the flag
# that begins a run is written off, and is sent again at tick 10.
nodes = [\"a\", \"b\"]
[[wire]]
name = \"w\"
ends = [\"a\", \"b\"]
delay = 2
life = 10
largest = 1500
[[dif]]
name = \"d\"
rank = 1
static = true
pdu = 96
widths = { addr = 1, cep = 1, len = 2, seq = 2 }
queue = 64
policy = \"strict\"
wait = 500
manage = { mpl = 40, r = 30, a = 2, retry = 10, window = 8 }
cube = [
  { id = 1, kind = \"datagram\", mpl = 40, window = 16, largest = 80 },
  { id = 2, kind = \"loose\", mpl = 40, window = 16, largest = 240 },
  { id = 3, kind = \"reliable\", mpl = 40, r = 30, a = 2, retry = 10, window = 4, largest = 240 },
]
member = [ { node = \"a\", addr = 1 }, { node = \"b\", addr = 2 } ]
link = [ { on = \"w\", a = \"a\", b = \"b\" } ]
flow = [
  { cube = 1, from = { node = \"a\", app = \"s1\", label = \"p1\" }, to = { node = \"b\", app = \"t1\", label = \"q1\" } },
  { cube = 2, from = { node = \"a\", app = \"s2\", label = \"p2\" }, to = { node = \"b\", app = \"t2\", label = \"q2\" } },
  { cube = 3, from = { node = \"a\", app = \"s3\", label = \"p3\" }, to = { node = \"b\", app = \"t3\", label = \"q3\" } },
]
%%
send p3 'a
send p3 'b
send p3 'c
hold w 0 3
hold w 1 4
tick 12
read q3
ledger d b
----
1 0 sent 3.0
2 0 sent 3.1
3 0 sent 3.2
4 0 ok
5 0 ok
6 12 ok
7 12 got 3 'a
7 12 got 4 'b
7 12 got 12 'c
8 12 off data 1.3.2 NoState 0
end 12
====
# Copies of one frame arrive on their own, each within the life of the wire.
nodes = [\"a\", \"b\"]
[[wire]]
name = \"w\"
ends = [\"a\", \"b\"]
delay = 2
life = 10
largest = 1500
%%
register w b echo
alloc p w a ping echo
accept q w b echo
send p 'hello
repeat w 0 2
repeat w 0 3
repeat w 0 4
tick 4
read q
----
1 0 ok
2 0 ok allocated
3 0 ok allocated
4 0 sent 0.0
5 0 ok
6 0 ok
7 0 ok
8 4 ok
9 4 got 2 'hello
9 4 got 2 'hello
9 4 got 3 'hello
9 4 got 4 'hello
end 4
====
# A ring of four systems and four ranks. The cut sends traffic the other way, and no flow fails.
nodes = [\"a\", \"b\", \"c\", \"d\"]
[[wire]]
name = \"ab\"
ends = [\"a\", \"b\"]
delay = 2
life = 10
largest = 1500
[[wire]]
name = \"bd\"
ends = [\"b\", \"d\"]
delay = 2
life = 10
largest = 1500
[[wire]]
name = \"ac\"
ends = [\"a\", \"c\"]
delay = 2
life = 10
largest = 1500
[[wire]]
name = \"cd\"
ends = [\"c\", \"d\"]
delay = 2
life = 10
largest = 1500
[[dif]]
name = \"d1\"
rank = 1
static = true
pdu = 104
widths = { addr = 1, cep = 1, len = 2, seq = 2 }
queue = 64
policy = \"strict\"
wait = 500
manage = { mpl = 40, r = 30, a = 2, retry = 10, window = 8 }
cube = [ { id = 1, kind = \"datagram\", mpl = 40, window = 16, largest = 88 } ]
member = [ { node = \"a\", addr = 1 }, { node = \"b\", addr = 2 }, { node = \"c\", addr = 3 }, { node = \"d\", addr = 4 } ]
link = [ { on = \"ab\", a = \"a\", b = \"b\" }, { on = \"bd\", a = \"b\", b = \"d\" }, { on = \"ac\", a = \"a\", b = \"c\" }, { on = \"cd\", a = \"c\", b = \"d\" } ]
[[dif]]
name = \"d2\"
rank = 2
static = true
pdu = 88
widths = { addr = 1, cep = 1, len = 2, seq = 2 }
queue = 64
policy = \"strict\"
wait = 500
manage = { mpl = 60, r = 30, a = 2, retry = 10, window = 8 }
cube = [ { id = 1, kind = \"datagram\", mpl = 60, window = 16, largest = 72 } ]
member = [ { node = \"a\", addr = 1 }, { node = \"d\", addr = 2 } ]
link = [ { on = \"d1\", a = \"a\", b = \"d\", cube = 1 } ]
[[dif]]
name = \"d3\"
rank = 3
static = true
pdu = 72
widths = { addr = 1, cep = 1, len = 2, seq = 2 }
queue = 64
policy = \"strict\"
wait = 500
manage = { mpl = 80, r = 30, a = 2, retry = 10, window = 8 }
cube = [ { id = 1, kind = \"datagram\", mpl = 80, window = 16, largest = 56 } ]
member = [ { node = \"a\", addr = 1 }, { node = \"d\", addr = 2 } ]
link = [ { on = \"d2\", a = \"a\", b = \"d\", cube = 1 } ]
[[dif]]
name = \"d4\"
rank = 4
static = true
pdu = 56
widths = { addr = 1, cep = 1, len = 2, seq = 2 }
queue = 64
policy = \"strict\"
wait = 500
manage = { mpl = 100, r = 30, a = 2, retry = 10, window = 16 }
cube = [ { id = 1, kind = \"reliable\", mpl = 100, r = 30, a = 2, retry = 10, window = 4, largest = 40 } ]
member = [ { node = \"a\", addr = 1 }, { node = \"d\", addr = 2 } ]
link = [ { on = \"d3\", a = \"a\", b = \"d\", cube = 1 } ]
flow = [ { cube = 1, from = { node = \"a\", app = \"s\", label = \"p\" }, to = { node = \"d\", app = \"t\", label = \"q\" } } ]
%%
send p 'one
tick 4
read q
cut ab
send p 'two
tick 4
read q
----
1 0 sent 1.0
2 4 ok
3 4 got 4 'one
4 4 ok
5 4 sent 1.1
6 8 ok
7 8 got 8 'two
end 8
====
# The schedule writes every step: until each is written the SDU waits, at one rank or another.
rounds = \"manual\"
nodes = [\"a\", \"b\", \"c\"]

[[wire]]
name = \"w1\"
ends = [\"a\", \"b\"]
delay = 2
life = 10
largest = 1500

[[wire]]
name = \"w2\"
ends = [\"b\", \"c\"]
delay = 3
life = 12
largest = 1400

[[dif]]
name = \"d1\"
rank = 1
static = true
pdu = 96
widths = { addr = 1, cep = 1, len = 2, seq = 2 }
queue = 32
policy = \"strict\"
wait = 500
manage = { mpl = 40, r = 30, a = 2, retry = 10, window = 8 }
cube = [
  { id = 1, kind = \"datagram\", mpl = 44, window = 16, largest = 80 },
  { id = 2, kind = \"reliable\", mpl = 44, window = 4, largest = 240, r = 60, a = 3, retry = 20 },
]
member = [
  { node = \"a\", addr = 1 },
  { node = \"b\", addr = 2 },
  { node = \"c\", addr = 3 },
]
link = [
  { on = \"w1\", a = \"a\", b = \"b\" },
  { on = \"w2\", a = \"b\", b = \"c\" },
]
flow = [
  { cube = 2, from = { node = \"a\", app = \"s1\", label = \"p1\" }, to = { node = \"b\", app = \"t1\", label = \"q1\" } },
]

[[dif]]
name = \"d2\"
rank = 2
static = true
pdu = 80
widths = { addr = 1, cep = 1, len = 2, seq = 2 }
queue = 64
policy = \"round\"
wait = 501
manage = { mpl = 64, r = 31, a = 4, retry = 11, window = 9 }
cube = [
  { id = 3, kind = \"datagram\", mpl = 64, window = 16, largest = 64 },
]
member = [
  { node = \"a\", addr = 11 },
  { node = \"c\", addr = 13 },
]
link = [
  { on = \"d1\", a = \"a\", b = \"c\", cube = 1 },
]
flow = [
  { cube = 3, from = { node = \"a\", app = \"s2\", label = \"p2\" }, to = { node = \"c\", app = \"t2\", label = \"q2\" } },
]
%%
send p2 'hello
read q2
ledger d2 a
out d2 a 0
out d2 a 0
read q2
out d1 a 0
tick 2
in d1 b 0
out d1 b 1
tick 3
in d1 c 0
in d2 c 0
read q2
----
1 0 sent 1.0
2 0 none
3 0 none
4 0 out data 11.1.0
5 0 idle
6 0 none
7 0 out data 1.1.0
8 2 ok
9 2 in data 1.1.0 relayed
10 2 out data 1.1.0
11 5 ok
12 5 in data 1.1.0 accepted
13 5 in data 11.1.0 accepted
14 5 got 5 'hello
end 5
====
# A storm loses 5 of 100 frames. From this seed it is the second frame of the wire, with 'b, and none of the next ten. The
# cube is reliable: 'b is sent again at tick 10, and all come, in order.
nodes = [\"a\", \"b\"]
[[wire]]
name = \"w\"
ends = [\"a\", \"b\"]
delay = 2
life = 10
largest = 1500
storm = { seed = 38, lose = 50, repeat = 0, spread = 0 }
[[dif]]
name = \"d\"
rank = 1
static = true
pdu = 96
widths = { addr = 1, cep = 1, len = 2, seq = 2 }
queue = 64
policy = \"strict\"
wait = 500
manage = { mpl = 40, r = 30, a = 2, retry = 10, window = 8 }
cube = [
  { id = 1, kind = \"datagram\", mpl = 40, window = 16, largest = 80 },
  { id = 2, kind = \"loose\", mpl = 40, window = 16, largest = 240 },
  { id = 3, kind = \"reliable\", mpl = 40, r = 30, a = 2, retry = 10, window = 4, largest = 240 },
]
member = [ { node = \"a\", addr = 1 }, { node = \"b\", addr = 2 } ]
link = [ { on = \"w\", a = \"a\", b = \"b\" } ]
flow = [
  { cube = 1, from = { node = \"a\", app = \"s1\", label = \"p1\" }, to = { node = \"b\", app = \"t1\", label = \"q1\" } },
  { cube = 2, from = { node = \"a\", app = \"s2\", label = \"p2\" }, to = { node = \"b\", app = \"t2\", label = \"q2\" } },
  { cube = 3, from = { node = \"a\", app = \"s3\", label = \"p3\" }, to = { node = \"b\", app = \"t3\", label = \"q3\" } },
]
%%
send p3 'a
send p3 'b
send p3 'c
tick 12
read q3
ledger d b
----
1 0 sent 3.0
2 0 sent 3.1
3 0 sent 3.2
4 12 ok
5 12 got 2 'a
5 12 got 12 'b
5 12 got 12 'c
6 12 off data 1.3.2 Duplicate 3.2
end 12
";
