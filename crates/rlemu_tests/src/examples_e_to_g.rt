//! The examples from e to g, each an input, a line `----`, and what it writes; a line `====` parts them. Written by
//! `bin/examples-as-tests` from the folder examples/.

pub(crate) static EXAMPLES_E_TO_G: &str = "\
# One tick more: the SDU waited 21 ticks at b, its lifetime in d2 was 20, and it is written off with both numbers.
nodes = [\"a\", \"b\"]
rounds = \"manual\"
[[wire]]
name = \"w\"
ends = [\"a\", \"b\"]
delay = 2
life = 10
largest = 1500
[[dif]]
name = \"d1\"
rank = 1
static = true
pdu = 96
widths = { addr = 1, cep = 1, len = 2, seq = 2 }
queue = 64
policy = \"strict\"
wait = 500
manage = { mpl = 40, r = 30, a = 2, retry = 10, window = 8 }
cube = [ { id = 1, kind = \"datagram\", mpl = 40, window = 16, largest = 80 } ]
member = [ { node = \"a\", addr = 1 }, { node = \"b\", addr = 2 } ]
link = [ { on = \"w\", a = \"a\", b = \"b\" } ]
[[dif]]
name = \"d2\"
rank = 2
static = true
pdu = 80
widths = { addr = 1, cep = 1, len = 2, seq = 2 }
queue = 64
policy = \"strict\"
wait = 500
manage = { mpl = 60, r = 30, a = 2, retry = 10, window = 8 }
cube = [ { id = 1, kind = \"datagram\", mpl = 60, window = 16, largest = 64 } ]
member = [ { node = \"a\", addr = 1 }, { node = \"b\", addr = 2 } ]
link = [ { on = \"d1\", a = \"a\", b = \"b\", cube = 1 } ]
[[dif]]
name = \"d3\"
rank = 3
static = true
pdu = 64
widths = { addr = 1, cep = 1, len = 2, seq = 2 }
queue = 64
policy = \"strict\"
wait = 500
manage = { mpl = 80, r = 30, a = 2, retry = 10, window = 8 }
cube = [ { id = 1, kind = \"datagram\", mpl = 80, window = 16, largest = 48 } ]
member = [ { node = \"a\", addr = 1 }, { node = \"b\", addr = 2 } ]
link = [ { on = \"d2\", a = \"a\", b = \"b\", cube = 1 } ]
flow = [ { cube = 1, from = { node = \"a\", app = \"s\", label = \"p\" }, to = { node = \"b\", app = \"t\", label = \"q\" } } ]
%%
send p 'up
out d3 a 0
out d2 a 0
out d1 a 0
tick 2
in d1 b 0
tick 21
in d2 b 0
in d3 b 0
read q
----
1 0 sent 1.0
2 0 out data 1.1.0
3 0 out data 1.1.0
4 0 out data 1.1.0
5 2 ok
6 2 in data 1.1.0 accepted
7 23 ok
8 23 in data 1.1.0 off Expired 20 21
9 23 idle
10 23 none
end 23
====
# The wire is cut under a flow, which fails at both ends; once it is mended it may be asked for again.
nodes = [\"a\", \"b\"]
[[wire]]
name = \"w\"
ends = [\"a\", \"b\"]
delay = 2
life = 10
largest = 1500
%%
register w b echo
alloc p w a ping echo
accept q w b echo
send p 'hello
cut w
tick 2
read q
send p 'again
mend w
alloc p2 w a ping echo
accept q2 w b echo
send p2 'hello
tick 2
read q2
----
1 0 ok
2 0 ok allocated
3 0 ok allocated
4 0 sent 0.0
5 0 ok
5 0 state p failed Cut 0
5 0 state q failed Cut 0
6 2 ok
7 2 none
8 2 no Failed Cut 0
9 2 ok
10 2 ok allocated
11 2 ok allocated
12 2 sent 0.1
13 4 ok
14 4 got 4 'hello
end 4
====
# A ring. The cut is two hops away. What was sent before a hears of it comes back from b and goes on by c; what is sent later goes by c at once.
nodes = [\"a\", \"b\", \"c\", \"d\"]
[[wire]]
name = \"ab\"
ends = [\"a\", \"b\"]
delay = 2
life = 10
largest = 1500
[[wire]]
name = \"bd\"
ends = [\"b\", \"d\"]
delay = 2
life = 10
largest = 1500
[[wire]]
name = \"ac\"
ends = [\"a\", \"c\"]
delay = 2
life = 10
largest = 1500
[[wire]]
name = \"cd\"
ends = [\"c\", \"d\"]
delay = 2
life = 10
largest = 1500
[[dif]]
name = \"net\"
rank = 1
static = true
pdu = 96
widths = { addr = 1, cep = 1, len = 2, seq = 2 }
queue = 64
policy = \"strict\"
wait = 500
manage = { mpl = 40, r = 30, a = 2, retry = 10, window = 8 }
cube = [ { id = 1, kind = \"datagram\", mpl = 40, window = 16, largest = 80 } ]
member = [ { node = \"a\", addr = 1 }, { node = \"b\", addr = 2 }, { node = \"c\", addr = 3 }, { node = \"d\", addr = 4 } ]
link = [ { on = \"ab\", a = \"a\", b = \"b\" }, { on = \"bd\", a = \"b\", b = \"d\" }, { on = \"ac\", a = \"a\", b = \"c\" }, { on = \"cd\", a = \"c\", b = \"d\" } ]
flow = [ { cube = 1, from = { node = \"a\", app = \"s\", label = \"p\" }, to = { node = \"d\", app = \"t\", label = \"q\" } } ]
%%
send p 'one
tick 4
read q
cut bd
send p 'two
tick 4
read q
tick 4
read q
send p 'three
tick 4
read q
----
1 0 sent 1.0
2 4 ok
3 4 got 4 'one
4 4 ok
5 4 sent 1.1
6 8 ok
7 8 none
8 12 ok
9 12 got 12 'two
10 12 sent 1.2
11 16 ok
12 16 got 16 'three
end 16
====
# Nothing was sent for 216 ticks: the sender has forgotten its connection, and begins again at number 0.
nodes = [\"a\", \"b\"]
[[wire]]
name = \"w\"
ends = [\"a\", \"b\"]
delay = 2
life = 10
largest = 1500
[[dif]]
name = \"d\"
rank = 1
static = true
pdu = 96
widths = { addr = 1, cep = 1, len = 2, seq = 2 }
queue = 64
policy = \"strict\"
wait = 500
manage = { mpl = 40, r = 30, a = 2, retry = 10, window = 8 }
cube = [
  { id = 1, kind = \"datagram\", mpl = 40, window = 16, largest = 80 },
  { id = 2, kind = \"loose\", mpl = 40, window = 16, largest = 240 },
  { id = 3, kind = \"reliable\", mpl = 40, r = 30, a = 2, retry = 10, window = 4, largest = 240 },
]
member = [ { node = \"a\", addr = 1 }, { node = \"b\", addr = 2 } ]
link = [ { on = \"w\", a = \"a\", b = \"b\" } ]
flow = [
  { cube = 1, from = { node = \"a\", app = \"s1\", label = \"p1\" }, to = { node = \"b\", app = \"t1\", label = \"q1\" } },
  { cube = 2, from = { node = \"a\", app = \"s2\", label = \"p2\" }, to = { node = \"b\", app = \"t2\", label = \"q2\" } },
  { cube = 3, from = { node = \"a\", app = \"s3\", label = \"p3\" }, to = { node = \"b\", app = \"t3\", label = \"q3\" } },
]
%%
send p3 'a
tick 216
send p3 'b
----
1 0 sent 3.0
2 216 ok
3 216 sent 3.0
end 216
====
# Each copy of a number is lost. At tick 112 its flow fails, and says for which number.
nodes = [\"a\", \"b\"]
[[wire]]
name = \"w\"
ends = [\"a\", \"b\"]
delay = 2
life = 10
largest = 1500
[[dif]]
name = \"d\"
rank = 1
static = true
pdu = 96
widths = { addr = 1, cep = 1, len = 2, seq = 2 }
queue = 64
policy = \"strict\"
wait = 500
manage = { mpl = 40, r = 30, a = 2, retry = 10, window = 8 }
cube = [
  { id = 1, kind = \"datagram\", mpl = 40, window = 16, largest = 80 },
  { id = 2, kind = \"loose\", mpl = 40, window = 16, largest = 240 },
  { id = 3, kind = \"reliable\", mpl = 40, r = 30, a = 2, retry = 10, window = 4, largest = 240 },
]
member = [ { node = \"a\", addr = 1 }, { node = \"b\", addr = 2 } ]
link = [ { on = \"w\", a = \"a\", b = \"b\" } ]
flow = [
  { cube = 1, from = { node = \"a\", app = \"s1\", label = \"p1\" }, to = { node = \"b\", app = \"t1\", label = \"q1\" } },
  { cube = 2, from = { node = \"a\", app = \"s2\", label = \"p2\" }, to = { node = \"b\", app = \"t2\", label = \"q2\" } },
  { cube = 3, from = { node = \"a\", app = \"s3\", label = \"p3\" }, to = { node = \"b\", app = \"t3\", label = \"q3\" } },
]
%%
send p3 'a
lose w 0
tick 10
lose w 1
tick 10
lose w 2
tick 10
lose w 3
tick 81
tick 1
send p3 'b
----
1 0 sent 3.0
2 0 ok
3 10 ok
4 10 ok
5 20 ok
6 20 ok
7 30 ok
8 30 ok
9 111 ok
10 112 state p3 failed GaveUp 3.0 0 112
10 112 ok
11 112 no Failed GaveUp 3.0 0 112
end 112
====
# A DIF that grows. Its first member, a, is enrolled from the start. b asks to enrol at a over the wire w1, then c at b over w2, where a frame is lost.
nodes = [\"a\", \"b\", \"c\"]
[[wire]]
name = \"w1\"
ends = [\"a\", \"b\"]
delay = 2
life = 10
largest = 1500
[[wire]]
name = \"w2\"
ends = [\"b\", \"c\"]
delay = 2
life = 10
largest = 1500
[[dif]]
name = \"d\"
rank = 1
pdu = 400
widths = { addr = 1, cep = 1, len = 2, seq = 2 }
queue = 64
policy = \"strict\"
wait = 500
manage = { mpl = 40, r = 30, a = 2, retry = 10, window = 8 }
cube = [ { id = 1, kind = \"datagram\", mpl = 40, window = 16, largest = 80 } ]
member = [ { node = \"a\", addr = 1 }, { node = \"b\", addr = 2 }, { node = \"c\", addr = 3 } ]
%%
# b is outside: it knows nobody, and no application has a place there.
member d b
register d b echo
# The IPC process of a is registered on w1, as `d/a`. b asks for a flow to it, takes that as its link 0, and joins there.
publish d a w1
enrol d b w1 a
member d b
# CONNECT, CONNECT_R, START: each takes 2 ticks, the delay of w1. So do START_R, what a knows, and STOP, behind which b is enrolled.
tick 7
member d b
tick 1
member d b
# 2 ticks later a knows what b made: its member item, and its link state.
tick 2
rib d a /member
rib d a /link
# c enrols at b. The first frame of w2, CONNECT, is lost, and sent again 10 ticks later: that is `retry` of `manage`.
publish d b w2
enrol d c w2 b
lose w2 0
tick 17
member d c
tick 1
member d c
# What is registered at c is told to b, and by b to a. The window of `manage` lets it leave once b has acknowledged START, 2 ticks later.
register d c echo
tick 5
rib d a /dir
tick 1
rib d a /dir
# All three know the same members and links.
rib d a /link
rib d c /link
rib d c /member
----
2 0 ok outside
3 0 no NoMember
5 0 ok
6 0 ok
7 0 ok joining 0
9 7 ok
10 7 ok joining 0
11 8 ok
12 8 ok enrolled
14 10 ok
15 10 obj /member folder x
15 10 obj /member/1 value 'a
15 10 obj /member/2 value 'b
16 10 obj /link folder x
16 10 obj /link/1 value '2:1
16 10 obj /link/2 value '1:1
18 10 ok
19 10 ok
20 10 ok
21 27 ok
22 27 ok joining 0
23 28 ok
24 28 ok enrolled
26 28 ok
27 33 ok
28 33 obj /dir folder x
29 34 ok
30 34 obj /dir folder x
30 34 obj /dir/echo value '3
32 34 obj /link folder x
32 34 obj /link/1 value '2:1
32 34 obj /link/2 value '1:1,3:1
32 34 obj /link/3 value '2:1
33 34 obj /link folder x
33 34 obj /link/1 value '2:1
33 34 obj /link/2 value '1:1,3:1
33 34 obj /link/3 value '2:1
34 34 obj /member folder x
34 34 obj /member/1 value 'a
34 34 obj /member/2 value 'b
34 34 obj /member/3 value 'c
end 34
";
