//! The examples from h to l, each an input, a line `----`, and what it writes; a line `====` parts them. Written by
//! `bin/examples-as-tests` from the folder examples/.

pub(crate) static EXAMPLES_H_TO_L: &str = "\
# A ring of eight that two cuts part, and that heals. While it is parted each part makes directory entries and deletes one that both had. Then both wires are mended, two
# members enrol across them, and each gets a further link. What one part did is flooded to the other, the deletions among it. After that all eight keep the same entries and link
# states, and an SDU goes the short way again. The names of n2 and n6 stand on their wires from the start, since the stack bound links there.
nodes = [\"n1\", \"n2\", \"n3\", \"n4\", \"n5\", \"n6\", \"n7\", \"n8\"]
wire = [
  { name = \"w1\", ends = [\"n1\", \"n2\"], delay = 1, life = 10, largest = 1500 },
  { name = \"w2\", ends = [\"n2\", \"n3\"], delay = 1, life = 10, largest = 1500 },
  { name = \"w3\", ends = [\"n3\", \"n4\"], delay = 1, life = 10, largest = 1500 },
  { name = \"w4\", ends = [\"n4\", \"n5\"], delay = 1, life = 10, largest = 1500 },
  { name = \"w5\", ends = [\"n5\", \"n6\"], delay = 1, life = 10, largest = 1500 },
  { name = \"w6\", ends = [\"n6\", \"n7\"], delay = 1, life = 10, largest = 1500 },
  { name = \"w7\", ends = [\"n7\", \"n8\"], delay = 1, life = 10, largest = 1500 },
  { name = \"w8\", ends = [\"n8\", \"n1\"], delay = 1, life = 10, largest = 1500 },
]
[[dif]]
name = \"net\"
rank = 1
static = true
pdu = 400
widths = { addr = 1, cep = 1, len = 2, seq = 2 }
queue = 64
policy = \"strict\"
wait = 500
manage = { mpl = 40, r = 30, a = 2, retry = 10, window = 8 }
cube = [ { id = 1, kind = \"datagram\", mpl = 40, window = 16, largest = 80 } ]
member = [
  { node = \"n1\", addr = 1 }, { node = \"n2\", addr = 2 }, { node = \"n3\", addr = 3 }, { node = \"n4\", addr = 4 },
  { node = \"n5\", addr = 5 }, { node = \"n6\", addr = 6 }, { node = \"n7\", addr = 7 }, { node = \"n8\", addr = 8 },
]
link = [
  { on = \"w1\", a = \"n1\", b = \"n2\" }, { on = \"w2\", a = \"n2\", b = \"n3\" }, { on = \"w3\", a = \"n3\", b = \"n4\" }, { on = \"w4\", a = \"n4\", b = \"n5\" },
  { on = \"w5\", a = \"n5\", b = \"n6\" }, { on = \"w6\", a = \"n6\", b = \"n7\" }, { on = \"w7\", a = \"n7\", b = \"n8\" }, { on = \"w8\", a = \"n8\", b = \"n1\" },
]
flow = [ { cube = 1, from = { node = \"n1\", app = \"s\", label = \"p\" }, to = { node = \"n4\", app = \"t\", label = \"q\" } } ]
%%
register net n3 echo
register net n7 gone
tick 20
cut w1
cut w5
tick 20
send p 'lost
register net n2 left
register net n8 right
unregister net n7 gone
unregister net n3 echo
tick 40
rib net n4 /dir
rib net n6 /dir
mend w1
mend w5
enrol net n1 w1 n2
enrol net n5 w5 n6
tick 100
rib net n4 /dir
rib net n6 /dir
rib net n4 /link
rib net n6 /link
send p 'three
tick 3
read q
----
1 0 ok
2 0 ok
3 20 ok
4 20 ok
5 20 ok
6 40 ok
7 40 no NoRoute 4
8 40 ok
9 40 ok
10 40 ok
11 40 ok
12 80 ok
13 80 obj /dir folder x
13 80 obj /dir/gone value '7
13 80 obj /dir/left value '2
13 80 obj /dir/t value '4
14 80 obj /dir folder x
14 80 obj /dir/echo value '3
14 80 obj /dir/right value '8
14 80 obj /dir/t value '4
15 80 ok
16 80 ok
17 80 ok
18 80 ok
19 180 ok
20 180 obj /dir folder x
20 180 obj /dir/left value '2
20 180 obj /dir/right value '8
20 180 obj /dir/t value '4
21 180 obj /dir folder x
21 180 obj /dir/left value '2
21 180 obj /dir/right value '8
21 180 obj /dir/t value '4
22 180 obj /link folder x
22 180 obj /link/1 value '2:1,8:1
22 180 obj /link/2 value '1:1,3:1
22 180 obj /link/3 value '2:1,4:1
22 180 obj /link/4 value '3:1,5:1
22 180 obj /link/5 value '4:1,6:1
22 180 obj /link/6 value '5:1,7:1
22 180 obj /link/7 value '6:1,8:1
22 180 obj /link/8 value '1:1,7:1
23 180 obj /link folder x
23 180 obj /link/1 value '2:1,8:1
23 180 obj /link/2 value '1:1,3:1
23 180 obj /link/3 value '2:1,4:1
23 180 obj /link/4 value '3:1,5:1
23 180 obj /link/5 value '4:1,6:1
23 180 obj /link/6 value '5:1,7:1
23 180 obj /link/7 value '6:1,8:1
23 180 obj /link/8 value '1:1,7:1
24 180 sent 1.0
25 183 ok
26 183 got 183 'three
end 183
====
# A PDU stays first in its queue while the window of the reliable flow below is shut.
rounds = \"manual\"
nodes = [\"a\", \"b\", \"c\"]

[[wire]]
name = \"w1\"
ends = [\"a\", \"b\"]
delay = 2
life = 10
largest = 1500

[[wire]]
name = \"w2\"
ends = [\"b\", \"c\"]
delay = 3
life = 12
largest = 1400

[[dif]]
name = \"d1\"
rank = 1
static = true
pdu = 96
widths = { addr = 1, cep = 1, len = 2, seq = 2 }
queue = 32
policy = \"strict\"
wait = 500
manage = { mpl = 40, r = 30, a = 2, retry = 10, window = 8 }
cube = [
  { id = 1, kind = \"datagram\", mpl = 44, window = 16, largest = 80 },
  { id = 2, kind = \"reliable\", mpl = 44, window = 4, largest = 240, r = 60, a = 3, retry = 20 },
]
member = [
  { node = \"a\", addr = 1 },
  { node = \"b\", addr = 2 },
  { node = \"c\", addr = 3 },
]
link = [
  { on = \"w1\", a = \"a\", b = \"b\" },
  { on = \"w2\", a = \"b\", b = \"c\" },
]
flow = [
  { cube = 2, from = { node = \"a\", app = \"s1\", label = \"p1\" }, to = { node = \"b\", app = \"t1\", label = \"q1\" } },
]

[[dif]]
name = \"d2\"
rank = 2
static = true
pdu = 80
widths = { addr = 1, cep = 1, len = 2, seq = 2 }
queue = 64
policy = \"round\"
wait = 501
manage = { mpl = 64, r = 31, a = 4, retry = 11, window = 9 }
cube = [
  { id = 3, kind = \"datagram\", mpl = 150, window = 16, largest = 64 },
]
member = [
  { node = \"a\", addr = 11 },
  { node = \"c\", addr = 13 },
]
link = [
  { on = \"d1\", a = \"a\", b = \"c\", cube = 2 },
]
flow = [
  { cube = 3, from = { node = \"a\", app = \"s2\", label = \"p2\" }, to = { node = \"c\", app = \"t2\", label = \"q2\" } },
]
%%
send p2 'a
send p2 'b
send p2 'c
send p2 'd
send p2 'e
out d2 a 0
out d2 a 0
out d2 a 0
out d2 a 0
out d2 a 0
ledger d2 a
----
1 0 sent 1.0
2 0 sent 1.1
3 0 sent 1.2
4 0 sent 1.3
5 0 sent 1.4
6 0 out data 11.1.0
7 0 out data 11.1.1
8 0 out data 11.1.2
9 0 out data 11.1.3
10 0 held WindowShut 1 0
11 0 none
end 0
====
# A frame is lost on the way of a reliable flow: what came behind it is held, until the number that is missing was sent again.
nodes = [\"a\", \"b\"]
[[wire]]
name = \"w\"
ends = [\"a\", \"b\"]
delay = 2
life = 10
largest = 1500
[[dif]]
name = \"d\"
rank = 1
static = true
pdu = 96
widths = { addr = 1, cep = 1, len = 2, seq = 2 }
queue = 64
policy = \"strict\"
wait = 500
manage = { mpl = 40, r = 30, a = 2, retry = 10, window = 8 }
cube = [
  { id = 1, kind = \"datagram\", mpl = 40, window = 16, largest = 80 },
  { id = 2, kind = \"loose\", mpl = 40, window = 16, largest = 240 },
  { id = 3, kind = \"reliable\", mpl = 40, r = 30, a = 2, retry = 10, window = 4, largest = 240 },
]
member = [ { node = \"a\", addr = 1 }, { node = \"b\", addr = 2 } ]
link = [ { on = \"w\", a = \"a\", b = \"b\" } ]
flow = [
  { cube = 1, from = { node = \"a\", app = \"s1\", label = \"p1\" }, to = { node = \"b\", app = \"t1\", label = \"q1\" } },
  { cube = 2, from = { node = \"a\", app = \"s2\", label = \"p2\" }, to = { node = \"b\", app = \"t2\", label = \"q2\" } },
  { cube = 3, from = { node = \"a\", app = \"s3\", label = \"p3\" }, to = { node = \"b\", app = \"t3\", label = \"q3\" } },
]
%%
send p3 'a
tick 2
send p3 'b
send p3 'c
lose w 1
tick 2
read q3
ledger d b
tick 10
read q3
----
1 0 sent 3.0
2 2 ok
3 2 sent 3.1
4 2 sent 3.2
5 2 ok
6 4 ok
7 4 got 2 'a
8 4 none
9 14 ok
10 14 got 14 'b
10 14 got 14 'c
end 14
====
# A frame is held back until its life ends, and no longer.
nodes = [\"a\", \"b\"]
[[wire]]
name = \"w\"
ends = [\"a\", \"b\"]
delay = 2
life = 10
largest = 1500
%%
register w b echo
alloc p w a ping echo
accept q w b echo
send p 'hello
hold w 0 10
hold w 0 11
tick 9
read q
tick 1
read q
----
1 0 ok
2 0 ok allocated
3 0 ok allocated
4 0 sent 0.0
5 0 ok
6 0 no LateHold 10
7 9 ok
8 9 none
9 10 ok
10 10 got 10 'hello
end 10
====
nodes = [\"a\", \"b\"]
[[wire]]
name = \"w\"
ends = [\"a\", \"b\"]
delay = 2
life = 10
largest = 1500
%%
register w b echo
alloc p w a ping echo
accept q w b echo
send p 'hello
tick 2
read q
----
1 0 ok
2 0 ok allocated
3 0 ok allocated
4 0 sent 0.0
5 2 ok
6 2 got 2 'hello
end 2
====
# What both ends of a flow sent and got.
nodes = [\"a\", \"b\"]
[[wire]]
name = \"w\"
ends = [\"a\", \"b\"]
delay = 2
life = 10
largest = 1500
%%
register w b echo
alloc p w a ping echo
accept q w b echo
send p 'hello
tick 2
read q
journal w
----
1 0 ok
2 0 ok allocated
3 0 ok allocated
4 0 sent 0.0
5 2 ok
6 2 got 2 'hello
7 2 flow 1.0.0 asker w/a/1 ping echo 0 0 allocated
7 2 s 0 0.0 'hello
7 2 flow 1.0.0 far w/b/1 echo ping 0 1 allocated
7 2 g 2 0.0 'hello
end 2
====
# The one link of d is cut: its flow fails, and says for which flow below. What a sends before it hears of that finds no way on at c, and is
# written off there; and then a has no next hop to d.
nodes = [\"a\", \"b\", \"c\", \"d\"]
[[wire]]
name = \"w1\"
ends = [\"a\", \"b\"]
delay = 2
life = 10
largest = 1500
[[wire]]
name = \"w2\"
ends = [\"b\", \"c\"]
delay = 2
life = 10
largest = 1500
[[wire]]
name = \"w3\"
ends = [\"c\", \"d\"]
delay = 2
life = 10
largest = 1500
[[dif]]
name = \"d\"
rank = 1
static = true
pdu = 96
widths = { addr = 1, cep = 1, len = 2, seq = 2 }
queue = 64
policy = \"strict\"
wait = 500
manage = { mpl = 40, r = 30, a = 2, retry = 10, window = 8 }
cube = [ { id = 1, kind = \"datagram\", mpl = 25, window = 16, largest = 80 } ]
member = [ { node = \"a\", addr = 1 }, { node = \"b\", addr = 2 }, { node = \"c\", addr = 3 }, { node = \"d\", addr = 4 } ]
link = [ { on = \"w1\", a = \"a\", b = \"b\" }, { on = \"w2\", a = \"b\", b = \"c\" }, { on = \"w3\", a = \"c\", b = \"d\" } ]
flow = [ { cube = 1, from = { node = \"a\", app = \"s\", label = \"p\" }, to = { node = \"d\", app = \"t\", label = \"q\" } } ]
%%
cut w3
send p 'x
tick 4
send p 'y
ledger d c
----
1 0 ok
1 0 state q failed Below w3/d/1
2 0 sent 1.0
3 4 ok
4 4 no NoRoute 4
5 4 off data 1.1.0 NoRoute 4
end 4
====
# Three wires, and a lifetime that is too short for them: at the third hop 5 ticks are left, and 10 are charged.
nodes = [\"a\", \"b\", \"c\", \"d\"]
[[wire]]
name = \"w1\"
ends = [\"a\", \"b\"]
delay = 2
life = 10
largest = 1500
[[wire]]
name = \"w2\"
ends = [\"b\", \"c\"]
delay = 2
life = 10
largest = 1500
[[wire]]
name = \"w3\"
ends = [\"c\", \"d\"]
delay = 2
life = 10
largest = 1500
[[dif]]
name = \"d\"
rank = 1
static = true
pdu = 96
widths = { addr = 1, cep = 1, len = 2, seq = 2 }
queue = 64
policy = \"strict\"
wait = 500
manage = { mpl = 40, r = 30, a = 2, retry = 10, window = 8 }
cube = [ { id = 1, kind = \"datagram\", mpl = 25, window = 16, largest = 80 } ]
member = [ { node = \"a\", addr = 1 }, { node = \"b\", addr = 2 }, { node = \"c\", addr = 3 }, { node = \"d\", addr = 4 } ]
link = [ { on = \"w1\", a = \"a\", b = \"b\" }, { on = \"w2\", a = \"b\", b = \"c\" }, { on = \"w3\", a = \"c\", b = \"d\" } ]
flow = [ { cube = 1, from = { node = \"a\", app = \"s\", label = \"p\" }, to = { node = \"d\", app = \"t\", label = \"q\" } } ]
%%
send p 'a
tick 10
read q
ledger d c
----
1 0 sent 1.0
2 10 ok
3 10 none
4 10 off data 1.1.0 Expired 5 10
end 10
====
# Nothing comes over wire ab. What the members have to say there is never acknowledged, so the link gives up at tick 112, and its
# wire is freed: the link is lost at both ends. The flow from a to c goes on over its own link.
nodes = [\"a\", \"b\", \"c\"]
[[wire]]
name = \"ab\"
ends = [\"a\", \"b\"]
delay = 2
life = 10
largest = 1500
storm = { seed = 1, lose = 1000, repeat = 0, spread = 0 }
[[wire]]
name = \"ac\"
ends = [\"a\", \"c\"]
delay = 2
life = 10
largest = 1500
[[wire]]
name = \"bc\"
ends = [\"b\", \"c\"]
delay = 2
life = 10
largest = 1500
[[dif]]
name = \"d\"
rank = 1
static = true
pdu = 96
widths = { addr = 1, cep = 1, len = 2, seq = 2 }
queue = 64
policy = \"strict\"
wait = 500
manage = { mpl = 40, r = 30, a = 2, retry = 10, window = 8 }
cube = [ { id = 1, kind = \"datagram\", mpl = 40, window = 16, largest = 80 } ]
member = [ { node = \"a\", addr = 1 }, { node = \"b\", addr = 2 }, { node = \"c\", addr = 3 } ]
link = [ { on = \"ab\", a = \"a\", b = \"b\" }, { on = \"ac\", a = \"a\", b = \"c\" }, { on = \"bc\", a = \"b\", b = \"c\" } ]
flow = [ { cube = 1, from = { node = \"a\", app = \"s\", label = \"p\" }, to = { node = \"c\", app = \"t\", label = \"q\" } } ]
%%
cut bc
tick 111
rib d b /link/2
tick 1
rib d b /link/2
tick 2
rib d a /link/1
send p 'on
tick 2
read q
----
1 0 ok
2 111 ok
3 111 obj /link/2 value '1:1
4 112 ok
5 112 obj /link/2 value x
6 114 ok
7 114 obj /link/1 value '3:1
8 114 sent 1.0
9 116 ok
10 116 got 116 'on
end 116
====
# A frame is lost on the wire: no ledger has it, and the journal of the wire has its sending alone.
nodes = [\"a\", \"b\"]
[[wire]]
name = \"w\"
ends = [\"a\", \"b\"]
delay = 2
life = 10
largest = 1500
[[dif]]
name = \"d\"
rank = 1
static = true
pdu = 96
widths = { addr = 1, cep = 1, len = 2, seq = 2 }
queue = 64
policy = \"strict\"
wait = 500
manage = { mpl = 40, r = 30, a = 2, retry = 10, window = 8 }
cube = [
  { id = 1, kind = \"datagram\", mpl = 40, window = 16, largest = 80 },
  { id = 2, kind = \"loose\", mpl = 40, window = 16, largest = 240 },
  { id = 3, kind = \"reliable\", mpl = 40, r = 30, a = 2, retry = 10, window = 4, largest = 240 },
]
member = [ { node = \"a\", addr = 1 }, { node = \"b\", addr = 2 } ]
link = [ { on = \"w\", a = \"a\", b = \"b\" } ]
flow = [
  { cube = 1, from = { node = \"a\", app = \"s1\", label = \"p1\" }, to = { node = \"b\", app = \"t1\", label = \"q1\" } },
  { cube = 2, from = { node = \"a\", app = \"s2\", label = \"p2\" }, to = { node = \"b\", app = \"t2\", label = \"q2\" } },
  { cube = 3, from = { node = \"a\", app = \"s3\", label = \"p3\" }, to = { node = \"b\", app = \"t3\", label = \"q3\" } },
]
%%
send p1 'hello
lose w 0
tick 10
read q1
ledger d a
ledger d b
journal w
----
1 0 sent 1.0
2 0 ok
3 10 ok
4 10 none
5 10 none
6 10 none
7 10 flow 1.0.0 asker w/a/1 d/a d/b 0 0 allocated
7 10 s 0 0.0 x0000001e01070101020101010011000068656c6c6f
7 10 flow 1.0.0 far w/b/1 d/b d/a 0 0 allocated
end 10
";
