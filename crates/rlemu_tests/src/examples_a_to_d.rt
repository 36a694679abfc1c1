//! The examples from a to d, each an input, a line `----`, and what it writes; a line `====` parts them. Written by
//! `bin/examples-as-tests` from the folder examples/.

pub(crate) static EXAMPLES_A_TO_D: &str = "\
# What the far member says to an ask: rule 1 of d denies flows to evil; echo was taken back while the ask was on its way; ping gets its flow.
nodes = [\"a\", \"b\"]
[[wire]]
name = \"w\"
ends = [\"a\", \"b\"]
delay = 2
life = 10
largest = 1500
[[dif]]
name = \"d\"
rank = 1
static = true
pdu = 400
widths = { addr = 1, cep = 1, len = 2, seq = 2 }
queue = 64
policy = \"strict\"
wait = 500
manage = { mpl = 40, r = 30, a = 2, retry = 10, window = 8 }
cube = [ { id = 1, kind = \"datagram\", mpl = 40, window = 16, largest = 80 } ]
member = [ { node = \"a\", addr = 1 }, { node = \"b\", addr = 2 } ]
link = [ { on = \"w\", a = \"a\", b = \"b\" } ]
rule = [ { subject = \"evil\", act = \"allocate\", allow = false } ]
%%
register d b echo
tick 2
# The asking member does not know the rules of the other one: the ask goes there, in 2 ticks, and the answer comes back.
alloc p1 d a evil echo
tick 3
state p1
tick 1
state p1
# An ask of ping is not denied: b makes the far end, in the step in which the ask comes.
alloc p2 d a ping echo
tick 2
accept q2 d b echo
state p2
tick 2
# The name is taken back while an ask is on its way: a has its entry still, and b knows better.
alloc p3 d a ping echo
unregister d b echo
tick 4
# Now a knows it too, and asks nobody.
alloc p4 d a ping echo
# The flow that stands is not touched.
send p2 'still
tick 2
read q2
journal d
----
1 0 ok
2 2 ok
4 2 ok pending
5 5 ok
6 5 ok pending
7 6 state p1 refused Denied 1
7 6 ok
8 6 ok refused Denied 1
10 6 ok pending
11 8 ok
12 8 ok allocated
13 8 ok pending
14 10 state p2 allocated
14 10 ok
16 10 ok pending
17 10 ok
18 14 state p3 refused NotHere
18 14 ok
20 14 no NoSuchApp
22 14 sent 2.0
23 16 ok
24 16 got 16 'still
25 16 flow 1.2.0 asker d/a/1 evil echo 1 0 refused Denied 1
25 16 flow 1.6.1 asker d/a/2 ping echo 1 0 allocated
25 16 s 14 2.0 'still
25 16 flow 1.6.1 far d/b/1 echo ping 1 1 allocated
25 16 g 16 2.0 'still
25 16 flow 1.10.2 asker d/a/3 ping echo 1 0 refused NotHere
end 16
====
# A DELETE names two CEP-ids, and no flow. One that is on its way for longer than ids rest closes an end of a later flow that has the same ids.
nodes = [\"a\", \"b\", \"c\"]
[[wire]]
name = \"w1\"
ends = [\"a\", \"c\"]
delay = 2
life = 10
largest = 1500
[[wire]]
name = \"w2\"
ends = [\"b\", \"c\"]
delay = 2
life = 10
largest = 1500
[[wire]]
name = \"w3\"
ends = [\"a\", \"b\"]
delay = 2
life = 10
largest = 1500
[[dif]]
name = \"d\"
rank = 1
static = true
pdu = 400
widths = { addr = 1, cep = 1, len = 2, seq = 2 }
queue = 64
policy = \"strict\"
wait = 500
manage = { mpl = 40, r = 200, a = 2, retry = 90, window = 8 }
cube = [ { id = 1, kind = \"datagram\", mpl = 25, window = 16, largest = 80 } ]
member = [ { node = \"a\", addr = 1 }, { node = \"b\", addr = 2 }, { node = \"c\", addr = 3 } ]
link = [ { on = \"w1\", a = \"a\", b = \"c\" }, { on = \"w2\", a = \"c\", b = \"b\" } ]
%%
register d b echo
tick 10
# The way from a to b is over c.
alloc p1 d a ping echo
tick 10
accept q1 d b echo
tick 10
# Both ends are freed at once. The DELETE of a comes to c 2 ticks later. Its frame on w2 is lost there, and sent again 90 ticks later, by `retry` of `manage`.
free p1
free q1
tick 2
lose w2 7
# In the meantime a and b get a link of their own, over w3. What a sends to b goes that way from now on, and overtakes the DELETE.
publish d b w3
enrol d a w3 b
tick 20
member d a
# Both ids rest for 75 ticks, until tick 105. The next flow gets the same.
tick 54
alloc p2 d a ping echo
tick 4
accept q2 d b echo
send p2 'one
tick 2
read q2
# The DELETE of the first flow comes to b at tick 124, and names the ids of the second. The end at b is closed; the end at a is told nothing.
tick 12
state p2
journal d
----
1 0 ok
2 10 ok
4 10 ok pending
5 18 state p1 allocated
5 20 ok
6 20 ok allocated
7 30 ok
9 30 ok
9 30 state p1 closed
10 30 ok
10 30 state q1 closed
11 32 ok
12 32 ok
14 32 ok
15 32 ok
16 52 ok
17 52 ok enrolled
19 106 ok
20 106 ok pending
21 110 state p2 allocated
21 110 ok
22 110 ok allocated
23 110 sent 1.0
24 112 ok
25 112 got 112 'one
27 124 state q2 closed
27 124 ok
28 124 ok allocated
29 124 flow 1.10.0 asker d/a/1 ping echo 1 0 closed
29 124 flow 1.10.0 far d/b/1 echo ping 1 0 closed
29 124 flow 1.106.1 asker d/a/2 ping echo 1 0 allocated
29 124 s 110 1.0 'one
29 124 flow 1.106.1 far d/b/2 echo ping 1 1 closed
29 124 g 112 1.0 'one
end 124
====
# The frame with an ask is lost, and sent again when the asker has given up. The far end is made for all that; the late answer is given back, and it is closed.
nodes = [\"a\", \"b\"]
[[wire]]
name = \"w\"
ends = [\"a\", \"b\"]
delay = 2
life = 10
largest = 1500
[[dif]]
name = \"d\"
rank = 1
static = true
pdu = 400
widths = { addr = 1, cep = 1, len = 2, seq = 2 }
queue = 64
policy = \"strict\"
wait = 8
manage = { mpl = 40, r = 30, a = 2, retry = 10, window = 8 }
cube = [ { id = 1, kind = \"datagram\", mpl = 40, window = 16, largest = 80 } ]
member = [ { node = \"a\", addr = 1 }, { node = \"b\", addr = 2 } ]
link = [ { on = \"w\", a = \"a\", b = \"b\" } ]
%%
register d b echo
tick 6
alloc p d a ping echo
lose w 2
# The asker waits for 8 ticks, by `wait` of d.
tick 7
state p
tick 1
state p
# The ask is sent again 10 ticks after the first time, by `retry` of `manage`, and comes to b 2 ticks later. It is young, and b does not know that a gave up.
tick 4
accept q d b echo
# The yes comes to a 2 ticks later, where nothing waits for it: the flow is given back, and 2 ticks later b closes its end.
tick 3
state q
tick 1
state q
# The CEP-id 1 rests at both ends, for 120 ticks, so the next flow has 2.
alloc p2 d a ping echo
tick 4
accept q2 d b echo
send p2 'hello
tick 2
read q2
----
1 0 ok
2 6 ok
3 6 ok pending
4 6 ok
6 13 ok
7 13 ok pending
8 14 state p refused Timeout 6 14
8 14 ok
9 14 ok refused Timeout 6 14
11 18 ok
12 18 ok allocated
14 21 ok
15 21 ok allocated
16 22 state q closed
16 22 ok
17 22 ok closed
19 22 ok pending
20 26 state p2 allocated
20 26 ok
21 26 ok allocated
22 26 sent 2.0
23 28 ok
24 28 got 28 'hello
end 28
====
# The second of three pieces of an SDU is lost. What is left of it is written off, and the next SDU comes.
nodes = [\"a\", \"b\"]
[[wire]]
name = \"w\"
ends = [\"a\", \"b\"]
delay = 2
life = 10
largest = 1500
[[dif]]
name = \"d\"
rank = 1
static = true
pdu = 96
widths = { addr = 1, cep = 1, len = 2, seq = 2 }
queue = 64
policy = \"strict\"
wait = 500
manage = { mpl = 40, r = 30, a = 2, retry = 10, window = 8 }
cube = [
  { id = 1, kind = \"datagram\", mpl = 40, window = 16, largest = 80 },
  { id = 2, kind = \"loose\", mpl = 40, window = 16, largest = 240 },
  { id = 3, kind = \"reliable\", mpl = 40, r = 30, a = 2, retry = 10, window = 4, largest = 240 },
]
member = [ { node = \"a\", addr = 1 }, { node = \"b\", addr = 2 } ]
link = [ { on = \"w\", a = \"a\", b = \"b\" } ]
flow = [
  { cube = 1, from = { node = \"a\", app = \"s1\", label = \"p1\" }, to = { node = \"b\", app = \"t1\", label = \"q1\" } },
  { cube = 2, from = { node = \"a\", app = \"s2\", label = \"p2\" }, to = { node = \"b\", app = \"t2\", label = \"q2\" } },
  { cube = 3, from = { node = \"a\", app = \"s3\", label = \"p3\" }, to = { node = \"b\", app = \"t3\", label = \"q3\" } },
]
%%
send p2 z200
lose w 1
send p2 'next
tick 2
read q2
ledger d b
----
1 0 sent 2.0
2 0 ok
3 0 sent 2.3
4 2 ok
5 2 got 2 'next
6 2 off data 1.2.0 Broken 1
6 2 off data 1.2.2 Broken 1
end 2
====
# The same stack, but the schedule writes every step: a PDU is let out of each rank, and taken in at each.
nodes = [\"a\", \"b\"]
rounds = \"manual\"
[[wire]]
name = \"w\"
ends = [\"a\", \"b\"]
delay = 2
life = 10
largest = 1500
[[dif]]
name = \"d1\"
rank = 1
static = true
pdu = 96
widths = { addr = 1, cep = 1, len = 2, seq = 2 }
queue = 64
policy = \"strict\"
wait = 500
manage = { mpl = 40, r = 30, a = 2, retry = 10, window = 8 }
cube = [ { id = 1, kind = \"datagram\", mpl = 40, window = 16, largest = 80 } ]
member = [ { node = \"a\", addr = 1 }, { node = \"b\", addr = 2 } ]
link = [ { on = \"w\", a = \"a\", b = \"b\" } ]
[[dif]]
name = \"d2\"
rank = 2
static = true
pdu = 80
widths = { addr = 1, cep = 1, len = 2, seq = 2 }
queue = 64
policy = \"strict\"
wait = 500
manage = { mpl = 60, r = 30, a = 2, retry = 10, window = 8 }
cube = [ { id = 1, kind = \"datagram\", mpl = 60, window = 16, largest = 64 } ]
member = [ { node = \"a\", addr = 1 }, { node = \"b\", addr = 2 } ]
link = [ { on = \"d1\", a = \"a\", b = \"b\", cube = 1 } ]
[[dif]]
name = \"d3\"
rank = 3
static = true
pdu = 64
widths = { addr = 1, cep = 1, len = 2, seq = 2 }
queue = 64
policy = \"strict\"
wait = 500
manage = { mpl = 80, r = 30, a = 2, retry = 10, window = 8 }
cube = [ { id = 1, kind = \"datagram\", mpl = 80, window = 16, largest = 48 } ]
member = [ { node = \"a\", addr = 1 }, { node = \"b\", addr = 2 } ]
link = [ { on = \"d2\", a = \"a\", b = \"b\", cube = 1 } ]
flow = [ { cube = 1, from = { node = \"a\", app = \"s\", label = \"p\" }, to = { node = \"b\", app = \"t\", label = \"q\" } } ]
%%
send p 'up
out d3 a 0
out d2 a 0
out d1 a 0
tick 2
in d1 b 0
tick 20
in d2 b 0
in d3 b 0
read q
----
1 0 sent 1.0
2 0 out data 1.1.0
3 0 out data 1.1.0
4 0 out data 1.1.0
5 2 ok
6 2 in data 1.1.0 accepted
7 22 ok
8 22 in data 1.1.0 accepted
9 22 in data 1.1.0 accepted
10 22 got 22 'up
end 22
====
# A DIF on a wire that repeats a frame twice. The flow is a datagram cube: each SDU comes at most once, so the
# second copy is not read.
nodes = [\"a\", \"b\"]
[[wire]]
name = \"w\"
ends = [\"a\", \"b\"]
delay = 2
life = 10
largest = 1500
[[dif]]
name = \"d\"
rank = 1
static = true
pdu = 96
widths = { addr = 1, cep = 1, len = 2, seq = 2 }
queue = 64
policy = \"strict\"
wait = 500
manage = { mpl = 40, r = 30, a = 2, retry = 10, window = 8 }
cube = [
  { id = 1, kind = \"datagram\", mpl = 40, window = 16, largest = 80 },
]
member = [ { node = \"a\", addr = 1 }, { node = \"b\", addr = 2 } ]
link = [ { on = \"w\", a = \"a\", b = \"b\" } ]
flow = [
  { cube = 1, from = { node = \"a\", app = \"s1\", label = \"p1\" }, to = { node = \"b\", app = \"t1\", label = \"q1\" } },
]
%%
send p1 'a
repeat w 0 3
tick 3
read q1
----
1 0 sent 1.0
2 0 ok
3 3 ok
4 3 got 2 'a
end 3
====
# Rules judge who may enrol. Rule 1 of d denies it to the IPC process at b, which is `d/b`; no rule speaks of `d/c`, and so it may. Both ask to enrol at a.
nodes = [\"a\", \"b\", \"c\"]
[[wire]]
name = \"w1\"
ends = [\"a\", \"b\"]
delay = 2
life = 10
largest = 1500
[[wire]]
name = \"w2\"
ends = [\"a\", \"c\"]
delay = 2
life = 10
largest = 1500
[[dif]]
name = \"d\"
rank = 1
pdu = 400
widths = { addr = 1, cep = 1, len = 2, seq = 2 }
queue = 64
policy = \"strict\"
wait = 500
manage = { mpl = 40, r = 30, a = 2, retry = 10, window = 8 }
cube = [ { id = 1, kind = \"datagram\", mpl = 40, window = 16, largest = 80 } ]
member = [ { node = \"a\", addr = 1 }, { node = \"b\", addr = 2 }, { node = \"c\", addr = 3 } ]
rule = [ { subject = \"d/b\", act = \"enrol\", allow = false } ]
%%
# Nothing is registered on the wires yet: nobody is there to enrol at.
enrol d b w1 a
publish d a w1
publish d a w2
# Both join. CONNECT of each comes to a at tick 2, and CONNECT_R goes back: rule 1 to b, yes to c.
enrol d b w1 a
enrol d c w2 a
tick 3
member d b
member d c
# It is there at tick 4. b is denied by rule 1; c goes on, and is enrolled at tick 8.
tick 1
member d b
tick 4
member d c
# The link of b stands, but is up at neither end: a tells of its link to c alone, and b holds nothing. Its flow stands on w1, where it cannot ask again.
rib d a /link
rib d b /member
register d b echo
enrol d b w1 a
----
2 0 no NoSuchApp
3 0 ok
4 0 ok
6 0 ok
7 0 ok
8 3 ok
9 3 ok joining 0
10 3 ok joining 0
12 4 ok
13 4 ok denied 1
14 8 ok
15 8 ok enrolled
17 8 obj /link folder x
17 8 obj /link/1 value '3:1
18 8 obj /member folder x
19 8 no NoMember
20 8 no Busy w1/b/1
end 8
====
# A ring, by hand. The wire to b is cut while an SDU waits for it: that SDU is written off, with its cause, and the next one goes by c.
nodes = [\"a\", \"b\", \"c\", \"d\"]
rounds = \"manual\"
[[wire]]
name = \"ab\"
ends = [\"a\", \"b\"]
delay = 2
life = 10
largest = 1500
[[wire]]
name = \"bd\"
ends = [\"b\", \"d\"]
delay = 2
life = 10
largest = 1500
[[wire]]
name = \"ac\"
ends = [\"a\", \"c\"]
delay = 2
life = 10
largest = 1500
[[wire]]
name = \"cd\"
ends = [\"c\", \"d\"]
delay = 2
life = 10
largest = 1500
[[dif]]
name = \"net\"
rank = 1
static = true
pdu = 96
widths = { addr = 1, cep = 1, len = 2, seq = 2 }
queue = 64
policy = \"strict\"
wait = 500
manage = { mpl = 40, r = 30, a = 2, retry = 10, window = 8 }
cube = [ { id = 1, kind = \"datagram\", mpl = 40, window = 16, largest = 80 } ]
member = [ { node = \"a\", addr = 1 }, { node = \"b\", addr = 2 }, { node = \"c\", addr = 3 }, { node = \"d\", addr = 4 } ]
link = [ { on = \"ab\", a = \"a\", b = \"b\" }, { on = \"bd\", a = \"b\", b = \"d\" }, { on = \"ac\", a = \"a\", b = \"c\" }, { on = \"cd\", a = \"c\", b = \"d\" } ]
flow = [ { cube = 1, from = { node = \"a\", app = \"s\", label = \"p\" }, to = { node = \"d\", app = \"t\", label = \"q\" } } ]
%%
send p 'one
cut ab
clock net a
ledger net a
send p 'two
out net a 1
tick 2
in net c 0
out net c 1
tick 2
in net d 1
read q
----
1 0 sent 1.0
2 0 ok
3 0 clock link-lost 0
4 0 off data 1.1.0 LinkDown ab/a/1
5 0 sent 1.1
6 0 out data 1.1.1
7 2 ok
8 2 in data 1.1.1 relayed
9 2 out data 1.1.1
10 4 ok
11 4 in data 1.1.1 accepted
12 4 got 4 'two
end 4
====
# Two systems with a DIF over one wire. An application is registered at the one member; its directory entry comes to the other.
nodes = [\"a\", \"b\"]
[[wire]]
name = \"w\"
ends = [\"a\", \"b\"]
delay = 2
life = 10
largest = 1500
[[dif]]
name = \"d\"
rank = 1
static = true
pdu = 400
widths = { addr = 1, cep = 1, len = 2, seq = 2 }
queue = 64
policy = \"strict\"
wait = 500
manage = { mpl = 40, r = 30, a = 2, retry = 10, window = 8 }
cube = [
  { id = 1, kind = \"datagram\", mpl = 40, window = 16, largest = 80 },
  { id = 2, kind = \"loose\", mpl = 40, window = 16, largest = 240 },
  { id = 3, kind = \"reliable\", mpl = 40, r = 30, a = 2, retry = 10, window = 4, largest = 240 },
]
member = [ { node = \"a\", addr = 1 }, { node = \"b\", addr = 2 } ]
link = [ { on = \"w\", a = \"a\", b = \"b\" } ]
rule = [ { subject = \"ping\", act = \"allocate\", allow = true }, { subject = \"evil\", act = \"allocate\", allow = false } ]
%%
register d b echo
rib d a /dir
tick 2
rib d a /dir
unregister d b echo
tick 2
rib d a /dir
----
1 0 ok
2 0 obj /dir folder x
3 2 ok
4 2 obj /dir folder x
4 2 obj /dir/echo value '2
5 2 ok
6 4 ok
7 4 obj /dir folder x
end 4
";
