//! Worked runs in which flows of a DIF are asked for, answered and given up, each a stack, a line `%%`, and its rows: the lines that are
//! run, a line `----`, and all that is written. A line `====` parts rows, a line `####` stacks.

pub(crate) static ALLOC_ROWS: &str = "\
nodes = [\"a\", \"b\"]
[[wire]]
name = \"w\"
ends = [\"a\", \"b\"]
delay = 2
life = 10
largest = 1500
[[dif]]
name = \"d\"
rank = 1
static = true
pdu = 400
widths = { addr = 1, cep = 1, len = 2, seq = 2 }
queue = 64
policy = \"strict\"
wait = 500
manage = { mpl = 40, r = 30, a = 2, retry = 10, window = 8 }
cube = [
  { id = 1, kind = \"datagram\", mpl = 40, window = 16, largest = 80 },
  { id = 2, kind = \"loose\", mpl = 40, window = 16, largest = 240 },
  { id = 3, kind = \"reliable\", mpl = 40, r = 30, a = 2, retry = 10, window = 4, largest = 240 },
]
member = [ { node = \"a\", addr = 1 }, { node = \"b\", addr = 2 } ]
link = [ { on = \"w\", a = \"a\", b = \"b\" } ]
rule = [ { subject = \"ping\", act = \"allocate\", allow = true }, { subject = \"evil\", act = \"allocate\", allow = false } ]
%%
register d b echo
tick 2
alloc p d a ping echo
tick 4
accept q d b echo
send p 'old
hold w 5 16
free p
tick 2
alloc p2 d a ping echo
tick 4
accept q2 d b echo
tick 4
read q2
ledger d b
send p2 'new
tick 2
read q2
----
1 0 ok
2 2 ok
3 2 ok pending
4 6 state p allocated
4 6 ok
5 6 ok allocated
6 6 sent 1.0
7 6 ok
8 6 ok
8 6 state p closed
9 8 state q closed
9 8 ok
10 8 ok pending
11 12 state p2 allocated
11 12 ok
12 12 ok allocated
13 16 ok
14 16 none
15 16 off data 1.1.0 NoConnection 1
16 16 sent 2.0
17 18 ok
18 18 got 18 'new
end 18
====
register d b echo
tick 2
alloc p d a ping nobody
alloc p d a ping echo reliable within=69
alloc p d b ping echo
alloc p d a evil echo
tick 4
----
1 0 ok
2 2 ok
3 2 no NoSuchApp
4 2 no NoCube
5 2 no SameSystem
6 2 ok pending
7 6 state p refused Denied 2
7 6 ok
end 6
====
register d b echo
tick 2
alloc p d a ping echo
tick 4
accept q d b echo
send p 'old
hold w 5 16
free p
tick 2
alloc p2 d a ping echo
tick 4
accept q2 d b echo
tick 4
read q2
ledger d b
send p2 'new
tick 2
read q2
free p2
tick 213
alloc p3 d a ping echo
tick 4
accept q3 d b echo
send p3 'x
----
1 0 ok
2 2 ok
3 2 ok pending
4 6 state p allocated
4 6 ok
5 6 ok allocated
6 6 sent 1.0
7 6 ok
8 6 ok
8 6 state p closed
9 8 state q closed
9 8 ok
10 8 ok pending
11 12 state p2 allocated
11 12 ok
12 12 ok allocated
13 16 ok
14 16 none
15 16 off data 1.1.0 NoConnection 1
16 16 sent 2.0
17 18 ok
18 18 got 18 'new
19 18 ok
19 18 state p2 closed
20 20 state q2 closed
20 231 ok
21 231 ok pending
22 235 state p3 allocated
22 235 ok
23 235 ok allocated
24 235 sent 1.0
end 235
####
nodes = [\"a\", \"b\"]
[[wire]]
name = \"w\"
ends = [\"a\", \"b\"]
delay = 2
life = 10
largest = 1500
[[dif]]
name = \"d\"
rank = 1
static = true
pdu = 400
widths = { addr = 1, cep = 1, len = 2, seq = 2 }
queue = 64
policy = \"strict\"
wait = 3
manage = { mpl = 40, r = 30, a = 2, retry = 10, window = 8 }
cube = [
  { id = 1, kind = \"datagram\", mpl = 40, window = 16, largest = 80 },
  { id = 2, kind = \"loose\", mpl = 40, window = 16, largest = 240 },
  { id = 3, kind = \"reliable\", mpl = 40, r = 30, a = 2, retry = 10, window = 4, largest = 240 },
]
member = [ { node = \"a\", addr = 1 }, { node = \"b\", addr = 2 } ]
link = [ { on = \"w\", a = \"a\", b = \"b\" } ]
rule = [ { subject = \"ping\", act = \"allocate\", allow = true }, { subject = \"evil\", act = \"allocate\", allow = false } ]
%%
register d b echo
tick 2
alloc p d a ping echo
tick 3
----
1 0 ok
2 2 ok
3 2 ok pending
4 5 state p refused Timeout 2 5
4 5 ok
end 5
####
nodes = [\"a\", \"b\", \"c\", \"d\"]
rounds = \"auto\"
[[wire]]
name = \"w1\"
ends = [\"a\", \"b\"]
delay = 2
life = 10
largest = 1500
[[wire]]
name = \"w2\"
ends = [\"b\", \"c\"]
delay = 2
life = 10
largest = 1500
[[wire]]
name = \"w3\"
ends = [\"c\", \"d\"]
delay = 2
life = 10
largest = 1500
[[dif]]
name = \"d\"
rank = 1
static = true
pdu = 400
widths = { addr = 1, cep = 1, len = 2, seq = 2 }
queue = 64
policy = \"strict\"
wait = 500
manage = { mpl = 40, r = 30, a = 2, retry = 10, window = 8 }
cube = [
  { id = 1, kind = \"datagram\", mpl = 40, window = 16, largest = 80 },
  { id = 3, kind = \"reliable\", mpl = 40, r = 30, a = 2, retry = 10, window = 4, largest = 240 },
]
member = [ { node = \"a\", addr = 1 }, { node = \"b\", addr = 2 }, { node = \"c\", addr = 3 }, { node = \"d\", addr = 4 } ]
link = [ { on = \"w1\", a = \"a\", b = \"b\" }, { on = \"w2\", a = \"b\", b = \"c\" }, { on = \"w3\", a = \"c\", b = \"d\" } ]
rule = [ { subject = \"ping\", act = \"allocate\", allow = true }, { subject = \"evil\", act = \"allocate\", allow = false } ]
%%
register d d echo
tick 10
alloc p d a ping echo reliable
tick 20
accept q d d echo
send p 'hi
tick 10
read q
send q 'back
tick 10
read p
rib d d /flow
rib d a /flow
free q
tick 10
state p
state q
rib d a /flow
rib d d /flow
alloc e d a evil echo
alloc w d a ping echo
free w
state w
tick 20
accept w2 d d echo
tick 20
state w2
alloc u d b ping echo
unregister d d echo
tick 20
journal d
ledger d d
----
1 0 ok
2 10 ok
3 10 ok pending
4 22 state p allocated
4 30 ok
5 30 ok allocated
6 30 sent 1.0
7 40 ok
8 40 got 36 'hi
9 40 sent 1.0
10 50 ok
11 50 got 46 'back
12 50 obj /flow folder x
12 50 obj /flow/1 flow 'tx=1,rx=1
13 50 obj /flow folder x
13 50 obj /flow/1 flow 'tx=1,rx=1
14 50 ok
14 50 state q closed
15 56 state p closed
15 60 ok
16 60 ok closed
17 60 ok closed
18 60 obj /flow folder x
19 60 obj /flow folder x
20 60 ok pending
21 60 ok pending
22 60 ok
22 60 state w refused Withdrawn
23 60 ok refused Withdrawn
24 72 state e refused Denied 2
24 80 ok
25 80 ok closed
26 100 ok
27 100 ok closed
28 100 ok pending
29 100 ok
30 108 state u refused NotHere
30 120 ok
31 120 flow 1.10.0 asker d/a/1 ping echo 3 1 closed
31 120 s 30 1.0 'hi
31 120 g 46 1.0 'back
31 120 flow 1.10.0 far d/d/1 echo ping 3 1 closed
31 120 s 40 1.0 'back
31 120 g 36 1.0 'hi
31 120 flow 1.60.1 asker d/a/2 evil echo 1 0 refused Denied 2
31 120 flow 1.60.2 asker d/a/3 ping echo 1 0 refused Withdrawn
31 120 flow 1.60.2 far d/d/2 echo ping 1 0 closed
31 120 flow 2.100.0 asker d/b/1 ping echo 1 0 refused NotHere
32 120 off data 1.1.0 Duplicate 1.0
32 120 off ack 1.1.0 NoConnection 1
32 120 off ack 1.1.0 NoConnection 1
end 120
####
nodes = [\"a\", \"b\"]
rounds = \"manual\"
[[wire]]
name = \"w\"
ends = [\"a\", \"b\"]
delay = 2
life = 10
largest = 1500
[[dif]]
name = \"d\"
rank = 1
static = true
pdu = 400
widths = { addr = 1, cep = 1, len = 2, seq = 2 }
queue = 64
policy = \"strict\"
wait = 3
manage = { mpl = 40, r = 30, a = 2, retry = 10, window = 8 }
cube = [
  { id = 1, kind = \"datagram\", mpl = 40, window = 16, largest = 80 },
  { id = 2, kind = \"loose\", mpl = 40, window = 16, largest = 240 },
  { id = 3, kind = \"reliable\", mpl = 40, r = 30, a = 2, retry = 10, window = 4, largest = 240 },
]
member = [ { node = \"a\", addr = 1 }, { node = \"b\", addr = 2 } ]
link = [ { on = \"w\", a = \"a\", b = \"b\" } ]
rule = [ { subject = \"ping\", act = \"allocate\", allow = true }, { subject = \"evil\", act = \"allocate\", allow = false } ]
%%
register d b echo
clock d a
clock d b
out d b 0
tick 2
in d a 0
alloc p d a ping echo
alloc p2 d a ping echo reliable
clock d a
out d a 0
clock d a
clock d a
tick 2
in d b 0
clock d b
clock d b
clock d b
out d b 0
tick 2
clock d a
clock d a
clock d a
in d a 0
clock d a
clock d a
out d a 0
tick 2
in d b 0
accept q d b echo
state q
state p
----
1 0 ok
2 0 idle
3 0 clock message 0
4 0 out data 0.0.0
5 2 ok
6 2 in data 0.0.0 accepted
7 2 ok pending
8 2 ok pending
9 2 clock message 0
10 2 out data 0.0.0
11 2 clock message 0
12 2 idle
13 4 ok
14 4 in data 0.0.0 accepted
15 4 clock message 0
16 4 idle
17 4 idle
18 4 out data 0.0.1
19 6 ok
20 6 clock timeout d/a/1
20 6 state p refused Timeout 2 6
21 6 clock timeout d/a/2
21 6 state p2 refused Timeout 2 6
22 6 clock ack 0
23 6 in data 0.0.1 accepted
24 6 clock message 0
25 6 idle
26 6 out data 0.0.1
27 8 ok
28 8 in data 0.0.1 accepted
29 8 ok allocated
30 8 ok allocated
31 8 ok refused Timeout 2 6
end 8
";
