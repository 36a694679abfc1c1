//! Worked runs of one static DIF, each a stack, a line `%%`, and its rows: the lines that are
//! run, a line `----`, and all that is written. A line `====` parts rows, a line `####` stacks.

pub(crate) static FLAT_ROWS: &str = "\
nodes = [\"a\", \"b\"]
[[wire]]
name = \"w\"
ends = [\"a\", \"b\"]
delay = 2
life = 10
largest = 1500
[[dif]]
name = \"d\"
rank = 1
static = true
pdu = 96
widths = { addr = 1, cep = 1, len = 2, seq = 2 }
queue = 64
policy = \"strict\"
wait = 500
manage = { mpl = 40, r = 30, a = 2, retry = 10, window = 8 }
cube = [
  { id = 1, kind = \"datagram\", mpl = 40, window = 16, largest = 80 },
]
member = [ { node = \"a\", addr = 1 }, { node = \"b\", addr = 2 } ]
link = [ { on = \"w\", a = \"a\", b = \"b\" } ]
flow = [
  { cube = 1, from = { node = \"a\", app = \"s1\", label = \"p1\" }, to = { node = \"b\", app = \"t1\", label = \"q1\" } },
]
%%
send p1 'a
repeat w 0 3
tick 3
read q1
----
1 0 sent 1.0
2 0 ok
3 3 ok
4 3 got 2 'a
end 3
====
send p1 'a
send p1 'b
send p1 'c
hold w 0 3
hold w 1 4
tick 12
read q1
----
1 0 sent 1.0
2 0 sent 1.1
3 0 sent 1.2
4 0 ok
5 0 ok
6 12 ok
7 12 got 2 'c
7 12 got 3 'a
7 12 got 4 'b
end 12
====
send p1 z80
send p1 z81
----
1 0 sent 1.0
2 0 no TooLong 81 80
end 0
####
nodes = [\"a\", \"b\"]
[[wire]]
name = \"w\"
ends = [\"a\", \"b\"]
delay = 2
life = 10
largest = 1500
[[dif]]
name = \"d\"
rank = 1
static = true
pdu = 96
widths = { addr = 1, cep = 1, len = 2, seq = 2 }
queue = 64
policy = \"strict\"
wait = 500
manage = { mpl = 40, r = 30, a = 2, retry = 10, window = 8 }
cube = [
  { id = 1, kind = \"datagram\", mpl = 40, window = 16, largest = 80 },
  { id = 2, kind = \"loose\", mpl = 40, window = 16, largest = 240 },
]
member = [ { node = \"a\", addr = 1 }, { node = \"b\", addr = 2 } ]
link = [ { on = \"w\", a = \"a\", b = \"b\" } ]
flow = [
  { cube = 1, from = { node = \"a\", app = \"s1\", label = \"p1\" }, to = { node = \"b\", app = \"t1\", label = \"q1\" } },
  { cube = 2, from = { node = \"a\", app = \"s2\", label = \"p2\" }, to = { node = \"b\", app = \"t2\", label = \"q2\" } },
]
%%
send p2 'a
send p2 'b
send p2 'c
hold w 0 3
hold w 1 4
tick 12
read q2
----
1 0 sent 2.0
2 0 sent 2.1
3 0 sent 2.2
4 0 ok
5 0 ok
6 12 ok
7 12 got 2 'c
end 12
====
send p2 z200
lose w 1
send p2 'next
tick 2
read q2
----
1 0 sent 2.0
2 0 ok
3 0 sent 2.3
4 2 ok
5 2 got 2 'next
end 2
####
nodes = [\"a\", \"b\", \"c\", \"d\"]
[[wire]]
name = \"w1\"
ends = [\"a\", \"b\"]
delay = 2
life = 10
largest = 1500
[[wire]]
name = \"w2\"
ends = [\"b\", \"c\"]
delay = 2
life = 10
largest = 1500
[[wire]]
name = \"w3\"
ends = [\"c\", \"d\"]
delay = 2
life = 10
largest = 1500
[[dif]]
name = \"d\"
rank = 1
static = true
pdu = 96
widths = { addr = 1, cep = 1, len = 2, seq = 2 }
queue = 64
policy = \"strict\"
wait = 500
manage = { mpl = 40, r = 30, a = 2, retry = 10, window = 8 }
cube = [ { id = 1, kind = \"datagram\", mpl = 25, window = 16, largest = 80 } ]
member = [ { node = \"a\", addr = 1 }, { node = \"b\", addr = 2 }, { node = \"c\", addr = 3 }, { node = \"d\", addr = 4 } ]
link = [ { on = \"w1\", a = \"a\", b = \"b\" }, { on = \"w2\", a = \"b\", b = \"c\" }, { on = \"w3\", a = \"c\", b = \"d\" } ]
flow = [ { cube = 1, from = { node = \"a\", app = \"s\", label = \"p\" }, to = { node = \"d\", app = \"t\", label = \"q\" } } ]
%%
send p 'a
tick 10
read q
ledger d c
----
1 0 sent 1.0
2 10 ok
3 10 none
4 10 off data 1.1.0 Expired 5 10
end 10
====
cut w3
tick 4
send p 'x
----
1 0 ok
1 0 state q failed Below w3/d/1
2 4 ok
3 4 no NoRoute 4
end 4
####
nodes = [\"a\", \"b\"]
rounds = \"manual\"
[[wire]]
name = \"w\"
ends = [\"a\", \"b\"]
delay = 2
life = 10
largest = 1500
[[dif]]
name = \"d\"
rank = 1
static = true
pdu = 96
widths = { addr = 1, cep = 1, len = 2, seq = 2 }
queue = 64
policy = \"last\"
wait = 500
manage = { mpl = 40, r = 30, a = 2, retry = 10, window = 8 }
cube = [
  { id = 1, kind = \"datagram\", mpl = 40, window = 16, largest = 80 },
  { id = 2, kind = \"loose\", mpl = 40, window = 16, largest = 240 },
  { id = 3, kind = \"reliable\", mpl = 40, r = 30, a = 2, retry = 10, window = 4, largest = 240 },
]
member = [ { node = \"a\", addr = 1 }, { node = \"b\", addr = 2 } ]
link = [ { on = \"w\", a = \"a\", b = \"b\" } ]
flow = [
  { cube = 1, from = { node = \"a\", app = \"s1\", label = \"p1\" }, to = { node = \"b\", app = \"t1\", label = \"q1\" } },
  { cube = 2, from = { node = \"a\", app = \"s2\", label = \"p2\" }, to = { node = \"b\", app = \"t2\", label = \"q2\" } },
  { cube = 3, from = { node = \"a\", app = \"s3\", label = \"p3\" }, to = { node = \"b\", app = \"t3\", label = \"q3\" } },
]
%%
send p1 'a
send p1 'b
send p2 'c
send p2 'd
out d a 0
retire last
out d a 0
out d a 0
out d a 0
out d a 0
tick 2
in d b 0
read q2
----
1 0 sent 1.0
2 0 sent 1.1
3 0 sent 2.0
4 0 sent 2.1
5 0 out data 1.2.0
6 0 ok
7 0 out data 1.1.0
8 0 out data 1.1.1
9 0 out data 1.2.1
10 0 idle
11 2 ok
12 2 in data 1.2.0 accepted
13 2 got 2 'c
end 2
====
send p1 'a
send p1 'b
send p2 'c
send p2 'd
out d a 0
retire last
out d a 0
out d a 0
out d a 0
out d a 0
tick 33
in d b 0
read q2
----
1 0 sent 1.0
2 0 sent 1.1
3 0 sent 2.0
4 0 sent 2.1
5 0 out data 1.2.0
6 0 ok
7 0 out data 1.1.0
8 0 out data 1.1.1
9 0 out data 1.2.1
10 0 idle
11 33 ok
12 33 in data 1.2.0 off Expired 30 31
13 33 none
end 33
====
retire last
retire last
----
1 0 ok
2 0 no NoPolicy
end 0
####
nodes = [\"a\", \"b\"]
rounds = \"manual\"
[[wire]]
name = \"w\"
ends = [\"a\", \"b\"]
delay = 2
life = 10
largest = 1500
[[dif]]
name = \"d\"
rank = 1
static = true
pdu = 96
widths = { addr = 1, cep = 1, len = 2, seq = 2 }
queue = 5
policy = \"strict\"
wait = 500
manage = { mpl = 40, r = 30, a = 2, retry = 10, window = 8 }
cube = [
  { id = 1, kind = \"datagram\", mpl = 40, window = 16, largest = 80 },
]
member = [ { node = \"a\", addr = 1 }, { node = \"b\", addr = 2 } ]
link = [ { on = \"w\", a = \"a\", b = \"b\" } ]
flow = [
  { cube = 1, from = { node = \"a\", app = \"s1\", label = \"p1\" }, to = { node = \"b\", app = \"t1\", label = \"q1\" } },
]
%%
send p1 'a
send p1 'a
send p1 'a
send p1 'a
send p1 'a
send p1 'a
in d b 0
in d b 1
clock d a
----
1 0 sent 1.0
2 0 sent 1.1
3 0 sent 1.2
4 0 sent 1.3
5 0 sent 1.4
6 0 no QueueFull 1 0
7 0 idle
8 0 no NoLink
9 0 idle
end 0
####
nodes = [\"a\", \"b\"]
rounds = \"manual\"
[[wire]]
name = \"w\"
ends = [\"a\", \"b\"]
delay = 2
life = 10
largest = 1500
[[dif]]
name = \"d\"
rank = 1
static = true
pdu = 96
widths = { addr = 1, cep = 1, len = 2, seq = 2 }
queue = 5
policy = \"strict\"
wait = 500
manage = { mpl = 40, r = 30, a = 2, retry = 10, window = 8 }
cube = [
  { id = 1, kind = \"datagram\", mpl = 40, window = 16, largest = 80 },
  { id = 2, kind = \"loose\", mpl = 40, window = 16, largest = 240 },
  { id = 3, kind = \"reliable\", mpl = 40, r = 30, a = 2, retry = 10, window = 4, largest = 240 },
]
member = [ { node = \"a\", addr = 1 }, { node = \"b\", addr = 2 } ]
link = [ { on = \"w\", a = \"a\", b = \"b\" } ]
flow = [
  { cube = 1, from = { node = \"a\", app = \"s1\", label = \"p1\" }, to = { node = \"b\", app = \"t1\", label = \"q1\" } },
  { cube = 2, from = { node = \"a\", app = \"s2\", label = \"p2\" }, to = { node = \"b\", app = \"t2\", label = \"q2\" } },
  { cube = 3, from = { node = \"a\", app = \"s3\", label = \"p3\" }, to = { node = \"b\", app = \"t3\", label = \"q3\" } },
]
%%
send p1 'a
send p1 'a
send p1 'a
send p1 'a
send p1 'a
send p1 'a
in d b 0
in d b 1
clock d a
----
1 0 sent 1.0
2 0 sent 1.1
3 0 sent 1.2
4 0 sent 1.3
5 0 sent 1.4
6 0 no QueueFull 1 0
7 0 idle
8 0 no NoLink
9 0 idle
end 0
";
