//! Worked runs in which IPC processes enrol, each a stack, a line `%%`, and its rows: the lines that are
//! run, a line `----`, and all that is written. A line `====` parts rows, a line `####` stacks.

pub(crate) static ENROL_ROWS: &str = "\
nodes = [\"a\", \"b\"]
[[wire]]
name = \"w\"
ends = [\"a\", \"b\"]
delay = 2
life = 10
largest = 1500
[[dif]]
name = \"d\"
rank = 1
pdu = 400
widths = { addr = 1, cep = 1, len = 2, seq = 2 }
queue = 64
policy = \"strict\"
wait = 500
manage = { mpl = 40, r = 30, a = 2, retry = 10, window = 8 }
cube = [
  { id = 1, kind = \"datagram\", mpl = 40, window = 16, largest = 80 },
]
member = [ { node = \"a\", addr = 1 }, { node = \"b\", addr = 2 } ]
%%
publish d a w
enrol d b w a
lose w 0
tick 10
repeat w 1 13
tick 90
member d b
ledger d a
rib d b
----
1 0 ok
2 0 ok
3 0 ok
4 10 ok
5 10 ok
6 100 ok
7 100 ok enrolled
8 100 off data 0.0.0 Duplicate 0.0
9 100 obj / folder x
9 100 obj /cube folder x
9 100 obj /cube/1 cube 'datagram
9 100 obj /dir folder x
9 100 obj /flow folder x
9 100 obj /link folder x
9 100 obj /link/1 value '2:1
9 100 obj /link/2 value '1:1
9 100 obj /member folder x
9 100 obj /member/1 value 'a
9 100 obj /member/2 value 'b
9 100 obj /user folder x
end 100
====
enrol d b w a
----
1 0 no NoSuchApp
end 0
====
publish d a w
register d a echo
enrol d b w a
tick 7
member d b
tick 1
member d b
rib d b /dir
rib d b /link
rib d a /link
rib d a /member
tick 2
rib d a /link
rib d a /member
rib d b /link
----
1 0 ok
2 0 ok
3 0 ok
4 7 ok
5 7 ok joining 0
6 8 ok
7 8 ok enrolled
8 8 obj /dir folder x
8 8 obj /dir/echo value '1
9 8 obj /link folder x
9 8 obj /link/1 value '2:1
9 8 obj /link/2 value '1:1
10 8 obj /link folder x
10 8 obj /link/1 value '2:1
11 8 obj /member folder x
11 8 obj /member/1 value 'a
12 10 ok
13 10 obj /link folder x
13 10 obj /link/1 value '2:1
13 10 obj /link/2 value '1:1
14 10 obj /member folder x
14 10 obj /member/1 value 'a
14 10 obj /member/2 value 'b
15 10 obj /link folder x
15 10 obj /link/1 value '2:1
15 10 obj /link/2 value '1:1
end 10
====
publish d b w
enrol d a w b
tick 20
member d a
member d b
rib d a /link
enrol d b w a
----
1 0 ok
2 0 ok
3 20 ok
4 20 ok enrolled
5 20 ok outside
6 20 obj /link folder x
7 20 no NoSuchApp
end 20
====
publish d a w
enrol d b w a
tick 3
cut w
member d b
enrol d b w a
mend w
enrol d b w a
member d b
tick 20
member d b
rib d b /link
----
1 0 ok
2 0 ok
3 3 ok
4 3 ok
5 3 ok outside
6 3 no NoRoute 0
7 3 ok
8 3 ok
9 3 ok joining 0
10 23 ok
11 23 ok enrolled
12 23 obj /link folder x
12 23 obj /link/1 value '2:1
12 23 obj /link/2 value '1:1
end 23
####
nodes = [\"a\", \"b\"]
[[wire]]
name = \"w\"
ends = [\"a\", \"b\"]
delay = 2
life = 10
largest = 1500
[[dif]]
name = \"d\"
rank = 1
pdu = 400
widths = { addr = 1, cep = 1, len = 2, seq = 2 }
queue = 64
policy = \"strict\"
wait = 500
manage = { mpl = 40, r = 30, a = 2, retry = 10, window = 8 }
cube = [
  { id = 1, kind = \"datagram\", mpl = 40, window = 16, largest = 80 },
]
member = [ { node = \"a\", addr = 1 }, { node = \"b\", addr = 2 } ]
rule = [ { subject = \"d/b\", act = \"enrol\", allow = false } ]
%%
publish d a w
enrol d b w a
member d b
tick 4
member d b
----
1 0 ok
2 0 ok
3 0 ok joining 0
4 4 ok
5 4 ok denied 1
end 4
====
publish d a w
enrol d b w a
tick 4
enrol d b w a
tick 100
member d b
rib d a /link
rib d b /member
----
1 0 ok
2 0 ok
3 4 ok
4 4 no Busy w/b/1
5 104 ok
6 104 ok denied 1
7 104 obj /link folder x
8 104 obj /member folder x
end 104
####
nodes = [\"a\", \"b\"]
[[wire]]
name = \"w\"
ends = [\"a\", \"b\"]
delay = 2
life = 10
largest = 1500
[[dif]]
name = \"d\"
rank = 1
pdu = 400
widths = { addr = 1, cep = 1, len = 2, seq = 2 }
queue = 64
policy = \"strict\"
wait = 500
manage = { mpl = 40, r = 30, a = 2, retry = 10, window = 8 }
cube = [
  { id = 1, kind = \"datagram\", mpl = 40, window = 16, largest = 80 },
]
member = [ { node = \"a\", addr = 1 }, { node = \"b\", addr = 2 } ]
rule = [ { subject = \"d/b\", act = \"allocate\", allow = true }, { subject = \"c\", act = \"enrol\", allow = true } ]
default = false
%%
publish d a w
enrol d b w a
tick 4
member d b
----
1 0 ok
2 0 ok
3 4 ok
4 4 ok denied 0
end 4
####
nodes = [\"a\", \"b\"]
rounds = \"manual\"
[[wire]]
name = \"w\"
ends = [\"a\", \"b\"]
delay = 2
life = 10
largest = 1500
[[dif]]
name = \"d\"
rank = 1
pdu = 400
widths = { addr = 1, cep = 1, len = 2, seq = 2 }
queue = 64
policy = \"strict\"
wait = 500
manage = { mpl = 40, r = 30, a = 2, retry = 10, window = 8 }
cube = [
  { id = 1, kind = \"datagram\", mpl = 40, window = 16, largest = 80 },
]
member = [ { node = \"a\", addr = 1 }, { node = \"b\", addr = 2 } ]
%%
publish d a w
in d b 0
enrol d b w a
in d b 0
in d a 0
clock d a
clock d a
in d a 0
clock d b
clock d b
out d b 0
out d b 0
tick 2
in d a 0
clock d a
clock d a
out d a 0
tick 2
in d b 0
clock d b
clock d a
out d a 0
out d b 0
tick 2
in d a 0
in d b 0
clock d a
clock d a
clock d a
clock d a
clock d a
round
tick 2
member d b
in d b 0
in d b 0
member d b
in d b 0
member d b
in d b 0
in d b 0
round
tick 2
round
rib d a /member
----
1 0 ok
2 0 no NoLink
3 0 ok
4 0 idle
5 0 no NoLink
6 0 clock link-new 0
7 0 idle
8 0 idle
9 0 clock message 0
10 0 idle
11 0 out data 0.0.0
12 0 idle
13 2 ok
14 2 in data 0.0.0 accepted
15 2 clock message 0
16 2 idle
17 2 out data 0.0.0
18 4 ok
19 4 in data 0.0.0 accepted
20 4 clock message 0
21 4 clock ack 0
22 4 out ack 0.0.0
23 4 out data 0.0.1
24 6 ok
25 6 in data 0.0.1 accepted
26 6 in ack 0.0.0 accepted
27 6 clock message 0
28 6 clock message 0
29 6 clock message 0
30 6 clock message 0
31 6 idle
32 6 ok
33 8 ok
34 8 ok joining 0
35 8 in data 0.0.1 accepted
36 8 in data 0.0.2 accepted
37 8 ok joining 0
38 8 in data 0.0.3 accepted
39 8 ok enrolled
40 8 in data 0.0.4 accepted
41 8 idle
42 8 ok
43 10 ok
44 10 ok
45 10 obj /member folder x
45 10 obj /member/1 value 'a
45 10 obj /member/2 value 'b
end 10
####
nodes = [\"a\", \"b\", \"c\"]
[[wire]]
name = \"w\"
ends = [\"a\", \"b\"]
delay = 2
life = 10
largest = 1500
[[wire]]
name = \"v\"
ends = [\"b\", \"c\"]
delay = 2
life = 10
largest = 1500
[[wire]]
name = \"x\"
ends = [\"a\", \"b\"]
delay = 2
life = 10
largest = 1500
[[dif]]
name = \"d\"
rank = 1
pdu = 400
widths = { addr = 1, cep = 1, len = 2, seq = 2 }
queue = 64
policy = \"strict\"
wait = 500
manage = { mpl = 40, r = 30, a = 2, retry = 10, window = 8 }
cube = [ { id = 1, kind = \"datagram\", mpl = 40, window = 16, largest = 80 } ]
member = [ { node = \"a\", addr = 1 }, { node = \"b\", addr = 2 }, { node = \"c\", addr = 3 } ]
%%
publish d a w
publish d a x
enrol d b w a
tick 8
enrol d b x a
member d b
enrol d b x a
tick 10
enrol d b x a
rib d a /link
rib d b /link
cut w
tick 4
rib d a /link
rib d b /link
member d b
----
1 0 ok
2 0 ok
3 0 ok
4 8 ok
5 8 ok
6 8 ok enrolled
7 8 no Enrolling 1
8 18 ok
9 18 no Busy x/b/1
10 18 obj /link folder x
10 18 obj /link/1 value '2:1,2:1
10 18 obj /link/2 value '1:1,1:1
11 18 obj /link folder x
11 18 obj /link/1 value '2:1,2:1
11 18 obj /link/2 value '1:1,1:1
12 18 ok
13 22 ok
14 22 obj /link folder x
14 22 obj /link/1 value '2:1
14 22 obj /link/2 value '1:1
15 22 obj /link folder x
15 22 obj /link/1 value '2:1
15 22 obj /link/2 value '1:1
16 22 ok enrolled
end 22
====
publish d c v
enrol d b v c
tick 4
member d b
member d c
publish d a w
enrol d b w a
member d b
tick 8
member d b
publish d b v
enrol d c v b
----
1 0 ok
2 0 ok
3 4 ok
4 4 ok denied 257
5 4 ok outside
6 4 ok
7 4 ok
8 4 ok joining 1
9 12 ok
10 12 ok enrolled
11 12 ok
12 12 no Busy v/c/1
end 12
====
publish d a w
enrol d b w a
tick 10
publish d b v
enrol d c v b
lose v 0
tick 17
member d c
tick 1
member d c
register d c echo
tick 6
rib d a
rib d c /link
----
1 0 ok
2 0 ok
3 10 ok
4 10 ok
5 10 ok
6 10 ok
7 27 ok
8 27 ok joining 0
9 28 ok
10 28 ok enrolled
11 28 ok
12 34 ok
13 34 obj / folder x
13 34 obj /cube folder x
13 34 obj /cube/1 cube 'datagram
13 34 obj /dir folder x
13 34 obj /dir/echo value '3
13 34 obj /flow folder x
13 34 obj /link folder x
13 34 obj /link/1 value '2:1
13 34 obj /link/2 value '1:1,3:1
13 34 obj /link/3 value '2:1
13 34 obj /member folder x
13 34 obj /member/1 value 'a
13 34 obj /member/2 value 'b
13 34 obj /member/3 value 'c
13 34 obj /user folder x
14 34 obj /link folder x
14 34 obj /link/1 value '2:1
14 34 obj /link/2 value '1:1,3:1
14 34 obj /link/3 value '2:1
end 34
";
