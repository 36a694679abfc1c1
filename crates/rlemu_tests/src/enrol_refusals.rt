//! Worked runs in which an enrolment is refused, each a stack, a line `%%`, and its rows: the lines that are
//! run, a line `----`, and all that is written. A line `====` parts rows, a line `####` stacks.

pub(crate) static ENROL_REFUSALS: &str = "\
nodes = [\"a\", \"b\", \"c\"]
[[wire]]
name = \"w\"
ends = [\"a\", \"b\"]
delay = 2
life = 10
largest = 1500
[[wire]]
name = \"v\"
ends = [\"b\", \"c\"]
delay = 2
life = 10
largest = 1500
[[wire]]
name = \"s\"
ends = [\"a\", \"b\"]
delay = 2
life = 10
largest = 399
[[wire]]
name = \"x\"
ends = [\"a\", \"b\"]
delay = 2
life = 10
largest = 1500
[[dif]]
name = \"d\"
rank = 1
pdu = 400
widths = { addr = 1, cep = 1, len = 2, seq = 2 }
queue = 64
policy = \"strict\"
wait = 500
manage = { mpl = 40, r = 30, a = 2, retry = 10, window = 8 }
cube = [ { id = 1, kind = \"datagram\", mpl = 40, window = 16, largest = 80 } ]
member = [ { node = \"a\", addr = 1 }, { node = \"b\", addr = 2 } ]
[[dif]]
name = \"low\"
rank = 1
static = true
pdu = 400
widths = { addr = 1, cep = 1, len = 2, seq = 2 }
queue = 64
policy = \"strict\"
wait = 500
manage = { mpl = 40, r = 30, a = 2, retry = 10, window = 8 }
cube = [ { id = 1, kind = \"datagram\", mpl = 40, window = 16, largest = 380 } ]
member = [ { node = \"a\", addr = 1 }, { node = \"b\", addr = 2 } ]
link = [ { on = \"x\", a = \"a\", b = \"b\" } ]
[[dif]]
name = \"high\"
rank = 2
pdu = 380
widths = { addr = 1, cep = 1, len = 2, seq = 2 }
queue = 64
policy = \"strict\"
wait = 500
manage = { mpl = 40, r = 30, a = 2, retry = 10, window = 8 }
cube = [ { id = 1, kind = \"datagram\", mpl = 40, window = 16, largest = 80 } ]
member = [ { node = \"a\", addr = 1 }, { node = \"b\", addr = 2 } ]
%%
enrol e z z z
enrol d z z z
enrol d c z z
enrol d b z a
enrol d b low a
enrol high b w a
enrol high b high a
enrol d b w z
enrol d c v b
enrol d b v c
enrol d a v b
enrol d b s a
enrol d b w a
publish d b w
enrol d b w b
enrol d b w a
member d b
rib d b
----
1 0 no Unknown 1
2 0 no Unknown 2
3 0 no Unknown 3
4 0 no Unknown 3
5 0 no Unknown 3
6 0 no Unknown 3
7 0 no Unknown 3
8 0 no Unknown 4
9 0 no NoIpc
10 0 no NoIpc
11 0 no NoMember
12 0 no NoCube
13 0 no NoSuchApp
14 0 ok
15 0 no SameSystem
16 0 no NoSuchApp
17 0 ok outside
18 0 obj / folder x
18 0 obj /cube folder x
18 0 obj /cube/1 cube 'datagram
18 0 obj /dir folder x
18 0 obj /flow folder x
18 0 obj /link folder x
18 0 obj /member folder x
18 0 obj /user folder x
end 0
====
publish high a low
enrol high b low a
enrol high a low b
member high b
----
1 0 ok
2 0 no NoSuchApp
3 0 no NoSuchApp
4 0 ok outside
end 0
====
publish d a w
register w a echo
alloc p w b ping echo
enrol d b w a
free p
enrol d b w a
enrol d b w a
tick 8
member d b
----
1 0 ok
2 0 ok
3 0 ok allocated
4 0 no Busy w/b/1
5 0 ok
5 0 state p closed
6 0 ok
7 0 no Enrolling 0
8 8 ok
9 8 ok enrolled
end 8
####
nodes = [\"a\", \"b\"]
wire = [
  { name = \"w0\", ends = [\"a\", \"b\"], delay = 2, life = 10, largest = 1500 },
  { name = \"w1\", ends = [\"a\", \"b\"], delay = 2, life = 10, largest = 1500 },
  { name = \"w2\", ends = [\"a\", \"b\"], delay = 2, life = 10, largest = 1500 },
  { name = \"w3\", ends = [\"a\", \"b\"], delay = 2, life = 10, largest = 1500 },
  { name = \"w4\", ends = [\"a\", \"b\"], delay = 2, life = 10, largest = 1500 },
  { name = \"w5\", ends = [\"a\", \"b\"], delay = 2, life = 10, largest = 1500 },
  { name = \"w6\", ends = [\"a\", \"b\"], delay = 2, life = 10, largest = 1500 },
  { name = \"w7\", ends = [\"a\", \"b\"], delay = 2, life = 10, largest = 1500 },
  { name = \"w8\", ends = [\"a\", \"b\"], delay = 2, life = 10, largest = 1500 },
  { name = \"w9\", ends = [\"a\", \"b\"], delay = 2, life = 10, largest = 1500 },
  { name = \"w10\", ends = [\"a\", \"b\"], delay = 2, life = 10, largest = 1500 },
  { name = \"w11\", ends = [\"a\", \"b\"], delay = 2, life = 10, largest = 1500 },
  { name = \"w12\", ends = [\"a\", \"b\"], delay = 2, life = 10, largest = 1500 },
  { name = \"w13\", ends = [\"a\", \"b\"], delay = 2, life = 10, largest = 1500 },
  { name = \"w14\", ends = [\"a\", \"b\"], delay = 2, life = 10, largest = 1500 },
  { name = \"w15\", ends = [\"a\", \"b\"], delay = 2, life = 10, largest = 1500 },
  { name = \"w16\", ends = [\"a\", \"b\"], delay = 2, life = 10, largest = 1500 },
]
[[dif]]
name = \"d\"
rank = 1
static = true
pdu = 400
widths = { addr = 1, cep = 1, len = 2, seq = 2 }
queue = 64
policy = \"strict\"
wait = 500
manage = { mpl = 40, r = 30, a = 2, retry = 10, window = 8 }
cube = [ { id = 1, kind = \"datagram\", mpl = 40, window = 16, largest = 80 } ]
member = [ { node = \"a\", addr = 1 }, { node = \"b\", addr = 2 } ]
link = [
  { on = \"w0\", a = \"a\", b = \"b\" }, { on = \"w1\", a = \"a\", b = \"b\" }, { on = \"w2\", a = \"a\", b = \"b\" }, { on = \"w3\", a = \"a\", b = \"b\" },
  { on = \"w4\", a = \"a\", b = \"b\" }, { on = \"w5\", a = \"a\", b = \"b\" }, { on = \"w6\", a = \"a\", b = \"b\" }, { on = \"w7\", a = \"a\", b = \"b\" },
  { on = \"w8\", a = \"a\", b = \"b\" }, { on = \"w9\", a = \"a\", b = \"b\" }, { on = \"w10\", a = \"a\", b = \"b\" }, { on = \"w11\", a = \"a\", b = \"b\" },
  { on = \"w12\", a = \"a\", b = \"b\" }, { on = \"w13\", a = \"a\", b = \"b\" }, { on = \"w14\", a = \"a\", b = \"b\" }, { on = \"w15\", a = \"a\", b = \"b\" },
]
%%
enrol d b w16 a
publish d a w16
cut w3
enrol d b w16 a
tick 8
enrol d b w16 a
rib d a /link/1
----
1 0 no LinksFull 16
2 0 ok
3 0 ok
4 0 ok
5 8 ok
6 8 no LinksFull 16
7 8 obj /link/1 value '2:1,2:1,2:1,2:1,2:1,2:1,2:1,2:1,2:1,2:1,2:1,2:1,2:1,2:1,2:1,2:1
end 8
";
