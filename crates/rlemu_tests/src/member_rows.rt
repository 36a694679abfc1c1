//! Worked runs of DIFs that are not static, each a stack, a line `%%`, and its rows: the lines that are
//! run, a line `----`, and all that is written. A line `====` parts rows, a line `####` stacks.

pub(crate) static MEMBER_ROWS: &str = "\
nodes = [\"a\", \"b\", \"c\"]
[[wire]]
name = \"w\"
ends = [\"a\", \"b\"]
delay = 2
life = 10
largest = 1500
[[wire]]
name = \"v\"
ends = [\"b\", \"c\"]
delay = 2
life = 10
largest = 1500
[[dif]]
name = \"d\"
rank = 1
pdu = 400
widths = { addr = 1, cep = 1, len = 2, seq = 2 }
queue = 64
policy = \"strict\"
wait = 500
manage = { mpl = 40, r = 30, a = 2, retry = 10, window = 8 }
cube = [ { id = 1, kind = \"datagram\", mpl = 40, window = 16, largest = 80 } ]
member = [ { node = \"a\", addr = 1 }, { node = \"b\", addr = 2 } ]
%%
member d a
member d b
publish d a w
publish d a w
register d b echo
----
1 0 ok enrolled
2 0 ok outside
3 0 ok
4 0 no Already
5 0 no NoMember
end 0
====
member d c
member x a
member d x
publish d c w
publish x a w
publish d x w
publish d a x
publish d a d
publish d a v
publish d b w
publish d b v
----
1 0 no NoIpc
2 0 no Unknown 1
3 0 no Unknown 2
4 0 no NoIpc
5 0 no Unknown 1
6 0 no Unknown 2
7 0 no Unknown 3
8 0 no Unknown 3
9 0 no NoMember
10 0 ok
11 0 ok
end 0
====
rib d a
rib d b
register d a echo
rib d a /dir
rib d b /dir
unregister d b echo
alloc p d b ping echo
alloc p d a ping echo ordered
alloc p d a ping echo
accept q d b echo
journal d
ledger d b
register w a d/a
tick 100
member d b
rib d b /dir
----
1 0 obj / folder x
1 0 obj /cube folder x
1 0 obj /cube/1 cube 'datagram
1 0 obj /dir folder x
1 0 obj /flow folder x
1 0 obj /link folder x
1 0 obj /member folder x
1 0 obj /member/1 value 'a
1 0 obj /user folder x
2 0 obj / folder x
2 0 obj /cube folder x
2 0 obj /cube/1 cube 'datagram
2 0 obj /dir folder x
2 0 obj /flow folder x
2 0 obj /link folder x
2 0 obj /member folder x
2 0 obj /user folder x
3 0 ok
4 0 obj /dir folder x
4 0 obj /dir/echo value '1
5 0 obj /dir folder x
6 0 no NotThere
7 0 no NoMember
8 0 no NoCube
9 0 no SameSystem
10 0 none
11 0 none
12 0 none
13 0 no NotYours
14 100 ok
15 100 ok outside
16 100 obj /dir folder x
end 100
====
in d a 0
out d b 0
clock d b
round
enrol d b w a
----
1 0 no NoLink
2 0 no NoLink
3 0 idle
4 0 ok
5 0 no NoSuchApp
end 0
####
nodes = [\"a\", \"b\", \"c\"]
[[wire]]
name = \"w\"
ends = [\"a\", \"b\"]
delay = 2
life = 10
largest = 1500
[[dif]]
name = \"low\"
rank = 1
static = true
pdu = 400
widths = { addr = 1, cep = 1, len = 2, seq = 2 }
queue = 64
policy = \"strict\"
wait = 500
manage = { mpl = 40, r = 30, a = 2, retry = 10, window = 8 }
cube = [ { id = 1, kind = \"datagram\", mpl = 40, window = 16, largest = 380 } ]
member = [ { node = \"a\", addr = 1 }, { node = \"b\", addr = 2 } ]
link = [ { on = \"w\", a = \"a\", b = \"b\" } ]
[[dif]]
name = \"high\"
rank = 2
pdu = 380
widths = { addr = 1, cep = 1, len = 2, seq = 2 }
queue = 64
policy = \"strict\"
wait = 500
manage = { mpl = 40, r = 30, a = 2, retry = 10, window = 8 }
cube = [ { id = 1, kind = \"datagram\", mpl = 40, window = 16, largest = 80 } ]
member = [ { node = \"b\", addr = 7 }, { node = \"a\", addr = 8 }, { node = \"c\", addr = 9 } ]
%%
member low a
member low b
member high a
member high b
publish high a w
publish high c low
publish high a low
rib low a /dir
tick 2
rib low b /dir
publish high a low
publish low a w
publish low b w
----
1 0 ok enrolled
2 0 ok enrolled
3 0 ok outside
4 0 ok enrolled
5 0 no Unknown 3
6 0 no NoMember
7 0 ok
8 0 obj /dir folder x
8 0 obj /dir/high!a value '1
9 2 ok
10 2 obj /dir folder x
10 2 obj /dir/high!a value '1
11 2 no Already
12 2 ok
13 2 no Already
end 2
####
nodes = [\"a\", \"b\"]
[[wire]]
name = \"w\"
ends = [\"a\", \"b\"]
delay = 2
life = 10
largest = 1500
[[dif]]
name = \"low\"
rank = 1
pdu = 400
widths = { addr = 1, cep = 1, len = 2, seq = 2 }
queue = 64
policy = \"strict\"
wait = 500
manage = { mpl = 40, r = 30, a = 2, retry = 10, window = 8 }
cube = [ { id = 1, kind = \"datagram\", mpl = 40, window = 16, largest = 380 } ]
member = [ { node = \"a\", addr = 1 }, { node = \"b\", addr = 2 } ]
[[dif]]
name = \"high\"
rank = 2
pdu = 380
widths = { addr = 1, cep = 1, len = 2, seq = 2 }
queue = 64
policy = \"strict\"
wait = 500
manage = { mpl = 40, r = 30, a = 2, retry = 10, window = 8 }
cube = [ { id = 1, kind = \"datagram\", mpl = 40, window = 16, largest = 80 } ]
member = [ { node = \"a\", addr = 1 }, { node = \"b\", addr = 2 } ]
%%
publish high a low
publish high b low
----
1 0 ok
2 0 no NoMember
end 0
";
