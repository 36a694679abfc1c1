//! Worked runs in which a DIF refuses to ask for flows, each a stack, a line `%%`, and its rows: the lines that are run, a line `----`,
//! and all that is written. A line `====` parts rows, a line `####` stacks.

pub(crate) static ASK_REFUSALS: &str = "\
nodes = [\"a\", \"b\", \"c\"]
[[wire]]
name = \"w\"
ends = [\"a\", \"b\"]
delay = 2
life = 10
largest = 1500
[[wire]]
name = \"v\"
ends = [\"b\", \"c\"]
delay = 2
life = 10
largest = 1500
[[dif]]
name = \"d\"
rank = 1
static = true
pdu = 400
widths = { addr = 1, cep = 1, len = 2, seq = 2 }
queue = 64
policy = \"strict\"
wait = 500
manage = { mpl = 40, r = 30, a = 2, retry = 10, window = 8 }
cube = [
  { id = 1, kind = \"datagram\", mpl = 40, window = 16, largest = 80 },
  { id = 3, kind = \"reliable\", mpl = 40, r = 30, a = 2, retry = 10, window = 4, largest = 240 },
]
member = [ { node = \"a\", addr = 1 }, { node = \"b\", addr = 2 }, { node = \"c\", addr = 3 } ]
link = [ { on = \"w\", a = \"a\", b = \"b\" }, { on = \"v\", a = \"b\", b = \"c\" } ]
%%
alloc p d a ping echo
register d c echo
alloc p d a ping echo
alloc p d c ping echo
tick 2
alloc p1 d b ping echo
alloc p d a ping echo
tick 2
alloc p2 d a ping echo
alloc p d a ping echo reliable within=69
alloc p x a ping echo
cut v
tick 1
round
alloc p d b ping echo
tick 2
alloc p d a ping echo
alloc p d c ping echo
unregister d c echo
alloc p d c ping echo
----
1 0 no NoSuchApp
2 0 ok
3 0 no NoSuchApp
4 0 no SameSystem
5 2 ok
6 2 ok pending
7 2 no NoSuchApp
8 4 ok
9 4 ok pending
10 4 no NoCube
11 4 no Unknown 2
12 4 ok
13 5 ok
14 5 ok
15 5 no NoRoute 3
16 7 ok
17 7 no NoRoute 3
18 7 no SameSystem
19 7 ok
20 7 no NoSuchApp
end 7
";
