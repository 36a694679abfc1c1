//! Worked runs of ranks of DIFs, each a stack, a line `%%`, and its rows: the lines that are
//! run, a line `----`, and all that is written. A line `====` parts rows, a line `####` stacks.

pub(crate) static TALL_ROWS: &str = "\
nodes = [\"a\", \"b\"]
[[wire]]
name = \"w\"
ends = [\"a\", \"b\"]
delay = 2
life = 10
largest = 1500
[[dif]]
name = \"d1\"
rank = 1
static = true
pdu = 96
widths = { addr = 1, cep = 1, len = 2, seq = 2 }
queue = 64
policy = \"strict\"
wait = 500
manage = { mpl = 40, r = 30, a = 2, retry = 10, window = 8 }
cube = [ { id = 1, kind = \"datagram\", mpl = 40, window = 16, largest = 80 } ]
member = [ { node = \"a\", addr = 1 }, { node = \"b\", addr = 2 } ]
link = [ { on = \"w\", a = \"a\", b = \"b\" } ]
[[dif]]
name = \"d2\"
rank = 2
static = true
pdu = 80
widths = { addr = 1, cep = 1, len = 2, seq = 2 }
queue = 64
policy = \"strict\"
wait = 500
manage = { mpl = 60, r = 30, a = 2, retry = 10, window = 8 }
cube = [ { id = 1, kind = \"datagram\", mpl = 60, window = 16, largest = 64 } ]
member = [ { node = \"a\", addr = 1 }, { node = \"b\", addr = 2 } ]
link = [ { on = \"d1\", a = \"a\", b = \"b\", cube = 1 } ]
[[dif]]
name = \"d3\"
rank = 3
static = true
pdu = 64
widths = { addr = 1, cep = 1, len = 2, seq = 2 }
queue = 64
policy = \"strict\"
wait = 500
manage = { mpl = 80, r = 30, a = 2, retry = 10, window = 8 }
cube = [ { id = 1, kind = \"datagram\", mpl = 80, window = 16, largest = 48 } ]
member = [ { node = \"a\", addr = 1 }, { node = \"b\", addr = 2 } ]
link = [ { on = \"d2\", a = \"a\", b = \"b\", cube = 1 } ]
flow = [ { cube = 1, from = { node = \"a\", app = \"s\", label = \"p\" }, to = { node = \"b\", app = \"t\", label = \"q\" } } ]
%%
send p 'up
tick 2
read q
----
1 0 sent 1.0
2 2 ok
3 2 got 2 'up
end 2
####
nodes = [\"a\", \"b\"]
rounds = \"manual\"
[[wire]]
name = \"w\"
ends = [\"a\", \"b\"]
delay = 2
life = 10
largest = 1500
[[dif]]
name = \"d1\"
rank = 1
static = true
pdu = 96
widths = { addr = 1, cep = 1, len = 2, seq = 2 }
queue = 64
policy = \"strict\"
wait = 500
manage = { mpl = 40, r = 30, a = 2, retry = 10, window = 8 }
cube = [ { id = 1, kind = \"datagram\", mpl = 40, window = 16, largest = 80 } ]
member = [ { node = \"a\", addr = 1 }, { node = \"b\", addr = 2 } ]
link = [ { on = \"w\", a = \"a\", b = \"b\" } ]
[[dif]]
name = \"d2\"
rank = 2
static = true
pdu = 80
widths = { addr = 1, cep = 1, len = 2, seq = 2 }
queue = 64
policy = \"strict\"
wait = 500
manage = { mpl = 60, r = 30, a = 2, retry = 10, window = 8 }
cube = [ { id = 1, kind = \"datagram\", mpl = 60, window = 16, largest = 64 } ]
member = [ { node = \"a\", addr = 1 }, { node = \"b\", addr = 2 } ]
link = [ { on = \"d1\", a = \"a\", b = \"b\", cube = 1 } ]
[[dif]]
name = \"d3\"
rank = 3
static = true
pdu = 64
widths = { addr = 1, cep = 1, len = 2, seq = 2 }
queue = 64
policy = \"strict\"
wait = 500
manage = { mpl = 80, r = 30, a = 2, retry = 10, window = 8 }
cube = [ { id = 1, kind = \"datagram\", mpl = 80, window = 16, largest = 48 } ]
member = [ { node = \"a\", addr = 1 }, { node = \"b\", addr = 2 } ]
link = [ { on = \"d2\", a = \"a\", b = \"b\", cube = 1 } ]
flow = [ { cube = 1, from = { node = \"a\", app = \"s\", label = \"p\" }, to = { node = \"b\", app = \"t\", label = \"q\" } } ]
%%
send p 'up
out d3 a 0
out d2 a 0
out d1 a 0
tick 2
in d1 b 0
tick 20
in d2 b 0
in d3 b 0
read q
----
1 0 sent 1.0
2 0 out data 1.1.0
3 0 out data 1.1.0
4 0 out data 1.1.0
5 2 ok
6 2 in data 1.1.0 accepted
7 22 ok
8 22 in data 1.1.0 accepted
9 22 in data 1.1.0 accepted
10 22 got 22 'up
end 22
====
send p 'up
out d3 a 0
out d2 a 0
out d1 a 0
tick 2
in d1 b 0
tick 21
in d2 b 0
in d3 b 0
read q
----
1 0 sent 1.0
2 0 out data 1.1.0
3 0 out data 1.1.0
4 0 out data 1.1.0
5 2 ok
6 2 in data 1.1.0 accepted
7 23 ok
8 23 in data 1.1.0 off Expired 20 21
9 23 idle
10 23 none
end 23
####
nodes = [\"a\", \"b\", \"c\", \"d\"]
[[wire]]
name = \"ab\"
ends = [\"a\", \"b\"]
delay = 2
life = 10
largest = 1500
[[wire]]
name = \"bd\"
ends = [\"b\", \"d\"]
delay = 2
life = 10
largest = 1500
[[wire]]
name = \"ac\"
ends = [\"a\", \"c\"]
delay = 2
life = 10
largest = 1500
[[wire]]
name = \"cd\"
ends = [\"c\", \"d\"]
delay = 2
life = 10
largest = 1500
[[dif]]
name = \"d1\"
rank = 1
static = true
pdu = 104
widths = { addr = 1, cep = 1, len = 2, seq = 2 }
queue = 64
policy = \"strict\"
wait = 500
manage = { mpl = 40, r = 30, a = 2, retry = 10, window = 8 }
cube = [ { id = 1, kind = \"datagram\", mpl = 40, window = 16, largest = 88 } ]
member = [ { node = \"a\", addr = 1 }, { node = \"b\", addr = 2 }, { node = \"c\", addr = 3 }, { node = \"d\", addr = 4 } ]
link = [ { on = \"ab\", a = \"a\", b = \"b\" }, { on = \"bd\", a = \"b\", b = \"d\" }, { on = \"ac\", a = \"a\", b = \"c\" }, { on = \"cd\", a = \"c\", b = \"d\" } ]
[[dif]]
name = \"d2\"
rank = 2
static = true
pdu = 88
widths = { addr = 1, cep = 1, len = 2, seq = 2 }
queue = 64
policy = \"strict\"
wait = 500
manage = { mpl = 60, r = 30, a = 2, retry = 10, window = 8 }
cube = [ { id = 1, kind = \"datagram\", mpl = 60, window = 16, largest = 72 } ]
member = [ { node = \"a\", addr = 1 }, { node = \"d\", addr = 2 } ]
link = [ { on = \"d1\", a = \"a\", b = \"d\", cube = 1 } ]
[[dif]]
name = \"d3\"
rank = 3
static = true
pdu = 72
widths = { addr = 1, cep = 1, len = 2, seq = 2 }
queue = 64
policy = \"strict\"
wait = 500
manage = { mpl = 80, r = 30, a = 2, retry = 10, window = 8 }
cube = [ { id = 1, kind = \"datagram\", mpl = 80, window = 16, largest = 56 } ]
member = [ { node = \"a\", addr = 1 }, { node = \"d\", addr = 2 } ]
link = [ { on = \"d2\", a = \"a\", b = \"d\", cube = 1 } ]
[[dif]]
name = \"d4\"
rank = 4
static = true
pdu = 56
widths = { addr = 1, cep = 1, len = 2, seq = 2 }
queue = 64
policy = \"strict\"
wait = 500
manage = { mpl = 100, r = 30, a = 2, retry = 10, window = 16 }
cube = [ { id = 1, kind = \"reliable\", mpl = 100, r = 30, a = 2, retry = 10, window = 4, largest = 40 } ]
member = [ { node = \"a\", addr = 1 }, { node = \"d\", addr = 2 } ]
link = [ { on = \"d3\", a = \"a\", b = \"d\", cube = 1 } ]
flow = [ { cube = 1, from = { node = \"a\", app = \"s\", label = \"p\" }, to = { node = \"d\", app = \"t\", label = \"q\" } } ]
%%
send p 'one
tick 4
read q
cut ab
send p 'two
tick 4
read q
cut ac
----
1 0 sent 1.0
2 4 ok
3 4 got 4 'one
4 4 ok
5 4 sent 1.1
6 8 ok
7 8 got 8 'two
8 8 ok
8 8 state p failed Below d3/a/1
end 8
====
cut ab
mend ab
enrol d1 a ab b
tick 100
cut ac
send p 'x
tick 4
read q
----
1 0 ok
2 0 ok
3 0 ok
4 100 ok
5 100 ok
6 100 sent 1.0
7 104 ok
8 104 got 104 'x
end 104
";
