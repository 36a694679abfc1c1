//! What a check tells: each is the input, a line `----`, and all that is written. A line `====` parts them.

pub(crate) static CHECK_ROWS: &str = "\
nodes = [\"a\", \"b\"]
[[wire]]
name = \"w\"
ends = [\"a\", \"b\"]
delay = 2
life = 10
largest = 1500
%%
register w b echo
alloc p w a ping echo
accept q w b echo
send p 'hello
tick 2
read q
----
checked 2 1 0 6
====
nodes = [\"a\", \"b\"]
[[wire]]
name = \"w\"
ends = [\"a\", \"b\"]
delay = 2
life = 10
largest = 1500
[[dif]]
name = \"d\"
rank = 1
static = true
pdu = 96
widths = { addr = 1, cep = 1, len = 2, seq = 2 }
queue = 64
policy = \"strict\"
wait = 500
manage = { mpl = 40, r = 30, a = 2, retry = 10, window = 8 }
cube = [ { id = 1, kind = \"datagram\", mpl = 40, window = 16, largest = 80 } ]
member = [ { node = \"a\", addr = 1 }, { node = \"b\", addr = 2 } ]
link = [ { on = \"w\", a = \"a\", b = \"b\" } ]
flow = [ { cube = 1, from = { node = \"a\", app = \"s\", label = \"p\" }, to = { node = \"b\", app = \"t\", label = \"q\" } } ]
%%
# Lines without an event are not counted.

send p 'a
tick 3
#read q

read q
----
checked 2 1 1 3
====
nodes = [\"a\"]
----
checked 1 0 0 0
====
nodes = [\"a\", \"b\"]
[[wire]]
name = \"w\"
ends = [\"a\", \"b\"]
delay = 2
life = 10
largest = 1500
%%
send none 'x
cut none
retire none
----
checked 2 1 0 3
====
nodes = [\"a\", \"b\"]
[[wire]]
name = \"w\"
ends = [\"a\", \"b\"]
delay = 2
life = 10
largest = 1500
%%
tick 1

tick x
go
----
fault Schedule 3 3 1
====
nodes = [
----
fault NotToml
====
nodes = [\"a\", \"b\"]
[[wire]]
name = \"w\"
ends = [\"a\", \"a\"]
delay = 2
life = 10
largest = 1500
%%
tick x
----
fault StackRule 8 1
====
nodes = [\"a\", \"b\"]
[[wire]]
name = \"w\"
ends = [\"a\", \"b\"]
delay = 0
life = 10
largest = 1500
----
fault StackRule 6 1
";
