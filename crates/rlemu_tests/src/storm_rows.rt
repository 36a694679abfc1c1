//! Worked runs over a wire with a storm whose outcome does not depend on what is drawn: each is the input, a line
//! `----`, and all that is written. A line `====` parts them.

pub(crate) static STORM_ROWS: &str = "\
nodes = [\"a\", \"b\"]
[[wire]]
name = \"w\"
ends = [\"a\", \"b\"]
delay = 2
life = 10
largest = 1500
storm = { seed = 1, lose = 1000, repeat = 1000, spread = 8 }
%%
register w b echo
alloc p w a ping echo
accept q w b echo
send p 'one
send q 'two
lose w 0
repeat w 1 5
tick 10
read q
read p
journal w
----
1 0 ok
2 0 ok allocated
3 0 ok allocated
4 0 sent 0.0
5 0 sent 0.1
6 0 no NoFrame 0
7 0 no NoFrame 1
8 10 ok
9 10 none
10 10 none
11 10 flow 1.0.0 asker w/a/1 ping echo 0 0 allocated
11 10 s 0 0.0 'one
11 10 flow 1.0.0 far w/b/1 echo ping 0 0 allocated
11 10 s 0 0.1 'two
end 10
====
nodes = [\"a\", \"b\"]
[[wire]]
name = \"w\"
ends = [\"a\", \"b\"]
delay = 2
life = 10
largest = 1500
storm = { seed = 2, lose = 0, repeat = 1000, spread = 0 }
%%
register w b echo
alloc p w a ping echo
accept q w b echo
send p 'one
send p 'two
tick 1
read q
tick 1
read q
tick 8
read q
----
1 0 ok
2 0 ok allocated
3 0 ok allocated
4 0 sent 0.0
5 0 sent 0.1
6 1 ok
7 1 none
8 2 ok
9 2 got 2 'one
9 2 got 2 'one
9 2 got 2 'two
9 2 got 2 'two
10 10 ok
11 10 none
end 10
====
nodes = [\"a\", \"b\"]
[[wire]]
name = \"w\"
ends = [\"a\", \"b\"]
delay = 2
life = 10
largest = 1500
storm = { seed = 3, lose = 0, repeat = 0, spread = 3 }
%%
register w b echo
alloc p w a ping echo
accept q w b echo
send p 'one
send p 'two
tick 1
read q
hold w 0 6
tick 4
lose w 1
lose w 0
----
1 0 ok
2 0 ok allocated
3 0 ok allocated
4 0 sent 0.0
5 0 sent 0.1
6 1 ok
7 1 none
8 1 ok
9 5 ok
10 5 no NoFrame 1
11 5 ok
end 5
====
nodes = [\"a\", \"b\"]
[[wire]]
name = \"w\"
ends = [\"a\", \"b\"]
delay = 2
life = 10
largest = 1500
storm = { seed = 9007199254740991, lose = 0, repeat = 0, spread = 0 }
%%
register w b echo
alloc p w a ping echo
accept q w b echo
send p 'one
tick 2
read q
----
1 0 ok
2 0 ok allocated
3 0 ok allocated
4 0 sent 0.0
5 2 ok
6 2 got 2 'one
end 2
====
nodes = [\"a\", \"b\"]
[[wire]]
name = \"w\"
ends = [\"a\", \"b\"]
delay = 2
life = 10
largest = 1500
storm = { seed = 4, lose = 0, repeat = 1000, spread = 0 }
[[dif]]
name = \"d\"
rank = 1
static = true
pdu = 96
widths = { addr = 1, cep = 1, len = 2, seq = 2 }
queue = 64
policy = \"strict\"
wait = 500
manage = { mpl = 40, r = 30, a = 2, retry = 10, window = 8 }
cube = [ { id = 1, kind = \"datagram\", mpl = 40, window = 16, largest = 80 } ]
member = [ { node = \"a\", addr = 1 }, { node = \"b\", addr = 2 } ]
link = [ { on = \"w\", a = \"a\", b = \"b\" } ]
flow = [ { cube = 1, from = { node = \"a\", app = \"s\", label = \"p\" }, to = { node = \"b\", app = \"t\", label = \"q\" } } ]
%%
send p 'hello
tick 2
read q
ledger d b
tick 8
read q
----
1 0 sent 1.0
2 2 ok
3 2 got 2 'hello
4 2 off data 1.1.0 Duplicate 1.0
5 10 ok
6 10 none
end 10
====
nodes = [\"a\", \"b\"]
[[wire]]
name = \"w\"
ends = [\"a\", \"b\"]
delay = 2
life = 10
largest = 1500
storm = { seed = 5, lose = 0, repeat = 0, spread = 9 }
%%
tick 1
----
fault StackRule 8 1
";
