//! Worked runs over one wire, and inputs that end before their first line: each is the input, a line `----`,
//! and all that is written. A line `====` parts them.

pub(crate) static WIRE_ROWS: &str = "\
nodes = [\"a\", \"b\"]
[[wire]]
name = \"w\"
ends = [\"a\", \"b\"]
delay = 2
life = 10
largest = 1500
%%
----
end 0
====
nodes = [\"a\", \"b\"]
[[wire]]
name = \"w\"
ends = [\"a\", \"b\"]
delay = 2
life = 10
largest = 1500
----
end 0
====
nodes = [\"a\"]
%%
retire last
retire last
retire none
retire first
----
1 0 ok
2 0 no NoPolicy
3 0 no NoPolicy
4 0 ok
end 0
====
nodes = [
----
fault NotToml
====
nodes = [\"a\", \"b\"]
[[wire]]
name = \"w\"
ends = [\"a\", \"a\"]
delay = 2
life = 10
largest = 1500
----
fault StackRule 8 1
====
nodes = [\"a\", \"b\"]
[[wire]]
name = \"w\"
ends = [\"a\", \"b\"]
delay = 0
life = 10
largest = 1500
----
fault StackRule 6 1
====
nodes = [\"a\"]
%%
tick 1
tick x
----
1 1 ok
fault Schedule 2 3 1
====
nodes = [\"a\"]
%%
tick 1

# nothing
join d b w a
----
1 1 ok
fault Schedule 4 1 0
====
nodes = [\"a\", \"b\"]
[[wire]]
name = \"w\"
ends = [\"a\", \"b\"]
delay = 2
life = 10
largest = 3
%%
register w b echo
register w b echo
alloc p w a ping echo
alloc r w a ping echo
alloc r w a ping echo ordered
send p 'long
send p x
accept q w b echo
tick 2
read q
read q
read r
----
1 0 ok
2 0 no Already
3 0 ok allocated
4 0 no Busy w/a/1
5 0 no NoCube
6 0 no TooLong 4 3
7 0 sent 0.0
8 0 ok allocated
9 2 ok
10 2 got 2 x
11 2 none
12 2 no Unknown 1
end 2
====
nodes = [\"a\", \"b\"]
[[wire]]
name = \"w\"
ends = [\"a\", \"b\"]
delay = 2
life = 10
largest = 1500
%%
alloc p w a ping echo
register w a echo
alloc p w a ping echo
register v a echo
register w c echo
accept q w b echo
----
1 0 no NoSuchApp
2 0 ok
3 0 no SameSystem
4 0 no Unknown 1
5 0 no Unknown 2
6 0 none
end 0
====
nodes = [\"a\", \"b\"]
[[wire]]
name = \"w\"
ends = [\"a\", \"b\"]
delay = 2
life = 10
largest = 1500
%%
register w b echo
alloc p w a ping echo
accept q w b echo
send p 'hello
repeat w 0 2
repeat w 0 3
repeat w 0 4
tick 4
read q
----
1 0 ok
2 0 ok allocated
3 0 ok allocated
4 0 sent 0.0
5 0 ok
6 0 ok
7 0 ok
8 4 ok
9 4 got 2 'hello
9 4 got 2 'hello
9 4 got 3 'hello
9 4 got 4 'hello
end 4
====
nodes = [\"a\", \"b\"]
[[wire]]
name = \"w\"
ends = [\"a\", \"b\"]
delay = 2
life = 10
largest = 1500
%%
register w b echo
alloc p w a ping echo
accept q w b echo
send p 'hello
hold w 0 10
hold w 0 11
tick 9
read q
tick 1
read q
----
1 0 ok
2 0 ok allocated
3 0 ok allocated
4 0 sent 0.0
5 0 ok
6 0 no LateHold 10
7 9 ok
8 9 none
9 10 ok
10 10 got 10 'hello
end 10
====
nodes = [\"a\", \"b\"]
[[wire]]
name = \"w\"
ends = [\"a\", \"b\"]
delay = 2
life = 10
largest = 1500
%%
register w b echo
alloc p w a ping echo
accept q w b echo
send p 'hello
hold w 0 0
lose w 7
----
1 0 ok
2 0 ok allocated
3 0 ok allocated
4 0 sent 0.0
5 0 no EarlyHold 0
6 0 no NoFrame 7
end 0
====
nodes = [\"a\", \"b\"]
[[wire]]
name = \"w\"
ends = [\"a\", \"b\"]
delay = 2
life = 10
largest = 1500
%%
lose v 0
hold w 0 1
----
1 0 no NoWire
2 0 no NoFrame 0
end 0
====
nodes = [\"a\", \"b\"]
[[wire]]
name = \"w\"
ends = [\"a\", \"b\"]
delay = 2
life = 10
largest = 1500
%%
register w b echo
alloc p w a ping echo
accept q w b echo
send p x
tick 2
read q
----
1 0 ok
2 0 ok allocated
3 0 ok allocated
4 0 sent 0.0
5 2 ok
6 2 got 2 x
end 2
====
nodes = [\"a\", \"b\"]
[[wire]]
name = \"w\"
ends = [\"a\", \"b\"]
delay = 2
life = 10
largest = 1500
%%
register w b echo
alloc p w a ping echo
accept q w b echo
send p 'hello
tick 2
read q
journal w
----
1 0 ok
2 0 ok allocated
3 0 ok allocated
4 0 sent 0.0
5 2 ok
6 2 got 2 'hello
7 2 flow 1.0.0 asker w/a/1 ping echo 0 0 allocated
7 2 s 0 0.0 'hello
7 2 flow 1.0.0 far w/b/1 echo ping 0 1 allocated
7 2 g 2 0.0 'hello
end 2
====
nodes = [\"a\", \"b\"]
[[wire]]
name = \"w\"
ends = [\"a\", \"b\"]
delay = 2
life = 10
largest = 1500
%%
register w b echo
register w b echo
alloc p w a ping echo
alloc r w a ping echo
alloc r w a ping echo ordered
unregister w a echo
free p
send p 'x
----
1 0 ok
2 0 no Already
3 0 ok allocated
4 0 no Busy w/a/1
5 0 no NoCube
6 0 no NotThere
7 0 ok
7 0 state p closed
8 0 no NotAllocated closed
end 0
====
nodes = [\"a\", \"b\"]
[[wire]]
name = \"w\"
ends = [\"a\", \"b\"]
delay = 2
life = 10
largest = 1500
%%
journal w
register w b echo
alloc p w a ping echo
accept q w b echo
send p 'x
cut w
send p 'y
alloc r w a ping echo
tick 2
read q
cut w
mend w
alloc r w a ping echo
state p
free q
free r
state r
journal w
journal v
cut v
unregister w b echo
alloc s w a ping echo
----
1 0 none
2 0 ok
3 0 ok allocated
4 0 ok allocated
5 0 sent 0.0
6 0 ok
6 0 state p failed Cut 0
6 0 state q failed Cut 0
7 0 no Failed Cut 0
8 0 no NoRoute 0
9 2 ok
10 2 none
11 2 ok
12 2 ok
13 2 ok allocated
14 2 ok failed Cut 0
15 2 ok
16 2 ok
16 2 state r closed
17 2 ok closed
18 2 flow 1.0.0 asker w/a/1 ping echo 0 0 failed Cut 0
18 2 s 0 0.0 'x
18 2 flow 1.0.0 far w/b/1 echo ping 0 0 failed Cut 0
18 2 flow 1.2.1 asker w/a/2 ping echo 0 0 closed
18 2 flow 1.2.1 far w/b/2 echo ping 0 0 closed
19 2 no Unknown 1
20 2 no NoWire
21 2 ok
22 2 no NoSuchApp
end 2
";
