//! Words of the command line, then notes, and behind a line `----` what is written for them; a line `====` parts the rows. Of a picture the lines that
//! stand in it are given, of other answers the whole text. Each was worked out by hand: an SDU by its `s` line, its arrival by the `g` line of the same
//! number at the other end, a failure by the state in the line of its end.

/// The three answers on the notes of one frame that came, of one that was lost on its wire, and of a wire that was cut.
pub(crate) static CHART_ROWS: &str = "\
lost
7 2 flow 1.0.0 asker w/a/1 ping echo 0 0 allocated
7 2 s 0 0.0 'hello
7 2 flow 1.0.0 far w/b/1 echo ping 0 1 allocated
7 2 g 2 0.0 'hello
end 2
----
facility flow from number sent bytes fate
w 1.0.0 a 0.0 0 5 got 2 after 2
sum w 1.0.0 a sent 1 got 1 mean 2 greatest 2 off 0 unseen 0
====
lost
7 10 flow 1.0.0 asker w/a/1 d/a d/b 0 0 allocated
7 10 s 0 0.0 x0000001e01070101020101010011000068656c6c6f
7 10 flow 1.0.0 far w/b/1 d/b d/a 0 0 allocated
end 10
----
facility flow from number sent bytes fate
w 1.0.0 a 0.0 0 21 on its way or lost
sum w 1.0.0 a sent 1 got 0 mean - greatest 0 off 0 unseen 1
====
lost
9 9 flow 1.0.0 asker w/a/1 ping echo 0 0 failed Cut 7
9 9 s 0 0.0 'a
9 9 s 6 0.2 'c
9 9 flow 1.0.0 far w/b/1 echo ping 0 0 failed Cut 7
9 9 s 3 0.1 'b
9 9 g 2 0.0 'a
end 9
----
facility flow from number sent bytes fate
w 1.0.0 a 0.0 0 1 got 2 after 2
w 1.0.0 a 0.2 6 1 on its way or lost
w 1.0.0 b 0.1 3 1 on its way or lost
sum w 1.0.0 a sent 2 got 1 mean 2 greatest 2 off 0 unseen 1
sum w 1.0.0 b sent 1 got 0 mean - greatest 0 off 0 unseen 1
====
chart text w
7 2 flow 1.0.0 asker w/a/1 ping echo 0 0 allocated
7 2 s 0 0.0 'hello
7 2 flow 1.0.0 far w/b/1 echo ping 0 1 allocated
7 2 g 2 0.0 'hello
end 2
----
SDUs of w
    tick  a         b         SDU
       0  o         |         1.0.0 0.0
       2  |-------->|         1.0.0 0.0 after 2
====
chart text w
7 10 flow 1.0.0 asker w/a/1 d/a d/b 0 0 allocated
7 10 s 0 0.0 x0000001e01070101020101010011000068656c6c6f
7 10 flow 1.0.0 far w/b/1 d/b d/a 0 0 allocated
end 10
----
SDUs of w
    tick  a         b         SDU
       0  x         |         1.0.0 0.0 not got
====
chart text w
9 9 flow 1.0.0 asker w/a/1 ping echo 0 0 failed Cut 7
9 9 s 0 0.0 'a
9 9 s 6 0.2 'c
9 9 flow 1.0.0 far w/b/1 echo ping 0 0 failed Cut 7
9 9 s 3 0.1 'b
9 9 g 2 0.0 'a
end 9
----
SDUs of w
    tick  a         b         SDU
       0  o         |         1.0.0 0.0
       2  |-------->|         1.0.0 0.0 after 2
       3  |         x         1.0.0 0.1 not got
       6  x         |         1.0.0 0.2 not got
       7  #         |         1.0.0 cut
       7  |         #         1.0.0 cut
====
chart text d 40 50
3 60 flow 1.9.0 asker d/first/1 s t 3 0 allocated
3 60 s 39 1.0 'a
3 60 g 60 7.0 'x
3 60 flow 1.9.0 far d/second-node/1 t s 3 0 allocated
3 60 g 45 1.0 'a
3 60 s 44 7.0 'x
3 60 s 51 7.1 'y
end 60
----
SDUs of d, ticks 40 to 50
    tick  first        second-node  SDU
      39  o            |            1.9.0 1.0
      44  |            o            1.9.0 7.0
      45  |----------->|            1.9.0 1.0 after 6
      60  |<-----------|            1.9.0 7.0 after 16
====
chart text w 5 4
end 2
----
fault Usage 4
====
chart text w 5
end 2
----
fault Usage 4
";

/// Lines that stand in pictures of these notes: the arrows and stubs.
pub(crate) static PICTURE_ROWS: &str = "\
chart w
7 2 flow 1.0.0 asker w/a/1 ping echo 0 0 allocated
7 2 s 0 0.0 'hello
7 2 flow 1.0.0 far w/b/1 echo ping 0 1 allocated
7 2 g 2 0.0 'hello
end 2
----
<line class=\"got\" x1=\"120\" y1=\"130\" x2=\"320\" y2=\"170\"/>
====
chart w
7 10 flow 1.0.0 asker w/a/1 d/a d/b 0 0 allocated
7 10 s 0 0.0 x0000001e01070101020101010011000068656c6c6f
7 10 flow 1.0.0 far w/b/1 d/b d/a 0 0 allocated
end 10
----
<line class=\"lost\" x1=\"120\" y1=\"130\" x2=\"144\" y2=\"130\"/>
====
chart w
9 9 flow 1.0.0 asker w/a/1 ping echo 0 0 failed Cut 7
9 9 s 0 0.0 'a
9 9 s 6 0.2 'c
9 9 flow 1.0.0 far w/b/1 echo ping 0 0 failed Cut 7
9 9 s 3 0.1 'b
9 9 g 2 0.0 'a
end 9
----
<line class=\"lost\" x1=\"320\" y1=\"190\" x2=\"296\" y2=\"190\"/>
";
