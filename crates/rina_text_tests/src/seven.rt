//! The text that number 7 makes, whole.

/// A stack, a line of two percent signs, and the lines of a schedule.
pub(crate) const TEXT: &[u8] = b"nodes = [\"n0\", \"n1\", \"n2\", \"n3\"]
[[wire]]
name = \"w0\"
ends = [\"n0\", \"n1\"]
delay = 3
life = 12
largest = 1500
storm = { seed = 7, lose = 25, repeat = 24, spread = 4 }
[[wire]]
name = \"w1\"
ends = [\"n1\", \"n2\"]
delay = 1
life = 12
largest = 1500
storm = { seed = 8, lose = 33, repeat = 8, spread = 4 }
[[wire]]
name = \"w2\"
ends = [\"n2\", \"n3\"]
delay = 2
life = 12
largest = 1500
storm = { seed = 9, lose = 11, repeat = 48, spread = 4 }
[[wire]]
name = \"w3\"
ends = [\"n3\", \"n0\"]
delay = 1
life = 12
largest = 1500
storm = { seed = 10, lose = 46, repeat = 56, spread = 4 }
[[dif]]
name = \"low\"
rank = 1
static = true
pdu = 300
widths = { addr = 1, cep = 2, len = 2, seq = 2 }
queue = 64
policy = \"round\"
wait = 500
manage = { mpl = 200, r = 60, a = 2, retry = 15, window = 16 }
cube = [ { id = 1, kind = \"datagram\", mpl = 200, window = 64, largest = 250 }, { id = 2, kind = \"reliable\", mpl = 200, window = 16, largest = 250, r = 60, a = 2, retry = 15 } ]
member = [ { node = \"n0\", addr = 1 }, { node = \"n1\", addr = 2 }, { node = \"n2\", addr = 3 }, { node = \"n3\", addr = 4 } ]
link = [ { on = \"w0\", a = \"n0\", b = \"n1\" }, { on = \"w1\", a = \"n1\", b = \"n2\" }, { on = \"w2\", a = \"n2\", b = \"n3\" }, { on = \"w3\", a = \"n3\", b = \"n0\" } ]
[[dif]]
name = \"high\"
rank = 2
static = true
pdu = 250
widths = { addr = 1, cep = 2, len = 2, seq = 2 }
queue = 64
policy = \"weighted\"
wait = 2000
manage = { mpl = 900, r = 200, a = 4, retry = 60, window = 16 }
cube = [ { id = 1, kind = \"loose\", mpl = 900, window = 64, largest = 1000 }, { id = 2, kind = \"reliable\", mpl = 900, window = 16, largest = 1000, r = 200, a = 4, retry = 60 } ]
member = [ { node = \"n0\", addr = 1 }, { node = \"n1\", addr = 2 }, { node = \"n2\", addr = 3 }, { node = \"n3\", addr = 4 } ]
link = [ { on = \"low\", a = \"n0\", b = \"n1\", cube = 2 }, { on = \"low\", a = \"n1\", b = \"n2\", cube = 1 }, { on = \"low\", a = \"n2\", b = \"n3\", cube = 2 }, { on = \"low\", a = \"n3\", b = \"n0\", cube = 1 } ]
flow = [ { cube = 1, from = { node = \"n1\", app = \"a0\", label = \"p0\" }, to = { node = \"n0\", app = \"b0\", label = \"q0\" } }, { cube = 1, from = { node = \"n3\", app = \"a1\", label = \"p1\" }, to = { node = \"n0\", app = \"b1\", label = \"q1\" } }, { cube = 1, from = { node = \"n1\", app = \"a2\", label = \"p2\" }, to = { node = \"n0\", app = \"b2\", label = \"q2\" } }, { cube = 2, from = { node = \"n1\", app = \"a3\", label = \"p3\" }, to = { node = \"n0\", app = \"b3\", label = \"q3\" } }, { cube = 2, from = { node = \"n3\", app = \"a4\", label = \"p4\" }, to = { node = \"n2\", app = \"b4\", label = \"q4\" } }, { cube = 1, from = { node = \"n0\", app = \"a5\", label = \"p5\" }, to = { node = \"n2\", app = \"b5\", label = \"q5\" } } ]
%%
send p0 z450
send p3 z957
send p0 z684
send p1 z905
tick 17
send p4 z421
send p0 z888
send p1 z556
send p0 z868
send p5 z429
send p4 z848
send p5 z844
send p0 z747
read q4
send p2 z156
read q3
send p0 z838
send p1 z842
send p5 z699
tick 25
send p4 z637
tick 34
tick 38
tick 13
send p5 z161
send p1 z839
read q3
send p1 z597
read q5
tick 35
tick 26
tick 26
send p4 z645
read q4
read q4
send p5 z217
send p4 z614
send p2 z881
tick 16
read q5
tick 23
send p2 z609
send p5 z851
send p0 z772
send p1 z618
send p5 z684
send p1 z989
read q0
send p2 z238
send p3 z587
send p3 z808
send p4 z287
send p4 z273
send p5 z464
read q1
send p5 z339
send p1 z311
read q3
read q5
send p0 z844
send p2 z198
send p4 z58
send p2 z96
send p2 z860
send p4 z473
tick 22
read q3
send p0 z271
send p3 z329
tick 7
tick 6
send p1 z913
tick 27
read q3
tick 7
send p0 z272
tick 38
read q3
tick 20
tick 39
tick 32
read q2
read q4
send p2 z491
send p2 z590
read q2
send p1 z302
tick 40
read q4
send p0 z32
tick 19
tick 14
send p0 z130
send p1 z840
read q0
read q1
tick 3
read q2
send p3 z522
tick 36
send p1 z915
send p1 z201
send p1 z315
send p1 z285
tick 4
tick 21
send p4 z873
send p2 z560
send p1 z130
send p2 z876
send p0 z522
send p3 z550
send p3 z455
send p2 z298
send p2 z459
read q2
tick 2
tick 19
send p3 z122
tick 16
tick 30
send p4 z192
send p4 z530
send p2 z314
send p1 z488
send p1 z482
send p1 z157
send p1 z397
send p1 z144
tick 3
read q5
send p1 z537
tick 39
send p5 z423
send p4 z795
tick 31
send p2 z123
read q0
tick 7
send p3 z176
read q5
tick 21
send p0 z718
send p0 z714
send p4 z921
send p5 z506
send p1 z764
send p1 z329
tick 9
read q3
read q3
send p0 z243
tick 25
read q5
send p5 z406
tick 4
send p2 z597
read q0
send p3 z33
read q4
send p4 z260
read q5
read q2
read q4
send p4 z728
send p4 z227
tick 30
read q0
send p1 z481
send p2 z172
send p4 z480
send p4 z619
send p4 z921
send p3 z762
send p1 z891
send p5 z949
send p3 z88
read q0
send p5 z481
send p5 z144
send p2 z337
send p1 z382
send p5 z980
send p0 z488
send p0 z70
send p0 z446
send p0 z93
tick 27
send p5 z805
send p5 z697
tick 32
send p1 z721
tick 37
read q5
tick 12
send p5 z889
send p0 z561
read q4
tick 30
send p2 z325
send p1 z897
tick 5
tick 35
send p2 z805
tick 3
send p4 z490
tick 9
send p4 z638
read q1
send p5 z901
tick 30
read q3
read q4
send p3 z745
read q5
send p1 z347
send p0 z973
send p1 z583
send p1 z20
send p4 z686
send p3 z47
send p1 z919
send p0 z184
send p0 z301
read q2
send p0 z616
send p4 z104
read q5
send p5 z752
send p1 z139
read q2
send p3 z526
tick 16
send p4 z425
send p2 z582
tick 39
send p3 z423
send p3 z431
send p5 z469
send p5 z494
send p5 z947
send p1 z76
read q4
read q5
send p1 z946
send p0 z321
send p5 z859
send p3 z485
send p3 z375
tick 26
send p1 z474
tick 1
send p3 z952
send p3 z210
read q1
send p1 z205
send p5 z70
send p0 z748
send p4 z244
read q3
send p1 z883
send p1 z885
send p5 z710
send p4 z258
send p5 z894
tick 13
send p1 z544
send p1 z595
send p2 z980
send p4 z327
send p0 z134
send p5 z152
tick 28
tick 6
send p4 z956
tick 26
tick 5
read q3
tick 36
read q1
send p1 z937
send p5 z472
send p5 z509
send p0 z805
send p5 z909
send p1 z857
send p4 z299
send p1 z64
read q1
send p0 z545
read q4
tick 28
send p1 z901
send p0 z361
send p5 z181
send p0 z56
send p4 z894
send p4 z148
send p2 z431
tick 35
tick 2000
read q0
read q1
read q2
read q3
read q4
read q5
";
