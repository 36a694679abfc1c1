//! Worked runs with a whole range of numbers, each a stack, a line `%%`, and its rows: the lines that are
//! run, a line `----`, and all that is written. A line `====` parts rows, a line `####` stacks.

pub(crate) static SPENT_ROWS: &str = "\
nodes = [\"a\", \"b\"]
[[wire]]
name = \"w\"
ends = [\"a\", \"b\"]
delay = 2
life = 10
largest = 1500
[[dif]]
name = \"d\"
rank = 1
static = true
pdu = 96
widths = { addr = 1, cep = 1, len = 2, seq = 1 }
queue = 64
policy = \"strict\"
wait = 500
manage = { mpl = 40, r = 30, a = 2, retry = 10, window = 8 }
cube = [
  { id = 1, kind = \"datagram\", mpl = 40, window = 16, largest = 80 },
  { id = 2, kind = \"loose\", mpl = 40, window = 16, largest = 240 },
  { id = 3, kind = \"reliable\", mpl = 40, r = 30, a = 2, retry = 10, window = 4, largest = 240 },
]
member = [ { node = \"a\", addr = 1 }, { node = \"b\", addr = 2 } ]
link = [ { on = \"w\", a = \"a\", b = \"b\" } ]
flow = [
  { cube = 1, from = { node = \"a\", app = \"s1\", label = \"p1\" }, to = { node = \"b\", app = \"t1\", label = \"q1\" } },
  { cube = 2, from = { node = \"a\", app = \"s2\", label = \"p2\" }, to = { node = \"b\", app = \"t2\", label = \"q2\" } },
  { cube = 3, from = { node = \"a\", app = \"s3\", label = \"p3\" }, to = { node = \"b\", app = \"t3\", label = \"q3\" } },
]
%%
send p1 'a
send p1 'a
send p1 'a
send p1 'a
send p1 'a
send p1 'a
send p1 'a
send p1 'a
send p1 'a
send p1 'a
send p1 'a
send p1 'a
send p1 'a
send p1 'a
send p1 'a
send p1 'a
send p1 'a
send p1 'a
send p1 'a
send p1 'a
send p1 'a
send p1 'a
send p1 'a
send p1 'a
send p1 'a
send p1 'a
send p1 'a
send p1 'a
send p1 'a
send p1 'a
send p1 'a
send p1 'a
send p1 'a
send p1 'a
send p1 'a
send p1 'a
send p1 'a
send p1 'a
send p1 'a
send p1 'a
send p1 'a
send p1 'a
send p1 'a
send p1 'a
send p1 'a
send p1 'a
send p1 'a
send p1 'a
send p1 'a
send p1 'a
send p1 'a
send p1 'a
send p1 'a
send p1 'a
send p1 'a
send p1 'a
send p1 'a
send p1 'a
send p1 'a
send p1 'a
send p1 'a
send p1 'a
send p1 'a
send p1 'a
send p1 'a
send p1 'a
send p1 'a
send p1 'a
send p1 'a
send p1 'a
send p1 'a
send p1 'a
send p1 'a
send p1 'a
send p1 'a
send p1 'a
send p1 'a
send p1 'a
send p1 'a
send p1 'a
send p1 'a
send p1 'a
send p1 'a
send p1 'a
send p1 'a
send p1 'a
send p1 'a
send p1 'a
send p1 'a
send p1 'a
send p1 'a
send p1 'a
send p1 'a
send p1 'a
send p1 'a
send p1 'a
send p1 'a
send p1 'a
send p1 'a
send p1 'a
send p1 'a
send p1 'a
send p1 'a
send p1 'a
send p1 'a
send p1 'a
send p1 'a
send p1 'a
send p1 'a
send p1 'a
send p1 'a
send p1 'a
send p1 'a
send p1 'a
send p1 'a
send p1 'a
send p1 'a
send p1 'a
send p1 'a
send p1 'a
send p1 'a
send p1 'a
send p1 'a
send p1 'a
send p1 'a
send p1 'a
send p1 'a
send p1 'a
send p1 'a
send p1 'a
send p1 'a
send p1 'a
send p1 'a
send p1 'a
send p1 'a
send p1 'a
send p1 'a
send p1 'a
send p1 'a
send p1 'a
send p1 'a
send p1 'a
send p1 'a
send p1 'a
send p1 'a
send p1 'a
send p1 'a
send p1 'a
send p1 'a
send p1 'a
send p1 'a
send p1 'a
send p1 'a
send p1 'a
send p1 'a
send p1 'a
send p1 'a
send p1 'a
send p1 'a
send p1 'a
send p1 'a
send p1 'a
send p1 'a
send p1 'a
send p1 'a
send p1 'a
send p1 'a
send p1 'a
send p1 'a
send p1 'a
send p1 'a
send p1 'a
send p1 'a
send p1 'a
send p1 'a
send p1 'a
send p1 'a
send p1 'a
send p1 'a
send p1 'a
send p1 'a
send p1 'a
send p1 'a
send p1 'a
send p1 'a
send p1 'a
send p1 'a
send p1 'a
send p1 'a
send p1 'a
send p1 'a
send p1 'a
send p1 'a
send p1 'a
send p1 'a
send p1 'a
send p1 'a
send p1 'a
send p1 'a
send p1 'a
send p1 'a
send p1 'a
send p1 'a
send p1 'a
send p1 'a
send p1 'a
send p1 'a
send p1 'a
send p1 'a
send p1 'a
send p1 'a
send p1 'a
send p1 'a
send p1 'a
send p1 'a
send p1 'a
send p1 'a
send p1 'a
send p1 'a
send p1 'a
send p1 'a
send p1 'a
send p1 'a
send p1 'a
send p1 'a
send p1 'a
send p1 'a
send p1 'a
send p1 'a
send p1 'a
send p1 'a
send p1 'a
send p1 'a
send p1 'a
send p1 'a
send p1 'a
send p1 'a
send p1 'a
send p1 'a
send p1 'a
send p1 'a
send p1 'a
send p1 'a
send p1 'a
send p1 'a
send p1 'a
send p1 'a
send p1 'a
send p1 'a
send p1 'a
send p1 'a
send p1 'a
send p1 'a
send p1 'a
send p1 'a
send p1 'a
send p1 'a
tick 120
send p1 'a
----
1 0 sent 1.0
2 0 sent 1.1
3 0 sent 1.2
4 0 sent 1.3
5 0 sent 1.4
6 0 sent 1.5
7 0 sent 1.6
8 0 sent 1.7
9 0 sent 1.8
10 0 sent 1.9
11 0 sent 1.10
12 0 sent 1.11
13 0 sent 1.12
14 0 sent 1.13
15 0 sent 1.14
16 0 sent 1.15
17 0 sent 1.16
18 0 sent 1.17
19 0 sent 1.18
20 0 sent 1.19
21 0 sent 1.20
22 0 sent 1.21
23 0 sent 1.22
24 0 sent 1.23
25 0 sent 1.24
26 0 sent 1.25
27 0 sent 1.26
28 0 sent 1.27
29 0 sent 1.28
30 0 sent 1.29
31 0 sent 1.30
32 0 sent 1.31
33 0 sent 1.32
34 0 sent 1.33
35 0 sent 1.34
36 0 sent 1.35
37 0 sent 1.36
38 0 sent 1.37
39 0 sent 1.38
40 0 sent 1.39
41 0 sent 1.40
42 0 sent 1.41
43 0 sent 1.42
44 0 sent 1.43
45 0 sent 1.44
46 0 sent 1.45
47 0 sent 1.46
48 0 sent 1.47
49 0 sent 1.48
50 0 sent 1.49
51 0 sent 1.50
52 0 sent 1.51
53 0 sent 1.52
54 0 sent 1.53
55 0 sent 1.54
56 0 sent 1.55
57 0 sent 1.56
58 0 sent 1.57
59 0 sent 1.58
60 0 sent 1.59
61 0 sent 1.60
62 0 sent 1.61
63 0 sent 1.62
64 0 sent 1.63
65 0 sent 1.64
66 0 sent 1.65
67 0 sent 1.66
68 0 sent 1.67
69 0 sent 1.68
70 0 sent 1.69
71 0 sent 1.70
72 0 sent 1.71
73 0 sent 1.72
74 0 sent 1.73
75 0 sent 1.74
76 0 sent 1.75
77 0 sent 1.76
78 0 sent 1.77
79 0 sent 1.78
80 0 sent 1.79
81 0 sent 1.80
82 0 sent 1.81
83 0 sent 1.82
84 0 sent 1.83
85 0 sent 1.84
86 0 sent 1.85
87 0 sent 1.86
88 0 sent 1.87
89 0 sent 1.88
90 0 sent 1.89
91 0 sent 1.90
92 0 sent 1.91
93 0 sent 1.92
94 0 sent 1.93
95 0 sent 1.94
96 0 sent 1.95
97 0 sent 1.96
98 0 sent 1.97
99 0 sent 1.98
100 0 sent 1.99
101 0 sent 1.100
102 0 sent 1.101
103 0 sent 1.102
104 0 sent 1.103
105 0 sent 1.104
106 0 sent 1.105
107 0 sent 1.106
108 0 sent 1.107
109 0 sent 1.108
110 0 sent 1.109
111 0 sent 1.110
112 0 sent 1.111
113 0 sent 1.112
114 0 sent 1.113
115 0 sent 1.114
116 0 sent 1.115
117 0 sent 1.116
118 0 sent 1.117
119 0 sent 1.118
120 0 sent 1.119
121 0 sent 1.120
122 0 sent 1.121
123 0 sent 1.122
124 0 sent 1.123
125 0 sent 1.124
126 0 sent 1.125
127 0 sent 1.126
128 0 sent 1.127
129 0 sent 1.128
130 0 sent 1.129
131 0 sent 1.130
132 0 sent 1.131
133 0 sent 1.132
134 0 sent 1.133
135 0 sent 1.134
136 0 sent 1.135
137 0 sent 1.136
138 0 sent 1.137
139 0 sent 1.138
140 0 sent 1.139
141 0 sent 1.140
142 0 sent 1.141
143 0 sent 1.142
144 0 sent 1.143
145 0 sent 1.144
146 0 sent 1.145
147 0 sent 1.146
148 0 sent 1.147
149 0 sent 1.148
150 0 sent 1.149
151 0 sent 1.150
152 0 sent 1.151
153 0 sent 1.152
154 0 sent 1.153
155 0 sent 1.154
156 0 sent 1.155
157 0 sent 1.156
158 0 sent 1.157
159 0 sent 1.158
160 0 sent 1.159
161 0 sent 1.160
162 0 sent 1.161
163 0 sent 1.162
164 0 sent 1.163
165 0 sent 1.164
166 0 sent 1.165
167 0 sent 1.166
168 0 sent 1.167
169 0 sent 1.168
170 0 sent 1.169
171 0 sent 1.170
172 0 sent 1.171
173 0 sent 1.172
174 0 sent 1.173
175 0 sent 1.174
176 0 sent 1.175
177 0 sent 1.176
178 0 sent 1.177
179 0 sent 1.178
180 0 sent 1.179
181 0 sent 1.180
182 0 sent 1.181
183 0 sent 1.182
184 0 sent 1.183
185 0 sent 1.184
186 0 sent 1.185
187 0 sent 1.186
188 0 sent 1.187
189 0 sent 1.188
190 0 sent 1.189
191 0 sent 1.190
192 0 sent 1.191
193 0 sent 1.192
194 0 sent 1.193
195 0 sent 1.194
196 0 sent 1.195
197 0 sent 1.196
198 0 sent 1.197
199 0 sent 1.198
200 0 sent 1.199
201 0 sent 1.200
202 0 sent 1.201
203 0 sent 1.202
204 0 sent 1.203
205 0 sent 1.204
206 0 sent 1.205
207 0 sent 1.206
208 0 sent 1.207
209 0 sent 1.208
210 0 sent 1.209
211 0 sent 1.210
212 0 sent 1.211
213 0 sent 1.212
214 0 sent 1.213
215 0 sent 1.214
216 0 sent 1.215
217 0 sent 1.216
218 0 sent 1.217
219 0 sent 1.218
220 0 sent 1.219
221 0 sent 1.220
222 0 sent 1.221
223 0 sent 1.222
224 0 sent 1.223
225 0 sent 1.224
226 0 sent 1.225
227 0 sent 1.226
228 0 sent 1.227
229 0 sent 1.228
230 0 sent 1.229
231 0 sent 1.230
232 0 sent 1.231
233 0 sent 1.232
234 0 sent 1.233
235 0 sent 1.234
236 0 sent 1.235
237 0 sent 1.236
238 0 sent 1.237
239 0 sent 1.238
240 0 sent 1.239
241 0 sent 1.240
242 0 sent 1.241
243 0 sent 1.242
244 0 sent 1.243
245 0 sent 1.244
246 0 sent 1.245
247 0 sent 1.246
248 0 sent 1.247
249 0 sent 1.248
250 0 sent 1.249
251 0 sent 1.250
252 0 sent 1.251
253 0 sent 1.252
254 0 sent 1.253
255 0 sent 1.254
256 0 sent 1.255
257 0 no NumbersSpent 120
258 120 ok
259 120 sent 1.0
end 120
";
