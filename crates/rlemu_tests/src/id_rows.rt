//! A worked run in which a member draws all the CEP-ids that it has: a stack, a line `%%`, the lines that are run, a line `----`, and all that
//! is written.

pub(crate) static ID_ROWS: &str = "\
nodes = [\"a\", \"b\"]
[[wire]]
name = \"w\"
ends = [\"a\", \"b\"]
delay = 2
life = 10
largest = 1500
[[dif]]
name = \"d\"
rank = 1
static = true
pdu = 400
widths = { addr = 1, cep = 1, len = 2, seq = 2 }
queue = 64
policy = \"strict\"
wait = 500
manage = { mpl = 40, r = 30, a = 2, retry = 10, window = 8 }
cube = [
  { id = 1, kind = \"datagram\", mpl = 40, window = 16, largest = 80 },
  { id = 2, kind = \"loose\", mpl = 40, window = 16, largest = 240 },
  { id = 3, kind = \"reliable\", mpl = 40, r = 30, a = 2, retry = 10, window = 4, largest = 240 },
]
member = [ { node = \"a\", addr = 1 }, { node = \"b\", addr = 2 } ]
link = [ { on = \"w\", a = \"a\", b = \"b\" } ]
rule = [ { subject = \"ping\", act = \"allocate\", allow = true }, { subject = \"evil\", act = \"allocate\", allow = false } ]
%%
register d b echo
tick 2
alloc l1 d a ping echo
alloc l2 d a ping echo
alloc l3 d a ping echo
alloc l4 d a ping echo
alloc l5 d a ping echo
alloc l6 d a ping echo
alloc l7 d a ping echo
alloc l8 d a ping echo
alloc l9 d a ping echo
alloc l10 d a ping echo
alloc l11 d a ping echo
alloc l12 d a ping echo
alloc l13 d a ping echo
alloc l14 d a ping echo
alloc l15 d a ping echo
alloc l16 d a ping echo
alloc l17 d a ping echo
alloc l18 d a ping echo
alloc l19 d a ping echo
alloc l20 d a ping echo
alloc l21 d a ping echo
alloc l22 d a ping echo
alloc l23 d a ping echo
alloc l24 d a ping echo
alloc l25 d a ping echo
alloc l26 d a ping echo
alloc l27 d a ping echo
alloc l28 d a ping echo
alloc l29 d a ping echo
alloc l30 d a ping echo
alloc l31 d a ping echo
alloc l32 d a ping echo
alloc l33 d a ping echo
alloc l34 d a ping echo
alloc l35 d a ping echo
alloc l36 d a ping echo
alloc l37 d a ping echo
alloc l38 d a ping echo
alloc l39 d a ping echo
alloc l40 d a ping echo
alloc l41 d a ping echo
alloc l42 d a ping echo
alloc l43 d a ping echo
alloc l44 d a ping echo
alloc l45 d a ping echo
alloc l46 d a ping echo
alloc l47 d a ping echo
alloc l48 d a ping echo
alloc l49 d a ping echo
alloc l50 d a ping echo
alloc l51 d a ping echo
alloc l52 d a ping echo
alloc l53 d a ping echo
alloc l54 d a ping echo
alloc l55 d a ping echo
alloc l56 d a ping echo
alloc l57 d a ping echo
alloc l58 d a ping echo
alloc l59 d a ping echo
alloc l60 d a ping echo
alloc l61 d a ping echo
alloc l62 d a ping echo
alloc l63 d a ping echo
alloc l64 d a ping echo
alloc l65 d a ping echo
alloc l66 d a ping echo
alloc l67 d a ping echo
alloc l68 d a ping echo
alloc l69 d a ping echo
alloc l70 d a ping echo
alloc l71 d a ping echo
alloc l72 d a ping echo
alloc l73 d a ping echo
alloc l74 d a ping echo
alloc l75 d a ping echo
alloc l76 d a ping echo
alloc l77 d a ping echo
alloc l78 d a ping echo
alloc l79 d a ping echo
alloc l80 d a ping echo
alloc l81 d a ping echo
alloc l82 d a ping echo
alloc l83 d a ping echo
alloc l84 d a ping echo
alloc l85 d a ping echo
alloc l86 d a ping echo
alloc l87 d a ping echo
alloc l88 d a ping echo
alloc l89 d a ping echo
alloc l90 d a ping echo
alloc l91 d a ping echo
alloc l92 d a ping echo
alloc l93 d a ping echo
alloc l94 d a ping echo
alloc l95 d a ping echo
alloc l96 d a ping echo
alloc l97 d a ping echo
alloc l98 d a ping echo
alloc l99 d a ping echo
alloc l100 d a ping echo
alloc l101 d a ping echo
alloc l102 d a ping echo
alloc l103 d a ping echo
alloc l104 d a ping echo
alloc l105 d a ping echo
alloc l106 d a ping echo
alloc l107 d a ping echo
alloc l108 d a ping echo
alloc l109 d a ping echo
alloc l110 d a ping echo
alloc l111 d a ping echo
alloc l112 d a ping echo
alloc l113 d a ping echo
alloc l114 d a ping echo
alloc l115 d a ping echo
alloc l116 d a ping echo
alloc l117 d a ping echo
alloc l118 d a ping echo
alloc l119 d a ping echo
alloc l120 d a ping echo
alloc l121 d a ping echo
alloc l122 d a ping echo
alloc l123 d a ping echo
alloc l124 d a ping echo
alloc l125 d a ping echo
alloc l126 d a ping echo
alloc l127 d a ping echo
alloc l128 d a ping echo
alloc l129 d a ping echo
alloc l130 d a ping echo
alloc l131 d a ping echo
alloc l132 d a ping echo
alloc l133 d a ping echo
alloc l134 d a ping echo
alloc l135 d a ping echo
alloc l136 d a ping echo
alloc l137 d a ping echo
alloc l138 d a ping echo
alloc l139 d a ping echo
alloc l140 d a ping echo
alloc l141 d a ping echo
alloc l142 d a ping echo
alloc l143 d a ping echo
alloc l144 d a ping echo
alloc l145 d a ping echo
alloc l146 d a ping echo
alloc l147 d a ping echo
alloc l148 d a ping echo
alloc l149 d a ping echo
alloc l150 d a ping echo
alloc l151 d a ping echo
alloc l152 d a ping echo
alloc l153 d a ping echo
alloc l154 d a ping echo
alloc l155 d a ping echo
alloc l156 d a ping echo
alloc l157 d a ping echo
alloc l158 d a ping echo
alloc l159 d a ping echo
alloc l160 d a ping echo
alloc l161 d a ping echo
alloc l162 d a ping echo
alloc l163 d a ping echo
alloc l164 d a ping echo
alloc l165 d a ping echo
alloc l166 d a ping echo
alloc l167 d a ping echo
alloc l168 d a ping echo
alloc l169 d a ping echo
alloc l170 d a ping echo
alloc l171 d a ping echo
alloc l172 d a ping echo
alloc l173 d a ping echo
alloc l174 d a ping echo
alloc l175 d a ping echo
alloc l176 d a ping echo
alloc l177 d a ping echo
alloc l178 d a ping echo
alloc l179 d a ping echo
alloc l180 d a ping echo
alloc l181 d a ping echo
alloc l182 d a ping echo
alloc l183 d a ping echo
alloc l184 d a ping echo
alloc l185 d a ping echo
alloc l186 d a ping echo
alloc l187 d a ping echo
alloc l188 d a ping echo
alloc l189 d a ping echo
alloc l190 d a ping echo
alloc l191 d a ping echo
alloc l192 d a ping echo
alloc l193 d a ping echo
alloc l194 d a ping echo
alloc l195 d a ping echo
alloc l196 d a ping echo
alloc l197 d a ping echo
alloc l198 d a ping echo
alloc l199 d a ping echo
alloc l200 d a ping echo
alloc l201 d a ping echo
alloc l202 d a ping echo
alloc l203 d a ping echo
alloc l204 d a ping echo
alloc l205 d a ping echo
alloc l206 d a ping echo
alloc l207 d a ping echo
alloc l208 d a ping echo
alloc l209 d a ping echo
alloc l210 d a ping echo
alloc l211 d a ping echo
alloc l212 d a ping echo
alloc l213 d a ping echo
alloc l214 d a ping echo
alloc l215 d a ping echo
alloc l216 d a ping echo
alloc l217 d a ping echo
alloc l218 d a ping echo
alloc l219 d a ping echo
alloc l220 d a ping echo
alloc l221 d a ping echo
alloc l222 d a ping echo
alloc l223 d a ping echo
alloc l224 d a ping echo
alloc l225 d a ping echo
alloc l226 d a ping echo
alloc l227 d a ping echo
alloc l228 d a ping echo
alloc l229 d a ping echo
alloc l230 d a ping echo
alloc l231 d a ping echo
alloc l232 d a ping echo
alloc l233 d a ping echo
alloc l234 d a ping echo
alloc l235 d a ping echo
alloc l236 d a ping echo
alloc l237 d a ping echo
alloc l238 d a ping echo
alloc l239 d a ping echo
alloc l240 d a ping echo
alloc l241 d a ping echo
alloc l242 d a ping echo
alloc l243 d a ping echo
alloc l244 d a ping echo
alloc l245 d a ping echo
alloc l246 d a ping echo
alloc l247 d a ping echo
alloc l248 d a ping echo
alloc l249 d a ping echo
alloc l250 d a ping echo
alloc l251 d a ping echo
alloc l252 d a ping echo
alloc l253 d a ping echo
alloc l254 d a ping echo
alloc l255 d a ping echo
alloc l256 d a ping echo
----
1 0 ok
2 2 ok
3 2 ok pending
4 2 ok pending
5 2 ok pending
6 2 ok pending
7 2 ok pending
8 2 ok pending
9 2 ok pending
10 2 ok pending
11 2 ok pending
12 2 ok pending
13 2 ok pending
14 2 ok pending
15 2 ok pending
16 2 ok pending
17 2 ok pending
18 2 ok pending
19 2 ok pending
20 2 ok pending
21 2 ok pending
22 2 ok pending
23 2 ok pending
24 2 ok pending
25 2 ok pending
26 2 ok pending
27 2 ok pending
28 2 ok pending
29 2 ok pending
30 2 ok pending
31 2 ok pending
32 2 ok pending
33 2 ok pending
34 2 ok pending
35 2 ok pending
36 2 ok pending
37 2 ok pending
38 2 ok pending
39 2 ok pending
40 2 ok pending
41 2 ok pending
42 2 ok pending
43 2 ok pending
44 2 ok pending
45 2 ok pending
46 2 ok pending
47 2 ok pending
48 2 ok pending
49 2 ok pending
50 2 ok pending
51 2 ok pending
52 2 ok pending
53 2 ok pending
54 2 ok pending
55 2 ok pending
56 2 ok pending
57 2 ok pending
58 2 ok pending
59 2 ok pending
60 2 ok pending
61 2 ok pending
62 2 ok pending
63 2 ok pending
64 2 ok pending
65 2 ok pending
66 2 ok pending
67 2 ok pending
68 2 ok pending
69 2 ok pending
70 2 ok pending
71 2 ok pending
72 2 ok pending
73 2 ok pending
74 2 ok pending
75 2 ok pending
76 2 ok pending
77 2 ok pending
78 2 ok pending
79 2 ok pending
80 2 ok pending
81 2 ok pending
82 2 ok pending
83 2 ok pending
84 2 ok pending
85 2 ok pending
86 2 ok pending
87 2 ok pending
88 2 ok pending
89 2 ok pending
90 2 ok pending
91 2 ok pending
92 2 ok pending
93 2 ok pending
94 2 ok pending
95 2 ok pending
96 2 ok pending
97 2 ok pending
98 2 ok pending
99 2 ok pending
100 2 ok pending
101 2 ok pending
102 2 ok pending
103 2 ok pending
104 2 ok pending
105 2 ok pending
106 2 ok pending
107 2 ok pending
108 2 ok pending
109 2 ok pending
110 2 ok pending
111 2 ok pending
112 2 ok pending
113 2 ok pending
114 2 ok pending
115 2 ok pending
116 2 ok pending
117 2 ok pending
118 2 ok pending
119 2 ok pending
120 2 ok pending
121 2 ok pending
122 2 ok pending
123 2 ok pending
124 2 ok pending
125 2 ok pending
126 2 ok pending
127 2 ok pending
128 2 ok pending
129 2 ok pending
130 2 ok pending
131 2 ok pending
132 2 ok pending
133 2 ok pending
134 2 ok pending
135 2 ok pending
136 2 ok pending
137 2 ok pending
138 2 ok pending
139 2 ok pending
140 2 ok pending
141 2 ok pending
142 2 ok pending
143 2 ok pending
144 2 ok pending
145 2 ok pending
146 2 ok pending
147 2 ok pending
148 2 ok pending
149 2 ok pending
150 2 ok pending
151 2 ok pending
152 2 ok pending
153 2 ok pending
154 2 ok pending
155 2 ok pending
156 2 ok pending
157 2 ok pending
158 2 ok pending
159 2 ok pending
160 2 ok pending
161 2 ok pending
162 2 ok pending
163 2 ok pending
164 2 ok pending
165 2 ok pending
166 2 ok pending
167 2 ok pending
168 2 ok pending
169 2 ok pending
170 2 ok pending
171 2 ok pending
172 2 ok pending
173 2 ok pending
174 2 ok pending
175 2 ok pending
176 2 ok pending
177 2 ok pending
178 2 ok pending
179 2 ok pending
180 2 ok pending
181 2 ok pending
182 2 ok pending
183 2 ok pending
184 2 ok pending
185 2 ok pending
186 2 ok pending
187 2 ok pending
188 2 ok pending
189 2 ok pending
190 2 ok pending
191 2 ok pending
192 2 ok pending
193 2 ok pending
194 2 ok pending
195 2 ok pending
196 2 ok pending
197 2 ok pending
198 2 ok pending
199 2 ok pending
200 2 ok pending
201 2 ok pending
202 2 ok pending
203 2 ok pending
204 2 ok pending
205 2 ok pending
206 2 ok pending
207 2 ok pending
208 2 ok pending
209 2 ok pending
210 2 ok pending
211 2 ok pending
212 2 ok pending
213 2 ok pending
214 2 ok pending
215 2 ok pending
216 2 ok pending
217 2 ok pending
218 2 ok pending
219 2 ok pending
220 2 ok pending
221 2 ok pending
222 2 ok pending
223 2 ok pending
224 2 ok pending
225 2 ok pending
226 2 ok pending
227 2 ok pending
228 2 ok pending
229 2 ok pending
230 2 ok pending
231 2 ok pending
232 2 ok pending
233 2 ok pending
234 2 ok pending
235 2 ok pending
236 2 ok pending
237 2 ok pending
238 2 ok pending
239 2 ok pending
240 2 ok pending
241 2 ok pending
242 2 ok pending
243 2 ok pending
244 2 ok pending
245 2 ok pending
246 2 ok pending
247 2 ok pending
248 2 ok pending
249 2 ok pending
250 2 ok pending
251 2 ok pending
252 2 ok pending
253 2 ok pending
254 2 ok pending
255 2 ok pending
256 2 ok pending
257 2 ok pending
258 2 no NoIds 255
end 2
";
