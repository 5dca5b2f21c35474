//! Runs of the commands over a folder and a sink in memory, as tables.
//!
//! Each run is five lines of a table:
//! - the command-line arguments; `; ` separates several commands, which run one after the other;
//! - the source and, after ` ⇒ `, the pieces of its compiled file that make up `a.kmx`: `FROM-TO` is a part of the file, and four
//!   hexadecimal digits are a unit;
//! - the script;
//! - the exit status, the size of the file `out`, and the numbers from 1 of the folder's call and of the sink's call that fail;
//!   a missing number is 0, for no file and no call;
//! - the printed text or, after `?`, lines that are among the printed ones.
//!
//! `¶` stands for a line feed, `␍` for a carriage return, `⌖` for U+FEFF, `§` for the two lines `begin Unicode > use(main)` and
//! `group(main) using keys`, `⟨TEXT×COUNT⟩` for COUNT copies of a text, and `SAMPLE` for a keyboard with every kind of statement. A
//! line that ends in a backslash continues in the next one. A line that starts with `== ` is a heading of the runs below it.

/// Runs on sources.
pub const RUNS: &str = r##"== one rule
test a.kmn out a.keys
§+ 'a' > 'b'¶
[K_A]¶
0 122
1 del=0 ins=0062 pass=0 beep=0 ent=1 ctx=0062¶text 0062|-¶end events=1 failed=0¶
== cased keys
compile a.kmn out
store(&casedkeys) [K_A] [K_B] [K_C]¶§+ [K_B] > 'x'

0 190
compiled stores=1 groups=1 rules=2 bytes=190¶
test a.kmn out a.keys
store(&casedkeys) [K_A] [K_B] [K_C]¶§+ [K_B] > 'x'
[K_B] [CAPS K_B] [SHIFT CAPS K_B] [SHIFT K_B]
0 190
1 del=0 ins=0078 pass=0 beep=0 ent=1 ctx=0078¶2 del=0 ins=0042 pass=0 beep=0 ent=1 ctx=0078.0042¶\
3 del=0 ins=0078 pass=0 beep=0 ent=1 ctx=0078.0042.0078¶4 del=0 ins=0042 pass=0 beep=0 ent=1 ctx=0078.0042.0078.0042¶\
text 0078.0042.0078.0042|-¶end events=4 failed=0¶
== refusals of a source
compile a.kmn out
§store(r) 'a' .. 'e'

1
refused S06 line 3¶
compile a.kmn out
§store(&casedkeys) 'a'

1
refused C25 line 3¶
== conditions on the layer, set by the host and by a rule
test a.kmn out a.keys
§if(&layer = "s") + 'a' > layer("t")
option &layer "s"¶[K_A] [K_A]
0 172
1 del=0 ins=- pass=0 beep=0 ent=0 ctx=-¶opt &layer 0073¶save &layer 0073¶2 del=0 ins=- pass=0 beep=0 ent=1 ctx=-¶\
opt &layer 0074¶3 del=0 ins=0061 pass=0 beep=0 ent=1 ctx=0061¶text 0061|-¶end events=3 failed=0¶
== the default of a key, and a key that is passed on
test a.kmn out a.keys
§+ 'a' > 'b'¶
[SHIFT K_B] [K_F5]
0 122
1 del=0 ins=0042 pass=0 beep=0 ent=1 ctx=0042¶2 del=0 ins=- pass=1 beep=0 ent=1 ctx=0042¶text 0042|-¶end events=2 failed=0¶
== contexts
test a.kmn out a.keys
§+ 'c' > 'x'¶'a' + 'c' > 'y'¶
[K_A] [K_C]¶
0 150
1 del=0 ins=0061 pass=0 beep=0 ent=1 ctx=0061¶2 del=1 ins=0079 pass=0 beep=0 ent=1 ctx=0079¶text 0079|-¶end events=2 failed=0¶
test a.kmn out a.keys
§'a' + 'b' > 'ab'¶
[K_A] [K_B]
0 128
1 del=0 ins=0061 pass=0 beep=0 ent=1 ctx=0061¶2 del=0 ins=0062 pass=0 beep=0 ent=1 ctx=0061.0062¶text 0061.0062|-¶end events=2 failed=0¶
== characters above U+FFFF
test a.kmn out a.keys
§+ 's' > U+1F600¶U+1F600 + 'a' > U+10FFFF¶
[K_S] [K_A]
0 156
1 del=0 ins=1F600 pass=0 beep=0 ent=1 ctx=1F600¶2 del=1 ins=10FFFF pass=0 beep=0 ent=1 ctx=10FFFF¶text 10FFFF|-¶end events=2 failed=0¶
== line ends, U+FEFF and joined lines
test a.kmn out a.keys
⌖begin Unicode > use(main)␍¶group(main) using keys␍¶+ 'a' > 'b'␍¶
[K_A]
0 122
1 del=0 ins=0062 pass=0 beep=0 ent=1 ctx=0062¶text 0062|-¶end events=1 failed=0¶
test a.kmn out a.keys
§+ 'a' > \¶'b' c x \¶+ 'c' > 'd'¶
[K_C]
0 146
1 del=0 ins=0064 pass=0 beep=0 ent=1 ctx=0064¶text 0064|-¶end events=1 failed=0¶
== no event; a compilation does not read the script
test a.kmn out a.keys
§+ 'a' > 'b'¶

0 122
text -|-¶end events=0 failed=0¶
compile a.kmn out
§+ 'a' > 'b'¶
[K_F99]
0 122
compiled stores=0 groups=1 rules=1 bytes=122¶
== refusals of a source: nothing is written
test a.kmn out a.keys
§+ 'a' > U+D800¶
[K_A]
1 0
refused L04 line 3¶
compile a.kmn out
§nul nul + 'a' > 'b'¶

1 0
refused S10 line 3¶
test a.kmn out a.keys
§+ 'a' > 'b¶

1 0
refused L03 line 3¶
test a.kmn out a.keys
§+ 'a' > any(q)¶

1 0
refused S06 line 3¶
test a.kmn out a.keys

[K_A]
1 0
refused C01 line 1¶
compile a.kmn out


1 0
refused C01 line 1¶
compile a.kmn out
§+ 'a' > call(d)¶any(q) + 'b' > 'c'¶

1 0
refused C05 line 4¶
test a.kmn out a.keys
§+ 'a' > call(d)¶
[K_A]
1 0
refused C11 line 3¶
compile a.kmn out
§store(&version) '5.0'¶

1 0
refused C12 line 3¶
== keys and stores of any and index
compile a.kmn out
store(v) 'a' \¶'e' \¶'i' c vowels \¶§+ any(v) > 'x'¶

0 194
compiled stores=1 groups=1 rules=3 bytes=194¶
test a.kmn out a.keys
§+ 'a' > 'x'¶+ [K_A] > 'y'¶
[K_A]
0 146
1 del=0 ins=0078 pass=0 beep=0 ent=1 ctx=0078¶text 0078|-¶end events=1 failed=0¶
test a.kmn out a.keys
§store(v) "aea"¶store(w) "xyz"¶any(v) + '1' > index(w,1)¶
[K_A] [K_1]
0 184
1 del=0 ins=0061 pass=0 beep=0 ent=1 ctx=0061¶2 del=1 ins=0078 pass=0 beep=0 ent=1 ctx=0078¶text 0078|-¶end events=2 failed=0¶
test a.kmn out a.keys
store(k) [K_A] [SHIFT K_A]¶store(o) 'xy'¶§+ any(k) > index(o,1)¶
[K_A] [SHIFT K_A]
0 206
1 del=0 ins=0078 pass=0 beep=0 ent=1 ctx=0078¶2 del=0 ins=0079 pass=0 beep=0 ent=1 ctx=0078.0079¶text 0078.0079|-¶end events=2 failed=0¶
== bitmaps: beside the source, and missing
compile a.kmn out
store(&bitmap) 'p.ico'¶§+ 'a' > 'b'¶

0 150
compiled stores=1 groups=1 rules=1 bytes=150¶
compile d/a.kmn out
store(&bitmap) 'p.ico'¶§+ 'a' > 'b'¶

0 154
compiled stores=1 groups=1 rules=1 bytes=154¶
compile a.kmn out
store(&bitmap) 'q.ico'¶§+ 'a' > 'b'¶

3 0

== refusals and expectations of a script
test a.kmn out a.keys
§+ 'a' > 'b'¶
[K_A]¶[K_QQ]¶
1 0
refused P03 line 2¶
test a.kmn out a.keys
§+ 'a' > 'b'¶
[K_A]¶expect "c"¶
6 122
1 del=0 ins=0062 pass=0 beep=0 ent=1 ctx=0062¶expect failed line=2¶text 0062|-¶end events=1 failed=1¶
== every kind of entry
test a.kmn out a.keys
§+ 'a' > 'b'¶
expect ""¶[K_A] [K_A]¶caret 1¶edit 1 2 'yz'¶expect 'byz'¶caret 3¶option o '1'¶
0 122
1 del=0 ins=0062 pass=0 beep=0 ent=1 ctx=0062¶2 del=0 ins=0062 pass=0 beep=0 ent=1 ctx=0062.0062¶3 del=0 ins=- pass=0 beep=0 ent=0 ctx=0062¶\
4 del=0 ins=- pass=0 beep=0 ent=0 ctx=0062¶5 del=0 ins=- pass=0 beep=0 ent=0 ctx=0062.0079.007A¶\
6 del=0 ins=- pass=0 beep=0 ent=0 ctx=0062.0079.007A¶text 0062.0079.007A|-¶end events=6 failed=0¶
== refused events: the lines before are printed
test a.kmn out a.keys
§+ 'a' > 'b'¶
caret 5
1 122
refused E1 event 1¶
test a.kmn out a.keys
§+ 'a' > 'b'¶
expect 'x'¶caret 5¶
1 122
expect failed line=1¶refused E1 event 1¶
test a.kmn out a.keys
§+ 'a' > 'b'¶
[K_A]¶edit 1 0 'x'¶
1 122
1 del=0 ins=0062 pass=0 beep=0 ent=1 ctx=0062¶refused E1 event 2¶
== refusals of a script: nothing is written
test a.kmn out a.keys
§+ 'a' > 'b'¶
[K_QQ]¶
1 0
refused P03 line 1¶
test a.kmn out a.keys
§+ 'a' > 'b'¶
caret 0 0
1 0
refused P08 line 1¶
test a.kmn out a.keys
§+ 'a' > 'b'¶
edit 0 x "a"¶
1 0
refused P05 line 1¶
== other arguments, missing files, a sink that fails
test a.kmn
§+ 'a' > 'b'¶
[K_A]
2 0

Test a.kmn a.kmx a.keys
§+ 'a' > 'b'¶
[K_A]
2 0

compile a.kmn out a.keys
§+ 'a' > 'b'¶
[K_A]
2 0

test a.kmn out b.keys
§+ 'a' > 'b'¶
[K_A]
3 0

test b.kmn out a.keys
§+ 'a' > 'b'¶
[K_A]
3 0

compile a.kmn out
§+ 'a' > 'b'¶

4 122 0 1

== an index past the end of its store
test a.kmn out a.keys
§store(v) "aea"¶store(w) "x"¶any(v) + '1' > index(w,1)
[K_E] [K_1]
0 180
1 del=0 ins=0065 pass=0 beep=0 ent=1 ctx=0065¶2 del=1 ins=- pass=0 beep=0 ent=1 ctx=-¶text -|-¶end events=2 failed=0¶
== deadkeys
test a.kmn out a.keys
§+ '`' > dk(g)¶dk(g) + 'a' > U+00E0
[K_BKQUOTE] [K_A]
0 158
1 del=0 ins=- pass=0 beep=0 ent=1 ctx=d1¶2 del=0 ins=00E0 pass=0 beep=0 ent=1 ctx=00E0¶text 00E0|-¶end events=2 failed=0¶
test a.kmn out a.keys
§+ '`' > dk(g)¶dk(g) + 'a' > U+00E0
[K_X] [K_BKQUOTE]¶caret 0¶caret 1¶[K_A]
0 158
1 del=0 ins=0078 pass=0 beep=0 ent=1 ctx=0078¶2 del=0 ins=- pass=0 beep=0 ent=1 ctx=0078.d1¶3 del=0 ins=- pass=0 beep=0 ent=0 ctx=-¶\
4 del=0 ins=- pass=0 beep=0 ent=0 ctx=0078¶5 del=0 ins=0061 pass=0 beep=0 ent=1 ctx=0078.0061¶text 0078.0061|-¶end events=5 failed=0¶
== options
test a.kmn out a.keys
store(o) "0"¶§if(o = "1") + 'a' > 'x'¶+ 'a' > 'y'¶+ 's' > set(o = "1")¶+ 'v' > save(o)¶+ 'r' > reset(o)¶+ 'z' > set(o = "0")
[K_A] [K_S] [K_A] [K_R]¶option o "1"¶[K_Z] [K_R] [K_A] [K_Z] [K_V]
0 326
1 del=0 ins=0079 pass=0 beep=0 ent=1 ctx=0079¶2 del=0 ins=- pass=0 beep=0 ent=1 ctx=0079¶opt o 0031¶\
3 del=0 ins=0078 pass=0 beep=0 ent=1 ctx=0079.0078¶4 del=0 ins=- pass=0 beep=0 ent=1 ctx=0079.0078¶opt o 0030¶\
5 del=0 ins=- pass=0 beep=0 ent=0 ctx=0079.0078¶opt o 0031¶save o 0031¶6 del=0 ins=- pass=0 beep=0 ent=1 ctx=0079.0078¶opt o 0030¶\
7 del=0 ins=- pass=0 beep=0 ent=1 ctx=0079.0078¶opt o 0031¶8 del=0 ins=0078 pass=0 beep=0 ent=1 ctx=0079.0078.0078¶\
9 del=0 ins=- pass=0 beep=0 ent=1 ctx=0079.0078.0078¶opt o 0030¶10 del=0 ins=- pass=0 beep=0 ent=1 ctx=0079.0078.0078¶save o 0030¶\
text 0079.0078.0078|-¶end events=10 failed=0¶
== at most 50 groups in an event
test a.kmn out a.keys
§+ 'a' > 'x' use(main)
[K_A]
0 128
1 del=0 ins=⟨0078.×49⟩0078 pass=0 beep=0 ent=50 ctx=⟨0078.×49⟩0078¶text ⟨0078.×49⟩0078|-¶end events=1 failed=0¶
== deadkeys and the window of 64 items
test a.kmn out a.keys
§+ '`' > dk(g)
[K_BKQUOTE]⟨[K_A]×64⟩[K_BKSP]
0 126
?64 del=0 ins=0061 pass=0 beep=0 ent=1 ctx=d1.⟨0061.×62⟩0061¶65 del=0 ins=0061 pass=0 beep=0 ent=1 ctx=⟨0061.×63⟩0061¶\
66 del=1 ins=- pass=0 beep=0 ent=1 ctx=⟨0061.×62⟩0061¶
test a.kmn out a.keys
store(z) 'z'¶§+ 'q' > use(t) use(t) use(t) use(n)¶group(t)¶⟨any(z) ×40⟩> nul¶group(n)¶nul > 'N'
edit 0 0 '⟨z×130⟩'¶caret 130¶[K_Q]
0 518
1 del=0 ins=- pass=0 beep=0 ent=0 ctx=-¶2 del=0 ins=- pass=0 beep=0 ent=0 ctx=⟨007A.×63⟩007A¶\
3 del=120 ins=- pass=0 beep=0 ent=5 ctx=⟨007A.×9⟩007A¶text ⟨007A.×9⟩007A|-¶end events=3 failed=0¶
test a.kmn out a.keys
store(z) 'z'¶§+ 'q' > '⟨z×70⟩' use(t) use(n)¶group(t)¶⟨any(z) ×60⟩> nul¶group(n)¶⟨any(z) ×10⟩> 'N'
[K_Q]
0 822
1 del=0 ins=004E pass=0 beep=0 ent=3 ctx=004E¶text 004E|-¶end events=1 failed=0¶
test a.kmn out a.keys
§+ '`' > dk(g)¶dk(g) + 'a' > U+00E0
[K_X] [K_BKQUOTE]¶edit 0 0 "yyy"
0 158
1 del=0 ins=0078 pass=0 beep=0 ent=1 ctx=0078¶2 del=0 ins=- pass=0 beep=0 ent=1 ctx=0078.d1¶\
3 del=0 ins=- pass=0 beep=0 ent=0 ctx=0079.0079.0079.0078¶text 0079.0079.0079.0078|-¶end events=3 failed=0¶
test a.kmn out a.keys
§+ '`' > dk(g)¶dk(g) + 'a' > U+00E0
edit 0 0 '⟨x×70⟩'¶caret 70¶[K_BKQUOTE]¶edit 0 0 '⟨y×100⟩'¶[K_A]
0 158
?4 del=0 ins=- pass=0 beep=0 ent=0 ctx=⟨0078.×63⟩d1¶5 del=0 ins=00E0 pass=0 beep=0 ent=1 ctx=⟨0078.×63⟩00E0¶end events=5 failed=0¶
== refusals of names and offsets
compile a.kmn out
§any(q) + 'a' > 'b'

1
refused C05 line 3¶
compile a.kmn out
store(v) 'ab'¶§any(v) any(v) + '1' > index(v,4)

1
refused C08 line 4¶
compile a.kmn out
store(v) 'ab'¶§any(v) any(v) + '1' > index(v,3)

1
refused C09 line 4¶
== return, nomatch and several groups
test a.kmn out a.keys
§+ 'a' > 'x' return 'y'¶match > 'z'
[K_A]
0 132
1 del=0 ins=0078 pass=0 beep=0 ent=1 ctx=0078¶text 0078|-¶end events=1 failed=0¶
test a.kmn out a.keys
§+ 'a' > use(t) 'b'¶group(t)¶nomatch > 'n' beep
[K_A]
0 164
1 del=0 ins=006E.0062 pass=0 beep=1 ent=2 ctx=006E.0062¶text 006E.0062|-¶end events=1 failed=0¶
== at most 4,096 items in an event
test a.kmn out a.keys
§+ 'a' > '⟨x×1023⟩' use(main)
[K_A]
0 2172
1 del=0 ins=⟨0078.×4095⟩0078 pass=0 beep=0 ent=5 ctx=⟨0078.×63⟩0078¶text ⟨0078.×4095⟩0078|-¶end events=1 failed=0¶
test a.kmn out a.keys
§+ 'a' > '⟨x×1024⟩' use(main)
[K_A]
1
refused C17 line 3¶
== options and other stores
test a.kmn out a.keys
§store(o) 'ab'¶if(o = "ab") any(o) + '1' > set(o = "ba") index(o,2)
[K_A] [K_1]
0 212
1 del=0 ins=0061 pass=0 beep=0 ent=1 ctx=0061¶2 del=1 ins=0062 pass=0 beep=0 ent=1 ctx=0062¶opt o 0062.0061¶text 0062|-¶end events=2 failed=0¶
compile a.kmn out
§store(o) "0"¶if(o = "1") + any(o) > 'x'

1
refused C13 line 4¶
== a keyboard with every kind of statement
compile a.kmn out
SAMPLE

0 1638
compiled stores=13 groups=3 rules=31 bytes=1638¶
test a.kmn out a.keys
SAMPLE
[K_QUOTE] [K_A] [T_flip]¶[K_BKQUOTE] [SHIFT K_E]¶[K_HYPHEN] [K_HYPHEN]¶expect U+00E0 U+00C8 U+2013¶[CTRL ALT K_Q] [SHIFT K_QUOTE] [K_BKSP]¶[T_flip]
0 1638
1 del=0 ins=- pass=0 beep=0 ent=2 ctx=d1¶2 del=0 ins=00E1 pass=0 beep=0 ent=2 ctx=00E1¶3 del=1 ins=00E0 pass=0 beep=0 ent=3 ctx=00E0¶\
4 del=0 ins=- pass=0 beep=0 ent=2 ctx=00E0.d2¶5 del=0 ins=00C8 pass=0 beep=0 ent=2 ctx=00E0.00C8¶\
6 del=0 ins=002D pass=0 beep=0 ent=2 ctx=00E0.00C8.002D¶7 del=1 ins=2013 pass=0 beep=0 ent=2 ctx=00E0.00C8.2013¶\
8 del=0 ins=- pass=0 beep=0 ent=2 ctx=00E0.00C8.2013¶opt quotes 0031¶save quotes 0031¶\
9 del=0 ins=201C pass=0 beep=0 ent=2 ctx=00E0.00C8.2013.201C¶10 del=1 ins=- pass=0 beep=0 ent=1 ctx=00E0.00C8.2013¶\
11 del=0 ins=- pass=0 beep=1 ent=3 ctx=00E0.00C8.2013¶text 00E0.00C8.2013|-¶end events=11 failed=0¶"##;

/// Runs on compiled keyboards, and on files that were made from their pieces.
pub const FILE_RUNS: &str = r##"== verify: a valid file, and one fault of each kind
verify a.kmx
§+ 'a' > 'b'¶ ⇒ 0-122

0
valid version=0A00 stores=0 groups=1 rules=1¶
verify a.kmx
§+ 'a' > 'b'¶ ⇒ 0-63

1
refused V01 at 63¶
verify a.kmx
§+ 'a' > 'b'¶ ⇒ 0-120

1
refused V10 at 100¶
verify a.kmx
§+ 'a' > 'b'¶ ⇒ 0-118 FFFF 000F 0001 0000

1
refused V14 at 118 code 0F¶
verify a.kmx
§+ 'a' > 'b'¶ ⇒ 0-118 FFFF 0013 0001 0001 0000

1
refused V12 at 118¶
verify a.kmx
§+ 'a' > 'b'¶ ⇒ 0-118 FFFF 0005 0000

1
refused V11 at 118¶
== verify: records in another order, and a store whose name is gone
verify a.kmx
§+ 'c' > 'x'¶'a' + 'c' > 'y'¶ ⇒ 0-88 108-128 88-108 128-150

0
valid version=0A00 stores=0 groups=1 rules=2¶
verify a.kmx
store(k) [K_A] [SHIFT K_A]¶store(o) 'xy'¶§+ any(k) > index(o,1)¶ ⇒ 0-68 0000 0000 72-80 0000 0000 84-88 0000 0000 92-206

0
valid version=0A00 stores=2 groups=1 rules=2¶
== verify: a missing file, and other arguments
verify b.kmx
§+ 'a' > 'b'¶ ⇒ 0-122

3

verify a.kmx a.keys
§+ 'a' > 'b'¶ ⇒ 0-122

2

== play: the same files
play a.kmx a.keys
§+ 'c' > 'x'¶'a' + 'c' > 'y'¶ ⇒ 0-88 108-128 88-108 128-150
[K_A] [K_C]
0
1 del=0 ins=0061 pass=0 beep=0 ent=1 ctx=0061¶2 del=0 ins=0078 pass=0 beep=0 ent=1 ctx=0061.0078¶text 0061.0078|-¶end events=2 failed=0¶
play a.kmx a.keys
store(k) [K_A] [SHIFT K_A]¶store(o) 'xy'¶§+ any(k) > index(o,1)¶ ⇒ 0-68 0000 0000 72-80 0000 0000 84-88 0000 0000 92-206
[K_A] [SHIFT K_A]
0
1 del=0 ins=0078 pass=0 beep=0 ent=1 ctx=0078¶2 del=0 ins=0079 pass=0 beep=0 ent=1 ctx=0078.0079¶text 0078.0079|-¶end events=2 failed=0¶
== play: custom keys and their names
play a.kmx a.keys
§+ [T_one] > 'x'¶+ [T_two] > 'y'¶ ⇒ 0-9999
[t_TWO]¶expect 'x'
6
1 del=0 ins=0079 pass=0 beep=0 ent=1 ctx=0079¶expect failed line=2¶text 0079|-¶end events=1 failed=1¶
play a.kmx a.keys
§+ 'a' > 'b'¶ ⇒ 0-122
[T_one]
1
refused P03 line 1¶
== play: refusals, a missing file, and other arguments
play a.kmx a.keys
§+ 'a' > 'b'¶ ⇒ 0-122
caret 5
1
refused E1 event 1¶
play a.kmx a.keys
§+ 'a' > 'b'¶ ⇒ 0-63
[T_one]
1
refused V01 at 63¶
play a.kmx b.keys
§+ 'a' > 'b'¶ ⇒ 0-122

3

play a.kmx
§+ 'a' > 'b'¶ ⇒ 0-122

2

== verify: faults of each field
verify a.kmx
§+ 'a' > 'b'¶ ⇒ 0-118 FFFF 0011 0001 0000

1
refused V13 at 118¶
verify a.kmx
§+ 'a' > 'b'¶ ⇒ 5800 2-122

1
refused V02 at 0¶
verify a.kmx
§+ 'a' > 'b'¶ ⇒ 0-4 0B00 0000 8-122

1
refused V03 at 4¶
verify a.kmx
§+ 'a' > 'b'¶ ⇒ 0-48 0020 0000 52-122

1
refused V04 at 48¶
verify a.kmx
§+ 'a' > 'b'¶ ⇒ 0-28 03E9 0000 32-122

1
refused V15 at 28¶
verify a.kmx
§+ 'a' > 'b'¶ ⇒ 0-44 FFFF FFFF 48-122

1
refused V05 at 44¶
verify a.kmx
§+ 'a' > 'b'¶ ⇒ 0-44 0001 0000 48-122

1
refused V06 at 44¶
verify a.kmx
§+ 'a' > 'b'¶ ⇒ 0-40 0001 0000 44-122

1
refused V06 at 40¶
verify a.kmx
§+ 'a' > 'b'¶ ⇒ 0-24 0001 0000 28-32 007A 0000 36-122

1
refused V07 at 32¶
verify a.kmx
§+ 'a' > 'b'¶ ⇒ 0-36 0070 0000 40-122

1
refused V08 at 36¶
verify a.kmx
§+ 'a' > 'b'¶ ⇒ 0-56 007A 0000 0001 0000 64-122

1
refused V16 at 56¶
verify a.kmx
§+ 'a' > 'b'¶ ⇒ 0-80 86A1 0001 84-122

1
refused V15 at 80¶
verify a.kmx
§+ 'a' > 'b'¶ ⇒ 0-68 0070 0000 72-122

1
refused V09 at 68¶
verify a.kmx
§+ 'a' > 'b'¶ ⇒ 0-64 007A 0000 68-122

1
refused V10 at 64¶
verify a.kmx
§+ 'a' > 'b'¶ ⇒ 0-96 0400 0000 100-122

1
refused V14 at 96 code 0A¶
verify a.kmx
§+ 'a' > 'b'¶ ⇒ 0-118 D800 0000

1
refused V11 at 118¶
== a deadkey that no source can have
verify a.kmx
§+ 'a' > 'b'¶ ⇒ 0-118 FFFF 0008 1389 0000

0
valid version=0A00 stores=0 groups=1 rules=1¶
play a.kmx a.keys
§+ 'a' > 'b'¶ ⇒ 0-118 FFFF 0008 1389 0000
[K_A]
0
1 del=0 ins=- pass=0 beep=0 ent=1 ctx=d5001¶text -|-¶end events=1 failed=0¶
== decompile: sources, and the reasons why there is none
decompile a.kmx out
§+ 'a' > 'b'¶ ⇒ 0-122

0 90
decompiled bytes=90¶
decompile a.kmx out
§+ 'c' > 'x'¶'a' + 'c' > 'y'¶ ⇒ 0-88 108-128 88-108 128-150

1
refused X1 group 0 rule 1¶
decompile a.kmx out
§+ 'a' > 'b'¶ ⇒ 0-118 FFFF 0008 1389 0000

1
refused X2 at 100¶
compile a.kmn a.kmx; decompile a.kmx out
store(s) '⟨x×1024⟩'¶§⟨+ 'a' > outs(s)¶×585⟩

1
?refused X3 size 4199787¶
== decompile: the source plays like the original
compile a.kmn a.kmx; decompile a.kmx b.kmn; test b.kmn b.kmx a.keys
SAMPLE
[K_QUOTE] [K_A] [T_flip]¶[K_BKQUOTE] [SHIFT K_E]¶[K_HYPHEN] [K_HYPHEN]¶expect U+00E0 U+00C8 U+2013¶[CTRL ALT K_Q] [SHIFT K_QUOTE] [K_BKSP]¶[T_flip]
0
?1 del=0 ins=- pass=0 beep=0 ent=2 ctx=d1¶2 del=0 ins=00E1 pass=0 beep=0 ent=2 ctx=00E1¶3 del=1 ins=00E0 pass=0 beep=0 ent=3 ctx=00E0¶\
4 del=0 ins=- pass=0 beep=0 ent=2 ctx=00E0.d2¶5 del=0 ins=00C8 pass=0 beep=0 ent=2 ctx=00E0.00C8¶\
6 del=0 ins=002D pass=0 beep=0 ent=2 ctx=00E0.00C8.002D¶7 del=1 ins=2013 pass=0 beep=0 ent=2 ctx=00E0.00C8.2013¶\
8 del=0 ins=- pass=0 beep=0 ent=2 ctx=00E0.00C8.2013¶opt quotes 0031¶save quotes 0031¶\
9 del=0 ins=201C pass=0 beep=0 ent=2 ctx=00E0.00C8.2013.201C¶10 del=1 ins=- pass=0 beep=0 ent=1 ctx=00E0.00C8.2013¶\
11 del=0 ins=- pass=0 beep=1 ent=3 ctx=00E0.00C8.2013¶text 00E0.00C8.2013|-¶end events=11 failed=0¶
== decompile: refusals, a missing file, folders and sinks that fail, other arguments
decompile a.kmx out
§+ 'a' > 'b'¶ ⇒ 0-63

1
refused V01 at 63¶
decompile b.kmx out
§+ 'a' > 'b'¶ ⇒ 0-122

3

decompile a.kmx out
§+ 'a' > 'b'¶ ⇒ 0-122

4 45 2

decompile a.kmx out
§+ 'a' > 'b'¶ ⇒ 0-122

4 90 0 1

decompile a.kmx
§+ 'a' > 'b'¶ ⇒ 0-122

2

== verify: conditions on the layer, and sets of it
verify a.kmx
§+ 'a' > 'b'¶ ⇒ 0-24 0001 0000 28-32 0040 0000 004C 0000 40-64 0000 0000 0000 0000 0078 0000 007C 0000 0064 0000 72-100 \
0092 0000 0086 0000 0073 0000 108-118 FFFF 0017 0022 0002 0001 0000 118-122

0
valid version=0A00 stores=1 groups=1 rules=1¶
verify a.kmx
§+ 'a' > 'b'¶ ⇒ 0-24 0001 0000 28-32 0040 0000 004C 0000 40-64 0000 0000 0000 0000 0078 0000 007C 0000 0064 0000 72-100 \
0092 0000 0086 0000 0073 0000 108-118 FFFF 0017 0021 0002 0001 0000 118-122

1
refused V14 at 134 code 17¶
verify a.kmx
§+ 'a' > 'b'¶ ⇒ 0-24 0001 0000 28-32 0040 0000 004C 0000 40-64 0000 0000 0000 0000 0078 0000 007C 0000 0064 0000 72-100 \
0092 0000 0086 0000 0073 0000 108-118 FFFF 0017 0022 0002 0002 0000 118-122

1
refused V12 at 134¶
verify a.kmx
§+ 'a' > 'b'¶ ⇒ 0-24 0001 0000 28-32 0040 0000 004C 0000 40-64 0000 0000 0000 0000 0078 0000 007C 0000 0064 0000 72-100 \
0092 0000 0086 0000 0073 0000 108-118 FFFF 0017 0022 0003 0001 0000 118-122

1
refused V11 at 134¶
verify a.kmx
§+ 'a' > 'b'¶ ⇒ 0-24 0001 0000 28-32 0040 0000 004C 0000 40-64 0000 0000 0000 0000 008C 0000 0078 0000 0064 0000 72-100 \
0082 0000 0000 0000 108-118 FFFF 0018 0020 0001 0000 0073 0000

1
refused V14 at 130 code 18¶
== play: conditions on the layer and the platform
play a.kmx a.keys
§+ 'a' > 'b'¶ ⇒ 0-24 0001 0000 28-32 0040 0000 004C 0000 40-64 0000 0000 0000 0000 0078 0000 007C 0000 0064 0000 72-100 \
0092 0000 0086 0000 0073 0000 108-118 FFFF 0017 0022 0002 0001 0000 118-122
[K_A]¶option &layer "s"¶[K_A]
0
1 del=0 ins=0061 pass=0 beep=0 ent=1 ctx=0061¶2 del=0 ins=- pass=0 beep=0 ent=0 ctx=0061¶opt &layer 0073¶save &layer 0073¶\
3 del=0 ins=0062 pass=0 beep=0 ent=1 ctx=0061.0062¶text 0061.0062|-¶end events=3 failed=0¶
play a.kmx a.keys
§+ 'a' > 'b'¶ ⇒ 0-24 0001 0000 28-32 0040 0000 004C 0000 40-64 0000 0000 0000 0000 0078 0000 007C 0000 0064 0000 72-100 \
0092 0000 0086 0000 0073 0000 108-118 FFFF 0017 0022 0002 0001 0000 118-122
option layer "z"¶option &Layer "x"¶option &layer 'x'¶[K_A]
0
1 del=0 ins=- pass=0 beep=0 ent=0 ctx=-¶2 del=0 ins=- pass=0 beep=0 ent=0 ctx=-¶opt &layer 0078¶save &layer 0078¶\
3 del=0 ins=- pass=0 beep=0 ent=0 ctx=-¶4 del=0 ins=0061 pass=0 beep=0 ent=1 ctx=0061¶text 0061|-¶end events=4 failed=0¶
play a.kmx a.keys
§+ 'a' > 'b'¶ ⇒ 0-24 0001 0000 28-32 0040 0000 004C 0000 40-64 0000 0000 0000 0000 0078 0000 007C 0000 0064 0000 72-100 \
0092 0000 0086 0000 0073 0000 108-118 FFFF 0017 0020 0001 0001 0000 118-122
[K_A]¶option &platform "web S"¶[K_A]
0
1 del=0 ins=0062 pass=0 beep=0 ent=1 ctx=0062¶2 del=0 ins=- pass=0 beep=0 ent=0 ctx=0062¶opt &platform 0077.0065.0062.0020.0053¶\
save &platform 0077.0065.0062.0020.0053¶3 del=0 ins=0061 pass=0 beep=0 ent=1 ctx=0062.0061¶text 0062.0061|-¶end events=3 failed=0¶
== play: sets of the layer
play a.kmx a.keys
§+ 'a' > 'b'¶ ⇒ 0-24 0001 0000 28-32 0040 0000 004C 0000 40-64 0000 0000 0000 0000 008C 0000 0078 0000 0064 0000 72-100 \
0082 0000 0000 0000 108-118 FFFF 0018 0022 0001 0000 0073 0000
[K_A] [K_A]
0
1 del=0 ins=- pass=0 beep=0 ent=1 ctx=-¶opt &layer 0073¶2 del=0 ins=- pass=0 beep=0 ent=1 ctx=-¶text -|-¶end events=2 failed=0¶
play a.kmx a.keys
§+ 'a' > 'b'¶ ⇒ 0-24 0001 0000 28-32 0040 0000 004C 0000 40-64 0000 0000 0000 0000 0000 0000 0078 0000 0064 0000 72-100 \
0082 0000 0000 0000 108-118 FFFF 0018 0022 0001 0000
[K_A]
0
1 del=0 ins=- pass=0 beep=0 ent=1 ctx=-¶opt &layer -¶text -|-¶end events=1 failed=0¶
play a.kmx a.keys
§+ 'a' > 'b'¶ ⇒ 0-24 0001 0000 28-32 0040 0000 004C 0000 40-64 0000 0000 0000 0000 008C 0000 0078 0000 0064 0000 72-100 \
0082 0000 0000 0000 108-118 FFFF 0018 0022 0001 0000 0064 0065 0066 0061 0075 006C 0074 0000
[K_A]
0
1 del=0 ins=- pass=0 beep=0 ent=1 ctx=-¶text -|-¶end events=1 failed=0¶
play a.kmx a.keys
§+ 'a' > 'b'¶ ⇒ 0-24 0001 0000 28-32 0040 0000 004C 0000 40-64 0000 0000 0000 0000 008C 0000 0078 0000 0064 0000 72-100 \
0082 0000 0000 0000 108-118 FFFF 0018 0022 0001 0000 FFFF 0008 0001 0000
[K_A]
0
1 del=0 ins=- pass=0 beep=0 ent=1 ctx=-¶opt &layer d1¶text -|-¶end events=1 failed=0¶
== decompile: the layer
decompile a.kmx out
§+ 'a' > 'b'¶ ⇒ 0-24 0001 0000 28-32 0040 0000 004C 0000 40-64 0000 0000 0000 0000 0078 0000 007C 0000 0064 0000 72-100 \
0092 0000 0086 0000 0073 0000 108-118 FFFF 0017 0022 0002 0001 0000 118-122

0 107
decompiled bytes=107¶
decompile a.kmx out
§+ 'a' > 'b'¶ ⇒ 0-24 0001 0000 28-32 0040 0000 004C 0000 40-64 0000 0000 0000 0000 008C 0000 0078 0000 0064 0000 72-100 \
0082 0000 0000 0000 108-118 FFFF 0018 0022 0001 0000 0073 0000

0 101
decompiled bytes=101¶"##;

/// Runs that check touch layouts. The line of the script contains the layout.
pub const LAYOUT_RUNS: &str = r##"== layouts with and without faults
layout a.kmn a.keys
SAMPLE
{"phone":{"font":"Sans","layer":[{"id":"default","row":[{"id":"1","key":[{"id":"K_A","text":"a","sk":[{"id":"U_00E1","text":"x"}]},\
{"id":"T_flip","text":"flip"},{"id":"K_SHIFT","text":"*Shift*","sp":"1","nextlayer":"shift"}]}]},{"id":"shift","row":[{"id":"1",\
"key":[{"id":"K_A","text":"A"},{"id":"K_SHIFT","sp":"2","nextlayer":"default"},{"id":"T_pad","sp":"10","width":"50"}]}]}]}}
0
layout sound keys=7¶
layout a.kmn a.keys
SAMPLE
{"phone":{"font":"Sans","layer":[{"id":"default","row":[{"id":"1","key":[{"id":"K_A","text":"a","sk":[{"id":"U_00E1","text":"x"}]},\
{"id":"T_flop","text":"flip"},{"id":"K_SHIFT","text":"*Shift*","sp":"1","nextlayer":"shift"}]}]},{"id":"shift","row":[{"id":"1",\
"key":[{"id":"K_A","text":"A"},{"id":"K_SHIFT","sp":"2","nextlayer":"default"},{"id":"T_pad","sp":"10","width":"50"}]}]}]}}
1
refused T5 platform 1 layer 1 row 1 key 2¶
layout a.kmn a.keys
SAMPLE
{"phone":{"font":"Sans","layer":[{"id":"default","row":[{"id":"1","key":[{"id":"K_A","text":"a","sk":[{"id":"U_00E1","text":"x"}]},\
{"id":"T_flip","text":"flip"},{"id":"K_SHIFT","text":"*Shift*","sp":"1","nextlayer":"numeric"}]}]},{"id":"shift","row":[{"id":"1",\
"key":[{"id":"K_A","text":"A"},{"id":"K_SHIFT","sp":"2","nextlayer":"default"},{"id":"T_pad","sp":"10","width":"50"}]}]}]}}
1
refused T4 platform 1 layer 1 row 1 key 3¶
layout a.kmn a.keys
SAMPLE
{"phone":{"font":"Sans","layer":[{"id":"default","row":[{"id":"1","key":[{"id":"K_A","text":"a","sk":[{"id":"U_00E1","text":"x"}]},\
{"id":"T_flip","text":"flip"},{"id":"K_SHIFT","text":"*Shift*","sp":"1","nextlayer":"shift"}]}]},{"id":"default","row":[{"id":"1",\
"key":[{"id":"K_A","text":"A"},{"id":"K_SHIFT","sp":"2","nextlayer":"default"},{"id":"T_pad","sp":"10","width":"50"}]}]}]}}
1
refused T6 platform 1 layer 2 row 0 key 0¶
layout a.kmn a.keys
SAMPLE

1
refused T1 platform 0 layer 0 row 0 key 0¶
layout a.kmn a.keys
SAMPLE
{"phone":{"font":"Sans","layer":[{"id":"default","row":[{"id":"1","key":[{"id":"K_A","text":"a","flick":{"n":{"id":"K_ZZ"}},\
"sk":[{"id":"U_00E1","text":"x"}]},{"id":"T_flip","text":"flip"},{"id":"K_SHIFT","text":"*Shift*","sp":"1","nextlayer":"shift"}]}]},\
{"id":"shift","row":[{"id":"1","key":[{"id":"K_A","text":"A"},{"id":"K_SHIFT","sp":"2","nextlayer":"default"},{"id":"T_pad","sp":"10",\
"width":"50"}]}]}]}}
1
refused T3 platform 1 layer 1 row 1 key 1¶
layout a.kmn a.keys
SAMPLE
{"phone":{"font":"Sans","layer":[{"id":"default","row":[{"id":"1","key":[{"id":"K_A","text":"a","sk":[{"id":"U_00E1","text":"x"}]},\
{"id":"T_flip","sk":{},"text":"flip"},{"id":"K_SHIFT","text":"*Shift*","sp":"1","nextlayer":"shift"}]}]},{"id":"shift","row":[{"id":"1",\
"key":[{"id":"K_A","text":"A"},{"id":"K_SHIFT","sp":"2","nextlayer":"default"},{"id":"T_pad","sp":"10","width":"50"}]}]}]}}
1
refused T2 platform 1 layer 1 row 1 key 2¶
== an empty layout
layout a.kmn a.keys
§+ 'a' > 'b'¶
⌖{}
0
layout sound keys=0¶
== a missing layout, a refused source, other arguments, a sink that fails
layout a.kmn b.keys
§+ 'a' > 'b'¶

3

layout a.kmn b.keys


1
refused C01 line 1¶
layout a.kmn
§+ 'a' > 'b'¶

2

layout a.kmn a.keys
§+ 'a' > 'b'¶
{}
4 0 0 1

"##;

/// The text that the file of the first run decompiles to.
pub const TEXT: &str = r##"store(&version) "10.0"
begin Unicode > use(main)
group(main) using keys
+ U+0061 > U+0062
"##;
