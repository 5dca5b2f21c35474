//! Runs on long inputs, and runs of loads, in the form of the tables of `rows`.

/// Runs on long inputs, and runs of loads.
pub const LONG_RUNS: &str = r##"== a text that presses make too long
test a.kmn out a.keys
§+ 'a' > '⟨z×1000⟩'
⟨[K_A]¶×997⟩
1 2120
?996 del=0 ins=⟨007A.×999⟩007A pass=0 beep=0 ent=1 ctx=⟨007A.×63⟩007A¶refused E2 event 997¶
== a script and a layout that are too long
test a.kmn out a.keys
§+ 'a' > 'b'
⟨[K_F5]¶×100001⟩
1
refused P07 line 100001¶
layout a.kmn a.keys
§+ 'a' > 'b'¶
⟨ ×4194305⟩
1
refused T7 platform 0 layer 0 row 0 key 0¶
== the greatest file, and a file that is too large
compile a.kmn out
store(s) '⟨x×1024⟩'¶§⟨+ 'a' > outs(s)¶×32418⟩

0 67107424
compiled stores=1 groups=1 rules=32418 bytes=67107424¶
compile a.kmn out
store(s) '⟨x×1024⟩'¶§⟨+ 'a' > outs(s)¶×32419⟩

1
refused C23 size 67109494¶
== load: sizes
load 1


0
load n=1 rules=2 bytes=150 events=3 put=3 text=2¶
load 2000


0
load n=2000 rules=2001 bytes=56122 events=2002 put=2002 text=2¶
load 000000007


0
load n=7 rules=8 bytes=318 events=9 put=9 text=2¶
== load: numbers out of range
load 0


1
refused G1¶
load 2001


1
refused G1¶
load 999999999


1
refused G1¶
== load: other arguments, and a sink that fails
load x


2

load 0000000001


2

load


2

load 1


4 0 0 1

"##;
