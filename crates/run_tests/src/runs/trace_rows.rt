//! Runs that trace scripts, in the form of the tables of `rows`.

/// Runs that trace scripts.
pub const TRACE_RUNS: &str = r##"== lines that fire, and lines that never do
trace a.kmn a.keys
§+ 'c' > 'x'¶'a' + 'c' > 'y'¶
[K_A] [K_C]¶
0
1 fired -¶2 fired 4¶hit 4=1¶never 3¶end events=2¶
trace a.kmn a.keys
SAMPLE
[K_QUOTE] [K_A] [T_flip]¶[K_BKQUOTE] [SHIFT K_E]¶[K_HYPHEN] [K_HYPHEN]¶expect U+00E0 U+00C8 U+2013¶[CTRL ALT K_Q] [SHIFT K_QUOTE] [K_BKSP]¶[T_flip]
0
1 fired 15¶2 fired 17¶3 fired 21.27¶4 fired 16¶5 fired 18¶6 fired 24¶7 fired 24.31¶8 fired 23¶9 fired 22¶10 fired -¶11 fired 21¶\
hit 15=1¶hit 16=1¶hit 17=1¶hit 18=1¶hit 21=2¶hit 22=1¶hit 23=1¶hit 24=2¶hit 27=1¶hit 31=1¶never 19.20.28¶end events=11¶
== no event, no rule
trace a.kmn a.keys
§+ 'a' > 'b'¶

0
never 3¶end events=0¶
trace a.kmn a.keys
§

0
never -¶end events=0¶
== expectations, and refused events
trace a.kmn a.keys
§+ 'a' > 'b'¶
expect 'x'¶[K_A] [K_B]¶expect 'x'¶
0
1 fired 3¶2 fired -¶hit 3=1¶never -¶end events=2¶
trace a.kmn a.keys
§+ 'a' > 'b'¶
[K_A]¶caret 1¶[K_A]¶caret 9¶[K_A]
1
1 fired 3¶2 fired -¶3 fired 3¶refused E1 event 4¶
== cased keys: one line, several records
trace a.kmn a.keys
store(&casedkeys) [K_B]¶§+ [K_B] > 'x'
[K_B] [CAPS K_B] [SHIFT CAPS K_B] [SHIFT K_B]
0
1 fired 4¶2 fired -¶3 fired 4¶4 fired -¶hit 4=2¶never -¶end events=4¶
trace a.kmn a.keys
store(&casedkeys) [K_B]¶§+ [K_B] > 'x'

0
never 4¶end events=0¶
== groups that rules enter
trace a.kmn a.keys
§+ 'a' > 'x' use(main)
[K_A]
0
1 fired ⟨3.×49⟩3¶hit 3=50¶never -¶end events=1¶
trace a.kmn a.keys
§+ 'a' > 'b'¶match > use(g)¶group(g)¶'b' > 'c'¶
[K_A]
0
1 fired 3.6¶hit 3=1¶hit 6=1¶never -¶end events=1¶
trace a.kmn a.keys
§+ 'a' > return use(g)¶group(g)¶'b' > 'c'¶
[K_A]
0
1 fired 3¶hit 3=1¶never 5¶end events=1¶
== refusals of a source and of a script
trace a.kmn a.keys
§+ 'a' > U+D800¶
[K_A]
1
refused L04 line 3¶
trace a.kmn a.keys
§+ 'a' > 'b'¶
[K_F99]
1
refused P03 line 1¶
== missing files, a sink that fails, other arguments
trace a.kmn a.keys
store(&bitmap) 'q.ico'¶§+ 'a' > 'b'¶
[K_F99]
3

trace a.kmn b.keys
§+ 'a' > 'b'¶

3

trace a.kmn a.keys
§+ 'a' > 'b'¶
[K_A]
4 0 0 1

trace a.kmn
§+ 'a' > 'b'¶

2

trace a.kmn out a.keys
§+ 'a' > 'b'¶

2

"##;
