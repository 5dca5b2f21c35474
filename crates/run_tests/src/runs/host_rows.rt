//! Runs that play scripts in the fields of a host, in the form of the tables of `rows`.

/// Runs that play scripts in the fields of a host.
pub const HOST_RUNS: &str = r##"== fields have their own text, deadkeys and options
host a.kmx a.keys
§+ '`' > dk(g)¶dk(g) + 'a' > U+00E0¶ ⇒ 0-9999
open¶[K_BKQUOTE]¶open¶[K_A]¶field 1¶preview [K_A]¶[K_A]
0
f1 1 del=0 ins=- pass=0 beep=0 ent=1 ctx=d1¶f2 1 del=0 ins=0061 pass=0 beep=0 ent=1 ctx=0061¶\
f1 preview del=0 ins=00E0 pass=0 beep=0 ent=1¶f1 2 del=0 ins=00E0 pass=0 beep=0 ent=1 ctx=00E0¶\
f1 text 00E0|-¶f2 text 0061|-¶end events=3 failed=0¶
host a.kmx a.keys
store(o) "0"¶§if(o = "1") + 'a' > 'x'¶+ 'a' > 'y'¶+ 's' > set(o = "1")¶+ 'b' > beep beep¶ ⇒ 0-9999
open¶[K_A] [K_S]¶open¶[K_A]¶field 1¶[K_A]
0
f1 1 del=0 ins=0079 pass=0 beep=0 ent=1 ctx=0079¶f1 2 del=0 ins=- pass=0 beep=0 ent=1 ctx=0079¶f1 opt o 0031¶\
f2 1 del=0 ins=0079 pass=0 beep=0 ent=1 ctx=0079¶f1 3 del=0 ins=0078 pass=0 beep=0 ent=1 ctx=0079.0078¶\
f1 text 0079.0078|-¶f2 text 0079|-¶end events=4 failed=0¶
== expectations and refused events
host a.kmx a.keys
§+ 'a' > 'b'¶ ⇒ 0-9999
open¶[K_Q]¶open¶expect "q"¶field 1¶expect "q"
6
f1 1 del=0 ins=0071 pass=0 beep=0 ent=1 ctx=0071¶f2 expect failed line=4¶f1 text 0071|-¶f2 text -|-¶end events=1 failed=1¶
host a.kmx a.keys
§+ 'a' > 'b'¶ ⇒ 0-9999
open¶expect "x"¶caret 1
1
f1 expect failed line=2¶refused E1 event 1¶
== no entry
host a.kmx a.keys
§+ 'a' > 'b'¶ ⇒ 0-9999

0
end events=0 failed=0¶
== refusals of a script and of a file
host a.kmx a.keys
§+ 'a' > 'b'¶ ⇒ 0-9999
[K_A]
1
refused H1 line 1¶
host a.kmx a.keys
§+ 'a' > 'b'¶ ⇒ 0-9999
open¶field 2
1
refused H1 line 2¶
host a.kmx a.keys
§+ 'a' > 'b'¶ ⇒ 0-9999
⟨open¶×65⟩
1
refused H2 line 65¶
host a.kmx a.keys
§+ 'a' > 'b'¶ ⇒ 0-63
[K_A]
1
refused V01 at 63¶
== a missing script, a sink that fails, other arguments
host a.kmx b.keys
§+ 'a' > 'b'¶ ⇒ 0-9999

3

host a.kmx a.keys
§+ 'a' > 'b'¶ ⇒ 0-9999
open¶[K_A]
4 0 0 1

host a.kmx
§+ 'a' > 'b'¶ ⇒ 0-9999

2

host a.kmn a.kmx a.keys
§+ 'a' > 'b'¶ ⇒ 0-9999

2

"##;
