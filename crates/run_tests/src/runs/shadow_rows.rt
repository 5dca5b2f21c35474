//! Runs that search for lines that never fire, in the form of the tables of `rows`.

/// Runs that search for lines that never fire.
pub const SHADOW_RUNS: &str = r##"== rules that an earlier rule covers, and others
shadow a.kmn
§+ 'a' > 'x'¶+ [K_A] > 'y'¶

0
end rules=2 dead=0¶
shadow a.kmn
§+ 'a' > 'x'¶+ [NCAPS K_A] > 'y'¶

0
dead 4 by 3¶end rules=2 dead=1¶
shadow a.kmn
store(v) 'ae'¶§'a' + '1' > 'x'¶'e' + '1' > 'y'¶any(v) + '1' > 'z'¶

0
dead 6 by 4.5¶end rules=3 dead=1¶
shadow a.kmn
store(s) [K_A]¶§+ 'a' > 'x'¶any(s) + 'b' > 'y'¶

0
dead 5 by -¶end rules=2 dead=1¶
shadow a.kmn
§+ [CTRL K_A] > 'x'¶+ [LCTRL K_A] > 'y'¶+ [RCTRL K_A] > 'z'¶

0
dead 4 by 3¶dead 5 by 3¶end rules=3 dead=2¶
== no rule, too many rules
shadow a.kmn
§

0
end rules=0 dead=0¶
shadow a.kmn
§⟨+ 'a' > 'b'¶×2001⟩

1
refused G2 rules 2001¶
== a missing bitmap precedes the number of rules
shadow a.kmn
store(&bitmap) 'q.ico'¶§⟨+ 'a' > 'b'¶×2001⟩

3

== a refused source, a missing one, a sink that fails, other arguments
shadow a.kmn
§+ 'a' > U+D800¶

1
refused L04 line 3¶
shadow b.kmn
§+ 'a' > 'b'¶

3

shadow a.kmn
§+ 'a' > 'b'¶

4 0 0 1

shadow
§+ 'a' > 'b'¶

2

shadow a.kmn a.keys
§+ 'a' > 'b'¶
[K_A]
2

"##;
