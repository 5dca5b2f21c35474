//! The keyboard that runs compile and play.

/// A keyboard with every kind of statement: the lines of `examples/sample.kmn`. Its script is `examples/sample.keys`.
pub const SAMPLE: &str = r##"c Acute and grave vowels
store(&version) '10.0'
store(&name) 'Sample Accents'
store(&copyright) '(c) Example'
store(&bitmap) 'sample.ico'
store(&targets) 'any'
store(&layoutfile) 'sample.keyman-touch-layout'
store(&keyboardversion) '1.0'
begin Unicode > use(main)
store(plain) 'aeiouAEIOU'
store(acute) U+00E1 U+00E9 U+00ED U+00F3 U+00FA U+00C1 U+00C9 U+00CD U+00D3 U+00DA
store(grave) U+00E0 U+00E8 U+00EC U+00F2 U+00F9 U+00C0 U+00C8 U+00CC U+00D2 U+00D9
store(quotes) "0"
group(main) using keys
+ "'" > dk(acute)
+ '`' > dk(grave)
dk(acute) + any(plain) > index(acute, 2)
dk(grave) + any(plain) > index(grave, 2)
dk(acute) + "'" > "'"
any(acute) + [K_BKSP] > index(plain, 1) dk(acute)
+ [T_flip] > use(flip)
if(quotes = "1") + '"' > U+201C
+ [CTRL ALT K_Q] > set(quotes = "1") save(quotes)
+ '-' > '-'
match > use(after)
group(flip)
any(acute) > index(grave, 1)
any(grave) > index(acute, 1)
nomatch > beep
group(after)
'--' > U+2013
"##;
