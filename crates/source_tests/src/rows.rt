//! Sources, each with its first refusal or with what it states. The text before the first `:` of a row selects the first lines of
//! the source (see `opening`). Then comes the source's text, as `source_of` reads it, and, after ` ⇒ `, the expected
//! result. What a source states is written without its opening lines, each statement with its line. Characters are hexadecimal
//! numbers, and a system option is `&` followed by its id.

pub const TOKENS: &str = r##"== U+0000 and U+FFFF
A:␀ ⇒ L02 1
A:ab␀c ⇒ L02 1
A:U+0000 ⇒ L02 1
A:u+FFFF ⇒ L02 1
A:U+00FFFF ⇒ L02 1
A:'␀ ⇒ L02 1
A:U+1␀ ⇒ L02 1
K:+ 'a' > '␀' ⇒ L02 3
K:+ 'a' > '␡' ⇒ L02 3
K:+ 'a' > U+FFFF ⇒ L02 3
== comments and skipped lines may have any character
K:+ 'a' > 'b' c ␀ ⇒ 3 + 61 > 62
K:$keymanweb: ␀ ' U+1 ⇒ nothing
== quotes without an end
K:+ 'a' > 'b ⇒ L03 3
K:+ 'a' > "b' ⇒ L03 3
K:+ 'a' > 'b c d ⇒ L03 3
K:+ 'a' > 'b \¶'c' ⇒ L03 3
K:+ 'a' > \¶'b ⇒ L03 3
K:¶¶ ' ⇒ L03 5
A:store(¶' ⇒ L03 2
== the first faulty token of the first faulty line counts
A:' U+1 ⇒ L03 1
A:U+1 ' ⇒ L04 1
A:U+1¶' ⇒ L04 1
A:'¶U+1 ⇒ L03 1
A:store(¶U+1 ⇒ L04 2
== U+ has four to six digits and a character
K:+ 'a' > U+D800 ⇒ L04 3
K:+ 'a' > U+DFFF ⇒ L04 3
K:+ 'a' > U+110000 ⇒ L04 3
K:+ 'a' > U+0 ⇒ L04 3
K:+ 'a' > U+00E ⇒ L04 3
K:+ 'a' > U+00000E9 ⇒ L04 3
K:+ 'a' > U+00E9g ⇒ L04 3
A:store(U+D800) 'a' ⇒ L04 1
== U+ that is right
A:store(U+0041) 'a' ⇒ 1 store U+0041: 61
K:+ 'a' > u+00e9 U+10FFFF U+FFFE ⇒ 3 + 61 > E9 10FFFF FFFE
K:+ 'a' > U+D7FF U+E000 ⇒ 3 + 61 > D7FF E000"##;

pub const LINES: &str = r##"== empty lines, and U+FEFF
A: ⇒ nothing
A:¶ ␉¶c¶ C ¶ ⇒ nothing
A:⌖begin Unicode > use(main)¶ ⇒ 1 Unicode main
A:⌖store(a) 'x'¶ ⇒ 1 store a: 78
A:¶⌖store(a) 'x' ⇒ S01 2
== line ends
K:+ 'a' > 'b'␍¶+ 'c' > 'd'␍¶ ⇒ 3 + 61 > 62; 4 + 63 > 64
K:+ 'a' > 'b'␍+ 'c' > 'd'␍ ⇒ 3 + 61 > 62; 4 + 63 > 64
K:␍) ⇒ S01 4
== backslashes at the end of a line, and comments
K:+ 'a' > \¶'b' c x \¶+ 'c' > 'd' ⇒ 3 + 61 > 62; 5 + 63 > 64
K:+ 'a' > \ ␉¶␉\¶'b' ⇒ 3 + 61 > 62
K:+ 'a' > 'b' \¶+ 'c' > 'd' ⇒ S06 3
K:+ 'a' > 'b' c \¶) ⇒ S01 4
== backslashes at other places
K:+ 'a' > '\'¶+ 'c' > 'd' ⇒ 3 + 61 > 5C; 4 + 63 > 64
K:+ 'a' > \ 'b' ⇒ S06 3
K:+ 'a' > 'b' \ ⇒ 3 + 61 > 62
== comments begin with c between spaces
K:+ 'a' > 'b' C d > ⇒ 3 + 61 > 62
K:+ 'a' > 'b'c d ⇒ S06 3
K:c + 'a' > ⇒ nothing
K:␉c␉+ 'a' > ⇒ nothing
K:cx ⇒ S01 3
K:+ 'a' > ' c ' ⇒ 3 + 61 > 20 63 20
== tabs, and tokens without spaces
K:+␉'a'␉>␉'b' ⇒ 3 + 61 > 62
K:+'a'>'b''c'"d" ⇒ 3 + 61 > 62 63 64
K:+ 'a' > "'" '"' ⇒ 3 + 61 > 27 22
== lines for this and for other compilers
K:$keyman:+ 'a' > 'b' ⇒ 3 + 61 > 62
K: ␉$KeymanOnly: + 'a' > 'b' ⇒ 3 + 61 > 62
K:$keyman:c x ⇒ S01 3
K:$keymanweb: )¶$kmfl:)¶ $KMFL: ( \¶) ⇒ nothing
K:$keymanonly:$keymanweb: x ⇒ S04 3
K:$keyman: ⇒ nothing
K:$keymanother: x ⇒ S04 3"##;

pub const STATEMENTS: &str = r##"== lines that begin with no statement
A:) ⇒ S01 1
A:hello ⇒ S01 1
A:NAME "x" ⇒ S01 1
K:hello ⇒ S01 3
K:hello 'x' ⇒ S01 3
K:[K_A] ⇒ S01 3
K:(a) ⇒ S01 3
K:= 'a' ⇒ S01 3
K:, ⇒ S01 3
K:!= ⇒ S01 3
K:D65 ⇒ S01 3
K:\ 'a' ⇒ S01 3
== words of statements that lack their parts
A:store ⇒ S01 1
A:store x ⇒ S01 1
A:store 'a' ⇒ S01 1
A:store &name 'x' ⇒ S01 1
== begin
A:begin ⇒ S01 1
A:begin Unicode ⇒ S01 1
A:begin Unicode > ⇒ S01 1
A:begin > use(main) ⇒ S01 1
A:begin use(main) ⇒ S01 1
A:begin Unicode > main ⇒ S01 1
A:begin Unicode > use main ⇒ S01 1
A:begin Unicode > use(main) x ⇒ S01 1
A:begin Unicode use(main) x ⇒ S01 1
A:begin Unicode > use(a(b)c) ⇒ S01 1
A:begin Unicode x > use(main) ⇒ S01 1
A:begin Unicode > > use(main) ⇒ S01 1
A:begin 'Unicode' > use(main) ⇒ S01 1
A:begin NewContext > use(main) ⇒ S01 1
A:begin PostKeystroke > use(main) ⇒ S01 1
== group
A:group ⇒ S01 1
A:group main ⇒ S01 1
A:group(main) using ⇒ S01 1
A:group(main) keys ⇒ S01 1
A:group(main) 'using' keys ⇒ S01 1
A:group(main) using keys x ⇒ S01 1
A:group(main) readonly ⇒ S01 1
A:group(a(b)c) ⇒ S01 1
A:group() x ⇒ S01 1
== names in parentheses
A:store() ⇒ S02 1
A:store( ⇒ S02 1
A:store(a ⇒ S02 1
A:store(a b) ⇒ S02 1
A:store(a(b)c) ⇒ S02 1
A:store('a') ⇒ S02 1
A:store(&) ⇒ S02 1
A:store(& name) ⇒ S02 1
== a name may be &
A:begin Unicode > use(&)¶group(&) using keys¶+ 'a' > use(&) ⇒ 1 Unicode &; 2 group & keys; 3 + 61 > use(&)
== system stores: their parentheses before their name
A:store(&foo ⇒ S02 1
A:store(&foo x) ⇒ S12 1
A:begin Unicode > use() ⇒ S02 1
A:begin Unicode > use(main ⇒ S02 1
A:begin Unicode > use(a b) ⇒ S02 1
A:begin Unicode > use('a') ⇒ S02 1
A:group() ⇒ S02 1
A:group(a ⇒ S02 1
A:group(a using keys ⇒ S02 1
A:group(a b) using keys ⇒ S02 1
A:store(¶store( ⇒ S02 1
== a rule before the first group
A:'' ⇒ S03 1
A:+ 'a' > 'b' ⇒ S03 1
A:match ⇒ S03 1
A:match > 'a' ⇒ S03 1
A:nomatch x > ⇒ S03 1
A:begin Unicode > use(main)¶+ 'a' > 'b'¶group(main) using keys ⇒ S03 2
== a fault of a word or token precedes the missing group
A:any ⇒ S02 1
A:8 'a' > 'b' ⇒ L04 1
A:0 'a' > 'b' ⇒ L02 1
A:9 ⇒ L04 1
== a rule without an arrow, a begin without one
K:match ⇒ S04 3
K:nomatch 'x' ⇒ S04 3
K:match x ⇒ S04 3
K:+ 'a' ⇒ S04 3
K:'a' 'b' ⇒ S04 3
K:U+0041 ⇒ S04 3
K:d65 ⇒ S04 3
K:context ⇒ S04 3
K:beep ⇒ S04 3
K:call ⇒ S04 3
K:$x ⇒ S04 3
K:any ⇒ S02 3
A:begin Unicode use(main) ⇒ S04 1
A:begin ANSI use() ⇒ S04 1
A:begin Unicode use(>) ⇒ S04 1
== what a context cannot have
K:match x > 'a' ⇒ S05 3
K:nomatch + 'a' > 'b' ⇒ S05 3
K:match 'a' > any(s) ⇒ S05 3
K:match(x) > 'a' ⇒ S05 3
== what an output cannot have
K:> ⇒ S06 3
K:match > ⇒ S06 3
K:match x > ⇒ S06 3
K:+ 'a' > ⇒ S06 3
K:any > ⇒ S06 3
K:nomatch > any(s) ⇒ S06 3
K:match > 'a' > 'b' ⇒ S06 3
== a key in a group that does not use keys
G:+ 'a' > 'b' ⇒ S07 2
G:'a' + 'b' > 'c' ⇒ S07 2
G:'a' + 9 > 'b' ⇒ S07 2
G:+ + > 'b' ⇒ S07 2
G:+ 'a' ⇒ S04 2
G:+ 'a' > ⇒ S06 2
G:hello + 'a' > 'b' ⇒ S05 2
G:'a' nul + 'a' > 'b' ⇒ S09 2
== no key in a group that uses keys
K:'a' > 'b' ⇒ S08 3
K:> 'b' ⇒ S08 3
K:any(s) > 'b' ⇒ S08 3
K:'a' > 'b' + 'c' ⇒ S08 3
K:$ > 'b' ⇒ S05 3
K:8 > 'b' ⇒ L04 3
== system stores that the language does not have
A:store(&foo) 'x' ⇒ S12 1
A:store(&platform) 'x' ⇒ S12 1
A:store(&layer) 'x' ⇒ S12 1
A:store(&baselayout) 'x' ⇒ S12 1
A:store(&names) 'x' ⇒ S12 1
== statements, in upper and lower case
A:store(a) ⇒ 1 store a:
A:store(\) 'x' ⇒ 1 store \: 78
A:STORE(A) 'x'¶Begin UNICODE > USE(A)¶begin ansi > use(B)¶GROUP(a) Using Keys ⇒ 1 store A: 78; 2 Unicode A; 3 ANSI B; 4 group a keys
== system stores and their ids
A:store(&bitmap) 'a'¶store(&Copyright)¶store(&HOTKEY)¶store(&message) ⇒ 1 store 1: 61; 2 store 2:; 3 store 3:; 4 store 6:
A:store(&name)¶store(&version)¶store(&mnemoniclayout) ⇒ 1 store 7:; 2 store 8:; 3 store 17:
A:store(&visualkeyboard)¶store(&layoutfile)¶store(&keyboardversion)¶store(&targets) ⇒ 1 store 24:; 2 store 35:; 3 store 36:; 4 store 38:
A:store(&casedkeys)¶store(&includecodes) ⇒ 1 store 39:; 2 store 65534:
A:store(&CasedKeys) [K_A] [K_B] [K_C] ⇒ 1 store 39: [4000 65] [4000 66] [4000 67]
A:store(&casedkeys) [K_A]¶store(&casedkeys) [SHIFT K_A] dk(x) 'a' outs(k) ⇒ 1 store 39: [4000 65]; 2 store 39: [4010 65] dk(x) 61 outs(k)
A:store(&capsalwaysoff)¶store(&capsononly)¶store(&shiftfreescaps) ⇒ 1 store 65534:; 2 store 65534:; 3 store 65534:
A:store(&ethnologuecode)¶store(&windowslanguages)¶store(&language) ⇒ 1 store 65535:; 2 store 65535:; 3 store 65535:
A:store(&layout)¶store(&languagename)¶store(&displaymap) ⇒ 1 store 65535:; 2 store 65535:; 3 store 65535:
A:store(&kmw_rtl)¶store(&kmw_helpfile)¶store(&kmw_helptext) ⇒ 1 store 65535:; 2 store 65535:; 3 store 65535:
A:store(&kmw_embedjs)¶store(&kmw_embedcss) ⇒ 1 store 65535:; 2 store 65535:
== groups and what they contain
A:group(a)¶'x' > 'y'¶group(b)¶'z' > 'w'¶match > beep¶nomatch > nul ⇒ 1 group a; 2 78 > 79; 3 group b; 4 7A > 77; 5 match > beep; 6 nomatch > nul
A:group(a) using keys¶+ 'x' > 'y'¶group(b)¶+ 'z' > 'w' ⇒ S07 4
A:group(a)¶'x' > 'y'¶group(b) using keys¶'z' > 'w' ⇒ S08 4
G:store(s) 'a'¶'b' > 'c' ⇒ 2 store s: 61; 3 62 > 63
== one row for each code
A:group(g) keys ⇒ S01 1
A:begin > use(g) ⇒ S01 1
A:begin ANSI use(g) ⇒ S04 1
K:+>1 ⇒ S05 3
K:match+>1 ⇒ S05 3
A:store(s)> ⇒ S06 1
G:+>1 ⇒ S07 2
K:>1 ⇒ S08 3
K:'a'nul+'b'>1 ⇒ S09 3
K:nul nul+'a'>1 ⇒ S10 3
K:+[]>1 ⇒ S11 3
A:store(&a) ⇒ S12 1
K:8+'a'>1 ⇒ L04 3
K:+'a'>0 ⇒ L02 3
G:> 'b' ⇒ 2 > 62"##;

pub const ITEMS: &str = r##"== what a context cannot have
K:$ + 'a' > 'b' ⇒ S05 3
K:+ 'a' 9 > 'b' ⇒ S05 3
K:context + 'a' > 'b' ⇒ S05 3
K:hello > 'x' ⇒ S05 3
K:outs(x) + 'a' > any(q) ⇒ S05 3
K:use(main) + 'a' > 'b' ⇒ S05 3
K:beep + 'a' > 'b' ⇒ S05 3
K:[K_A] + 'a' > 'b' ⇒ S05 3
K:) + 'a' > 'b' ⇒ S05 3
K:'a', + 'b' > 'c' ⇒ S05 3
== what a key cannot be
K:+ > 'b' ⇒ S05 3
K:'a' + > 'b' ⇒ S05 3
K:+ '' > 'b' ⇒ S05 3
K:+ 'ab' > any(q) ⇒ S05 3
K:+ 'a' 'b' > 'c' ⇒ S05 3
K:+ 'a' + 'b' > 'c' ⇒ S05 3
K:+ dk(x) > 'c' ⇒ S05 3
K:+ notany(s) > 'c' ⇒ S05 3
K:+ index(s, 1) > 'c' ⇒ S05 3
K:+ nul > 'c' ⇒ S05 3
K:+ layer("s") > 'c' ⇒ S05 3
K:match if(&layer = "s") > 'c' ⇒ S05 3
K:+ any(s) 'a' > 'c' ⇒ S05 3
K:+ [K_A] [K_B] > 'c' ⇒ S05 3
== what an output cannot have
K:+ 'a' > any(q) ⇒ S06 3
K:+ 'a' > '' ⇒ S06 3
K:match > '' ⇒ S06 3
K:+ 'a' > hello ⇒ S06 3
K:+ 'a' > D65 ⇒ S06 3
K:+ 'a' > X41 ⇒ S06 3
K:+ 'a' > xg ⇒ S06 3
K:+ 'a' > dx ⇒ S06 3
K:+ 'a' > notany(s) ⇒ S06 3
K:+ 'a' > if(s = "v") ⇒ S06 3
K:+ 'a' > platform(x) ⇒ S06 3
K:+ 'a' > platform("x") ⇒ S06 3
K:+ 'a' > if(&layer = "x") ⇒ S06 3
K:+ 'a' > baselayout(x) ⇒ S06 3
K:+ 'a' > 'b' > 'c' ⇒ S06 3
K:+ 'a' > 'b' + 'c' ⇒ S06 3
K:+ 'a' > ) ⇒ S06 3
K:+ 'a' > clearcontext(x) ⇒ S06 3
== what a store cannot have
A:store(v) any ⇒ S06 1
A:store(v) nul ⇒ S06 1
A:store(v) beep ⇒ S06 1
A:store(v) context ⇒ S06 1
A:store(v) index(s, 1) ⇒ S06 1
A:store(v) call(x) ⇒ S06 1
A:store(v) layer("s") ⇒ S06 1
A:store(&casedkeys) platform("x") ⇒ S06 1
A:store(v) > ⇒ S06 1
A:store(v) hello ⇒ S06 1
A:store(v) 'a', 'b' ⇒ S06 1
A:store(v) 'a' .. 'b' ⇒ S06 1
A:store(v) 'a' U+0041..U+0043 ⇒ L04 1
== numbers that are U+0000 or U+FFFF
K:+ 'a' > 0 ⇒ L02 3
K:+ 'a' > d0 ⇒ L02 3
K:+ 'a' > d65535 ⇒ L02 3
K:+ 'a' > xFFFF ⇒ L02 3
K:+ 'a' > 177777 ⇒ L02 3
== numbers that are no character
K:+ 'a' > 8 ⇒ L04 3
K:+ 'a' > 18 ⇒ L04 3
K:+ 'a' > 1a ⇒ L04 3
K:+ 'a' > d1a ⇒ L04 3
K:+ 'a' > x1g ⇒ L04 3
K:+ 'a' > d55296 ⇒ L04 3
K:+ 'a' > xD800 ⇒ L04 3
K:+ 'a' > x110000 ⇒ L04 3
K:+ 'a' > d4294967361 ⇒ L04 3
K:+ 'a' > d99999999999999999999999999 ⇒ L04 3
A:store(v) 'a' 9 ⇒ L04 1
== offsets
K:+ 'a' > index(s, 0000000001) ⇒ L04 3
K:+ 'a' > index(s, x) ⇒ L04 3
K:+ 'a' > index(s, 1a) ⇒ L04 3
K:+ 'a' > index(s, U+0041) ⇒ L04 3
K:+ 'a' > context(1234567890) ⇒ L04 3
K:+ 'a' > context(a) ⇒ L04 3
== forms with parentheses, in an output
K:+ 'a' > index(s, '1') ⇒ S02 3
K:+ 'a' > index(s, >) ⇒ S02 3
K:+ 'a' > context() ⇒ S02 3
K:+ 'a' > context(1 ⇒ S02 3
K:+ 'a' > index(s) ⇒ S02 3
K:+ 'a' > index(s 1) ⇒ S02 3
K:+ 'a' > outs(x ⇒ S02 3
K:+ 'a' > beep outs(a ⇒ S02 3
K:+ 'a' > outs x ⇒ S02 3
K:+ 'a' > outs( c ) ⇒ S02 3
K:+ 'a' > outs() ⇒ S02 3
K:+ 'a' > $ ⇒ S02 3
K:+ 'a' > use('main') ⇒ S02 3
K:+ 'a' > set(s) ⇒ S02 3
K:+ 'a' > set(s = v) ⇒ S02 3
K:+ 'a' > set(s != "v") ⇒ S02 3
K:+ 'a' > set(s = "v" ⇒ S02 3
K:+ 'a' > set(&x = v) ⇒ S02 3
K:+ 'a' > set(&layer = v) ⇒ S02 3
K:+ 'a' > layer(x) ⇒ S02 3
K:+ 'a' > layer('s') layer(s) ⇒ S02 3
K:+ 'a' > layer("s" "t") ⇒ S02 3
K:+ 'a' > layer("s" ⇒ S02 3
K:+ 'a' > layer() ⇒ S02 3
K:+ 'a' > layer ⇒ S02 3
K:+ 'a' > call ⇒ S02 3
K:+ 'a' > call() ⇒ S02 3
K:+ 'a' > call()) ⇒ S02 3
K:+ 'a' > call(a b) ⇒ S02 3
== forms with parentheses, in a context
K:any + 'a' > 'b' ⇒ S02 3
K:any( + 'a' > 'b' ⇒ S02 3
K:any() + 'a' > 'b' ⇒ S02 3
K:if(s) + 'a' > 'b' ⇒ S02 3
K:if(s = v) + 'a' > 'b' ⇒ S02 3
K:if(s = "v" + 'a' > 'b' ⇒ S02 3
K:if(&layer = v) + 'a' > 'b' ⇒ S02 3
K:layer(x) + 'a' > 'b' ⇒ S02 3
K:platform(x) + 'a' > 'b' ⇒ S02 3
K:platform(U+0041) + 'a' > 'b' ⇒ S02 3
K:platform(>) + 'a' > 'b' ⇒ S08 3
G:platform(>) 'b' ⇒ S02 2
K:dk('x') + 'a' > 'b' ⇒ S02 3
== conditions and nul come first
K:'a' nul + 'b' > 'c' ⇒ S09 3
K:index(s, 01) nul + 'b' > 'c' ⇒ S09 3
K:any(s) nul + 'b' > 'c' ⇒ S09 3
K:dk(x) nul + 'b' > 'c' ⇒ S09 3
K:'a' context(1) nul + 'b' > 'c' ⇒ S09 3
K:'a' if(s = "v") + 'ab' > 'c' ⇒ S09 3
K:'a' platform('x') + 'b' > 'c' ⇒ S09 3
K:'a' platform("web") + 'b' > 'c' ⇒ S09 3
K:'a' layer(x) + 'b' > 'c' ⇒ S09 3
K:'a' baselayout(x) + 'b' > 'c' ⇒ S09 3
K:'a' if(&x = "v") + 'b' > 'c' ⇒ S09 3
K:'a' nul nul + 'b' > 'c' ⇒ S09 3
== only one nul
K:nul nul + 'a' > 'b' ⇒ S10 3
K:nul if(s = "v") nul + 'a' > 'b' ⇒ S10 3
== virtual keys
K:+ [] > 'b' ⇒ S11 3
K:+ [K_A > 'b' ⇒ S11 3
K:+ [SHIFT] > 'b' ⇒ S11 3
K:+ [K_A K_B] > 'b' ⇒ S11 3
K:+ [K_A SHIFT] > 'b' ⇒ S11 3
K:+ [FOO K_A] > 'b' ⇒ S11 3
K:+ [K_QQ] > 'b' ⇒ S11 3
K:+ [T_] > 'b' ⇒ S11 3
K:+ [U_D800] > 'b' ⇒ S11 3
K:+ [U_00E] > 'b' ⇒ S11 3
K:+ ['a'] > 'b' ⇒ S11 3
K:+ 'a' > [K_A ⇒ S11 3
A:store(k) [K_A K_B] ⇒ S11 1
== texts and numbers are characters
K:'a' "bc" + 'd' > 'e' ⇒ 3 61 62 63 + 64 > 65
K:+ '' 'a' > 'b' ⇒ 3 + 61 > 62
K:'' nul + 'a' > 'b' ⇒ 3 nul + 61 > 62
K:+ 'a' > d233 xE9 xe9 351 ⇒ 3 + 61 > E9 E9 E9 E9
K:+ d97 > x1F600 ⇒ 3 + 61 > 1F600
== deadkeys, stores and offsets
K:dk(x) deadkey(U+0041) + 'a' > DK(x) ⇒ 3 dk(x) dk(U+0041) + 61 > dk(x)
K:any(s) notany(t) + any(u) > index(s, 3) context context(2) ⇒ 3 any(s) notany(t) + any(u) > index(s,3) context context(2)
K:any(s) index(s, 1) context(000000001) + 'a' > 'b' ⇒ 3 any(s) index(s,1) context(1) + 61 > 62
== conditions, options and other outputs
K:if(s = "v") if(t != 'ab') nul + 'a' > nul ⇒ 3 if(s=76) if(t!=61 62) nul + 61 > nul
K:if(s!="v") + 'a' > set(s="") ⇒ 3 if(s!=76) + 61 > set(s=)
K:+ 'a' > outs(s) $t use(g) set(s = "1") save(s) reset(s) beep return ⇒ 3 + 61 > outs(s) outs(t) use(g) set(s=31) save(s) reset(s) beep return
K:+ 'a' > call(x) call(() call(')') ⇒ 3 + 61 > call(x) call(() call(')')
== what is read and refused later: `-`
K:+ 'a' > switch(x) clearcontext fix set(&x = "v") set(&platform = "v") [K_A] ⇒ 3 + 61 > - - - - - -
K:baselayout(x) if(&x = "v") if(&x != "v") nul + 'a' > 'b' ⇒ 3 - - - nul + 61 > 62
== the layer and the platform
K:platform('x') layer('y') if(&platform = "v") if(&platform != "v") + 'a' > 'b' ⇒ 3 if(&31=78) if(&33=79) if(&31=76) if(&31!=76) + 61 > 62
K:if(&LAYER = "v") if(&Layer != 'a b') PLATFORM("") + 'a' > set(&lAYER = "w") LAYER("") ⇒ 3 if(&33=76) if(&33!=61 20 62) if(&31=) + 61 > set(&33=77) set(&33=)
K:if(o = "s") if(&layer = "s") platform('s') + 'a' > 'b' ⇒ 3 if(o=73) if(&33=73) if(&31=73) + 61 > 62
K:if(&layer = "s") + 'a' > set(o = 's') layer("s") set(&layer = "t") ⇒ 3 if(&33=73) + 61 > set(o=73) set(&33=73) set(&33=74)
K:if(&layer = "s") + 'a' > layer("t") ⇒ 3 if(&33=73) + 61 > set(&33=74)
K:nul layer("s") 'a' + 'a' > 'b' ⇒ 3 nul if(&33=73) 61 + 61 > 62
K:match > layer("s")¶nomatch > set(&layer = "t") ⇒ 3 match > set(&33=73); 4 nomatch > set(&33=74)
K:if(layer = "s") + 'a' > set(platform = "t") ⇒ 3 if(layer=73) + 61 > set(platform=74)
K:if(&layers = "s") if(&&layer = "s") + 'a' > set(&&layer = "s") ⇒ 3 - - + 61 > -
== names that begin with & are names where no system option can be
K:any(&layer) + 'a' > save(&layer) ⇒ 3 any(&layer) + 61 > save(&layer)
== keys and their flags
K:+ [K_A] > 'b'¶+ [shift ctrl k_b] > 'b' ⇒ 3 + [4000 65] > 62; 4 + [4030 66] > 62
K:+ [T_flip] > 'b'¶+ [CAPS U_0061_0301] > 'b' ⇒ 3 + [4000 0 T_flip] > 62; 4 + [4100 0 U_0061_0301] > 62
K:+ [SHIFT SHIFT K_A] > 'b'¶+ [NCAPS RALT LALT RCTRL LCTRL ALT K_oE2] > 'b' ⇒ 3 + [4010 65] > 62; 4 + [424F 226] > 62
== stores, match and nomatch with every kind of item
A:store(v) 'a' dk(x) [SHIFT K_A] outs(s) $t U+0042 d67 ⇒ 1 store v: 61 dk(x) [4010 65] outs(s) outs(t) 42 43
K:match > context context(1) index(s, 1)¶nomatch > use(main) ⇒ 3 match > context context(1) index(s,1); 4 nomatch > use(main)
== numbers, names and conditions at their limits
K:+ 'a' > 0x41 ⇒ L04 3
K:+ 'a' > x00000000000000000041 101 xFFFE ⇒ 3 + 61 > 41 41 FFFE
K:+ 'a' > index(s,) ⇒ S02 3
K:+ 'a' > dk 1 ⇒ S02 3
K:+ 'a' > outs(&) $& dk(&) save(&x) use(&x) call(&) ⇒ 3 + 61 > outs(&) outs(&) dk(&) save(&x) use(&x) call(&)
K:dk(&) notany(&) index(&x, 1) + any(&x) > 'b' ⇒ 3 dk(&) notany(&) index(&x,1) + any(&x) > 62
K:if(& = "v") + 'a' > 'b' ⇒ S02 3
K:+ 'a' > set(& = "v") ⇒ S02 3
K:if(&& = "v") + 'a' > set(&& = "v") ⇒ 3 - + 61 > -
K:if(s == "v") + 'a' > 'b' ⇒ S02 3
K:'a' if + 'a' > 'b' ⇒ S09 3
K:nul 'a' nul + 'a' > 'b' ⇒ S09 3
K:+ 'a' > nul nul ⇒ 3 + 61 > nul nul
K:+ 'a' '' > 'b' ⇒ 3 + 61 > 62
K:any(s) + 'a' > context 'x' context(1) context(999999999) ⇒ 3 any(s) + 61 > context 78 context(1) context(999999999)
K:platform("mac") if(s = "v") 'a' + 'a' > 'b' ⇒ 3 if(&31=6D 61 63) if(s=76) 61 + 61 > 62
K:+ 'a' > call(x:y) ⇒ 3 + 61 > call(x:y)
K:layer('x') nul + 'a' > 'b' ⇒ 3 if(&33=78) nul + 61 > 62"##;

/// The text before the copies of a character, the character, the number of copies, the text after them, and the expected number of
/// stores or the refusal.
pub type LimitRow = (&'static str, char, u32, &'static str, &'static str);

pub const LIMITS: &[LimitRow] = &[
    ("store(", 'a', 80, ")", "1"),
    ("store(", 'a', 81, ")", "S02 2"),
    ("store(", 'é', 80, ")", "1"),
    ("store(", 'é', 81, ")", "S02 2"),
    ("store(&", 'a', 80, ")", "S12 2"),
    ("store(&", 'a', 81, ")", "S02 2"),
    ("group(&", 'a', 79, ")", "0"),
    ("group(&", 'a', 80, ")", "S02 2"),
    ("begin ANSI > use(&", 'a', 79, ")", "0"),
    ("begin ANSI > use(&", 'a', 80, ")", "S02 2"),
    ("> save(&", 'a', 79, ")", "0"),
    ("> save(&", 'a', 80, ")", "S02 2"),
    ("> $&", 'a', 79, "", "0"),
    ("> $&", 'a', 80, "", "S02 2"),
    ("> set(&", 'a', 80, " = '')", "0"),
    ("> set(&", 'a', 81, " = '')", "S02 2"),
    ("if(&", 'a', 80, " = '') > 'b'", "0"),
    ("if(&", 'a', 81, " = '') > 'b'", "S02 2"),
    ("> $", 'a', 80, "", "0"),
    ("> $", 'a', 81, "", "S02 2"),
    ("store(k) [T_", 'a', 78, "]", "1"),
    ("store(k) [T_", 'a', 79, "]", "S11 2"),
];
