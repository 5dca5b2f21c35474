//! Sources, which `source_of` reads, each followed by ` ⇒ ` and what it is imported as: its text with `|`, the line and the word of
//! each change after it, or its refusal.

use import_lines::ChangeKind;
use kmn_import::{Imported, import};
use source_tests::fixtures::{is_row, parted, source_of};
use std::alloc::{AllocError, Global};
use std::test::Fail;

/// Sources that are accepted, as they are or when they are rewritten.
const ACCEPTED: &str = r###"== untouched
store(a..b) 'x'   c 'a' .. 'z' in a comment¶begin Unicode > use(main)¶group(main) using keys¶'..' + 'a' > ".. 'b'" outs(a..b)¶$keymanweb: store(x) 'a' .. 'z'¶ ⇒ store(a..b) 'x'   c 'a' .. 'z' in a comment¶begin Unicode > use(main)¶group(main) using keys¶'..' + 'a' > ".. 'b'" outs(a..b)¶$keymanweb: store(x) 'a' .. 'z'¶
== range of characters
store(low) 'a' .. 'e'   c five of them¶store(both) 'a'..'c' 'A' .. 'C'¶store(tail) 'xyza' .. 'd' 'q'¶store(num) U+0041..U+0043 x61 .. d99¶store(marks) U+0300 .. U+0303¶store(smp) U+1F600 .. U+1F602¶begin Unicode > use(main)¶group(main) using keys¶ ⇒ store(low) 'a' 'bcd' 'e' c five of them¶store(both) 'a' 'b' 'c' 'A' 'B' 'C'¶store(tail) 'xyza' 'bc' 'd' 'q'¶store(num) U+0041 'B' U+0043 x61 'b' d99¶store(marks) U+0300 U+0301 U+0302 U+0303¶store(smp) U+1F600 U+1F601 U+1F602¶begin Unicode > use(main)¶group(main) using keys¶|1 range|2 range|3 range|4 range|5 range|6 range
== range of keys
store(k) [K_A] .. [K_C] [SHIFT K_1]..[SHIFT K_3]¶store(&casedkeys) [K_A] .. [K_C]¶begin Unicode > use(main)¶group(main) using keys¶+ any(k) > 'x'¶ ⇒ store(k) [K_A] [K_B] [K_C] [SHIFT K_1] [SHIFT K_2] [SHIFT K_3]¶store(&casedkeys) [K_A] [K_B] [K_C]¶begin Unicode > use(main)¶group(main) using keys¶+ any(k) > 'x'¶|1 range|2 range
== range over two lines
store(k) 'a' .. \¶  'e' c the end¶begin Unicode > use(main)¶group(main) using keys¶ ⇒ \¶store(k) 'a' 'bcd' 'e' c the end¶begin Unicode > use(main)¶group(main) using keys¶|1 range
== key by place
begin Unicode > use(main)¶group(main) using keys¶+ [CTRL B08] > 'x'   c the comma¶+ [SHIFT E11] > 'y'¶+ [D01] > 'z'¶ ⇒ begin Unicode > use(main)¶group(main) using keys¶+ [CTRL K_COMMA] > 'x' c the comma¶+ [SHIFT K_HYPHEN] > 'y'¶+ [K_Q] > 'z'¶|3 key|4 key|5 key
== old headers
NAME "My keyboard"   c a name¶VERSION 5.0¶COPYRIGHT '(c) me'¶BITMAP my.bmp¶HOTKEY "^+W"¶LANGUAGE x0409¶CAPS ALWAYS OFF¶begin Unicode > use(main)¶group(main) using keys¶+ 'a' > 'b'¶ ⇒ store(&name) "My keyboard" c a name¶c VERSION 5.0¶store(&copyright) '(c) me'¶store(&bitmap) "my.bmp"¶store(&hotkey) "^+W"¶store(&language) "x0409"¶c CAPS ALWAYS OFF¶begin Unicode > use(main)¶group(main) using keys¶+ 'a' > 'b'¶|1 header|2 version|3 header|4 header|5 header|6 header|7 caps
== header word as a store
NAME "031 - caps lock"¶VERSION 6.0¶begin Unicode > use(main)¶group(main) using keys¶ ⇒ store(&name) "031 - caps lock"¶store(&version) "6.0"¶begin Unicode > use(main)¶group(main) using keys¶|1 header|2 header
== begin alone
begin Unicode > use(main)¶begin > use(old)¶group(main) using keys¶group(old) using keys¶ ⇒ begin Unicode > use(main)¶begin ANSI > use(old)¶group(main) using keys¶group(old) using keys¶|2 begin
== new context
begin Unicode > use(main)¶begin NewContext > use(ctx)¶begin PostKeystroke > use(post)¶store(end) '.?!'¶group(ctx) readonly¶  nomatch > use(next)¶group(post) readonly¶  if(&newLayer = "") > use(next)   c no other change¶group(next) readonly¶  nul > layer('shift')¶  any(end) ' ' > layer('shift')¶group(main) using keys¶+ 'a' > 'b'¶ ⇒ begin Unicode > use(main)¶$keymanweb: begin NewContext > use(ctx)¶$keymanweb: begin PostKeystroke > use(post)¶store(end) '.?!'¶$keymanweb: group(ctx) readonly¶$keymanweb:   nomatch > use(next)¶$keymanweb: group(post) readonly¶$keymanweb:   if(&newLayer = "") > use(next)   c no other change¶$keymanweb: group(next) readonly¶$keymanweb:   nul > layer('shift')¶$keymanweb:   any(end) ' ' > layer('shift')¶group(main) using keys¶+ 'a' > 'b'¶|2 layer|3 layer|5 layer|6 layer|7 layer|8 layer|9 layer|10 layer|11 layer
== readonly that keys reach
begin Unicode > use(main)¶begin NewContext > use(next)¶group(next) readonly¶  'a' > layer('shift')¶  'b' > context layer('shift')¶  nomatch > layer('default')¶group(main) using keys¶+ 'a' > 'b' use(next)¶ ⇒ begin Unicode > use(main)¶$keymanweb: begin NewContext > use(next)¶group(next)¶'a' > context layer('shift')¶  'b' > context layer('shift')¶  nomatch > layer('default')¶group(main) using keys¶+ 'a' > 'b' use(next)¶|2 layer|3 readonly|4 readonly
== caps stores
store(&capsalwaysoff) '1'¶store(&CapsOnOnly) '1'¶store(&ShiftFreesCaps) '1'¶begin Unicode > use(main)¶group(main) using keys¶ ⇒ c store(&capsalwaysoff) '1'¶c store(&CapsOnOnly) '1'¶c store(&ShiftFreesCaps) '1'¶begin Unicode > use(main)¶group(main) using keys¶|1 caps|2 caps|3 caps
== new context over two lines
begin NewContext > \¶  use(n)¶begin Unicode > use(main)¶group(n) readonly¶'a' \¶ 'b' > layer('x')¶group(main) using keys¶ ⇒ $keymanweb: begin NewContext > \¶  use(n)¶begin Unicode > use(main)¶$keymanweb: group(n) readonly¶$keymanweb: 'a' \¶ 'b' > layer('x')¶group(main) using keys¶|1 layer|4 layer|5 layer
== layers behind each key
begin Unicode > use(main)¶begin NewContext > use(ctx)¶begin PostKeystroke > use(post)¶store(end) '.?!'¶group(ctx) readonly¶  nomatch > use(next)¶group(post) readonly¶  if(&newLayer = "") if(&layer = 'numeric') any(end) > context¶  if(&newLayer != "") > layer('x')¶  if(&newLayer = "") > use(next)   c no other change¶group(next) readonly¶  nul > layer('shift')¶  any(end) ' ' > layer('shift')¶group(main) using keys¶+ 'a' > 'b'¶ ⇒ begin Unicode > use(main)¶$keymanweb: begin NewContext > use(ctx)¶$keymanweb: begin PostKeystroke > use(post)¶store(end) '.?!'¶$keymanweb: group(ctx) readonly¶$keymanweb:   nomatch > use(next)¶$keymanweb: group(post) readonly¶$keymanweb:   if(&newLayer = "") if(&layer = 'numeric') any(end) > context¶$keymanweb:   if(&newLayer != "") > layer('x')¶$keymanweb:   if(&newLayer = "") > use(next)   c no other change¶$keymanweb: group(next) readonly¶$keymanweb:   nul > layer('shift')¶$keymanweb:   any(end) ' ' > layer('shift')¶group(main) using keys¶+ 'a' > 'b'¶|2 layer|3 layer|5 layer|6 layer|7 layer|8 layer|9 layer|10 layer|11 layer|12 layer|13 layer
== a dead group keeps what it enters
begin Unicode > use(main)¶begin NewContext > use(ctx)¶group(ctx) readonly¶nomatch > use(next)¶group(next) readonly¶'a' > layer('shift')¶group(main) using keys¶+ 'a' > 'b'¶group(dead)¶'a' > use(next)¶ ⇒ begin Unicode > use(main)¶$keymanweb: begin NewContext > use(ctx)¶$keymanweb: group(ctx) readonly¶$keymanweb: nomatch > use(next)¶group(next)¶'a' > context layer('shift')¶group(main) using keys¶+ 'a' > 'b'¶group(dead)¶'a' > use(next)¶|2 layer|3 layer|4 layer|5 readonly|6 readonly
== readonly that enters another
begin Unicode > use(main)¶group(main) using keys¶+ 'a' > use(next)¶+ [B08] > use(other)¶group(next) readonly¶'a' > use(third) layer('x')¶group(third) readonly¶'b' > context layer('y') set(o = '1')¶group(other)¶'c' > 'd'¶store(o) '0'¶ ⇒ begin Unicode > use(main)¶group(main) using keys¶+ 'a' > use(next)¶+ [K_COMMA] > use(other)¶group(next)¶'a' > context use(third) layer('x')¶group(third)¶'b' > context layer('y') set(o = '1')¶group(other)¶'c' > 'd'¶store(o) '0'¶|4 key|5 readonly|6 readonly|7 readonly
== names with dots
store(a..b) 'xyz'¶store(k) 'a'..'c' $a..b outs(a..b)¶begin Unicode > use(m..n)¶group(m..n) using keys¶+ any(k) > $a..b¶ ⇒ store(a..b) 'xyz'¶store(k) 'a' 'b' 'c' $a..b outs(a..b)¶begin Unicode > use(m..n)¶group(m..n) using keys¶+ any(k) > $a..b¶|2 range
== a store called c
store(c) 'a'..'c' c 'x'..'z' in a comment¶begin Unicode > use(main)¶group(main) using keys¶+ any(c) > index(c,1)¶+ [ SHIFT  B08 ] > outs(c) c last¶ ⇒ store(c) 'a' 'b' 'c' c 'x'..'z' in a comment¶begin Unicode > use(main)¶group(main) using keys¶+ any(c) > index(c,1)¶+ [SHIFT K_COMMA] > outs(c) c last¶|1 range|5 key
== a prefix of its own
begin Unicode > use(main)¶$keyman: begin NewContext > use(ctx)¶  $keymanonly: store(v) 'a'..'d'   c both¶group(main) using keys¶+ any(v) > index(v, 1)¶$keyman: group(ctx) readonly¶'a' > \¶  layer('x')¶$keyman: 'b' > \¶  layer('x')¶ ⇒ begin Unicode > use(main)¶c $keyman: begin NewContext > use(ctx)¶  $keymanonly: store(v) 'a' 'bc' 'd' c both¶group(main) using keys¶+ any(v) > index(v, 1)¶c $keyman: group(ctx) readonly¶$keymanweb: 'a' > \¶  layer('x')¶c $keyman: 'b' > \¶c   layer('x')¶|2 layer|3 range|6 layer|7 layer|9 layer
== three in a row
store(v) 'a' .. 'c' .. 'e'¶store(k) [K_A] .. [K_C] .. [K_E] U+0061..U+0063..U+0065¶begin Unicode > use(main)¶group(main) using keys¶ ⇒ store(v) 'a' 'b' 'c' 'd' 'e'¶store(k) [K_A] [K_B] [K_C] [K_D] [K_E] U+0061 'b' U+0063 'd' U+0065¶begin Unicode > use(main)¶group(main) using keys¶|1 range|2 range
== shift twice
store(&mnemoniclayout) "1"¶begin Unicode > use(main)¶group(main) using keys¶+ [SHIFT 'A'] > 'x'¶+ [SHIFT '1'] > 'y'¶+ ['!'] > 'z'¶+ [CTRL ' '] > 'w'¶ ⇒ c store(&mnemoniclayout) "1"¶begin Unicode > use(main)¶group(main) using keys¶+ [SHIFT K_A] > 'x'¶+ [SHIFT K_1] > 'y'¶+ [SHIFT K_1] > 'z'¶+ [CTRL K_SPACE] > 'w'¶|1 mnemonic|4 key|5 key|6 key|7 key"###;

/// Sources that are refused.
const REFUSED: &str = r###"== range that is none
store(a) 'c' .. 'a'¶store(b) 'c' .. 'c'¶store(c) .. 'z'¶store(d) 'a' ..¶store(e) 'a' .. [K_Z]¶store(f) [SHIFT K_A] .. [K_Z]¶store(g) U+D7FF .. U+E000¶store(h) U+FFF0 .. U+10010¶store(i) [K_0] .. [K_A]¶store(j) U+10000 .. U+20000¶begin Unicode > use(main)¶group(main) using keys¶'a' .. 'z' + 'x' > 'y'¶ ⇒ refused S06 line 1
== key without name
begin Unicode > use(main)¶group(main) using keys¶+ [K_NUMLOCK] > 'x'¶+ [K_F13] > 'y'¶+ [K_NPENTER] > 'z'¶ ⇒ refused S11 line 3
== ansi alone
begin ANSI > use(main)¶group(main) using keys¶+ 'a' > d224¶ ⇒ refused C01 line 1
== readonly broken
begin Unicode > use(main)¶begin NewContext > use(next)¶group(main) using keys¶group(next)¶group(ro) readonly¶'a' > 'b'¶'b' > use(next)¶'c' > use(ro) context¶ ⇒ refused S01 line 2
== mnemonic
store(&mnemoniclayout) '1'¶begin Unicode > use(main)¶group(main) using keys¶+ 'a' > 'b'¶+ ['a'] > 'c'¶+ [CTRL 'A'] > 'd'¶+ [CTRL 'é'] > 'e'¶ ⇒ refused S11 line 7
== base layout
begin Unicode > use(main)¶group(main) using keys¶baselayout('kbdus.dll') + 'a' > 'b'¶baselayout('de-DE') + 'a' > 'c'¶if(&baselayout != 'kbdfr.dll') + 'a' > 'd'¶ ⇒ refused C12 line 3
== base layout name taken
store(BaseLayout) 'xy'¶begin Unicode > use(main)¶group(main) using keys¶baselayout('kbdus.dll') + any(baselayout) > 'b'¶ ⇒ refused C12 line 4
== base layout behind a joined line
begin Unicode > use(main)¶group(main) using keys¶baselayout('kbdus.dll') + 'a' > 'b'¶+ 'b' > \¶'c' \¶ ⇒ refused C12 line 3
== base layout lines of two bytes
begin Unicode > use(main)¶group(main) using keys¶baselayout('kbdus.dll') + 'a' > 'b'¶ ⇒ refused C12 line 3
== system values
begin Unicode > use(main)¶group(main) using keys¶if(&newLayer = 'x') + 'a' > 'b'¶if(&oldLayer = 'x') + 'a' > 'b'¶+ 'c' > set(&platform = 'web')¶+ 'd' > set(&layer = 'x')¶ ⇒ refused C12 line 3
== what is left out
store(dll) 'x.dll:f'¶begin Unicode > use(main)¶group(main) using keys¶+ 'a' > call(dll)¶+ 'b' > switch(x)¶+ 'c' > [K_LEFT]¶+ 'd' > 'e' clearcontext¶nomatch > context¶ ⇒ refused C11 line 4
== outs before the arrow
store(v) 'ab' U+0300¶begin Unicode > use(main)¶group(main) using keys¶outs(v) + 'x' > 'y'¶$v + 'x' > 'z'¶ ⇒ refused S05 line 4
== short numbers
begin Unicode > use(main)¶group(main) using keys¶+ U+61 > U+E9 U+0041¶ ⇒ refused L04 line 3
== odd blanks
begin Unicode > use(main)¶group(main) using keys¶+·'a' > 'b · c'¶ ⇒ refused S05 line 3
== second store
store(v) 'a'¶store(V) 'b'¶begin Unicode > use(main)¶group(main) using keys¶+ any(v) > 'x'¶ ⇒ refused C03 line 2
== version names
store(&version) '5.0'¶store(&version) '12.0'¶begin Unicode > use(main)¶group(main) using keys¶ ⇒ refused C12 line 2
== broken line stays
store(&VERSION '5.0'¶store(&capsalwaysoff '1'¶begin Unicode > use(main)¶group(main) using keys¶+ [B08 > 'x'¶+ 'a > 'b'¶ ⇒ refused L03 line 6
== code file
store(&includecodes) 'codes.txt'¶begin Unicode > use(main)¶group(main) using keys¶+ 'a' > $GREEK_SMALL_LETTER_ALPHA $v¶store(v) 'x'¶ ⇒ refused C05 line 4
== code file missing
store(&includecodes) 'codes.txt'¶begin Unicode > use(main)¶group(main) using keys¶+ 'a' > $GREEK_SMALL_LETTER_BETA¶ ⇒ refused C05 line 4
== other products
$weaver: whatever¶$kmfl: NAME "x"¶$keyman: NAME "y"¶begin Unicode > use(main)¶group(main) using keys¶ ⇒ refused S03 line 1
== readonly with keys
begin Unicode > use(main)¶begin PostKeystroke > use(post)¶group(post) using keys readonly¶+ 'a' > layer('shift')¶group(main) using keys¶+ 'a' > 'b'¶ ⇒ refused S01 line 2
== readonly that puts
begin Unicode > use(main)¶group(main) using keys¶+ 'a' > use(next)¶group(next) readonly¶'a' > index(v, 1)¶'b' > layer('x')¶store(v) 'xy'¶ ⇒ refused S01 line 4
== a bracket that is open
begin Unicode > use(main)¶group(main) using keys¶+ [B08 > 'x'¶ ⇒ refused S11 line 3
== headers without quotes
NAME My keyboard¶VERSION 6.0¶begin Unicode > use(main)¶group(main) using keys¶ ⇒ refused S01 line 1
== mnemonic with cased keys
store(&mnemoniclayout) '1'¶store(&casedkeys) [K_A] .. [K_C]¶begin Unicode > use(main)¶group(main) using keys¶ ⇒ refused C12 line 1
== a text over the limit: each of these ranges becomes 383,488 bytes
⟨store(a) U+0200..U+D7FF¶×11⟩ ⇒ refused L05 line 1"###;

/// Returns the word of a change.
fn word(kind: ChangeKind) -> &'static str {
    match kind {
        ChangeKind::Bytes => "bytes",
        ChangeKind::Range => "range",
        ChangeKind::Key => "key",
        ChangeKind::Header => "header",
        ChangeKind::Version => "version",
        ChangeKind::Caps => "caps",
        ChangeKind::Mnemonic => "mnemonic",
        ChangeKind::Begin => "begin",
        ChangeKind::Layer => "layer",
        ChangeKind::Readonly => "readonly",
    }
}

/// Returns an imported text and its changes in the notation of the rows.
fn shown(alloc: Global, new: &Imported) -> Result<Vec<u8>, AllocError> {
    let mut out = Vec::from_slice(alloc, new.text.as_slice())?;
    for change in new.changes.as_slice() {
        let row = format!(in alloc; "|{} {}", change.line, word(change.kind))?;
        out.extend_from_slice(row.as_bytes())?;
    }
    Ok(out)
}

/// Returns what a source is imported as, or its refusal, in the notation of the rows.
fn answer(alloc: Global, source: &str) -> Result<Vec<u8>, Fail> {
    match import(alloc, source.as_bytes()) {
        Ok(new) => Ok(shown(alloc, &new)?),
        Err(error) => {
            let row = format!(in alloc; "{error}")?;
            Ok(Vec::from_slice(alloc, row.as_bytes())?)
        }
    }
}

/// Returns whether a row's source is imported as the row states.
fn is_right(alloc: Global, row: &str) -> Result<bool, Fail> {
    let (text, wanted) = parted(row)?;
    let source = source_of(alloc, text)?;
    let wanted = source_of(alloc, wanted)?;
    Ok(answer(alloc, source.as_str())?.as_slice() == wanted.as_bytes())
}

#[test]
fn sources_are_imported(rt: HostRuntime) -> Result<(), Fail> {
    for table in &[ACCEPTED, REFUSED] {
        for row in table.lines().filter(is_row) {
            assert!(rt; is_right(rt.alloc(), row)?, "{row}");
        }
    }
    Ok(())
}
