//! Tests what a check prints for small sources, layouts and scripts, and its exit status.

use check_run::check_run;
use kmn_outside::{Folder, MemoryFolder};
use run_tests::commands::{empty_folder, sink, words};
use source_tests::fixtures::{is_row, parted, source_of};
use std::alloc::Global;
use std::test::Fail;

/// Each row contains a source and, after ` ⇒ `, the exit status and the printed text for the source in a file `in`. In both, `¶` is a
/// line feed.
const CHECKS: &str = "\
== nothing
begin Unicode > use(main)¶group(main) using keys¶+ 'a' > 'b' ⇒ 0 checked warnings=0 notes=0¶
== errors, in the order of lines, and no warnings beside them
store(a) 'x'¶begin Unicode > use(main)¶group(main) using keys¶+ 'a' > outs(v)¶+ 'c' > 'd ⇒ 1 in:4:14: error C05: a store that is not stated: 'v', perhaps a¶in:5:9: error L03: a quote that is not closed¶refused L03 line 5¶
== columns count characters, in the physical line of the token
begin Unicode > use(main)¶group(main) using keys¶  + 'â' > 'é𐐀' hello ⇒ 1 in:3:16: error S06: an item that may not stand in an output or a store: 'hello'¶refused S06 line 3¶
begin Unicode > use(main)¶group(main) using keys¶+ 'a' > \\¶  'b¶  'c' > 'd' ⇒ 1 in:4:3: error L03: a quote that is not closed¶in:5:3: error S08: no + in a group with keys¶refused L03 line 3¶
begin Unicode > use(main)¶group(main)¶$keyman: 'a' + 'b' > 'c' ⇒ 1 in:3:14: error S07: a + in a group without keys¶refused S07 line 3¶
== the name that a line lacks
begin Unicode > use(mian)¶group(main) using keys¶dk(v) + 'a' > dk(v) $v ⇒ 1 in:1:21: error C06: a group that is not stated: 'mian', perhaps main¶in:3:21: error C05: a store that is not stated: 'v'¶refused C06 line 1¶
== the line that defines a name first
store(v) 'a'¶store(V) 'b'¶begin Unicode > use(main)¶group(main) using keys¶+ 'a' > 'b' ⇒ 1 in:2:1: error C03: a store stated twice: 'V', already defined in line 1¶refused C03 line 2¶
begin Unicode > use(main)¶group(main) using keys¶+ 'a' > 'b'¶group(Main) ⇒ 1 in:4:1: error C04: a group stated twice: 'Main', already defined in line 2¶refused C04 line 4¶
== a name that is not defined, with the names that differ from it in one letter
store(vowels) 'aeiou'¶store(vowl) 'x'¶begin Unicode > use(main)¶group(main) using keys¶+ 'a' > outs(Vowel) ⇒ 1 in:5:14: error C05: a store that is not stated: 'Vowel', perhaps vowels, perhaps vowl¶refused C05 line 5¶
== a word in the brackets of a virtual key, with at most three names of keys and modifiers that it may mean
begin Unicode > use(main)¶group(main) using keys¶+ [K_ENTR] > 'b'¶+ [SHFT K_A] > 'b'¶+ [TAB] > 'b'¶+ [K_1O] > 'b'¶+ [K_] > 'b'¶+ [K_A SHIFT] > 'b'¶+ [] > 'b' ⇒ 1 in:3:4: error S11: a bracket that is no virtual key: 'K_ENTR', perhaps K_ENTER¶in:4:4: error S11: a bracket that is no virtual key: 'SHFT', perhaps SHIFT¶in:5:4: error S11: a bracket that is no virtual key: 'TAB', perhaps K_TAB¶in:6:4: error S11: a bracket that is no virtual key: 'K_1O', perhaps K_1, perhaps K_O¶in:7:4: error S11: a bracket that is no virtual key: 'K_'¶in:8:8: error S11: a bracket that is no virtual key: 'SHIFT'; the key comes last¶in:9:4: error S11: a bracket that is no virtual key: ']'; a bracket has a key, which comes last¶refused S11 line 3¶
== the token at which reading a line stops, unless something is missing there
begin Unicode > use(main)¶group(main) using keys¶+ 'a' 'b' > 'x'¶+ 'a' > ''¶+ > 'x'¶+ 'a' > 8¶+ 'a' > use main¶'a' if(o = '1') + 'b' > 'c'¶store(&hotkye) 'a'¶stoer(v) 'a' ⇒ 1 in:3:7: error S05: an item that may not stand before the >: 'b'¶in:4:1: error S06: an item that may not stand in an output or a store¶in:5:3: error S05: an item that may not stand before the >¶in:6:9: error L04: a number that is no character: '8'; a number is octal, unless d comes before its digits¶in:7:13: error S02: parentheses that are not as they should be: 'main'¶in:8:5: error S09: a condition behind a pattern: 'if'¶in:9:7: error S12: a system store that there is not: '&hotkye', perhaps &hotkey¶in:10:1: error S01: a line that is no statement: 'stoer'¶refused S05 line 3¶
== a number that is not a character, in the physical line that has it
begin Unicode > use(main)¶group(main) using keys¶+ 'a' > 'b' \\¶  u+d800 \\¶  U+12¶+ 'c' > U+123456x ⇒ 1 in:4:3: error L04: a number that is no character: 'u+d800'; a character is U+ and 4 to 6 hexadecimal digits, and a range is written out¶in:6:9: error L04: a number that is no character: 'U+123456x'; a character is U+ and 4 to 6 hexadecimal digits, and a range is written out¶refused L04 line 3¶
== the word that is not supported, not an equal name
store(fix) 'x'¶begin Unicode > use(main)¶group(main) using keys¶+ [K_B] > outs(fix) fix¶+ 'b' > [K_A]¶store(&shiftfreescaps) '1'¶+ 'c' > call(f) ⇒ 1 in:4:1: error C12: something that is left out: 'fix'; instead: nul¶in:5:1: error C12: something that is left out: '['; instead: the characters of the key¶in:6:1: error C12: something that is left out: '&shiftfreescaps'; instead: rules for both states of caps lock¶in:7:1: error C11: a call: 'f'¶refused C12 line 4¶
== what is written instead of an old header, and of a statement that only Keyman Developer reads
begin Unicode > use(main)¶NAME 'x'¶version 6.0¶Caps Always Off¶begin NewContext > use(main)¶group(readonly) readonly¶group(main) using keys readonly¶+ 'a' > 'b' ⇒ 1 in:2:1: error S01: a line that is no statement: 'NAME'; instead: store(&name) and the text¶in:3:1: error S01: a line that is no statement: 'version'; instead: store(&version) and a version from 6.0 on, or nothing¶in:4:1: error S01: a line that is no statement: 'Caps'; instead: rules for both states of caps lock¶in:5:1: error S01: a line that is no statement: 'NewContext'; instead: $keymanweb: before this line and the lines of its groups¶in:6:1: error S01: a line that is no statement: 'readonly'; instead: nothing, and context first in each output of the group¶in:7:1: error S01: a line that is no statement: 'readonly'; instead: nothing, and context first in each output of the group¶refused S01 line 2¶
== a key by its place is named, and a virtual character is told from it
begin Unicode > use(main)¶group(main) using keys¶+ [CTRL B08] > 'x'¶+ ['a'] > 'x'¶+ [K_F13] > 'x'¶+ [U_61] > 'x' ⇒ 1 in:3:9: error S11: a bracket that is no virtual key: 'B08', perhaps K_COMMA¶in:4:4: error S11: a bracket that is no virtual key: 'a'; instead: the name of the key that types it, as in [SHIFT K_A]¶in:5:4: error S11: a bracket that is no virtual key: 'K_F13'; no rule can have this key¶in:6:4: error S11: a bracket that is no virtual key: 'U_61'; a U_ name has 4 to 6 digits¶refused S11 line 3¶
== comments, quotes, blanks and ranges of other languages
begin Unicode > use(main)¶group(main) using keys¶// x¶/* x */¶+ 'a' > 'b' # x¶+ 'a' > “b”¶+ 'a' >\u{A0}'b'¶store(v) 'a' .. 'e'¶store(w) 'a', 'b'¶$v + 'a' > any(v) ⇒ 1 in:3:1: error S01: a line that is no statement: '//'; a comment begins with the letter c and a space¶in:4:1: error S01: a line that is no statement: '/*'; a comment begins with the letter c and a space¶in:5:13: error S06: an item that may not stand in an output or a store: '#'; a comment begins with the letter c and a space¶in:6:9: error S06: an item that may not stand in an output or a store: '“b”'; a text has straight quotes¶in:7:8: error S06: an item that may not stand in an output or a store: '\u{A0}'; only spaces and tabs are blanks¶in:8:14: error S06: an item that may not stand in an output or a store: '..'; a range is written out, each character or key by itself¶in:9:13: error S06: an item that may not stand in an output or a store: ','; blanks separate items¶in:10:1: error S05: an item that may not stand before the >: '$v'; only an output or a store has $ and a name¶refused S01 line 3¶
== system stores that are not supported in a condition or in set
begin Unicode > use(main)¶group(main) using keys¶if(&newLayer = 's') + 'a' > 'b'¶if(&platform = 'web') + 'b' > set(&layer = 's') set(&platform = 'web') ⇒ 1 in:3:1: error C12: something that is left out: '&newLayer'; instead: an option store that the application sets or reads¶in:4:1: error C12: something that is left out: '&platform'; instead: an option store that the application sets or reads¶refused C12 line 3¶
== a store with the name of something that is not supported
begin Unicode > use(main)¶group(main) using keys¶+ 'a' > outs(fix) save(&layer) ⇒ 1 in:3:14: error C05: a store that is not stated: 'fix'¶refused C05 line 3¶
== characters that a terminal obeys, and words of more than 80 characters
store(b\u{1B}) 'x'¶begin Unicode > use(main)¶group(main) using keys¶+ 'a' > 'b' ⇒ 0 in:1: warning W01: store 'b?' is used nowhere¶checked warnings=1 notes=0¶
begin Unicode > use(main)¶group(main) using keys¶+ 'a' > $v\u{1B}\u{9B}\u{E9} ⇒ 1 in:3:9: error C05: a store that is not stated: 'v?¿é'¶refused C05 line 3¶
begin Unicode > use(main)¶group(main) using keys¶éééééééééééééééééééééééééééééééééééééééééééééééééééééééééééééééééééééééééééééééé ⇒ 1 in:3:1: error S01: a line that is no statement: 'éééééééééééééééééééééééééééééééééééééééééééééééééééééééééééééééééééééééééééééééé'¶refused S01 line 3¶
begin Unicode > use(main)¶group(main) using keys¶ééééééééééééééééééééééééééééééééééééééééééééééééééééééééééééééééééééééééééééééééé ⇒ 1 in:3:1: error S01: a line that is no statement: 'éééééééééééééééééééééééééééééééééééééééééééééééééééééééééééééééééééééééééééééééé..'¶refused S01 line 3¶
== a refusal without a token
 ⇒ 1 in:1:1: error C01: no begin Unicode¶refused C01 line 1¶
== each text of a warning
store(a) 'x'¶store(b) outs(a)¶begin Unicode > use(main)¶group(main) using keys¶+ 'a' > 'b' ⇒ 0 in:2: warning W01: store 'b' is used nowhere¶checked warnings=1 notes=0¶
begin Unicode > use(main)¶group(main) using keys¶+ '^' > dk(hat)¶dk(hta) + 'a' > 'â' ⇒ 0 in:3: warning W02: deadkey 'hat' is put and never looked for¶in:4: warning W03: deadkey 'hta' is looked for and never put¶checked warnings=2 notes=0¶
begin Unicode > use(main)¶group(main) using keys¶+ 'a' > 'b'¶group(late)¶'b' > 'c' ⇒ 0 in:4: warning W04: group 'late' is never entered¶checked warnings=1 notes=0¶
store(v) 'aeiou'¶store(w) 'AEIO'¶begin Unicode > use(main)¶group(main) using keys¶any(v) + '^' > index(w, 1) ⇒ 0 in:5: warning W05: index('w') has 4 elements, any('v') 5¶checked warnings=1 notes=0¶
store(v) 'aeiaou'¶store(w) 'AEIÄOU'¶begin Unicode > use(main)¶group(main) using keys¶any(v) + '^' > index(w, 1) ⇒ 0 in:1: warning W06: element 4 of 'v' stands there before, so element 4 of 'w' never comes¶checked warnings=1 notes=0¶
store(o) '0'¶begin Unicode > use(main)¶group(main) using keys¶if(o = '1') if(o = '2') + 'a' > 'b'¶+ 'e' > set(o = '1') set(o = '2') ⇒ 0 in:4: warning W09: these conditions are never true together¶checked warnings=1 notes=0¶
store(k) 'aé'¶begin Unicode > use(main)¶group(main) using keys¶+ 'é' > 'x'¶+ any(k) > 'y' ⇒ 0 in:4: warning W13: no press gives this key¶in:5: warning W13: 1 of 2 keys of 'k' are given by no press¶checked warnings=2 notes=0¶
store(k) [K_A]¶begin Unicode > use(main)¶group(main) using keys¶any(k) + 'a' > 'x' ⇒ 0 in:4: warning W14: store 'k' has no character and no deadkey¶checked warnings=1 notes=0¶
store(&name) 'one'¶store(&name) 'two'¶begin Unicode > use(main)¶group(main) using keys¶+ 'a' > 'b' ⇒ 0 in:2: warning W16: the first of these statements counts¶checked warnings=1 notes=0¶
== notes are counted by themselves
store(o) '0'¶store(p) '0'¶begin Unicode > use(main)¶group(main) using keys¶+ 'a' > set(o = '1')¶if(p = '0') + 'b' > save(p) ⇒ 0 in:5: warning W08: option 'o' is set and never asked for¶in:6: note W10: option 'p' is asked for, and nothing sets it¶in:6: warning W12: option 'p' is saved, and nothing sets it¶checked warnings=2 notes=1¶
store(p) '0'¶begin Unicode > use(main)¶group(main) using keys¶if(p = 'öne') + 'c' > 'd'¶+ 'e' > set(p = '1')¶if(p = '1') + 'f' > 'g' ⇒ 0 in:4: note W11: option 'p' is never 'öne'¶checked warnings=0 notes=1¶
begin Unicode > use(main)¶group(main) using keys¶+ 'a' > 'a'¶+ 'b' > 'B' ⇒ 0 in:3: note W15: the key gives this without a rule¶checked warnings=0 notes=1¶
store(v) 'aeio'¶store(w) 'AEIOU'¶begin Unicode > use(main)¶group(main) using keys¶any(v) + '^' > index(w, 1) ⇒ 0 in:5: note W18: index('w') has more elements than any('v')¶checked warnings=0 notes=1¶
== W07: a rule behind another one, and a rule behind several
store(v) 'ab'¶begin Unicode > use(main)¶group(main) using keys¶any(v) + 'x' > 'y'¶'a' + 'x' > 'z'¶'a' + 'X' > 'Z' ⇒ 0 in:5: warning W07: this rule never comes first, behind line 4¶checked warnings=1 notes=0¶
store(v) 'ab'¶begin Unicode > use(main)¶group(main) using keys¶'a' + 'x' > 'y'¶'b' + 'x' > 'y'¶any(v) + 'x' > 'z' ⇒ 0 in:6: warning W07: this rule never comes first, behind lines 4, 5¶checked warnings=1 notes=0¶
== W07: a rule with a key store, all of whose keys are behind others, and one with another key
store(k) 'ab'¶store(l) 'bc'¶begin Unicode > use(main)¶group(main) using keys¶+ 'a' > 'x'¶+ 'b' > 'y'¶+ any(k) > 'z'¶+ any(l) > 'z' ⇒ 0 in:7: warning W07: this rule never comes first, behind lines 5, 6¶checked warnings=1 notes=0¶
== W07: not where W03, W09, W13 or W14 says why the rule never fires
store(s) 'a'¶begin Unicode > use(main)¶group(main) using keys¶notany(s) + 'd' > 'x'¶dk(two) + 'd' > 'y' ⇒ 0 in:5: warning W03: deadkey 'two' is looked for and never put¶checked warnings=1 notes=0¶
store(o) '0'¶begin Unicode > use(main)¶group(main) using keys¶if(o = '1') if(o = '2') + 'a' > 'b'¶if(o = '1') if(o = '2') + 'a' > 'c'¶+ 'e' > set(o = '1') set(o = '2') ⇒ 0 in:4: warning W09: these conditions are never true together¶in:5: warning W09: these conditions are never true together¶checked warnings=2 notes=0¶
begin Unicode > use(main)¶group(main) using keys¶+ 'a' > 'x'¶+ [CAPS NCAPS K_B] > 'y' ⇒ 0 in:4: warning W13: no press gives this key¶checked warnings=1 notes=0¶
== W07: between the other codes of a line
store(v) 'ab'¶store(w) 'A'¶store(o) '0'¶begin Unicode > use(main)¶group(main) using keys¶any(v) + 'x' > 'y'¶any(v) + 'x' > index(w, 1) set(o = '1') ⇒ 0 in:7: warning W05: index('w') has 1 elements, any('v') 2¶in:7: warning W07: this rule never comes first, behind line 6¶in:7: warning W08: option 'o' is set and never asked for¶checked warnings=3 notes=0¶
== W07: 2,000 records are searched, and one more is too many
store(a) '0123456789'¶store(b) outs(a) outs(a) outs(a) outs(a) outs(a) outs(a) outs(a) outs(a) outs(a) outs(a)¶store(c) outs(b) outs(b) outs(b) outs(b) outs(b) outs(b) outs(b) outs(b) outs(b) outs(b)¶begin Unicode > use(main)¶group(main) using keys¶+ any(c) > 'x'¶+ any(c) > 'y' ⇒ 0 in:7: warning W07: this rule never comes first, behind line 6¶checked warnings=1 notes=0¶
store(a) '0123456789'¶store(b) outs(a) outs(a) outs(a) outs(a) outs(a) outs(a) outs(a) outs(a) outs(a) outs(a)¶store(c) outs(b) outs(b) outs(b) outs(b) outs(b) outs(b) outs(b) outs(b) outs(b) outs(b)¶begin Unicode > use(main)¶group(main) using keys¶+ any(c) > 'x'¶+ any(c) > 'y'¶+ 'q' > 'z' ⇒ 0 in:1: note W07: 2001 records are too many to look for dead rules¶checked warnings=0 notes=1¶
== a line for another program may use what others do not
store(a) 'x'¶begin Unicode > use(main)¶group(main) using keys¶$keymanweb: + 'q' > outs(a)¶+ 'a' > 'b' ⇒ 0 checked warnings=0 notes=0¶";

/// Returns whether a source in a file `in` has the exit status and the printed text of its row.
fn is_checked(alloc: Global, row: &str) -> Result<bool, Fail> {
    let (source, wanted) = parted(row)?;
    let (status, printed) = wanted.split_once(' ').ok_or("a row without a status")?;
    let source = source_of(alloc, source)?;
    let printed = source_of(alloc, printed)?;
    let words = words(alloc, "in")?;
    let mut folder = empty_folder(alloc, 0, 0)?;
    folder.write(alloc, b"in", source.as_bytes())?;
    let mut sink = sink(alloc, 0)?;
    let ended = check_run(alloc, words.as_slice(), &mut folder, &mut sink);
    Ok(status.parse::<u8>().ok() == Some(ended.number()) && sink.written() == printed.as_bytes())
}

/// The files of the table of inputs: names and texts. In a text, `¶` is a line feed.
const FILES: &[(&str, &str)] = &[
    (
        "in",
        "store(o) '0'¶begin Unicode > use(main)¶group(main) using keys¶if(o = '1') + 'a' > 'b'¶+ 'c' > set(o = '1')¶+ [T_x] > 'd'",
    ),
    (
        "noted",
        "begin Unicode > use(main)¶group(main) using keys¶+ 'a' > 'a'¶+ 'b' > 'B'",
    ),
    (
        "keyed",
        "begin Unicode > use(main)¶group(main) using keys¶+ [T_a] > 'a'¶+ [SHIFT t_A] > 'b'¶+ [U_0103] > 'c'¶+ [K_A] > 'd'",
    ),
    ("empty", ""),
    (
        "good.json",
        r#"{"phone":{"layer":[{"id":"default","row":[{"key":[{"id":"K_A"},{"id":"T_x"}]}]}]}}"#,
    ),
    (
        "bad.json",
        r#"{"phone":{"layer":[{"id":"default","row":[{"key":[{"id":"K_A"},{"id":"T_y"}]}]}]}}"#,
    ),
    (
        "other.json",
        r#"{"phone":{"layer":[{"id":"default","row":[{"key":[{"id":"K_A"}]}]}]}}"#,
    ),
    (
        "sub.json",
        r#"{"phone":{"layer":[{"id":"default","row":[{"key":[{"id":"K_A","sk":[{"id":"T_A"}],"flick":{"n":{"id":"U_0103"}}}]}]}]}}"#,
    ),
    ("open.keyman-touch-layout", "{"),
    (
        "good.keys",
        "option o '1'¶option O '1'¶option &layer 's'¶[K_A] [T_x]",
    ),
    (
        "quikc.keys",
        "option quikc '0'¶[K_A]¶option o '1'¶option O2 '1'",
    ),
    ("bad.keys", "[K_A]¶[T_y]"),
];

/// Each row contains the words of a run over these files and, after ` ⇒ `, the exit status and the printed text. In the text, `¶` is a line
/// feed.
const INPUTS: &str = "\
== a layout and a script that are accepted
in good.json ⇒ 0 checked warnings=0 notes=0¶
in good.keys ⇒ 0 checked warnings=0 notes=0¶
in good.json good.keys ⇒ 0 checked warnings=0 notes=0¶
== a layout that is refused
in bad.json ⇒ 1 bad.json:1:1: error T5: a key that does nothing: platform 1 layer 1 row 1 key 2¶refused T5 platform 1 layer 1 row 1 key 2¶
in open.keyman-touch-layout ⇒ 1 open.keyman-touch-layout:1:1: error T1: a layout that is no JSON: platform 0 layer 0 row 0 key 0¶refused T1 platform 0 layer 0 row 0 key 0¶
== W17: custom keys of rules that a layout lacks, each once, and after the other warnings of the source
in other.json ⇒ 0 in:6: warning W17: no key of the layout is 'T_x'¶checked warnings=1 notes=0¶
keyed other.json ⇒ 0 keyed:3: warning W17: no key of the layout is 'T_a'¶keyed:5: warning W17: no key of the layout is 'U_0103'¶checked warnings=2 notes=0¶
keyed sub.json ⇒ 0 checked warnings=0 notes=0¶
noted other.json ⇒ 0 noted:3: note W15: the key gives this without a rule¶checked warnings=0 notes=1¶
in other.json quikc.keys ⇒ 0 in:6: warning W17: no key of the layout is 'T_x'¶quikc.keys:1: warning W19: the keyboard has no option 'quikc'¶quikc.keys:4: warning W19: the keyboard has no option 'O2'¶checked warnings=3 notes=0¶
in other.json bad.keys ⇒ 1 in:6: warning W17: no key of the layout is 'T_x'¶bad.keys:2:1: error P03: a bracket that is no key press¶refused P03 line 2¶
== a script that is refused
in bad.keys ⇒ 1 bad.keys:2:1: error P03: a bracket that is no key press¶refused P03 line 2¶
== options that the keyboard does not have
in quikc.keys ⇒ 0 quikc.keys:1: warning W19: the keyboard has no option 'quikc'¶quikc.keys:4: warning W19: the keyboard has no option 'O2'¶checked warnings=2 notes=0¶
== the script is read also if the layout is refused, and the last line is that of the layout
in bad.json quikc.keys ⇒ 1 bad.json:1:1: error T5: a key that does nothing: platform 1 layer 1 row 1 key 2¶quikc.keys:1: warning W19: the keyboard has no option 'quikc'¶quikc.keys:4: warning W19: the keyboard has no option 'O2'¶refused T5 platform 1 layer 1 row 1 key 2¶
in bad.json bad.keys ⇒ 1 bad.json:1:1: error T5: a key that does nothing: platform 1 layer 1 row 1 key 2¶bad.keys:2:1: error P03: a bracket that is no key press¶refused T5 platform 1 layer 1 row 1 key 2¶
== of two names, the first is that of the layout
in good.keys good.json ⇒ 1 good.keys:1:1: error T1: a layout that is no JSON: platform 0 layer 0 row 0 key 0¶good.json:1:1: error P02: a line that no script has¶refused T1 platform 0 layer 0 row 0 key 0¶
== the lines of the source come first
noted good.keys ⇒ 1 noted:3: note W15: the key gives this without a rule¶good.keys:4:1: error P03: a bracket that is no key press¶refused P03 line 4¶
noted quikc.keys ⇒ 0 noted:3: note W15: the key gives this without a rule¶quikc.keys:1: warning W19: the keyboard has no option 'quikc'¶quikc.keys:3: warning W19: the keyboard has no option 'o'¶quikc.keys:4: warning W19: the keyboard has no option 'O2'¶checked warnings=3 notes=1¶
== a refused source has its refusals alone: the other files are not read
empty bad.json ⇒ 1 empty:1:1: error C01: no begin Unicode¶refused C01 line 1¶
empty none.json none.keys ⇒ 1 empty:1:1: error C01: no begin Unicode¶refused C01 line 1¶
== a file that is missing, and a word too many
in none.json ⇒ 3
in good.json none.keys ⇒ 3
in good.json good.keys good.keys ⇒ 2";

/// Returns a folder with the files of the table of inputs.
fn input_folder(alloc: Global) -> Result<MemoryFolder, Fail> {
    let mut folder = empty_folder(alloc, 0, 0)?;
    for (name, text) in FILES {
        let text = source_of(alloc, text)?;
        folder.write(alloc, name.as_bytes(), text.as_bytes())?;
    }
    Ok(folder)
}

/// Returns whether a run over the files of the table has the exit status and the printed text of its row.
fn is_run(alloc: Global, row: &str) -> Result<bool, Fail> {
    let (line, wanted) = parted(row)?;
    let (status, printed) = wanted.split_once(' ').unwrap_or((wanted, ""));
    let printed = source_of(alloc, printed)?;
    let mut folder = input_folder(alloc)?;
    let mut sink = sink(alloc, 0)?;
    let words = words(alloc, line)?;
    let ended = check_run(alloc, words.as_slice(), &mut folder, &mut sink);
    Ok(status.parse::<u8>().ok() == Some(ended.number()) && sink.written() == printed.as_bytes())
}

#[test]
fn inputs(rt: HostRuntime) -> Result<(), Fail> {
    for row in INPUTS.lines() {
        if is_row(&row) {
            assert!(rt; is_run(rt.alloc(), row)?, "{row}");
        }
    }
    Ok(())
}

#[test]
fn checks(rt: HostRuntime) -> Result<(), Fail> {
    for row in CHECKS.lines() {
        if is_row(&row) {
            assert!(rt; is_checked(rt.alloc(), row)?, "{row}");
        }
    }
    Ok(())
}

/// Returns whether a source that is not UTF-8 is refused at its first such byte. Its lines end with CR LF, LF and CR.
fn is_placed(alloc: Global) -> Result<bool, Fail> {
    let words = words(alloc, "in")?;
    let mut folder = empty_folder(alloc, 0, 0)?;
    folder.write(alloc, b"in", b"c\r\n\nc\r\xC3\xA9\xFF")?;
    let mut sink = sink(alloc, 0)?;
    let ended = check_run(alloc, words.as_slice(), &mut folder, &mut sink);
    let printed = b"in:4:2: error L01: a source that is not UTF-8\nrefused L01 line 1\n";
    Ok(ended.number() == 1 && sink.written() == printed.as_slice())
}

#[test]
fn bytes(rt: HostRuntime) -> Result<(), Fail> {
    assert!(rt; is_placed(rt.alloc())?);
    Ok(())
}
