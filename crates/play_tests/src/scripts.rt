//! Tests scripts: the entries that they contain or the rule that they break.

use kmn_base::{Code, Event, Refusal};
use play_script::{ScriptError, read_script};
use rule_model::Entry;
use source_tests::fixtures::{is_refusal, is_row, parted, source_of};
use std::alloc::Global;
use std::test::Fail;
use virtual_keys::KeyDictionary;

/// Each row contains a script, as `source_of` reads it, in which a backquote is the byte FF, and, after ` ⇒ `, its entries, each with
/// its line, or the rule that it breaks. A key press has its code and its modifiers. The keyboard has the names `T_flip` and `U_0041`.
const ROWS: &str = "\
== keys
[K_A] ⇒ 1:65:0
 ⇒ 
[k_a]¶[K_0]¶ ⇒ 1:65:0 2:48:0
[K_A][K_B] [K_C]¶[K_BKSP]¶ ⇒ 1:65:0 1:66:0 1:67:0 2:8:0
  [ SHIFT ␉ K_SPACE ]␉[K_oE2 ]  ⇒ 1:32:16 1:226:0
== modifiers
[Shift k_f5] ⇒ 1:116:16
[CAPS K_B] ⇒ 1:66:256
[LCTRL K_A][RCTRL K_A][LALT K_A][RALT K_A] ⇒ 1:65:1 1:65:2 1:65:4 1:65:8
[CTRL K_A][ALT K_A][ctrl lctrl alt K_A] ⇒ 1:65:1 1:65:4 1:65:5
[SHIFT CAPS LCTRL RCTRL LALT RALT SHIFT K_NPSTAR] ⇒ 1:106:287
== line ends, notes and custom keys
[K_A]␍¶[K_B]␍[K_C]␍␍[K_D] ⇒ 1:65:0 2:66:0 3:67:0 5:68:0
⌖# a note¶ ␉¶[K_A]¶  #¶ ⇒ 3:65:0
[T_flip] [ctrl t_FLIP] [u_0041] ⇒ 1:256:0 1:256:1 1:257:0
== carets, edits, options and expected texts
caret 0 ⇒ 1:caret 0
 caret␉0000005  ⇒ 1:caret 5
caret 9999999 ⇒ 1:caret 9999999
edit 0 1 \"ab\" ⇒ 1:edit 0 1 ab
edit 3 2 'a' \"b\"U+0041 'c'␉'d' ⇒ 1:edit 3 2 abAcd
option o \"1\" ⇒ 1:option o 1
option &layer '' ⇒ 1:option &layer 
option \"o\" U+00E9 ⇒ 1:option \"o\" é
expect \"\" ⇒ 1:expect 
expect U+0041 U+1F600 U+00005A ⇒ 1:expect A\u{1F600}Z
== texts and numbers without spaces between
expect U+0041\"a\" ⇒ 1:expect Aa
edit 0 0 U+0041'x'U+00E9\"y\"U+005A ⇒ 1:edit 0 0 AxéyZ
option o U+0041'' ⇒ 1:option o A
expect \"it's\"'\"'\"# [\" ⇒ 1:expect it's\"# [
== several lines
[K_A]¶expect \"a\"¶caret 0¶ ⇒ 1:65:0 2:expect a 3:caret 0
== a script that is not UTF-8, whatever else is wrong
` ⇒ P01 1
# a note¶[K_QQ]¶` ⇒ P01 1
== lines of no kind
x ⇒ P02 1
Caret 1 ⇒ P02 1
caret0 ⇒ P02 1
expect\"c\" ⇒ P02 1
K_A] ⇒ P02 1
⌖⌖[K_A] ⇒ P02 1
[K_A]¶¶#¶hello [K_A]¶[K_QQ] ⇒ P02 4
== keys
[] ⇒ P03 1
[ ] ⇒ P03 1
[SHIFT] ⇒ P03 1
[K_A SHIFT] ⇒ P03 1
[K_A K_B] ⇒ P03 1
[SHIFTK_A] ⇒ P03 1
[NCAPS K_A] ⇒ P03 1
[K_A] [K_QQ] x ⇒ P03 1
[T_flop] ⇒ P03 1
[[K_A] ⇒ P03 1
[K_A ⇒ P03 1
[K_A] [ ⇒ P03 1
[K_A]¶[K_B]¶ ¶[K_C ⇒ P03 4
== texts
expect ⇒ P04 1
expect x ⇒ P04 1
expect \"a ⇒ P04 1
expect \"a'¶[K_QQ] ⇒ P04 1
expect \"a\" x ⇒ P04 1
expect U+041 ⇒ P04 1
expect u+0041 ⇒ P04 1
expect U+D800 ⇒ P04 1
expect U+110000 ⇒ P04 1
expect U+0000041 ⇒ P04 1
expect U+0041\"x ⇒ P04 1
expect U+0041x\"y\" ⇒ P04 1
expect U+041\"x\" ⇒ P04 1
expect U+0041U+0042 ⇒ P04 1
expect \"a\"x\"b\" ⇒ P04 1
option ⇒ P04 1
option o ⇒ P04 1
option o\"1\" ⇒ P04 1
option o x ⇒ P04 1
edit 0 0 ⇒ P04 1
edit 0 0 a ⇒ P04 1
== numbers
caret ⇒ P05 1
caret x 0 ⇒ P05 1
caret -1 ⇒ P05 1
caret 00000001 ⇒ P05 1
edit \"a\" ⇒ P05 1
edit 0 x \"a\" ⇒ P05 1
edit 0 0\"a\" ⇒ P05 1
== what follows on a line
caret 0 0 ⇒ P08 1
[K_A] x ⇒ P08 1
[K_A]] ⇒ P08 1
[K_A]¶[K_A] x [K_QQ] ⇒ P08 2
== limits on bytes and events
⟨#×4194304⟩ ⇒ 
⟨#×4194305⟩ ⇒ P06 1
⟨[K_A]¶×100000⟩#¶expect ''x ⇒ P04 100002
⟨[K_A]¶×100000⟩[K_A] ⇒ P07 100001
⟨[K_A]¶×100000⟩caret 0 0 ⇒ P07 100001
⟨[K_A]¶×100000⟩caret x ⇒ P05 100001
⟨'a' ×4096⟩¶ ⇒ P02 1
== limits on texts and names
expect ⟨'é'×4096⟩ ⇒ 1:expect ⟨é×4096⟩
expect ⟨'é'×4097⟩ ⇒ P04 1
option ⟨é×80⟩ 'a' ⇒ 1:option ⟨é×80⟩ a
option ⟨é×81⟩ 'a' ⇒ P04 1";

/// Returns the bytes of the script of a row.
fn script_of(alloc: Global, text: &str) -> Result<Vec<u8>, Fail> {
    let text = source_of(alloc, text)?;
    let mut script = Vec::from_slice(alloc, text.as_bytes())?;
    for byte in script.as_mut_slice() {
        if *byte == b'`' {
            *byte = 0xFF;
        }
    }
    Ok(script)
}

/// Appends a word, a space and a text.
fn show_text(shown: &mut String, word: &str, text: &[char]) -> Result<(), Fail> {
    write!(shown, "{word} ")?;
    for c in text {
        shown.push(*c)?;
    }
    Ok(())
}

/// Appends an event in the notation of the rows.
fn show_event(shown: &mut String, event: &Event) -> Result<(), Fail> {
    match event {
        Event::Key(press) => write!(shown, "{}:{}", press.code, press.mods)?,
        Event::Caret(place) => write!(shown, "caret {place}")?,
        Event::Edit { from, to, text } => {
            write!(shown, "edit {from} ")?;
            write!(shown, "{to}")?;
            show_text(shown, "", text.as_slice())?;
        }
        Event::Setting { name, value } => {
            shown.push_str("option ")?;
            shown.push_str(str::from_utf8(name.as_slice()).unwrap_or("?"))?;
            show_text(shown, "", value.as_slice())?;
        }
    }
    Ok(())
}

/// Appends an entry in the notation of the rows.
fn show_entry(shown: &mut String, entry: &Entry) -> Result<(), Fail> {
    match entry {
        Entry::Act { line, event } => {
            write!(shown, "{line}:")?;
            show_event(shown, event)
        }
        Entry::Expect { line, text } => {
            write!(shown, "{line}:")?;
            show_text(shown, "expect", text.as_slice())
        }
    }
}

/// Returns entries in the notation of the rows.
fn shown_entries(alloc: Global, entries: &[Entry]) -> Result<String, Fail> {
    let mut shown = String::new(alloc);
    for entry in entries {
        if !shown.is_empty() {
            shown.push(' ')?;
        }
        show_entry(&mut shown, entry)?;
    }
    Ok(shown)
}

/// Returns whether the entries are the expected ones.
fn are_entries(alloc: Global, entries: &[Entry], wanted: &str) -> Result<bool, Fail> {
    let shown = shown_entries(alloc, entries)?;
    Ok(shown.as_str() == wanted)
}

/// Returns whether a script has the expected entries or refusal.
fn gives(alloc: Global, script: &[u8], names: &KeyDictionary, wanted: &str) -> Result<bool, Fail> {
    match read_script(alloc, script, names) {
        Ok(entries) => are_entries(alloc, entries.as_slice(), wanted),
        Err(ScriptError::Refused(refusal)) => Ok(is_refusal(refusal, wanted)),
        Err(error) => Err(error.into()),
    }
}

/// Returns whether the script of a row has the result in the row.
fn is_right(alloc: Global, names: &KeyDictionary, row: &str) -> Result<bool, Fail> {
    let (text, wanted) = parted(row)?;
    let script = script_of(alloc, text)?;
    let wanted = source_of(alloc, wanted)?;
    gives(alloc, script.as_slice(), names, wanted.as_str())
}

/// Returns the names of the custom keys of the keyboard.
fn names(alloc: Global) -> Result<KeyDictionary, Fail> {
    let mut names = KeyDictionary::new(alloc);
    names.add(b"T_flip")?;
    names.add(b"U_0041")?;
    Ok(names)
}

/// Returns the first row whose script has a different result.
fn wrong_row(alloc: Global) -> Result<Option<&'static str>, Fail> {
    let names = names(alloc)?;
    for row in ROWS.lines().filter(is_row) {
        if !is_right(alloc, &names, row)? {
            return Ok(Some(row));
        }
    }
    Ok(None)
}

#[test]
fn scripts_give_entries(rt: HostRuntime) -> Result<(), Fail> {
    let wrong = wrong_row(rt.alloc())?;
    assert!(rt; wrong.is_none(), "{}", wrong.unwrap_or(""));
    Ok(())
}

/// Errors and their printed texts.
const PRINTED: &[(ScriptError, &str)] = &[
    (
        ScriptError::Refused(Refusal {
            code: Code::P02,
            line: 4,
        }),
        "refused P02 line 4",
    ),
    (ScriptError::Memory, "out of memory"),
];

#[test]
fn script_errors(rt: HostRuntime) -> Result<(), Fail> {
    let alloc = rt.alloc();
    for (error, wanted) in PRINTED {
        assert!(rt;
            format!(in alloc; "{error}")?.as_str() == *wanted,
            "{wanted}"
        );
    }
    Ok(())
}
