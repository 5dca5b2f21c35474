//! Sources that are not refused, each with what is probably a mistake in it, in the order of lines.

use crate::fixtures::{is_row, parted, source_of};
use kmn_base::Seq;
use kmn_parser::parse;
use source_warnings::{Warning, WarningKind, aside_words, warnings};
use std::alloc::{AllocError, Global};
use std::fmt::Write;
use std::str;
use std::test::Fail;

/// Each row begins after the lines `begin Unicode > use(main)` and `group(main) using keys`, which are lines 1 and 2.
const WARNINGS: &str = "\
== nothing
+ 'a' > 'b' ⇒ none
== W01: a store that is used nowhere, and one that only a store uses
store(a) 'x'¶store(b) outs(a)¶+ 'a' > 'b' ⇒ W01 4 b
== W01: a context, a key, an output, a condition or a change of an option uses a store, in any case
store(a) 'x'¶store(b) 'y'¶store(c) 'z'¶store(d) '0'¶store(e) '0'¶any(A) + any(B) > outs(C)¶if(D = '1') + 'q' > set(D = '1')¶if(E = '1') + 'r' > set(E = '1') ⇒ none
== W01: a line of another program names it, also in quotes
store(a) 'x'¶store(b) 'y'¶store(c) 'z'¶$keymanweb: + 'q' > outs(A)¶ $kmfl: + 'q' > 'b'¶+ 'a' > 'b' c c ⇒ W01 5 c
== W01: a line joined to a line of another program, and a store that such a line alone defines
store(a) 'x'¶ \\¶$keymanweb: 'q' > \\¶  outs(a)¶$keymanweb: store(b) 'y'¶+ 'a' > 'b' ⇒ none
== W01: a system store is used by the system
store(&name) 'n'¶store(&kmw_rtl) '1' ⇒ none
== W02, W03: a deadkey that is misspelt
+ '^' > dk(hat)¶dk(hta) + 'a' > 'â' ⇒ W02 3 hat, W03 4 hta
== W02, W03: each deadkey once, at its first statement, in any case
+ '1' > dk(one) dk(two)¶+ '2' > dk(ONE)¶dk(three) dk(TWO) + 'a' > 'b'¶dk(Three) + 'c' > 'd' ⇒ W02 3 one, W03 5 three
== W02, W03: the deadkeys of stores count, but a store alone is not warned of
store(m) dk(one) dk(two)¶+ '1' > dk(one)¶any(m) + 'a' > 'b' ⇒ none
== W02: the deadkeys of stores that outputs put, at the first of these
store(m) dk(one) dk(two)¶store(n) outs(m) 'x'¶store(k) '123'¶+ any(k) > index(n, 1)¶+ '4' > outs(m)¶+ '5' > dk(two)¶dk(one) + 'a' > 'b' ⇒ W02 6 two
== W02: a deadkey of a store, put by its own name in an earlier line
store(m) dk(two)¶+ '5' > dk(two)¶+ '4' > outs(m) ⇒ W02 4 two
== W03: a store that outputs put has the deadkey
store(m) dk(one)¶+ '1' > outs(m)¶dk(one) + 'a' > 'b' ⇒ none
== W02, W03: a line of another program names it
+ '^' > dk(hat)¶dk(hta) + 'a' > 'â'¶$keymanweb: dk(hat) > dk(hta) ⇒ none
== W04: groups that only unreached groups enter
+ 'a' > 'b'¶group(late)¶'b' > 'c'¶group(later)¶'c' > use(late) ⇒ W04 4 late, W04 6 later
== W04: rules, match and nomatch enter groups, one after the other, in any case
+ 'a' > 'b' use(One)¶match > use(two)¶nomatch > use(three)¶group(one)¶'b' > use(four)¶group(two)¶'b' > 'c'¶group(three)¶'b' > 'c'¶group(four)¶'c' > use(one) use(FOUR) ⇒ none
== W04: a line of another program names it
+ 'a' > 'b'¶group(late)¶'b' > 'c'¶$keymanweb: begin > use(late) ⇒ none
== W05: fewer elements, in an output, in a context and at the key
store(v) 'aeiou'¶store(w) 'AEIO'¶any(v) + '^' > index(w, 1)¶+ any(v) > index(w, 1)¶any(v) index(w, 1) + 'x' > index(v, 1) ⇒ W05 5 w 4 v 5, W05 6 w 4 v 5, W05 7 w 4 v 5
== W05: as many elements, where outs brings some, and keys
store(v) 'ae'¶store(w) 'A'¶store(x) outs(w) [K_B]¶any(v) + '^' > index(x, 1) ⇒ none
== W05: each index of a rule, and the any that its offset names
store(u) 'a'¶store(v) 'ab'¶store(w) 'abc'¶any(u) any(v) + any(w) > index(u, 2) index(v, 3) index(w, 3) index(u, 1) ⇒ W05 6 u 1 v 2, W05 6 v 2 w 3
== W06: an element that is there before, where the other store has another element
store(v) 'aeiaou'¶store(w) 'AEIÄOU'¶any(v) + '^' > index(w, 1) ⇒ W06 3 4 v w
== W06: the same element, or none, in the other store
store(v) 'aeiaou'¶store(w) 'AEIAOU'¶store(x) 'AEI'¶any(v) + '^' > index(w, 1) index(x, 1) ⇒ W05 6 x 3 v 6
== W06: the first such element, once for each two stores, in any case
store(v) 'aaabb'¶store(w) 'ABACD'¶store(x) 'AAACD'¶any(v) + '1' > index(w, 1)¶any(V) + '2' > index(x, 1) index(W, 1) ⇒ W06 3 2 v w, W06 3 5 V x
== W06: deadkeys in any case, and keys, at the key too; a character is not a key
store(v) dk(one) 'a' dk(ONE)¶store(w) 'wxy'¶store(k) 'a' [K_A] [SHIFT K_A] [K_A]¶store(x) 'wxyz'¶any(v) + '1' > index(w, 1)¶+ any(k) > index(x, 1) ⇒ W06 3 3 v w, W06 5 4 k x
== W06: custom keys, letters in another case, and elements of another store
store(k) [T_x] [T_y] [T_x]¶store(w) 'xyz'¶store(a) 'aA'¶store(v) outs(a) 'a'¶+ any(k) > index(w, 1)¶any(v) + '1' > index(w, 1) ⇒ W06 3 3 k w, W06 6 3 v w
== W06: an option has no fixed elements
store(o) 'aa'¶store(v) 'ab'¶any(o) + 'a' > index(v, 1) set(o = 'b') ⇒ none
== W08, W10, W12
store(o) '0'¶store(p) '0'¶+ 'a' > set(o = '1')¶if(p = '0') + 'b' > save(p) ⇒ W08 5 o, W10 6 p, W12 6 p
== W08: once, at the first set; no condition, but a use as a store
store(o) '0'¶store(p) '0'¶+ 'a' > set(o = '1') set(O = '2')¶+ 'b' > set(o = '1') set(p = '1')¶any(p) + 'c' > 'd' ⇒ W08 5 o
== W08, W10, W12: a line of another program names it
store(o) '0'¶store(p) '0'¶+ 'a' > set(o = '1')¶if(p = '0') + 'b' > save(p)¶$keymanweb: if(o = 'p') ⇒ none
== W09: two values, or a value and not this value, in both orders
store(o) '0'¶if(o = '1') if(O = '2') + 'a' > 'b'¶if(o = '1') if(o != '1') + 'c' > 'd'¶if(o != '1') 'x' + 'c' > 'd'¶if(o != '1') if(o = '1') + 'c' > 'd'¶+ 'e' > set(o = '1') set(o = '2') ⇒ W09 4, W09 5, W09 7
== W09: conditions that may be true together
store(o) '0'¶store(p) '0'¶if(o = '1') if(o = '1') + 'a' > 'b'¶if(o = '1') if(p = '2') + 'c' > 'd'¶if(o != '1') if(o != '2') + 'c' > 'd'¶if(o = '1') if(o != '2') + 'c' > 'd'¶+ 'e' > set(o = '1') set(o = '2') set(p = '2') ⇒ none
== W09: the layer has one value, the platform may have several
if(&layer = 'a') if(&layer = 'b') + 'a' > 'b'¶if(&platform = 'a') if(&platform = 'b') + 'c' > 'd'¶if(&platform = 'a') if(&platform != 'a') + 'e' > 'f' ⇒ W09 3, W09 5
== W10: once, at the first if; saved is not set
store(o) '0'¶if(o = '1') + 'a' > 'b'¶if(o != '1') + 'b' > reset(O) ⇒ W10 4 o
== W11: once for each value; a value that is set, or that the store has, and an option that is never set
store(o) '0'¶store(p) 'no'¶if(o = '1') + 'a' > 'b'¶if(p = 'one') if(p != 'No') + 'c' > 'd'¶+ 'e' > set(P = '1')¶if(p = 'no') if(P != 'one') if(p = '1') + 'f' > 'g' ⇒ W10 5 o, W11 6 p one, W11 6 p No, W09 8
== W11: the value of a store that brings another, and a line of another program
store(a) 'n'¶store(p) outs(a) 'o'¶store(q) 'x'¶if(p = 'no') if(p = 'on') + 'a' > set(p = '1')¶if(q = 'y') + 'b' > set(q = 'x')¶$keymanweb: if(q = 'z') ⇒ W09 6, W11 6 p on
== W12: once, at the first save
store(o) '0'¶+ 'a' > save(o)¶+ 'b' > save(o) ⇒ W12 4 o
== W13: characters without a key, caps lock on and off, and key stores, each once
store(k) 'aé'¶+ 'é' > 'x'¶+ any(k) > 'y'¶+ [CAPS NCAPS K_A] > 'z'¶'q' + any(K) > 'w' ⇒ W13 4, W13 5 k 1 2, W13 6
== W13: letters, digits and signs with and without shift, a space, and keys with one of both
store(k) 'azAZ09!~' ' {' [CAPS K_A] [NCAPS K_B]¶+ any(k) > 'y'¶+ ' ' > 'x'¶+ [SHIFT CAPS K_A] > 'z' ⇒ none
== W14: a store with keys only, and an empty store
store(k) [K_A]¶store(e)¶any(k) + 'a' > 'x'¶any(e) + 'b' > 'y'¶+ any(k) > 'z' ⇒ W14 5 k, W14 6 e
== W14: index in a context and in an output, which may be empty there
store(v) 'a'¶store(k) [K_A]¶store(e)¶any(v) index(k, 1) + 'a' > 'x'¶any(v) + 'b' > index(k, 1)¶any(v) + 'c' > index(e, 1) ⇒ W14 6 k, W14 7 k, W05 8 e 0 v 1
== W14: a store with a character or a deadkey among its keys, notany, and an option
store(k) [K_A] 'a'¶store(m) [K_A] dk(x)¶store(n) [K_A]¶store(o)¶any(k) any(m) notany(n) any(o) + 'b' > set(o = '1') dk(x) ⇒ none
== W15: the character of the key alone, which no other rule without a context takes
+ 'a' > 'a'¶+ 'b' > 'B'¶+ [K_C] > 'c'¶+ 'd' > 'd'¶+ [K_D] > 'e'¶+ 'f' > 'f' 'f'¶'x' + 'g' > 'g'¶+ 'h' > 'h' ⇒ W15 3, W15 10
== W15: another key with shift, caps lock, control, or no press, and a key that is taken twice
+ 'a' > 'a'¶+ [SHIFT K_A] > 'x'¶+ 'B' > 'B'¶+ [CAPS K_B] > 'x'¶+ 'c' > 'c'¶+ [CTRL K_C] > 'x'¶+ 'd' > 'd'¶+ 'd' > 'e'¶'x' + [K_H] > 'y'¶+ 'h' > 'h'¶+ '1' > '1'¶+ [SHIFT K_1] > '!' ⇒ W15 7, W15 12, W15 13
== W15: key stores, also in several rules, and a character that no press produces
store(k) 'ab' [K_C]¶store(o) '0'¶+ any(k) > index(k, 1)¶+ 'a' > 'a'¶+ 'c' > 'c'¶+ 'd' > 'd'¶if(o = '1') + any(k) > 'x'¶+ 'é' > 'é'¶+ any(k) > set(o = '1') ⇒ W15 8, W13 10
== W15: a group with match or nomatch
+ 'a' > 'a'¶match > beep¶group(two) using keys¶+ 'a' > 'a'¶nomatch > beep¶group(three) using keys¶+ 'a' > 'a'¶group(four)¶'a' > 'a' use(two) use(three) use(four) ⇒ W04 5 two, W04 8 three, W15 9, W04 10 four
== W16: the second statement of a system store, but not of one that is dropped
store(&name) 'one'¶store(&NAME) 'two'¶store(&copyright) 'c'¶store(&name) 'three'¶store(&kmw_rtl) '1'¶store(&kmw_rtl) '1' ⇒ W16 4, W16 6
== W18: more elements than each any
store(v) 'aeio'¶store(w) 'AEIOU'¶any(v) + '^' > index(w, 1) ⇒ W18 5 w v
== W18: once, at the first use, and not where another any has as many elements
store(t) 'ab'¶store(u) 'abc'¶store(v) 'abcd'¶store(w) 'ABC'¶any(t) + '1' > index(w, 1) index(v, 1)¶any(u) + '2' > index(W, 1)¶any(u) + '3' > index(V, 1) ⇒ W18 7 v t
== W05, W18: an option has no fixed elements
store(o) '0'¶store(v) 'ab'¶any(o) any(v) + 'a' > index(v, 1) index(o, 2) set(o = 'abc') ⇒ none
== the order of lines, and at a line the order of codes
store(o) '0'¶store(v) 'ae'¶store(w) 'A'¶+ '1' > dk(x)¶dk(y) any(v) + '2' > index(w, 2) dk(x) set(o = '1')¶store(z) 'z' ⇒ W02 6 x, W03 7 y, W05 7 w 1 v 2, W08 7 o, W01 8 z";

/// The two lines before each row.
const KEYBOARD: &str = "begin Unicode > use(main)\ngroup(main) using keys\n";

fn name(bytes: &Seq<u8>) -> &str {
    str::from_utf8(bytes.as_slice()).unwrap_or("?")
}

/// Writes a code, a line and what else a warning says.
fn write_warning(out: &mut String, warning: &Warning) -> Result<(), AllocError> {
    let line = warning.line;
    match &warning.kind {
        WarningKind::UnusedStore { store } => write_name(out, "W01", line, store),
        WarningKind::MarkNeverSought { mark } => write_name(out, "W02", line, mark),
        WarningKind::MarkNeverPut { mark } => write_name(out, "W03", line, mark),
        WarningKind::GroupNeverEntered { group } => write_name(out, "W04", line, group),
        WarningKind::OptionNeverAsked { option } => write_name(out, "W08", line, option),
        WarningKind::ContradictoryConditions => write!(out, "W09 {line}"),
        WarningKind::OptionNeverSet { option } => write_name(out, "W10", line, option),
        WarningKind::SavedNeverSet { option } => write_name(out, "W12", line, option),
        WarningKind::KeyNeverPressed => write!(out, "W13 {line}"),
        WarningKind::PatternWithoutElements { store } => write_name(out, "W14", line, store),
        WarningKind::KeyGivesTheSame => write!(out, "W15 {line}"),
        WarningKind::SecondSystemStore => write!(out, "W16 {line}"),
        WarningKind::ValueNeverSet { option, value } => write_value(out, line, option, value),
        other => write_sizes(out, line, other),
    }
}

/// Writes a warning of two stores.
fn write_sizes(out: &mut String, line: u32, kind: &WarningKind) -> Result<(), AllocError> {
    match kind {
        WarningKind::ShorterIndex {
            index,
            elements,
            any,
            any_elements,
        } => {
            let (index, any) = (name(index), name(any));
            write!(out, "W05 {line} {index} {elements} {any} {any_elements}")
        }
        WarningKind::RepeatedElement { place, any, index } => {
            let (any, index) = (name(any), name(index));
            write!(out, "W06 {line} {place} {any} {index}")
        }
        WarningKind::LongerIndex { index, any } => {
            let (index, any) = (name(index), name(any));
            write!(out, "W18 {line} {index} {any}")
        }
        WarningKind::KeysNeverPressed { store, count, keys } => {
            let store = name(store);
            write!(out, "W13 {line} {store} {count} {keys}")
        }
        _ => out.push_str("?"),
    }
}

/// Writes a warning of a value.
fn write_value(
    out: &mut String,
    line: u32,
    option: &Seq<u8>,
    value: &Seq<char>,
) -> Result<(), AllocError> {
    write_name(out, "W11", line, option)?;
    out.push(' ')?;
    for c in value.as_slice() {
        out.push(*c)?;
    }
    Ok(())
}

fn write_name(out: &mut String, code: &str, line: u32, bytes: &Seq<u8>) -> Result<(), AllocError> {
    let text = name(bytes);
    write!(out, "{code} {line} {text}")
}

/// Writes warnings with `, ` between them, and `none` for no warnings.
fn write_warnings(out: &mut String, found: &[Warning]) -> Result<(), AllocError> {
    if found.is_empty() {
        return out.push_str("none");
    }
    let mut parting = "";
    for warning in found {
        out.push_str(parting)?;
        write_warning(out, warning)?;
        parting = ", ";
    }
    Ok(())
}

/// Returns the warnings of a source.
fn answer(alloc: Global, source: &[u8]) -> Result<String, Fail> {
    let mut out = String::new(alloc);
    let program = parse(alloc, source)?;
    let aside = aside_words(alloc, source)?;
    let found = warnings(alloc, &program, aside.as_slice())?;
    write_warnings(&mut out, found.as_slice())?;
    Ok(out)
}

/// Returns whether a row has the warnings of its source, and no others.
fn is_warned(alloc: Global, row: &str) -> Result<bool, Fail> {
    let (text, wanted) = parted(row)?;
    let mut source = String::from_str(alloc, KEYBOARD)?;
    source.push_str(source_of(alloc, text)?.as_str())?;
    Ok(answer(alloc, source.as_bytes())?.as_str() == wanted)
}

#[test]
fn warnings_of_sources(rt: HostRuntime) -> Result<(), Fail> {
    for row in WARNINGS.lines().filter(is_row) {
        assert!(rt; is_warned(rt.alloc(), row)?, "{row}");
    }
    Ok(())
}
