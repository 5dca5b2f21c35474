//! Tests the printed lines of an export: what another engine treats differently, where an event may save twice, and where that engine
//! misreads an item. The rows were derived from the source of that engine, and computed by another program.

use compile_tests::fixtures::compiled;
use export_run::export_run;
use kmn_base::Seq;
use kmn_outside::Folder;
use run_tests::commands::{empty_folder, sink, words};
use source_tests::fixtures::{parted, source_of};
use std::alloc::Global;
use std::str;
use std::test::Fail;

/// Each line contains a source, as `source_of` reads it, and after ` ⇒ ` the lines printed after the size, separated by commas. A
/// `refused` line is the only printed line.
const CASES: &str = "\
§+ 'a' > 'b' ⇒ 
§+ 'a' > use(g)¶match > use(g) 'b'¶group(g) ⇒ differs 3 match,differs group 0 use
§+ 'a' > use(g) 'b'¶group(g) ⇒ differs 3 use
§+ 'a' > use(g) nul¶match > 'b'¶group(g) ⇒ differs 3 match
§+ 'a' > use(g) 'c'¶match > 'b'¶group(g) ⇒ differs 3 use.match
store(o) '1'¶§if(o = '1') nul + 'a' > 'b' ⇒ 
store(o) '1'¶§nul if(o = '1') + 'a' > 'b' ⇒ 
store(v) 'ab'¶§nul any(v) + 'a' > index(v,2)¶any(v) + 'b' > index(v,1) ⇒ differs 4 offset
§nul 'b' + 'a' > context(2) ⇒ differs 3 offset
§nul 'b' context(2) + 'a' > 'c' ⇒ differs 3 offset
§nul 'b' + 'a' > context ⇒ 
§+ 'a' > use(g)¶group(g)¶'' > 'b'¶'c' > 'd' ⇒ 
§+ 'a' > use(g)¶group(g)¶'' > context 'b'¶'c' > 'd' ⇒ differs 5 empty
§+ [CTRL LCTRL K_A] > 'b'¶+ [ALT LCTRL K_A] > 'b'¶+ [ALT RALT K_B] > 'b' ⇒ differs 4 sides,differs file both
§+ [LCTRL RALT K_A] > 'b'¶+ [LCTRL LALT K_A] > 'b'¶+ [CTRL RALT K_A] > 'b' ⇒ differs 3 right,differs 5 sides
§⟨dk(1) ×21⟩+ 'a' > 'b' dk(1)¶⟨dk(1) ×21⟩'b' + 'a' > 'b' ⇒ differs 4 long,differs file marks
§⟨dk(1) ×21⟩+ 'a' > 'b'¶⟨dk(1) ×21⟩'b' + 'a' > 'b' ⇒ 
§⟨U+10000 ×31⟩'b' + 'a' > 'b'¶⟨U+10000 ×32⟩+ 'a' > 'b' ⇒ differs 4 long
store(v) 'a' U+10000¶§⟨any(v) ×31⟩'b' + 'a' > 'b'¶⟨any(v) ×32⟩+ 'a' > 'b' ⇒ differs 5 long
store(k) [K_A] [CTRL LALT K_B]¶§+ any(k) > 'b'¶+ [LCTRL RALT CTRL K_C] > use(g) 'c'¶group(g) ⇒ differs 4 sides,differs 5 use.sides
§layer('caps') + 'a' > 'b'¶+ '5' > layer('shift') ⇒ differs 3 layer,differs 4 layer.keypad
§platform(' windows') + 'a' > 'b' ⇒ differs 3 platform
store(o) '1'¶§+ 'a' > save(o) ⇒ 
store(o) '1'¶§+ 'a' > save(o) reset(o) ⇒ differs 4 save
store(o) '1'¶§+ 'a' > use(g)¶group(g)¶'b' > 'c'¶match > layer('caps')¶nomatch > save(o) reset(o) ⇒ differs group 1 save,differs group 1 layer
§+ 'a' > use(g) 'c' dk(1)¶'b' + [U_00E1] > 'd'¶+ [ALT K_B] > 'b'¶nomatch > use(main)¶group(g)¶'b' > 'c' ⇒ differs 3 use,differs group 0 nomatch,differs file marks,differs file own,differs file both,differs file budget
store(o) '1'¶§+ 'a' > save(o) save(o) ⇒ refused K01 line 4
store(o) '1'¶§+ 'a' > save(o) use(g)¶group(g)¶'b' > save(o) ⇒ refused K01 line 4
store(o) '1'¶§+ 'a' > save(o) use(g)¶group(g)¶'b' > 'c' ⇒ 
store(o) '1'¶§+ 'a' > save(o)¶+ 'b' > 'c'¶match > save(o) ⇒ refused K01 line 4
store(o) '1'¶§+ 'a' > 'b'¶+ 'b' > use(g)¶match > use(g)¶group(g)¶nomatch > save(o) ⇒ refused K01 line 5
store(o) '1'¶§+ 'a' > 'b'¶nomatch > save(o) save(o) ⇒ refused K01 line 4
store(o) '1'¶§+ 'a' > use(main)¶+ 'b' > save(o) ⇒ differs file budget
store(o) '1'¶§+ 'a' > use(main) use(main)¶+ 'b' > save(o) ⇒ refused K01 line 4
store(o) '1'¶§+ 'a' > use(g)¶group(g)¶'b' > use(h)¶group(h)¶'c' > save(o) reset(o) use(h) ⇒ refused K01 line 8
store(o) '1'¶§+ 'a' > save(o) save(o) U+0010 ⇒ refused K01 line 4
§+ 'a' > U+0011 ⇒ 
§+ 'a' > 'b'¶+ 'b' > 'x' U+0010¶+ 'c' > U+0010 ⇒ refused K03 line 4
§'x' U+0010 + 'a' > 'b' ⇒ refused K03 line 3
§+ 'a' > 'b'¶nomatch > U+0010 ⇒ refused K03
store(v) 'b' U+0010¶§any(v) + 'a' > 'b' ⇒ refused K03";

/// Returns the text that a run with the arguments `in out` prints over a folder in which `in` is that file.
fn printed(alloc: Global, file: &[u8]) -> Result<Seq<u8>, Fail> {
    let words = words(alloc, "in out")?;
    let mut folder = empty_folder(alloc, 0, 0)?;
    folder.write(alloc, b"in", file)?;
    let mut sink = sink(alloc, 0)?;
    export_run(alloc, words.as_slice(), &mut folder, &mut sink);
    Ok(Seq::from_slice(alloc, sink.written())?)
}

/// Returns whether the printed lines are the expected ones, without the line with the size.
fn is_printed(printed: &str, wanted: &str) -> bool {
    let behind_size = match printed.split_once("\n") {
        Some((first, rest)) if first.starts_with("exported bytes=") => rest,
        _ => printed,
    };
    let mut lines = behind_size.lines();
    for line in wanted.split(",") {
        if lines.next().unwrap_or("") != line {
            return false;
        }
    }
    lines.next().is_none()
}

/// Returns whether a run on the compiled source of a row prints the row's lines.
fn is_right(alloc: Global, row: &str) -> Result<bool, Fail> {
    let (source, wanted) = parted(row)?;
    let file = compiled(alloc, source_of(alloc, source)?.as_str())?;
    let printed = printed(alloc, file.as_slice())?;
    Ok(is_printed(str::from_utf8(printed.as_slice()).unwrap_or(""), wanted))
}

#[test]
fn keyboards(rt: HostRuntime) -> Result<(), Fail> {
    for row in CASES.lines() {
        assert!(rt; is_right(rt.alloc(), row)?, "{row}");
    }
    Ok(())
}
