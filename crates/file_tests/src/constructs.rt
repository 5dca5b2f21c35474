//! What Keyman's own engine treats differently in small keyboards. The rows were derived from its source, and most were measured on it.

use compile_tests::fixtures::compiled;
use core_constructs::{
    Construct, Difference, FileConstruct, GroupConstruct, GroupDifference, Told, told,
};
use kmx_verifier::verify;
use source_tests::fixtures::{parted, source_of};
use std::alloc::{AllocError, Global};
use std::test::Fail;

/// Each line has a source, as `source_of` reads it, and, after ` ⇒ `, what is told of it, separated by commas: a line with its words, a
/// group with a word, or a word for the file.
const TOLD: &str = "\
§+ 'a' > layer('caps')¶if(&layer = 'caps') + 'b' > 'B' ⇒ 3 layer,4 layer
§if(&layer != 'caps') + 'a' > 'x' ⇒ 3 layer
§layer('default') + 'a' > 'x' ⇒ 3 layer
§+ 'a' > 'x' layer('shift') ⇒ 3 layer
§+ 'a' > use(t)¶group(t)¶'q' > 'r'¶nomatch > 'n' layer('shift') ⇒ group 1 layer
§platform('windows') + 'a' > 'x'¶platform('NATIVE Windows') + 'b' > 'y' ⇒ 
§platform(' windows') + 'a' > 'x' ⇒ 3 platform
§if(&platform != 'touch ') + 'a' > 'x'¶if(&platform != 'native ') + 'b' > 'y' ⇒ 3 platform,4 platform
§platform('windows   native') + 'a' > 'x' ⇒ 
§platform(' ') + 'a' > 'x' ⇒ 3 platform
§+ [CTRL RALT K_A] > 'x' ⇒ 3 sides
§+ [LCTRL ALT K_A] > 'x' ⇒ 3 sides
§+ [LCTRL LALT K_A] > 'x'¶+ [RCTRL RALT K_A] > 'y' ⇒ 
§+ [LCTRL RALT K_A] > 'x' ⇒ 3 right
§+ [SHIFT LCTRL RALT K_A] > 'x' ⇒ 
§+ [CAPS LCTRL RALT K_A] > 'x' ⇒ 3 right
§+ [CTRL K_A] > 'x' ⇒ file both
§+ [LCTRL RCTRL K_A] > 'x' ⇒ file both
§+ [RALT K_A] > 'x' ⇒ 
§+ 'a' > 'x'¶nomatch > 'n' ⇒ group 0 nomatch
§+ 'a' > 'x'¶nomatch > nul ⇒ group 0 nomatch
begin Unicode > use(main)¶group(main)¶'q' > 'r'¶nomatch > 'n' ⇒ 
§'a' + [U_00E1] > 'X' ⇒ file own
§'a' + [T_x] > 'X' ⇒ file own
§+ '5' > 'x'¶+ '+' > 'y' ⇒ 3 keypad,4 keypad
§+ [K_NP5] > 'x' ⇒ 
§+ 'r' > return¶+ 'a' > use(t) 'x'¶group(t)¶'q' > 'r' ⇒ 4 use
§+ 'r' > return¶+ 'a' > 'x' use(t) nul¶group(t)¶'x' > 'y' ⇒ 
§+ 'r' > return¶+ 'a' > 'x' use(t) return¶match > 'm'¶group(t)¶'x' > 'y' ⇒ 
§+ 'a' > use(t) return 'x'¶group(t)¶'q' > 'r' ⇒ 
§+ 'a' > 'x' use(t) use(u)¶group(t)¶'x' > 'y'¶group(u)¶'y' > 'z' ⇒ 3 use
§+ 'a' > 'x' use(t)¶match > 'm'¶group(t)¶'x' > 'y' ⇒ 3 match
§+ 'a' > 'x' use(t)¶match > nul¶group(t)¶'x' > 'y' ⇒ 
§+ 'a' > 'x' use(t)¶match > return¶group(t)¶'x' > 'y' ⇒ 
§+ 'r' > return¶+ 'a' > 'x'¶match > use(t) 'm'¶group(t)¶'x' > 'y' ⇒ group 0 use
§+ 'a' > 'x'¶match > use(t)¶group(t)¶'x' > 'y' ⇒ 
§+ 'a' > 'x'¶group(t)¶'x' > use(u) 'y'¶ > 'n'¶group(u)¶'p' > 'q' ⇒ 
§store(o) '1'¶nul if(o = '1') + 'c' > 'd'¶+ 'x' > set(o = '1') ⇒ 
§store(o) '1'¶store(v) 'ab'¶if(o = '1') any(v) context(2) + 'x' > 'y'¶+ 'z' > set(o = '1') ⇒ 5 offset
§store(v) 'ab'¶any(v) context(1) + 'x' > 'y' ⇒ 
§store(o) '1'¶if(o = '1') 'a' 'b' + 'x' > context(3) context(2)¶+ 'z' > set(o = '1') ⇒ 
§store(v) 'ab'¶store(w) 'xy'¶nul any(v) + 'i' > index(w, 2) ⇒ 5 offset
§store(o) '1'¶store(v) 'ab'¶store(w) 'xy'¶if(o = '1') any(v) + 'i' > index(w, 2)¶+ 'z' > set(o = '1') ⇒ 
§nul 'a' + 'b' > context 'x' ⇒ 
§+ 'a' > 'x' use(t)¶group(t)¶'q' > 'r'¶ > 'n'¶match > 'm' ⇒ 6 empty
§+ 'd' > dk(1)¶dk(1) dk(1) dk(1) dk(1) dk(1) dk(1) dk(1) dk(1) dk(1) dk(1) dk(1) dk(1) dk(1) dk(1) dk(1) dk(1) dk(1) dk(1) dk(1) dk(1) dk(1) + 'x' > 'y' ⇒ file marks
§+ 'd' > dk(1)¶dk(1) dk(1) dk(1) dk(1) dk(1) dk(1) dk(1) dk(1) dk(1) dk(1) dk(1) dk(1) dk(1) dk(1) dk(1) dk(1) dk(1) dk(1) dk(1) dk(1) dk(1) dk(1) + 'x' > 'y' ⇒ 4 long,file marks
§store(o) '0'¶+ 's' > set(o = '1') save(o) set(o = '2')¶+ 'r' > reset(o)¶if(o = '1') + 'a' > 'x' ⇒ 4 save
§store(o) '0'¶+ 's' > set(o = '1') save(o) reset(o)¶if(o = '1') + 'a' > 'x' ⇒ 4 save
§store(o) '0'¶+ 's' > set(o = '1') save(o)¶+ 't' > set(o = '2')¶+ 'r' > reset(o)¶if(o = '1') + 'a' > 'x' ⇒ 
§store(o) '0'¶+ 's' > set(o = '1') save(o) use(t)¶+ 'r' > reset(o)¶if(o = '1') + 'a' > 'x'¶group(t)¶nomatch > set(o = '2') ⇒ 4 save
§store(o) '0'¶+ 's' > set(o = '1') save(o)¶if(o = '1') + 'a' > 'x' return¶+ 'r' > reset(o) return¶match > set(o = '2') ⇒ 4 save
§store(o) '0'¶store(p) '0'¶+ 's' > set(o = '1') save(o) set(p = '2')¶+ 'r' > reset(o)¶if(o = '1') + 'a' > 'x' ⇒ 
§+ 'q' > dk(1)¶dk(1) + 'a' > 'x' ⇒ file marks
§+ 'q' > 'z' dk(1)¶dk(1) + 'a' > 'x' ⇒ file marks
§+ 'q' > dk(1) dk(1) dk(1) dk(1) dk(1) dk(1) dk(1) dk(1) dk(1) dk(1) dk(1) dk(1) dk(1) dk(1) dk(1) dk(1) dk(1) dk(1) dk(1) dk(1) dk(1) dk(1) ⇒ file marks
§'aaaaaaaaaaaaaaaaaaaaaaaaaaaaaaaaaaaaaaaaaaaaaaaaaaaaaaaaaaaa' + 'x' > 'y' ⇒ 
§'😀😀😀😀😀😀😀😀😀😀😀😀😀😀😀😀😀😀😀😀😀😀😀😀😀😀😀😀😀😀😀' + 'x' > 'y'¶'😀😀😀😀😀😀😀😀😀😀😀😀😀😀😀😀😀😀😀😀😀😀😀😀😀😀😀😀😀😀😀😀' + 'x' > 'y' ⇒ 4 long
§nul '😀😀😀😀😀😀😀😀😀😀😀😀😀😀😀😀😀😀😀😀😀😀😀😀😀😀😀😀😀😀' + 'x' > 'y'¶nul '😀😀😀😀😀😀😀😀😀😀😀😀😀😀😀😀😀😀😀😀😀😀😀😀😀😀😀😀😀😀😀' + 'x' > 'y' ⇒ 4 long
§'aaaaaaaaaaaaaaaaaaaaaaaaaaaaaaaaaaaaaaaa' + 'b' > use(t)¶group(t)¶'aaaaaaaaaaaaaaaaaaaaaaaaaaaaaa' > 'Y'¶nomatch > 'n' ⇒ 5 long
§'aaaaaaaaaaaaaaaaaaaaaaaaaaaaaaaaaaaaaaaaaaaaaaaaaaaaaaaaaaa' + 'b' > use(t)¶group(t)¶nul 'aa' > 'Y'¶nomatch > 'n' ⇒ 
§'aaaaaaaaaaaaaaaaaaaaaaaaaaaaaaaaaaaaaaaaaaaaaaaaaaaaaaaaaaaa' + 'b' > use(t)¶group(t)¶nul 'aaa' > 'Y'¶nomatch > 'n' ⇒ 5 long
§+ 'a' > 'x' use(main) ⇒ file budget";

/// Returns the word of a construct of a record.
fn line_word(construct: Construct) -> &'static str {
    match construct {
        Construct::Use => "use",
        Construct::Match => "match",
        Construct::Nul => "nul",
        Construct::Offset => "offset",
        Construct::Empty => "empty",
        Construct::Sides => "sides",
        Construct::Right => "right",
        Construct::Long => "long",
        Construct::Layer => "layer",
        Construct::Platform => "platform",
        Construct::Save => "save",
        Construct::Keypad => "keypad",
        Construct::Value => "value",
    }
}

/// Returns the word of a construct of a group.
fn group_word(construct: GroupConstruct) -> &'static str {
    match construct {
        GroupConstruct::Use => "use",
        GroupConstruct::Save => "save",
        GroupConstruct::Layer => "layer",
        GroupConstruct::Nomatch => "nomatch",
    }
}

/// Returns the word of a construct of a file.
fn file_word(construct: FileConstruct) -> &'static str {
    match construct {
        FileConstruct::Marks => "marks",
        FileConstruct::Own => "own",
        FileConstruct::Both => "both",
        FileConstruct::Budget => "budget",
        FileConstruct::Caps => "caps",
        FileConstruct::Names => "names",
    }
}

/// Appends a line of the source and its words.
fn put_line(text: &mut String, alloc: Global, difference: &Difference) -> Result<(), AllocError> {
    text.push_str(format!(in alloc; "{}", difference.line)?.as_str())?;
    for construct in difference.constructs.as_slice() {
        text.push_str(" ")?;
        text.push_str(line_word(*construct))?;
    }
    text.push_str(",")
}

/// Appends a group and its word.
fn put_group(text: &mut String, alloc: Global, told: &GroupDifference) -> Result<(), AllocError> {
    let word = group_word(told.construct);
    text.push_str(format!(in alloc; "group {} {word},", told.group)?.as_str())
}

/// Returns all that is told, each followed by a comma.
pub fn told_text(alloc: Global, told: &Told) -> Result<String, AllocError> {
    let mut text = String::new(alloc);
    for difference in told.lines.as_slice() {
        put_line(&mut text, alloc, difference)?;
    }
    for difference in told.groups.as_slice() {
        put_group(&mut text, alloc, difference)?;
    }
    for construct in told.file.as_slice() {
        text.push_str("file ")?;
        text.push_str(file_word(*construct))?;
        text.push_str(",")?;
    }
    Ok(text)
}

/// Returns whether the row's keyboard is told as the row says.
fn is_told(alloc: Global, row: &str) -> Result<bool, Fail> {
    let (lines, wanted) = parted(row)?;
    let bytes = compiled(alloc, source_of(alloc, lines)?.as_str())?;
    let file = verify(alloc, bytes.as_slice())?;
    let told = told(alloc, 0, &file.copied_tables(alloc)?)?;
    let text = told_text(alloc, &told)?;
    Ok(text.as_str().strip_suffix(",").unwrap_or("") == wanted)
}

#[test]
fn told_keyboards(rt: HostRuntime) -> Result<(), Fail> {
    for row in TOLD.lines() {
        assert!(rt; is_told(rt.alloc(), row)?, "{row}");
    }
    Ok(())
}
