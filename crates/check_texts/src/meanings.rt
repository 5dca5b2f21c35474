//! What each code of an input means, in a few words. They are the headings of `docs/CODES.md`.

ghost use Rattle.std.specs.Prelude.{◌≡◌, ◌++◌, OnOk};
ghost use Rattle.check_texts.specs.Meanings.{layout_meaning, meaning, program_meaning, script_meaning, statement_meaning, token_meaning};

use kmn_base::{Code, Memory, Text};

/// Appends the meaning of a code.
///
/// Errors: `Memory` if an allocation fails.
#[tactic(auto, unfolding(crate::specs::Meanings::meaning))]
pub fn put_meaning(line: &mut Text, code: Code) -> Result<(), Memory>
    ensures { OnOk result (line.new ≡ line.old ++ meaning code) }
{
    line.extend_from_slice(token_meaning(code).as_bytes())?;
    line.extend_from_slice(statement_meaning(code).as_bytes())?;
    line.extend_from_slice(program_meaning(code).as_bytes())?;
    line.extend_from_slice(script_meaning(code).as_bytes())?;
    line.extend_from_slice(layout_meaning(code).as_bytes())
}

/// Returns the meaning of a code of a source, a line or a token, and no text for other codes.
fn token_meaning(code: Code) -> &'static str
    ensures { result.now ≡ token_meaning code }
{
    match code {
        Code::L01 => "a source that is not UTF-8",
        Code::L02 => "a character that no keyboard can have",
        Code::L03 => "a quote that is not closed",
        Code::L04 => "a number that is no character",
        Code::L05 => "a source that is too long",
        _ => "",
    }
}

/// Returns the meaning of a code of a statement, and no text for other codes.
fn statement_meaning(code: Code) -> &'static str
    ensures { result.now ≡ statement_meaning code }
{
    match code {
        Code::S01 => "a line that is no statement",
        Code::S02 => "parentheses that are not as they should be",
        Code::S03 => "a rule before the first group",
        Code::S04 => "a statement without its >",
        Code::S05 => "an item that may not stand before the >",
        Code::S06 => "an item that may not stand in an output or a store",
        Code::S07 => "a + in a group without keys",
        Code::S08 => "no + in a group with keys",
        Code::S09 => "a condition behind a pattern",
        Code::S10 => "a second nul",
        Code::S11 => "a bracket that is no virtual key",
        Code::S12 => "a system store that there is not",
        _ => "",
    }
}

/// Returns the meaning of a code of a program, and no text for other codes.
fn program_meaning(code: Code) -> &'static str
    ensures { result.now ≡ program_meaning code }
{
    match code {
        Code::C01 => "no begin Unicode",
        Code::C02 => "a second begin of its kind",
        Code::C03 => "a store stated twice",
        Code::C04 => "a group stated twice",
        Code::C05 => "a store that is not stated",
        Code::C06 => "a group that is not stated",
        Code::C07 => "a store that is put before it is stated",
        Code::C08 => "an offset that points nowhere",
        Code::C09 => "an index that does not point at any",
        Code::C10 => "a key that no key press can give",
        Code::C11 => "a call",
        Code::C12 => "something that is left out",
        Code::C13 => "an option store in the wrong place",
        Code::C14 => "a store whose elements must be characters",
        Code::C15 => "a second match or nomatch",
        Code::C16 => "a context that is too long",
        Code::C17 => "an output that is too long",
        Code::C18 => "too many elements",
        Code::C19 => "too many stores",
        Code::C20 => "too many groups",
        Code::C21 => "too many deadkeys",
        Code::C22 => "too many key records",
        Code::C23 => "a file that is too long",
        Code::C24 => "a picture that is too long",
        Code::C25 => "a cased key that is none",
        _ => "",
    }
}

/// Returns the meaning of a code of a script, and no text for other codes.
fn script_meaning(code: Code) -> &'static str
    ensures { result.now ≡ script_meaning code }
{
    match code {
        Code::P01 => "a script that is not UTF-8",
        Code::P02 => "a line that no script has",
        Code::P03 => "a bracket that is no key press",
        Code::P04 => "a text or name that is missing",
        Code::P05 => "a number that is missing",
        Code::P06 => "a script that is too long",
        Code::P07 => "too many events",
        Code::P08 => "more on a line that is complete",
        _ => "",
    }
}

/// Returns the meaning of a code of a touch layout, and no text for other codes.
fn layout_meaning(code: Code) -> &'static str
    ensures { result.now ≡ layout_meaning code }
{
    match code {
        Code::T1 => "a layout that is no JSON",
        Code::T2 => "a layout of another shape",
        Code::T3 => "an id that no key has",
        Code::T4 => "a layer that is not there",
        Code::T5 => "a key that does nothing",
        Code::T6 => "two layers of one id",
        Code::T7 => "a layout that is too long",
        _ => "",
    }
}
