//! Writes the lines of a transcript, each with its LF.
//!
//! If an allocation fails, no line is returned. The content of a string to which a part was being appended is then unspecified,
//! since the kit's `write!` does not specify it: the caller drops such a string.

ghost use Rattle.std.specs.Prelude.{◌≡◌, ◌++◌, map, codes, IfOk, if◌then◌else◌};
ghost use Rattle.std.specs.String.{string_bytes};
ghost use Rattle.rule_model.specs.Lines.{event_line, counts_text, text_line, end_line, hexadecimal, item_text, joined};
ghost use Rattle.rule_model.specs.Transcript.{element_text, value_line, expect_line, refused_event_line};

use kmn_base::{Code, Element, Item, Memory, Outcome, Seq, Text};
use std::alloc::{AllocError, Global};

/// Returns the line of an event: its number, what it did, what it inserted and the cached context after it.
#[tactic(auto, unfolding(rule_model::specs::Lines::event_line))]
pub fn line_of(
    alloc: Global,
    number: u32,
    outcome: Outcome,
    inserted: &[char],
    context: &[Item],
) -> Result<Text, Memory>
    ensures { IfOk result (λ line. line ≡ event_line number outcome inserted.now context.now) }
{
    let mut line = String::new(alloc);
    write!(&mut line, "{number} del={} ins=", outcome.delete)?;
    put_characters(&mut line, inserted)?;
    put_counts(&mut line, outcome)?;
    line.push_str(" ctx=")?;
    put_items(&mut line, context)?;
    line.push_str("\n")?;
    Ok(Text::from_string(line))
}

/// Appends items joined by dots, or `-` if there are none.
fn put_items(line: &mut String, items: &[Item]) -> Result<(), AllocError>
    ensures { IfOk result (λ _. string_bytes line.new ≡ string_bytes line.old ++ joined (map item_text items.now)) }
{
    let [first, rest @ ..] = items else {
        return line.push_str("-");
    };
    put_item(line, *first)?;
    for item in rest {
        line.push_str(".")?;
        put_item(line, *item)?;
    }
    Ok(())
}

/// Appends a character as its code point, or a mark (a deadkey in the item list) as `d` and its number.
fn put_item(line: &mut String, item: Item) -> Result<(), AllocError>
    ensures { IfOk result (λ _. string_bytes line.new ≡ string_bytes line.old ++ item_text item) }
{
    match item {
        Item::Char(c) => put_code(line, c as u32),
        Item::Mark(mark) => write!(line, "d{mark}"),
    }
}

/// Appends a code in at least four hexadecimal digits.
#[tactic(auto, using(crate::proofs::Hexadecimal::padded_hexadecimal))]
fn put_code(line: &mut String, code: u32) -> Result<(), AllocError>
    ensures { IfOk result (λ _. string_bytes line.new ≡ string_bytes line.old ++ hexadecimal code) }
{
    write!(line, "{code:04X}")
}

/// Appends whether the key was passed on, the number of beeps and the number of groups entered. If an allocation fails, the
/// content of the line is unspecified.
pub fn put_counts(line: &mut String, outcome: Outcome) -> Result<(), AllocError>
    ensures { IfOk result (λ _. string_bytes line.new ≡ string_bytes line.old ++ counts_text outcome) }
{
    let pass = digit(outcome.pass);
    write!(
        line,
        " pass={pass} beep={} ent={}",
        outcome.beeps, outcome.entered
    )
}

/// Returns a truth value as 1 or 0.
fn digit(value: bool) -> &'static str
    ensures { result.now ≡ (if value then codes "1" else codes "0") }
{
    if value { "1" } else { "0" }
}

/// Returns the line of an option's new value, either its saved value or its current value. The name is printed unchanged.
pub fn value_line(
    alloc: Global,
    saved: bool,
    name: &[u8],
    value: &[Element],
) -> Result<Text, Memory>
    ensures { IfOk result (λ line. line ≡ value_line saved name.now value.now) }
{
    let mut line = Seq::from_slice(alloc, value_word(saved))?;
    line.extend_from_slice(name)?;
    let mut elements = String::from_str(alloc, " ")?;
    put_elements(&mut elements, value)?;
    elements.push_str("\n")?;
    line.extend_from_slice(elements.as_bytes())?;
    Ok(line)
}

/// Returns the beginning of the line of a value.
fn value_word(saved: bool) -> &'static [u8]
    ensures { result.now ≡ (if saved then codes "save " else codes "opt ") }
{
    if saved { b"save " } else { b"opt " }
}

/// Appends elements joined by dots, or `-` if there are none.
fn put_elements(line: &mut String, elements: &[Element]) -> Result<(), AllocError>
    ensures { IfOk result (λ _. string_bytes line.new ≡ string_bytes line.old ++ joined (map element_text elements.now)) }
{
    let [first, rest @ ..] = elements else {
        return line.push_str("-");
    };
    put_element(line, *first)?;
    for element in rest {
        line.push_str(".")?;
        put_element(line, *element)?;
    }
    Ok(())
}

/// Appends a character as its code point, a mark as `d` and its number, or a virtual key as `k` and its code.
fn put_element(line: &mut String, element: Element) -> Result<(), AllocError>
    ensures { IfOk result (λ _. string_bytes line.new ≡ string_bytes line.old ++ element_text element) }
{
    match element {
        Element::Char(c) => put_code(line, c as u32),
        Element::Mark(mark) => write!(line, "d{mark}"),
        Element::Key { code, .. } => put_key(line, code),
    }
}

/// Appends a virtual key as `k` and its code.
fn put_key(line: &mut String, code: u16) -> Result<(), AllocError>
    ensures { IfOk result (λ _. string_bytes line.new ≡ string_bytes line.old ++ (codes "k" ++ hexadecimal code)) }
{
    line.push_str("k")?;
    put_code(line, u32::from(code))
}

/// Returns the line for an expected text that differs, with its line in the script.
pub fn expect_line(alloc: Global, line: u32) -> Result<Text, Memory>
    ensures { IfOk result (λ text. text ≡ expect_line line) }
{
    Ok(Text::from_string(format!(in alloc; "expect failed line={line}\n")?))
}

/// Returns the line of a refused event.
pub fn refused_event_line(alloc: Global, number: u32, code: Code) -> Result<Text, Memory>
    ensures { IfOk result (λ line. line ≡ refused_event_line number code) }
{
    let mut line = Seq::from_slice(alloc, b"refused ")?;
    line.extend_from_slice(code.text())?;
    let rest = format!(in alloc; " event {number}\n")?;
    line.extend_from_slice(rest.as_bytes())?;
    Ok(line)
}

/// Returns the line of the text before the caret and the text after it.
#[tactic(auto, unfolding(rule_model::specs::Lines::text_line))]
pub fn text_line(alloc: Global, left: &[char], right: &[char]) -> Result<Text, Memory>
    ensures { IfOk result (λ line. line ≡ text_line left.now right.now) }
{
    let mut line = String::from_str(alloc, "text ")?;
    put_characters(&mut line, left)?;
    line.push_str("|")?;
    put_characters(&mut line, right)?;
    line.push_str("\n")?;
    Ok(Text::from_string(line))
}

/// Returns the last line: the number of events and the number of expected texts that differed.
#[tactic(auto, unfolding(rule_model::specs::Lines::end_line))]
pub fn end_line(alloc: Global, events: usize, failed: usize) -> Result<Text, Memory>
    ensures { IfOk result (λ line. line ≡ end_line events failed) }
{
    Ok(Text::from_string(format!(in alloc; "end events={events} failed={failed}\n")?))
}

/// Appends characters as code points joined by dots, or `-` if there are none. If an allocation fails, the content of the line
/// is unspecified: it may have the first of them.
pub fn put_characters(line: &mut String, characters: &[char]) -> Result<(), AllocError>
    ensures { IfOk result (λ _. string_bytes line.new ≡ string_bytes line.old ++ joined (map hexadecimal characters.now)) }
{
    let [first, rest @ ..] = characters else {
        return line.push_str("-");
    };
    put_code(line, *first as u32)?;
    for c in rest {
        line.push_str(".")?;
        put_code(line, *c as u32)?;
    }
    Ok(())
}
