//! What is printed of a wrong word after the names that it may mean: how this language says what the word says elsewhere.

ghost use Rattle.std.specs.Prelude.{◌≡◌, ◌++◌, OnOk};
ghost use Rattle.check_texts.specs.Advice.{advice_text, byte_at, detail_advice, is_comment_mark, is_other_blank, is_other_quote, is_range, marked_advice, other_advice, word_advice};

use crate::advice_rows::{
    advice_or, context_advice, key_advice, left_out_advice, name_advice, number_advice,
    output_advice, statement_advice, system_advice,
};
use kmn_base::{Code, Memory, Text};
use refusal_details::Detail;

/// Appends the advice for the detail of a refusal with a code, if there is any.
///
/// Errors: `Memory` if an allocation fails.
#[tactic(auto, unfolding(crate::specs::Advice::detail_advice))]
pub fn put_advice(text: &mut Text, code: Code, detail: &Detail) -> Result<(), Memory>
    ensures { OnOk result (text.new ≡ text.old ++ detail_advice code detail.now) }
{
    match detail {
        Detail::Word { word, .. } => put_advice_text(text, word_advice(code, word.as_slice())),
        _ => Ok(()),
    }
}

/// Appends an advice after a semicolon, unless it is empty.
#[tactic(auto, unfolding(crate::specs::Advice::advice_text))]
fn put_advice_text(text: &mut Text, advice: &str) -> Result<(), Memory>
    ensures { OnOk result (text.new ≡ text.old ++ advice_text advice.now) }
{
    if advice.is_empty() {
        return Ok(());
    }
    text.extend_from_slice(b"; ")?;
    text.extend_from_slice(advice.as_bytes())
}

/// Returns the advice for a word with which a line is refused, by the code.
#[tactic(auto, unfolding(crate::specs::Advice::word_advice))]
fn word_advice(code: Code, word: &[u8]) -> &'static str
    ensures { result.now ≡ word_advice code word.now }
{
    match code {
        Code::L04 => number_advice(word),
        Code::S01 => advice_or(statement_advice(word), other_advice(word)),
        Code::S05 => advice_or(context_advice(word), other_advice(word)),
        Code::S06 => advice_or(output_advice(word), other_advice(word)),
        Code::S11 => key_advice(word),
        Code::S12 => system_advice(word),
        Code::C05 => name_advice(word),
        Code::C12 => left_out_advice(word),
        _ => "",
    }
}

/// Returns the advice for a word that begins like a word of another language.
fn other_advice(word: &[u8]) -> &'static str
    ensures { result.now ≡ other_advice word.now }
{
    marked_advice(byte_at(word, 0), byte_at(word, 1), byte_at(word, 2))
}

/// Returns the byte at an index, or 0.
fn byte_at(text: &[u8], at: usize) -> u8
    ensures { result ≡ byte_at text.now at }
{
    text.get(at).copied().unwrap_or(0)
}

/// Returns the advice for a word by its first three bytes.
#[tactic(auto, unfolding(crate::specs::Advice::marked_advice))]
fn marked_advice(first: u8, second: u8, third: u8) -> &'static str
    ensures { result.now ≡ marked_advice first second third }
{
    if is_comment_mark(first, second) {
        "a comment begins with the letter c and a space"
    } else if is_other_quote(first, second, third) {
        "a text has straight quotes"
    } else if is_other_blank(first, second, third) {
        "only spaces and tabs are blanks"
    } else if is_range(first, second) {
        "a range is written out, each character or key by itself"
    } else {
        ""
    }
}

/// Returns whether a word with these first bytes begins with a mark of comments in other languages.
#[tactic(auto, unfolding(crate::specs::Advice::is_comment_mark))]
fn is_comment_mark(first: u8, second: u8) -> bool
    ensures { result ≡ is_comment_mark first second }
{
    first == b'#' || (first == b'/' && (second == b'/' || second == b'*'))
}

/// Returns whether a word with these first bytes begins with a quote that is not straight.
#[tactic(auto, unfolding(crate::specs::Advice::is_other_quote))]
fn is_other_quote(first: u8, second: u8, third: u8) -> bool
    ensures { result ≡ is_other_quote first second third }
{
    (first == 0xC2 && (second == 0xAB || second == 0xBB))
        || (first == 0xE2
            && second == 0x80
            && ((0x98 <= third && third <= 0x9F) || third == 0xB9 || third == 0xBA))
}

/// Returns whether a word with these first bytes begins with another blank than a space.
#[tactic(auto, unfolding(crate::specs::Advice::is_other_blank))]
fn is_other_blank(first: u8, second: u8, third: u8) -> bool
    ensures { result ≡ is_other_blank first second third }
{
    (first == 0xC2 && second == 0xA0)
        || (first == 0xE2 && second == 0x80 && ((0x80 <= third && third <= 0x8A) || third == 0xAF))
        || (first == 0xE3 && second == 0x80 && third == 0x80)
}

/// Returns whether a word with these first bytes begins with two dots, the sign of a range.
#[tactic(auto, unfolding(crate::specs::Advice::is_range))]
fn is_range(first: u8, second: u8) -> bool
    ensures { result ≡ is_range first second }
{
    first == b'.' && second == b'.'
}
