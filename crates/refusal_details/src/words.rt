//! The word of a line that is wrong.

ghost use Rattle.std.specs.Prelude.{◌≡◌, ◌<◌, ◌^◌, ◌≤◌, length, IfOk};
ghost use Rattle.kmn_base.specs.declared.limits.TheConstants.{TEXT_BYTES};
ghost use Rattle.kmn_items.specs.TokenTexts.{texts, with_texts};
ghost use Rattle.kmn_lines.specs.Lines.{logicals};
ghost use Rattle.kmn_lines.specs.Places.{IsPlaced};
ghost use Rattle.refusal_details.specs.Words.{is_general, is_wrong, kept_word, line_text, source_text, statement_text, stop_text, text_among, tokens_text, worded, wrong_text};

use crate::detail::Detail;
use crate::faulty::fault_text;
use crate::left_out::{called, left_out, statement_left_out};
use kmn_base::names::same_name;
use kmn_base::{Code, CompileError, Memory, Seq, Text};
use kmn_items::LineTokens;
use kmn_lines::{Logical, Token, lines};
use kmn_tokens::tokens;
use refusal_places::stop_place;
use std::alloc::Global;

/// Which token of a refused line is wrong.
#[derive(Clone, Copy)]
pub(crate) enum WrongToken {
    /// The one at which reading the line stops.
    Stop,
    /// The word of a statement that only the language of Keyman Developer has, else the one at which reading the line stops.
    Statement,
    /// The name of a `call`.
    CallName,
    /// The one that is not supported.
    LeftOut,
}

/// Returns a word with the names that it may mean, or nothing for an empty word.
#[tactic(auto, unfolding(crate::specs::Words::worded))]
pub(crate) fn worded(word: Text, near: Seq<Text>) -> Detail
    ensures { result ≡ worded word near }
{
    if word.is_empty() {
        Detail::Nothing
    } else {
        Detail::Word { word, near }
    }
}

/// Returns the text of the token that is wrong in the line with a number, for a refusal of the line with this code. The text is empty if
/// there is no such token, or if it says no more than the code. Errors: `Memory` if an allocation fails.
#[tactic(auto, unfolding(crate::specs::Words::source_text))]
pub(crate) fn source_text(
    alloc: Global,
    source: &str,
    number: u32,
    code: Code,
    wrong: WrongToken,
) -> Result<Text, Memory>
    requires { length source.now ≤ TEXT_BYTES }
    ensures { IfOk result (λ text. text ≡ source_text source.now number code wrong) }
{
    text_among(alloc, source, number, code, wrong)
}

/// Returns the text of the token that is wrong in the line with a number.
#[tactic(auto, using(kmn_parser::proofs::LineLemmas::by_recursion))]
fn text_among(
    alloc: Global,
    source: &str,
    number: u32,
    code: Code,
    wrong: WrongToken,
) -> Result<Text, Memory>
    requires { length source.now ≤ TEXT_BYTES }
    ensures { IfOk result (λ text. text ≡ text_among source.now number code wrong (logicals source.now)) }
{
    for logical in lines(source) {
        if logical.first_line == number {
            return line_text(alloc, source, logical, code, wrong);
        }
    }
    Ok(Seq::new(alloc))
}

/// Returns the text of the token that is wrong in a logical line.
fn line_text(
    alloc: Global,
    source: &str,
    logical: Logical,
    code: Code,
    wrong: WrongToken,
) -> Result<Text, Memory>
    requires few { length source.now ≤ TEXT_BYTES }
    requires placed { IsPlaced source.now logical }
    ensures { IfOk result (λ text. text ≡ line_text source.now logical code wrong) }
{
    match tokens(alloc, source, logical) {
        Ok(tokens) => tokens_text(
            alloc,
            source.as_bytes(),
            logical.first_line,
            code,
            wrong,
            tokens.as_slice(),
        ),
        Err(CompileError::Refused(_)) => Seq::from_slice(alloc, fault_text(source, logical)),
        Err(_) => Err(Memory),
    }
}

/// Returns the text of the token that is wrong, among the tokens of a line.
#[tactic(auto, unfolding(crate::specs::Words::tokens_text))]
fn tokens_text(
    alloc: Global,
    source: &[u8],
    line: u32,
    code: Code,
    wrong: WrongToken,
    tokens: &[Token],
) -> Result<Text, Memory>
    requires { length tokens.now < 2 ^ 59 }
    ensures { IfOk result (λ text. text ≡ tokens_text line code wrong (with_texts source.now tokens.now)) }
{
    match wrong {
        WrongToken::Stop => stop_text(alloc, source, line, code, tokens),
        WrongToken::Statement => statement_text(alloc, source, line, code, tokens),
        WrongToken::CallName => Seq::from_slice(alloc, called(LineTokens { source, tokens })),
        WrongToken::LeftOut => Seq::from_slice(alloc, left_out(LineTokens { source, tokens })),
    }
}

/// Returns the word of a statement that only the language of Keyman Developer has, or the text of the token at which reading the line stops.
#[tactic(auto, unfolding(crate::specs::Words::statement_text))]
fn statement_text(
    alloc: Global,
    source: &[u8],
    line: u32,
    code: Code,
    tokens: &[Token],
) -> Result<Text, Memory>
    requires { length tokens.now < 2 ^ 59 }
    ensures { IfOk result (λ text. text ≡ statement_text line code (with_texts source.now tokens.now)) }
{
    let word = statement_left_out(LineTokens { source, tokens });
    if word.is_empty() {
        stop_text(alloc, source, line, code, tokens)
    } else {
        Seq::from_slice(alloc, word)
    }
}

/// Returns the text of the token at which reading a line stops, among the tokens of the line.
#[tactic(auto, unfolding(crate::specs::Words::stop_text))]
fn stop_text(
    alloc: Global,
    source: &[u8],
    line: u32,
    code: Code,
    tokens: &[Token],
) -> Result<Text, Memory>
    requires { length tokens.now < 2 ^ 59 }
    ensures { IfOk result (λ text. text ≡ stop_text line code (with_texts source.now tokens.now)) }
{
    let line_tokens = LineTokens { source, tokens };
    let place = stop_place(alloc, line, code, line_tokens)?;
    wrong_text(alloc, code, place, line_tokens)
}

/// Returns the text of the token at an index, or no text if it is not wrong or says no more than the code.
fn wrong_text(
    alloc: Global,
    code: Code,
    place: usize,
    tokens: LineTokens<'_>,
) -> Result<Text, Memory>
    ensures { IfOk result (λ text. text ≡ wrong_text code place (texts tokens.entry)) }
{
    if !is_wrong(code, place) {
        return Ok(Seq::new(alloc));
    }
    let text = tokens.name(alloc, place)?;
    Ok(kept_word(alloc, text))
}

/// Returns the text of a token, or no text if it says no more than the code.
#[tactic(auto, unfolding(crate::specs::Words::kept_word))]
fn kept_word(alloc: Global, text: Text) -> Text
    ensures { result ≡ kept_word text }
{
    if is_general(text.as_slice()) {
        Seq::new(alloc)
    } else {
        text
    }
}

/// Returns whether the text of a token says no more than the code: it is the `>` before which something is missing, or the word of a
/// statement that has another form.
#[tactic(auto, unfolding(crate::specs::Words::is_general))]
fn is_general(text: &[u8]) -> bool
    ensures { result ≡ is_general text.now }
{
    same_name(b">", text)
        || same_name(b"begin", text)
        || same_name(b"group", text)
        || same_name(b"store", text)
}

/// Returns whether the token at which reading a line stops is wrong. An output without items (`S06`) is refused at the first token of its
/// line.
#[tactic(auto, unfolding(crate::specs::Words::is_wrong))]
fn is_wrong(code: Code, place: usize) -> bool
    ensures { result ≡ is_wrong code place }
{
    match code {
        Code::S06 => 0 < place,
        _ => true,
    }
}
