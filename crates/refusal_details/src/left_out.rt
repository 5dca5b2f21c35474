//! The word of a line that is not supported.

ghost use Rattle.std.specs.Prelude.{◌≡◌, ◌||◌, [], false};
ghost use Rattle.kmn_items.specs.TokenTexts.{is_open, texts};
ghost use Rattle.refusal_details.specs.LeftOut.{begins_left_out, called, is_arrow, is_bracket_open, is_left_out, is_other_begin, is_other_system, is_readonly, item_left_out, left_out, opened_by, other_begin, readonly_in, statement_left_out};

use kmn_base::names::same_name;
use kmn_items::{LineTokens, is_system_name, text_in};
use kmn_lines::TokenKind;

/// Returns the name of the first `call` of a line, or an empty name.
pub(crate) fn called<'a>(tokens: LineTokens<'a>) -> &'a [u8]
    ensures { result.now ≡ called [] [] (texts tokens.entry) }
{
    let LineTokens {
        source,
        tokens: all,
    } = tokens;
    let mut previous: &[u8] = &[];
    let mut word: &[u8] = &[];
    for token in all {
        let text = text_in(source, *token);
        if same_name(b"call", word) {
            return text;
        }
        word = opened_by(previous, token.kind);
        previous = text;
    }
    &[]
}

/// Returns the word before a token that is a parenthesis, or no word if the token is none.
fn opened_by(previous: &[u8], kind: TokenKind) -> &[u8]
    ensures { result.now ≡ opened_by previous.now kind }
{
    if is_open(kind) { previous } else { &[] }
}

/// Returns the word of a `begin` or a `group` statement that only the language of Keyman Developer has, or an empty text.
#[tactic(auto, unfolding(crate::specs::LeftOut::statement_left_out))]
pub(crate) fn statement_left_out<'a>(tokens: LineTokens<'a>) -> &'a [u8]
    ensures { result.now ≡ statement_left_out (texts tokens.entry) }
{
    if same_name(b"begin", tokens.text(0)) {
        other_begin(tokens.text(1))
    } else if same_name(b"group", tokens.text(0)) {
        readonly_in(tokens)
    } else {
        &[]
    }
}

/// Returns the word after `begin` if only the language of Keyman Developer has it there, or an empty text.
fn other_begin(word: &[u8]) -> &[u8]
    ensures { result.now ≡ other_begin word.now }
{
    if is_other_begin(word) { word } else { &[] }
}

/// Returns whether a word after `begin` is one that only the language of Keyman Developer has there.
#[tactic(auto, unfolding(crate::specs::LeftOut::is_other_begin))]
fn is_other_begin(word: &[u8]) -> bool
    ensures { result ≡ is_other_begin word.now }
{
    same_name(b"NewContext", word) || same_name(b"PostKeystroke", word)
}

/// Returns the first word `readonly` of a line that is not a name after a parenthesis, or an empty text.
fn readonly_in<'a>(tokens: LineTokens<'a>) -> &'a [u8]
    ensures { result.now ≡ readonly_in false (texts tokens.entry) }
{
    let LineTokens {
        source,
        tokens: all,
    } = tokens;
    let mut opened = false;
    for token in all {
        let text = text_in(source, *token);
        if is_readonly(opened, text) {
            return text;
        }
        opened = is_open(token.kind);
    }
    &[]
}

/// Returns whether a token with this text is the word `readonly`, and not a name after a parenthesis.
#[tactic(auto, unfolding(crate::specs::LeftOut::is_readonly))]
fn is_readonly(opened: bool, text: &[u8]) -> bool
    ensures { result ≡ is_readonly opened text.now }
{
    !opened && same_name(b"readonly", text)
}

/// Returns the name of a store statement, or the text of the first token of a rule that begins something that is not supported. The text is
/// empty if no token does.
#[tactic(auto, unfolding(crate::specs::LeftOut::left_out))]
pub(crate) fn left_out<'a>(tokens: LineTokens<'a>) -> &'a [u8]
    ensures { result.now ≡ left_out (texts tokens.entry) }
{
    if same_name(b"store", tokens.text(0)) {
        tokens.text(2)
    } else {
        item_left_out(tokens)
    }
}

/// Returns the text of the first of a rule's tokens that begins something that is not supported, or an empty text.
fn item_left_out<'a>(tokens: LineTokens<'a>) -> &'a [u8]
    ensures { result.now ≡ item_left_out false false (texts tokens.entry) }
{
    let LineTokens {
        source,
        tokens: all,
    } = tokens;
    let mut opened = false;
    let mut output = false;
    for token in all {
        let text = text_in(source, *token);
        if begins_left_out(opened, output, token.kind, text) {
            return text;
        }
        opened = is_open(token.kind);
        output = is_in_output(output, token.kind);
    }
    &[]
}

/// Returns whether a token begins something that is not supported: a word that is not a name after a parenthesis, the name of a system store
/// after one, or a virtual key in an output.
#[tactic(auto, unfolding(crate::specs::LeftOut::begins_left_out))]
fn begins_left_out(opened: bool, output: bool, kind: TokenKind, text: &[u8]) -> bool
    ensures { result ≡ begins_left_out opened output kind text.now }
{
    (!opened && is_left_out(text))
        || (opened && is_other_system(output, text))
        || (output && is_bracket_open(kind))
}

/// Returns whether a name after an opening parenthesis, in an output or not, is that of a system store that is not supported there.
#[tactic(auto, unfolding(crate::specs::LeftOut::is_other_system))]
fn is_other_system(output: bool, name: &[u8]) -> bool
    ensures { result ≡ is_other_system output name.now }
{
    is_system_name(name)
        && !same_name(b"&layer", name)
        && (output || !same_name(b"&platform", name))
}

/// Returns whether a word begins an item that is not supported anywhere.
#[tactic(auto, unfolding(crate::specs::LeftOut::is_left_out))]
fn is_left_out(text: &[u8]) -> bool
    ensures { result ≡ is_left_out text.now }
{
    same_name(b"switch", text)
        || same_name(b"clearcontext", text)
        || same_name(b"fix", text)
        || same_name(b"baselayout", text)
}

/// Returns whether a token is an opening parenthesis.
fn is_open(kind: TokenKind) -> bool
    ensures { result ≡ is_open kind }
{
    matches!(kind, TokenKind::Open)
}

/// Returns whether a token is an opening bracket.
fn is_bracket_open(kind: TokenKind) -> bool
    ensures { result ≡ is_bracket_open kind }
{
    matches!(kind, TokenKind::BracketOpen)
}

/// Returns whether the token after a token is in an output, given whether the token is.
fn is_in_output(output: bool, kind: TokenKind) -> bool
    ensures { result ≡ (output || is_arrow kind) }
{
    output || is_arrow(kind)
}

/// Returns whether a token is a `>`.
fn is_arrow(kind: TokenKind) -> bool
    ensures { result ≡ is_arrow kind }
{
    matches!(kind, TokenKind::Arrow)
}
