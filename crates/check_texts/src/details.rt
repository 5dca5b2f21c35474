//! The printed text of the detail of a refusal.

ghost use Rattle.std.specs.Prelude.{◌≡◌, ◌++◌, flat_map, IfOk, OnOk};
ghost use Rattle.check_texts.specs.Details.{begins_quote, defined_text, detail_text, first_text, near_text, quote_mark, quoted_word, word_text};

use crate::shown_words::put_shown;
use kmn_base::bytes::is_quote;
use kmn_base::{Memory, Text};
use refusal_details::Detail;
use std::alloc::Global;

/// Appends the detail of a refusal.
///
/// Errors: `Memory` if an allocation fails.
#[tactic(auto, unfolding(crate::specs::Details::detail_text))]
pub fn put_detail(alloc: Global, text: &mut Text, detail: &Detail) -> Result<(), Memory>
    ensures { OnOk result (text.new ≡ text.old ++ detail_text detail.now) }
{
    match detail {
        Detail::Nothing => Ok(()),
        Detail::Word { word, near } => put_word(text, word.as_slice(), near.as_slice()),
        Detail::Defined { name, line } => put_defined(alloc, text, name.as_slice(), *line),
    }
}

/// Appends a word with the names that it may mean.
#[tactic(auto, unfolding(crate::specs::Details::word_text))]
fn put_word(text: &mut Text, word: &[u8], near: &[Text]) -> Result<(), Memory>
    ensures { OnOk result (text.new ≡ text.old ++ word_text word.now near.now) }
{
    text.extend_from_slice(b": ")?;
    put_quoted(text, word)?;
    put_near(text, near)
}

/// Appends a name with the line that defines it first.
#[tactic(auto, unfolding(crate::specs::Details::defined_text))]
fn put_defined(alloc: Global, text: &mut Text, name: &[u8], line: u32) -> Result<(), Memory>
    ensures { OnOk result (text.new ≡ text.old ++ defined_text name.now line) }
{
    text.extend_from_slice(b": ")?;
    put_quoted(text, name)?;
    text.append(first_text(alloc, line)?)
}

/// Returns the text about the line that defines a name first.
#[tactic(auto, unfolding(crate::specs::Details::first_text))]
fn first_text(alloc: Global, line: u32) -> Result<Text, Memory>
    ensures { IfOk result (λ text. text ≡ first_text line) }
{
    let text = format!(in alloc; ", already defined in line {line}")?;
    Ok(Text::from_string(text))
}

/// Appends a word in quotes, unless it has quotes itself.
#[tactic(auto, unfolding(crate::specs::Details::quoted_word))]
fn put_quoted(text: &mut Text, word: &[u8]) -> Result<(), Memory>
    ensures { OnOk result (text.new ≡ text.old ++ quoted_word word.now) }
{
    text.extend_from_slice(quote_mark(word).as_bytes())?;
    put_shown(text, word)?;
    text.extend_from_slice(quote_mark(word).as_bytes())
}

/// Returns the quote before and after a printed word.
#[tactic(auto, unfolding(crate::specs::Details::quote_mark))]
fn quote_mark(word: &[u8]) -> &'static str
    ensures { result.now ≡ quote_mark word.now }
{
    if begins_quote(word) { "" } else { "'" }
}

/// Returns whether a text begins with a quote.
fn begins_quote(text: &[u8]) -> bool
    ensures { result ≡ begins_quote text.now }
{
    match text {
        [first, ..] => is_quote(*first),
        [] => false,
    }
}

/// Appends the names that a word may mean.
fn put_near(text: &mut Text, names: &[Text]) -> Result<(), Memory>
    ensures { OnOk result (text.new ≡ text.old ++ flat_map near_text names.now) }
{
    for name in names {
        put_near_name(text, name.as_slice())?;
    }
    Ok(())
}

/// Appends a name that a word may mean.
#[tactic(auto, unfolding(crate::specs::Details::near_text))]
fn put_near_name(text: &mut Text, name: &[u8]) -> Result<(), Memory>
    ensures { OnOk result (text.new ≡ text.old ++ near_text name.now) }
{
    text.extend_from_slice(b", perhaps ")?;
    put_shown(text, name)
}
