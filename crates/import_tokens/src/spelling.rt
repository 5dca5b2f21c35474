//! Writes characters as tokens: visible ASCII in quotes, each other character as `U+` and its number.

ghost use Rattle.std.specs.Prelude.{◌≡◌, ◌<◌, ◌++◌, ◌∷◌, [], true, IfOk, OnOk};
ghost use Rattle.kmn_parser.specs.Texts.{quoted_token};
ghost use Rattle.import_tokens.specs.Ranges.{is_clear, run_tokens, spelled};
ghost use Rattle.import_tokens.specs.Spelling.{Spells};

use crate::digits::char_token;
use crate::owned_token::OwnedToken;
use kmn_base::{Memory, Seq, Text};
use kmn_lines::TokenKind;
use std::alloc::Global;

/// Returns characters as tokens. Errors: `Memory` if an allocation fails.
pub(crate) fn spelled(alloc: Global, characters: &[char]) -> Result<Seq<OwnedToken>, Memory>
    ensures { IfOk result (λ tokens. tokens ≡ spelled [] characters.now) }
{
    let mut tokens = Seq::new(alloc);
    let mut run = Seq::new(alloc);
    for character in characters {
        add_character(alloc, &mut tokens, &mut run, *character)?;
    }
    add_run(alloc, &mut tokens, run.as_slice())?;
    Ok(tokens)
}

/// Appends a character to the run of clear characters, or the run and the character to the tokens. Errors: `Memory` if an
/// allocation fails.
#[tactic(auto, using(crate::proofs::SpelledSteps::clear_spells, crate::proofs::SpelledSteps::other_spells))]
fn add_character(
    alloc: Global,
    tokens: &mut Seq<OwnedToken>,
    run: &mut Text,
    character: char,
) -> Result<(), Memory>
    ensures { OnOk result (Spells tokens.old run.old character tokens.new run.new) }
{
    if is_clear(character) {
        return run.add(character as u8);
    }
    add_run(alloc, tokens, run.as_slice())?;
    tokens.add(char_token(alloc, character)?)?;
    *run = Seq::new(alloc);
    Ok(())
}

/// Returns whether a character is written as itself in single quotes: visible ASCII except the quote.
fn is_clear(character: char) -> bool
    ensures is { result ≡ is_clear character }
    ensures small { result ≡ true → character < 128 }
{
    '\x20' < character && character < '\x7F' && character != '\''
}

/// Appends a run of clear characters in quotes, unless it is empty. Errors: `Memory` if an allocation fails.
fn add_run(alloc: Global, tokens: &mut Seq<OwnedToken>, run: &[u8]) -> Result<(), Memory>
    ensures { OnOk result (tokens.new ≡ tokens.old ++ run_tokens run.now) }
{
    if run.is_empty() {
        return Ok(());
    }
    tokens.add(quoted_token(alloc, b'\'', run)?)
}

/// Returns bytes between two quotes as a token. Errors: `Memory` if an allocation fails.
pub fn quoted_token(alloc: Global, quote: u8, bytes: &[u8]) -> Result<OwnedToken, Memory>
    ensures { IfOk result (λ token. token ≡ quoted_token quote bytes.now) }
{
    let mut text = Seq::from_slice(alloc, &[quote])?;
    text.extend_from_slice(bytes)?;
    text.add(quote)?;
    Ok(OwnedToken {
        kind: TokenKind::Quoted,
        text,
    })
}
