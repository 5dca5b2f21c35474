//! Where the token of a line begins that a refusal of the line is about.

ghost use Rattle.std.specs.Prelude.{◌≡◌, ◌<◌, ◌^◌, ◌≤◌, length, slice_get, IfOk};
ghost use Rattle.kmn_base.specs.declared.limits.TheConstants.{TEXT_BYTES};
ghost use Rattle.kmn_items.specs.TokenTexts.{texts};
ghost use Rattle.kmn_lines.specs.Places.{IsPlaced};
ghost use Rattle.refusal_places.specs.Spots.{group_again, spot_in, stop_place, token_spot, tokens_spot};

use crate::faulty::faulty_spot;
use crate::names::named_token;
use crate::spot::Spot;
use kmn_base::{Code, CompileError, Memory};
use kmn_items::{LineError, LineTokens};
use kmn_lines::{Logical, Token};
use kmn_parser::{LastGroup, Sign, place_of, read_line};
use kmn_tokens::tokens;
use std::alloc::Global;

/// Returns where the token begins that a refusal of a logical line with this code is about. `name` is the name that the line lacks. Errors:
/// `Memory` if an allocation fails.
pub(crate) fn spot_in(
    alloc: Global,
    source: &str,
    logical: Logical,
    code: Code,
    name: &[u8],
) -> Result<Option<Spot>, Memory>
    requires few { length source.now ≤ TEXT_BYTES }
    requires placed { IsPlaced source.now logical }
    ensures { IfOk result (λ spot. spot ≡ spot_in source.now logical code name.now) }
{
    match tokens(alloc, source, logical) {
        Ok(tokens) => tokens_spot(
            alloc,
            source.as_bytes(),
            logical.first_line,
            code,
            name,
            tokens.as_slice(),
        ),
        Err(CompileError::Refused(_)) => Ok(faulty_spot(source, logical)),
        Err(_) => Err(Memory),
    }
}

/// Returns where the token begins that a refusal with this code is about, among the tokens of its line.
fn tokens_spot(
    alloc: Global,
    source: &[u8],
    line: u32,
    code: Code,
    name: &[u8],
    tokens: &[Token],
) -> Result<Option<Spot>, Memory>
    requires { length tokens.now < 2 ^ 59 }
    ensures { IfOk result (λ spot. spot ≡ tokens_spot source.now line code name.now tokens.now) }
{
    if let Some(token) = named_token(source, code, name, tokens) {
        return Ok(token_spot(Some(token)));
    }
    let line_tokens = LineTokens { source, tokens };
    let place = stop_place(alloc, line, code, line_tokens)?;
    Ok(token_spot(token_at(tokens, place)))
}

/// Returns the number of tokens before the one at which reading a line stops, for a refusal with this code. It is 0 if the line is read
/// whole. Errors: `Memory` if an allocation fails.
#[tactic(auto, unfolding(crate::specs::Spots::stop_place))]
pub fn stop_place(
    alloc: Global,
    line: u32,
    code: Code,
    tokens: LineTokens<'_>,
) -> Result<usize, Memory>
    requires { length (texts tokens) < 2 ^ 59 }
    ensures { IfOk result (λ place. place ≡ stop_place line code (texts tokens.entry)) }
{
    match read_line(alloc, group_again(code, tokens), line, tokens) {
        Ok(_) => Ok(0),
        Err(LineError::Refused(fault)) => Ok(fault.at),
        Err(LineError::Memory) => Err(Memory),
    }
}

/// Returns the group in which a line is read again. Only `S03`, `S07` and `S08` depend on the group of a line.
fn group_again(code: Code, tokens: LineTokens<'_>) -> LastGroup
    ensures { result ≡ group_again code (texts tokens.entry) }
{
    match code {
        Code::S03 => LastGroup::Missing,
        Code::S07 => LastGroup::WithoutKeys,
        Code::S08 => LastGroup::UsingKeys,
        _ => {
            if place_of(Sign::Plus, tokens) < place_of(Sign::Arrow, tokens) {
                LastGroup::UsingKeys
            } else {
                LastGroup::WithoutKeys
            }
        }
    }
}

/// Returns the token at an index, if there is one.
fn token_at(tokens: &[Token], place: usize) -> Option<Token>
    ensures { result ≡ slice_get tokens.now place }
{
    tokens.get(place).copied()
}

/// Returns where a token begins, if there is one.
fn token_spot(token: Option<Token>) -> Option<Spot>
    ensures { result ≡ token_spot token }
{
    match token {
        Some(token) => Some(Spot {
            line: token.line,
            at: token.from as usize,
        }),
        None => None,
    }
}
