//! The state while the tokens of a line are read: the bound of the last item outside brackets, or the words of an open bracket.

ghost use Rattle.std.specs.Prelude.{◌≡◌, IfOk};
ghost use Rattle.import_tokens.specs.Bounds.{after_token};

use crate::bound::{Bound, key_bound, last_bound};
use crate::owned_token::OwnedToken;
use kmn_base::{Memory, Seq};
use kmn_lines::TokenKind;
use std::alloc::Global;

/// The state after some tokens of a line.
#[derive(Drop)]
pub enum BracketState {
    /// Outside brackets, after an item with this bound.
    Outside(Bound),
    /// In brackets, after these tokens.
    Inside(Seq<OwnedToken>),
}

/// Returns the state after another token. Errors: `Memory` if an allocation fails.
pub(crate) fn after_token(
    alloc: Global,
    state: BracketState,
    token: &OwnedToken,
) -> Result<BracketState, Memory>
    ensures { IfOk result (λ next. next ≡ after_token state token.now) }
{
    match state {
        BracketState::Outside(_) => {
            if token.kind == TokenKind::BracketOpen {
                return Ok(BracketState::Inside(Seq::new(alloc)));
            }
            Ok(BracketState::Outside(last_bound(alloc, token)?))
        }
        BracketState::Inside(words) => {
            if token.kind == TokenKind::BracketClose {
                return Ok(BracketState::Outside(key_bound(alloc, words.as_slice())?));
            }
            let mut words = words;
            words.add(token.copy(alloc)?)?;
            Ok(BracketState::Inside(words))
        }
    }
}
