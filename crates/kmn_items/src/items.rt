//! Reads the items of a section, and the item of a key.

ghost use Rattle.std.specs.Prelude.{◌≡◌, ◌+◌, ◌<◌, ◌^◌, ◌++◌, IfOk, length};
ghost use Rattle.kmn_items.specs.TokenTexts.{texts, Reads};
ghost use Rattle.kmn_items.specs.Item.{unseen, is_item_word, read_items, read_key};

use crate::item::{Spot, read_item, refused};
use crate::numbers::is_number_word;
use crate::syntax::{LineError, Seen, Where};
use crate::text::LineTokens;
use crate::words::item_word;
use kmn_base::{Code, Memory, Seq};
use rule_model::SrcItem;
use std::alloc::Global;

/// What a section has seen before its first item.
const UNSEEN: Seen = Seen {
    pattern: false,
    nul: false,
};

/// Returns whether a word begins an item. A number and a word with `$` also do.
pub fn is_item_word(text: &[u8]) -> bool
    ensures { result ≡ is_item_word text.now }
{
    is_number_word(text) || item_word(text).is_some()
}

/// Returns the items of a section. `at` is the index of its first token in the line. `last` is the index of the line's last
/// token, the latest token at which an item can break off.
#[tactic(auto, using(crate::proofs::ItemLemmas::items_step))]
pub fn read_items(
    alloc: Global,
    place: Where,
    last: usize,
    at: usize,
    tokens: LineTokens<'_>,
) -> Result<Seq<SrcItem>, LineError>
    requires { at + length (texts tokens) < 2 ^ 60 }
    ensures { Reads (read_items place unseen last 0 at (texts tokens.entry)) result }
{
    let mut items = Seq::new(alloc);
    let mut seen = UNSEEN;
    let mut next = at;
    let mut rest = tokens;
    'items: while !rest.is_empty() {
        let spot = Spot {
            place,
            seen,
            last,
            at: next,
        };
        let taken = read_item(alloc, spot, rest)?;
        items = joined(items, taken.items)?;
        seen = taken.seen;
        next += 1 + taken.more;
        rest = rest.behind(1 + taken.more);
    }
    Ok(items)
}

/// Joins two lists. If the first is empty, it returns the second, so that one item needs no spare room.
fn joined(items: Seq<SrcItem>, more: Seq<SrcItem>) -> Result<Seq<SrcItem>, Memory>
    ensures { IfOk result (λ all. all ≡ items ++ more) }
{
    if items.is_empty() {
        return Ok(more);
    }
    let mut all = items;
    all.append(more)?;
    Ok(all)
}

/// Returns the item of a key. `at` is the index of its first token in the line, and `last` is the index of the line's last token.
#[tactic(auto, using(crate::proofs::ItemLemmas::last_item_push))]
pub fn read_key(
    alloc: Global,
    last: usize,
    at: usize,
    tokens: LineTokens<'_>,
) -> Result<SrcItem, LineError>
    requires { at + length (texts tokens) < 2 ^ 60 }
    ensures { Reads (read_key last at (texts tokens.entry)) result }
{
    let mut items = read_items(alloc, Where::Key, last, at, tokens)?;
    let end = (at + tokens.len()).min(last);
    items.pop().ok_or(refused(end, Code::S05))
}
