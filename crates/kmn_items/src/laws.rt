//! Laws of `read_items` and `read_key` (`specs/ItemLaws`). Each law is the contract of a function with an empty body.

ghost use Rattle.kmn_items.specs.ItemLaws.{KeysAreOneItem, TokensAreTakenUp};

/// If the items of a section (a store, a context, a key or an output) can be read, they are the items of successive readings, in order.
/// A reading is one use of `read_item` that is not refused. It uses one or more tokens and returns one item or, for a quoted token, an
/// item for each of its characters. The first reading begins at the first token, each other reading begins where the previous one
/// ended, and no token is left over.
pub fn tokens_are_taken_up()
    ensures { TokensAreTakenUp }
{}

/// If `read_key` reads tokens as a key, then `read_items` for the section of a key reads exactly one item from them, which is this key.
#[tactic(auto, using(crate::proofs::KeyItems::keys_are_one_item))]
pub fn keys_are_one_item()
    ensures { KeysAreOneItem }
{}
