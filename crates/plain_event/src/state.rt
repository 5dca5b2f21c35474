//! The state between two events.

use kmn_base::{Element, Item, Outcome, Seq};

/// A state on which a keyboard's tables act, and the outcome of the last event. Values are indexed by store number, with the
/// values of the system options after all others.
#[derive(Drop)]
pub struct PlainState {
    /// The items before the caret. The last one is directly before it.
    pub left: Seq<Item>,
    /// The characters after the caret. The first one is directly after it.
    pub right: Seq<char>,
    pub current: Seq<Seq<Element>>,
    /// `None` if no value is saved.
    pub saved: Seq<Option<Seq<Element>>>,
    pub last: Outcome,
}
