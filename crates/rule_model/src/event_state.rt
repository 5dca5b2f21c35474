//! What a rule catches, and the state of one key event.

use kmn_base::{Element, Item, Seq};

/// What an item of a context caught: an item of the text if it is a pattern, and for an `any` also the first position of the
/// item in its store.
#[derive(Clone, Copy)]
pub struct Catch {
    /// `None` for a condition or `nul`.
    pub item: Option<Item>,
    /// From 0. `None` for all items except `any`.
    pub place: Option<usize>,
}

/// What a rule caught when it matched, for each item of its context as written, and the first position in its key store that
/// fits. It does not change while the output acts.
#[derive(Drop)]
pub struct Caught {
    pub catches: Seq<Catch>,
    /// From 0. `None` if the key is not a store.
    pub key_place: Option<usize>,
}

/// The state of one key event, on which its outputs act. Values are stored by option number, which counts only the option
/// stores. Counters saturate at the maximum of their type.
#[derive(Drop)]
pub struct EventState {
    /// The items before the caret. The last one is directly before it.
    pub left: Seq<Item>,
    pub current: Seq<Seq<Element>>,
    /// `None` if no value is saved.
    pub saved: Seq<Option<Seq<Element>>>,
    /// Whether the key is passed on to the application.
    pub pass: bool,
    /// The event's remaining effects are skipped.
    pub stopped: bool,
    pub beeps: u32,
    /// The number of groups that were entered.
    pub entered: u32,
    /// The number of items that were put.
    pub put: u32,
    /// The number of `save` items that acted.
    pub saves: u32,
}
