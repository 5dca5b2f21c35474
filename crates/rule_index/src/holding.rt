//! A row of `Holdings`, in eight bytes.

/// An item in a store: the number of the item, the number of the store, and the first position of the item in the store.
#[derive(Clone, Copy, Drop)]
pub struct Holding {
    pub item: u32,
    /// From 0. The layer and the platform have the two numbers after the stores of the file.
    pub store: u16,
    /// From 0.
    pub place: u16,
}
