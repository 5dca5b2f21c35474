//! The items of compiled strings as they are spelled, and the faults of a spelling.

/// The unit before the code of each item that is not a character.
pub const SENTINEL: u16 = 0xFFFF;

/// One item of a compiled string. Store and group numbers count from 1 here, as they are spelled. Offsets also count from 1.
#[derive(Clone, Copy, Debug)]
pub enum UnitItem {
    Char(char),
    Any(u16),
    /// Store and offset.
    Index(u16, u16),
    Context,
    Nul,
    Enter(u16),
    Stop,
    Beep,
    Dead(u16),
    /// Shift flags and key code.
    Key(u16, u16),
    ContextAt(u16),
    NotAny(u16),
    /// Store and value store.
    Set(u16, u16),
    /// Store, 1 for unequal or 2 for equal, and value store.
    Test(u16, u16, u16),
    Save(u16),
    Reset(u16),
    /// System id, 1 for unequal or 2 for equal, and value store. The id also counts from 1.
    SystemTest(u16, u16, u16),
    /// System id and value store.
    SetSystem(u16, u16),
}

/// Why no item is spelled at a position.
#[derive(Clone, Copy, Debug)]
pub enum BadKind {
    /// An unpaired surrogate.
    U1,
    /// A code that no item has.
    U2,
    /// The bytes end after whole units inside an item with a sentinel, or a zero unit is at the position of an item or inside
    /// an item with a sentinel.
    U3,
    /// No `0x10` after a virtual key.
    U4,
    /// A comparison that is neither 1 nor 2.
    U5,
    /// The bytes end after the first byte of a unit of the item.
    U6,
}

/// The first position at which no item is spelled, in bytes from the start of the string. `code` is the unlisted code of `U2`,
/// else 0.
#[derive(Clone, Copy)]
pub struct BadUnits {
    pub kind: BadKind,
    pub at: u32,
    pub code: u16,
}
