//! Key presses, the keys of compiled rules, and the bits of shift flags.

/// The shift flags that a compiled key may have: control and alt of the left, the right or either side, shift, caps lock, no
/// caps lock, and the flag of a virtual key.
pub const SHIFT_FLAGS: u16 = 0x437F;

// The shift flags one by one. A press has the sides, shift and caps lock at the same bits.
pub const LEFT_CONTROL: u16 = 0x0001;

pub const RIGHT_CONTROL: u16 = 0x0002;

pub const LEFT_ALT: u16 = 0x0004;

pub const RIGHT_ALT: u16 = 0x0008;

pub const SHIFT: u16 = 0x0010;

pub const EITHER_CONTROL: u16 = 0x0020;

pub const EITHER_ALT: u16 = 0x0040;

pub const CAPS: u16 = 0x0100;

pub const NO_CAPS: u16 = 0x0200;
/// The flag that a virtual key has.
pub const VIRTUAL_KEY: u16 = 0x4000;

/// The key of a compiled rule.
#[derive(Clone, Copy, Debug, PartialEq, Eq)]
pub enum RuleKey {
    /// The key of a rule in a group without keys, which fits every press.
    Any,
    /// A UTF-16 unit: the character that the press must produce on the US layout.
    Char(u16),
    /// Shift flags as in the file, and the key's code.
    Virtual { flags: u32, code: u16 },
}

/// A key press. `mods` has left control 1, right control 2, left alt 4, right alt 8, shift 16 and caps lock 256; other bits are ignored.
#[derive(Clone, Copy, Debug, PartialEq, Eq)]
pub struct KeyPress {
    /// The code of a key of the key table, or of a custom key from 256 on.
    pub code: u16,
    pub mods: u16,
}
