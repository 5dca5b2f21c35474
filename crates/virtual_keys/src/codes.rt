//! The codes of the keys with a special meaning.

pub const K_BKSP: u16 = 8;

pub const K_TAB: u16 = 9;

pub const K_ENTER: u16 = 13;

pub const K_END: u16 = 35;

pub const K_HOME: u16 = 36;

pub const K_LEFT: u16 = 37;

pub const K_RIGHT: u16 = 39;

pub const K_DEL: u16 = 46;
