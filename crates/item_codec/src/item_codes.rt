//! The code after the sentinel of each item that is not a character, and the comparisons of a condition.

pub const ANY: u16 = 0x01;

pub const INDEX: u16 = 0x02;

pub const CONTEXT: u16 = 0x03;

pub const NUL: u16 = 0x04;

pub const ENTER: u16 = 0x05;

pub const STOP: u16 = 0x06;

pub const BEEP: u16 = 0x07;

pub const DEAD: u16 = 0x08;

pub const KEY: u16 = 0x0A;

pub const CONTEXT_AT: u16 = 0x11;

pub const NOT_ANY: u16 = 0x12;

pub const SET: u16 = 0x13;

pub const TEST: u16 = 0x14;

pub const SAVE: u16 = 0x15;

pub const RESET: u16 = 0x16;

pub const SYSTEM_TEST: u16 = 0x17;

pub const SET_SYSTEM: u16 = 0x18;

/// The comparison of a `Test` or `SystemTest` that requires another value.
pub const UNEQUAL: u16 = 1;
/// The comparison that requires the value.
pub const EQUAL: u16 = 2;
