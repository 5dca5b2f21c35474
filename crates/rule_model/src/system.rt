//! The ids of stores and items that are not a keyboard's own (KMX format; `LEFT_OUT` and `DROPPED` are our own choice).

/// The store `&bitmap`.
pub const BITMAP: u32 = 1;

/// The store `&version`.
pub const VERSION: u32 = 8;

/// The store `&mnemoniclayout`.
pub const MNEMONIC_LAYOUT: u32 = 17;

/// The system option of the platform.
pub const PLATFORM: u32 = 31;

/// The system option of the layer.
pub const LAYER: u32 = 33;

/// The store with the names of a keyboard's custom keys, which only a file has.
pub const KEY_DICTIONARY: u32 = 34;

/// The store `&casedkeys`.
pub const CASED_KEYS: u32 = 39;

/// A statement of a system store that this product does not support.
pub const LEFT_OUT: u32 = 0xFFFE;

/// A statement of a system store that is read and dropped.
pub const DROPPED: u32 = 0xFFFF;

/// The start group of a file without one.
pub const NO_GROUP: u32 = 0xFFFF_FFFF;
