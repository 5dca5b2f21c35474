//! The sizes of a file's header and records in bytes.

/// Bytes of the header.
pub const HEADER_BYTES: usize = 64;
/// Bytes of the record of a store.
pub const STORE_BYTES: usize = 12;
/// Bytes of the record of a group.
pub const GROUP_BYTES: usize = 24;
/// Bytes of a key record.
pub const RULE_BYTES: usize = 20;
