//! The offsets of the header's words, in bytes from the file's start, and of a record's fields, in bytes from the record's
//! start. At 0 a store has its system id, a group the offset of its name, and a key record its key.

/// The identifier of `.kmx` files, the bytes `KXTS`.
pub const IDENTIFIER: u32 = 0x5354_584B;

/// The offset of the identifier.
pub const IDENTIFIER_AT: usize = 0;
/// The version.
pub const VERSION_AT: usize = 4;
/// A checksum, which is 0 in the files that this project writes.
pub const CHECKSUM_AT: usize = 8;
/// The count of stores.
pub const STORE_COUNT_AT: usize = 24;
/// The count of groups.
pub const GROUP_COUNT_AT: usize = 28;
/// The offset of the store array.
pub const STORES_AT: usize = 32;
/// The offset of the group array.
pub const GROUPS_AT: usize = 36;
/// The number of the group in which a press begins on a system without Unicode, or `NO_GROUP`.
pub const START_ANSI_AT: usize = 40;
/// The number of the group in which a press begins.
pub const START_UNICODE_AT: usize = 44;
/// The flags of the keyboard.
pub const FLAGS_AT: usize = 48;
/// The offset of the bitmap.
pub const PICTURE_AT: usize = 56;
/// The size of the bitmap in bytes.
pub const PICTURE_SIZE_AT: usize = 60;

/// In the record of a store, the offset of its name.
pub const STORE_NAME_AT: usize = 4;
/// The offset of its elements.
pub const STORE_ELEMENTS_AT: usize = 8;

/// In the record of a group, the offset of its key records.
pub const GROUP_RULES_AT: usize = 4;
/// The offset of its match output.
pub const GROUP_MATCH_AT: usize = 8;
/// The offset of its nomatch output.
pub const GROUP_NOMATCH_AT: usize = 12;
/// The count of its key records.
pub const GROUP_RULE_COUNT_AT: usize = 16;
/// Whether it uses keys: 0 if it does not.
pub const GROUP_USING_KEYS_AT: usize = 20;

/// In a key record, the line of the source.
pub const RULE_LINE_AT: usize = 4;
/// The shift flags of its key.
pub const RULE_FLAGS_AT: usize = 8;
/// The offset of its output.
pub const RULE_OUTPUT_AT: usize = 12;
/// The offset of its context.
pub const RULE_CONTEXT_AT: usize = 16;
