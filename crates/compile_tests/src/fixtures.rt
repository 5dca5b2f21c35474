//! What several tests use: the first lines of a keyboard, the file of a source, the file of one rule, and the file of two keys.

use kmn_base::Seq;
use kmn_compiler::compile;
use std::alloc::Global;
use std::test::Fail;

/// The two lines of a keyboard with the group `main`, which uses keys.
pub const KEYBOARD: &str = "begin Unicode > use(main)\ngroup(main) using keys\n";

/// The file of one rule, `+ 'a' > 'b'` in line 3, in a group `main` that uses keys: the bytes `one_rule_bytes` of `WorkedFiles` in
/// `kmx_format`, which were worked out by hand.
pub const ONE_RULE: [u8; 122] = [
    0x4B, 0x58, 0x54, 0x53, // 0: identifier
    0, 0x0A, 0, 0, // 4: version of the format
    0, 0, 0, 0, 0, 0, 0, 0, 0, 0, 0, 0, 0, 0, 0, 0, // 8: checksum, keyboard id, registered, version of the keyboard
    0, 0, 0, 0, // 24: number of stores
    1, 0, 0, 0, // 28: number of groups
    0, 0, 0, 0, // 32: offset of the store array
    0x40, 0, 0, 0, // 36: offset of the group array
    0xFF, 0xFF, 0xFF, 0xFF, // 40: start group for non-Unicode applications
    0, 0, 0, 0, // 44: start group for Unicode applications
    0, 0, 0, 0, 0, 0, 0, 0, // 48: flags, hotkey
    0, 0, 0, 0, 0, 0, 0, 0, // 56: offset and size of the bitmap
    0x6C, 0, 0, 0, // 64: group: offset of its name
    0x58, 0, 0, 0, // 68: offset of its key array
    0, 0, 0, 0, // 72: offset of its match output
    0, 0, 0, 0, // 76: offset of its nomatch output
    1, 0, 0, 0, // 80: number of key records
    1, 0, 0, 0, // 84: whether it uses keys
    0x61, 0, 0, 0, // 88: key record: character or key code
    3, 0, 0, 0, // 92: line
    0, 0, 0, 0, // 96: shift flags
    0x76, 0, 0, 0, // 100: offset of its output
    0, 0, 0, 0, // 104: offset of its context
    0x6D, 0, 0x61, 0, 0x69, 0, 0x6E, 0, 0, 0, // 108: name of the group: main
    0x62, 0, 0, 0, // 118: output of the record: b
];

/// The file with a store k of two virtual keys, a store o of x and y, and a record for each key: `two_keys_bytes` of `WorkedFiles` in
/// `kmx_format`.
pub const TWO_KEYS: [u8; 206] = [
    0x4B, 0x58, 0x54, 0x53, // 0: identifier
    0, 0x0A, 0, 0, // 4: version of the format
    0, 0, 0, 0, 0, 0, 0, 0, 0, 0, 0, 0, 0, 0, 0, 0, // 8: checksum, keyboard id, registered, version of the keyboard
    2, 0, 0, 0, // 24: number of stores
    1, 0, 0, 0, // 28: number of groups
    0x40, 0, 0, 0, // 32: offset of the store array
    0x58, 0, 0, 0, // 36: offset of the group array
    0xFF, 0xFF, 0xFF, 0xFF, // 40: start group for non-Unicode applications
    0, 0, 0, 0, // 44: start group for Unicode applications
    0, 0, 0, 0, 0, 0, 0, 0, // 48: flags, hotkey
    0, 0, 0, 0, 0, 0, 0, 0, // 56: offset and size of the bitmap
    0, 0, 0, 0, // 64: store 0: system id
    0x98, 0, 0, 0, // 68: offset of its name
    0x9C, 0, 0, 0, // 72: offset of its elements
    0, 0, 0, 0, // 76: store 1: system id
    0xB2, 0, 0, 0, // 80: offset of its name
    0xB6, 0, 0, 0, // 84: offset of its elements
    0xBC, 0, 0, 0, // 88: group: offset of its name
    0x70, 0, 0, 0, // 92: offset of its key array
    0, 0, 0, 0, // 96: offset of its match output
    0, 0, 0, 0, // 100: offset of its nomatch output
    2, 0, 0, 0, // 104: number of key records
    1, 0, 0, 0, // 108: whether it uses keys
    0x41, 0, 0, 0, // 112: key record 0: character or key code
    5, 0, 0, 0, // 116: line
    0, 0x40, 0, 0, // 120: shift flags
    0xC6, 0, 0, 0, // 124: offset of its output
    0, 0, 0, 0, // 128: offset of its context
    0x41, 0, 0, 0, // 132: key record 1: character or key code
    5, 0, 0, 0, // 136: line
    0x10, 0x40, 0, 0, // 140: shift flags
    0xCA, 0, 0, 0, // 144: offset of its output
    0, 0, 0, 0, // 148: offset of its context
    0x6B, 0, 0, 0, // 152: name of store 0: k
    0xFF, 0xFF, 0x0A, 0, 0, 0x40, 0x41, 0, 0x10, 0, // 156: elements of store 0: a virtual key
    0xFF, 0xFF, 0x0A, 0, 0x10, 0x40, 0x41, 0, 0x10, 0, // 166: a virtual key
    0, 0, // 176: end of the string
    0x6F, 0, 0, 0, // 178: name of store 1: o
    0x78, 0, 0x79, 0, 0, 0, // 182: elements of store 1: xy
    0x6D, 0, 0x61, 0, 0x69, 0, 0x6E, 0, 0, 0, // 188: name of the group: main
    0x78, 0, 0, 0, // 198: output of key record 0: x
    0x79, 0, 0, 0, // 202: output of key record 1: y
];

/// Returns the file that a source compiles to.
pub fn compiled(alloc: Global, source: &str) -> Result<Seq<u8>, Fail> {
    Ok(compile(alloc, source.as_bytes(), &[])?.bytes)
}
