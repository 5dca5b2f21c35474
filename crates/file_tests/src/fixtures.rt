//! Two files with the layer.

/// The file of a rule with a condition on the layer `s`: a store with the value, and a record whose context is this condition.
pub const ON_LAYER: [u8; 150] = [
    0x4B, 0x58, 0x54, 0x53, // 0: identifier
    0, 0x0A, 0, 0, // 4: version of the format
    0, 0, 0, 0, 0, 0, 0, 0, 0, 0, 0, 0, 0, 0, 0, 0, // 8: checksum, keyboard id, registered, version of the keyboard
    1, 0, 0, 0, // 24: number of stores
    1, 0, 0, 0, // 28: number of groups
    0x40, 0, 0, 0, // 32: offset of the store array
    0x4C, 0, 0, 0, // 36: offset of the group array
    0xFF, 0xFF, 0xFF, 0xFF, // 40: start group for non-Unicode applications
    0, 0, 0, 0, // 44: start group for Unicode applications
    0, 0, 0, 0, 0, 0, 0, 0, // 48: flags, hotkey
    0, 0, 0, 0, 0, 0, 0, 0, // 56: offset and size of the bitmap
    0, 0, 0, 0, // 64: store: system id
    0, 0, 0, 0, // 68: offset of its name
    0x78, 0, 0, 0, // 72: offset of its elements
    0x7C, 0, 0, 0, // 76: group: offset of its name
    0x64, 0, 0, 0, // 80: offset of its key array
    0, 0, 0, 0, // 84: offset of its match output
    0, 0, 0, 0, // 88: offset of its nomatch output
    1, 0, 0, 0, // 92: number of key records
    1, 0, 0, 0, // 96: whether it uses keys
    0x61, 0, 0, 0, // 100: key record: character or key code
    3, 0, 0, 0, // 104: line
    0, 0, 0, 0, // 108: shift flags
    0x92, 0, 0, 0, // 112: offset of its output
    0x86, 0, 0, 0, // 116: offset of its context
    0x73, 0, 0, 0, // 120: elements of the store: s
    0x6D, 0, 0x61, 0, 0x69, 0, 0x6E, 0, 0, 0, // 124: name of the group: main
    0xFF, 0xFF, 0x17, 0, 0x22, 0, 2, 0, 1, 0, // 134: context of the record: a condition on the layer
    0, 0, // 144: end of the string
    0x62, 0, 0, 0, // 146: output of the record: b
];

/// A file that sets the layer to `s` in the output of its one record and in the match output, whose offset precedes that record.
pub const SETS_LAYER: [u8; 154] = [
    0x4B, 0x58, 0x54, 0x53, // 0: identifier
    0, 0x0A, 0, 0, // 4: version of the format
    0, 0, 0, 0, 0, 0, 0, 0, 0, 0, 0, 0, 0, 0, 0, 0, // 8: checksum, keyboard id, registered, version of the keyboard
    1, 0, 0, 0, // 24: number of stores
    1, 0, 0, 0, // 28: number of groups
    0x40, 0, 0, 0, // 32: offset of the store array
    0x4C, 0, 0, 0, // 36: offset of the group array
    0xFF, 0xFF, 0xFF, 0xFF, // 40: start group for non-Unicode applications
    0, 0, 0, 0, // 44: start group for Unicode applications
    0, 0, 0, 0, 0, 0, 0, 0, // 48: flags, hotkey
    0, 0, 0, 0, 0, 0, 0, 0, // 56: offset and size of the bitmap
    0, 0, 0, 0, // 64: store: system id
    0, 0, 0, 0, // 68: offset of its name
    0x78, 0, 0, 0, // 72: offset of its elements
    0x7C, 0, 0, 0, // 76: group: offset of its name
    0x64, 0, 0, 0, // 80: offset of its key array
    0x86, 0, 0, 0, // 84: offset of its match output
    0, 0, 0, 0, // 88: offset of its nomatch output
    1, 0, 0, 0, // 92: number of key records
    1, 0, 0, 0, // 96: whether it uses keys
    0x61, 0, 0, 0, // 100: key record: character or key code
    3, 0, 0, 0, // 104: line
    0, 0, 0, 0, // 108: shift flags
    0x90, 0, 0, 0, // 112: offset of its output
    0, 0, 0, 0, // 116: offset of its context
    0x73, 0, 0, 0, // 120: elements of the store: s
    0x6D, 0, 0x61, 0, 0x69, 0, 0x6E, 0, 0, 0, // 124: name of the group: main
    0xFF, 0xFF, 0x18, 0, 0x22, 0, 1, 0, // 134: match output: a set of the layer
    0, 0, // 142: end of the string
    0xFF, 0xFF, 0x18, 0, 0x22, 0, 1, 0, // 144: output of the record: a set of the layer
    0, 0, // 152: end of the string
];
