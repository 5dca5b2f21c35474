//! The limits of this product, each with its unit. An input that exceeds a limit is refused by name. Definitions use these
//! constants, and the law `limits_are_as_stated` states each as a number.

/// Bytes of a source, a script, a touch layout or a decompiled text.
pub const TEXT_BYTES: usize = 4_194_304;
/// Bytes of a compiled keyboard.
pub const FILE_BYTES: usize = 67_108_864;
/// Bytes of a keyboard's bitmap, an icon file.
pub const PICTURE_BYTES: usize = 1_048_576;
/// Items of a rule's context.
pub const CONTEXT_ITEMS: usize = 60;
/// Items of an output, counted after `outs` and `$`.
pub const OUTPUT_ITEMS: usize = 1_024;
/// Elements of one store.
pub const STORE_ELEMENTS: usize = 65_535;
/// Elements of all stores together.
pub const ALL_ELEMENTS: usize = 4_000_000;
/// Stores of a file.
pub const STORES: usize = 20_000;
/// Groups of a file.
pub const GROUPS: usize = 1_000;
/// Key records of a file.
pub const RECORDS: usize = 100_000;
/// Names of a keyboard's custom keys, with codes from 256 to 65,535.
pub const KEY_NAMES: usize = 65_280;
/// Deadkeys of a source.
pub const DEADKEYS: usize = 5_000;
/// Characters of a name in a source.
pub const SOURCE_NAME_CHARS: usize = 80;
/// UTF-16 units of a name in a file.
pub const FILE_NAME_UNITS: usize = 255;
/// Events of a script.
pub const SCRIPT_EVENTS: usize = 100_000;
/// Characters of a string in a script.
pub const SCRIPT_STRING_CHARS: usize = 4_096;
/// Key records of a keyboard that is searched for dead rules. Each record is compared with all before it (our own choice).
pub const SHADOW_RECORDS: usize = 2_000;
/// Rules of a load after its first one (our own choice).
pub const LOAD_RULES: u32 = 2_000;
/// Text fields over one keyboard, of a host and of a script for many fields.
pub const FIELDS: usize = 64;
/// Characters of the whole text after an edit.
pub const TEXT_CHARS: usize = 1_000_000;
/// Characters of the whole text before a key event.
pub const TEXT_CHARS_AT_KEY: usize = 995_000;
/// Group entries of one event.
pub const EVENT_ENTRIES: u32 = 50;
/// Items that one event puts.
pub const EVENT_PUTS: u32 = 4_096;
/// Items before the caret that the engine caches. Marks are kept only among these.
pub const WINDOW_ITEMS: usize = 64;
