//! The error codes, which name the rules that an input can break.

ghost use Rattle.std.specs.Prelude.{◌≡◌};
ghost use Rattle.kmn_base.specs.CodeTexts.{code_text};

use std::fmt;

/// The named rules. L and S are faults of a source's form, C of its meaning, V of a compiled keyboard, P of a script, X of a
/// file that can't be decompiled, T of a touch layout. G are limits of a made load and of a search for dead rules, H faults of
/// a script for many fields, E of an event.
#[derive(Clone, Copy, PartialEq, Eq)]
pub enum Code {
    /// A source that is not UTF-8.
    L01,
    /// U+0000 or U+FFFF in a line, as a character or as a number.
    L02,
    /// A quote that is not closed in its physical line.
    L03,
    /// A number that has a wrong digit or a wrong number of digits, or that is not a character; an offset that is not 1 to 9 digits.
    L04,
    /// A source that has more than `TEXT_BYTES` bytes.
    L05,
    /// A line without `>` that can't begin a rule; a `store`, `begin` or `group` statement of the wrong form.
    S01,
    /// Parentheses that are missing, not closed or have wrong content; a name that is empty or too long.
    S02,
    /// A rule, `match` or `nomatch` before the first group.
    S03,
    /// A `begin`, `match`, `nomatch` or rule without `>`.
    S04,
    /// An item that is not allowed in a context or a key; a key that is not one item; an item between `match` or `nomatch` and `>`.
    S05,
    /// An item that is not allowed in an output or a store; an output without items.
    S06,
    /// A `+` before the `>` of a rule in a group without keys.
    S07,
    /// A rule without `+` before its `>` in a group with keys.
    S08,
    /// A condition or `nul` after a pattern of its context.
    S09,
    /// A second `nul` in a context.
    S10,
    /// A bracket that does not contain modifiers followed by one key name.
    S11,
    /// A store statement whose name begins with `&` and is not the name of a system store.
    S12,
    /// A program without `begin Unicode`.
    C01,
    /// A second `begin` of the same kind.
    C02,
    /// A store with the name of an earlier store.
    C03,
    /// A group with the name of an earlier group.
    C04,
    /// An item that names a store that no statement defines.
    C05,
    /// A `begin` or an item that names a group that no statement defines.
    C06,
    /// A store statement with `outs` or `$` of a store that no earlier statement defines.
    C07,
    /// An offset that is 0 or too large, or refers to a condition, a `nul` or, in a context, an item that is not earlier.
    C08,
    /// An `index` whose offset refers to an item other than `any`.
    C09,
    /// A key that is a character above U+FFFF; a key store that is empty, or has such a character or a deadkey.
    C10,
    /// A `call`.
    C11,
    /// An item, a system store or a text of a system store that this product does not support.
    C12,
    /// An option store as a key store, in `outs` or `$`, or in `index` with the key's offset.
    C13,
    /// An element that is not a character, in an option store, `&bitmap`, `&version` or `&mnemoniclayout`.
    C14,
    /// A second `match` or `nomatch` in a group.
    C15,
    /// A context of more than `CONTEXT_ITEMS` items.
    C16,
    /// An output of more than `OUTPUT_ITEMS` items.
    C17,
    /// A store of more than `STORE_ELEMENTS` elements, or stores of more than `ALL_ELEMENTS` elements in total.
    C18,
    /// More than `STORES` stores in the file, including those of option values and of key names.
    C19,
    /// More than `GROUPS` groups.
    C20,
    /// More than `DEADKEYS` deadkeys.
    C21,
    /// More than `RECORDS` key records.
    C22,
    /// A file that would have more than `FILE_BYTES` bytes.
    C23,
    /// A bitmap of more than `PICTURE_BYTES` bytes.
    C24,
    /// An element of `&casedkeys` that is not a key of the key table without modifiers.
    C25,
    /// A file that is shorter than the header.
    V01,
    /// A file that does not begin with the identifier of the format.
    V02,
    /// A version that is not one of the known versions.
    V03,
    /// A flag of the header that is not one of the known flags.
    V04,
    /// A header without a start group for Unicode.
    V05,
    /// A start group whose number is not less than the number of groups.
    V06,
    /// A store array that is not wholly inside the file.
    V07,
    /// A group array that is not wholly inside the file.
    V08,
    /// Key records of a group that are not wholly inside the file.
    V09,
    /// A string that begins outside the file or has no zero unit.
    V10,
    /// An item that is spelled wrongly: a lone surrogate, an item that breaks off, or a wrong operand.
    V11,
    /// An item that names a store or a group that the file does not have.
    V12,
    /// An offset that does not refer to an allowed item of the context.
    V13,
    /// An item with an unknown code or in the wrong kind of string; unknown shift flags of a key.
    V14,
    /// A length or a count of the file that passes its limit.
    V15,
    /// A bitmap that is not wholly inside the file or has more than `PICTURE_BYTES` bytes.
    V16,
    /// A script that is not UTF-8.
    P01,
    /// A line that begins neither with a bracket nor with the word of a kind of line.
    P02,
    /// A bracket that is not closed or is not a key press; a `preview` without a bracket.
    P03,
    /// A text or a name that is missing, has the wrong form or is too long.
    P04,
    /// A number that is missing or is not 1 to 7 digits.
    P05,
    /// A script that has more than `TEXT_BYTES` bytes.
    P06,
    /// More than `SCRIPT_EVENTS` events, previews included.
    P07,
    /// More text after a complete line.
    P08,
    /// A record that has a longer context than the record before it.
    X1,
    /// A key, an element, an item or a name of a file that has no form in a source.
    X2,
    /// A decompiled text of more than `TEXT_BYTES` bytes, or that would compile to too many stores or elements.
    X3,
    /// A layout that is not JSON in UTF-8, or is nested too deeply.
    T1,
    /// A part of a layout that is missing or has the wrong type.
    T2,
    /// A key with an id that no key can have.
    T3,
    /// A key that leads to a layer that its platform does not have.
    T4,
    /// A `T_` key that has no rule, leads to no layer and is not a spacer.
    T5,
    /// A layer with the id of an earlier layer of its platform.
    T6,
    /// A layout that has more than `TEXT_BYTES` bytes.
    T7,
    /// A load whose number is not 1 to `LOAD_RULES`.
    G1,
    /// A search for dead rules in a keyboard of more than `SHADOW_RECORDS` key records.
    G2,
    /// An event, a preview or an expected text before the first `open`; a `field` that is not open.
    H1,
    /// More than `FIELDS` fields in a script.
    H2,
    /// A position past the end of the text, or an edit that ends before it begins.
    E1,
    /// A key press in a text of more than `TEXT_CHARS_AT_KEY` characters; an edit to a text of more than `TEXT_CHARS` characters.
    E2,
}

/// Expands to the name of a code's variant.
macro_rules! variant_name {
    ($code:expr; $($variant:ident)*) => {
        match $code {
            $(Code::$variant => stringify!($variant),)*
        }
    };
}

impl Code {
    /// Returns the code as the refusal lines print it.
    pub fn text(self) -> &'static [u8]
        ensures { result.now ≡ code_text self }
    {
        self.name().as_bytes()
    }

    fn name(self) -> &'static str
        ensures { result.now ≡ code_text self }
    {
        variant_name!(self; L01 L02 L03 L04 L05
            S01 S02 S03 S04 S05 S06 S07 S08 S09 S10 S11 S12
            C01 C02 C03 C04 C05 C06 C07 C08 C09 C10 C11 C12
            C13 C14 C15 C16 C17 C18 C19 C20 C21 C22 C23 C24 C25
            V01 V02 V03 V04 V05 V06 V07 V08 V09 V10 V11 V12 V13 V14 V15 V16
            P01 P02 P03 P04 P05 P06 P07 P08
            X1 X2 X3 T1 T2 T3 T4 T5 T6 T7 G1 G2 H1 H2 E1 E2)
    }
}

impl fmt::Display for Code {
    ghost use Rattle.std.specs.Prelude.{Some};

    ghost output = { λ code. Some (code_text code) };

    fn fmt<W: fmt::Write>(&self, f: &mut fmt::Formatter<W>) -> fmt::Result {
        f.write_str(self.name())
    }
}

/// Writes the name that a derived implementation writes. It uses `name`, which is proved once for both.
impl fmt::Debug for Code {
    ghost use Rattle.std.specs.Prelude.{Some};

    ghost debug_output = { λ code. Some (code_text code) };

    fn fmt<W: fmt::Write>(&self, f: &mut fmt::Formatter<W>) -> fmt::Result {
        f.write_str(self.name())
    }
}
