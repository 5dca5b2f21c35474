//! The tables of advice: words that are wrong, and what is printed of them.

ghost use Rattle.std.specs.Prelude.{◌≡◌, map};
ghost use Rattle.check_texts.specs.Advice.{advice_or, advised_in, begun_in, context_advice, context_rows, context_starts, key_advice, key_rows, key_starts, left_out_advice, left_out_rows, left_out_starts, name_rows, number_starts, output_rows, statement_rows, system_rows};

use kmn_base::names::same_name;
use kmn_base::slices::before;

/// The advice for a word that begins a line: old headers, and statements that only the language of Keyman Developer has.
static STATEMENTS: [(&str, &str); 13] = [
    ("NAME", "instead: store(&name) and the text"),
    ("BITMAP", "instead: store(&bitmap) and the text"),
    ("COPYRIGHT", "instead: store(&copyright) and the text"),
    ("HOTKEY", "instead: store(&hotkey) and the text"),
    ("MESSAGE", "instead: store(&message) and the text"),
    (
        "VERSION",
        "instead: store(&version) and a version from 6.0 on, or nothing",
    ),
    ("LANGUAGE", "instead: nothing"),
    ("LAYOUT", "instead: nothing"),
    ("CAPS", "instead: rules for both states of caps lock"),
    ("SHIFT", "instead: rules for both states of caps lock"),
    (
        "NewContext",
        "instead: $keymanweb: before this line and the lines of its groups",
    ),
    (
        "PostKeystroke",
        "instead: $keymanweb: before this line and the lines of its groups",
    ),
    (
        "readonly",
        "instead: nothing, and context first in each output of the group",
    ),
];

/// The advice for an item before the `>`.
static CONTEXTS: [(&str, &str); 2] = [
    ("outs", "instead: the characters of the store"),
    ("[", "a virtual key is only the key after the +"),
];

/// The advice for an item of an output or a store.
static OUTPUTS: [(&str, &str); 7] = [
    (
        "any",
        "in an output, instead: index with the position of the any",
    ),
    ("notany", "only a context has it"),
    ("if", "only a context has it"),
    ("platform", "only a context has it"),
    ("beep", "only an output has it"),
    ("nul", "a store has no nul"),
    (",", "blanks separate items"),
];

/// The advice for a `$` before the `>`.
static CONTEXT_STARTS: [(&str, &str); 1] = [("$", "only an output or a store has $ and a name")];

/// The advice for a word in the brackets of a virtual key.
static KEYS: [(&str, &str); 24] = [
    ("]", "a bracket has a key, which comes last"),
    ("+", "blanks separate the words"),
    (",", "blanks separate the words"),
    ("SHIFT", "the key comes last"),
    ("CTRL", "the key comes last"),
    ("LCTRL", "the key comes last"),
    ("RCTRL", "the key comes last"),
    ("ALT", "the key comes last"),
    ("LALT", "the key comes last"),
    ("RALT", "the key comes last"),
    ("CAPS", "the key comes last"),
    ("NCAPS", "the key comes last"),
    ("NUMLOCK", "instead: nothing, since no rule can ask for it"),
    ("NNUMLOCK", "instead: nothing, since no rule can ask for it"),
    (
        "SCROLLLOCK",
        "instead: nothing, since no rule can ask for it",
    ),
    (
        "NSCROLLLOCK",
        "instead: nothing, since no rule can ask for it",
    ),
    ("K_CAPS", "no rule can have this key"),
    ("K_NUMLOCK", "no rule can have this key"),
    ("K_SCROLL", "no rule can have this key"),
    ("K_SHIFT", "no rule can have this key"),
    ("K_CONTROL", "no rule can have this key"),
    ("K_ALT", "no rule can have this key"),
    ("K_PAUSE", "no rule can have this key"),
    ("K_NPENTER", "no rule can have this key"),
];

/// The advice for a word in brackets with a beginning.
static KEY_STARTS: [(&str, &str); 6] = [
    ("K_F1", "no rule can have this key"),
    ("K_F2", "no rule can have this key"),
    ("K_?", "no rule can have this key"),
    ("U_", "a U_ name has 4 to 6 digits"),
    (
        "'",
        "instead: the name of the key that types it, as in [SHIFT K_A]",
    ),
    (
        "\"",
        "instead: the name of the key that types it, as in [SHIFT K_A]",
    ),
];

/// The advice for a number with a beginning.
static NUMBER_STARTS: [(&str, &str); 3] = [
    (
        "U+",
        "a character is U+ and 4 to 6 hexadecimal digits, and a range is written out",
    ),
    ("8", "a number is octal, unless d comes before its digits"),
    ("9", "a number is octal, unless d comes before its digits"),
];

/// The advice for the name of a system store that does not exist.
static SYSTEMS: [(&str, &str); 1] = [("&oldcharposmatching", "instead: nothing")];

/// The advice for a system store where an ordinary store is named.
static NAMES: [(&str, &str); 1] = [("&layer", "only if and set have it")];

/// The advice for a word or a system store that is not supported.
static LEFT_OUT: [(&str, &str); 11] = [
    ("clearcontext", "instead: nul"),
    ("fix", "instead: nul"),
    ("switch", "no keyboard can switch to another one"),
    ("baselayout", "instead: an option that the application sets"),
    ("[", "instead: the characters of the key"),
    (
        "&includecodes",
        "instead: the number of each character, as in U+00E9",
    ),
    (
        "&capsalwaysoff",
        "instead: rules for both states of caps lock",
    ),
    ("&capsononly", "instead: rules for both states of caps lock"),
    (
        "&shiftfreescaps",
        "instead: rules for both states of caps lock",
    ),
    (
        "&version",
        "instead: 6.0, 7.0, 8.0, 9.0, 10.0, or 14.0 to 17.0",
    ),
    ("&mnemoniclayout", "instead: 0"),
];

/// The advice for another system store in a condition or in `set`.
static LEFT_OUT_STARTS: [(&str, &str); 1] = [(
    "&",
    "instead: an option store that the application sets or reads",
)];

/// Returns an advice, or another one if it is empty.
pub(crate) fn advice_or(advice: &'static str, other: &'static str) -> &'static str
    ensures { result.now ≡ advice_or advice.now other.now }
{
    if advice.is_empty() { other } else { advice }
}

/// Returns the advice for an item before the `>`.
pub(crate) fn context_advice(word: &[u8]) -> &'static str
    ensures { result.now ≡ context_advice word.now }
{
    advice_or(listed_context(word), begun_context(word))
}

/// Returns the advice for a word in the brackets of a virtual key.
pub(crate) fn key_advice(word: &[u8]) -> &'static str
    ensures { result.now ≡ key_advice word.now }
{
    advice_or(listed_key(word), begun_key(word))
}

/// Returns the advice for a word that begins a line.
#[tactic(auto, unfolding(crate::specs::Advice::statement_rows))]
pub(crate) fn statement_advice(word: &[u8]) -> &'static str
    ensures { result.now ≡ advised_in statement_rows word.now }
{
    advised_in(&STATEMENTS, word)
}

/// Returns the advice for an item of an output or a store.
#[tactic(auto, unfolding(crate::specs::Advice::output_rows))]
pub(crate) fn output_advice(word: &[u8]) -> &'static str
    ensures { result.now ≡ advised_in output_rows word.now }
{
    advised_in(&OUTPUTS, word)
}

/// Returns the advice for the name of a system store that does not exist.
#[tactic(auto, unfolding(crate::specs::Advice::system_rows))]
pub(crate) fn system_advice(word: &[u8]) -> &'static str
    ensures { result.now ≡ advised_in system_rows word.now }
{
    advised_in(&SYSTEMS, word)
}

/// Returns the advice for a system store where an ordinary store is named.
#[tactic(auto, unfolding(crate::specs::Advice::name_rows))]
pub(crate) fn name_advice(word: &[u8]) -> &'static str
    ensures { result.now ≡ advised_in name_rows word.now }
{
    advised_in(&NAMES, word)
}

/// Returns the advice for something that is not supported.
pub(crate) fn left_out_advice(word: &[u8]) -> &'static str
    ensures { result.now ≡ left_out_advice word.now }
{
    advice_or(listed_left_out(word), begun_left_out(word))
}

/// Returns the advice for a word or a system store that is not supported.
#[tactic(auto, unfolding(crate::specs::Advice::left_out_rows))]
fn listed_left_out(word: &[u8]) -> &'static str
    ensures { result.now ≡ advised_in left_out_rows word.now }
{
    advised_in(&LEFT_OUT, word)
}

/// Returns the advice for another system store in a condition or in `set`.
#[tactic(auto, unfolding(crate::specs::Advice::left_out_starts))]
fn begun_left_out(word: &[u8]) -> &'static str
    ensures { result.now ≡ begun_in left_out_starts word.now }
{
    begun_in(&LEFT_OUT_STARTS, word)
}

/// Returns the advice for a number.
#[tactic(auto, unfolding(crate::specs::Advice::number_starts))]
pub(crate) fn number_advice(word: &[u8]) -> &'static str
    ensures { result.now ≡ begun_in number_starts word.now }
{
    begun_in(&NUMBER_STARTS, word)
}

/// Returns the advice for an item before the `>`, by its word.
#[tactic(auto, unfolding(crate::specs::Advice::context_rows))]
fn listed_context(word: &[u8]) -> &'static str
    ensures { result.now ≡ advised_in context_rows word.now }
{
    advised_in(&CONTEXTS, word)
}

/// Returns the advice for an item before the `>`, by its beginning.
#[tactic(auto, unfolding(crate::specs::Advice::context_starts))]
fn begun_context(word: &[u8]) -> &'static str
    ensures { result.now ≡ begun_in context_starts word.now }
{
    begun_in(&CONTEXT_STARTS, word)
}

/// Returns the advice for a word in the brackets of a virtual key.
#[tactic(auto, unfolding(crate::specs::Advice::key_rows))]
fn listed_key(word: &[u8]) -> &'static str
    ensures { result.now ≡ advised_in key_rows word.now }
{
    advised_in(&KEYS, word)
}

/// Returns the advice for a word in brackets, by its beginning.
#[tactic(auto, unfolding(crate::specs::Advice::key_starts))]
fn begun_key(word: &[u8]) -> &'static str
    ensures { result.now ≡ begun_in key_starts word.now }
{
    begun_in(&KEY_STARTS, word)
}

/// Returns the advice of the first row of a table whose word is this one, or an empty text.
fn advised_in(table: &'static [(&'static str, &'static str)], word: &[u8]) -> &'static str
    ensures { result.now ≡ advised_in (map (λ row. (row.0.now, row.1.now)) table.now) word.now }
{
    for row in table {
        if same_name(row.0.as_bytes(), word) {
            return row.1;
        }
    }
    ""
}

/// Returns the advice of the first row of a table whose word begins this one, or an empty text.
fn begun_in(table: &'static [(&'static str, &'static str)], word: &[u8]) -> &'static str
    ensures { result.now ≡ begun_in (map (λ row. (row.0.now, row.1.now)) table.now) word.now }
{
    for row in table {
        if same_name(row.0.as_bytes(), before(word, row.0.len())) {
            return row.1;
        }
    }
    ""
}
