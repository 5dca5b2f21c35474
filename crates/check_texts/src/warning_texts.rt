//! The codes and the texts of warnings and notes.

ghost use Rattle.std.specs.Prelude.{◌≡◌, ◌++◌, encode_utf8_all, IfOk, OnOk};
ghost use Rattle.check_texts.specs.WarningTexts.{around, around_two, element_before, element_between, fixed_text, is_note, joined_text, keys_before, named_text, size_after, size_between, warning_code, warning_text};

use crate::line_lists::{put_never_first, put_too_many};
use crate::shown_words::put_shown;
use kmn_base::{Memory, Text};
use name_warnings::WarningKind;
use std::alloc::Global;

/// Returns the code of a warning.
pub fn warning_code(kind: &WarningKind) -> &'static str
    ensures { result.now ≡ warning_code kind.now }
{
    match kind {
        WarningKind::UnusedStore { .. } => "W01",
        WarningKind::MarkNeverSought { .. } => "W02",
        WarningKind::MarkNeverPut { .. } => "W03",
        WarningKind::GroupNeverEntered { .. } => "W04",
        WarningKind::ShorterIndex { .. } => "W05",
        WarningKind::RepeatedElement { .. } => "W06",
        WarningKind::NeverFirst { .. } => "W07",
        WarningKind::NeverFirstNotSought { .. } => "W07",
        WarningKind::OptionNeverAsked { .. } => "W08",
        WarningKind::ContradictoryConditions => "W09",
        WarningKind::OptionNeverSet { .. } => "W10",
        WarningKind::ValueNeverSet { .. } => "W11",
        WarningKind::SavedNeverSet { .. } => "W12",
        WarningKind::KeyNeverPressed => "W13",
        WarningKind::KeysNeverPressed { .. } => "W13",
        WarningKind::PatternWithoutElements { .. } => "W14",
        WarningKind::KeyGivesTheSame => "W15",
        WarningKind::SecondSystemStore => "W16",
        WarningKind::KeyNotLaid { .. } => "W17",
        WarningKind::LongerIndex { .. } => "W18",
    }
}

/// Returns whether a warning is only a note.
#[tactic(auto, unfolding(crate::specs::WarningTexts::is_note))]
pub fn is_note(kind: &WarningKind) -> bool
    ensures { result ≡ is_note kind.now }
{
    match kind {
        WarningKind::NeverFirstNotSought { .. } => true,
        WarningKind::OptionNeverSet { .. } => true,
        WarningKind::ValueNeverSet { .. } => true,
        WarningKind::KeyGivesTheSame => true,
        WarningKind::LongerIndex { .. } => true,
        _ => false,
    }
}

/// Appends the text of a warning.
///
/// Errors: `Memory` if an allocation fails.
#[tactic(auto, unfolding(crate::specs::WarningTexts::warning_text))]
pub fn put_warning_text(alloc: Global, line: &mut Text, kind: &WarningKind) -> Result<(), Memory>
    ensures { OnOk result (line.new ≡ line.old ++ warning_text kind.now) }
{
    put_named_text(line, kind)?;
    put_joined_text(alloc, line, kind)?;
    line.extend_from_slice(fixed_text(kind).as_bytes())
}

/// Appends the text of a warning about one name, and no text for other warnings.
fn put_named_text(line: &mut Text, kind: &WarningKind) -> Result<(), Memory>
    ensures { OnOk result (line.new ≡ line.old ++ named_text kind.now) }
{
    match kind {
        WarningKind::UnusedStore { store } => {
            put_around(line, b"store '", store, b"' is used nowhere")
        }
        WarningKind::MarkNeverSought { mark } => {
            put_around(line, b"deadkey '", mark, b"' is put and never looked for")
        }
        WarningKind::MarkNeverPut { mark } => {
            put_around(line, b"deadkey '", mark, b"' is looked for and never put")
        }
        WarningKind::GroupNeverEntered { group } => {
            put_around(line, b"group '", group, b"' is never entered")
        }
        WarningKind::OptionNeverAsked { option } => {
            put_around(line, b"option '", option, b"' is set and never asked for")
        }
        WarningKind::OptionNeverSet { option } => {
            put_around(
                line,
                b"option '",
                option,
                b"' is asked for, and nothing sets it",
            )
        }
        WarningKind::SavedNeverSet { option } => {
            put_around(
                line,
                b"option '",
                option,
                b"' is saved, and nothing sets it",
            )
        }
        WarningKind::PatternWithoutElements { store } => {
            put_around(
                line,
                b"store '",
                store,
                b"' has no character and no deadkey",
            )
        }
        WarningKind::KeyNotLaid { key } => put_around(
            line,
            b"no key of the layout is '",
            key,
            b"'",
        ),
        _ => Ok(()),
    }
}

/// Appends a text with a name in it.
fn put_around(line: &mut Text, front: &[u8], name: &Text, rest: &[u8]) -> Result<(), Memory>
    ensures { OnOk result (line.new ≡ line.old ++ around front.now name.now rest.now) }
{
    line.extend_from_slice(front)?;
    put_shown(line, name.as_slice())?;
    line.extend_from_slice(rest)
}

/// Appends a text with two names in it.
fn put_around_two(
    line: &mut Text,
    front: &[u8],
    name: &Text,
    between: &[u8],
    other: &Text,
    rest: &[u8],
) -> Result<(), Memory>
    ensures { OnOk result (line.new ≡ line.old ++ around_two front.now name.now between.now other.now rest.now) }
{
    line.extend_from_slice(front)?;
    put_shown(line, name.as_slice())?;
    line.extend_from_slice(between)?;
    put_shown(line, other.as_slice())?;
    line.extend_from_slice(rest)
}

/// Appends the text of a warning about several names or numbers, and no text for other warnings.
fn put_joined_text(alloc: Global, line: &mut Text, kind: &WarningKind) -> Result<(), Memory>
    ensures { OnOk result (line.new ≡ line.old ++ joined_text kind.now) }
{
    match kind {
        WarningKind::ShorterIndex {
            index,
            elements,
            any,
            any_elements,
        } => put_sizes(alloc, line, index, *elements, any, *any_elements),
        WarningKind::RepeatedElement { place, any, index } => {
            put_repeated(alloc, line, *place, any, index)
        }
        WarningKind::NeverFirst { lines } => put_never_first(alloc, line, lines.as_slice()),
        WarningKind::NeverFirstNotSought { records } => put_too_many(alloc, line, *records),
        WarningKind::ValueNeverSet { option, value } => {
            put_value(alloc, line, option, value.as_slice())
        }
        WarningKind::KeysNeverPressed { store, count, keys } => {
            put_keys(alloc, line, store, *count, *keys)
        }
        WarningKind::LongerIndex { index, any } => put_around_two(
            line,
            b"index('",
            index,
            b"') has more elements than any('",
            any,
            b"')",
        ),
        _ => Ok(()),
    }
}

/// Appends the text about the sizes of an index store and of the store of its `any`.
fn put_sizes(
    alloc: Global,
    line: &mut Text,
    index: &Text,
    elements: usize,
    any: &Text,
    any_elements: usize,
) -> Result<(), Memory>
    ensures { OnOk result (line.new ≡ line.old ++ joined_text (WarningKind.ShorterIndex index.now elements any.now any_elements)) }
{
    let between = size_between(alloc, elements)?;
    let rest = size_after(alloc, any_elements)?;
    put_around_two(
        line,
        b"index('",
        index,
        between.as_slice(),
        any,
        rest.as_slice(),
    )
}

/// Returns the text between the names of two stores, with the size of the first.
#[tactic(auto, unfolding(crate::specs::WarningTexts::size_between))]
fn size_between(alloc: Global, elements: usize) -> Result<Text, Memory>
    ensures { IfOk result (λ text. text ≡ size_between elements) }
{
    let text = format!(in alloc; "') has {elements} elements, any('")?;
    Ok(Text::from_string(text))
}

/// Returns the text after the names of two stores, with the size of the second.
#[tactic(auto, unfolding(crate::specs::WarningTexts::size_after))]
fn size_after(alloc: Global, elements: usize) -> Result<Text, Memory>
    ensures { IfOk result (λ text. text ≡ size_after elements) }
{
    let text = format!(in alloc; "') {elements}")?;
    Ok(Text::from_string(text))
}

/// Appends the text about an element that is in a store before.
fn put_repeated(
    alloc: Global,
    line: &mut Text,
    place: usize,
    any: &Text,
    index: &Text,
) -> Result<(), Memory>
    ensures { OnOk result (line.new ≡ line.old ++ joined_text (WarningKind.RepeatedElement place any.now index.now)) }
{
    let front = element_before(alloc, place)?;
    let between = element_between(alloc, place)?;
    put_around_two(
        line,
        front.as_slice(),
        any,
        between.as_slice(),
        index,
        b"' never comes",
    )
}

/// Returns the text before the name of a store with an element.
#[tactic(auto, unfolding(crate::specs::WarningTexts::element_before))]
fn element_before(alloc: Global, place: usize) -> Result<Text, Memory>
    ensures { IfOk result (λ text. text ≡ element_before place) }
{
    let text = format!(in alloc; "element {place} of '")?;
    Ok(Text::from_string(text))
}

/// Returns the text between the names of a store with a repeated element and of the other store.
#[tactic(auto, unfolding(crate::specs::WarningTexts::element_between))]
fn element_between(alloc: Global, place: usize) -> Result<Text, Memory>
    ensures { IfOk result (λ text. text ≡ element_between place) }
{
    let text = format!(in alloc; "' stands there before, so element {place} of '")?;
    Ok(Text::from_string(text))
}

/// Appends the text about a value that an option never has.
fn put_value(alloc: Global, line: &mut Text, option: &Text, value: &[char]) -> Result<(), Memory>
    ensures { OnOk result (line.new ≡ line.old ++ joined_text (WarningKind.ValueNeverSet option.now value.now)) }
{
    let text = text_of(alloc, value)?;
    put_around_two(line, b"option '", option, b"' is never '", &text, b"'")
}

/// Returns characters as a text.
fn text_of(alloc: Global, characters: &[char]) -> Result<Text, Memory>
    ensures { IfOk result (λ text. text ≡ encode_utf8_all characters.now) }
{
    let mut text = String::new(alloc);
    for character in characters {
        text.push(*character)?;
    }
    Ok(Text::from_string(text))
}

/// Appends the text about keys in a store that no press has.
fn put_keys(
    alloc: Global,
    line: &mut Text,
    store: &Text,
    count: usize,
    keys: usize,
) -> Result<(), Memory>
    ensures { OnOk result (line.new ≡ line.old ++ joined_text (WarningKind.KeysNeverPressed store.now count keys)) }
{
    let front = keys_before(alloc, count, keys)?;
    put_around(line, front.as_slice(), store, b"' are given by no press")
}

/// Returns the text before the name of a store with keys that no press has.
#[tactic(auto, unfolding(crate::specs::WarningTexts::keys_before))]
fn keys_before(alloc: Global, count: usize, keys: usize) -> Result<Text, Memory>
    ensures { IfOk result (λ text. text ≡ keys_before count keys) }
{
    let text = format!(in alloc; "{count} of {keys} keys of '")?;
    Ok(Text::from_string(text))
}

/// Returns the text of a warning without names, and no text for other warnings.
fn fixed_text(kind: &WarningKind) -> &'static str
    ensures { result.now ≡ fixed_text kind.now }
{
    match kind {
        WarningKind::ContradictoryConditions => "these conditions are never true together",
        WarningKind::KeyNeverPressed => "no press gives this key",
        WarningKind::KeyGivesTheSame => "the key gives this without a rule",
        WarningKind::SecondSystemStore => "the first of these statements counts",
        _ => "",
    }
}
