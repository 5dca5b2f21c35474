//! Writes the items of stores, contexts, keys and outputs.

ghost use Rattle.std.specs.Prelude.{◌≡◌, ◌++◌, ◌∷◌, [], map, bit_or, OnOk};
ghost use Rattle.std.specs.Fmt.{decimal};
ghost use Rattle.kmn_base.specs.declared.keys.TheConstants.{VIRTUAL_KEY};
ghost use Rattle.virtual_keys.specs.Keys.{shift_flags};
ghost use Rattle.rule_model.specs.Tab.{elements_of};
ghost use Rattle.kmn_parser.specs.Items.{option_name};
ghost use Rattle.decompile_text.specs.Pages.{with_text};
ghost use Rattle.decompile_text.specs.OneByOne.{with_flag_words};
ghost use Rattle.decompile_text.specs.Texts.{call_text, index_text, compared_text, flag_text, virtual_text, element_text, pattern_text, output_text, key_text};

use crate::characters::put_character;
use crate::page::Page;
use crate::values::{SizedNames, put_value};
use decompile_program::Called;
use kmn_base::keys::VIRTUAL_KEY;
use kmn_base::{Element, Memory, RuleKey};
use rule_model::system::PLATFORM;
use rule_model::{Out, Pat};
use virtual_keys::modifiers;

/// Appends a word with a name in parentheses.
#[tactic(auto, using(crate::proofs::MoreText::with_text_append, crate::proofs::MoreText::with_no_text))]
pub(crate) fn put_call(page: &mut Page, word: &[u8], name: &[u8]) -> Result<(), Memory>
    ensures { OnOk result (page.new ≡ with_text page.old (call_text word.now name.now)) }
{
    page.put(word)?;
    page.put(b"(")?;
    page.put(name)?;
    page.put(b")")
}

/// Appends an element of a store.
#[tactic(auto, using(crate::proofs::MoreText::with_text_append, crate::proofs::MoreText::with_no_text), unfolding(crate::specs::Texts::element_text, crate::specs::Texts::virtual_text))]
pub(crate) fn put_element(
    page: &mut Page,
    names: &Called<'_>,
    element: &Element,
) -> Result<(), Memory>
    ensures { OnOk result (page.new ≡ with_text page.old (element_text names.now element.now)) }
{
    match element {
        Element::Char(c) => put_character(page, *c as u32),
        Element::Mark(mark) => put_numbered(page, b"dk", u32::from(*mark)),
        Element::Key { flags, code } => put_key(page, names, u32::from(*flags), *code),
    }
}

/// Appends a word with a number in parentheses.
#[tactic(auto, using(crate::proofs::MoreText::with_text_append, crate::proofs::MoreText::with_no_text))]
fn put_numbered(page: &mut Page, word: &[u8], number: u32) -> Result<(), Memory>
    ensures { OnOk result (page.new ≡ with_text page.old (call_text word.now (decimal number))) }
{
    page.put(word)?;
    page.put(b"(")?;
    page.put_number(number)?;
    page.put(b")")
}

/// Appends a virtual key.
#[tactic(auto, using(crate::proofs::Puts::key_is, crate::proofs::KeyTexts::virtual_is))]
fn put_key(page: &mut Page, names: &Called<'_>, flags: u32, code: u16) -> Result<(), Memory>
    ensures { OnOk result (page.new ≡ with_text page.old (virtual_text names.now flags code)) }
{
    page.put(b"[")?;
    put_modifiers(page, flags)?;
    page.put(names.key_name(code))?;
    page.put(b"]")
}

/// Appends the modifier words of a virtual key's flags. In a text, `VIRTUAL_KEY` is always one of the flags.
fn put_modifiers(page: &mut Page, flags: u32) -> Result<(), Memory>
    ensures { OnOk result (page.new ≡ with_flag_words (bit_or flags VIRTUAL_KEY) page.old shift_flags) }
{
    put_flags(page, flags | u32::from(VIRTUAL_KEY), modifiers())
}

/// Appends the modifier words of shift flags, each followed by a space.
#[tactic(auto, using(crate::proofs::MoreText::with_text_append, crate::proofs::MoreText::with_no_text))]
fn put_flags(
    page: &mut Page,
    flags: u32,
    table: &'static [(&'static str, u16)],
) -> Result<(), Memory>
    ensures { OnOk result (page.new ≡ with_flag_words flags page.old (map (λ row. (row.0.now, row.1)) table.now)) }
{
    for row in table {
        put_flag(page, flags, row.0.as_bytes(), u32::from(row.1))?;
    }
    Ok(())
}

/// Appends the word of a flag and a space, if the flag is set.
#[tactic(auto, using(crate::proofs::MoreText::with_text_append, crate::proofs::MoreText::with_no_text))]
fn put_flag(page: &mut Page, flags: u32, word: &[u8], flag: u32) -> Result<(), Memory>
    ensures { OnOk result (page.new ≡ with_text page.old (flag_text flags word.now flag)) }
{
    if flags & flag == 0 {
        return Ok(());
    }
    page.put(word)?;
    page.put(b" ")
}

/// Appends an item of a context.
#[tactic(auto, using(crate::proofs::MoreText::with_text_append, crate::proofs::MoreText::with_no_text), unfolding(crate::specs::Texts::pattern_text, crate::specs::Texts::quoted_text))]
pub(crate) fn put_pattern(
    page: &mut Page,
    names: &SizedNames<'_>,
    pattern: &Pat,
) -> Result<(), Memory>
    ensures { OnOk result (page.new ≡ with_text page.old (pattern_text names.now pattern.now)) }
{
    let called = names.called();
    match pattern {
        Pat::Char(c) => put_character(page, *c as u32),
        Pat::Mark(mark) => put_numbered(page, b"dk", u32::from(*mark)),
        Pat::Any(store) => put_call(page, b"any", called.store(*store)),
        Pat::NotAny(store) => put_call(page, b"notany", called.store(*store)),
        Pat::Index(store, offset) => put_index(page, called.store(*store), *offset),
        Pat::ContextAt(offset) => put_numbered(page, b"context", *offset),
        Pat::Equal(store, value) => {
            put_compared(page, b"if", called.store(*store), b"=", names, *value)
        }
        Pat::Unequal(store, value) => {
            put_compared(page, b"if", called.store(*store), b"!=", names, *value)
        }
        Pat::SystemEqual(id, value) => {
            put_compared(page, b"if", option_name(*id), b"=", names, *value)
        }
        Pat::SystemUnequal(id, value) => {
            put_compared(page, b"if", option_name(*id), b"!=", names, *value)
        }
        Pat::Nul => page.put(b"nul"),
    }
}

/// Appends `index` with a name and an offset.
#[tactic(auto, using(crate::proofs::MoreText::with_text_append, crate::proofs::MoreText::with_no_text))]
fn put_index(page: &mut Page, name: &[u8], offset: u32) -> Result<(), Memory>
    ensures { OnOk result (page.new ≡ with_text page.old (index_text name.now offset)) }
{
    page.put(b"index(")?;
    page.put(name)?;
    page.put(b",")?;
    page.put_number(offset)?;
    page.put(b")")
}

/// Appends a comparison or an assignment: a word, and in parentheses a name, an operator and the value of a store.
#[tactic(auto, using(crate::proofs::Puts::compared_is))]
fn put_compared(
    page: &mut Page,
    word: &[u8],
    name: &[u8],
    sign: &[u8],
    names: &SizedNames<'_>,
    value: u32,
) -> Result<(), Memory>
    ensures { OnOk result (page.new ≡ with_text page.old (compared_text word.now name.now sign.now (elements_of names.now.elements value))) }
{
    put_opened(page, word, name)?;
    put_sign(page, sign)?;
    put_value(page, names, value)?;
    page.put(b")")
}

/// Appends a word, an opening parenthesis and a name.
#[tactic(auto, using(crate::proofs::MoreText::with_text_append, crate::proofs::MoreText::with_no_text))]
fn put_opened(page: &mut Page, word: &[u8], name: &[u8]) -> Result<(), Memory>
    ensures { OnOk result (page.new ≡ with_text page.old (word.now ++ 40 ∷ name.now)) }
{
    page.put(word)?;
    page.put(b"(")?;
    page.put(name)
}

/// Appends an operator between spaces.
#[tactic(auto, using(crate::proofs::MoreText::with_text_append, crate::proofs::MoreText::with_no_text))]
fn put_sign(page: &mut Page, sign: &[u8]) -> Result<(), Memory>
    ensures { OnOk result (page.new ≡ with_text page.old (32 ∷ (sign.now ++ 32 ∷ []))) }
{
    page.put(b" ")?;
    page.put(sign)?;
    page.put(b" ")
}

/// Returns the name of the system option with an id, with its `&`.
fn option_name(id: u32) -> &'static [u8]
    ensures { result.now ≡ option_name id }
{
    if id == PLATFORM {
        b"&platform"
    } else {
        b"&layer"
    }
}

/// Appends an item of an output.
#[tactic(auto, using(crate::proofs::MoreText::with_text_append, crate::proofs::MoreText::with_no_text), unfolding(crate::specs::Texts::output_text, crate::specs::Texts::quoted_text))]
pub(crate) fn put_output(
    page: &mut Page,
    names: &SizedNames<'_>,
    output: &Out,
) -> Result<(), Memory>
    ensures { OnOk result (page.new ≡ with_text page.old (output_text names.now output.now)) }
{
    let called = names.called();
    match output {
        Out::Char(c) => put_character(page, *c as u32),
        Out::Mark(mark) => put_numbered(page, b"dk", u32::from(*mark)),
        Out::Index(store, offset) => put_index(page, called.store(*store), *offset),
        Out::Context => page.put(b"context"),
        Out::ContextAt(offset) => put_numbered(page, b"context", *offset),
        Out::Enter(group) => put_call(page, b"use", called.group(*group)),
        Out::Set(store, value) => {
            put_compared(page, b"set", called.store(*store), b"=", names, *value)
        }
        Out::Save(store) => put_call(page, b"save", called.store(*store)),
        Out::Reset(store) => put_call(page, b"reset", called.store(*store)),
        Out::SetSystem(id, value) => {
            put_compared(page, b"set", option_name(*id), b"=", names, *value)
        }
        Out::Nul => page.put(b"nul"),
        Out::Beep => page.put(b"beep"),
        Out::Stop => page.put(b"return"),
    }
}

/// Appends a record's key with its plus and spaces. Does not change the text for a record of a group without keys.
#[tactic(auto, using(crate::proofs::MoreText::with_text_append, crate::proofs::MoreText::with_no_text, crate::proofs::LineTexts::virtual_part), unfolding(crate::specs::Texts::key_text))]
pub(crate) fn put_key_part(page: &mut Page, names: &Called<'_>, key: &RuleKey) -> Result<(), Memory>
    ensures { OnOk result (page.new ≡ with_text page.old (key_text names.now key.now)) }
{
    match key {
        RuleKey::Any => Ok(()),
        RuleKey::Char(unit) => {
            page.put(b"+ ")?;
            put_character(page, u32::from(*unit))?;
            page.put(b" ")
        }
        RuleKey::Virtual { flags, code } => {
            page.put(b"+ ")?;
            put_key(page, names, *flags, *code)?;
            page.put(b" ")
        }
    }
}
