//! Finds the name of a keyboard's bitmap, an icon file.

ghost use Rattle.std.specs.Prelude.{◌≡◌, IfOk, filter_map, encode_utf8_all};
ghost use Rattle.rule_model.specs.Tab.{element_char};
ghost use Rattle.kmn_compiler.specs.Picture.{picture_name, picture_text};

use kmn_base::{Element, Memory, Seq, Text};
use rule_checker::Checked;
use rule_expand::system_elements;
use rule_model::system::BITMAP;
use std::alloc::Global;

/// Returns the text of the first `&bitmap` of a program, which names its bitmap, or `None` if there is no `&bitmap` or it is empty.
#[tactic(auto, unfolding(crate::specs::Picture::picture_name))]
pub fn picture_name(alloc: Global, checked: &Checked) -> Result<Option<Text>, Memory>
    ensures { IfOk result (λ name. name ≡ picture_name checked.now) }
{
    let elements = system_elements(alloc, checked, BITMAP)?;
    picture_text(alloc, elements.as_slice())
}

/// Returns the text of elements, or `None` if there are no elements.
fn picture_text(alloc: Global, elements: &[Element]) -> Result<Option<Text>, Memory>
    ensures { IfOk result (λ text. text ≡ picture_text elements.now) }
{
    if elements.is_empty() {
        return Ok(None);
    }
    Ok(Some(text_of(alloc, elements)?))
}

/// Returns the text of the characters among elements.
fn text_of(alloc: Global, elements: &[Element]) -> Result<Text, Memory>
    ensures { IfOk result (λ text. text ≡ encode_utf8_all (filter_map element_char elements.now)) }
{
    let mut text = String::new(alloc);
    for element in elements {
        if let Element::Char(c) = element {
            text.push(*c)?;
        }
    }
    Ok(Seq::from_vec(text.into_bytes()))
}
