//! Tests touch layouts: the number of their keys or the first rule that they break.

use kmn_compiler::compile;
use rule_model::Tables;
use source_tests::fixtures::{is_row, parted};
use std::alloc::{AllocError, Global};
use std::fmt::Write;
use std::test::Fail;
use touch_layout::check_layout;

/// Each line contains a layout and, after ` ⇒ `, the number of its keys or the rule that it breaks. In a layout, `⌖` is U+FEFF,
/// `‹` begins a platform whose first layer is `a`, up to its rows, and `«` and `»` enclose the keys of the only row of layer `a` of
/// a tablet.
const LAYOUTS: &str = r##"== texts that are no JSON object, and the empty one
 ⇒ refused T1 platform 0 layer 0 row 0 key 0
⌖{} ⇒ keys 0
[] ⇒ refused T2 platform 0 layer 0 row 0 key 0
== parts of a wrong type
{"desktop":{}} ⇒ refused T2 platform 3 layer 0 row 0 key 0
{"tablet":{"layer":[{"id":"a","row":[{}]}]}} ⇒ refused T2 platform 2 layer 1 row 1 key 0
== two layers of one id, and members that occur twice
{"phone":{"layer":[{"id":"a","row":[]},{"id":"A","row":[]}]}} ⇒ refused T6 platform 1 layer 2 row 0 key 0
{"phone":{"layer":[{"id":"a","row":[]}]},"x":1e999} ⇒ refused T1 platform 0 layer 0 row 0 key 0
{"phone":{"layer":[{"id":"a","row":[],"row":{}}]}} ⇒ refused T2 platform 1 layer 1 row 0 key 0
{"desktop":{"layer":[{"id":"a","row":[{"key":[{"id":"x"}]}]},{"id":"a","row":[]}]}} ⇒ refused T6 platform 3 layer 2 row 0 key 0
== layers that keys lead to, and custom keys, in several platforms
{"phone":‹]}]},"tablet":{"layer":[{"id":"b","row":[{"key":[{"nextlayer":"b"},{"nextlayer":"a"}]}]}]}} ⇒ refused T4 platform 2 layer 1 row 1 key 2
{"desktop":‹{"key":[{"id":"x"}]}]}]},"phone":‹{"key":[]},{"key":[{"id":"T_x"}]}]}]}} ⇒ refused T5 platform 1 layer 1 row 2 key 1
== keys of a wrong type
«{},{"id":1}» ⇒ refused T2 platform 2 layer 1 row 1 key 2
«{"id":"x"},7» ⇒ refused T2 platform 2 layer 1 row 1 key 2
«{"id":"x","sk":[{"sp":null}]}» ⇒ refused T2 platform 2 layer 1 row 1 key 1
== keys that are reached from a key
«{"sk":[{"nextlayer":"b"}]},{"id":"x"}» ⇒ refused T4 platform 2 layer 1 row 1 key 1
«{"flick":{"nw":{"id":"K_ZZ"}}}» ⇒ refused T3 platform 2 layer 1 row 1 key 1
== names of keys, of layers and of custom keys
«{"id":"T_a b"}» ⇒ refused T3 platform 2 layer 1 row 1 key 1
«{"nextlayer":"a"},{"nextlayer":"A"}» ⇒ refused T4 platform 2 layer 1 row 1 key 2
«{"id":"T_x","sp":9.0}» ⇒ refused T5 platform 2 layer 1 row 1 key 1
«{"flick":{"n":{"id":"T_x"},"e":{"id":"x"}}}» ⇒ refused T5 platform 2 layer 1 row 1 key 1
== custom keys that the keyboard has, or that need no rule
«{"id":"t_FLIP","sk":[{"id":"T_x","sp":"9"}],"multitap":[{"id":"T_x","nextlayer":"a"}]}» ⇒ keys 3"##;

/// A keyboard with a rule for the key T_flip.
const FLIP: &[u8] = b"begin Unicode > use(main)\ngroup(main) using keys\n+ [T_flip] > 'x'\n";

/// Returns the text that a symbol of a layout stands for.
fn text_of(sign: char) -> Option<&'static str> {
    match sign {
        '⌖' => Some("\u{FEFF}"),
        '‹' => Some(r#"{"layer":[{"id":"a","row":["#),
        '«' => Some(r#"{"tablet":{"layer":[{"id":"a","row":[{"key":["#),
        '»' => Some("]}]}]}}"),
        _ => None,
    }
}

/// Returns a layout with its symbols expanded.
fn layout_of(alloc: Global, text: &str) -> Result<String, AllocError> {
    let mut layout = String::new(alloc);
    for c in text.chars() {
        match text_of(c) {
            Some(text) => layout.push_str(text)?,
            None => layout.push(c)?,
        }
    }
    Ok(layout)
}

/// Returns the number of keys of a layout, or the rule that it breaks.
fn answered(alloc: Global, text: &[u8], tables: &Tables) -> Result<String, AllocError> {
    match check_layout(alloc, text, tables) {
        Ok(count) => format!(in alloc; "keys {count}"),
        Err(error) => format!(in alloc; "{error}"),
    }
}

/// Returns whether the check of the layout of a row has the result in the row.
fn is_right(alloc: Global, tables: &Tables, row: &str) -> Result<bool, Fail> {
    let (text, wanted) = parted(row)?;
    let layout = layout_of(alloc, text)?;
    Ok(answered(alloc, layout.as_bytes(), tables)?.as_str() == wanted)
}

/// Returns the first row that isn't right.
fn wrong_row(alloc: Global, tables: &Tables) -> Result<Option<&'static str>, Fail> {
    for row in LAYOUTS.lines().filter(is_row) {
        if !is_right(alloc, tables, row)? {
            return Ok(Some(row));
        }
    }
    Ok(None)
}

/// Returns the first layout that isn't right.
fn wrong_layout(alloc: Global) -> Result<Option<&'static str>, Fail> {
    let tables = compile(alloc, FLIP, &[])?.tables;
    wrong_row(alloc, &tables)
}

#[test]
fn layouts(rt: HostRuntime) -> Result<(), Fail> {
    let wrong = wrong_layout(rt.alloc())?;
    assert!(rt; wrong.is_none(), "{}", wrong.unwrap_or(""));
    Ok(())
}
