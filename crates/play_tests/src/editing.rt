//! Tests changes of a text with a caret.

use editor_model::{EditError, Editor};
use kmn_base::{KeyPress, Memory};
use source_tests::fixtures::source_of;
use std::alloc::Global;
use std::test::Fail;

/// A change of a text with a caret.
enum Change {
    /// A key that was passed on: its code, and the modifiers held.
    Key(u16, u16),
    /// A caret move to a position.
    Caret(u32),
    /// An edit: its positions and its text.
    Edit(u32, u32, &'static str),
}

/// The text before a caret and the text after it, a change, and its result.
type ChangeRow = (&'static str, &'static str, Change, &'static str);

/// In the result of a change the caret is `|`, a line feed `¶` and a tab `␉`. A refusal is followed by the text after the call.
const CHANGES: &[ChangeRow] = &[
    // Enter and Tab insert a character, Tab also with SHIFT.
    ("ab", "cd", Change::Key(13, 0), "ab¶|cd"),
    ("", "", Change::Key(13, 0), "¶|"),
    ("ab", "cd", Change::Key(9, 16), "ab␉|cd"),
    // Left and Right, also with caps lock on.
    ("ab", "cd", Change::Key(37, 0), "a|bcd"),
    ("", "cd", Change::Key(37, 0), "|cd"),
    ("ab", "", Change::Key(37, 256), "a|b"),
    ("ab", "cd", Change::Key(39, 0), "abc|d"),
    ("ab", "", Change::Key(39, 0), "ab|"),
    ("", "cd", Change::Key(39, 0), "c|d"),
    // Home and End.
    ("ab", "cd", Change::Key(36, 0), "|abcd"),
    ("", "cd", Change::Key(36, 0), "|cd"),
    ("ab", "cd", Change::Key(35, 0), "abcd|"),
    ("ab", "", Change::Key(35, 0), "ab|"),
    // Delete.
    ("ab", "cd", Change::Key(46, 0), "ab|d"),
    ("ab", "", Change::Key(46, 0), "ab|"),
    ("", "c", Change::Key(46, 0), "|"),
    // Backspace and F1 do nothing here.
    ("ab", "cd", Change::Key(8, 0), "ab|cd"),
    ("ab", "cd", Change::Key(112, 0), "ab|cd"),
    // Keys with CTRL or ALT held do nothing. Other bits of the modifiers do not count.
    ("ab", "cd", Change::Key(13, 1), "ab|cd"),
    ("ab", "cd", Change::Key(37, 2), "ab|cd"),
    ("ab", "cd", Change::Key(36, 4), "ab|cd"),
    ("ab", "cd", Change::Key(46, 8), "ab|cd"),
    ("ab", "cd", Change::Key(9, 18), "ab|cd"),
    ("ab", "cd", Change::Key(35, 64), "abcd|"),
    // Caret moves: a position is at most the length of the text.
    ("ab", "cd", Change::Caret(0), "|abcd"),
    ("ab", "cd", Change::Caret(2), "ab|cd"),
    ("ab", "cd", Change::Caret(3), "abc|d"),
    ("ab", "cd", Change::Caret(4), "abcd|"),
    ("ab", "cd", Change::Caret(5), "E1 ab|cd"),
    ("", "", Change::Caret(0), "|"),
    // Edits after the caret, before it, and across it.
    ("ab", "cd", Change::Edit(2, 2, "xy"), "ab|xycd"),
    ("ab", "cd", Change::Edit(3, 4, ""), "ab|c"),
    ("ab", "cd", Change::Edit(0, 1, "xyz"), "xyzb|cd"),
    ("ab", "cd", Change::Edit(0, 2, "x"), "x|cd"),
    ("ab", "cd", Change::Edit(1, 3, "xyz"), "axyz|d"),
    ("ab", "cd", Change::Edit(1, 3, ""), "a|d"),
    ("ab", "cd", Change::Edit(0, 4, "xyz"), "xyz|"),
    // Edits with the caret at the start of the text.
    ("", "ab", Change::Edit(0, 0, "xy"), "|xyab"),
    ("", "ab", Change::Edit(0, 2, "xy"), "|xy"),
    // Positions after the end, or in the wrong order; an edit at the end.
    ("ab", "cd", Change::Edit(4, 5, "x"), "E1 ab|cd"),
    ("ab", "cd", Change::Edit(3, 2, "x"), "E1 ab|cd"),
    ("ab", "cd", Change::Edit(4, 4, "\t"), "ab|cd␉"),
];

/// Inserts a text before the caret.
fn put(alloc: Global, editor: &mut Editor, text: &str) -> Result<(), Memory> {
    for c in text.chars() {
        editor.reserve(alloc, 1)?;
        editor.apply(0, &[c]);
    }
    Ok(())
}

/// Returns a text with a caret in it.
fn editor_of(alloc: Global, left: &str, right: &str) -> Result<Editor, Memory> {
    let mut editor = Editor::new(alloc);
    put(alloc, &mut editor, left)?;
    put(alloc, &mut editor, right)?;
    for _ in right.chars() {
        editor.reserve(alloc, 1)?;
        editor.passed(KeyPress { code: 37, mods: 0 });
    }
    Ok(editor)
}

/// Appends characters.
fn put_chars(text: &mut String, chars: &[char]) -> Result<(), Memory> {
    for c in chars {
        text.push(*c)?;
    }
    Ok(())
}

/// Returns a text with its caret.
fn shown(alloc: Global, editor: &Editor) -> Result<String, Memory> {
    let mut text = String::new(alloc);
    put_chars(&mut text, editor.left())?;
    text.push('|')?;
    put_chars(&mut text, editor.right())?;
    Ok(text)
}

/// Returns the result of a change of an editor, as `source_of` reads the result of a row.
fn answered(
    alloc: Global,
    editor: &Editor,
    answer: Result<(), EditError>,
) -> Result<String, Memory> {
    let mut text = match answer {
        Ok(()) => String::new(alloc),
        Err(EditError::Place) => String::from_str(alloc, "E1 ")?,
        Err(EditError::Length) => String::from_str(alloc, "E2 ")?,
        Err(EditError::Memory) => return Err(Memory),
    };
    text.push_str(shown(alloc, editor)?.as_str())?;
    Ok(text)
}

/// Performs a change.
fn make(
    alloc: Global,
    editor: &mut Editor,
    change: &Change,
) -> Result<Result<(), EditError>, Memory> {
    match change {
        Change::Key(code, mods) => {
            editor.reserve(alloc, 1)?;
            editor.passed(KeyPress {
                code: *code,
                mods: *mods,
            });
            Ok(Ok(()))
        }
        Change::Caret(place) => Ok(editor.caret(*place)),
        Change::Edit(from, to, text) => {
            let text: Vec<char> = text.chars().collect(alloc)?;
            Ok(editor.edit(alloc, *from, *to, text.as_slice()))
        }
    }
}

/// Returns whether a row is right.
fn is_right(alloc: Global, row: &ChangeRow) -> Result<bool, Fail> {
    let (left, right, change, wanted) = row;
    let wanted = source_of(alloc, wanted)?;
    let mut editor = editor_of(alloc, left, right)?;
    let answer = make(alloc, &mut editor, change)?;
    Ok(answered(alloc, &editor, answer)?.as_str() == wanted.as_str())
}

#[test]
fn changes(rt: HostRuntime) -> Result<(), Fail> {
    for row in CHANGES {
        assert!(rt; is_right(rt.alloc(), row)?, "{}", row.3);
    }
    Ok(())
}

/// Errors and their printed texts.
const PRINTED: &[(EditError, &str)] = &[
    (EditError::Place, "refused E1"),
    (EditError::Length, "refused E2"),
    (EditError::Memory, "out of memory"),
];

#[test]
fn edit_errors(rt: HostRuntime) -> Result<(), Fail> {
    let alloc = rt.alloc();
    for (error, wanted) in PRINTED {
        assert!(rt;
            format!(in alloc; "{error}")?.as_str() == *wanted,
            "{wanted}"
        );
    }
    Ok(())
}
