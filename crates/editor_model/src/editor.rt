//! A text with a caret, as a gap buffer: one array with its spare room at the caret.
//!
//! An insertion or deletion at the caret moves no other character, and a caret move moves the characters that it passes. A new
//! array has spare room for at least as many characters as the text has, so insertions take constant time on average.

ghost use Rattle.std.specs.Prelude.{◌≡◌, ◌≢◌, ◌+◌, ◌-◌, ◌^◌, ◌≤◌, ◌<◌, [], ◌∷◌, ◌++◌, length, take, drop, Err, OnOk, IfOk, IfErr};
ghost use Rattle.kmn_base.specs.Lists.{without_last};
ghost use Rattle.rule_model.specs.Event.{edit_refusal, edited_text, moved_caret};
ghost use Rattle.editor_model.specs.Text.{whole, IsAt, left_after, right_after};
ghost use Rattle.editor_model.specs.Answers.{caret_refusal, IsAnswerTo, Becomes};

use crate::error::EditError;
use kmn_base::limits::TEXT_CHARS;
use kmn_base::{KeyPress, Memory};
use rule_model::moved_caret;
use std::alloc::Global;
use std::marker::Model;
use virtual_keys::codes::{K_DEL, K_END, K_ENTER, K_HOME, K_LEFT, K_RIGHT, K_TAB};
use virtual_keys::is_plain;

/// A text with a caret and spare room at the caret.
#[derive(Drop)]
pub struct Editor {
    cells: Vec<char>,
    start: usize,
    end: usize,
}

impl Model for Editor {
    ghost use Rattle.std.specs.Prelude.{◌-◌, ◌≤◌, length, take, drop};
    ghost use Rattle.editor_model.specs.Text.{EditorText};

    ghost Value = { EditorText };

    ghost view = { λ editor.
        record { left = take editor.start editor.cells.items; right = drop editor.end editor.cells.items; spare = editor.end - editor.start } };

    ghost invariant = { λ editor. (editor.start ≤ editor.end) × (editor.end ≤ length editor.cells.items) };
}

impl Editor {
    ghost use Rattle.editor_model.specs.Text.{EditorText};

    /// Creates an empty text without spare room.
    pub fn new(alloc: Global) -> Editor
        ensures { result ≡ record { left = []; right = []; spare = 0 } }
    {
        Editor {
            cells: Vec::new(alloc),
            start: 0,
            end: 0,
        }
    }

    /// Returns a copy of the text with the same spare room.
    ///
    /// Errors: `Memory` if an allocation fails.
    pub fn copy(&self, alloc: Global) -> Result<Editor, Memory>
        ensures { IfOk result (λ copy. copy ≡ self.now) }
    {
        Ok(Editor {
            cells: Vec::from_slice(alloc, self.cells.as_slice())?,
            start: self.start,
            end: self.end,
        })
    }

    /// Returns the text before the caret.
    pub fn left(&self) -> &[char]
        ensures { result.now ≡ self.now.left }
    {
        &self.cells[..self.start]
    }

    /// Returns the text after the caret.
    pub fn right(&self) -> &[char]
        ensures { result.now ≡ self.now.right }
    {
        &self.cells[self.end..]
    }

    /// Returns the number of characters of the whole text.
    pub fn len(&self) -> usize
        ensures { result ≡ length (whole self.now) }
    {
        self.start + (self.cells.len() - self.end)
    }

    /// Makes spare room for at least `n` characters. If it allocates, it makes spare room for at least as many characters as the
    /// text has, so that repeated calls do not copy the text each time.
    ///
    /// Errors: `Memory` if an allocation fails.
    pub fn reserve(&mut self, alloc: Global, n: usize) -> Result<(), Memory>
        ensures left { self.new.left ≡ self.old.left }
        ensures right { self.new.right ≡ self.old.right }
        ensures room { OnOk result (n ≤ self.new.spare) }
        ensures kept { self.old.spare ≤ self.new.spare }
        ensures unchanged { IfErr result (λ _. self.new ≡ self.old) }
    {
        if n <= self.end - self.start {
            return Ok(());
        }
        let room = n.max(self.cells.len());
        let (cells, end) = with_capacity(alloc, self.left(), room, self.right())?;
        self.cells = cells;
        self.end = end;
        Ok(())
    }

    /// Deletes characters before the caret, then inserts others there.
    pub fn apply(&mut self, delete: u32, insert: &[char])
        requires characters { delete ≤ length self.old.left }
        requires room { length insert.now ≤ self.old.spare }
        ensures left { self.new.left ≡ without_last delete self.old.left ++ insert.now }
        ensures right { self.new.right ≡ self.old.right }
        ensures room { self.old.spare ≤ self.new.spare + length insert.now }
    {
        let at = self.start - delete as usize;
        write_at(&mut self.cells, at, insert);
        self.start = at + insert.len();
    }

    /// Does what an application does with a key press that was passed on to it.
    pub fn passed(&mut self, press: KeyPress)
        requires { 1 ≤ self.old.spare }
        ensures left { self.new.left ≡ left_after press self.old.left self.old.right }
        ensures right { self.new.right ≡ right_after press self.old.left self.old.right }
        ensures room { self.old.spare ≤ self.new.spare + 1 }
    {
        if !is_plain(press) {
            return;
        }
        match press.code {
            K_ENTER => self.apply(0, &['\n']),
            K_TAB => self.apply(0, &['\t']),
            K_LEFT => self.back(self.left().len().min(1)),
            K_RIGHT => self.forth(self.right().len().min(1)),
            K_HOME => self.back(self.left().len()),
            K_END => self.forth(self.right().len()),
            K_DEL => self.delete_after(),
            _ => (),
        }
    }

    /// Moves the caret to a position of the text. Does not allocate.
    ///
    /// Errors: `Place` exactly when the position is past the end of the text.
    pub fn caret(&mut self, n: u32) -> Result<(), EditError>
        ensures answer { IsAnswerTo (caret_refusal n (length (whole self.old))) result }
        ensures no_memory { result ≢ Err EditError.Memory }
        ensures becomes { Becomes (whole self.old) n self.old self.new result }
        ensures room { self.new.spare ≡ self.old.spare }
    {
        if n as usize > self.len() {
            return Err(EditError::Place);
        }
        self.go_to(n as usize);
        Ok(())
    }

    /// Checks an edit that replaces the characters from position `from` to position `to` with `count` characters.
    ///
    /// Errors: `Place` or `Length` exactly when the edit is refused.
    pub fn try_edit(&self, from: u32, to: u32, count: usize) -> Result<(), EditError>
        ensures answer { IsAnswerTo (edit_refusal from to count (length (whole self.now))) result }
        ensures no_memory { result ≢ Err EditError.Memory }
    {
        if to < from || to as usize > self.len() {
            return Err(EditError::Place);
        }
        let kept = self.len() - (to - from) as usize;
        if kept > TEXT_CHARS || count > TEXT_CHARS - kept {
            return Err(EditError::Length);
        }
        Ok(())
    }

    /// Replaces the characters from position `from` to position `to`. A caret at or before `from` stays, a caret after `to`
    /// stays before the same characters, and a caret between them moves to the end of the new characters.
    ///
    /// Errors: `Place` exactly when `to` is before `from` or past the end of the text, else `Length` if the text would have more
    /// than 1,000,000 characters; `Memory` if an allocation fails.
    pub fn edit(
        &mut self,
        alloc: Global,
        from: u32,
        to: u32,
        text: &[char],
    ) -> Result<(), EditError>
        ensures answer { IsAnswerTo (edit_refusal from to (length text.now) (length (whole self.old))) result }
        ensures becomes { Becomes (edited_text from to text.now (whole self.old))
            (moved_caret from to (length text.now) (length self.old.left)) self.old self.new result }
        ensures room { self.old.spare ≤ self.new.spare + length text.now }
    {
        self.try_edit(from, to, text.len())?;
        self.reserve(alloc, text.len())?;
        let caret = moved_caret(from as usize, to as usize, text.len(), self.left().len());
        self.replace(from, to, text);
        self.go_to(caret);
        Ok(())
    }

    /// Replaces the characters from one position to another, and leaves the caret after the new ones.
    #[tactic(auto, using(crate::proofs::Places::replaced))]
    fn replace(&mut self, from: u32, to: u32, text: &[char])
        requires ordered { from ≤ to }
        requires within { to ≤ length (whole self.old) }
        requires room { length text.now ≤ self.old.spare }
        ensures at { IsAt (edited_text from to text.now (whole self.old)) (from + length text.now) self.new }
        ensures room { self.old.spare ≤ self.new.spare + length text.now }
    {
        self.go_to(to as usize);
        self.apply(to - from, text);
    }

    /// Moves the caret to a position that the text has.
    #[tactic(auto, using(crate::proofs::Places::place_steps))]
    pub fn go_to(&mut self, place: usize)
        requires { place ≤ length (whole self.old) }
        ensures at { IsAt (whole self.old) place self.new }
        ensures room { self.new.spare ≡ self.old.spare }
    {
        let caret = self.left().len();
        if place <= caret {
            self.back(caret - place);
        } else {
            self.forth(place - caret);
        }
    }

    /// Moves the caret by `n` characters towards the start of the text.
    #[tactic(auto, using(crate::proofs::Moves::left_after_back, crate::proofs::Moves::right_after_back))]
    fn back(&mut self, n: usize)
        requires { n ≤ length self.old.left }
        ensures left { self.new.left ≡ without_last n self.old.left }
        ensures right { self.new.right ≡ drop (length self.old.left - n) self.old.left ++ self.old.right }
        ensures room { self.new.spare ≡ self.old.spare }
    {
        let start = self.start - n;
        let end = self.end - n;
        self.cells.copy_within(start..self.start, end);
        self.start = start;
        self.end = end;
    }

    /// Moves the caret by `n` characters towards the end of the text.
    #[tactic(auto, using(crate::proofs::Moves::left_after_forth, crate::proofs::Moves::right_after_forth))]
    fn forth(&mut self, n: usize)
        requires { n ≤ length self.old.right }
        ensures left { self.new.left ≡ self.old.left ++ take n self.old.right }
        ensures right { self.new.right ≡ drop n self.old.right }
        ensures room { self.new.spare ≡ self.old.spare }
    {
        let end = self.end + n;
        self.cells.copy_within(self.end..end, self.start);
        self.start += n;
        self.end = end;
    }

    /// Deletes the character after the caret, if any.
    #[tactic(auto, using(crate::proofs::Moves::right_after_delete))]
    fn delete_after(&mut self)
        ensures left { self.new.left ≡ self.old.left }
        ensures right { self.new.right ≡ drop 1 self.old.right }
        ensures room { self.old.spare ≤ self.new.spare }
    {
        if self.end < self.cells.len() {
            self.end += 1;
        }
    }
}

/// Returns two texts with `room` cells between them, and the position after these cells.
fn with_capacity(
    alloc: Global,
    left: &[char],
    room: usize,
    right: &[char],
) -> Result<(Vec<char>, usize), Memory>
    ensures { IfOk result (λ made. (take (length left.now) made.0.items ≡ left.now) × (made.1 ≡ length left.now + room) × (made.1 ≤ length made.0.items) × (drop made.1 made.0.items ≡ right.now)) }
{
    // A sum that overflows saturates, and the allocator refuses so long a text.
    let end = left.len().saturating_add(room);
    let mut cells = Vec::from_slice(alloc, left)?;
    cells.resize(end, '\0')?;
    cells.extend_from_slice(right)?;
    Ok((cells, end))
}

/// Overwrites the characters from a position on.
fn write_at(cells: &mut Vec<char>, at: usize, text: &[char])
    requires { at + length text.now ≤ length cells.old.items }
    ensures { cells.new.items ≡ take at cells.old.items ++ text.now ++ drop (at + length text.now) cells.old.items }
{
    cells[at..at + text.len()].copy_from_slice(text);
}
