//! The lines that are refused, found by hash.

ghost use Rattle.std.specs.Prelude.{◌≡◌, [], ◌∷◌, ◌++◌, IfOk, OnOk};
ghost use Rattle.source_faults.specs.RefusedLines.{HasCodes};
ghost use Rattle.source_faults.specs.Stubs.{code_at, is_refused};

use indexmap::IndexMap;
use kmn_base::{Code, Memory, Refusal};
use std::alloc::Global;
use std::marker::Model;

/// Refused lines with their codes. Contracts model it as the list of refusals.
pub(crate) struct RefusedLines<'a> {
    refusals: &'a [Refusal],
    codes: IndexMap<u32, Code>,
}

/// One call in proofs. A derived drop would be written out in each exit.
impl Drop for RefusedLines<'_> {
    fn drop(self) {
        let RefusedLines {
            refusals: _,
            codes: _,
        } = self;
    }
}

impl<'a> Model for RefusedLines<'a> {
    ghost use Rattle.std.specs.Prelude.{List};
    ghost use Rattle.kmn_base.specs.declared.refusals.Refusal.{Refusal};
    ghost use Rattle.source_faults.specs.RefusedLines.{HasCodes};

    ghost Value = { List Refusal };

    ghost view = { λ lines. lines.refusals.now };

    ghost invariant = { λ lines. HasCodes lines.refusals.now lines.codes.entries };
}

impl<'a> RefusedLines<'a> {
    /// Creates a table of the lines of refusals. Errors: `Memory` if an allocation fails.
    pub(crate) fn of(alloc: Global, refusals: &'a [Refusal]) -> Result<RefusedLines<'a>, Memory>
        ensures { IfOk result (λ lines. lines ≡ refusals.now) }
    {
        let codes = codes_of(alloc, refusals)?;
        Ok(RefusedLines { refusals, codes })
    }

    /// Returns the code with which a line is refused, if it is.
    pub(crate) fn code_at(&self, line: u32) -> Option<Code>
        ensures { result ≡ code_at self.now line }
    {
        self.codes.get(&line).copied()
    }

    /// Returns whether a line is refused. Line 0, which no statement of a source has, is refused if a line is.
    pub(crate) fn contains(&self, line: u32) -> bool
        ensures { result ≡ is_refused self.now line }
    {
        match self.refusals {
            [] => false,
            _ => line == 0 || self.code_at(line).is_some(),
        }
    }
}

/// Returns the code of each refused line. Errors: `Memory` if an allocation fails.
fn codes_of(alloc: Global, refusals: &[Refusal]) -> Result<IndexMap<u32, Code>, Memory>
    ensures { IfOk result (λ codes. HasCodes refusals.now codes.entries) }
{
    let mut codes = IndexMap::new(alloc);
    for refusal in refusals {
        add_code(&mut codes, refusal)?;
    }
    Ok(codes)
}

/// Adds the code of a refused line, unless the line has one.
#[tactic(auto, using(crate::proofs::LineCodes::again_has_codes))]
fn add_code(codes: &mut IndexMap<u32, Code>, refusal: &Refusal) -> Result<(), Memory>
    ensures { OnOk result ((before : _) → HasCodes before codes.old.entries → HasCodes (before ++ refusal.now ∷ []) codes.new.entries) }
{
    if codes.contains_key(&refusal.line) {
        return Ok(());
    }
    match codes.insert(refusal.line, refusal.code) {
        Ok(_) => Ok(()),
        Err(_) => Err(Memory),
    }
}
