//! Checks a program in phases, each of which is searched only if the phases before it found no refusal: its start, its names,
//! its items, its limits.

ghost use Rattle.std.specs.Prelude.{◌≡◌, None, IfOk};
ghost use Rattle.std.specs.List.{list_any};
ghost use Rattle.std.specs.Option.{option_or};
ghost use Rattle.kmn_base.specs.Answers.{Answers};
ghost use Rattle.rule_model.specs.Src.{is_unicode};
ghost use Rattle.store_table.specs.First.{or_refusal};
ghost use Rattle.store_table.specs.Numbering.{lists_of};
ghost use Rattle.item_checker.specs.Items.{items_refusal};
ghost use Rattle.rule_checker.specs.Limits.{limits_refusal};
ghost use Rattle.rule_checker.specs.Refused.{IsRead, refused, start_refusal};

use crate::limits::limits_refusal;
use item_checker::items_refusal;
use kmn_base::{Code, CompileError, Memory, Refusal};
use rule_model::{BeginDef, Program};
use std::alloc::Global;
use std::marker::Model;
use store_table::{Names, number};

/// A program that was read and isn't refused, with its names. Contracts model it as the program.
pub struct Checked {
    program: Program,
    names: Names,
}

/// Written by hand so that proofs see one call; a derived drop is expanded at each exit.
impl Drop for Checked {
    fn drop(self) {
        let Checked {
            program: _,
            names: _,
        } = self;
    }
}

impl Model for Checked {
    ghost use Rattle.rule_model.specs.declared.program.Program.{Program};
    ghost use Rattle.rule_checker.specs.Refused.{IsChecked};

    ghost Value = { Program };

    ghost view = { λ c. c.program };

    ghost invariant = { λ c. IsChecked c.program c.names };
}

impl Checked {
    /// Returns the program.
    pub fn program(&self) -> &Program
        ensures value { result.now ≡ self.now }
        ensures read { IsRead self.now }
        ensures unrefused { refused self.now ≡ None }
    {
        &self.program
    }

    /// Returns the names of the program.
    pub fn names(&self) -> &Names
        ensures { result.now ≡ lists_of self.now }
    {
        &self.names
    }
}

/// Returns the program if it is not refused, or its first refusal: C01 to C22, or C25.
pub fn check(alloc: Global, program: Program) -> Result<Checked, CompileError>
    requires { IsRead program }
    ensures { Answers (or_refusal program (refused program)) result }
{
    let names = checked_names(alloc, &program)?;
    Ok(Checked { program, names })
}

/// Returns the names of a program, or its first refusal.
#[tactic(auto, unfolding(crate::specs::Refused::refused))]
fn checked_names(alloc: Global, program: &Program) -> Result<Names, CompileError>
    ensures { Answers (or_refusal (lists_of program.now) (refused program.now)) result }
{
    match start_refusal(program) {
        Some(refusal) => return Err(CompileError::Refused(refusal)),
        None => {}
    }
    let names = number(alloc, program)?;
    match later_refusal(alloc, program)? {
        Some(refusal) => Err(CompileError::Refused(refusal)),
        None => Ok(names),
    }
}

/// Returns the refusal of a program without a `begin Unicode`: C01, at line 1.
pub fn start_refusal(program: &Program) -> Option<Refusal>
    ensures { result ≡ start_refusal program.now }
{
    if is_started(program.begins.as_slice()) {
        None
    } else {
        Some(Refusal {
            line: 1,
            code: Code::C01,
        })
    }
}

/// Returns whether there is a `begin Unicode`.
fn is_started(begins: &[BeginDef]) -> bool
    ensures { result ≡ list_any is_unicode begins.now }
{
    for start in begins {
        if start.unicode {
            return true;
        }
    }
    false
}

/// Returns the first refusal for items, then for limits.
fn later_refusal(alloc: Global, program: &Program) -> Result<Option<Refusal>, Memory>
    ensures { IfOk result (λ refusal. refusal ≡ option_or (items_refusal program.now) (limits_refusal program.now)) }
{
    match items_refusal(alloc, program)? {
        Some(refusal) => Ok(Some(refusal)),
        None => limits_refusal(alloc, program),
    }
}
