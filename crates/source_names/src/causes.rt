//! Why names refuse a line.

ghost use Rattle.std.specs.Prelude.{◌≡◌, ◌++◌, map, IfOk, OnOk};
ghost use Rattle.source_names.specs.Causes.{code_of, cause_refusal};
ghost use Rattle.source_names.specs.Telling.{name_lacked, names_lacked};

use kmn_base::{Code, Memory, Refusal, Seq, Text};
use std::alloc::Global;

/// Why names refuse a statement.
#[derive(Drop)]
pub enum Cause {
    /// No statement defines a store of this name.
    NoStore(Text),
    /// No statement defines a group of this name.
    NoGroup(Text),
    /// Another rule is broken: C02, C03, C04, C07 or C15.
    Broken(Code),
}

/// A cause for which names refuse a line, from 1.
#[derive(Drop)]
pub struct NameFault {
    pub line: u32,
    pub cause: Cause,
}

impl NameFault {
    /// Returns the same cause. Errors: `Memory` if an allocation fails.
    pub(crate) fn copy(&self, alloc: Global) -> Result<NameFault, Memory>
        ensures { IfOk result (λ copy. copy ≡ self.now) }
    {
        let cause = self.cause.copy(alloc)?;
        Ok(NameFault {
            line: self.line,
            cause,
        })
    }

    /// Returns the refusal of the line.
    fn refusal(&self) -> Refusal
        ensures { result ≡ cause_refusal self.now }
    {
        Refusal {
            line: self.line,
            code: self.cause.code(),
        }
    }
}

impl Cause {
    /// Returns the same cause. Errors: `Memory` if an allocation fails.
    fn copy(&self, alloc: Global) -> Result<Cause, Memory>
        ensures { IfOk result (λ copy. copy ≡ self.now) }
    {
        match self {
            Cause::NoStore(name) => Ok(Cause::NoStore(name.copy(alloc)?)),
            Cause::NoGroup(name) => Ok(Cause::NoGroup(name.copy(alloc)?)),
            Cause::Broken(code) => Ok(Cause::Broken(*code)),
        }
    }

    /// Returns the code of the cause.
    fn code(&self) -> Code
        ensures { result ≡ code_of self.now }
    {
        match self {
            Cause::NoStore(_) => Code::C05,
            Cause::NoGroup(_) => Code::C06,
            Cause::Broken(code) => *code,
        }
    }
}

/// Returns the refusals of lines for causes. Errors: `Memory` if an allocation fails.
pub fn refusals_of(alloc: Global, faults: &[NameFault]) -> Result<Seq<Refusal>, Memory>
    ensures { IfOk result (λ refusals. refusals ≡ map cause_refusal faults.now) }
{
    let mut refusals = Seq::new(alloc);
    for fault in faults {
        refusals.add(fault.refusal())?;
    }
    Ok(refusals)
}

/// Returns the names that causes lack: those of stores and of groups. Errors: `Memory` if an allocation fails.
pub fn names_lacked(alloc: Global, faults: &[NameFault]) -> Result<Seq<Text>, Memory>
    ensures { IfOk result (λ names. names ≡ names_lacked faults.now) }
{
    let mut names = Seq::new(alloc);
    for fault in faults {
        add_lacked(alloc, &mut names, &fault.cause)?;
    }
    Ok(names)
}

/// Appends the name that a cause lacks, if it lacks one.
fn add_lacked(alloc: Global, names: &mut Seq<Text>, cause: &Cause) -> Result<(), Memory>
    ensures { OnOk result (names.new ≡ names.old ++ name_lacked cause.now) }
{
    match cause {
        Cause::NoStore(name) => names.add(name.copy(alloc)?),
        Cause::NoGroup(name) => names.add(name.copy(alloc)?),
        Cause::Broken(_) => Ok(()),
    }
}
