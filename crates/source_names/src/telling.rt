//! The causes that are reported.

ghost use Rattle.std.specs.Prelude.{◌≡◌, ◌++◌, [], ◌∷◌, option_copied, IfOk, OnOk};
ghost use Rattle.source_names.specs.Telling.{group_lacked, groups_lacked, is_at, is_lacked, is_new, reported_causes, new_after, store_lacked, stores_lacked};

use crate::causes::{Cause, NameFault};
use crate::listing::name_causes;
use crate::sorting::sort_by_line;
use kmn_base::{Memory, Seq};
use rule_model::Program;
use std::alloc::Global;
use store_table::NameTable;

/// Returns the causes for which names refuse the statements of a program, in the order of lines: of each statement its first cause that
/// lacks no name that is reported before. Errors: `Memory` if an allocation fails.
#[tactic(auto, unfolding(crate::specs::Telling::reported_causes))]
pub fn reported_causes(alloc: Global, program: &Program) -> Result<Seq<NameFault>, Memory>
    ensures { IfOk result (λ faults. faults ≡ reported_causes program.now) }
{
    let causes = name_causes(alloc, program)?;
    let sorted = sort_by_line(causes)?;
    new_faults(alloc, sorted.as_slice())
}

/// Returns the causes that are reported, of causes in the order of their lines.
#[tactic(auto, using(crate::proofs::Told::new_kept, crate::proofs::Told::new_passed, crate::proofs::Told::stores_push, crate::proofs::Told::groups_push))]
fn new_faults(alloc: Global, causes: &[NameFault]) -> Result<Seq<NameFault>, Memory>
    ensures { IfOk result (λ faults. faults ≡ new_after [] causes.now) }
{
    let mut told = Told {
        faults: Seq::new(alloc),
        stores: NameTable::new(alloc),
        groups: NameTable::new(alloc),
    };
    for fault in causes {
        if is_new(&told, fault) {
            tell(&mut told, fault.copy(alloc)?)?;
        }
    }
    Ok(told.faults)
}

/// The causes that are reported so far, with the names of the stores and of the groups that they lack.
#[derive(Drop)]
struct Told {
    faults: Seq<NameFault>,
    stores: NameTable,
    groups: NameTable,
}

/// Returns whether a cause is reported after these.
fn is_new(told: &Told, fault: &NameFault) -> bool
    requires stores { told.now.stores ≡ stores_lacked told.now.faults }
    requires groups { told.now.groups ≡ groups_lacked told.now.faults }
    ensures { result ≡ is_new told.now.faults fault.now }
{
    !is_at(fault.line, told.faults.as_slice().last()) && !is_lacked(told, &fault.cause)
}

/// Returns whether the name that a cause lacks is among those that these lack.
fn is_lacked(told: &Told, cause: &Cause) -> bool
    requires stores { told.now.stores ≡ stores_lacked told.now.faults }
    requires groups { told.now.groups ≡ groups_lacked told.now.faults }
    ensures { result ≡ is_lacked told.now.faults cause.now }
{
    match cause {
        Cause::NoStore(name) => told.stores.has(name.as_slice()),
        Cause::NoGroup(name) => told.groups.has(name.as_slice()),
        Cause::Broken(_) => false,
    }
}

/// Appends a cause and the name that it lacks.
fn tell(told: &mut Told, fault: NameFault) -> Result<(), Memory>
    ensures faults { OnOk result (told.new.faults ≡ told.old.faults ++ fault ∷ []) }
    ensures stores { OnOk result (told.new.stores ≡ told.old.stores ++ store_lacked fault.cause) }
    ensures groups { OnOk result (told.new.groups ≡ told.old.groups ++ group_lacked fault.cause) }
{
    add_name(&mut told.stores, &mut told.groups, &fault.cause)?;
    told.faults.add(fault)
}

/// Appends the name that a cause lacks to the stores or to the groups.
fn add_name(stores: &mut NameTable, groups: &mut NameTable, cause: &Cause) -> Result<(), Memory>
    ensures stores { OnOk result (stores.new ≡ stores.old ++ store_lacked cause.now) }
    ensures groups { OnOk result (groups.new ≡ groups.old ++ group_lacked cause.now) }
{
    match cause {
        Cause::NoStore(name) => stores.push(name.as_slice()),
        Cause::NoGroup(name) => groups.push(name.as_slice()),
        Cause::Broken(_) => Ok(()),
    }
}

/// Returns whether a cause is at a line.
fn is_at(line: u32, fault: Option<&NameFault>) -> bool
    ensures { result ≡ is_at line (option_copied fault.entry) }
{
    match fault {
        Some(fault) => fault.line == line,
        None => false,
    }
}
