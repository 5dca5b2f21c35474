//! All refusals of a source, found pass by pass.

ghost use Rattle.std.specs.Prelude.{◌≡◌, ◌≤◌, ◌&&◌, [], ◌∷◌, ◌++◌, length, IfOk, OnOk};
ghost use Rattle.kmn_base.specs.declared.limits.TheConstants.{TEXT_BYTES};
ghost use Rattle.source_faults.specs.Reading.{read_all};
ghost use Rattle.source_faults.specs.Faults.{faults, faults_of, further, in_lines, is_empty, items_faults, limits_faults, name_faults, names_faults, program_faults};
ghost use Rattle.source_faults.specs.Stubs.{stubbed};

use crate::found::Found;
use crate::in_lines::sort_by_line;
use crate::reading::read_all;
use crate::refused_lines::RefusedLines;
use crate::stubs::{stub_refused, with_words};
use item_checker::items_refusals;
use kmn_base::limits::TEXT_BYTES;
use kmn_base::{Code, Memory, Refusal, Seq};
use rule_checker::{limits_refusals, start_refusal};
use rule_model::Program;
use source_names::{NameFault, names_lacked, refusals_of, reported_causes};
use std::alloc::Global;
use std::str;
use store_table::add_refusal;

/// Returns all refusals of a source, L01 to L05, S01 to S12 and C01 to C22 and C25, in the order of passes, and of lines in each pass. A
/// line has at most one, except that C01 is always at line 1. A name that is not defined anywhere is reported once. Refused lines do not
/// cause refusals of other lines. Errors: `Memory` if an allocation fails.
#[tactic(auto, using(crate::proofs::SourceBytes::length_is_refused))]
pub fn faults(alloc: Global, source: &[u8]) -> Result<Seq<Refusal>, Memory>
    ensures { IfOk result (λ refusals. refusals ≡ faults source.now) }
{
    if source.len() > TEXT_BYTES {
        return only(alloc, Code::L05);
    }
    match str::from_utf8(source) {
        Ok(text) => text_faults(alloc, text),
        Err(_) => only(alloc, Code::L01),
    }
}

/// Returns all refusals of a source in UTF-8.
fn text_faults(alloc: Global, text: &str) -> Result<Seq<Refusal>, Memory>
    requires { length text.now ≤ TEXT_BYTES }
    ensures { IfOk result (λ refusals. refusals ≡ faults_of (read_all text.now)) }
{
    let found = read_all(alloc, text)?;
    faults_of(alloc, found)
}

/// Returns the causes for which names refuse lines of a source in UTF-8, in the order of lines. A name that is not defined anywhere has
/// one. Errors: `Memory` if an allocation fails.
pub fn name_faults(alloc: Global, source: &str) -> Result<Seq<NameFault>, Memory>
    requires { length source.now ≤ TEXT_BYTES }
    ensures { IfOk result (λ causes. causes ≡ name_faults source.now) }
{
    let found = read_all(alloc, source)?;
    let program = with_words(alloc, found.program, found.words.as_slice())?;
    reported_causes(alloc, &program)
}

/// Returns one refusal, at line 1.
fn only(alloc: Global, code: Code) -> Result<Seq<Refusal>, Memory>
    ensures { IfOk result (λ refusals. refusals ≡ record { line = 1; code = code } ∷ []) }
{
    let mut refusals = Seq::new(alloc);
    refusals.add(Refusal { line: 1, code })?;
    Ok(refusals)
}

/// The refusals so far, in the order in which they are found and in the order in which they are returned.
#[derive(Drop)]
struct Listed {
    found: Seq<Refusal>,
    sorted: Seq<Refusal>,
}

/// Returns the refusals of what is found in the lines of a source.
#[tactic(auto, unfolding(crate::specs::Faults::faults_of))]
fn faults_of(alloc: Global, found: Found) -> Result<Seq<Refusal>, Memory>
    ensures { IfOk result (λ refusals. refusals ≡ faults_of found) }
{
    let program = with_words(alloc, found.program, found.words.as_slice())?;
    let mut read = found.tokens;
    read.append(found.statements)?;
    program_faults(alloc, read, program)
}

/// Returns refusals and those of a program whose lines some of these refuse.
fn program_faults(
    alloc: Global,
    refused: Seq<Refusal>,
    program: Program,
) -> Result<Seq<Refusal>, Memory>
    ensures { IfOk result (λ refusals. refusals ≡ refused ++ program_faults refused program) }
{
    let mut sorted = refused.copy(alloc)?;
    add_refusal(&mut sorted, start_refusal(&program))?;
    let shared = is_empty(sorted.as_slice());
    let listed = Listed {
        found: refused,
        sorted,
    };
    names_faults(alloc, listed, shared, program)
}

/// Returns the listed refusals, and those for names, items and limits.
fn names_faults(
    alloc: Global,
    mut listed: Listed,
    shared: bool,
    program: Program,
) -> Result<Seq<Refusal>, Memory>
    ensures { IfOk result (λ refusals. refusals ≡ listed.sorted ++ names_faults listed.found shared program) }
{
    let causes = reported_causes(alloc, &program)?;
    let names = refusals_of(alloc, causes.as_slice())?;
    let names = further(alloc, listed.found.as_slice(), names.as_slice())?;
    let shared = still_shared(shared, names.as_slice());
    list_in_order(alloc, &mut listed, names)?;
    let lacked = names_lacked(alloc, causes.as_slice())?;
    let mut program = with_words(alloc, program, lacked.as_slice())?;
    stub(alloc, listed.found.as_slice(), &mut program)?;
    items_faults(alloc, listed, shared, program)
}

/// Returns the listed refusals, and those for items and limits.
fn items_faults(
    alloc: Global,
    mut listed: Listed,
    shared: bool,
    mut program: Program,
) -> Result<Seq<Refusal>, Memory>
    ensures { IfOk result (λ refusals. refusals ≡ listed.sorted ++ items_faults listed.found shared program) }
{
    let items = items_refusals(alloc, &program)?;
    let items = further(alloc, listed.found.as_slice(), items.as_slice())?;
    list(alloc, &mut listed, items)?;
    stub(alloc, listed.found.as_slice(), &mut program)?;
    limits_faults(alloc, listed, shared, &program)
}

/// Returns the listed refusals, and those for limits.
fn limits_faults(
    alloc: Global,
    mut listed: Listed,
    shared: bool,
    program: &Program,
) -> Result<Seq<Refusal>, Memory>
    ensures { IfOk result (λ refusals. refusals ≡ listed.sorted ++ limits_faults listed.found shared program.now) }
{
    let limits = limits_refusals(alloc, shared, program)?;
    let limits = further(alloc, listed.found.as_slice(), limits.as_slice())?;
    list(alloc, &mut listed, limits)?;
    Ok(listed.sorted)
}

/// Returns whether the limits that all statements share are still checked after a pass with these refusals.
fn still_shared(shared: bool, refusals: &[Refusal]) -> bool
    ensures { result ≡ (shared && is_empty refusals.now) }
{
    shared && is_empty(refusals)
}

/// Returns whether there are no refusals.
fn is_empty(refusals: &[Refusal]) -> bool
    ensures { result ≡ is_empty refusals.now }
{
    match refusals {
        [] => true,
        _ => false,
    }
}

/// Appends the refusals of a pass that are in the order of lines.
fn list_in_order(alloc: Global, listed: &mut Listed, refusals: Seq<Refusal>) -> Result<(), Memory>
    ensures found { OnOk result (listed.new.found ≡ listed.old.found ++ refusals) }
    ensures sorted { OnOk result (listed.new.sorted ≡ listed.old.sorted ++ refusals) }
{
    let sorted = refusals.copy(alloc)?;
    listed.found.append(refusals)?;
    listed.sorted.append(sorted)
}

/// Appends the refusals of a pass.
fn list(alloc: Global, listed: &mut Listed, refusals: Seq<Refusal>) -> Result<(), Memory>
    ensures found { OnOk result (listed.new.found ≡ listed.old.found ++ refusals) }
    ensures sorted { OnOk result (listed.new.sorted ≡ listed.old.sorted ++ in_lines refusals) }
{
    let sorted = sort_by_line(alloc, refusals.as_slice())?;
    listed.found.append(refusals)?;
    listed.sorted.append(sorted)
}

/// Replaces the refused statements of a program.
fn stub(alloc: Global, refused: &[Refusal], program: &mut Program) -> Result<(), Memory>
    ensures { OnOk result (program.new ≡ stubbed refused.now program.old) }
{
    let lines = RefusedLines::of(alloc, refused)?;
    stub_refused(alloc, &lines, program)
}

/// Returns the refusals of lines that are not refused yet.
fn further(alloc: Global, refused: &[Refusal], refusals: &[Refusal]) -> Result<Seq<Refusal>, Memory>
    ensures { IfOk result (λ kept. kept ≡ further refused.now refusals.now) }
{
    let lines = RefusedLines::of(alloc, refused)?;
    let mut kept = Seq::new(alloc);
    for refusal in refusals {
        if !lines.contains(refusal.line) {
            kept.add(*refusal)?;
        }
    }
    Ok(kept)
}
