//! The words of the lines of a source that are for other programs.

ghost use Rattle.std.specs.Prelude.{◌≡◌, ◌++◌, ◌≤◌, [], flat_map, length, IfOk, OnOk};
ghost use Rattle.kmn_base.specs.declared.limits.TheConstants.{TEXT_BYTES};
ghost use Rattle.kmn_lines.specs.Lines.{logicals};
ghost use Rattle.kmn_lines.specs.Places.{IsPlaced};
ghost use Rattle.kmn_lines.specs.Walks.{physical_lines_left};
ghost use Rattle.source_warnings.specs.Aside.{aside_words, line_aside, physical_words};

use kmn_base::limits::TEXT_BYTES;
use kmn_base::slices::{before, behind};
use kmn_base::{Memory, Seq, Text};
use kmn_lines::{Logical, PhysicalLines, lines, physical_lines};
use source_faults::{add_words, words_of};
use std::alloc::Global;
use std::str;

/// Returns the words of the lines that are for other programs, which begin with `$keymanweb:` or `$kmfl:`, also those in quotes. A source
/// that is not UTF-8 or is too long has none. Errors: `Memory` if an allocation fails.
#[tactic(auto, using(crate::proofs::AsideBytes::long_has_none))]
pub fn aside_words(alloc: Global, source: &[u8]) -> Result<Seq<Text>, Memory>
    ensures { IfOk result (λ words. words ≡ aside_words source.now) }
{
    if source.len() > TEXT_BYTES {
        return nothing(alloc);
    }
    match str::from_utf8(source) {
        Ok(text) => text_aside(alloc, text),
        Err(_) => nothing(alloc),
    }
}

/// Returns no words.
fn nothing(alloc: Global) -> Result<Seq<Text>, Memory>
    ensures { IfOk result (λ words. words ≡ []) }
{
    Ok(Seq::new(alloc))
}

/// Returns the words of the lines of a source in UTF-8 that are for other programs.
#[tactic(auto, using(kmn_parser::proofs::LineLemmas::by_recursion))]
fn text_aside(alloc: Global, source: &str) -> Result<Seq<Text>, Memory>
    requires { length source.now ≤ TEXT_BYTES }
    ensures { IfOk result (λ words. words ≡ flat_map (line_aside source.now) (logicals source.now)) }
{
    let mut words = Seq::new(alloc);
    for logical in lines(source) {
        add_line_aside(alloc, source, &mut words, logical)?;
    }
    Ok(words)
}

/// Appends the words of a line in which the reader finds none: it is for another program, or blank.
fn add_line_aside(
    alloc: Global,
    source: &str,
    words: &mut Seq<Text>,
    logical: Logical,
) -> Result<(), Memory>
    requires few { length source.now ≤ TEXT_BYTES }
    requires placed { IsPlaced source.now logical }
    ensures { OnOk result (words.new ≡ words.old ++ line_aside source.now logical) }
{
    let own = words_of(alloc, source, logical)?;
    match own.as_slice() {
        [] => add_physical(
            alloc,
            source.as_bytes(),
            words,
            physical_lines(source, logical),
        ),
        _ => Ok(()),
    }
}

/// Appends the words of physical lines.
fn add_physical(
    alloc: Global,
    source: &[u8],
    words: &mut Seq<Text>,
    walk: PhysicalLines<'_>,
) -> Result<(), Memory>
    ensures { OnOk result (words.new ≡ words.old ++ physical_words source.now (physical_lines_left walk.entry)) }
{
    for physical in walk {
        let text = behind(before(source, physical.to), physical.from);
        add_words(alloc, words, text)?;
    }
    Ok(())
}
