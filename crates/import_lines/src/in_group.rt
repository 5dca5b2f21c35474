//! Rewrites a line of a source.

ghost use Rattle.std.specs.Prelude.{◌≡◌, ◌≤◌, length, IfOk};
ghost use Rattle.kmn_base.specs.declared.limits.TheConstants.{TEXT_BYTES};
ghost use Rattle.kmn_lines.specs.Places.{IsPlaced};
ghost use Rattle.import_lines.specs.Rewrites.{group_after};
ghost use Rattle.import_lines.specs.Written.{line_in_group};

use crate::rewrite::WrittenLine;
use crate::rewriting::line_of_kind;
use crate::written::written_line;
use import_outline::{Groups, LineKind, line_kind};
use import_tokens::tokens_of;
use kmn_base::{Memory, Text};
use kmn_lines::Logical;
use std::alloc::Global;

/// A written line, and the group after it.
#[derive(Drop)]
pub struct InGroup {
    pub line: WrittenLine,
    pub group: Text,
}

/// Returns a logical line of this source as it is written, given the group before it, and the group after it. Errors: `Memory` if
/// an allocation fails.
pub fn rewritten_line(
    alloc: Global,
    source: &str,
    logical: Logical,
    groups: &Groups,
    group: Text,
) -> Result<InGroup, Memory>
    requires few { length source.now ≤ TEXT_BYTES }
    requires placed { IsPlaced source.now logical }
    ensures { IfOk result (λ new. new ≡ line_in_group source.now groups.now.outline group logical) }
{
    let tokens = tokens_of(alloc, source, logical)?;
    let kind = line_kind(alloc, tokens.as_slice())?;
    let group = group_after(alloc, group, &kind)?;
    let rewrite = line_of_kind(alloc, groups, group.as_slice(), &kind, tokens.as_slice())?;
    let line = written_line(alloc, source, logical, rewrite)?;
    Ok(InGroup { line, group })
}

/// Returns the group after a line. Errors: `Memory` if an allocation fails.
fn group_after(alloc: Global, group: Text, kind: &LineKind) -> Result<Text, Memory>
    ensures { IfOk result (λ name. name ≡ group_after group kind.now) }
{
    match kind {
        LineKind::Group(name, _) => name.copy(alloc),
        _ => Ok(group),
    }
}
