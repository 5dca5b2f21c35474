//! Copies of the contexts of a group's records, so that matching does not decode the file.

ghost use Rattle.std.specs.Prelude.{◌≡◌, IfOk, map};
ghost use Rattle.kmx_parts.specs.ContextItems.{pattern_of};
ghost use Rattle.rule_index.specs.Groups.{context_count, listed, record_contexts};

use kmn_base::Memory;
use kmx_parts::{ContextItem, ContextItems, FileGroup};
use std::alloc::Global;

/// Returns the contexts of a group's records, in their order.
pub fn record_contexts(
    alloc: Global,
    group: &FileGroup<'_>,
) -> Result<Vec<Vec<ContextItem>>, Memory>
    ensures { IfOk result (λ contexts. listed contexts.items ≡ record_contexts group.now) }
{
    let mut contexts = Vec::new(alloc);
    for rule in group.rules() {
        contexts.push(copied(alloc, rule.context_items())?)?;
    }
    Ok(contexts)
}

/// Copies a rule context of a file.
fn copied(alloc: Global, context: ContextItems<'_>) -> Result<Vec<ContextItem>, Memory>
    ensures { IfOk result (λ copied. copied.items ≡ context.entry) }
{
    let mut copied = Vec::new(alloc);
    for item in context {
        copied.push(item)?;
    }
    Ok(copied)
}

/// Returns the count of each context, in their order.
pub fn counts(alloc: Global, contexts: &[Vec<ContextItem>]) -> Result<Vec<u8>, Memory>
    ensures { IfOk result (λ counts. counts.items ≡ map context_count (listed contexts.now)) }
{
    let mut counts = Vec::new(alloc);
    for context in contexts {
        counts.push(context_count(context.as_slice()))?;
    }
    Ok(counts)
}

/// Returns the number of text items that a context matches, at most 255.
#[tactic(auto, using(crate::proofs::ContextCounts::counted, crate::proofs::ContextCounts::uncounted))]
fn context_count(context: &[ContextItem]) -> u8
    ensures { result ≡ context_count (map pattern_of context.now) }
{
    let mut count = 0u8;
    for item in context {
        if item.takes_item() {
            count = count.saturating_add(1);
        }
    }
    count
}
