//! Outputs as Keyman's own engine runs them.

ghost use Rattle.std.specs.Prelude.{◌≡◌};
ghost use Rattle.std.specs.List.{list_any};
ghost use Rattle.core_constructs.specs.Outputs.{is_return, is_use, does_something, sets_layer, puts_match, sets_from_option, live, live_count, ends, acts, acts_after_use};

use kmn_base::LineSet;
use kmn_base::slices::{before, behind};
use rule_model::Out;

/// Returns the items of an output that run: those up to the first `return`, with it.
#[tactic(auto, using(crate::proofs::Live::live_taken))]
pub(crate) fn live(outputs: &[Out]) -> &[Out]
    ensures { result.now ≡ live outputs.now }
{
    before(outputs, live_count(outputs))
}

/// Returns the number of items of an output that run.
fn live_count(outputs: &[Out]) -> usize
    ensures { result ≡ live_count outputs.now }
{
    for i in 0..outputs.len() {
        if is_return(&outputs[i]) {
            return i + 1;
        }
    }
    outputs.len()
}

/// Returns whether an output has a `return`.
pub(crate) fn ends(outputs: &[Out]) -> bool
    ensures { result ≡ ends outputs.now }
{
    outputs.iter().any(|item| is_return(item))
}

/// Returns whether an output does something.
pub(crate) fn acts(outputs: &[Out]) -> bool
    ensures { result ≡ acts outputs.now }
{
    some_does_something(live(outputs))
}

/// Returns whether one of the items does something after a `use`.
pub(crate) fn acts_after_use(items: &[Out]) -> bool
    ensures { result ≡ acts_after_use items.now }
{
    for i in 0..items.len() {
        if is_use(&items[i]) && some_does_something(behind(items, i + 1)) {
            return true;
        }
    }
    false
}

/// Returns whether one of the items is a `use`.
pub(crate) fn some_use(items: &[Out]) -> bool
    ensures { result ≡ list_any is_use items.now }
{
    items.iter().any(|item| is_use(item))
}

/// Returns whether one of the items does something.
fn some_does_something(items: &[Out]) -> bool
    ensures { result ≡ list_any does_something items.now }
{
    items.iter().any(|item| does_something(item))
}

/// Returns whether one of the items sets the layer.
pub(crate) fn some_sets_layer(items: &[Out]) -> bool
    ensures { result ≡ list_any sets_layer items.now }
{
    items.iter().any(|item| sets_layer(item))
}

/// Returns whether one of the items puts what the context matched.
pub(crate) fn some_puts_match(items: &[Out]) -> bool
    ensures { result ≡ list_any puts_match items.now }
{
    items.iter().any(|item| puts_match(item))
}

/// Returns whether one of the items sets an option to the value of an option.
pub(crate) fn some_sets_from_option(options: &LineSet, items: &[Out]) -> bool
    ensures { result ≡ list_any (sets_from_option options.now) items.now }
{
    items.iter().any(|item| sets_from_option(options, item))
}

fn is_return(item: &Out) -> bool
    ensures { result ≡ is_return item.now }
{
    matches!(item, Out::Stop)
}

pub(crate) fn is_use(item: &Out) -> bool
    ensures { result ≡ is_use item.now }
{
    matches!(item, Out::Enter(_))
}

fn does_something(item: &Out) -> bool
    ensures { result ≡ does_something item.now }
{
    !matches!(item, Out::Nul | Out::Stop)
}

fn sets_layer(item: &Out) -> bool
    ensures { result ≡ sets_layer item.now }
{
    matches!(item, Out::SetSystem(_, _))
}

fn puts_match(item: &Out) -> bool
    ensures { result ≡ puts_match item.now }
{
    matches!(item, Out::Context | Out::ContextAt(_) | Out::Index(_, _))
}

fn sets_from_option(options: &LineSet, item: &Out) -> bool
    ensures { result ≡ sets_from_option options.now item.now }
{
    match item {
        Out::Set(_, value) | Out::SetSystem(_, value) => options.has(*value),
        _ => false,
    }
}
