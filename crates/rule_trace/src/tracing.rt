//! Performs an event and returns the lines that it selects, for tests of the meaning.

ghost use Rattle.std.specs.Prelude.{◌≡◌, IfOk};
ghost use Rattle.rule_model.specs.Event.{whole_text};
ghost use Rattle.rule_model.specs.Tab.{tab};
ghost use Rattle.rule_model.specs.ChosenLines.{chosen};
ghost use Rattle.plain_event.specs.PlainStates.{state_of, IsPlainStep, IsStateOf, IsWithin};

use kmn_base::{Event, Memory};
use plain_event::{PlainState, Traced, traced_event};
use rule_model::Tables;
use std::alloc::Global;

/// Performs an event on a state, by the meaning of tables. Returns the new state and the lines of the rules that it selected.
pub fn trace_event(
    alloc: Global,
    tables: &Tables,
    state: &PlainState,
    event: &Event,
) -> Result<Traced, Memory>
    requires state { IsStateOf tables.now state.now }
    requires places { IsWithin (whole_text (state_of tables.now state.now)) event.now }
    ensures step { IfOk result (λ traced. IsPlainStep tables.now state.now event.now traced.state) }
    ensures lines { IfOk result (λ traced. traced.lines ≡ chosen (tab tables.now) (state_of tables.now state.now) event.now) }
{
    traced_event(alloc, tables, state, event)
}
