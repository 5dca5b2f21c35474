//! Laws of what a chart shows, each the contract of a function with an empty body.

ghost use Rattle.chart_board.specs.Laws.{CellsHaveOutcomes};
ghost use Rattle.chart_board.specs.Windows.{ContextsShowPutItems};

/// The cell of a press has what a preview of the press returns. It also has the deadkeys.
#[tactic(auto, using(crate::proofs::Previews::cells_have_outcomes))]
pub fn cells_have_outcomes()
    ensures { CellsHaveOutcomes }
{}

/// The cached contexts before and after a press, with what it deleted and inserted, show which items it put.
#[tactic(auto, using(crate::proofs::Contexts::contexts_show_put_items))]
pub fn contexts_show_put_items()
    ensures { ContextsShowPutItems }
{}
