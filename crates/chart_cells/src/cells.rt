//! What a press of a key would do.

ghost use Rattle.std.specs.Prelude.{◌≡◌, ◌-◌, ◌≤◌, drop, length, IfOk};
ghost use Rattle.kmn_base.specs.declared.limits.TheConstants.{TEXT_CHARS_AT_KEY};
ghost use Rattle.rule_model.specs.Event.{whole_text};
ghost use Rattle.chart_board.specs.Cells.{cell};
ghost use Rattle.chart_cells.specs.Layers.{cell_seen};

use chart_board::{Cell, put_between};
use kmn_base::{KeyPress, Memory, Outcome};
use play_session::Session;
use rule_engine::Engine;
use std::alloc::Global;

/// Returns what a press would do as the next event of a session. Presses the key on a copy of the engine.
pub(crate) fn cell_now(alloc: Global, session: &Session, press: KeyPress) -> Result<Cell, Memory>
    requires { length (whole_text session.now.state) ≤ TEXT_CHARS_AT_KEY }
    ensures { IfOk result (λ found. found ≡ cell session.now.tables session.now.state press) }
{
    let editor = session.editor();
    let before = session.engine();
    let mut engine = before.copy(alloc)?;
    let left = editor.left();
    let outcome = engine.key(left, press);
    cell_seen(alloc, left, outcome, before, &engine)
}

/// Returns what a press did, given the text before the caret, the outcome of the press, and the engine before and after it.
fn cell_seen(
    alloc: Global,
    left: &[char],
    outcome: Outcome,
    before: &Engine,
    after: &Engine,
) -> Result<Cell, Memory>
    requires { outcome.delete ≤ length left.now }
    ensures { IfOk result (λ found. found ≡ cell_seen left.now outcome before.now after.now) }
{
    let items = put_between(
        alloc,
        deleted(left, outcome.delete),
        after.inserted(),
        before.context(),
        after.context(),
    )?;
    Ok(Cell {
        deleted: outcome.delete,
        items,
        passed: outcome.pass,
        beeps: outcome.beeps,
    })
}

/// Returns the characters that a press deletes at the end of a text.
fn deleted(left: &[char], count: u32) -> &[char]
    requires { count ≤ length left.now }
    ensures { result.now ≡ drop (length left.now - count) left.now }
{
    &left[left.len() - count as usize..]
}
