//! The run of the program: it draws a keyboard, writes the drawing and prints its size.

ghost use Rattle.std.specs.Prelude.{◌≡◌, length, option_map, IfOk};
ghost use Rattle.chart_run.specs.Drawings.{drawn_line};
ghost use Rattle.chart_run.specs.Orders.{chart_work, last_work};
ghost use Rattle.chart_run.specs.Runs.{Runs};
ghost use Rattle.keyman_run.specs.Run.{Does};

use crate::drawing::read_drawing;
use keyman_run::print_stop;
use keyman_words::{FileName, Status, is_layout, print_result, write, write_status};
use kmn_base::{Memory, Text};
use kmn_outside::{Folder, Sink};
use std::alloc::Global;

/// Draws the compiled keyboard that the first argument names, and writes the drawing under the name in the second one. A third argument
/// is the name of a touch layout by its end (`is_layout`), else that of a script, and a fourth one that of a touch layout. The keys are
/// pressed after the script, and the layers of the layout are drawn too. Other arguments result in `Status::Words` and no calls.
pub fn chart_run<F: Folder, S: Sink>(
    alloc: Global,
    words: &[Text],
    folder: &mut F,
    out: &mut S,
) -> Status
    ensures { Runs words.now F.Folder folder.old folder.new S.Sink out.old out.new result }
{
    match words {
        [file, picture] => draw(alloc, file, &FileName::of(picture), None, None, folder, out),
        [file, picture, last] => draw_last(alloc, file, &FileName::of(picture), last, folder, out),
        [file, picture, keys, layout] => draw(
            alloc,
            file,
            &FileName::of(picture),
            Some(keys),
            Some(layout),
            folder,
            out,
        ),
        _ => Status::Words,
    }
}

/// Draws a compiled keyboard with the touch layout of a name, or after the script of this name, and writes the drawing.
#[tactic(auto, unfolding(crate::specs::Orders::last_work))]
fn draw_last<F: Folder, S: Sink>(
    alloc: Global,
    file: &Text,
    picture: &FileName<'_>,
    last: &Text,
    folder: &mut F,
    out: &mut S,
) -> Status
    ensures { Does (last_work file.now picture.now last.now) F.Folder folder.old folder.new S.Sink out.old out.new result }
{
    if is_layout(last.as_slice()) {
        draw(alloc, file, picture, None, Some(last), folder, out)
    } else {
        draw(alloc, file, picture, Some(last), None, folder, out)
    }
}

/// Draws a compiled keyboard, writes the drawing under another name, and prints its size.
fn draw<F: Folder, S: Sink>(
    alloc: Global,
    file: &Text,
    picture: &FileName<'_>,
    keys: Option<&Text>,
    layout: Option<&Text>,
    folder: &mut F,
    out: &mut S,
) -> Status
    ensures { Does (chart_work file.now picture.now (option_map (λ name. name.now) keys.entry) (option_map (λ name. name.now) layout.entry)) F.Folder folder.old folder.new S.Sink out.old out.new result }
{
    match read_drawing(alloc, file, keys, layout, folder) {
        Ok(text) => match write(alloc, picture, text.as_slice(), folder) {
            Ok(()) => print_result(drawn_line(alloc, &text), Status::Done, out),
            Err(error) => write_status(error),
        },
        Err(stop) => print_stop(alloc, stop, out),
    }
}

/// Returns the line of a drawing: its size in bytes.
#[tactic(auto, unfolding(crate::specs::Drawings::drawn_line))]
fn drawn_line(alloc: Global, text: &Text) -> Result<Text, Memory>
    ensures { IfOk result (λ line. line ≡ drawn_line (length text.now)) }
{
    let size = text.len();
    let line = format!(in alloc; "drawn bytes={size}\n")?;
    Ok(Text::from_string(line))
}
