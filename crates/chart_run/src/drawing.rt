//! Reads a compiled keyboard, and maybe a script and a touch layout, by name, and makes the drawing.

ghost use Rattle.std.specs.Prelude.{◌≡◌, ◌≤◌, length, option_map, IfOk};
ghost use Rattle.kmn_base.specs.declared.limits.TheConstants.{KEY_NAMES, TEXT_CHARS_AT_KEY};
ghost use Rattle.rule_model.specs.Event.{whole_text};
ghost use Rattle.rule_model.specs.Tab.{tab};
ghost use Rattle.play_session.specs.Session.{first_session};
ghost use Rattle.keyman_run.specs.Steps.{Gives, States, itself};
ghost use Rattle.chart_run.specs.Drawings.{drawing, picture_in};
ghost use Rattle.chart_run.specs.Orders.{bytes_drawing_work, drawing_work, entries_work, tables_drawing_work};

use crate::layouts::read_layers;
use crate::playing::play_through;
use crate::title::title_of;
use chart_cells::{chart_now, taps_now};
use chart_drawing::picture;
use keyman_run::{Stop, read_file, read_own_entries};
use keyman_words::FileName;
use kmn_base::{Memory, Seq, Text};
use kmn_outside::Folder;
use kmx_verifier::verify;
use play_session::Session;
use rule_model::{Entry, Tables};
use std::alloc::Global;
use touch_board::TouchLayer;

/// Reads a compiled keyboard by name and draws what its keys do after the script with another name, or on an empty text. With the name of
/// a touch layout, it draws the layers of the layout too.
pub(crate) fn read_drawing<F: Folder>(
    alloc: Global,
    file: &Text,
    keys: Option<&Text>,
    layout: Option<&Text>,
    folder: &mut F,
) -> Result<Text, Stop>
    ensures { Gives itself (drawing_work file.now (option_map (λ name. name.now) keys.entry) (option_map (λ name. name.now) layout.entry)) F.Folder folder.old folder.new result }
{
    let title = title_of(alloc, file, keys)?;
    let bytes = read_file(alloc, &FileName::of(file), folder)?;
    draw_bytes(alloc, title, bytes.as_slice(), keys, layout, folder)
}

/// Draws the keyboard of the bytes of a file, or returns the first fault of the file.
#[tactic(auto, using(crate::proofs::Drawn::names_few))]
fn draw_bytes<F: Folder>(
    alloc: Global,
    title: Seq<char>,
    bytes: &[u8],
    keys: Option<&Text>,
    layout: Option<&Text>,
    folder: &mut F,
) -> Result<Text, Stop>
    ensures { Gives itself (bytes_drawing_work title (option_map (λ name. name.now) keys.entry) (option_map (λ name. name.now) layout.entry) bytes.now) F.Folder folder.old folder.new result }
{
    let file = verify(alloc, bytes)?;
    let tables = file.copied_tables(alloc)?;
    let session = Session::start(alloc, &file)?;
    draw_session(alloc, title, session, &tables, keys, layout, folder)
}

/// Reads the script and the touch layout, and draws the keyboard of a session before its first event, given the tables of its file.
fn draw_session<F: Folder>(
    alloc: Global,
    title: Seq<char>,
    session: Session<'_>,
    tables: &Tables,
    keys: Option<&Text>,
    layout: Option<&Text>,
    folder: &mut F,
) -> Result<Text, Stop>
    requires first { session ≡ first_session tables.now }
    requires names { length (tab tables.now).dictionary ≤ KEY_NAMES }
    ensures { Gives itself (tables_drawing_work title (option_map (λ name. name.now) keys.entry) (option_map (λ name. name.now) layout.entry) tables.now) F.Folder folder.old folder.new result }
{
    let entries = read_script_of(alloc, &session, keys, folder)?;
    let layers = read_layers(alloc, &session, tables, layout, folder)?;
    let played = entries.as_slice();
    let drawn = layers.as_slice();
    draw_after(alloc, title, session, tables, played, drawn)
}

/// Reads the script for the keyboard of a session. Without a script there are no entries.
fn read_script_of<F: Folder>(
    alloc: Global,
    session: &Session<'_>,
    keys: Option<&Text>,
    folder: &mut F,
) -> Result<Seq<Entry>, Stop>
    ensures { Gives itself (entries_work (tab session.now.tables).dictionary (option_map (λ name. name.now) keys.entry)) F.Folder folder.old folder.new result }
{
    match keys {
        Some(keys) => read_own_entries(alloc, session, &FileName::of(keys), folder),
        None => Ok(Seq::new(alloc)),
    }
}

/// Plays a script in a session before its first event, and draws what each key and each key of these layers would do next.
fn draw_after(
    alloc: Global,
    title: Seq<char>,
    mut session: Session<'_>,
    tables: &Tables,
    entries: &[Entry],
    layers: &[TouchLayer],
) -> Result<Text, Stop>
    requires first { session ≡ first_session tables.now }
    requires names { length (tab tables.now).dictionary ≤ KEY_NAMES }
    ensures { States itself (drawing title layers.now tables.now entries.now) result }
{
    play_through(alloc, &mut session, entries)?;
    Ok(draw_now(alloc, title, &session, tables, layers)?)
}

/// Draws what each key and each key of these layers would do next in a session, given the tables of its file.
fn draw_now(
    alloc: Global,
    title: Seq<char>,
    session: &Session,
    tables: &Tables,
    layers: &[TouchLayer],
) -> Result<Text, Memory>
    requires tables { tables.now ≡ session.now.tables }
    requires names { length (tab session.now.tables).dictionary ≤ KEY_NAMES }
    requires room { length (whole_text session.now.state) ≤ TEXT_CHARS_AT_KEY }
    ensures { IfOk result (λ text. text ≡ picture_in title layers.now session.now.tables session.now.state) }
{
    let chart = chart_now(alloc, title, session, tables)?;
    let taps = taps_now(alloc, session, layers)?;
    picture(alloc, &chart, layers, taps.as_slice())
}
