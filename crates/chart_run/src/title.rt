//! The title of a drawing.

ghost use Rattle.std.specs.Prelude.{◌≡◌, [], option_map, IfOk};
ghost use Rattle.chart_run.specs.Drawings.{name_from, title_bytes, title_of};

use kmn_base::texts::decoded;
use kmn_base::{Memory, Seq, Text};
use std::alloc::Global;

/// Returns the title of a drawing: the names of the keyboard's file and of the script without their folders. Errors: `Memory` if an
/// allocation fails.
#[tactic(auto, unfolding(crate::specs::Drawings::title_of))]
pub(crate) fn title_of(alloc: Global, file: &Text, keys: Option<&Text>) -> Result<Seq<char>, Memory>
    ensures { IfOk result (λ title. title ≡ title_of file.now (option_map (λ name. name.now) keys.entry)) }
{
    let bytes = title_bytes(alloc, file, keys)?;
    decoded(alloc, bytes.as_slice())
}

/// Returns the title of a drawing as UTF-8.
#[tactic(auto, unfolding(crate::specs::Drawings::title_bytes))]
fn title_bytes(alloc: Global, file: &Text, keys: Option<&Text>) -> Result<Text, Memory>
    ensures { IfOk result (λ bytes. bytes ≡ title_bytes file.now (option_map (λ name. name.now) keys.entry)) }
{
    let mut title = after_slash(alloc, file.as_slice())?;
    if let Some(keys) = keys {
        let script = after_slash(alloc, keys.as_slice())?;
        title.extend_from_slice(b" after ")?;
        title.extend_from_slice(script.as_slice())?;
    }
    Ok(title)
}

/// Returns the bytes of a path after its last slash.
fn after_slash(alloc: Global, path: &[u8]) -> Result<Text, Memory>
    ensures { IfOk result (λ name. name ≡ name_from [] path.now) }
{
    let mut name = Seq::new(alloc);
    for c in path {
        if *c == b'/' {
            name = Seq::new(alloc);
        } else {
            name.add(*c)?;
        }
    }
    Ok(name)
}
