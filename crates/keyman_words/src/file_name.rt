//! Names of files. They have their own type, so that the name and the contents of a file can't be confused.

ghost use Rattle.std.specs.Prelude.{◌≡◌, IfOk, IsTrue};
ghost use Rattle.kmn_outside.specs.Outside.{IsLimited, ReadCounts, Reads, WriteCounts, Writes};
ghost use Rattle.keyman_words.specs.Beside.{beside, folder_part};
ghost use Rattle.keyman_words.specs.LayoutNames.{is_layout};

use kmn_base::slices::before;
use kmn_base::{Memory, Seq, Text};
use kmn_outside::{Folder, ReadError, WriteError};
use std::alloc::Global;
use std::marker::Model;

/// The name of a file. Contracts model it as its bytes.
#[derive(Drop)]
pub struct FileName<'a> {
    bytes: &'a [u8],
}

impl<'a> Model for FileName<'a> {
    ghost use Rattle.std.specs.Prelude.{ℕ, List};

    ghost Value = { List ℕ };

    ghost view = { λ name. name.bytes.now };
}

impl<'a> FileName<'a> {
    /// Returns a text as a name. The name borrows the text.
    pub fn of(text: &'a Text) -> FileName<'a>
        ensures { result ≡ text.now }
    {
        FileName {
            bytes: text.as_slice(),
        }
    }
}

/// Returns whether a name ends as the name of a touch layout does.
pub fn is_layout(name: &[u8]) -> bool
    ensures { result ≡ is_layout name.now }
{
    name.ends_with(b".keyman-touch-layout") || name.ends_with(b".json")
}

/// Reads the file with a name.
pub fn read<F: Folder>(
    alloc: Global,
    name: &FileName<'_>,
    limit: usize,
    folder: &mut F,
) -> Result<Seq<u8>, ReadError>
    ensures counts { ReadCounts (F.faults folder.old) (F.faults folder.new) result }
    ensures limited { IsLimited limit result }
    ensures told { F.told folder.new ≡ F.told folder.old }
    ensures reads { IsTrue (F.told folder.old) → Reads (F.files folder.old) (F.files folder.new) (F.calls folder.old) (F.calls folder.new) name.now limit result }
{
    folder.read(alloc, name.bytes, limit)
}

/// Writes these bytes as the file with a name.
pub fn write<F: Folder>(
    alloc: Global,
    name: &FileName<'_>,
    bytes: &[u8],
    folder: &mut F,
) -> Result<(), WriteError>
    ensures counts { WriteCounts (F.faults folder.old) (F.faults folder.new) result }
    ensures told { F.told folder.new ≡ F.told folder.old }
    ensures writes { IsTrue (F.told folder.old) → Writes (F.files folder.old) (F.files folder.new) (F.calls folder.old) (F.calls folder.new) name.now bytes.now result }
{
    folder.write(alloc, name.bytes, bytes)
}

/// Returns the name of the file `other` in the folder of the file `name`.
pub fn beside(alloc: Global, name: &FileName<'_>, other: &FileName<'_>) -> Result<Text, Memory>
    ensures { IfOk result (λ text. text ≡ beside name.now other.now) }
{
    let mut text = Seq::from_slice(alloc, folder_part(name.bytes))?;
    text.extend_from_slice(other.bytes)?;
    Ok(text)
}

/// Returns a name up to and including its last slash, or an empty slice if it has none.
#[tactic(auto, using(crate::proofs::BesideLaws::without_last_at, crate::proofs::BesideLaws::whole_part_at))]
fn folder_part(name: &[u8]) -> &[u8]
    ensures { result.now ≡ folder_part name.now }
{
    let mut end = name.len();
    while end > 0 && name[end - 1] != b'/' {
        end -= 1;
    }
    before(name, end)
}
