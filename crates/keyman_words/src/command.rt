//! The commands of the program, and how the command-line arguments become one.

ghost use Rattle.std.specs.Prelude.{◌≡◌, [], ◌∷◌, option_map};
ghost use Rattle.keyman_words.specs.Command.{load_number, play_request, request_of, requested};
ghost use Rattle.keyman_words.specs.Command.Request.{Load};

use crate::file_name::FileName;
use kmn_base::Text;
use kmn_base::digits::{are_digits, bounded_value};

/// A command with the names of its files, or its number.
#[derive(Drop)]
pub enum Command<'a> {
    Compile {
        source: FileName<'a>,
        file: FileName<'a>,
    },
    Test {
        source: FileName<'a>,
        file: FileName<'a>,
        keys: FileName<'a>,
    },
    Verify {
        file: FileName<'a>,
    },
    Decompile {
        file: FileName<'a>,
        source: FileName<'a>,
    },
    Play {
        file: FileName<'a>,
        keys: FileName<'a>,
    },
    Layout {
        source: FileName<'a>,
        layout: FileName<'a>,
    },
    Load {
        number: u32,
    },
    Trace {
        source: FileName<'a>,
        keys: FileName<'a>,
    },
    Shadow {
        source: FileName<'a>,
    },
    Host {
        file: FileName<'a>,
        keys: FileName<'a>,
    },
}

/// Returns the command in the command-line arguments, or `None` if they are not a command. Arguments compare exactly; those that name
/// files become a `FileName` here.
pub fn command_of(words: &[Text]) -> Option<Command<'_>>
    ensures { option_map requested result ≡ request_of words.now }
{
    match words {
        [word, other] => command_of_one(word.as_slice(), other),
        [word, first, second] => {
            command_of_two(word.as_slice(), FileName::of(first), FileName::of(second))
        }
        [word, source, file, keys] => test_command(
            word.as_slice(),
            FileName::of(source),
            FileName::of(file),
            FileName::of(keys),
        ),
        _ => None,
    }
}

/// The largest number of nine digits.
const LARGEST_NUMBER: u32 = 999_999_999;

/// Returns the command of one file or number (`verify`, `shadow` or `load`), or `None` for any other arguments.
fn command_of_one<'a>(word: &[u8], other: &'a Text) -> Option<Command<'a>>
    ensures { option_map requested result ≡ request_of (word.now ∷ other.now ∷ []) }
{
    if word == b"verify".as_slice() {
        return Some(Command::Verify {
            file: FileName::of(other),
        });
    }
    if word == b"shadow".as_slice() {
        return Some(Command::Shadow {
            source: FileName::of(other),
        });
    }
    if word == b"load".as_slice() {
        return load_command(other.as_slice());
    }
    None
}

/// Returns the command `load` with its number, or `None` if the argument is not a number of 1 to 9 digits.
fn load_command<'a>(word: &[u8]) -> Option<Command<'a>>
    ensures { option_map requested result ≡ option_map Load (load_number word.now) }
{
    if word.is_empty() || word.len() > 9 || !are_digits(10, word) {
        return None;
    }
    Some(Command::Load {
        number: bounded_value(LARGEST_NUMBER, 10, word),
    })
}

/// Returns the command of two files (`compile`, `decompile`, `layout`, `trace`, `play` or `host`), or `None` for another word.
fn command_of_two<'a>(word: &[u8], first: FileName<'a>, second: FileName<'a>) -> Option<Command<'a>>
    ensures { option_map requested result ≡ request_of (word.now ∷ first.entry ∷ second.entry ∷ []) }
{
    if word == b"compile".as_slice() {
        return Some(Command::Compile {
            source: first,
            file: second,
        });
    }
    if word == b"decompile".as_slice() {
        return Some(Command::Decompile {
            file: first,
            source: second,
        });
    }
    if word == b"layout".as_slice() {
        return Some(Command::Layout {
            source: first,
            layout: second,
        });
    }
    if word == b"trace".as_slice() {
        return Some(Command::Trace {
            source: first,
            keys: second,
        });
    }
    play_command(word, first, second)
}

/// Returns the command of a compiled keyboard and a script (`play` or `host`), or `None` for another word.
fn play_command<'a>(word: &[u8], file: FileName<'a>, keys: FileName<'a>) -> Option<Command<'a>>
    ensures { option_map requested result ≡ play_request word.now file.entry keys.entry }
{
    if word == b"play".as_slice() {
        return Some(Command::Play { file, keys });
    }
    if word == b"host".as_slice() {
        return Some(Command::Host { file, keys });
    }
    None
}

/// Returns the command `test` with its files, or `None` for another word.
fn test_command<'a>(
    word: &[u8],
    source: FileName<'a>,
    file: FileName<'a>,
    keys: FileName<'a>,
) -> Option<Command<'a>>
    ensures { option_map requested result ≡ request_of (word.now ∷ source.entry ∷ file.entry ∷ keys.entry ∷ []) }
{
    if word != b"test".as_slice() {
        return None;
    }
    Some(Command::Test { source, file, keys })
}
