//! Tests runs in which a call of the folder or the sink fails, lines that the sink receives as one piece, and files of the
//! maximum size and of one byte more.

use crate::fixtures::equal_bytes;
use compile_tests::fixtures::ONE_RULE;
use keyman_run::Status;
use kmn_base::{Memory, Seq};
use kmn_outside::{Folder, MemoryFolder, MemorySink};
use run_tests::commands::{empty_folder, ended, folder, sink};
use source_tests::fixtures::source_of;
use std::alloc::Global;
use std::test::Fail;

/// The first run with failing calls: what can't be read or written; the numbers, from 1, of the folder call and of the sink
/// call that fail, 0 if none fails; the exit status; the printed text; and the number of bytes of the file in `out`, `None` if
/// there is no such file. The texts of this table and of the tables below contain the symbols that `source_of` expands.
const FAULTS: &[(&str, (u32, u32), Status, &str, Option<usize>)] = &[
    ("the source", (1, 0), Status::ReadFault, "", None),
    ("the script", (2, 0), Status::ReadFault, "", None),
    ("the file", (3, 0), Status::WriteFault, "", Some(61)),
    ("the first line", (0, 1), Status::WriteFault, "", Some(122)),
    (
        "the second line",
        (0, 2),
        Status::WriteFault,
        "1 del=0 ins=0062 pass=0 beep=0 ent=1 ctx=0062¶",
        Some(122),
    ),
];

/// A source and a script, and the lines of their play, which are of each kind except a refusal.
const EACH_KIND: (&str, &str) = (
    "store(o) \"0\"¶§+ 'a' > 'y'¶+ 's' > set(o = \"1\") save(o)¶",
    "[K_A] [K_S]¶expect 'z'¶caret 0¶",
);

const LINES: &[&str] = &[
    "1 del=0 ins=0079 pass=0 beep=0 ent=1 ctx=0079¶",
    "2 del=0 ins=- pass=0 beep=0 ent=1 ctx=0079¶",
    "opt o 0031¶",
    "save o 0031¶",
    "expect failed line=2¶",
    "3 del=0 ins=- pass=0 beep=0 ent=0 ctx=-¶",
    "text -|0079¶",
    "end events=3 failed=1¶",
];

/// A command on a file `a`, the byte that fills the file, the size of the file in bytes, and the line that refuses it.
const SIZES: &[(&str, u8, usize, &str)] = &[
    ("compile a out", b' ', 4_194_304, "refused C01 line 1¶"),
    ("compile a out", b' ', 4_194_305, "refused L05 line 1¶"),
    ("verify a", 0, 67_108_864, "refused V02 at 0¶"),
    ("verify a", 0, 67_108_865, "refused V15 at 0¶"),
];

/// The end of a run: the exit status, the printed text, and the content of `out` afterwards.
#[derive(Clone, Copy)]
struct Ending<'a> {
    status: Status,
    printed: &'a str,
    out: Option<&'a [u8]>,
}

/// Returns whether the command in a line ends like this.
fn ends_so(
    alloc: Global,
    line: &str,
    folder: &mut MemoryFolder,
    sink: &mut MemorySink,
    wanted: Ending,
) -> Result<bool, Fail> {
    let printed = source_of(alloc, wanted.printed)?;
    let status = ended(alloc, line, folder, sink)?;
    Ok(
        status == wanted.status
            && sink.written() == printed.as_bytes()
            && folder.file(b"out") == wanted.out,
    )
}

/// Returns whether the first run ends like this if these calls fail.
fn is_fault(alloc: Global, calls: (u32, u32), wanted: Ending) -> Result<bool, Fail> {
    let mut sink = sink(alloc, calls.1)?;
    let mut folder = folder(alloc, "§+ 'a' > 'b'¶", b"", "[K_A]¶", calls.0)?;
    ends_so(
        alloc,
        "test a.kmn out a.keys",
        &mut folder,
        &mut sink,
        wanted,
    )
}

/// Returns whether that play prints exactly this text if the sink call with this number fails. No call fails for 0.
fn is_begun(alloc: Global, failing: u32, printed: &str) -> Result<bool, Fail> {
    let printed = source_of(alloc, printed)?;
    let (source, script) = EACH_KIND;
    let mut folder = folder(alloc, source, b"", script, 0)?;
    let mut sink = sink(alloc, failing)?;
    ended(alloc, "test a.kmn out a.keys", &mut folder, &mut sink)?;
    Ok(sink.written() == printed.as_bytes())
}

/// Returns the first line of that play that the sink does not receive as one piece, after the lines before it.
fn broken_line(alloc: Global) -> Result<Option<&'static str>, Fail> {
    let mut lines = String::new(alloc);
    for (number, line) in (1..).zip(LINES) {
        if !is_begun(alloc, number, lines.as_str())? {
            return Ok(Some(line));
        }
        lines.push_str(line)?;
    }
    let whole = is_begun(alloc, 0, lines.as_str())?;
    Ok(if whole { None } else { Some("") })
}

/// Returns a folder with a file `a` of these bytes.
fn folder_of_one(alloc: Global, bytes: Seq<u8>) -> Result<MemoryFolder, Memory> {
    let name = Seq::from_slice(alloc, b"a")?;
    let files = vec![in alloc; (name, bytes)]?;
    Ok(MemoryFolder::new(alloc, Seq::from_vec(files), Seq::new(alloc)))
}

/// Returns whether a command is refused with this line and does not write a file `out`.
fn is_refused(
    alloc: Global,
    command: &str,
    folder: &mut MemoryFolder,
    line: &str,
) -> Result<bool, Fail> {
    let wanted = Ending {
        status: Status::Refused,
        printed: line,
        out: None,
    };
    let mut sink = sink(alloc, 0)?;
    ends_so(alloc, command, folder, &mut sink, wanted)
}

/// Returns whether a command on a file `a` of `size` equal bytes is refused with this line.
fn is_size_refused(
    alloc: Global,
    command: &str,
    byte: u8,
    size: usize,
    line: &str,
) -> Result<bool, Fail> {
    let bytes = equal_bytes(alloc, byte, size)?;
    let mut folder = folder_of_one(alloc, bytes)?;
    is_refused(alloc, command, &mut folder, line)
}

#[test]
fn faults(rt: HostRuntime) -> Result<(), Fail> {
    for &(what, calls, status, printed, size) in FAULTS {
        let out = match size {
            Some(size) => ONE_RULE.get(..size),
            None => None,
        };
        let wanted = Ending {
            status,
            printed,
            out,
        };
        assert!(rt; is_fault(rt.alloc(), calls, wanted)?, "{what}");
    }
    Ok(())
}

#[test]
fn whole_lines(rt: HostRuntime) -> Result<(), Fail> {
    let broken = broken_line(rt.alloc())?;
    assert!(rt; broken.is_none(), "{}", broken.unwrap_or(""));
    Ok(())
}

#[test]
fn sizes(rt: HostRuntime) -> Result<(), Fail> {
    for &(command, byte, size, line) in SIZES {
        assert!(rt;
            is_size_refused(rt.alloc(), command, byte, size, line)?,
            "{line}"
        );
    }
    Ok(())
}

/// Writes a source `a.kmn` whose bitmap (the icon file of the keyboard) is one byte longer than its limit.
fn write_long_picture(alloc: Global, folder: &mut MemoryFolder) -> Result<(), Fail> {
    let source = source_of(alloc, "store(&bitmap) 'p.ico'¶§+ 'a' > 'b'¶")?;
    folder.write(alloc, b"a.kmn", source.as_bytes())?;
    let picture = equal_bytes(alloc, 0, 1_048_577)?;
    folder.write(alloc, b"p.ico", picture.as_slice())?;
    Ok(())
}

/// Returns whether such a bitmap is refused and no file `out` is written.
fn is_long_picture_refused(alloc: Global) -> Result<bool, Fail> {
    let mut folder = empty_folder(alloc, 0, 0)?;
    write_long_picture(alloc, &mut folder)?;
    is_refused(
        alloc,
        "compile a.kmn out",
        &mut folder,
        "refused C24 size 1048577¶",
    )
}

#[test]
fn long_picture(rt: HostRuntime) -> Result<(), Fail> {
    assert!(rt; is_long_picture_refused(rt.alloc())?);
    Ok(())
}
