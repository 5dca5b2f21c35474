//! Tests runs of `chart_run` over a folder and a sink in memory.

use crate::pictures::place_of;
use chart_run::chart_run;
use compile_tests::fixtures::ONE_RULE;
use kmn_outside::{Folder, MemoryFolder};
use run_tests::commands::{empty_folder, sink, words};
use std::alloc::Global;
use std::test::Fail;

/// A run with command-line arguments over a folder that contains a file `in`, a script `keys`, a touch layout `x.json`, and a file
/// `bad.json` that is not JSON. The folder call and the sink call with these numbers fail. If a number is 0, no call fails.
#[derive(Drop)]
struct Run<'a> {
    words: &'a str,
    file: &'a [u8],
    keys: &'a str,
    folder_call: u32,
    sink_call: u32,
}

/// The end of a run: the exit status, and the printed text or how it begins.
#[derive(Drop)]
struct End<'a> {
    status: u8,
    printed: &'a str,
}

/// The key A, whose rule types a b.
const KEY_A: &str =
    "<g class='ruled' transform='translate(112,128)'><title>A: b U+0062</title><rect width='60' height='60' rx='6'/><text class='cap' x='6' y='13'>A</text><text class='text' x='30' y='42' font-size='24'>b</text></g>\n";

/// The key A of the touch layout.
const TAP_A: &str =
    "<g class='ruled' transform='translate(9,0)'><title>a: b U+0062</title><rect width='60' height='60' rx='6'/><text class='cap' x='6' y='13'>a</text><text class='text' x='30' y='42' font-size='24'>b</text></g>\n";

/// A touch layout with the key A.
const LAYOUT: &[u8] =
    b"{\"phone\":{\"layer\":[{\"id\":\"default\",\"row\":[{\"key\":[{\"id\":\"K_A\",\"text\":\"a\"}]}]}]}}";

/// Returns the file of one rule, `+ 'a' > 'b'`, with the version 17.0.
fn one_rule() -> [u8; 122] {
    let mut file = ONE_RULE;
    file[5] = 0x11;
    file
}

/// The number of files that `write_files` writes.
const FILES: u32 = 4;

/// Writes the files of a run.
fn write_files(alloc: Global, folder: &mut MemoryFolder, run: &Run) -> Result<(), Fail> {
    folder.write(alloc, b"in", run.file)?;
    folder.write(alloc, b"keys", run.keys.as_bytes())?;
    folder.write(alloc, b"x.json", LAYOUT)?;
    folder.write(alloc, b"bad.json", b"{")?;
    Ok(())
}

/// Returns whether a run ends like this. A run that ends with status 0 writes a drawing, which has the key A, and also the key A of the
/// touch layout if the last argument is one. If the write of the drawing or the printing fails, the status is 4, and the folder has at
/// least the first half of the drawing, with this key.
fn ends(alloc: Global, run: &Run, end: &End) -> Result<bool, Fail> {
    let words = words(alloc, run.words)?;
    let mut folder = empty_folder(alloc, run.folder_call, FILES)?;
    write_files(alloc, &mut folder, run)?;
    let mut sink = sink(alloc, run.sink_call)?;
    let status = chart_run(alloc, words.as_slice(), &mut folder, &mut sink);
    let drawn = folder.file(b"out").unwrap_or(&[]);
    Ok(
        status.number() == end.status
            && sink.written().starts_with(end.printed.as_bytes())
            && place_of(drawn, KEY_A.as_bytes()).is_some() == (end.status == 0 || end.status == 4)
            && place_of(drawn, TAP_A.as_bytes()).is_some()
                == (end.status == 0 && run.words.ends_with("json")),
    )
}

#[test]
fn runs(rt: HostRuntime) -> Result<(), Fail> {
    let alloc = rt.alloc();
    let file = one_rule();
    let rows: [(&str, &[u8], &str, (u32, u32), u8, &str); 14] = [
        ("in out", &file, "", (0, 0), 0, "drawn bytes="),
        ("in out keys", &file, "[K_B]\n", (0, 0), 0, "drawn bytes="),
        ("in out x.json", &file, "", (0, 0), 0, "drawn bytes="),
        (
            "in out keys x.json",
            &file,
            "[K_B]\n",
            (0, 0),
            0,
            "drawn bytes=",
        ),
        (
            "in out bad.json",
            &file,
            "",
            (0, 0),
            1,
            "refused T1 platform 0 layer 0 row 0 key 0\n",
        ),
        ("in out none.json", &file, "", (0, 0), 3, ""),
        ("in out", &file[..60], "", (0, 0), 1, "refused V01 at 60\n"),
        (
            "in out keys",
            &file,
            "[K_A\n",
            (0, 0),
            1,
            "refused P03 line 1\n",
        ),
        (
            "in out keys",
            &file,
            "caret 9\n",
            (0, 0),
            1,
            "refused E1 event 1\n",
        ),
        ("in", &file, "", (0, 0), 2, ""),
        ("none out", &file, "", (0, 0), 3, ""),
        ("in out none", &file, "", (0, 0), 3, ""),
        ("in out", &file, "", (2, 0), 4, ""),
        ("in out", &file, "", (0, 1), 4, ""),
    ];
    for row in &rows {
        let run = Run {
            words: row.0,
            file: row.1,
            keys: row.2,
            folder_call: row.3.0,
            sink_call: row.3.1,
        };
        let end = End {
            status: row.4,
            printed: row.5,
        };
        assert!(rt; ends(alloc, &run, &end)?, "{} {}", row.0, row.2);
    }
    Ok(())
}
