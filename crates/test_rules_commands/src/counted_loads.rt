//! How often a run over files in memory loads a property file (a contract bounds it by four), and what it does with
//! operands if there are no texts.

use crate::calls::{must, same};
use lbk_cmd::{Ending, MemoryStore, Store, run};
use lbk_feed::devices::{MemorySink, MemorySource};
use std::alloc::Global;
use std::process::Abort;
use test_support::property_files::{NAMED, words_on_files};

/// The subcommand, the first two files, the arguments after them, the output for `ab cd`, the status, whether texts
/// were reported, and how many files were loaded.
type Row = (
    &'static str,
    [&'static str; 2],
    &'static [&'static str],
    &'static str,
    u8,
    bool,
    u64,
);

// No file is loaded for refused arguments, and none after the first that cannot be read. Without texts each name except
// `-` cannot be opened.
static ROWS: [Row; 8] = [
    ("show", ["L", "E"], &["--limit", "0"], "", 2, false, 0),
    ("show", ["L", "none"], &[], "", 1, false, 2),
    ("show", ["B", "E"], &[], "", 1, false, 4),
    ("replay", ["L", "E"], &[], "R 1 0\nT 1 0 0 1\n", 3, false, 4),
    ("mark", ["L", "E"], &[], "ab ÷cd\n", 0, false, 4),
    ("mark", ["L", "E"], &["-"], "ab ÷cd\n", 0, false, 4),
    ("mark", ["L", "E"], &["one"], "", 1, true, 4),
    (
        "mark",
        ["L", "E"],
        &["one", "-", ""],
        "ab ÷cd\n",
        1,
        true,
        4,
    ),
];

/// Arguments that need no file, and the output.
static NO_FILES: [(&[&str], &str); 2] = [
    (
        &[],
        "× 0061 × 0062 × 0020 ÷ 0063 × 0064 !\t# 2 28 7 18 28 3\n",
    ),
    (&["show", "--help"], ""),
];

/// How a run over the sample files and a bad file `B` ends, and how often it loaded a file. It has no contract, so that
/// the tests do not see the contract of `run`.
fn ended(
    alloc: Global,
    words: &[&'static str],
    reader: &mut MemorySource<'_>,
    writer: &mut MemorySink,
) -> (Ending, u64) {
    let mut store = MemoryStore::new(&NAMED);
    let ending = run(alloc, words, &mut store, reader, writer);
    (ending, store.loads())
}

fn check(
    rt: &impl Abort,
    alloc: Global,
    words: &[&'static str],
    text: &str,
    want: (u8, bool, u64),
) {
    let mut writer = must(rt, MemorySink::new(alloc, 64));
    let mut reader = MemorySource::new(b"ab cd");
    let (ending, loads) = ended(alloc, words, &mut reader, &mut writer);
    let reported = matches!(ending, Ending::Reported);
    same(rt, &writer.bytes(), &text.as_bytes(), &words);
    same(rt, &(ending.status(), reported, loads), &want, &words);
}

#[test]
fn counted_loads(rt: HostRuntime) {
    for row in &ROWS {
        let words = must(&rt, words_on_files(rt.alloc(), row.0, row.1, row.2));
        check(&rt, rt.alloc(), &words, row.3, (row.4, row.5, row.6));
    }
    for (words, text) in &NO_FILES {
        check(&rt, rt.alloc(), words, text, (0, false, 0));
    }
}
