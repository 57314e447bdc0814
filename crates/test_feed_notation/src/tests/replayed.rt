//! The greatest test files that a replay accepts, and a line that differs.

use crate::tests::calls::{must, same, sample_cells};
use crate::tests::tasks::ROOM;
use lbk_feed::Source;
use lbk_feed::devices::{MemorySink, RepeatedSource};
use lbk_notation::{Form, Mark, Outcome, ReplayFault, Report, replay};
use lbk_rules::{CellPages, Kind, Profile, Rule, Verdict};
use std::alloc::{AllocError, Global};
use std::process::Abort;
use test_support::calls::{read_line, replay_line};

const DIFFER: Outcome = Outcome::Differ {
    position: 1,
    file: Mark::May,
    rules: Verdict {
        kind: Kind::No,
        rule: Rule::Lb28,
    },
};

// The line differs in both profiles.
#[test]
fn line_that_differs(rt: HostRuntime) {
    let cells = sample_cells(&rt, rt.alloc());
    let bytes = "× 0061 ÷ 0062 ÷".as_bytes();
    let line = must(&rt, read_line(rt.alloc(), bytes, Form::Plain)).expect(&rt, "no line");
    for profile in [Profile::First, Profile::Second] {
        let found = replay_line(&cells, &line, Form::Plain, profile);
        same(&rt, &found, &DIFFER, &profile);
    }
}

/// What `replay` returns for a source, and the sink that it wrote to.
fn replayed<R: Source>(
    alloc: Global,
    cells: &CellPages,
    source: &mut R,
    form: Form,
    profile: Profile,
) -> Result<(Result<Report, ReplayFault>, MemorySink), AllocError> {
    let mut sink = MemorySink::new(alloc, ROOM)?;
    let report = replay(alloc, source, &mut sink, cells, form, profile);
    Ok((report, sink))
}

/// Replays one repeated byte, and compares whether it is refused, and the output.
fn check_repeated(
    rt: &impl Abort,
    alloc: Global,
    cells: &CellPages,
    (byte, count): (u8, u64),
    (refused, written): (Option<ReplayFault>, &str),
) {
    let mut source = RepeatedSource::new(byte, count);
    let replayed = replayed(alloc, cells, &mut source, Form::Plain, Profile::First);
    let (answer, sink) = must(rt, replayed);
    same(rt, &answer.err(), &refused, &count);
    same(rt, &sink.bytes(), &written.as_bytes(), &count);
}

/// A byte, how often it is repeated, why the file is refused, if it is, and the output.
static REPEATED: [((u8, u64), (Option<ReplayFault>, &str)); 3] = [
    ((b'#', 268_435_456), (None, "T 0 0 0 0\n")),
    ((b'#', 268_435_457), (None, "R 1 long\nT 1 0 0 1\n")),
    (
        (b'\n', 1_073_741_825),
        (Some(ReplayFault::StreamTooLong), ""),
    ),
];

// The longest line and stream, and one byte more.
#[test]
fn longest_files(rt: HostRuntime) {
    let cells = sample_cells(&rt, rt.alloc());
    for (repeated, want) in &REPEATED {
        check_repeated(&rt, rt.alloc(), &cells, *repeated, *want);
    }
}
