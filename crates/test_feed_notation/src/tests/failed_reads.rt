//! Readers that fail at each read: everything settled was written before, and no read follows.

use crate::tests::calls::{same, sample_cells};
use crate::tests::runs::{Run, check_run, whole};
use crate::tests::tasks::{MARK, REPLAY, SEGMENT, SHOW, Task};
use lbk_rules::Profile;
use std::process::Abort;
use test_support::engines::Setting;
use test_support::replayed::FOUR_LINES;

/// A task, its input, and the output after so many bytes of it.
type Row = (Task, &'static str, &'static [(usize, &'static str)]);

static ROWS: [Row; 7] = [
    (MARK, "a b\r\nc", &[(6, "a ÷b\r\n")]),
    (MARK, "a b\nc", &[(5, "a ÷b\n")]),
    (
        SHOW,
        "a\r\nb",
        &[(4, "× 0061 × 000D × 000A !\t# 2 6 5 5\n")],
    ),
    (
        SHOW,
        "a\n\u{20AC}\n\u{1F466}",
        &[
            (5, "× 0061 × 000A !\t# 2 6 5\n"),
            (10, "× 0061 × 000A !\t# 2 6 5\n× 20AC × 000A !\t# 2 6 5\n"),
        ],
    ),
    (SEGMENT, "a\r\nb", &[(4, "P 0 3\nS 0 3 Must 5\nW 0 1\n")]),
    // The second LF is at byte 37.
    (
        REPLAY,
        FOUR_LINES,
        &[(38, "D 2 1 ÷ × 28\n"), (49, "D 2 1 ÷ × 28\nR 3 7\n")],
    ),
    (
        Task::Passages,
        "a\nb\nc\nd",
        &[(3, LETTER), (5, TWO_LETTERS), (7, THREE_LETTERS)],
    ),
];

const LETTER: &str = "P 0 2 5 S 0 2 Must 5 W 0 1 p 1 2\n";

const TWO_LETTERS: &str = "P 0 2 5 S 0 2 Must 5 W 0 1 p 1 2\nP 2 2 5 S 0 2 Must 5 W 0 1 p 1 2\n";

const THREE_LETTERS: &str =
    "P 0 2 5 S 0 2 Must 5 W 0 1 p 1 2\nP 2 2 5 S 0 2 Must 5 W 0 1 p 1 2\nP 4 2 5 S 0 2 Must 5 W 0 1 p 1 2\n";

/// The output after so many bytes.
fn written_after<'a>(outputs: &[(usize, &'a str)], read: usize) -> &'a str {
    let mut written = "";
    for (from, output) in outputs {
        if *from <= read {
            written = output;
        }
    }
    written
}

/// Fails each read of so many bytes; the last one would return the end.
fn check_failed_reads(rt: &impl Abort, setting: Setting<'_>, row: &Row, size: usize) {
    let (task, input, outputs) = *row;
    for place in 0..=input.len() {
        let read = place.saturating_mul(size);
        if read >= input.len().saturating_add(size) {
            break;
        }
        let sizes = [size];
        let run = Run {
            sizes: &sizes,
            failing: Some(place as u64),
            ..whole(task, input.as_bytes())
        };
        let written = written_after(outputs, read).as_bytes();
        let reads = check_run(rt, run, setting, task.failed_read(), written);
        same(rt, &reads, &(place as u64).saturating_add(1), &run);
    }
}

/// In reads of all sizes.
fn check_row(rt: &impl Abort, setting: Setting<'_>, row: &Row) {
    for size in 1..=row.1.len() {
        check_failed_reads(rt, setting, row, size);
    }
}

#[test]
fn failed_reads(rt: HostRuntime) {
    let cells = sample_cells(&rt, rt.alloc());
    for row in &ROWS {
        for profile in [Profile::First, Profile::Second] {
            check_row(&rt, Setting::new(rt.alloc(), &cells, profile), row);
        }
    }
}
