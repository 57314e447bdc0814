//! A writer that stops: for each n below the length of the output exactly the first n bytes were written, and the
//! result is a failed write.

use crate::tests::calls::{cut_source, memory_sink, must, same, sample_cells};
use crate::tests::tasks::{End, MARK, REPLAY, SEGMENT, SHOW, Task};
use lbk_feed::{Device, Sink};
use lbk_rules::Profile;
use std::process::Abort;
use test_support::engines::Setting;
use test_support::replayed::{FOUR_LINES, FOUR_LINES_TEXT};

/// A task, its input, and its output.
type Row = (Task, &'static str, &'static str);

static RUNS: [Row; 4] = [
    (MARK, "a b\r\nc", "a ÷b\r\nc\n"),
    (
        SHOW,
        "a\r\nb",
        "× 0061 × 000D × 000A !\t# 2 6 5 5\n× 0062 !\t# 2 3\n",
    ),
    (
        SEGMENT,
        "a\r\nb",
        "P 0 3\nS 0 3 Must 5\nW 0 1\nP 3 4\nS 3 4 Must 3\nW 3 4\n",
    ),
    (REPLAY, FOUR_LINES, FOUR_LINES_TEXT),
];

/// Compares how a run with so much room ended, how many writes failed, and the output.
fn check(rt: &impl Abort, row: Row, room: usize, end: End, failures: u64, written: &[u8]) {
    let (task, _, output) = row;
    let stopped = room < output.len();
    let run = (task, room);
    same(rt, &(end == task.failed_write()), &stopped, &run);
    same(rt, &failures, &u64::from(stopped), &run);
    same(rt, &Some(written), &output.as_bytes().get(..room), &run);
}

/// Into a sink that accepts at most this many bytes per write.
fn check_sink(rt: &impl Abort, setting: Setting<'_>, row: Row, room: usize, most: usize) {
    let (task, input, _) = row;
    let mut source = cut_source(input.as_bytes(), &[]);
    let mut sink = must(rt, memory_sink(setting.alloc, room, most));
    let end = task.run(setting, &mut source, &mut sink);
    check(rt, row, room, end, sink.failures(), sink.bytes());
}

/// Into a writer of std, which accepts no byte once it is full; for std this is not a failure.
fn check_writer(rt: &impl Abort, setting: Setting<'_>, row: Row, room: usize) {
    let (task, input, _) = row;
    let mut taken = must(rt, vec![in setting.alloc; 0u8; room]);
    let mut source = cut_source(input.as_bytes(), &[]);
    let mut device = Device::new(taken.as_mut_slice());
    let end = task.run(setting, &mut source, &mut device);
    let failures = device.failures();
    check(rt, row, room, end, failures, &taken);
}

/// A write accepts one byte, a few, or all, until n bytes were accepted.
fn check_row(rt: &impl Abort, setting: Setting<'_>, row: Row) {
    for room in 0..=row.2.len() {
        check_sink(rt, setting, row, room, 1);
        check_sink(rt, setting, row, room, 7);
        check_sink(rt, setting, row, room, usize::MAX);
        check_writer(rt, setting, row, room);
    }
}

#[test]
fn stopped_writers(rt: HostRuntime) {
    let cells = sample_cells(&rt, rt.alloc());
    let setting = Setting::new(rt.alloc(), &cells, Profile::First);
    for row in &RUNS {
        check_row(&rt, setting, *row);
    }
}
