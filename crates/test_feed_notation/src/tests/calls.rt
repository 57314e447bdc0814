//! Calls for tests, without their contracts. A test only proves that it is safe and returns, so it needs no facts about
//! them; without these facts a check takes a fraction of the time.

use lbk_cmd::{SAMPLE_FILES, read_cells};
use lbk_feed::devices::{MemorySink, MemorySource};
use lbk_feed::{Failed, Feed, FeedFault, Sink, Source, write_all};
use lbk_notation::{Form, ReplayFault, Report, replay};
use lbk_passage::{PassageFault, Segmenter};
use lbk_rules::{CellPages, CellSource};
use std::alloc::{AllocError, Global};
use std::fmt::Debug;
use std::process::Abort;
use test_support::calls::next_passage;
use test_support::engines::Setting;

/// The value of a call that has to succeed. A body with `?` has a way out at each call, which releases all that the
/// body owns; a body with this has none, and its check takes a fraction of the time. `test_rules_commands` has the same,
/// since no library may end a process.
pub fn must<T, E: Debug + Drop>(rt: &impl Abort, answer: Result<T, E>) -> T {
    answer.expect(rt, "a call failed")
}

/// Compares a result with the expected one.
pub fn same<T: PartialEq + Debug, D: Debug>(rt: &impl Abort, found: &T, want: &T, of: &D) {
    assert!(rt; found == want, "{found:?} in place of {want:?}: {of:?}");
}

/// The cells of the sample files.
pub fn sample_cells(rt: &impl Abort, alloc: Global) -> CellPages {
    must(rt, read_cells(alloc, SAMPLE_FILES))
}

/// Returns the bytes in reads of these sizes; the last size is that of all later reads.
pub fn cut_source<'a>(bytes: &'a [u8], sizes: &'a [usize]) -> MemorySource<'a> {
    MemorySource::cut(bytes, sizes)
}

/// Returns the bytes in reads of these sizes; one of them may fail.
pub fn source_of<'a>(
    bytes: &'a [u8],
    sizes: &'a [usize],
    failing: Option<u64>,
) -> MemorySource<'a> {
    let source = cut_source(bytes, sizes);
    match failing {
        Some(read) => source.failing_at(read),
        None => source,
    }
}

/// Accepts `room` bytes, at most `most` in a write.
pub fn memory_sink(alloc: Global, room: usize, most: usize) -> Result<MemorySink, AllocError> {
    Ok(MemorySink::new(alloc, room)?.at_most(most))
}

pub fn write_all_to<W: Sink>(writer: &mut W, bytes: &[u8]) -> Result<(), Failed> {
    write_all(writer, bytes)
}

/// Writes a line.
pub fn write_line_to<W: Sink>(writer: &mut W, line: &str) -> Result<(), Failed> {
    write_all_to(writer, line.as_bytes())?;
    write_all_to(writer, b"\n")
}

/// Consumes the next piece, and says whether there is one.
pub fn take_piece<R: Source>(feed: &mut Feed, reader: &mut R) -> Result<bool, FeedFault> {
    let found = feed.piece(reader)?.is_some();
    let n = feed.ready().len();
    feed.advance(n);
    Ok(found)
}

/// Says whether there is another passage.
pub fn has_next<R: Source, C: CellSource>(
    segmenter: &mut Segmenter<'_, C>,
    reader: &mut R,
) -> Result<bool, PassageFault> {
    Ok(next_passage(segmenter, reader)?.is_some())
}

pub fn replay_to<R: Source, W: Sink>(
    setting: Setting<'_>,
    form: Form,
    reader: &mut R,
    writer: &mut W,
) -> Result<Report, ReplayFault> {
    let Setting { alloc, cells, .. } = setting;
    replay(alloc, reader, writer, cells, form, setting.profile)
}
