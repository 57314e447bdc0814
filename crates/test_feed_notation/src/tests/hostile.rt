//! The greatest sizes, and no results after them; scalars and line ends across the edges of blocks.

use crate::tests::calls::{has_next, must, same, sample_cells};
use crate::tests::runs::{Run, check_run, whole};
use crate::tests::tasks::{End, Task};
use lbk_cmd::CmdFault;
use lbk_feed::devices::RepeatedSource;
use lbk_feed::{Device, Source};
use lbk_passage::{LIMIT_MAX, PassageFault, Segmenter};
use lbk_rules::{CellPages, Profile};
use std::alloc::{AllocError, Global};
use std::io::{self, Read};
use std::process::Abort;
use test_support::calls::next_passage;
use test_support::engines::Setting;
use test_support::reads::SIZES;

/// Takes all passages up to the last, and says whether there is none after it.
fn take_passages<R: Source>(
    segmenter: &mut Segmenter<'_, CellPages>,
    reader: &mut R,
) -> Result<bool, PassageFault> {
    for _ in 0..400_000 {
        if !has_next(segmenter, reader)? {
            return Ok(false);
        }
    }
    Ok(true)
}

/// Takes all passages up to the expected fault, and calls three times more.
fn check_spent<R: Source>(
    rt: &impl Abort,
    setting: Setting<'_>,
    reader: &mut R,
    want: PassageFault,
) {
    let mut segmenter = must(rt, setting.segmenter());
    let found = take_passages(&mut segmenter, reader);
    same(rt, &found, &Err(want), &"a segmenter");
    let reads = reader.reads();
    for _ in 0..3 {
        let again = has_next(&mut segmenter, reader);
        same(rt, &again, &Err(PassageFault::Spent), &"a fault");
    }
    same(rt, &reader.reads(), &reads, &want);
}

/// An endless reader: lines of 65,535 letters.
#[derive(Drop)]
struct Lines {
    column: u16,
}

impl Read for Lines {
    fn read(&mut self, buf: &mut [u8]) -> io::Result<usize> {
        for place in buf.iter_mut() {
            *place = if self.column == u16::MAX { b'\n' } else { b'a' };
            self.column = self.column.wrapping_add(1);
        }
        Ok(buf.len())
    }
}

/// How many bytes, segments and pieces the next passage has, if there is one.
fn next_sizes<R: Source>(
    segmenter: &mut Segmenter<'_, CellPages>,
    reader: &mut R,
) -> Result<Option<[usize; 3]>, PassageFault> {
    match next_passage(segmenter, reader)? {
        Some(passage) => Ok(Some([
            passage.text.len(),
            passage.segments.len(),
            passage.pieces.len(),
        ])),
        None => Ok(None),
    }
}

/// The only passage, with as many bytes as a paragraph may have: one segment and one piece.
fn check_greatest(rt: &impl Abort, setting: Setting<'_>) {
    let mut source = RepeatedSource::new(b'a', u64::from(setting.limit));
    let mut segmenter = must(rt, setting.segmenter());
    for want in [Some([setting.limit as usize, 1, 1]), None] {
        let found = next_sizes(&mut segmenter, &mut source);
        same(rt, &found, &Ok(want), &"the greatest passage");
    }
}

/// At the greatest limit and one byte over it; and more than 1,000,000,000 bytes, which takes some seconds.
#[test]
fn greatest_sizes(rt: HostRuntime) {
    let cells = sample_cells(&rt, rt.alloc());
    let mut setting = Setting::new(rt.alloc(), &cells, Profile::First);
    let mut lines = Device::new(Lines { column: 0 });
    check_spent(&rt, setting, &mut lines, PassageFault::TextTooLong);
    setting.limit = LIMIT_MAX;
    check_greatest(&rt, setting);
    let mut longer = RepeatedSource::new(b'a', 16_777_217);
    let fault = PassageFault::ParagraphTooLong { start: 0 };
    check_spent(&rt, setting, &mut longer, fault);
}

/// So many letters, and these bytes after them.
fn text_behind(alloc: Global, n: usize, bytes: &[u8]) -> Result<Vec<u8>, AllocError> {
    let mut text = vec![in alloc; b'a'; n]?;
    text.extend_from_slice(bytes)?;
    Ok(text)
}

/// The passages of a text in reads of all sizes, or the fault instead.
fn check_sizes(
    rt: &impl Abort,
    setting: Setting<'_>,
    text: &[u8],
    end: Result<(), PassageFault>,
    told: &str,
) {
    let end = End::Text(end.map_err(CmdFault::Passage));
    for size in &SIZES {
        let sizes = [*size];
        let run = Run {
            sizes: &sizes,
            ..whole(Task::Passages, text)
        };
        let _ = check_run(rt, run, setting, end, told.as_bytes());
    }
}

/// The whole text is one passage, and it is ill-formed at `n` without its last byte or its last two.
fn check_scalar_behind(rt: &impl Abort, setting: Setting<'_>, n: usize) {
    let text = must(rt, text_behind(setting.alloc, n, b"\xE2\x82\xAC"));
    let fault = PassageFault::NotUtf8 { at: n as u64 };
    for cut in [1, 2] {
        let shorter = text.get(..n.saturating_add(cut)).unwrap_or(&text);
        check_sizes(rt, setting, shorter, Err(fault), "");
    }
    let m = n.saturating_add(3);
    let told = must(
        rt,
        format!(in setting.alloc; "P 0 {m} 3 S 0 {m} Must 3 W 0 {n} p {n} {m}\n"),
    );
    check_sizes(rt, setting, &text, Ok(()), told.as_str());
}

/// CR ends a block and LF begins the next.
const TWO: &str =
    "P 0 4097 5 S 0 4097 Must 5 W 0 4095 p 4095 4097\nP 4097 1 3 S 0 1 Must 3 W 0 1\n";

// A scalar of three bytes at each offset around the end of a block, and a line end across it.
#[test]
fn block_edges(rt: HostRuntime) {
    let cells = sample_cells(&rt, rt.alloc());
    let setting = Setting::new(rt.alloc(), &cells, Profile::First);
    for n in 4090..=4100 {
        check_scalar_behind(&rt, setting, n);
    }
    let text = must(&rt, text_behind(rt.alloc(), 4095, b"\r\nb"));
    check_sizes(&rt, setting, &text, Ok(()), TWO);
}
