//! `Segmenter::new` and `next`.

use crate::counting::{begin, end};
use crate::digest::Digest;
use crate::inputs::{Input, cells, source_of};
use crate::told::fault_told;
use lbk_feed::Source;
use lbk_feed::devices::MemorySource;
use lbk_passage::{Passage, PassageFault, Piece, Segment, Segmenter};
use lbk_rules::{CellPages, Profile};
use std::alloc::{AllocError, Global};
use std::fmt::Write;
use test_support::calls::{next_passage, segmenter_of};

/// More calls of `next` than any row needs.
const CALLS: usize = 10_000;

pub fn new(alloc: Global, limit: u32, profile: Profile) -> Result<String, AllocError> {
    let cells = cells(alloc)?;
    new_told(alloc, &cells, limit, profile)
}

fn new_told(
    alloc: Global,
    cells: &CellPages,
    limit: u32,
    profile: Profile,
) -> Result<String, AllocError> {
    begin(alloc);
    let answer = segmenter_of(alloc, cells, limit, profile);
    end(alloc);
    match answer {
        Ok(_segmenter) => String::from_str(alloc, "Ok\n"),
        Err(fault) => fault_told(alloc, &fault),
    }
}

/// All passages of a text, and the result after them, with the number of reads so far.
pub fn next(alloc: Global, input: &Input<'_>) -> Result<String, AllocError> {
    match input.setting(alloc).segmenter() {
        Ok(mut segmenter) => all_told(alloc, &mut segmenter, input.bytes),
        Err(fault) => fault_told(alloc, &fault),
    }
}

fn all_told(
    alloc: Global,
    segmenter: &mut Segmenter<'_, CellPages>,
    bytes: &[u8],
) -> Result<String, AllocError> {
    let mut told = String::new(alloc);
    tell_all(alloc, &mut told, segmenter, &mut source_of(bytes))?;
    Ok(told)
}

fn tell_all(
    alloc: Global,
    told: &mut String,
    segmenter: &mut Segmenter<'_, CellPages>,
    source: &mut MemorySource<'_>,
) -> Result<(), AllocError> {
    for _ in 0..CALLS {
        if !tell_call(alloc, told, segmenter, source)? {
            break;
        }
    }
    Ok(())
}

/// Makes one call, and writes its result. Returns whether to make another: also after `Memory`, which repeats the call.
fn tell_call(
    alloc: Global,
    told: &mut String,
    segmenter: &mut Segmenter<'_, CellPages>,
    source: &mut MemorySource<'_>,
) -> Result<bool, AllocError> {
    begin(alloc);
    let answer = next_passage(segmenter, source);
    end(alloc);
    tell_answer(told, &answer)?;
    let goes_on = matches!(answer, Ok(Some(_)) | Err(PassageFault::Memory));
    tell_reads(told, source)?;
    Ok(goes_on)
}

fn tell_reads(told: &mut String, source: &MemorySource<'_>) -> Result<(), AllocError> {
    let reads = source.reads();
    writeln!(told, " after {reads} reads")
}

fn tell_answer(
    told: &mut String,
    answer: &Result<Option<Passage<'_>>, PassageFault>,
) -> Result<(), AllocError> {
    match answer {
        Ok(Some(passage)) => tell(told, passage),
        Ok(None) => told.push_str("None"),
        Err(fault) => write!(told, "Err({fault:?})"),
    }
}

/// The passage in full if it is short, else the counts of its parts and a digest of them.
fn tell(told: &mut String, passage: &Passage<'_>) -> Result<(), AllocError> {
    if passage.segments.len() <= 4 && passage.pieces.len() <= 8 {
        return write!(told, "{passage:?}");
    }
    let start = passage.start;
    let end = passage.end;
    let bytes = passage.text.len();
    let segments = passage.segments.len();
    let pieces = passage.pieces.len();
    let digest = digest_of(passage);
    write!(
        told,
        "passage at {start} of {bytes} bytes, {segments} segments, {pieces} pieces, end {end:?}, digest {digest:016x}"
    )
}

fn digest_of(passage: &Passage<'_>) -> u64 {
    let mut digest = Digest::new();
    digest.add_bytes(passage.text.as_bytes());
    add_segments(&mut digest, passage.segments);
    add_pieces(&mut digest, passage.pieces);
    digest.value()
}

fn add_segments(digest: &mut Digest, segments: &[Segment]) {
    for segment in segments {
        digest.add(u64::from(segment.start));
        digest.add(u64::from(segment.end));
        digest.add_verdict(segment.kind, segment.rule);
    }
}

fn add_pieces(digest: &mut Digest, pieces: &[Piece]) {
    for piece in pieces {
        digest.add(u64::from(piece.start));
        digest.add(u64::from(piece.end));
        digest.add(u64::from(piece.word));
    }
}
