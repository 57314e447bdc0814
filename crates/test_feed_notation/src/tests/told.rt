//! Passages in the tests' form.

use lbk_cmd::CmdFault;
use lbk_feed::Source;
use lbk_passage::{Passage, Piece, Segment, Segmenter};
use lbk_rules::CellPages;
use std::alloc::{AllocError, Global};
use std::fmt::Write;
use test_support::calls::next_passage;

fn push_start(line: &mut String, passage: &Passage<'_>) -> Result<(), AllocError> {
    let end = passage.end.rule.label();
    write!(line, "P {} {} {end}", passage.start, passage.text.len())?;
    Ok(())
}

fn push_segment(line: &mut String, segment: &Segment) -> Result<(), AllocError> {
    let (start, end, kind) = (segment.start, segment.end, segment.kind);
    write!(line, " S {start} {end} {kind:?} {}", segment.rule.label())?;
    Ok(())
}

fn push_piece(line: &mut String, piece: &Piece) -> Result<(), AllocError> {
    let name = if piece.word { 'W' } else { 'p' };
    write!(line, " {name} {} {}", piece.start, piece.end)?;
    Ok(())
}

/// Adds the text of a passage.
pub fn push_told(line: &mut String, passage: &Passage<'_>) -> Result<(), AllocError> {
    push_start(line, passage)?;
    for segment in passage.segments {
        push_segment(line, segment)?;
    }
    for piece in passage.pieces {
        push_piece(line, piece)?;
    }
    Ok(())
}

fn told(alloc: Global, passage: &Passage<'_>) -> Result<String, AllocError> {
    let mut line = String::new(alloc);
    push_told(&mut line, passage)?;
    Ok(line)
}

/// The text of the next passage, if there is one.
pub fn told_next<R: Source>(
    alloc: Global,
    segmenter: &mut Segmenter<'_, CellPages>,
    reader: &mut R,
) -> Result<Option<String>, CmdFault> {
    match next_passage(segmenter, reader)? {
        Some(passage) => Ok(Some(told(alloc, &passage)?)),
        None => Ok(None),
    }
}
