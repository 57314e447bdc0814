//! Texts of many sizes, with ample memory: each gives its result, and none runs out of memory.

use crate::tests::calls::{cut_source, must, sample_cells};
use lbk_notation::{Form, LineFault, TestLine, read_back};
use lbk_passage::{LIMIT_MAX, PassageFault, Segment};
use lbk_rules::{CellPages, Kind, Profile, Rule};
use std::alloc::{AllocError, Global};
use std::process::Abort;
use test_support::calls::{mark_text, next_passage, segmenter_of};

/// A size, and two pseudorandom ones between each power of two up to the 16th and the next.
fn sizes(alloc: Global) -> Result<Vec<u32>, AllocError> {
    let mut drawn = Vec::new(alloc);
    let mut chance: u32 = 14;
    drawn.push(2000)?;
    for power in 0..34u32 {
        chance = chance.wrapping_mul(1_664_525).wrapping_add(1_013_904_223);
        let least = 1u32 << (power / 2);
        drawn.push(least + (chance >> 8) % least)?;
    }
    Ok(drawn)
}

fn read_again(alloc: Global, line: &TestLine) -> Result<Option<TestLine>, LineFault> {
    read_back(alloc, line, Form::Kinds)
}

/// How many scalars and marks a text's line has, and whether it is read back unchanged.
fn line_counts(
    alloc: Global,
    cells: &CellPages,
    text: &str,
) -> Result<(usize, usize, bool), LineFault> {
    let line = mark_text(alloc, cells, text, Profile::Second)?;
    let again = read_again(alloc, &line)?;
    let is_same = match &again {
        Some(read) => read.scalars() == line.scalars() && read.marks() == line.marks(),
        None => false,
    };
    Ok((line.scalars().len(), line.marks().len(), is_same))
}

/// How many segments and pieces a text's first passage has, and the last segment.
fn passage_counts(
    alloc: Global,
    cells: &CellPages,
    text: &str,
    profile: Profile,
) -> Result<Option<(usize, usize, Option<Segment>)>, PassageFault> {
    let mut source = cut_source(text.as_bytes(), &[]);
    let mut segmenter = segmenter_of(alloc, cells, LIMIT_MAX, profile)?;
    match next_passage(&mut segmenter, &mut source)? {
        Some(passage) => Ok(Some((
            passage.segments.len(),
            passage.pieces.len(),
            passage.segments.last().copied(),
        ))),
        None => Ok(None),
    }
}

/// The last word, with so many bytes, and the space after it.
fn last_segment(length: u32) -> Segment {
    Segment {
        start: length.saturating_sub(2),
        end: length,
        kind: Kind::Must,
        rule: Rule::Lb3,
    }
}

fn check(rt: &impl Abort, alloc: Global, cells: &CellPages, size: u32) {
    // This many letters with a space after each.
    let text = must(rt, "a ".repeat(alloc, size as usize));
    let counts = must(rt, line_counts(alloc, cells, &text));
    let (pairs, scalars) = (text.len() / 2, text.len());
    let last = Some(last_segment(size.saturating_mul(2)));
    for profile in [Profile::First, Profile::Second] {
        let passage = must(rt, passage_counts(alloc, cells, &text, profile));
        assert!(rt;
            passage == Some((pairs, scalars, last)),
            "the passage of {size} letters"
        );
    }
    assert!(rt;
        counts == (scalars, scalars + 1, true),
        "the line of {size} letters"
    );
}

#[test]
fn lines_and_passages_of_drawn_sizes(rt: HostRuntime) {
    let cells = sample_cells(&rt, rt.alloc());
    for size in &must(&rt, sizes(rt.alloc())) {
        check(&rt, rt.alloc(), &cells, *size);
    }
}
