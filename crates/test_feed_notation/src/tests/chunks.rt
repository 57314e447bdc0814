//! The chunks of texts, for reads cut in any way: in two and three reads, cut at every offset, and in reads of one to
//! seven bytes.

use crate::tests::calls::{must, same, sample_cells};
use crate::tests::chunk_rows::{LIMITS, Numbers, ROWS};
use lbk_chunk_reader::{Chunk, ChunkFault, Chunker};
use lbk_chunks::Limits;
use lbk_feed::devices::MemorySource;
use lbk_passage::PassageFault;
use lbk_rules::{CellPages, Profile};
use std::alloc::{AllocError, Global};
use std::fmt::Write;
use std::process::Abort;
use test_support::reads::cuttings;

/// The most bytes of a paragraph.
pub const LIMIT: u32 = 64;

pub fn limits_of(numbers: &Numbers) -> Limits {
    Limits {
        most: numbers[0],
        words: numbers[1],
        least: numbers[2],
        overlap: numbers[3],
    }
}

pub fn push_told(line: &mut String, chunk: &Chunk) -> Result<(), AllocError> {
    if !line.is_empty() {
        line.push(' ')?;
    }
    write!(line, "{}-{}:{}", chunk.start, chunk.end, chunk.words)?;
    if chunk.alone {
        line.push('!')?;
    }
    Ok(())
}

/// The chunks of a text, read in these sizes, and the fault after them.
fn told(
    rt: &impl Abort,
    alloc: Global,
    cells: &CellPages,
    limits: Limits,
    text: &[u8],
    sizes: &[usize],
) -> (String, Option<PassageFault>) {
    let mut line = String::new(alloc);
    let chunker = Chunker::new(alloc, cells, limits, LIMIT, Profile::First);
    let mut chunker = must(rt, chunker);
    let mut reader = MemorySource::cut(text, sizes);
    for _ in 0..u64::MAX {
        match chunker.next(&mut reader) {
            Ok(Some(chunk)) => must(rt, push_told(&mut line, &chunk)),
            Ok(None) => break,
            Err(fault) => return (line, Some(fault)),
        }
    }
    (line, None)
}

/// A text has these chunks and then this fault, however its reads are cut.
fn check(
    rt: &impl Abort,
    alloc: Global,
    cells: &CellPages,
    limits: Limits,
    text: &[u8],
    (want, fault): (&str, Option<PassageFault>),
) {
    for sizes in &must(rt, cuttings(alloc, text.len())) {
        let (line, found) = told(rt, alloc, cells, limits, text, sizes);
        same(rt, &line.as_str(), &want, &(text, sizes));
        same(rt, &found, &fault, &(text, sizes));
    }
}

#[test]
fn chunks_in_all_reads(rt: HostRuntime) {
    let cells = sample_cells(&rt, rt.alloc());
    for (text, chunks) in &ROWS {
        for (numbers, want) in LIMITS.iter().zip(chunks.iter()) {
            let limits = limits_of(numbers);
            let told = (*want, None);
            check(&rt, rt.alloc(), &cells, limits, text.as_bytes(), told);
        }
    }
}

/// Refused texts, the chunks of at most four bytes that are settled before, and the fault.
static REFUSED: [(&[u8], &str, PassageFault); 3] = [
    (b"aa\nbb\xFF", "", PassageFault::NotUtf8 { at: 5 }),
    (b"aa bb\ncc\n\xC3", "0-3:1", PassageFault::NotUtf8 { at: 9 }),
    (
        b"aaaaaaaaaaaaaaaaaaaaaaaaaaaaaaaaaaaaaaaaaaaaaaaaaaaaaaaaaaaaaaaaaa",
        "",
        PassageFault::ParagraphTooLong { start: 0 },
    ),
];

#[test]
fn refused_texts(rt: HostRuntime) {
    let cells = sample_cells(&rt, rt.alloc());
    let limits = limits_of(&[4, 0, 0, 0]);
    for (text, want, fault) in &REFUSED {
        let told = (*want, Some(*fault));
        check(&rt, rt.alloc(), &cells, limits, text, told);
    }
}

/// Limits out of range.
const BAD: [Numbers; 3] = [[0, 0, 0, 0], [4, 0, 5, 0], [4, 0, 0, 3]];

#[test]
fn refused_limits(rt: HostRuntime) {
    let cells = sample_cells(&rt, rt.alloc());
    for numbers in &BAD {
        let made = Chunker::new(
            rt.alloc(),
            &cells,
            limits_of(numbers),
            LIMIT,
            Profile::First,
        );
        same(&rt, &made.err(), &Some(ChunkFault::Limits), numbers);
    }
    let made = Chunker::new(
        rt.alloc(),
        &cells,
        limits_of(&[4, 0, 2, 2]),
        0,
        Profile::First,
    );
    let fault = ChunkFault::Passage(PassageFault::Limit);
    same(&rt, &made.err(), &Some(fault), &0);
}
