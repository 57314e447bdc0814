//! The lines that `chunk` writes for a whole text, for a range and before a fault, for reads cut in any way, and a
//! window alone.

use crate::tests::calls::{cut_source, memory_sink, must, same, sample_cells};
use crate::tests::chunk_rows::{LIMITS, ROWS};
use crate::tests::chunks::{LIMIT, limits_of, push_told};
use lbk_args::Part;
use lbk_chunk_reader::Window;
use lbk_chunks::Limits;
use lbk_cmd::{Asked, CmdFault, chunk};
use lbk_feed::devices::{MemorySink, MemorySource};
use lbk_passage::PassageFault;
use lbk_rules::{CellPages, Profile};
use std::alloc::Global;
use std::process::Abort;
use test_support::calls::segmenter_of;
use test_support::reads::cuttings;

/// `chunk`, without its contract.
fn chunked(
    alloc: Global,
    cells: &CellPages,
    asked: Asked<'_>,
    reader: &mut MemorySource<'_>,
    writer: &mut MemorySink,
) -> Result<(), CmdFault> {
    let limits = limits_of(&[4, 0, 2, 0]);
    let profile = Profile::First;
    chunk(alloc, limits, asked, reader, writer, cells, LIMIT, profile)
}

/// A text, read in these sizes, has these lines, and the run ends so.
fn check(rt: &impl Abort, alloc: Global, cells: &CellPages, row: &Row, sizes: &[usize]) {
    let (asked, text, lines, end) = *row;
    let mut reader = cut_source(text, sizes);
    let mut writer = must(rt, memory_sink(alloc, 1024, usize::MAX));
    let answer = chunked(alloc, cells, asked, &mut reader, &mut writer);
    same(rt, &writer.bytes(), &lines.as_bytes(), &sizes);
    same(rt, &answer, &end, &sizes);
}

/// All chunks, a line for each.
const LINES: Asked<'static> = Asked {
    range: None,
    texts: false,
    file: None,
};

/// All chunks, an object for each.
const OBJECTS: Asked<'static> = Asked {
    range: None,
    texts: true,
    file: None,
};

const RANGE: Option<Part> = Some(Part { from: 1, to: 6 });

const ILL_FORMED: CmdFault = CmdFault::Passage(PassageFault::NotUtf8 { at: 8 });

/// What is asked for, a text, the output, and how the run ends.
type Row = (
    Asked<'static>,
    &'static [u8],
    &'static str,
    Result<(), CmdFault>,
);

static WRITTEN: [Row; 6] = [
    (
        LINES,
        b"aa bb\ncc",
        "C 0 3 1 May 18\nC 3 6 1 Must 5\nC 6 8 1 Must 3\n",
        Ok(()),
    ),
    (
        OBJECTS,
        b"\"\\\x1F a\nb\x7F",
        "{\"start\":0,\"end\":4,\"words\":0,\"text\":\"\\\"\\\\\\u001f \"}\n\
         {\"start\":4,\"end\":8,\"words\":2,\"text\":\"a\\nb\x7F\"}\n",
        Ok(()),
    ),
    (
        Asked {
            file: Some("a\t\"b\".txt"),
            ..OBJECTS
        },
        b"cc",
        "{\"file\":\"a\\t\\\"b\\\".txt\",\"start\":0,\"end\":2,\"words\":1,\"text\":\"cc\"}\n",
        Ok(()),
    ),
    (
        Asked {
            range: RANGE,
            ..LINES
        },
        b"aa bb\ncc",
        "C 3 6 1 Must 5\n",
        Ok(()),
    ),
    (
        Asked {
            range: RANGE,
            ..OBJECTS
        },
        b"aa bb\ncc",
        "{\"start\":3,\"end\":6,\"words\":1,\"text\":\"bb\\n\"}\n",
        Ok(()),
    ),
    (LINES, b"aa bb\ncc\xFF", "C 0 3 1 May 18\n", Err(ILL_FORMED)),
];

#[test]
fn written_in_all_reads(rt: HostRuntime) {
    let cells = sample_cells(&rt, rt.alloc());
    for row in &WRITTEN {
        for sizes in &must(&rt, cuttings(rt.alloc(), row.1.len())) {
            check(&rt, rt.alloc(), &cells, row, sizes);
        }
    }
}

/// The chunks of a text, by a window.
fn by_window(
    rt: &impl Abort,
    alloc: Global,
    cells: &CellPages,
    limits: Limits,
    text: &[u8],
) -> String {
    let mut line = String::new(alloc);
    let mut segmenter = must(rt, segmenter_of(alloc, cells, LIMIT, Profile::First));
    let mut window = Window::new(alloc, limits, false);
    let mut reader = MemorySource::new(text);
    for _ in 0..u64::MAX {
        let came = matches!(window.take_next(&mut segmenter, &mut reader), Ok(true));
        for _ in 0..u64::MAX {
            let Some(chunk) = window.next(!came) else {
                break;
            };
            must(rt, push_told(&mut line, &chunk));
        }
        if !came {
            break;
        }
    }
    line
}

/// The same for its first passage, with cuts passed by hand.
fn of_one_passage(rt: &impl Abort, alloc: Global, cells: &CellPages, text: &[u8]) -> String {
    let mut line = String::new(alloc);
    let mut segmenter = must(rt, segmenter_of(alloc, cells, LIMIT, Profile::First));
    let mut window = Window::new(alloc, limits_of(&[4, 0, 0, 0]), true);
    if let Ok(Some(passage)) = segmenter.next(&mut MemorySource::new(text)) {
        must(rt, window.take(&passage));
    }
    if let Some(chunk) = window.next(true) {
        must(rt, push_told(&mut line, &chunk));
        let text = window.text_of(&chunk).unwrap_or(b"");
        must(
            rt,
            line.push_str(str::from_utf8(text).unwrap_or("ill-formed")),
        );
    }
    line
}

#[test]
fn windows(rt: HostRuntime) {
    let cells = sample_cells(&rt, rt.alloc());
    for (text, chunks) in &ROWS {
        for (numbers, want) in LIMITS.iter().zip(chunks.iter()) {
            let limits = limits_of(numbers);
            let line = by_window(&rt, rt.alloc(), &cells, limits, text.as_bytes());
            same(&rt, &line.as_str(), want, text);
        }
    }
    let line = of_one_passage(&rt, rt.alloc(), &cells, b"aa bb\ncc");
    same(&rt, &line.as_str(), &"0-3:1aa ", &line);
}
