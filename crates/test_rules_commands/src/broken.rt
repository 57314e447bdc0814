//! What `break_text` returns and refuses: the lines of `show`, read back, without the rules' numbers.

use crate::calls::{must, same};
use lbk_cmd::{BreakFault, CellsFault, CmdFault, SAMPLE_FILES, break_text};
use lbk_feed::Source;
use lbk_feed::devices::MemorySource;
use lbk_notation::{Form, TestLine, push_line};
use lbk_passage::PassageFault;
use lbk_rules::Profile;
use lbk_ucd::{Files, UcdCause, UcdFault, Which};
use std::alloc::{AllocError, Global};
use std::process::Abort;
use test_support::property_files::line_break_alone;
use test_support::shown::{BOTH, FIRST, SECOND};

/// The most bytes of a paragraph.
const LIMIT: u32 = 65_536;

/// `break_text` without its contract.
fn broken(
    alloc: Global,
    files: Files<'_>,
    source: &mut MemorySource<'_>,
    limit: u32,
    profile: Profile,
) -> Result<Vec<TestLine>, BreakFault> {
    break_text(alloc, files, source, limit, profile)
}

/// The lines, written again, each with a line end.
fn written(alloc: Global, lines: &[TestLine]) -> Result<Vec<u8>, AllocError> {
    let mut text = Vec::new(alloc);
    for line in lines {
        push_line(&mut text, line.scalars(), line.marks(), Form::Kinds)?;
        text.push(b'\n')?;
    }
    Ok(text)
}

/// The lines without the tab and the comment at the end.
fn without_rules(alloc: Global, lines: &str) -> Result<Vec<u8>, AllocError> {
    let mut text = Vec::new(alloc);
    let mut in_comment = false;
    for byte in lines.as_bytes() {
        in_comment = *byte == b'\t' || in_comment && *byte != b'\n';
        if !in_comment {
            text.push(*byte)?;
        }
    }
    Ok(text)
}

/// Checks a text in reads of `size` bytes: the lines read back are those of `show`.
fn check(
    rt: &impl Abort,
    alloc: Global,
    (text, lines): (&str, &str),
    profile: Profile,
    size: usize,
) {
    let sizes = [size];
    let mut source = MemorySource::cut(text.as_bytes(), &sizes);
    let found = must(rt, broken(alloc, SAMPLE_FILES, &mut source, LIMIT, profile));
    let found = must(rt, written(alloc, &found));
    let want = must(rt, without_rules(alloc, lines));
    same(rt, &found.as_slice(), &want.as_slice(), &(text, size));
}

/// Checks rows in a profile, in reads of `size` bytes.
fn check_rows(
    rt: &impl Abort,
    alloc: Global,
    rows: &[(&str, &str)],
    profile: Profile,
    size: usize,
) {
    for row in rows {
        check(rt, alloc, *row, profile, size);
    }
}

#[test]
fn texts(rt: HostRuntime) {
    let alloc = rt.alloc();
    check_rows(&rt, alloc, &BOTH[..5], Profile::First, 1);
    check_rows(&rt, alloc, &BOTH[2..3], Profile::Second, 2);
    check_rows(&rt, alloc, &FIRST, Profile::First, 4096);
    check_rows(&rt, alloc, &SECOND, Profile::Second, 1);
}

/// A text, the limit of a paragraph, the failing read of one byte, if any, and why the text is refused.
type Refused = (&'static [u8], u32, Option<u64>, PassageFault);

static REFUSED: [Refused; 9] = [
    (b"a\nb\xFF", LIMIT, None, PassageFault::NotUtf8 { at: 3 }),
    (b"ab", 0, None, PassageFault::Limit),
    (b"ab", 16_777_217, None, PassageFault::Limit),
    (
        b"\nab",
        1,
        None,
        PassageFault::ParagraphTooLong { start: 1 },
    ),
    (b"a\r\nb", LIMIT, Some(0), PassageFault::Read),
    (b"a\r\nb", LIMIT, Some(1), PassageFault::Read),
    (b"a\r\nb", LIMIT, Some(2), PassageFault::Read),
    (b"a\r\nb", LIMIT, Some(3), PassageFault::Read),
    (b"a\r\nb", LIMIT, Some(4), PassageFault::Read),
];

/// In reads of one byte if one fails, else in one read.
fn source_of(text: &'static [u8], failing: Option<u64>) -> MemorySource<'static> {
    match failing {
        Some(read) => MemorySource::cut(text, &[1]).failing_at(read),
        None => MemorySource::cut(text, &[]),
    }
}

#[test]
fn refused_texts(rt: HostRuntime) {
    for (text, limit, failing, want) in &REFUSED {
        let mut source = source_of(text, *failing);
        let alloc = rt.alloc();
        let fault = broken(alloc, SAMPLE_FILES, &mut source, *limit, Profile::First).err();
        let want = BreakFault::Text(CmdFault::Passage(*want));
        same(&rt, &fault, &Some(want), limit);
    }
}

const REFUSAL: UcdFault = UcdFault {
    file: Which::LineBreak,
    line: 2,
    cause: UcdCause::UnknownValue,
};

#[test]
fn refused_files(rt: HostRuntime) {
    let files = line_break_alone(b"# LineBreak-15.0.0.txt\n0041;XY\n");
    let mut source = MemorySource::cut(b"ab", &[]);
    let fault = broken(rt.alloc(), files, &mut source, LIMIT, Profile::First).err();
    let want = BreakFault::Files(CellsFault::Tables(REFUSAL));
    same(&rt, &fault, &Some(want), &"a bad row");
    same(&rt, &source.reads(), &0, &"a bad row");
}
