//! The values of code points in tables, and how files are refused.

use crate::calls::{must, same};
use crate::property_calls::{Values, run_of, values_of};
use lbk_cmd::SAMPLE_FILES;
use lbk_ucd::{Category, EastAsian, Files, LineBreak, Places, Tables, UcdCause, UcdFault, Which};
use std::alloc::{AllocError, Global};
use std::fmt::Write;
use std::process::Abort;
use std::test::Fail;
use test_support::calls::tables_of;
use test_support::property_files::{NO_FILES, line_break_alone};

/// Property files with content only in this one.
fn one_file(which: Which, bytes: &[u8]) -> Files<'_> {
    let mut files = line_break_alone(b"");
    match which {
        Which::LineBreak => files.line_break = bytes,
        Which::EastAsianWidth => files.east_asian = bytes,
        Which::Category => files.category = bytes,
        Which::Emoji => files.emoji = bytes,
    }
    files
}

/// The line and the cause of a fault, or none.
type Place = Option<(u32, UcdCause)>;

/// Compares the fault of a file, with the others empty. A failure shows how the file begins.
fn check_file(rt: &impl Abort, alloc: Global, file: Which, bytes: &[u8], want: Place) {
    let found = match tables_of(alloc, one_file(file, bytes)) {
        Ok(_) => None,
        Err(fault) => Some(fault),
    };
    let want = match want {
        None => None,
        Some((line, cause)) => Some(UcdFault { file, line, cause }),
    };
    same(rt, &found, &want, &bytes.get(..64).unwrap_or(bytes));
}

/// Files, and the line and cause of their fault, with the others empty.
#[rattlefmt::skip]
static FILES: [(Which, &[u8], Place); 19] = [
    (Which::LineBreak, b"0061;Alphabetic # x", None),
    (Which::LineBreak, b"00041 ;AL", None),
    (Which::LineBreak, b"# @missing: 0000; AK", None),
    (Which::LineBreak, b"# @missing: 0000..10FFFF; AK", Some((1, UcdCause::UnknownValue))),
    (Which::LineBreak, b"0061;al", Some((1, UcdCause::UnknownValue))),
    (Which::LineBreak, b"110000..0061;AK", Some((1, UcdCause::Range))),
    (Which::LineBreak, b"0041 ..0042;AL", Some((1, UcdCause::RowSyntax))),
    (Which::LineBreak, b"041;AL", Some((1, UcdCause::RowSyntax))),
    (Which::LineBreak, b"0061;AL x", Some((1, UcdCause::RowSyntax))),
    (Which::LineBreak, b"0041;AL\n0041..0042;ID", Some((2, UcdCause::Overlap))),
    (Which::LineBreak, b"0061;AK", Some((1, UcdCause::UnknownValue))),
    (Which::LineBreak, b"0062..0061;AL", Some((1, UcdCause::Range))),
    (Which::LineBreak, b"110000;AL", Some((1, UcdCause::Range))),
    (Which::LineBreak, b"0061 AL", Some((1, UcdCause::RowSyntax))),
    (Which::LineBreak, b"0061;", Some((1, UcdCause::RowSyntax))),
    (Which::LineBreak, b"\xEF\xBB\xBF0061;AL\r\n", None),
    (Which::Category, b"0061;Lowercase_Letter", Some((1, UcdCause::UnknownValue))),
    (Which::Emoji, b"0062..0061;Zorg", Some((1, UcdCause::Range))),
    (Which::Emoji, b"00A9;Extended_Pictographic\n00A9;Extended_Pictographic", Some((2, UcdCause::Overlap))),
];

#[test]
fn files(rt: HostRuntime) {
    for (which, bytes, fault) in &FILES {
        check_file(&rt, rt.alloc(), *which, bytes, *fault);
    }
}

/// Files by how they begin, what follows and how often, and their fault: the longest lines and files, and longer ones.
static LENGTHS: [(&str, &str, usize, Place); 4] = [
    ("#", "x", 1_024, Some((1, UcdCause::LineTooLong))),
    ("#", "x", 1_023, None),
    ("", "\n", 8_388_608, None),
    ("", "\n", 8_388_609, Some((0, UcdCause::FileTooLong))),
];

#[test]
fn lengths(rt: HostRuntime) {
    for (front, repeated, count, fault) in &LENGTHS {
        let mut text = String::new(rt.alloc());
        must(&rt, text.push_str(front));
        for _ in 0..*count {
            must(&rt, text.push_str(repeated));
        }
        check_file(&rt, rt.alloc(), Which::LineBreak, text.as_bytes(), *fault);
    }
}

/// A row for each code point up to FFFF, in rising or in falling order.
fn many_rows(alloc: Global, falling: bool) -> Result<String, AllocError> {
    let mut text = String::new(alloc);
    for place in 0..=0xFFFFu32 {
        let code = if falling { 0xFFFF - place } else { place };
        writeln!(text, "{code:04X};AL")?;
    }
    Ok(text)
}

/// The order of the rows, a row after them, and its fault.
static ROWS_BEHIND: [(bool, &str, UcdCause); 2] = [
    (false, "10000;AL", UcdCause::TooManyRows),
    (true, "8000..8001;AL", UcdCause::Overlap),
];

#[test]
fn rows_for_each_code(rt: HostRuntime) {
    for (falling, row, cause) in &ROWS_BEHIND {
        let mut text = must(&rt, many_rows(rt.alloc(), *falling));
        check_file(&rt, rt.alloc(), Which::LineBreak, text.as_bytes(), None);
        must(&rt, text.push_str(row));
        let fault = Some((65_537, *cause));
        check_file(&rt, rt.alloc(), Which::LineBreak, text.as_bytes(), fault);
    }
}

/// A code point, its values, and the last code point with all properties of each, if that is compared.
type Row = (u32, Values, Option<u32>);

/// The values in the samples.
#[rattlefmt::skip]
static SAMPLE_ROWS: [Row; 10] = [
    (0x23, (LineBreak::Alphabetic, EastAsian::Narrow, Category::Po, false), None),
    (0x61, (LineBreak::Alphabetic, EastAsian::Narrow, Category::Ll, false), None),
    (0xE31, (LineBreak::ComplexContext, EastAsian::Neutral, Category::Mn, false), None),
    (0x20A9, (LineBreak::Unknown, EastAsian::Halfwidth, Category::Sc, false), None),
    (0x3042, (LineBreak::Unknown, EastAsian::Neutral, Category::Cn, false), None),
    (0xD800, (LineBreak::Surrogate, EastAsian::Neutral, Category::Cs, false), None),
    (0x1F3FB, (LineBreak::EModifier, EastAsian::Wide, Category::Sk, false), None),
    (0x1F466, (LineBreak::EBase, EastAsian::Wide, Category::So, true), None),
    (0x1FAFF, (LineBreak::Ideographic, EastAsian::Neutral, Category::Cn, true), None),
    (0x10FFFF, (LineBreak::Unknown, EastAsian::Neutral, Category::Cn, false), Some(0x10FFFF)),
];

static ROW_OF_NO_FILES: [Row; 1] = [(
    0x61,
    (LineBreak::Unknown, EastAsian::Neutral, Category::Cn, false),
    None,
)];

const DEFAULTS: Files<'static> = Files {
    line_break: b"# @missing: 0000..10FFFF; ID\n# @missing: 0041..0041; AL",
    category: b"# @missing: 0000..10FFFF; AK",
    emoji: b"0061;Zorg\n00A9;Emoji\n00A9;Extended_Pictographic# x",
    ..NO_FILES
};

/// The values in these files.
#[rattlefmt::skip]
static ROWS_OF_DEFAULTS: [Row; 4] = [
    (0x41, (LineBreak::Alphabetic, EastAsian::Neutral, Category::Cn, false), None),
    (0x42, (LineBreak::Ideographic, EastAsian::Neutral, Category::Cn, false), None),
    (0xA9, (LineBreak::Ideographic, EastAsian::Neutral, Category::Cn, true), None),
    (0x61, (LineBreak::Ideographic, EastAsian::Neutral, Category::Cn, false), None),
];

/// A default from each of 2,000 code points to the last one, and a row for the last of them.
fn many_defaults(alloc: Global) -> Result<String, AllocError> {
    let mut text = String::new(alloc);
    for code in 0..2_000u32 {
        let name = if code % 2 == 0 { "AL" } else { "ID" };
        writeln!(text, "# @missing: {code:04X}..10FFFF; {name}")?;
    }
    text.push_str("07CF;QU\n")?;
    Ok(text)
}

/// Some of these code points, with the last one of each range.
#[rattlefmt::skip]
static ROWS_OF_MANY: [Row; 7] = [
    (0, (LineBreak::Alphabetic, EastAsian::Neutral, Category::Cn, false), Some(0)),
    (1, (LineBreak::Ideographic, EastAsian::Neutral, Category::Cn, false), Some(1)),
    (1_234, (LineBreak::Alphabetic, EastAsian::Neutral, Category::Cn, false), Some(1_234)),
    (1_998, (LineBreak::Alphabetic, EastAsian::Neutral, Category::Cn, false), Some(1_998)),
    (1_999, (LineBreak::Quotation, EastAsian::Neutral, Category::Cn, false), Some(1_999)),
    (2_000, (LineBreak::Ideographic, EastAsian::Neutral, Category::Cn, false), Some(0x10_FFFF)),
    (0x10_FFFF, (LineBreak::Ideographic, EastAsian::Neutral, Category::Cn, false), Some(0x10_FFFF)),
];

/// Compares the values of a code point, and its range, looked up near the previous one. Returns where that was found.
fn check_row(rt: &impl Abort, tables: &Tables, near: Places, row: &Row) -> Places {
    let (code, values, last) = *row;
    same(rt, &values_of(rt, tables, code), &values, &code);
    let run = run_of(rt, tables, code, near);
    let found = (
        run.line_break,
        run.east_asian,
        run.category,
        run.is_pictographic,
    );
    same(rt, &found, &values, &code);
    if let Some(last) = last {
        same(rt, &run.last, &last, &code);
    }
    run.places
}

fn check_rows(rt: &impl Abort, alloc: Global, files: Files<'_>, rows: &[Row]) {
    let tables = must(rt, tables_of(alloc, files));
    let mut near = Places::START;
    for row in rows {
        near = check_row(rt, &tables, near, row);
    }
}

#[test]
fn values(rt: HostRuntime) -> Result<(), Fail> {
    check_rows(&rt, rt.alloc(), SAMPLE_FILES, &SAMPLE_ROWS);
    check_rows(&rt, rt.alloc(), NO_FILES, &ROW_OF_NO_FILES);
    check_rows(&rt, rt.alloc(), DEFAULTS, &ROWS_OF_DEFAULTS);
    let text = many_defaults(rt.alloc())?;
    check_rows(
        &rt,
        rt.alloc(),
        line_break_alone(text.as_bytes()),
        &ROWS_OF_MANY,
    );
    Ok(())
}
