//! Pages have the cells of the tables that they are built from: at the edges of pages, and for equal and different
//! pages.

use crate::calls::{must, same};
use lbk_rules::{CellPages, Class};
use lbk_ucd::Tables;
use std::alloc::{AllocError, Global};
use std::fmt::Write;
use std::process::Abort;
use std::test::Fail;
use test_support::calls::{cell_of, pages_of, tables_of};
use test_support::cells::plain;
use test_support::property_files::line_break_alone;

/// The first and the last of some scalars, and their class.
type Range = (char, char, Class);

/// Compares the cells of these scalars, and of all scalars with those of the tables.
fn check_cells(rt: &impl Abort, tables: &Tables, pages: &CellPages, ranges: &[Range]) {
    for (first, last, class) in ranges {
        for c in (*first..=*last).into_iter() {
            same(rt, &cell_of(pages, c), &plain(*class), &c);
        }
    }
    for c in '\0'..=char::MAX {
        same(rt, &cell_of(pages, c), &cell_of(tables, c), &c);
    }
}

fn check(rt: &impl Abort, alloc: Global, line_break: &[u8], ranges: &[Range]) {
    let tables = must(rt, tables_of(alloc, line_break_alone(line_break)));
    let pages = must(rt, pages_of(alloc, &tables));
    check_cells(rt, &tables, &pages, ranges);
}

/// LineBreak files, and all scalars with their classes.
static FILES: [(&[u8], &[Range]); 7] = [
    // One code point is ideographic, at an edge of a page.
    (
        b"# @missing: 0000..10FFFF; CB\n0000;ID\n",
        &[
            ('\0', '\0', Class::Ideographic),
            ('\u{1}', char::MAX, Class::ContingentBreak),
        ],
    ),
    (
        b"# @missing: 0000..10FFFF; CB\n00FF;ID\n",
        &[
            ('\0', '\u{FE}', Class::ContingentBreak),
            ('\u{FF}', '\u{FF}', Class::Ideographic),
            ('\u{100}', char::MAX, Class::ContingentBreak),
        ],
    ),
    (
        b"# @missing: 0000..10FFFF; CB\n0100;ID\n",
        &[
            ('\0', '\u{FF}', Class::ContingentBreak),
            ('\u{100}', '\u{100}', Class::Ideographic),
            ('\u{101}', char::MAX, Class::ContingentBreak),
        ],
    ),
    (
        b"# @missing: 0000..10FFFF; CB\n10FFFF;ID\n",
        &[
            ('\0', '\u{10FFFE}', Class::ContingentBreak),
            (char::MAX, char::MAX, Class::Ideographic),
        ],
    ),
    (
        b"# @missing: 0000..10FFFF; CB",
        &[('\0', char::MAX, Class::ContingentBreak)],
    ),
    (
        b"00FF;ID\n0100;CL\n10FFFF;ID\n",
        &[
            ('\0', '\u{FE}', Class::Alphabetic),
            ('\u{FF}', '\u{FF}', Class::Ideographic),
            ('\u{100}', '\u{100}', Class::ClosePunctuation),
            ('\u{101}', '\u{10FFFE}', Class::Alphabetic),
            (char::MAX, char::MAX, Class::Ideographic),
        ],
    ),
    // Pages 1, 3 and the last are equal, page 2 is not, and all others have only letters.
    (
        b"0141;ID\n0241;OP\n0341;ID\n10FF41;ID\n",
        &[
            ('\0', '\u{140}', Class::Alphabetic),
            ('\u{141}', '\u{141}', Class::Ideographic),
            ('\u{142}', '\u{240}', Class::Alphabetic),
            ('\u{241}', '\u{241}', Class::OpenPunctuation),
            ('\u{242}', '\u{340}', Class::Alphabetic),
            ('\u{341}', '\u{341}', Class::Ideographic),
            ('\u{342}', '\u{10FF40}', Class::Alphabetic),
            ('\u{10FF41}', '\u{10FF41}', Class::Ideographic),
            ('\u{10FF42}', char::MAX, Class::Alphabetic),
        ],
    ),
];

#[test]
fn pages_of_files(rt: HostRuntime) {
    for (file, ranges) in &FILES {
        check(&rt, rt.alloc(), file, ranges);
    }
}

/// A file with two opening code points in each page: at the page's index among 256, and at the index of its 256 pages
/// among all. So most pages differ from all others.
fn striped(alloc: Global) -> Result<String, AllocError> {
    let mut file = String::new(alloc);
    for page in 0..4352u32 {
        let low = page % 256;
        let high = page / 256;
        writeln!(file, "{:04X};OP", 256 * page + low)?;
        if low != high {
            writeln!(file, "{:04X};OP", 256 * page + high)?;
        }
    }
    Ok(file)
}

static STRIPES: [Range; 14] = [
    ('\0', '\0', Class::OpenPunctuation),
    ('\u{1}', '\u{1}', Class::Alphabetic),
    ('\u{100}', '\u{100}', Class::OpenPunctuation),
    ('\u{101}', '\u{101}', Class::OpenPunctuation),
    ('\u{FFFF}', '\u{FFFF}', Class::OpenPunctuation),
    ('\u{10000}', '\u{10000}', Class::OpenPunctuation),
    ('\u{1FF01}', '\u{1FF01}', Class::OpenPunctuation),
    ('\u{1FF02}', '\u{1FF02}', Class::Alphabetic),
    ('\u{3ABAB}', '\u{3ABAB}', Class::OpenPunctuation),
    ('\u{3AB03}', '\u{3AB03}', Class::OpenPunctuation),
    ('\u{3AB04}', '\u{3AB04}', Class::Alphabetic),
    ('\u{10FFFE}', '\u{10FFFE}', Class::Alphabetic),
    ('\u{10FF10}', '\u{10FF10}', Class::OpenPunctuation),
    (char::MAX, char::MAX, Class::OpenPunctuation),
];

#[test]
fn many_pages(rt: HostRuntime) -> Result<(), Fail> {
    let file = striped(rt.alloc())?;
    check(&rt, rt.alloc(), file.as_bytes(), &STRIPES);
    Ok(())
}
