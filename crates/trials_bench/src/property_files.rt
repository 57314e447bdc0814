//! The property files of the rows, small and large, as one text.

use crate::inputs::text_of;
use lbk_ucd::{Files, SAMPLE_CATEGORY, SAMPLE_EAST_ASIAN, SAMPLE_EMOJI, SAMPLE_LINE_BREAK};
use std::alloc::{AllocError, Global};
use std::fmt::Write;

/// The property files that a row reads.
#[derive(Clone, Copy)]
pub enum PropertyFiles {
    /// The sample files.
    Samples,
    /// Only the first file.
    LineBreak(&'static str),
    /// Forty overlapping defaults in each file that has defaults.
    ManyDefaults,
    /// Three thousand rows in each file.
    ManyRows,
    /// Eleven hundred different pages of 256 code points.
    ManyPages,
}

impl PropertyFiles {
    /// The files, each followed by a zero byte if another one follows.
    pub fn text(self, alloc: Global) -> Result<String, AllocError> {
        let mut text = String::new(alloc);
        self.push(&mut text)?;
        Ok(text)
    }

    fn push(self, text: &mut String) -> Result<(), AllocError> {
        match self {
            PropertyFiles::Samples => push_samples(text),
            PropertyFiles::LineBreak(file) => text.push_str(file),
            PropertyFiles::ManyDefaults => push_many_defaults(text),
            PropertyFiles::ManyRows => push_many_rows(text),
            PropertyFiles::ManyPages => push_many_pages(text),
        }
    }
}

/// Four property files and what follows them: the parts of a text, each except the last followed by a zero byte.
pub fn files_of(text: &str) -> (Files<'_>, &str) {
    let (line_break, rest) = cut(text);
    let (east_asian, rest) = cut(rest);
    let (category, rest) = cut(rest);
    let (emoji, rest) = cut(rest);
    let files = Files {
        line_break: line_break.as_bytes(),
        east_asian: east_asian.as_bytes(),
        category: category.as_bytes(),
        emoji: emoji.as_bytes(),
    };
    (files, rest)
}

/// A text up to its first zero byte, and after it.
fn cut(text: &str) -> (&str, &str) {
    text.split_once('\0').unwrap_or((text, ""))
}

const SAMPLES: [&[u8]; 4] = [
    SAMPLE_LINE_BREAK,
    SAMPLE_EAST_ASIAN,
    SAMPLE_CATEGORY,
    SAMPLE_EMOJI,
];

fn push_samples(text: &mut String) -> Result<(), AllocError> {
    for file in SAMPLES {
        text.push_str(text_of(file))?;
        text.push('\0')?;
    }
    Ok(())
}

const MANY_DEFAULTS: u32 = 40;

const MANY_ROWS: u32 = 3000;

const MANY_PAGES: u32 = 1100;

/// The values of the defaults in each file that has defaults.
const DEFAULTS: [[&str; 4]; 2] = [["ID", "AL", "CB", "XX"], ["W", "N", "F", "A"]];

/// Defaults, each inside the previous one except every fourth, with the values in turn.
fn push_many_defaults(text: &mut String) -> Result<(), AllocError> {
    for values in DEFAULTS {
        for k in 0..MANY_DEFAULTS {
            let first = 100 * (k % 4) + 1000 * (k / 4);
            let last = 50_000 - 300 * k;
            push_default(text, first, last, values[k as usize % 4])?;
        }
        text.push('\0')?;
    }
    Ok(())
}

fn push_default(text: &mut String, first: u32, last: u32, value: &str) -> Result<(), AllocError> {
    writeln!(text, "# @missing: {first:04X}..{last:04X}; {value}")
}

/// The values of the rows in each file.
const ROWS: [[&str; 2]; 4] = [
    ["AL", "ID"],
    ["W", "Na"],
    ["Ll", "Pi"],
    ["Extended_Pictographic", "Emoji"],
];

/// A row for every third code point, with the values in turn.
fn push_many_rows(text: &mut String) -> Result<(), AllocError> {
    for values in ROWS {
        for k in 0..MANY_ROWS {
            push_row(text, 3 * k, values[k as usize % 2])?;
        }
        text.push('\0')?;
    }
    Ok(())
}

/// A row for each bit of a page's number, so that no two pages are equal.
fn push_many_pages(text: &mut String) -> Result<(), AllocError> {
    for page in 0..MANY_PAGES {
        for bit in 0..11 {
            if page >> bit & 1 == 1 {
                push_row(text, 256 * page + bit, "ID")?;
            }
        }
    }
    Ok(())
}

fn push_row(text: &mut String, code: u32, value: &str) -> Result<(), AllocError> {
    writeln!(text, "{code:04X};{value}")
}
