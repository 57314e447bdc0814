//! The sample files by name, and property files with content in one file or none.

use lbk_ucd::{Files, SAMPLE_CATEGORY, SAMPLE_EAST_ASIAN, SAMPLE_EMOJI, SAMPLE_LINE_BREAK};
use std::alloc::{AllocError, Global};

pub const NO_FILES: Files<'static> = Files {
    line_break: b"",
    east_asian: b"",
    category: b"",
    emoji: b"",
};

/// Property files with content only in the first.
pub fn line_break_alone(line_break: &[u8]) -> Files<'_> {
    Files {
        line_break,
        ..NO_FILES
    }
}

/// The sample files by names, and a file of one bad row.
pub static NAMED: [(&str, &[u8]); 5] = [
    ("L", SAMPLE_LINE_BREAK),
    ("E", SAMPLE_EAST_ASIAN),
    ("C", SAMPLE_CATEGORY),
    ("M", SAMPLE_EMOJI),
    ("B", BAD_ROW),
];

const BAD_ROW: &[u8] = b"0061;AK\n";

/// The arguments of a subcommand over these files: the names of the first two, and what follows.
pub fn words_on_files(
    alloc: Global,
    subcommand: &'static str,
    [line_break, east_asian]: [&'static str; 2],
    more: &[&'static str],
) -> Result<Vec<&'static str>, AllocError> {
    let mut words = Vec::new(alloc);
    words.extend_from_slice(&[subcommand, "--line-break", line_break])?;
    words.extend_from_slice(&["--east-asian", east_asian])?;
    words.extend_from_slice(&["--category", "C", "--emoji", "M"])?;
    words.extend_from_slice(more)?;
    Ok(words)
}
