//! Why a property file is refused.

use crate::which::Which;

/// What is wrong with a file, or with one of its lines.
#[derive(Clone, Copy, PartialEq, Eq, Debug)]
pub enum UcdCause {
    /// The file has more than 8,388,608 bytes; the line is 0.
    FileTooLong,
    /// The line has more than 1,024 bytes without its line end LF.
    LineTooLong,
    /// The line is neither blank nor a comment nor a row.
    RowSyntax,
    /// The first code point is above the last, or one is above 10FFFF.
    Range,
    /// The name is not a value of the property.
    UnknownValue,
    /// The row shares a code point with an earlier kept row of the file.
    Overlap,
    /// The line is the 65,537th kept row or default of the file.
    TooManyRows,
    /// An allocation for the tables failed at this line. If it failed after all lines were read, this is the last line
    /// with a row or a default.
    Memory,
}

/// The first fault of the property files: its file, its line from 1, and its cause.
#[derive(Clone, Copy, PartialEq, Eq, Debug)]
pub struct UcdFault {
    pub file: Which,
    pub line: u32,
    pub cause: UcdCause,
}
