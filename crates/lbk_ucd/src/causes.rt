//! The texts of the causes of faults.

ghost use Rattle.lbk_ucd.specs.Causes.{cause_text};
ghost use Rattle.lbk_ucd.specs.Texts.{SaysWithin};

use crate::faults::UcdCause;

/// Says what is wrong with a file or with one of its lines (UAX #44, section 4.2), in at most 80 bytes of ASCII.
pub fn cause_text(cause: UcdCause) -> &'static str
    ensures { SaysWithin 80 (cause_text cause) result.now }
{
    match cause {
        UcdCause::FileTooLong => "the file has more than 8388608 bytes",
        UcdCause::LineTooLong => "the line has more than 1024 bytes",
        UcdCause::RowSyntax => "the line is neither a row `code; value` nor a comment nor blank",
        UcdCause::Range => "the first code point is above the last, or one is above 10FFFF",
        UcdCause::UnknownValue =>
            "unknown property value; lbk knows those of Unicode 15.0 and earlier",
        UcdCause::Overlap => "the row overlaps an earlier row",
        UcdCause::TooManyRows => "the file has more than 65536 rows and @missing lines",
        UcdCause::Memory => "out of memory",
    }
}
