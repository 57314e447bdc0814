//! The numbers of faults.

ghost use Rattle.std.specs.Prelude.{◌≡◌};
ghost use Rattle.lbk_c.specs.Faults.{cause_number, file_number, given_fault, unpublished_fault, which_numbered};

use crate::interface::Fault;
use lbk_ucd::{UcdCause, UcdFault, Which};

/// No fault.
pub(crate) const NO_FAULT: Fault = Fault {
    file: 0,
    line: 0,
    cause: 0,
};

/// A fault of the files.
pub(crate) fn given_fault(fault: UcdFault) -> Fault
    ensures { result ≡ given_fault fault }
{
    Fault {
        file: file_number(fault.file),
        line: fault.line,
        cause: cause_number(fault.cause),
    }
}

/// Out of memory while a table was made from well-formed files.
pub(crate) const UNMADE_FAULT: Fault = Fault {
    cause: 8,
    ..NO_FAULT
};

/// A file is not the published one.
pub(crate) fn unpublished_fault(which: Which) -> Fault
    ensures { result ≡ unpublished_fault which }
{
    Fault {
        file: file_number(which),
        cause: 10,
        ..NO_FAULT
    }
}

/// The number of a property file.
fn file_number(file: Which) -> u32
    ensures { result ≡ file_number file }
{
    match file {
        Which::LineBreak => 1,
        Which::EastAsianWidth => 2,
        Which::Category => 3,
        Which::Emoji => 4,
    }
}

/// The property file with a number.
pub(crate) fn which_numbered(file: u32) -> Option<Which>
    ensures { result ≡ which_numbered file }
{
    match file {
        1 => Some(Which::LineBreak),
        2 => Some(Which::EastAsianWidth),
        3 => Some(Which::Category),
        4 => Some(Which::Emoji),
        _ => None,
    }
}

/// The number of a cause.
fn cause_number(cause: UcdCause) -> u32
    ensures { result ≡ cause_number cause }
{
    match cause {
        UcdCause::FileTooLong => 1,
        UcdCause::LineTooLong => 2,
        UcdCause::RowSyntax => 3,
        UcdCause::Range => 4,
        UcdCause::UnknownValue => 5,
        UcdCause::Overlap => 6,
        UcdCause::TooManyRows => 7,
        UcdCause::Memory => 8,
    }
}
