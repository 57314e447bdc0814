//! The texts of causes and rules, the names of the files, and the version.

ghost use Rattle.std.specs.Prelude.{◌≡◌, ◌≤◌, length};
ghost use Rattle.lbk_calls.specs.Padding.{padded};
ghost use Rattle.lbk_calls.specs.RuleTexts.{rule_text_numbered};
ghost use Rattle.lbk_c.specs.Texts.{cause_numbered, file_numbered, version};

use crate::faults::which_numbered;
use lbk_calls::{Text, padded};
use lbk_ucd::{UcdCause, cause_text, cut_text, file_name};

/// What the cause with a number means: ASCII, padded by zeros. Only zeros for any other number.
#[unsafe(no_mangle)]
pub extern "C" fn lbk_cause_text(cause: u32) -> Text
    ensures { result.text ≡ padded 96 (cause_numbered cause) }
{
    text_of(cause_numbered(cause))
}

/// What the rule with a number says, in one line: ASCII, padded by zeros. Only zeros for any other number.
#[unsafe(no_mangle)]
pub extern "C" fn lbk_rule_text(rule: u8) -> Text
    ensures { result.text ≡ rule_text_numbered rule }
{
    lbk_calls::lbk_rule_text(rule)
}

/// The name of the file of a number, `the four files` for 0, and zeros for a number that no file has.
#[unsafe(no_mangle)]
pub extern "C" fn lbk_file_name(file: u32) -> Text
    ensures { result.text ≡ padded 96 (file_numbered file) }
{
    text_of(file_numbered(file))
}

/// The version of the library, as `0.2.0`.
#[unsafe(no_mangle)]
pub extern "C" fn lbk_version() -> Text
    ensures { result.text ≡ padded 96 version }
{
    text_of("0.2.0")
}

/// A text for C, padded by zeros.
pub(crate) fn text_of(said: &str) -> Text
    requires { length said.now ≤ 96 }
    ensures { result.text ≡ padded 96 said.now }
{
    Text {
        text: padded(said.as_bytes()),
    }
}

/// What the cause of a number says.
fn cause_numbered(number: u32) -> &'static str
    ensures text { result.now ≡ cause_numbered number }
    ensures short { length result.now ≤ 95 }
{
    match number {
        0 => "no fault",
        1 => cause_text(UcdCause::FileTooLong),
        2 => cause_text(UcdCause::LineTooLong),
        3 => cause_text(UcdCause::RowSyntax),
        4 => cause_text(UcdCause::Range),
        5 => cause_text(UcdCause::UnknownValue),
        6 => cause_text(UcdCause::Overlap),
        7 => cause_text(UcdCause::TooManyRows),
        8 => cause_text(UcdCause::Memory),
        10 => "the file is not the one that Unicode 15.0.0 published",
        11 => "these bytes are not a packed table",
        12 => "the table was packed by another version of lbk",
        13 => "the packed table was changed or cut",
        14 => cut_text(),
        _ => "",
    }
}

/// The name of the file of a number.
fn file_numbered(number: u32) -> &'static str
    ensures name { result.now ≡ file_numbered number }
    ensures short { length result.now ≤ 95 }
{
    match which_numbered(number) {
        Some(which) => file_name(which),
        None if number == 0 => "the four files",
        None => "",
    }
}
