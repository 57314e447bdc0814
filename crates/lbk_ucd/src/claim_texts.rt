//! The texts about files that are not the published ones.

ghost use Rattle.std.specs.Prelude.{◌≡◌, ◌+◌, ◌≤◌, [], ◌++◌, codes, decimal, length};
ghost use Rattle.arrayvec.specs.ArrayString.{array_string_len};
ghost use Rattle.lbk_ucd.specs.ClaimTexts.{claim_text, cut_text, remedy_text, three_numbers, two_numbers};
ghost use Rattle.lbk_ucd.specs.ClaimTexts.{version_text};
ghost use Rattle.lbk_ucd.specs.Texts.{SaysWithin};

use crate::names::file_name;
use crate::published::{ClaimCause, Version};
use crate::which::Which;
use arrayvec::ArrayString;
use itoa::Buffer;

/// Describes a file that is not the published one: its version, that it was changed or truncated, or that it is another file.
/// ASCII.
pub fn claim_text(which: Which, cause: ClaimCause) -> ArrayString<95>
    ensures { result.bytes ≡ claim_text which cause }
{
    match cause {
        ClaimCause::Title => {
            let mut text = begun("this is not ");
            text.push_str(file_name(which));
            text.push_str(" of the Unicode Character Database");
            text
        }
        ClaimCause::Version(version) => version_text(which, version),
        ClaimCause::Changed => {
            let mut text = begun(
                "the file was changed or truncated: it differs from Unicode 15.0.0's ",
            );
            text.push_str(file_name(which));
            text
        }
    }
}

/// Describes a truncated file ([`is_cut`](crate::is_cut)), in at most 95 bytes of ASCII.
pub fn cut_text() -> &'static str
    ensures { SaysWithin 95 cut_text result.now }
{
    "the file was truncated: its first line names a published file, but its last is not # EOF"
}

/// Says where to get the published files, in at most 95 bytes of ASCII.
pub fn remedy_text() -> &'static str
    ensures { SaysWithin 95 remedy_text result.now }
{
    "get it from Debian 12's unicode-data or https://www.unicode.org/Public/15.0.0/ucd/UCD.zip"
}

/// Names the version of a file of another version.
fn version_text(which: Which, version: Version) -> ArrayString<95>
    ensures { result.bytes ≡ version_text which version }
{
    match which {
        Which::Emoji => {
            if version.update == 0 {
                let mut text = with_two_numbers("this is Emoji ", version);
                text.push_str(", and lbk needs 15.0");
                text
            } else {
                with_three_numbers("this is Emoji ", version)
            }
        }
        _ => with_three_numbers("this is Unicode ", version),
    }
}

/// A text with the first two numbers of a version.
fn with_two_numbers(before: &str, version: Version) -> ArrayString<95>
    requires { length before.now ≤ 74 }
    ensures bytes { result.bytes ≡ before.now ++ two_numbers version [] }
    ensures len { array_string_len result ≤ length before.now + 21 }
{
    let mut text = begun(before);
    push_number(&mut text, version.major);
    text.push_str(".");
    push_number(&mut text, version.minor);
    text
}

/// A text with the three numbers of a version, and the version that is needed.
fn with_three_numbers(before: &str, version: Version) -> ArrayString<95>
    requires { length before.now ≤ 41 }
    ensures { result.bytes ≡ before.now ++ three_numbers version (codes ", and lbk needs 15.0.0") }
{
    let mut text = with_two_numbers(before, version);
    text.push_str(".");
    push_number(&mut text, version.update);
    text.push_str(", and lbk needs 15.0.0");
    text
}

/// A prefix of a text.
fn begun(front: &str) -> ArrayString<95>
    requires { length front.now ≤ 95 }
    ensures bytes { result.bytes ≡ front.now }
    ensures len { array_string_len result ≡ length front.now }
{
    let mut text = ArrayString::new();
    text.push_str(front);
    text
}

/// Appends a number to a text.
fn push_number(text: &mut ArrayString<95>, number: u32)
    requires { array_string_len text.old + 10 ≤ 95 }
    ensures bytes { text.new.bytes ≡ text.old.bytes ++ decimal number }
    ensures len { array_string_len text.new ≤ array_string_len text.old + 10 }
{
    let mut digits = Buffer::new();
    text.push_str(digits.format(number));
}
