//! Checks files against those that Unicode 15.0.0 published, and finds the version that another file claims.

ghost use Rattle.std.specs.Prelude.{◌≡◌, ◌∷◌, ◌≤◌, ℕ, List, drop, length, take, MatchOption, MatchResult};
ghost use Rattle.std.specs.Str.Parse.{AllDigits};
ghost use Rattle.lbk_ucd.specs.Digests.{IsPublished};
ghost use Rattle.lbk_ucd.specs.declared.published.Version.{Version};
ghost use Rattle.lbk_ucd.specs.Published.{BeginsWithNumber, BeginsWithVersion, BeginsWithoutDigit, EndsVersion};
ghost use Rattle.lbk_ucd.specs.Published.{IsClaimCause, IsNamedWrong, NamesVersion};
ghost use Rattle.lbk_ucd.specs.Published.{name_before_version, words_before_version};

use crate::digests::is_published;
use crate::which::Which;
use bstr::ByteSlice;

/// A version of Unicode, or of its emoji.
#[derive(Clone, Copy, Debug, PartialEq, Eq)]
pub struct Version {
    pub major: u32,
    pub minor: u32,
    pub update: u32,
}

/// The version of the rules.
const RULES: Version = Version {
    major: 15,
    minor: 0,
    update: 0,
};

/// Why a file is not the expected one of Unicode 15.0.0.
#[derive(Clone, Copy, Debug, PartialEq, Eq)]
pub enum ClaimCause {
    /// It names no version in the way of files of its name.
    Title,
    /// It has another version.
    Version(Version),
    /// It names the version 15.0.0, but is not the published file.
    Changed,
}

/// Checks by SHA-256 that a file is, byte for byte, the one of its name that Unicode 15.0.0 published; CR LF at the end
/// of a line counts as LF. The error is that of [`claim_of`].
pub fn check_claim(which: Which, bytes: &[u8]) -> Result<(), ClaimCause>
    ensures { MatchResult result (λ _. IsPublished which bytes.now) (IsClaimCause which bytes.now) }
{
    if is_published(which, bytes) {
        return Ok(());
    }
    Err(claim_of(which, bytes))
}

/// Why a file is not the published one: `Version` if it names a version other than 15.0.0, `Changed` if it names
/// 15.0.0, and `Title` if it names none.
pub fn claim_of(which: Which, bytes: &[u8]) -> ClaimCause
    ensures { IsNamedWrong which bytes.now result }
{
    match version_in(which, bytes) {
        None => ClaimCause::Title,
        Some(version) if version == RULES => ClaimCause::Changed,
        Some(version) => ClaimCause::Version(version),
    }
}

/// The version that a file of this name names.
fn version_in(which: Which, bytes: &[u8]) -> Option<Version>
    ensures { MatchOption result (¬ ((version : Version) × NamesVersion which bytes.now version))
        (NamesVersion which bytes.now) }
{
    if !bytes.starts_with_str(name_before_version(which).as_bytes()) {
        return None;
    }
    let words = words_before_version(which).as_bytes();
    let at = bytes.find(words)?;
    version_at(&bytes[at + words.len()..])
}

/// The version at the start of bytes.
fn version_at(bytes: &[u8]) -> Option<Version>
    ensures { MatchOption result (¬ ((version : Version) × BeginsWithVersion bytes.now version))
        (BeginsWithVersion bytes.now) }
{
    let (major, rest) = number(bytes)?;
    let (minor, rest) = number(after_dot(rest)?)?;
    Some(Version {
        major,
        minor,
        update: update_at(rest),
    })
}

/// The third number of a version, after the first two.
fn update_at(bytes: &[u8]) -> u32
    ensures { EndsVersion bytes.now result }
{
    match after_dot(bytes) {
        None => 0,
        Some(rest) => match number(rest) {
            None => 0,
            Some((update, _)) => update,
        },
    }
}

/// The start of a file of any version.
fn name_before_version(which: Which) -> &'static str
    ensures { result.now ≡ name_before_version which }
{
    match which {
        Which::LineBreak => "# LineBreak-",
        Which::EastAsianWidth => "# EastAsianWidth-",
        Which::Category => "# DerivedGeneralCategory-",
        Which::Emoji => "# emoji-data",
    }
}

/// The text before the version in a file.
fn words_before_version(which: Which) -> &'static str
    ensures { result.now ≡ words_before_version which }
{
    match which {
        Which::Emoji => "\n# Used with Emoji Version ",
        _ => name_before_version(which),
    }
}

/// The bytes after a leading dot.
fn after_dot(bytes: &[u8]) -> Option<&[u8]>
    ensures { MatchOption result (¬ ((rest : List ℕ) × (bytes.now ≡ 46 ∷ rest))) (λ rest. bytes.now ≡ 46 ∷ rest.now) }
{
    match bytes {
        [b'.', rest @ ..] => Some(rest),
        _ => None,
    }
}

/// The number at the start of bytes, and the bytes after it.
fn number(bytes: &[u8]) -> Option<(u32, &[u8])>
    ensures { MatchOption result (¬ ((number : ℕ) × (rest : List ℕ) × BeginsWithNumber bytes.now number rest))
        (λ read. BeginsWithNumber bytes.now read.0 read.1.now) }
{
    let len = digits_ahead(bytes);
    let Ok(digits) = str::from_utf8(&bytes[..len]) else {
        return None;
    };
    match digits.parse() {
        Ok(number) => Some((number, &bytes[len..])),
        Err(_) => None,
    }
}

/// The number of leading digits.
fn digits_ahead(bytes: &[u8]) -> usize
    ensures within { result ≤ length bytes.now }
    ensures digits { AllDigits 10 (take result bytes.now) }
    ensures rest { BeginsWithoutDigit (drop result bytes.now) }
{
    let mut len = 0;
    while len < bytes.len() && bytes[len].is_ascii_digit() {
        len += 1;
    }
    len
}
