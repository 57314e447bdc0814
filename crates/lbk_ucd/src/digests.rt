//! The digests of the property files that Unicode 15.0.0 published.

ghost use Rattle.std.specs.Prelude.{◌≡◌, ◌↔◌, IsTrue, MatchOption};
ghost use Rattle.sha2.specs.Sha256.{sha256};
ghost use Rattle.lbk_ucd.specs.Digests.{ArePublished, IsFirstUnpublished, IsPublished, digest_of, with_line_feeds};

use crate::file::LONGEST_FILE;
use crate::tables::Files;
use crate::which::Which;
use bstr::ByteSlice;
use sha2::{Digest, Sha256};

const LINE_BREAK: [u8; 32] = [
    0x01, 0x2b, 0xca, 0x86, 0x8e, 0x2c, 0x4e, 0x59, 0xa5, 0xa1, 0x0a, 0x75, 0x46, 0xba, 0xf0, 0xc6,
    0xfb, 0x1b, 0x2e, 0xf4, 0x58, 0xc2, 0x77, 0xf0, 0x54, 0x91, 0x5c, 0x8a, 0x49, 0xd2, 0x92, 0xbf,
];

const EAST_ASIAN: [u8; 32] = [
    0x74, 0x3e, 0x7b, 0xc4, 0x35, 0xc0, 0x4a, 0xb1, 0xa8, 0x45, 0x97, 0x10, 0xb1, 0xc3, 0xca, 0xd5,
    0x6e, 0xed, 0xce, 0xd5, 0xb8, 0x06, 0xb4, 0x65, 0x9b, 0x6e, 0x69, 0xb8, 0x5d, 0x0a, 0xdf, 0x2a,
];

const CATEGORY: [u8; 32] = [
    0xfe, 0x29, 0xa4, 0x5c, 0x08, 0x82, 0x50, 0x0e, 0x59, 0x11, 0x40, 0xaa, 0xa5, 0xc4, 0xf5, 0x06,
    0x7e, 0x6a, 0x5d, 0x74, 0x68, 0x06, 0x14, 0x8a, 0xf3, 0x44, 0x00, 0xc4, 0x8b, 0x9c, 0x06, 0xf9,
];

const EMOJI: [u8; 32] = [
    0x29, 0x07, 0x1d, 0xba, 0x22, 0xc7, 0x2c, 0x27, 0x78, 0x3a, 0x73, 0x01, 0x6a, 0xfb, 0x8f, 0xfa,
    0xeb, 0x02, 0x58, 0x66, 0x74, 0x07, 0x91, 0xf9, 0xc2, 0xd0, 0xb5, 0x5c, 0xc4, 0x5a, 0x34, 0x70,
];

/// Whether a file is, byte for byte, the one of its name in Unicode 15.0.0; CR LF at the end of a line counts as LF. A
/// file of more than 8,388,608 bytes is not, and is not read.
pub fn is_published(which: Which, bytes: &[u8]) -> bool
    ensures { IsTrue result ↔ IsPublished which bytes.now }
{
    if bytes.len() > LONGEST_FILE {
        return false;
    }
    digest_with_line_feeds(bytes).as_slice() == digest_of(which).as_slice()
}

/// The first of four files that is not the published one, or `None` if all are.
pub fn first_unpublished(files: &Files<'_>) -> Option<Which>
    ensures { MatchOption result (ArePublished files.now) (IsFirstUnpublished files.now) }
{
    if !is_published(Which::LineBreak, files.line_break) {
        return Some(Which::LineBreak);
    }
    if !is_published(Which::EastAsianWidth, files.east_asian) {
        return Some(Which::EastAsianWidth);
    }
    if !is_published(Which::Category, files.category) {
        return Some(Which::Category);
    }
    if !is_published(Which::Emoji, files.emoji) {
        return Some(Which::Emoji);
    }
    None
}

/// The SHA-256 digest of the published file.
fn digest_of(which: Which) -> [u8; 32]
    ensures { result ≡ digest_of which }
{
    match which {
        Which::LineBreak => LINE_BREAK,
        Which::EastAsianWidth => EAST_ASIAN,
        Which::Category => CATEGORY,
        Which::Emoji => EMOJI,
    }
}

/// The SHA-256 digest of the bytes with each CR LF replaced by LF.
fn digest_with_line_feeds(bytes: &[u8]) -> [u8; 32]
    ensures { result ≡ sha256 (with_line_feeds bytes.now) }
{
    let mut hasher = Sha256::new();
    let mut rest = bytes;
    'lines: while let Some(at) = rest.find(b"\r\n".as_slice()) {
        let line = &rest[..at];
        hasher.update(line);
        rest = &rest[at + 1..];
    }
    hasher.update(rest);
    hasher.finalize()
}
