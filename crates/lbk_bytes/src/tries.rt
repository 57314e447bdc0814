//! Where blocks of bytes are tried, and how many bytes are taken one by one before they are tried again.

ghost use Rattle.std.specs.Prelude.{◌≡◌, ◌<◌, ◌≤◌, ◌&&◌, length, nat_le, slice_index_or};

use crate::block_marks::BLOCK;
use lbk_masks::{far_scalars, strays};

/// Where more bytes than this of 64 are of scalars of three bytes or more, such scalars are usual.
const FEW: usize = 12;

/// Where more than this are left to steps, a block costs more than it saves.
const MOST: usize = 20;

/// How many bytes are then taken one by one.
const MANY: usize = 1024;

/// Whether these bytes of the first 64 of a text, or of all where it has fewer, a bit each, are so many that a block
/// costs more than it saves.
#[inline(always)]
pub(crate) fn are_too_many(left: u64, length: usize) -> bool {
    MOST * length.min(BLOCK) < BLOCK * left.count_ones() as usize
}

/// Whether these bytes of 64, a bit each, are usual.
#[inline(always)]
fn are_many(strays: u64) -> bool {
    FEW < strays.count_ones() as usize
}

/// Whether scalars from U+0580 on seem to be rare in a text, by its first bytes. Blocks leave these to steps.
#[inline(always)]
pub(crate) fn are_near(text: &[u8]) -> bool
    requires { 16 ≤ length text.now }
{
    far_scalars(text) < 2
}

/// How many bytes at the front of a text tell whether such scalars are usual.
pub(crate) const SEEN: usize = 32;

/// How many scalars from U+0580 on begin in the first 32 bytes of a text.
#[inline(always)]
fn far_in(text: &[u8]) -> usize
    requires { 32 ≤ length text.now }
    ensures { result ≤ 128 }
{
    (far_scalars(text) + far_scalars(&text[16..])) as usize
}

/// Whether a block of these bytes would leave many of them to steps. Where no scalar from U+0580 on is among the first,
/// the masks tell it.
#[inline(always)]
pub(crate) fn are_left(text: &[u8]) -> bool
    requires { 32 ≤ length text.now }
{
    let far = far_in(text);
    FEW < 2 * far || (0 < far && BLOCK <= text.len() && are_many(strays(text)))
}

/// Whether a text seems to begin with emoji: a scalar of four bytes, and behind it one of three or four. Most scalars of
/// four bytes are emoji. Other emoji, and what joins and changes them, follow in runs of them.
#[inline(always)]
pub fn begins_emoji(text: &[u8]) -> bool
    ensures { result ≡ (nat_le 5 (length text.now) && (nat_le 0xF0 (slice_index_or text.now 0 0)
        && nat_le 0xE0 (slice_index_or text.now 4 0))) }
{
    4 < text.len() && 0xEF < text[0] && 0xDF < text[4]
}

/// Up to where scalars are taken one by one, before blocks are tried again; without masks that is the text's end.
#[inline(always)]
pub(crate) fn next_try<const MASKS: bool>(at: usize, text: &[u8]) -> usize
    requires { at ≤ length text.now }
    ensures { (at ≤ result) × (result ≤ length text.now) × (at < length text.now → at < result) }
{
    if !MASKS || text.len() - at <= BLOCK {
        return text.len();
    }
    let pause = pause(&text[at..]);
    if text.len() - at < pause {
        return text.len();
    }
    at + pause
}

/// How many bytes are taken one by one at the front of these: many where scalars that blocks leave to steps are
/// usual, and else as many as a block has.
#[inline(always)]
fn pause(text: &[u8]) -> usize
    requires { 64 ≤ length text.now }
    ensures { 0 < result }
{
    if are_many(strays(text)) || FEW < 2 * far_in(text) {
        MANY
    } else {
        BLOCK
    }
}

/// How many scalars more are taken singly behind one that was: all again, or one fewer than before it.
#[inline(always)]
pub(crate) fn patience_after(again: bool, all: usize, left: usize) -> usize
    requires { 0 < left }
{
    if again {
        return all;
    }
    left - 1
}
