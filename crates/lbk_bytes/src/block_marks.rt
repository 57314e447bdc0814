//! What the sets of bytes tell of a block of up to 64 at once, a bit each, and where a call stands between these.

ghost use Rattle.std.specs.Prelude.{◌≡◌, ℕ, ◌+◌, ◌-◌, ◌<◌, ◌≤◌, List, IfSome, IsTrue, false, length, nat_le, true};
ghost use Rattle.lbk_bytes.specs.Terms.{AreKeptBelow, IsPlace, is_set};
ghost use Rattle.lbk_bytes.specs.Blocks.{AreEnded, AreMarks, Rests, row_before};

use crate::fill_state::FillState;
use crate::tries::are_too_many;
use lbk_masks::{kept_below, kept_from};
use lbk_rules::{Neighbours, place_by};

/// How many bytes at most are examined together.
pub(crate) const BLOCK: usize = 64;

/// How many bytes at least are examined together. Fewer are taken as fast by steps.
pub(crate) const LEAST: usize = 20;

/// What is known of the bytes of a block, a bit each.
#[derive(Clone, Copy)]
pub(crate) struct Marks {
    /// Bytes with a candidate break before them.
    pub(crate) standing: u64,
    /// Which are left to steps: those that are special, or of no scalar of one or two bytes in the block. Behind the
    /// text's end all bits are set.
    pub(crate) stops: u64,
}

impl Marks {
    /// How many bytes of the block are taken, if those from this one on are: up to the first that is left to steps.
    #[inline(always)]
    pub(crate) fn taken_from(self, begin: usize) -> usize
        requires { begin < 64 }
        ensures within { (begin ≤ result) × (result ≤ 64) }
        ensures inside { (text : List ℕ) (at : ℕ) → at + begin < length text → AreEnded text at self.stops
            → at + result ≤ length text }
        ensures told { (i : ℕ) → begin ≤ i → i < result → is_set self.stops i ≡ false }
        ensures stops { result < 64 → is_set self.stops result ≡ true }
    {
        kept_from(self.stops, begin).trailing_zeros() as usize
    }
}

/// The marks of the next 64 bytes, or of all that are left, unless these are few, no byte stands before them, or many
/// of them are left to steps.
#[inline(always)]
pub(crate) fn marks_ahead(pairs: &Neighbours, at: usize, text: &[u8]) -> Option<Marks>
    requires { at ≤ length text.now }
    ensures { IfSome result (λ marks. AreMarks pairs.now text.now at marks) }
{
    if at == 0 {
        return None;
    }
    if text.len() - at < LEAST {
        return None;
    }
    let ahead = &text[at..];
    let before = pairs.sets.left_of(text[at - 1]);
    let masks = pairs.sets.masks(before, ahead);
    let left = masks.special | masks.strays;
    if are_too_many(left, ahead.len()) {
        return None;
    }
    Some(Marks {
        standing: masks.standing,
        stops: left | past_end(ahead.len()),
    })
}

/// The bits after the end of a text of this length.
#[inline(always)]
fn past_end(length: usize) -> u64
    ensures { (i : ℕ) → i < 64 → is_set result i ≡ nat_le length i }
{
    if BLOCK <= length {
        return 0;
    }
    kept_from(u64::MAX, length)
}

/// The bits of a number below this one, which is at most 64.
#[inline(always)]
pub(crate) fn kept_up_to(bits: u64, count: usize) -> u64
    requires { count ≤ 64 }
    ensures { AreKeptBelow count bits result }
{
    if count == BLOCK {
        return bits;
    }
    kept_below(bits, count)
}

/// Whether the row here is that of the byte before, which is the last of a scalar of one byte or two, if of one.
#[inline(always)]
pub(crate) fn is_told_behind(pairs: &Neighbours, here: FillState, text: &[u8]) -> bool
    requires { (0 < here.at) × (here.at ≤ length text.now) }
    ensures { IsTrue result → Rests pairs.now here text.now }
{
    let byte = text[here.at - 1];
    byte < 192 && here.row == pairs.rows[byte as usize] as usize
}

/// A place with the row of the byte before it.
#[inline(always)]
pub(crate) fn behind_byte(pairs: &Neighbours, count: usize, at: usize, text: &[u8]) -> FillState
    requires { (0 < at) × (at ≤ length text.now) }
    ensures within { IsPlace result.row }
    ensures place { (result.count ≡ count) × (result.at ≡ at) }
    ensures row { result.row ≡ row_before pairs.now text.now at }
{
    FillState {
        count,
        row: place_by(pairs.rows[text[at - 1] as usize]),
        at,
    }
}
