//! Questions of a byte, asked of many bytes at a time.

ghost use Rattle.std.specs.Prelude.{◌≡◌, ℕ, ◌<◌, ◌≤◌, ◌==◌, ◌&&◌, Bool, length, get_or, nat_le, nat_lt};
ghost use Rattle.lbk_masks.specs.Sets.{is_in, is_set};

use crate::found::joined;
use crate::halves::HalfSets;
use crate::{block_of, equal_to, least, meeting};
use std::simd::prelude::*;

/// A question of a byte.
pub(crate) trait Question: Copy {
    // Whether the answer for a byte is yes.
    ghost holds: { Self → ℕ → Bool };

    /// The bytes for which the answer is yes, of 16.
    fn of_block(self, block: u8x16) -> u64
        ensures { (i : ℕ) → is_set result i ≡ (nat_lt i 16 && holds self (get_or block i 0)) };
}

/// The bytes for which the answer is yes, of the first 64 of a text, a bit each.
#[inline(always)]
pub(crate) fn answers<Q: Question>(question: Q, text: &[u8]) -> u64
    requires { 64 ≤ length text.now }
    ensures { (i : ℕ) → i < 64 → is_set result i ≡ Q.holds question (get_or text.now i 0) }
{
    let one = joined(0, 0, question.of_block(block_of(text)));
    let two = joined(one, 16, question.of_block(block_of(&text[16..])));
    let three = joined(two, 32, question.of_block(block_of(&text[32..])));
    joined(three, 48, question.of_block(block_of(&text[48..])))
}

/// Whether a byte is in one of these sets.
#[derive(Clone, Copy)]
pub(crate) struct IsIn<'a> {
    pub(crate) all: &'a HalfSets,
    pub(crate) sets: u8,
}

impl Question for IsIn<'_> {
    ghost holds = { λ q. is_in q.all.now q.sets };

    #[inline(always)]
    fn of_block(self, block: u8x16) -> u64 {
        meeting(self.all.sets_of(block), u8x16::splat(self.sets))
    }
}

/// Whether a byte is no less than this one.
#[derive(Clone, Copy)]
pub(crate) struct IsNoLess {
    pub(crate) byte: u8,
}

impl Question for IsNoLess {
    ghost holds = { λ q. nat_le q.byte };

    #[inline(always)]
    fn of_block(self, block: u8x16) -> u64 {
        least(self.byte, block)
    }
}

/// Whether a byte is this one.
#[derive(Clone, Copy)]
pub(crate) struct IsEqual {
    pub(crate) byte: u8,
}

impl Question for IsEqual {
    ghost holds = { λ q byte. byte == q.byte };

    #[inline(always)]
    fn of_block(self, block: u8x16) -> u64 {
        equal_to(self.byte, block)
    }
}
