//! Sets of bytes, decided by the halves of a byte.

ghost use Rattle.std.specs.Prelude.{◌≡◌, ℕ, ◌+◌, ◌<◌, ◌≤◌, ◌==◌, ◌&&◌, not, length, get_or, nat_le, nat_lt};
ghost use Rattle.lbk_masks.specs.Sets.{HasLanes, is_in, is_set, meets, sets_in};

use crate::found::joined;
use crate::questions::{IsEqual, IsIn, IsNoLess, answers};
use crate::{block_of, both, high_halves, meeting, picked};
use std::simd::prelude::*;

/// Eight sets of bytes, a bit each. A byte is in those that its two halves have in common.
#[derive(Clone, Copy)]
pub struct HalfSets {
    /// What each low half has.
    pub low: [u8; 16],
    /// What each high half has.
    pub high: [u8; 16],
}

impl HalfSets {
    /// Which of the first 64 bytes of a text are in one of these sets, a bit each.
    #[inline(always)]
    pub fn members(&self, sets: u8, text: &[u8]) -> u64
        requires { 64 ≤ length text.now }
        ensures { (i : ℕ) → i < 64 → is_set result i ≡ is_in self.now sets (get_or text.now i 0) }
    {
        answers(IsIn { all: self, sets }, text)
    }

    /// Which of the first 63 bytes of a text have a set in common with the byte after them, whose sets are others.
    #[inline(always)]
    pub fn pairs(&self, after: &HalfSets, text: &[u8]) -> u64
        requires { 64 ≤ length text.now }
        ensures { (i : ℕ) → i < 64 → is_set result i ≡ (nat_lt i 63
            && meets (sets_in self.now (get_or text.now i 0)) (sets_in after.now (get_or text.now (i + 1) 0))) }
    {
        let one = joined(
            0,
            0,
            self.pairs_of(after, block_of(text), block_of(&text[1..])),
        );
        let two = joined(
            one,
            16,
            self.pairs_of(after, block_of(&text[16..]), block_of(&text[17..])),
        );
        let three = joined(
            two,
            32,
            self.pairs_of(after, block_of(&text[32..]), block_of(&text[33..])),
        );
        joined(
            three,
            47,
            self.pairs_of(after, block_of(&text[47..]), block_of(&text[48..])),
        )
    }

    /// Which of 16 bytes have a set in common with another byte, whose sets are others.
    #[inline(always)]
    fn pairs_of(&self, after: &HalfSets, block: u8x16, behind: u8x16) -> u64
        ensures { (i : ℕ) → is_set result i
            ≡ (nat_lt i 16 && meets (sets_in self.now (get_or block i 0)) (sets_in after.now (get_or behind i 0))) }
    {
        meeting(self.sets_of(block), after.sets_of(behind))
    }

    /// The sets that each byte is in.
    #[inline(always)]
    pub(crate) fn sets_of(&self, block: u8x16) -> u8x16
        ensures { HasLanes result (λ i. sets_in self.now (get_or block i 0)) }
    {
        both(
            picked(self.low, block),
            picked(self.high, high_halves(block)),
        )
    }
}

/// Which of the first 64 bytes of a text are from 128 on, a bit each.
#[inline(always)]
pub fn wide(text: &[u8]) -> u64
    requires { 64 ≤ length text.now }
    ensures { (i : ℕ) → i < 64 → is_set result i ≡ nat_le 128 (get_or text.now i 0) }
{
    answers(IsNoLess { byte: 128 }, text)
}

/// Which of the first 64 bytes of a text are not 0, a bit each.
#[inline(always)]
pub fn nonzero(text: &[u8]) -> u64
    requires { 64 ≤ length text.now }
    ensures { (i : ℕ) → i < 64 → is_set result i ≡ not (get_or text.now i 0 == 0) }
{
    answers(IsNoLess { byte: 1 }, text)
}

/// Which of the first 64 bytes of a text are this one, a bit each.
#[inline(always)]
pub fn equal(byte: u8, text: &[u8]) -> u64
    requires { 64 ≤ length text.now }
    ensures { (i : ℕ) → i < 64 → is_set result i ≡ (get_or text.now i 0 == byte) }
{
    answers(IsEqual { byte }, text)
}
