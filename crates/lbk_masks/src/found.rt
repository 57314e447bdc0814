//! What is found of the bytes of a text that were looked at.

ghost use Rattle.std.specs.Prelude.{◌≡◌, ℕ, ◌+◌, ◌≤◌, ◌&&◌, Bool, List, get_or, nat_lt};
ghost use Rattle.lbk_masks.specs.declared.ByteSets.{ByteSets};
ghost use Rattle.lbk_masks.specs.Found.{AreBits, AreFound};
ghost use Rattle.lbk_masks.specs.Sets.{is_set};

use std::simd::prelude::*;

/// Where scalars of more than one byte may begin and go on, a bit for each byte.
#[derive(Clone, Copy)]
pub(crate) struct Edges {
    /// Which bytes are from 128 on.
    pub(crate) wide: u64,
    /// Which of them are from 192 on.
    pub(crate) first: u64,
}

/// What is found of some bytes, a bit for each.
#[derive(Clone, Copy)]
pub(crate) struct Found {
    /// Which stand out.
    pub(crate) standing: u64,
    /// Which are special.
    pub(crate) special: u64,
    /// Which are from 128 on.
    pub(crate) edges: Edges,
    /// The left sets of the last 16.
    pub(crate) left: u8x16,
}

impl Found {
    /// What is found before any byte is examined, where `before` is the left set of the byte before them.
    #[inline(always)]
    pub(crate) fn nothing(before: u8) -> Found
        ensures found { (sets : ByteSets) (text : List ℕ) → AreFound sets before text 0 result }
        ensures left { get_or result.left 15 0 ≡ before }
    {
        Found {
            standing: 0,
            special: 0,
            edges: Edges { wide: 0, first: 0 },
            left: u8x16::splat(before),
        }
    }
}

/// The bits of a number with 16 bits more from a place on.
#[inline(always)]
pub(crate) fn joined(bits: u64, at: usize, more: u64) -> u64
    requires { at ≤ 48 }
    ensures { (known : ℕ) (is : ℕ → Bool) → at ≤ known → known ≤ at + 16
        → ((i : ℕ) → is_set more i ≡ (nat_lt i 16 && is (at + i)))
        → AreBits known is bits → AreBits (at + 16) is result }
{
    bits | (more << at)
}
