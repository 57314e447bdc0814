//! Which of up to 64 bytes stand out: a bit for each, by what the sets of neighbours have in common.
//!
//! Each byte has two sets of up to eight things: one as the left of two neighbours, one as the right. A byte stands out
//! where its right set meets the left set of the byte before it, and is special where they meet in one of the first two
//! things. All of it holds whatever the sets are.
//! Bytes are examined 16 at a time. Of a text of fewer than 64 the last 16 are examined whatever was looked at before.
#![tactic(auto)]

ghost use Rattle.std.specs.Prelude.{◌≡◌, ◌/◌, ◌%◌, ℕ, ◌+◌, ◌<◌, ◌≤◌, ◌∷◌, ◌==◌, ◌&&◌, List, length, get_or, bit_and, min};
ghost use Rattle.std.specs.Prelude.{nat_le, nat_lt};
ghost use Rattle.lbk_masks.specs.Found.{AreEdges, AreFound};
ghost use Rattle.lbk_masks.specs.Sets.{HasLanes, chosen, class_in, is_set, left_before, left_in, meets, picked};
ghost use Rattle.lbk_masks.specs.Sets.{right_in};
ghost use Rattle.lbk_masks.specs.Strays.{is_stray};

mod bits;
mod found;
mod halves;
mod questions;

pub use bits::{first_set, join, kept_below, kept_from, without_first};
use found::{Edges, Found, joined};
pub use halves::{HalfSets, equal, nonzero, wide};
use std::simd::prelude::*;

/// How many bytes at most have a bit.
const BITS: usize = 64;

/// How many bytes are examined together.
const LANES: usize = 16;

/// The things in which every byte that meets another is special.
pub const SPECIAL: u8 = 3;

/// The sets of all bytes. Each byte has one of sixteen classes, and a class has two sets.
#[repr(C)]
#[derive(Clone, Copy)]
pub struct ByteSets {
    /// The classes of the bytes below 128 in rows of 16, in the low half of each number. Its high half is the class
    /// of the byte that is greater by 128, so that one look-up serves all bytes.
    pub classes: [[u8; 16]; 8],
    /// The set of a class on the left of two neighbours.
    pub left: [u8; 16],
    /// The set of a class on the right of two neighbours.
    pub right: [u8; 16],
}

/// Some of the first 64 bytes of a text, a bit each, the first the lowest.
#[derive(Clone, Copy)]
pub struct Masks {
    /// Where a byte stands out.
    pub standing: u64,
    /// Where it is special.
    pub special: u64,
    /// Where it is from 128 on and of no scalar of two bytes among these.
    pub strays: u64,
}

impl ByteSets {
    /// The set of a byte on the left of two neighbours.
    pub fn left_of(&self, byte: u8) -> u8
        ensures { result ≡ left_in self.now byte }
    {
        of_class(&self.left, class_of(&self.classes, byte))
    }

    /// The set of a byte on the right of two neighbours.
    pub fn right_of(&self, byte: u8) -> u8
        ensures { result ≡ right_in self.now byte }
    {
        of_class(&self.right, class_of(&self.classes, byte))
    }

    /// What is known of the first 64 bytes of a text, or of all where it has fewer, where `before` is the left set of
    /// the byte before them.
    #[inline(always)]
    pub fn masks(&self, before: u8, text: &[u8]) -> Masks
        requires { 16 < length text.now }
        ensures standing { (i : ℕ) → i < 64 → i < length text.now → is_set result.standing i
            ≡ meets (left_before self.now before text.now i) (right_in self.now (get_or text.now i 0)) }
        ensures special { (i : ℕ) → i < 64 → i < length text.now → is_set result.special i
            ≡ meets (left_before self.now before text.now i)
            (bit_and (right_in self.now (get_or text.now i 0)) SPECIAL) }
        ensures strays { (i : ℕ) → i < 64 → is_set result.strays i ≡ is_stray text.now i }
    {
        let found = self.found(before, text);
        Masks {
            standing: found.standing,
            special: found.special,
            strays: strays_by(found.edges),
        }
    }

    /// What is found of these bytes. The last 16 of them are examined last, whatever was looked at before.
    #[inline(always)]
    fn found(&self, before: u8, text: &[u8]) -> Found
        requires { 16 < length text.now }
        ensures { AreFound self.now before text.now (min 64 (length text.now)) result }
    {
        let end = text.len().min(BITS);
        let mut found = Found::nothing(before);
        let mut at = 0;
        while at + LANES < end {
            found = self.further(text, at, found);
            at += LANES;
        }
        self.last(text, end, found)
    }

    /// What is found where the last 16 bytes before a place are examined too.
    #[inline(always)]
    fn last(&self, text: &[u8], end: usize, so_far: Found) -> Found
        requires { (16 < end) × (end ≤ 64) × (end ≤ length text.now) }
        ensures { (before known : ℕ) → known ≤ end → end ≤ known + 16 → AreFound self.now before text.now known so_far
            → AreFound self.now before text.now end result }
    {
        let at = end - LANES;
        let left = u8x16::splat(self.left_of(text[at - 1]));
        self.further(text, at, Found { left, ..so_far })
    }

    /// What is found where 16 bytes from a place on are examined too. The left set of the byte before them is known.
    #[inline(always)]
    fn further(&self, text: &[u8], at: usize, so_far: Found) -> Found
        requires { (at ≤ 48) × (at + 16 ≤ length text.now) }
        ensures found { (before known : ℕ) → at ≤ known → known ≤ at + 16 → get_or so_far.left 15 0
            ≡ left_before self.now before text.now at
            → AreFound self.now before text.now known so_far → AreFound self.now before text.now (at + 16) result }
        ensures left { (before : ℕ) → get_or result.left 15 0 ≡ left_before self.now before text.now (at + 16) }
    {
        let block = block_of(&text[at..]);
        let class = classes(&self.classes, block);
        let left = picked(self.left, class);
        let behind = one_back(so_far.left, left);
        let right = picked(self.right, class);
        let special = both(right, u8x16::splat(SPECIAL));
        Found {
            standing: joined(so_far.standing, at, meeting(behind, right)),
            special: joined(so_far.special, at, meeting(behind, special)),
            edges: edges_further(block, at, so_far.edges),
            left,
        }
    }
}

/// Which of the first 64 bytes of a text are from 128 on and of no scalar of two bytes among them, a bit each.
#[inline(always)]
pub fn strays(text: &[u8]) -> u64
    requires { 64 ≤ length text.now }
    ensures { (i : ℕ) → i < 64 → is_set result i ≡ is_stray text.now i }
{
    let one = edges_further(block_of(text), 0, Edges { wide: 0, first: 0 });
    let two = edges_further(block_of(&text[16..]), 16, one);
    let three = edges_further(block_of(&text[32..]), 32, two);
    strays_by(edges_further(block_of(&text[48..]), 48, three))
}

/// How many of the first 16 bytes of a text begin scalars from U+0580 on. These have two bytes or more.
#[inline(always)]
pub fn far_scalars(text: &[u8]) -> u32
    requires { 16 ≤ length text.now }
    ensures { result ≤ 64 }
{
    least(0xD6, block_of(text)).count_ones()
}

/// Which bytes are strays, by which are from 128 on and from 192 on.
#[inline(always)]
fn strays_by(edges: Edges) -> u64
    ensures { (text : List ℕ) → AreEdges text 64 edges → (i : ℕ) → i < 64 → is_set result i ≡ is_stray text i }
{
    let pairs = edges.first & ((edges.wide & !edges.first) >> 1);
    edges.wide & !(pairs | (pairs << 1))
}

/// The edges of 16 bytes more from a place on.
#[inline(always)]
fn edges_further(block: u8x16, at: usize, so_far: Edges) -> Edges
    requires { at ≤ 48 }
    ensures { (text : List ℕ) (known : ℕ) → at ≤ known → known ≤ at + 16
        → ((i : ℕ) → i < 16 → get_or block i 0 ≡ get_or text (at + i) 0)
        → AreEdges text known so_far → AreEdges text (at + 16) result }
{
    Edges {
        wide: joined(so_far.wide, at, least(128, block)),
        first: joined(so_far.first, at, least(192, block)),
    }
}

/// The class of one byte, in the low half of a number.
fn class_of(rows: &[[u8; 16]; 8], byte: u8) -> u8
    ensures { result ≡ class_in rows.now byte }
{
    let class = of_class(&rows[(byte / 16 % 8) as usize], byte);
    if byte & 128 == 0 { class } else { class / 16 }
}

/// What the row has at the low half of a byte.
fn of_class(row: &[u8; 16], byte: u8) -> u8
    ensures { result ≡ picked row.now byte }
{
    row[(byte & 15) as usize]
}

/// The first 16 bytes of a text.
#[inline(always)]
fn block_of(text: &[u8]) -> u8x16
    requires { 16 ≤ length text.now }
    ensures len { length result ≡ 16 }
    ensures lanes { HasLanes result (λ i. get_or text.now i 0) }
{
    u8x16::from_slice(text)
}

/// What the row has at the low half of each byte.
#[inline(always)]
fn picked(row: [u8; 16], bytes: u8x16) -> u8x16
    ensures { HasLanes result (λ i. picked row (get_or bytes i 0)) }
{
    u8x16::from_array(row).swizzle_dyn_within::<16>(bytes & u8x16::splat(15))
}

/// One of two at each byte, by a bit of it: the first where it is not set.
#[inline(always)]
fn chosen(bit: u8, low: u8x16, high: u8x16, bytes: u8x16) -> u8x16
    ensures { HasLanes result (λ i. chosen bit (get_or low i 0) (get_or high i 0) (get_or bytes i 0)) }
{
    (bytes & u8x16::splat(bit))
        .simd_eq(u8x16::splat(0))
        .select(low, high)
}

/// What two vectors have in common.
#[inline(always)]
fn both(one: u8x16, other: u8x16) -> u8x16
    ensures { HasLanes result (λ i. bit_and (get_or one i 0) (get_or other i 0)) }
{
    one & other
}

/// What one of two rows has at the low half of each byte, by the lowest bit of its high half.
#[inline(always)]
fn in_rows(low: [u8; 16], high: [u8; 16], bytes: u8x16) -> u8x16
    ensures { HasLanes result (λ i. chosen 16 (picked low (get_or bytes i 0)) (picked high (get_or bytes i 0))
        (get_or bytes i 0)) }
{
    chosen(16, picked(low, bytes), picked(high, bytes), bytes)
}

/// The class of each byte. Bits of the high half choose the row.
#[inline(always)]
fn classes(rows: &[[u8; 16]; 8], bytes: u8x16) -> u8x16
    ensures { HasLanes result (λ i. bit_and (class_in rows.now (get_or bytes i 0)) 15) }
{
    let a = in_rows(rows[0], rows[1], bytes);
    let b = in_rows(rows[2], rows[3], bytes);
    let c = in_rows(rows[4], rows[5], bytes);
    let d = in_rows(rows[6], rows[7], bytes);
    let low = chosen(32, a, b, bytes);
    let high = chosen(32, c, d, bytes);
    let halves = chosen(64, low, high, bytes);
    // (of the halves alone, since a choice between a number and its high half would become a shift that differs by
    // lane)
    let above = low_halves(high_halves(halves));
    chosen(128, low_halves(halves), above, bytes)
}

/// The low half of each byte.
#[inline(always)]
fn low_halves(bytes: u8x16) -> u8x16
    ensures { HasLanes result (λ i. bit_and (get_or bytes i 0) 15) }
{
    both(bytes, u8x16::splat(15))
}

/// The high half of each byte.
#[inline(always)]
fn high_halves(bytes: u8x16) -> u8x16
    ensures { HasLanes result (λ i. get_or bytes i 0 / 16) }
{
    bytes >> u8x16::splat(4)
}

/// Which bytes are no less than this one.
#[inline(always)]
fn least(byte: u8, block: u8x16) -> u64
    ensures { (i : ℕ) → is_set result i ≡ (nat_lt i 16 && nat_le byte (get_or block i 0)) }
{
    block.simd_ge(u8x16::splat(byte)).to_bitmask()
}

/// Which bytes are this one.
#[inline(always)]
fn equal_to(byte: u8, block: u8x16) -> u64
    ensures { (i : ℕ) → is_set result i ≡ (nat_lt i 16 && get_or block i 0 == byte) }
{
    block.simd_eq(u8x16::splat(byte)).to_bitmask()
}

/// Where the sets of two vectors meet.
#[inline(always)]
fn meeting(left: u8x16, right: u8x16) -> u64
    ensures { (i : ℕ) → is_set result i ≡ (nat_lt i 16 && meets (get_or left i 0) (get_or right i 0)) }
{
    (left & right).simd_ne(u8x16::splat(0)).to_bitmask()
}

/// The lanes, each a place further on, after the last of those before.
#[inline(always)]
fn one_back(before: u8x16, block: u8x16) -> u8x16
    ensures { HasLanes result (λ i. get_or (get_or before 15 0 ∷ block) i 0) }
{
    before.shuffle(
        block,
        [
            15, 16, 17, 18, 19, 20, 21, 22, 23, 24, 25, 26, 27, 28, 29, 30,
        ],
    )
}
