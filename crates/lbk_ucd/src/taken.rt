//! The code points that rows have.
ghost use Rattle.std.specs.Prelude.{◌≡◌, ◌+◌, ◌*◌, ◌^◌, ◌<◌, ◌≤◌, ◌⊎◌, ◌&&◌, ℕ, true, false, [], length};
ghost use Rattle.std.specs.Prelude.{nat_le, OnErr, OnOk};
ghost use Rattle.lbk_masks.specs.Bits.{is_marked};
ghost use Rattle.lbk_masks.specs.Sets.{is_set};
ghost use Rattle.lbk_ucd.specs.Ranges.{AreMarked};
ghost use Rattle.lbk_ucd.specs.declared.taken.TheConstants.{WORDS};

use crate::ranges::Ranges;
use crate::span::Span;
use lbk_masks::{join, kept_from};
use std::alloc::{AllocError, Global};

/// How many code points a word has bits for.
const BITS: usize = 64;

/// How many words have a bit for each code point.
const WORDS: usize = 17_408;

/// A bit for each code point, or no bits before one is taken.
#[derive(Drop)]
pub(crate) struct Taken {
    words: Vec<u64>,
    ghost sized: { 0 < length words.items → length words.items ≡ WORDS },
}

impl Taken {
    /// No code point is taken.
    pub(crate) fn new(alloc: Global) -> Self
        ensures { result.words.items ≡ [] }
    {
        Taken {
            words: Vec::new(alloc),
        }
    }

    /// Whether no code point is taken.
    pub(crate) fn is_unused(&self) -> bool
        ensures yes { result ≡ true → self.now.words.items ≡ [] }
        ensures no { result ≡ false → 0 < length self.now.words.items }
    {
        self.words.is_empty()
    }

    /// Whether one of these code points is taken.
    pub(crate) fn any(&self, span: Span) -> bool
        ensures yes { result ≡ true → (k : ℕ) × (span.first ≤ k) × (k ≤ span.last)
            × (is_marked self.now.words.items k ≡ true) }
        ensures no { result ≡ false → (k : ℕ) → span.first ≤ k → k ≤ span.last
            → is_marked self.now.words.items k ≡ false }
    {
        !self.words.is_empty() && any_marked(&self.words, span.first as usize, span.last as usize)
    }

    /// Takes the code points of the first rows. On an error none is taken.
    pub(crate) fn add_rows<V: Copy>(&mut self, ranges: &Ranges<'_, V>) -> Result<(), AllocError>
        requires unused { self.old.words.items ≡ [] }
        ensures marked { OnOk result (AreMarked ranges.now.rows.now self.new.words.items) }
        ensures room { OnOk result (0 < length self.new.words.items) }
        ensures untouched { OnErr result (self.new.words.items ≡ []) }
    {
        self.words.resize(WORDS, 0)?;
        mark_rows(&mut self.words, ranges);
        Ok(())
    }

    /// Takes these code points, too.
    pub(crate) fn add(&mut self, span: Span)
        requires { 0 < length self.old.words.items }
        ensures used { length self.new.words.items ≡ length self.old.words.items }
        ensures inside { (k : ℕ) → span.first ≤ k → k ≤ span.last → is_marked self.new.words.items k ≡ true }
        ensures outside { (k : ℕ) → (k < span.first) ⊎ (span.last < k) → is_marked self.new.words.items k
            ≡ is_marked self.old.words.items k }
    {
        mark_all(&mut self.words, span.first as usize, span.last as usize);
    }
}

/// Sets the bits of the code points of these rows; none was set before.
fn mark_rows<V: Copy>(words: &mut [u64], ranges: &Ranges<'_, V>)
    requires room { length words.old ≡ WORDS }
    requires unset { (k : ℕ) → is_marked words.old k ≡ false }
    ensures { AreMarked ranges.now.rows.now words.new }
{
    for row in ranges.rows {
        mark_all(words, row.first as usize, row.last as usize);
    }
}

/// Sets the bits of the code points from `first` to `last`.
fn mark_all(words: &mut [u64], first: usize, last: usize)
    requires { (last ≤ 0x10FFFF) × (last < 64 * length words.old) }
    ensures inside { (k : ℕ) → first ≤ k → k ≤ last → is_marked words.new k ≡ true }
    ensures outside { (k : ℕ) → (k < first) ⊎ (last < k) → is_marked words.new k ≡ is_marked words.old k }
{
    for word in first / BITS..last / BITS + 1 {
        join(words, word, bits_within(word, first, last));
    }
}

/// Whether the bit of a code point from `first` to `last` is set.
fn any_marked(words: &[u64], first: usize, last: usize) -> bool
    requires rises { first ≤ last }
    requires within { (last ≤ 0x10FFFF) × (last < 64 * length words.now) }
    ensures yes { result ≡ true → (k : ℕ) × (first ≤ k) × (k ≤ last) × (is_marked words.now k ≡ true) }
    ensures no { result ≡ false → (k : ℕ) → first ≤ k → k ≤ last → is_marked words.now k ≡ false }
{
    let mut any = false;
    for word in first / BITS..last / BITS + 1 {
        any |= words[word] & bits_within(word, first, last) != 0;
    }
    any
}

/// The bits of a word for code points from `first` to `last`.
#[inline(always)]
fn bits_within(word: usize, first: usize, last: usize) -> u64
    requires { (word < 2 ^ 32) × (last < 2 ^ 32) }
    ensures { (i : ℕ) → i < 64 → is_set result i ≡ (nat_le first (64 * word + i) && nat_le (64 * word + i) last) }
{
    bits_from(word, first) & !bits_from(word, last + 1)
}

/// The bits of a word for code points from `first` on.
#[inline(always)]
fn bits_from(word: usize, first: usize) -> u64
    requires { word < 2 ^ 32 }
    ensures { (i : ℕ) → i < 64 → is_set result i ≡ nat_le first (64 * word + i) }
{
    let start = BITS * word;
    if first <= start {
        return u64::MAX;
    }
    if start + BITS <= first {
        return 0;
    }
    kept_from(u64::MAX, first - start)
}
