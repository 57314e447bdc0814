//! Bits in words of 64, one for each byte of a text from a place on.

ghost use Rattle.std.specs.Prelude.{◌≡◌, ℕ, ◌+◌, ◌-◌, ◌*◌, ◌/◌, ◌%◌, ◌<◌, ◌≤◌, ◌==◌, ◌&&◌, ◌||◌, ◌∷◌, [], false};
ghost use Rattle.std.specs.Prelude.{length, map, nat_le, slice_index_or};
ghost use Rattle.lbk_masks.specs.Sets.{is_set};
ghost use Rattle.lbk_bytes.specs.Marks.{is_marked};

use lbk_masks::join;

/// How many bits a word has.
pub(crate) const BITS: usize = 64;

/// Clears all bits of some words. For one word the compiler's call for a loop would take longer than a store.
pub fn clear(words: &mut [u64])
    ensures { (i : ℕ) → is_marked words.new i ≡ false }
{
    if words.len() == 1 {
        words[0] = 0;
        return;
    }
    for word in words.iter_mut() {
        *word = 0;
    }
}

/// Sets a bit of some words, if it is to be set.
#[inline(always)]
pub(crate) fn mark(words: &mut [u64], index: usize, is_set: bool)
    requires { index < 64 * length words.old }
    ensures { (i : ℕ) → is_marked words.new i ≡ (is_marked words.old i || (is_set && (index == i))) }
{
    words[index / BITS] |= u64::from(is_set) << (index % BITS);
}

/// Sets bits of some words that are set in a number, the first of them at an index. Those behind the last word are left
/// out.
#[inline(always)]
pub(crate) fn mark_bits(words: &mut [u64], index: usize, bits: u64)
    requires { index < 64 * length words.old }
    ensures { (i : ℕ) → i < 64 * length words.old
        → is_marked words.new i ≡ (is_marked words.old i || (nat_le index i && is_set bits (i - index))) }
{
    let word = index / BITS;
    let shift = index % BITS;
    join(words, word, bits << shift);
    if shift != 0 && word + 1 < words.len() {
        join(words, word + 1, bits >> (BITS - shift));
    }
}
