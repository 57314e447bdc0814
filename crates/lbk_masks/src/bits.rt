//! Bits of numbers, and of words side by side.

ghost use Rattle.std.specs.Prelude.{◌≡◌, ℕ, ◌/◌, ◌%◌, ◌<◌, ◌≤◌, ◌==◌, ◌&&◌, ◌||◌, length};
ghost use Rattle.lbk_masks.specs.Bits.{AreCleared, AreKeptBelow, AreKeptFrom, IsLowest, is_marked};
ghost use Rattle.lbk_masks.specs.Sets.{is_set};

/// The lowest bit of a number that is set; any, where none is.
#[inline(always)]
pub fn first_set(bits: u64) -> usize
    ensures within { result < 64 }
    ensures lowest { IsLowest bits result }
{
    (bits.trailing_zeros() & 63) as usize
}

/// The number without its lowest bit that is set.
#[inline(always)]
pub fn without_first(bits: u64) -> u64
    requires { 0 < bits }
    ensures cleared { (index : ℕ) → index < 64 → IsLowest bits index → AreCleared bits index result }
    ensures fewer { result < bits }
{
    bits & (bits - 1)
}

/// The bits of a number from this one on.
#[inline(always)]
pub fn kept_from(bits: u64, first: usize) -> u64
    requires { first < 64 }
    ensures { AreKeptFrom first bits result }
{
    bits & !((1 << first) - 1)
}

/// The bits of a number below this one.
#[inline(always)]
pub fn kept_below(bits: u64, count: usize) -> u64
    requires { count < 64 }
    ensures { AreKeptBelow count bits result }
{
    bits & ((1 << count) - 1)
}

/// Sets those bits of one word that are set in a number.
#[inline(always)]
pub fn join(words: &mut [u64], word: usize, bits: u64)
    requires { word < length words.old }
    ensures { (i : ℕ) → is_marked words.new i ≡ (is_marked words.old i || ((i / 64 == word) && is_set bits (i % 64))) }
{
    words[word] |= bits;
}
