//! What is written of the positions that the loops decide: breaks into a block, or bits into words.

ghost use Rattle.std.specs.Prelude.{◌≡◌, ℕ, ◌+◌, ◌*◌, ◌<◌, ◌≤◌, List, IsTrue, length};
ghost use Rattle.lbk_bytes.specs.Terms.{Cell, IsShown, KnowsTaken, Profile};
ghost use Rattle.lbk_bytes.specs.declared.deciding.Decided.{Decided};
ghost use Rattle.lbk_bytes.specs.declared.fill_state.FillState.{FillState};
ghost use Rattle.lbk_bytes.specs.Decided.{IsDecided};
ghost use Rattle.lbk_bytes.specs.Marking.{AreClear, AreGathered, Gathered, Marked};
ghost use Rattle.lbk_bytes.specs.Reached.{Ahead, IsInOrder, Reached};
ghost use Rattle.lbk_bytes.specs.Shown.{given_in};

use crate::filling::put;
use crate::marks::mark;
use crate::raw_break::RawBreak;
use lbk_rules::shows_break;

/// What is written, and where. Loops are the same for each.
pub(crate) trait Target: Copy {
    /// An entry of a block of breaks, or a word of bits.
    type Entry;

    // After so many breaks, all that is written before bytes from `at` to `stop` has its place.
    ghost fits: { Self → List Self.Entry → ℕ → ℕ → ℕ → Type 0 };

    // After so many breaks, a verdict before byte `at` has its place.
    ghost takes: { Self → List Self.Entry → ℕ → ℕ → Type 0 };

    // So many breaks stand in order, from byte `from` on and before byte `at`.
    ghost in_order: { Self → List Self.Entry → ℕ → ℕ → ℕ → Type 0 };

    // The call stands here in the text, and what it gave of all is what was written. Its scalars begin before `last`.
    ghost reached: { Self → Profile → (ℕ → Cell) → List ℕ → Ahead → ℕ → FillState → List Self.Entry → Type 0 };

    /// Whether there is no place for a position more, whatever it is. Otherwise there is one for each position before
    /// which all that is written has its place.
    fn is_full(self, out: &[Self::Entry], count: usize) -> bool
        ensures full { IsTrue result → (at : ℕ) → ¬ (takes self out.now count at) }
        ensures room { (at stop : ℕ) → at < stop → fits self out.now count at stop → ¬ (IsTrue result)
            → takes self out.now count at };

    /// Up to which byte there is room for what is written of scalars of `size` bytes or more that begin before `stop`, the
    /// first of them at a byte.
    fn room_to(
        self,
        out: &[Self::Entry],
        count: usize,
        at: usize,
        size: usize,
        stop: usize,
    ) -> usize
        requires fits { fits self out.now count at stop }
        requires size { (0 < size) × (size ≤ 4) }
        ensures within { result ≤ stop }
        ensures room { (entries : List Self.Entry) (some more next : ℕ) → fits self entries some next stop
            → length entries ≡ length out.now → some ≡ count + more → at + more * size ≤ next → next < result
            → takes self entries some next };

    /// Writes the verdict of a number, before a byte, and returns how many breaks are counted then.
    fn put(self, out: &mut [Self::Entry], count: usize, at: usize, shown: u16) -> usize
        requires room { takes self out.old count at }
        requires shown { IsShown shown }
        ensures counts { (count ≤ result) × (result ≤ count + 1) }
        ensures fits { (next stop : ℕ) → at < next → fits self out.old count at stop
            → fits self out.new result next stop }
        ensures in_order { (from to : ℕ) → at < to → in_order self out.old count from at
            → in_order self out.new result from to }
        ensures reached { (profile : Profile) (cell : ℕ → Cell) (text : List ℕ) (all : Ahead) (last row : ℕ)
            (found : Decided) → found.shown ≡ shown → at < length text → at < last
            → ((taken : List ℕ) → KnowsTaken cell row taken → IsDecided profile cell text at taken found)
            → reached self profile cell text all last (record { count = count; row = row; at = at }) out.old
            → reached self profile cell text all last (record { count = result; row = found.row; at = found.at })
            out.new };
}

/// Breaks, one after another in the front of a block.
#[derive(Clone, Copy)]
pub(crate) struct Breaks;

impl Target for Breaks {
    type Entry = RawBreak;

    ghost fits = { λ _ out count at stop. count ≤ length out };

    ghost takes = { λ _ out count at. count < length out };

    ghost in_order = { λ _ out count from at. IsInOrder out count from at };

    ghost reached = { λ _ profile cell text all last here out.
        Reached profile cell text all here (given_in out here.count) };

    #[inline(always)]
    fn is_full(self, out: &[RawBreak], count: usize) -> bool {
        count == out.len()
    }

    #[inline(always)]
    fn room_to(self, out: &[RawBreak], count: usize, at: usize, size: usize, stop: usize) -> usize {
        // A sum or a product that wraps is less, so a loop ends sooner.
        stop.min(at.wrapping_add((out.len() - count).wrapping_mul(size)))
    }

    #[inline(always)]
    fn put(self, out: &mut [RawBreak], count: usize, at: usize, shown: u16) -> usize {
        put(out, count, at, shown)
    }
}

/// The same where the block has more room than bytes are left, so that it is never full.
#[derive(Clone, Copy)]
pub(crate) struct AmpleBreaks;

impl Target for AmpleBreaks {
    type Entry = RawBreak;

    ghost fits = { λ _ out count at stop. (count ≤ length out) × (count + stop < length out + at) };

    ghost takes = { λ _ out count at. count < length out };

    ghost in_order = { λ _ out count from at. IsInOrder out count from at };

    ghost reached = { λ _ profile cell text all last here out.
        Reached profile cell text all here (given_in out here.count) };

    #[inline(always)]
    fn is_full(self, _out: &[RawBreak], _count: usize) -> bool {
        false
    }

    #[inline(always)]
    fn room_to(
        self,
        _out: &[RawBreak],
        _count: usize,
        _at: usize,
        _size: usize,
        stop: usize,
    ) -> usize {
        stop
    }

    #[inline(always)]
    fn put(self, out: &mut [RawBreak], count: usize, at: usize, shown: u16) -> usize {
        put(out, count, at, shown)
    }
}

/// A bit for each byte of a text from one on, in words of 64.
#[derive(Clone, Copy)]
pub(crate) struct Bits {
    /// The byte that the first bit is for.
    pub(crate) from: usize,
}

impl Target for Bits {
    type Entry = u64;

    ghost fits = { λ bits words count at stop. (bits.from ≤ at) × (stop ≤ bits.from + 64 * length words) };

    ghost takes = { λ bits words count at. (bits.from ≤ at) × (at < bits.from + 64 * length words) };

    ghost in_order = { λ bits words count from at. AreClear bits.from at words };

    ghost reached = { λ bits profile cell text all last here words.
        Marked profile cell text all bits.from last here words };

    #[inline(always)]
    fn is_full(self, _words: &[u64], _count: usize) -> bool {
        false
    }

    #[inline(always)]
    fn room_to(self, _out: &[u64], _count: usize, _at: usize, _size: usize, stop: usize) -> usize {
        stop
    }

    #[inline(always)]
    fn put(self, words: &mut [u64], count: usize, at: usize, shown: u16) -> usize {
        mark(words, at - self.from, shows_break(shown));
        count
    }
}

/// The kinds of verdicts, a number for each byte of a text from one on. A store takes less than to set a bit, and the
/// bits of many are made at once.
#[derive(Clone, Copy)]
pub(crate) struct BreakKinds {
    /// The byte that the first number is for.
    pub(crate) from: usize,
    /// The bits that were set before.
    pub(crate) word: u64,
}

impl Target for BreakKinds {
    type Entry = u8;

    ghost fits = { λ these kinds count at stop. (these.from ≤ at) × (stop ≤ these.from + length kinds) };

    ghost takes = { λ these kinds count at. (these.from ≤ at) × (at < these.from + length kinds) };

    ghost in_order = { λ these kinds count from at. AreGathered these.from at these.word kinds };

    ghost reached = { λ these profile cell text all last here kinds.
        Gathered profile cell text all these.from last these.word here kinds };

    #[inline(always)]
    fn is_full(self, _kinds: &[u8], _count: usize) -> bool {
        false
    }

    #[inline(always)]
    fn room_to(self, _out: &[u8], _count: usize, _at: usize, _size: usize, stop: usize) -> usize {
        stop
    }

    #[inline(always)]
    fn put(self, kinds: &mut [u8], count: usize, at: usize, shown: u16) -> usize {
        kinds[at - self.from] = (shown % 256) as u8;
        count
    }
}
