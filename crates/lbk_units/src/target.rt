//! What the loops write into a block: breaks alone, or all positions.

ghost use Rattle.std.specs.Prelude.{◌≡◌, ℕ, ◌+◌, ◌<◌, ◌≤◌, ◌++◌, [], ◌∷◌, List, length, map, refl};
ghost use Rattle.std.proofs.Common.{rules};
ghost use Rattle.lbk_units.specs.Terms.{AreInOrderBy, AtEnd, Break, Cell, Decoded, IsBreak, IsInOrderBy, IsPosition};
ghost use Rattle.lbk_units.specs.Terms.{IsShown, Onward, Profile, RawBreak, Verdict, break_by, given_in, onward_all};
ghost use Rattle.lbk_units.specs.Terms.{onward_to, or_replacement, scalars_of, verdict_between_in, verdict_shown};
ghost use Rattle.lbk_units.specs.Terms.{with_break};

use crate::positions::put_position;
use lbk_bytes::{RawBreak, put};

/// What is written of the positions that the loops decide.
pub trait Target {
    // What the numbers of each entry are.
    ghost entry: { RawBreak → Type 0 };

    // What is written from a unit on, by what comes at the end.
    ghost onward: { AtEnd → Onward };

    // What is written at a unit by this verdict, and what comes after it.
    ghost with_verdict: { ℕ → Verdict → List Break → List Break };

    /// Whether scalars of one unit have a loop of their own.
    const ALONE: bool;

    /// Writes the verdict of a number after the entries in the front of the block, and returns how many these are now.
    fn put(out: &mut [RawBreak], count: usize, at: usize, shown: u16) -> usize
        requires room { count < length out.old }
        requires shown { IsShown shown }
        ensures within { (result ≤ length out.old) × (count ≤ result) × (result ≤ count + 1) }
        ensures in_order { (from to : ℕ) → at < to → IsInOrderBy entry out.old count from at
            → AreInOrderBy entry out.new result from to }
        ensures front { given_in out.new result
            ≡ given_in out.old count ++ with_verdict at (verdict_shown shown) [] };

    ghost steps: { (end : AtEnd) (profile : Profile) (cell : ℕ → Cell) (before : List ℕ) (at : ℕ) (p : Decoded)
        (ps : List Decoded)
        → onward end profile cell before at (p ∷ ps)
        ≡ with_verdict at (verdict_between_in profile (map cell before) (map cell (scalars_of (p ∷ ps))))
        (onward end profile cell (before ++ or_replacement p.char ∷ []) (at + p.size) ps) };

    ghost adds: { (at : ℕ) (verdict : Verdict) (more : List Break)
        → with_verdict at verdict more ≡ with_verdict at verdict [] ++ more };
}

/// Breaks alone.
pub struct Breaks;

impl Target for Breaks {
    ghost entry = { IsBreak };

    ghost onward = { onward_to };

    ghost with_verdict = { with_break };

    ghost steps = { λ end profile cell before at p ps. refl };

    ghost adds = { Prim.search rules };

    const ALONE: bool = true;

    #[inline(always)]
    fn put(out: &mut [RawBreak], count: usize, at: usize, shown: u16) -> usize {
        put(out, count, at, shown)
    }
}

/// All positions, whether a line may end there or not.
pub struct Positions;

impl Target for Positions {
    ghost entry = { IsPosition };

    ghost onward = { onward_all };

    ghost with_verdict = { λ at verdict more. break_by at verdict ∷ more };

    ghost steps = { λ end profile cell before at p ps. refl };

    ghost adds = { λ at verdict more. refl };

    const ALONE: bool = false;

    #[inline(always)]
    fn put(out: &mut [RawBreak], count: usize, at: usize, shown: u16) -> usize {
        put_position(out, count, at, shown)
    }
}
