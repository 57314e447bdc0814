//! A position in a block.

ghost use Rattle.std.specs.Prelude.{◌≡◌, ℕ, ◌+◌, ◌<◌, ◌++◌, [], ◌∷◌, length};
ghost use Rattle.lbk_units.specs.Terms.{ArePositionsInOrder, IsInOrderBy, IsPosition, IsShown, break_by, given_in};
ghost use Rattle.lbk_units.specs.Terms.{verdict_shown};

use lbk_bytes::RawBreak;

/// Writes a position after those in the front of the block, and returns how many these are now.
#[inline(always)]
pub fn put_position(out: &mut [RawBreak], count: usize, at: usize, shown: u16) -> usize
    requires room { count < length out.old }
    requires shown { IsShown shown }
    ensures more { result ≡ count + 1 }
    ensures in_order { (from to : ℕ) → at < to → IsInOrderBy IsPosition out.old count from at
        → ArePositionsInOrder out.new result from to }
    ensures front { given_in out.new result ≡ given_in out.old count ++ break_by at (verdict_shown shown) ∷ [] }
{
    let place = &mut out[count];
    place.at = at;
    place.kind = (shown % 256) as u8;
    place.rule = (shown / 256) as u8;
    count + 1
}
