//! Held positions: what follows decides them, and in some texts one comes close behind another.

ghost use Rattle.std.specs.Prelude.{ℕ, ◌+◌, ◌<◌, ◌≤◌, length};
ghost use Rattle.lbk_bytes.specs.Terms.{Cell, IsFlatBy, IsPlace};
ghost use Rattle.lbk_bytes.specs.Reached.{Ahead};

use crate::deciding::decide_one;
use crate::fill_state::FillState;
use crate::target::Target;
use crate::tries::patience_after;
use lbk_rules::{KindSource, Profile};

/// How many scalars are taken singly behind one that may be a quotation mark.
const PATIENCE: usize = 2;

/// Takes one scalar, whatever it is, and then more that begin before a byte, as long as scalars that begin like a
/// closing quotation mark stand close together.
pub(crate) fn take_ones<T: Target, K: KindSource>(
    target: T,
    table: &K,
    profile: Profile,
    start: FillState,
    stop: usize,
    text: &[u8],
    out: &mut [T::Entry],
) -> FillState
    requires { T.takes target out.old start.count start.at × T.fits target out.old start.count start.at stop
        × IsPlace start.row × (start.at < stop) × (stop ≤ length text.now) }
    ensures within { T.fits target out.new result.count result.at stop × IsPlace result.row
        × (result.at ≤ length text.now) }
    ensures onward { (start.at < result.at) × (start.count ≤ result.count) }
    ensures near { result.at ≤ stop + 3 }
    ensures in_order { (from : ℕ) → T.in_order target out.old start.count from start.at
        → T.in_order target out.new result.count from result.at }
    ensures reached { (cell : ℕ → Cell) (all : Ahead) (last : ℕ)
        → IsFlatBy (K.kinds_of table.now) (K.pairs_of table.now) cell → stop ≤ last
        → T.reached target profile cell text.now all last start out.old
        → T.reached target profile cell text.now all last result out.new }
{
    let mut here = take_one(target, table, profile, start, text, out);
    let mut patience = PATIENCE;
    while here.at < stop && 0 < patience && !target.is_full(out, here.count) {
        let byte = text[here.at];
        patience = patience_after(byte == 0xC2 || byte == 0xE2, PATIENCE, patience);
        here = take_one(target, table, profile, here, text, out);
    }
    here
}

/// Takes one scalar, whatever it is, and writes the verdict before it.
fn take_one<T: Target, K: KindSource>(
    target: T,
    table: &K,
    profile: Profile,
    here: FillState,
    text: &[u8],
    out: &mut [T::Entry],
) -> FillState
    requires { T.takes target out.old here.count here.at × IsPlace here.row × (here.at < length text.now) }
    ensures within { IsPlace result.row × (here.at < result.at) × (result.at ≤ length text.now) }
    ensures fits { (stop : ℕ) → T.fits target out.old here.count here.at stop
        → T.fits target out.new result.count result.at stop }
    ensures near { result.at ≤ here.at + 4 }
    ensures onward { here.count ≤ result.count }
    ensures in_order { (from : ℕ) → T.in_order target out.old here.count from here.at
        → T.in_order target out.new result.count from result.at }
    ensures reached { (cell : ℕ → Cell) (all : Ahead) (last : ℕ)
        → IsFlatBy (K.kinds_of table.now) (K.pairs_of table.now) cell → here.at < last
        → T.reached target profile cell text.now all last here out.old
        → T.reached target profile cell text.now all last result out.new }
{
    let decided = decide_one(table, profile, here.row, here.at, text);
    let count = target.put(out, here.count, here.at, decided.shown);
    FillState {
        count,
        row: decided.row,
        at: decided.at,
    }
}
