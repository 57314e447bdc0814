//! A block that is filled with breaks or positions.

ghost use Rattle.std.specs.Prelude.{◌≡◌, ℕ, ◌<◌, ◌≤◌, List, length};
ghost use Rattle.lbk_units.specs.Terms.{AreFlatKinds, AreSteps, Cell, Decoded, IsFlatBy, Profile, steps_in};
ghost use Rattle.lbk_units.specs.Filling.{Fills, GivesOf, GoesOn, IsInText, RunsOn};
ghost use Rattle.lbk_units.specs.Reached.{Follows, on_from};

use crate::alone::{FEW, run_mixed};
use crate::target::Target;
use lbk_bytes::{FillState, RawBreak, Unit, decide_one};
use lbk_rules::{HELD, KindSource, Profile, Rows, rows_of, step_at};

/// Goes on until the block is full or the text ends, and writes the breaks or positions before the scalars taken after
/// those in the front of the block.
pub fn fill<U: Unit, T: Target, K: KindSource>(
    table: &K,
    profile: Profile,
    start: FillState,
    text: &[U],
    out: &mut [RawBreak],
) -> FillState
    requires { IsInText start (length text.now) (length out.old) }
    ensures { Fills T.entry T.onward U.pieces_of (K.kinds_of table.now) (K.pairs_of table.now) profile text.now out.old
        start out.new result }
{
    let mut here = start;
    while here.count < out.len() && here.at < text.len() {
        let past = fill_part::<U, T, K>(table, profile, here, text, out);
        here = take_one::<U, T, K>(table, profile, past, text, out);
    }
    here
}

/// Takes scalars of a part of a text until a held position comes, the block is full or the part ends. The part may be
/// of any text that has the scalars of the part, whatever comes after them.
#[inline(always)]
pub fn fill_part<U: Unit, T: Target, K: KindSource>(
    table: &K,
    profile: Profile,
    start: FillState,
    part: &[U],
    out: &mut [RawBreak],
) -> FillState
    requires { IsInText start (length part.now) (length out.old) }
    ensures goes_on { GoesOn T.entry (length part.now) out.old start out.new result }
    ensures gives { (cell : ℕ → Cell) (on : ℕ → List Decoded)
        → IsFlatBy (K.kinds_of table.now) (K.pairs_of table.now) cell
        → Follows U.pieces_of part.now on
        → GivesOf T.onward profile cell on out.old start out.new result }
{
    let steps = rows_of(profile);
    if T::ALONE && FEW < part.len() - start.at {
        return run_mixed::<U, T, K>(start, part, out, table, steps);
    }
    run::<U, T, K>(start, part.len(), part, out, table, steps)
}

/// Takes scalars as long as no held position comes, and only those before a unit where scalars of one unit have a loop of
/// their own. It calls nothing, stands apart and is given no more than it needs, so that all it has stays in registers.
#[inline(never)]
pub(crate) fn run<U: Unit, T: Target, K: KindSource>(
    start: FillState,
    until: usize,
    text: &[U],
    out: &mut [RawBreak],
    kinds: &K,
    steps: &Rows,
) -> FillState
    requires place { IsInText start (length text.now) (length out.old) }
    requires until { until ≤ length text.now }
    requires steps { AreSteps steps.now }
    ensures { RunsOn T.entry T.onward U.pieces_of (K.kinds_of kinds.now) steps.now text.now out.old start out.new
        result }
{
    let mut count = start.count;
    let mut row = start.row;
    let mut at = start.at;
    let end = if T::ALONE { until } else { text.len() };
    while count < out.len() && at < end {
        let found = U::front(&text[at..]);
        let step = step_at(steps, row, kinds.kind_at(found.scalar as u32));
        if step.shown == HELD {
            break;
        }
        count = T::put(out, count, at, step.shown);
        row = step.next as usize;
        at += found.size;
    }
    FillState { count, row, at }
}

/// Takes one scalar, whatever it is, where one is left and the block has room for the position before it.
fn take_one<U: Unit, T: Target, K: KindSource>(
    table: &K,
    profile: Profile,
    here: FillState,
    text: &[U],
    out: &mut [RawBreak],
) -> FillState
    requires { IsInText here (length text.now) (length out.old) }
    ensures goes_on { GoesOn T.entry (length text.now) out.old here out.new result }
    ensures moves { here.count < length out.old → here.at < length text.now → here.at < result.at }
    ensures gives { (cell : ℕ → Cell) → IsFlatBy (K.kinds_of table.now) (K.pairs_of table.now) cell
        → GivesOf T.onward profile cell (on_from U.pieces_of text.now) out.old here out.new result }
{
    if out.len() <= here.count || text.len() <= here.at {
        return here;
    }
    let decided = decide_one(table, profile, here.row, here.at, text);
    FillState {
        count: T::put(out, here.count, here.at, decided.shown),
        row: decided.row,
        at: decided.at,
    }
}
