//! The loops over units most of which are scalars by themselves.

ghost use Rattle.std.specs.Prelude.{◌≡◌, ◌+◌, ◌≤◌, length};
ghost use Rattle.lbk_units.specs.Filling.{IsInText, RunsOn};
ghost use Rattle.lbk_units.specs.Terms.{AreSteps};

use crate::filling::run;
use crate::target::Target;
use lbk_bytes::{FillState, RawBreak, Unit};
use lbk_rules::{HELD, KindSource, Rows, step_at};

/// How many units are few: the loop is not begun for fewer, and where it ends sooner, more go by the other one.
pub(crate) const FEW: usize = 16;

/// The most units that go by the other loop before this one is tried again.
const MOST: usize = 2048;

/// Takes scalars until a held position comes, the block is full or the text ends. Where a pair of units ends the loop for
/// scalars of one unit, some go by the other loop before that one is tried again: more each time, as long as it soon ends
/// again.
#[inline(never)]
pub(crate) fn run_mixed<U: Unit, T: Target, K: KindSource>(
    start: FillState,
    text: &[U],
    out: &mut [RawBreak],
    kinds: &K,
    steps: &Rows,
) -> FillState
    requires place { IsInText start (length text.now) (length out.old) }
    requires steps { AreSteps steps.now }
    ensures { RunsOn T.entry T.onward U.pieces_of (K.kinds_of kinds.now) steps.now text.now out.old start out.new
        result }
{
    let mut here = start;
    let mut some = FEW;
    loop {
        let free = (out.len() - here.count).min(text.len() - here.at);
        if free <= FEW {
            return run::<U, T, K>(here, text.len(), text, out, kinds, steps);
        }
        let end = here.at + free;
        let past = run_alone::<U, T, K>(here, end, text, out, kinds, steps);
        if past.at == end {
            here = past;
            continue;
        }
        some = if past.at - here.at < FEW {
            MOST.min(4 * some)
        } else {
            FEW
        };
        let until = past.at + some.min(text.len() - past.at);
        let next = run::<U, T, K>(past, until, text, out, kinds, steps);
        if next.at < until {
            return next;
        }
        here = next;
    }
}

/// Takes scalars of one unit that begin before a unit, as long as no held position comes. The block has room for a
/// position before each, so that one test a scalar tells whether it is the last. It calls nothing and stands apart, as
/// `run`.
#[inline(never)]
fn run_alone<U: Unit, T: Target, K: KindSource>(
    start: FillState,
    end: usize,
    text: &[U],
    out: &mut [RawBreak],
    kinds: &K,
    steps: &Rows,
) -> FillState
    requires place { IsInText start (length text.now) (length out.old) }
    requires end { (end ≤ length text.now) × (start.count + end ≤ length out.old + start.at) }
    requires steps { AreSteps steps.now }
    ensures { RunsOn T.entry T.onward U.pieces_of (K.kinds_of kinds.now) steps.now text.now out.old start out.new
        result }
{
    let mut count = start.count;
    let mut row = start.row;
    let mut at = start.at;
    while at < end {
        let Some(code) = U::alone(&text[at..]) else {
            break;
        };
        let step = step_at(steps, row, kinds.kind_at(code));
        if step.shown == HELD {
            break;
        }
        count = T::put(out, count, at, step.shown);
        row = step.next as usize;
        at += 1;
    }
    FillState { count, row, at }
}
