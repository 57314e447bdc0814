//! Scalars that are taken into a block with much room.

ghost use Rattle.std.specs.Prelude.{true};
ghost use Rattle.lbk_bytes.specs.Roomy.{BreaksOn, Holds};
ghost use Rattle.lbk_bytes.specs.Steps.{IsSure, MayStep, StepsOn};

use crate::fill_state::FillState;
use crate::raw_break::RawBreak;
use crate::stepping::scalars;
use crate::target::{AmpleBreaks, Target};
use lbk_rules::{KindSource, Rows};

/// Room for so many breaks is much.
const MUCH: usize = 64;

/// Takes common scalars of well-formed text by the steps of the first profile, as long as the block has much room. How
/// much it has is counted once for many runs: a scalar has a byte at least, and gives one break at most.
#[inline(always)]
pub(crate) fn roomy<K: KindSource>(
    kinds: &K,
    steps: &Rows,
    start: FillState,
    stop: usize,
    text: &[u8],
    out: &mut [RawBreak],
) -> FillState
    requires steps { MayStep Holds steps.now text.now stop out.old start }
    requires sure { IsSure true steps.now text.now }
    ensures { BreaksOn steps.now (K.kinds_of kinds.now) text.now stop out.old start out.new result }
{
    let mut here = start;
    while here.at < stop && MUCH < out.len() - here.count {
        let room = out.len() - here.count - 1;
        let end = stop.min(here.at.saturating_add(room));
        let next = ample(AmpleBreaks, kinds, steps, here, end, text, out);
        if next.at == here.at {
            return next;
        }
        here = next;
    }
    here
}

/// Takes common scalars of well-formed text where the block has room for all of them.
#[inline(never)]
fn ample<K: KindSource>(
    target: AmpleBreaks,
    kinds: &K,
    steps: &Rows,
    start: FillState,
    stop: usize,
    text: &[u8],
    out: &mut [RawBreak],
) -> FillState
    requires steps { MayStep (⟦<AmpleBreaks as Target>⟧.fits target) steps.now text.now stop out.old start }
    requires sure { IsSure true steps.now text.now }
    ensures { StepsOn (⟦<AmpleBreaks as Target>⟧.fits target) (⟦<AmpleBreaks as Target>⟧.in_order target)
        (⟦<AmpleBreaks as Target>⟧.reached target) steps.now (K.kinds_of kinds.now) text.now stop out.old start out.new
        result }
{
    scalars::<true, AmpleBreaks, K>(target, kinds, steps, start, stop, text, out)
}
