//! Scalars that the masks of a block leave to steps.

ghost use Rattle.std.specs.Prelude.{◌+◌, ◌<◌, length, true};
ghost use Rattle.lbk_bytes.specs.Terms.{AreSteps, IsPlace};
ghost use Rattle.lbk_bytes.specs.Steps.{IsSure, MayStep, StepsOn, TakesOne};

use crate::fill_state::FillState;
use crate::stepping::{runs, taken_whole, taken_wide};
use crate::target::Target;
use crate::width::{Four, LedThree, LedTwo};
use lbk_rules::{KindSource, Rows};

/// Takes the scalar of more than one byte at a byte of well-formed text, by the steps of the first profile, as `taken_wide`
/// does: less is looked at.
#[inline(always)]
fn taken_led<T: Target, K: KindSource>(
    target: T,
    kinds: &K,
    steps: &Rows,
    here: FillState,
    text: &[u8],
    out: &mut [T::Entry],
) -> Option<FillState>
    requires stands { T.takes target out.old here.count here.at × IsPlace here.row × AreSteps steps.now
        × (here.at < length text.now) }
    requires sure { IsSure true steps.now text.now }
    ensures { TakesOne (T.fits target) (T.in_order target) (T.reached target) steps.now (K.kinds_of kinds.now) text.now
        out.old here out.new result }
{
    let first = text[here.at];
    if 0xEF < first {
        return taken_whole::<false, Four, T, K>(target, kinds, steps, here, text, out);
    }
    if 0xDF < first {
        return taken_whole::<false, LedThree, T, K>(target, kinds, steps, here, text, out);
    }
    taken_whole::<false, LedTwo, T, K>(target, kinds, steps, here, text, out)
}

/// Takes a scalar of more than one byte, as `taken_led` does or as `taken_wide` does.
#[inline(always)]
fn taken_long<const SURE: bool, T: Target, K: KindSource>(
    target: T,
    kinds: &K,
    steps: &Rows,
    here: FillState,
    text: &[u8],
    out: &mut [T::Entry],
) -> Option<FillState>
    requires stands { T.takes target out.old here.count here.at × IsPlace here.row × AreSteps steps.now
        × (here.at < length text.now) }
    requires sure { IsSure SURE steps.now text.now }
    ensures { TakesOne (T.fits target) (T.in_order target) (T.reached target) steps.now (K.kinds_of kinds.now) text.now
        out.old here out.new result }
{
    if SURE {
        return taken_led(target, kinds, steps, here, text, out);
    }
    taken_wide::<true, T, K>(target, kinds, steps, here, text, out)
}

/// Takes the scalar at a byte, with no loop where it has more than one, or what else `runs` takes there.
#[inline(always)]
pub(crate) fn stray<const SURE: bool, T: Target, K: KindSource>(
    target: T,
    kinds: &K,
    steps: &Rows,
    here: FillState,
    text: &[u8],
    out: &mut [T::Entry],
) -> FillState
    requires steps { MayStep (T.fits target) steps.now text.now (here.at + 1) out.old here }
    requires sure { IsSure SURE steps.now text.now }
    ensures { StepsOn (T.fits target) (T.in_order target) (T.reached target) steps.now (K.kinds_of kinds.now) text.now
        (here.at + 1) out.old here out.new result }
{
    if 0x80 <= text[here.at] && !target.is_full(out, here.count) {
        let taken = taken_long::<SURE, T, K>(target, kinds, steps, here, text, out);
        if let Some(next) = taken {
            return next;
        }
    }
    runs::<false, T, K>(target, kinds, steps, here, here.at + 1, text, out)
}
