//! The loops that take scalars by steps, whatever is written of their positions.

ghost use Rattle.std.specs.Prelude.{◌≡◌, ◌+◌, ◌<◌, ◌≤◌, IfSome, true, false, length};
ghost use Rattle.lbk_bytes.specs.Terms.{AreSteps, First, IsPlace, steps_in};
ghost use Rattle.lbk_bytes.specs.Steps.{IsSure, MayStep, StepsOn, TakesOne};

use crate::fill_state::FillState;
use crate::pieces::pieces;
use crate::target::Target;
use crate::tries::begins_emoji;
use crate::width::{Four, LedThree, LedThreeOrFour, LedTwo, One, Three, ThreeOrFour, Two, Width};
use lbk_rules::{HELD, KindSource, Rows, step_at};

/// Takes scalars and ill-formed bytes that begin before a byte, up to a held position or the text's last bytes,
/// whatever may follow the text. The loop for common scalars calls nothing, so that all it has stays in registers.
#[inline(never)]
pub(crate) fn quick<const SURE: bool, T: Target, K: KindSource>(
    target: T,
    kinds: &K,
    steps: &Rows,
    start: FillState,
    stop: usize,
    text: &[u8],
    out: &mut [T::Entry],
) -> FillState
    requires steps { MayStep (T.fits target) steps.now text.now stop out.old start }
    requires sure { IsSure SURE steps.now text.now }
    ensures { StepsOn (T.fits target) (T.in_order target) (T.reached target) steps.now (K.kinds_of kinds.now) text.now
        stop out.old start out.new result }
{
    let mut here = start;
    while here.at < stop {
        let common = scalars::<SURE, T, K>(target, kinds, steps, here, stop, text, out);
        if stop <= common.at || target.is_full(out, common.count) {
            return common;
        }
        here = pieces(target, kinds, steps, common, stop, text, out);
        if here.at == common.at {
            return here;
        }
    }
    here
}

/// Takes common scalars that begin before a byte: well-formed ones, where no position is held.
#[inline(always)]
pub(crate) fn scalars<const SURE: bool, T: Target, K: KindSource>(
    target: T,
    kinds: &K,
    steps: &Rows,
    start: FillState,
    stop: usize,
    text: &[u8],
    out: &mut [T::Entry],
) -> FillState
    requires steps { MayStep (T.fits target) steps.now text.now stop out.old start }
    requires sure { IsSure SURE steps.now text.now }
    ensures { StepsOn (T.fits target) (T.in_order target) (T.reached target) steps.now (K.kinds_of kinds.now) text.now
        stop out.old start out.new result }
{
    let mut here = start;
    while here.at < stop {
        let past = runs::<SURE, T, K>(target, kinds, steps, here, stop, text, out);
        if past.at == here.at {
            return past;
        }
        here = past;
    }
    here
}

/// A run of scalars of four bytes, and then one of those of three and four: what joins and changes emoji has three. It
/// stands apart, so that the loops for other scalars keep their registers.
#[inline(never)]
pub(crate) fn emoji<T: Target, K: KindSource>(
    target: T,
    kinds: &K,
    steps: &Rows,
    start: FillState,
    stop: usize,
    text: &[u8],
    out: &mut [T::Entry],
) -> FillState
    requires { MayStep (T.fits target) steps.now text.now stop out.old start }
    ensures { StepsOn (T.fits target) (T.in_order target) (T.reached target) steps.now (K.kinds_of kinds.now) text.now
        stop out.old start out.new result }
{
    let behind = run::<true, Four, T, K>(target, kinds, steps, start, stop, text, out);
    if stop <= behind.at {
        return behind;
    }
    run::<true, ThreeOrFour, T, K>(target, kinds, steps, behind, stop, text, out)
}

/// Takes what `emoji` takes, if the text seems to begin with emoji here, and then what `scalars` takes.
#[inline(always)]
pub(crate) fn emoji_and_scalars<T: Target, K: KindSource>(
    target: T,
    kinds: &K,
    steps: &Rows,
    start: FillState,
    stop: usize,
    text: &[u8],
    out: &mut [T::Entry],
) -> FillState
    requires { MayStep (T.fits target) steps.now text.now stop out.old start }
    ensures { StepsOn (T.fits target) (T.in_order target) (T.reached target) steps.now (K.kinds_of kinds.now) text.now
        stop out.old start out.new result }
{
    let mut here = start;
    if begins_emoji(&text[start.at..]) {
        here = emoji(target, kinds, steps, start, stop, text, out);
        if stop <= here.at {
            return here;
        }
    }
    scalars::<false, T, K>(target, kinds, steps, here, stop, text, out)
}

/// A run of scalars of one byte, and then one of those that the next byte may begin. Each may be empty. `SURE`: the text
/// is well-formed and the steps are those of the first profile, so less is looked at, and behind a scalar of four bytes
/// those of three are taken with those of four: emoji consist of both.
#[inline(always)]
pub(crate) fn runs<const SURE: bool, T: Target, K: KindSource>(
    target: T,
    kinds: &K,
    steps: &Rows,
    start: FillState,
    stop: usize,
    text: &[u8],
    out: &mut [T::Entry],
) -> FillState
    requires steps { MayStep (T.fits target) steps.now text.now stop out.old start }
    requires sure { IsSure SURE steps.now text.now }
    ensures { StepsOn (T.fits target) (T.in_order target) (T.reached target) steps.now (K.kinds_of kinds.now) text.now
        stop out.old start out.new result }
{
    let past = one_run::<SURE, T, K>(target, kinds, steps, start, stop, text, out);
    if stop <= past.at {
        return past;
    }
    let first = text[past.at];
    match (SURE, first < 0xE0, first < 0xF0) {
        (true, true, _) => sure_run::<LedTwo, T, K>(target, kinds, steps, past, stop, text, out),
        (true, _, true) => sure_run::<LedThree, T, K>(target, kinds, steps, past, stop, text, out),
        (true, _, _) => {
            sure_run::<LedThreeOrFour, T, K>(target, kinds, steps, past, stop, text, out)
        }
        (false, true, _) => run::<true, Two, T, K>(target, kinds, steps, past, stop, text, out),
        (false, _, true) => run::<true, Three, T, K>(target, kinds, steps, past, stop, text, out),
        (false, _, _) => run::<true, Four, T, K>(target, kinds, steps, past, stop, text, out),
    }
}

/// A run of scalars of one byte, as `run` takes it, or as `sure_run` does.
#[inline(always)]
fn one_run<const SURE: bool, T: Target, K: KindSource>(
    target: T,
    kinds: &K,
    steps: &Rows,
    start: FillState,
    stop: usize,
    text: &[u8],
    out: &mut [T::Entry],
) -> FillState
    requires steps { MayStep (T.fits target) steps.now text.now stop out.old start }
    requires sure { SURE ≡ true → steps.now ≡ steps_in First }
    ensures { StepsOn (T.fits target) (T.in_order target) (T.reached target) steps.now (K.kinds_of kinds.now) text.now
        stop out.old start out.new result }
{
    if SURE {
        return sure_run::<One, T, K>(target, kinds, steps, start, stop, text, out);
    }
    run::<true, One, T, K>(target, kinds, steps, start, stop, text, out)
}

/// A run in well-formed text, by the steps of the first profile: no position is held. How far there is room is counted
/// once.
#[inline(always)]
fn sure_run<W: Width, T: Target, K: KindSource>(
    target: T,
    kinds: &K,
    steps: &Rows,
    start: FillState,
    stop: usize,
    text: &[u8],
    out: &mut [T::Entry],
) -> FillState
    requires steps { MayStep (T.fits target) steps.now text.now stop out.old start }
    requires known { W.known text.now }
    requires sure { steps.now ≡ steps_in First }
    ensures { StepsOn (T.fits target) (T.in_order target) (T.reached target) steps.now (K.kinds_of kinds.now) text.now
        stop out.old start out.new result }
{
    let mut here = start;
    let room = target.room_to(out, start.count, start.at, W::least(), stop);
    let end = room.min(text.len().saturating_sub(W::more()));
    'taking: while here.at < end {
        let Some(next) = taken::<false, W, T, K>(target, kinds, steps, here, text, out) else {
            break;
        };
        here = next;
    }
    here
}

/// A run of scalars of one width. In a text most scalars have the width of the one before, so a loop of its own for
/// each width seldom goes where the processor does not expect it.
#[inline(always)]
pub(crate) fn run<const HOLDS: bool, W: Width, T: Target, K: KindSource>(
    target: T,
    kinds: &K,
    steps: &Rows,
    start: FillState,
    stop: usize,
    text: &[u8],
    out: &mut [T::Entry],
) -> FillState
    requires steps { MayStep (T.fits target) steps.now text.now stop out.old start }
    requires settled { HOLDS ≡ false → steps.now ≡ steps_in First }
    requires known { W.known text.now }
    ensures { StepsOn (T.fits target) (T.in_order target) (T.reached target) steps.now (K.kinds_of kinds.now) text.now
        stop out.old start out.new result }
{
    let mut here = start;
    let end = stop.min(text.len().saturating_sub(W::more()));
    'taking: while !target.is_full(out, here.count) && here.at < end {
        let Some(next) = taken::<HOLDS, W, T, K>(target, kinds, steps, here, text, out) else {
            break;
        };
        here = next;
    }
    here
}

/// Takes a common scalar of one width, and returns where the call stands then. None comes, and nothing is written,
/// where none begins or its position is held. In the first profile none is, and by its steps a loop may leave the look
/// out (`HOLDS`).
#[inline(always)]
fn taken<const HOLDS: bool, W: Width, T: Target, K: KindSource>(
    target: T,
    kinds: &K,
    steps: &Rows,
    here: FillState,
    text: &[u8],
    out: &mut [T::Entry],
) -> Option<FillState>
    requires stands { T.takes target out.old here.count here.at × IsPlace here.row × AreSteps steps.now
        × (here.at + W.most_more < length text.now) }
    requires settled { HOLDS ≡ false → steps.now ≡ steps_in First }
    requires known { W.known text.now }
    ensures takes { TakesOne (T.fits target) (T.in_order target) (T.reached target) steps.now (K.kinds_of kinds.now) text.now
        out.old here out.new result }
    ensures few { IfSome result (λ next. (next.count ≤ here.count + 1) × (here.at + W.least_size ≤ next.at)) }
{
    let scalar = W::scalar_at(text, here.at)?;
    let step = step_at(steps, here.row, kinds.kind_at(scalar.code));
    if HOLDS && step.shown == HELD {
        return None;
    }
    let count = target.put(out, here.count, here.at, step.shown);
    Some(FillState {
        count,
        row: step.next as usize,
        at: here.at + scalar.size,
    })
}

/// Does the same where the text may end within a scalar of this width.
#[inline(always)]
pub(crate) fn taken_whole<const HOLDS: bool, W: Width, T: Target, K: KindSource>(
    target: T,
    kinds: &K,
    steps: &Rows,
    here: FillState,
    text: &[u8],
    out: &mut [T::Entry],
) -> Option<FillState>
    requires stands { T.takes target out.old here.count here.at × IsPlace here.row × AreSteps steps.now
        × (here.at < length text.now) }
    requires settled { HOLDS ≡ false → steps.now ≡ steps_in First }
    requires known { W.known text.now }
    ensures { TakesOne (T.fits target) (T.in_order target) (T.reached target) steps.now (K.kinds_of kinds.now) text.now
        out.old here out.new result }
{
    if text.len() - here.at <= W::more() {
        return None;
    }
    taken::<HOLDS, W, T, K>(target, kinds, steps, here, text, out)
}

/// Does the same with a scalar of more than one byte, of the width that its first byte says.
#[inline(always)]
pub(crate) fn taken_wide<const HOLDS: bool, T: Target, K: KindSource>(
    target: T,
    kinds: &K,
    steps: &Rows,
    here: FillState,
    text: &[u8],
    out: &mut [T::Entry],
) -> Option<FillState>
    requires stands { T.takes target out.old here.count here.at × IsPlace here.row × AreSteps steps.now
        × (here.at < length text.now) }
    requires settled { HOLDS ≡ false → steps.now ≡ steps_in First }
    ensures { TakesOne (T.fits target) (T.in_order target) (T.reached target) steps.now (K.kinds_of kinds.now) text.now
        out.old here out.new result }
{
    let first = text[here.at];
    if 0xEF < first {
        return taken_whole::<HOLDS, Four, T, K>(target, kinds, steps, here, text, out);
    }
    if 0xDF < first {
        return taken_whole::<HOLDS, Three, T, K>(target, kinds, steps, here, text, out);
    }
    taken_whole::<HOLDS, Two, T, K>(target, kinds, steps, here, text, out)
}

/// Takes common scalars that begin before a byte, as `scalars` does. In a few bytes a loop for each width would cost
/// more.
#[inline(always)]
pub(crate) fn mixed<const HOLDS: bool, T: Target, K: KindSource>(
    target: T,
    kinds: &K,
    steps: &Rows,
    start: FillState,
    stop: usize,
    text: &[u8],
    out: &mut [T::Entry],
) -> FillState
    requires steps { MayStep (T.fits target) steps.now text.now stop out.old start }
    requires settled { HOLDS ≡ false → steps.now ≡ steps_in First }
    ensures { StepsOn (T.fits target) (T.in_order target) (T.reached target) steps.now (K.kinds_of kinds.now) text.now
        stop out.old start out.new result }
{
    let mut here = start;
    'taking: while here.at < stop {
        here = run::<HOLDS, One, T, K>(target, kinds, steps, here, stop, text, out);
        if stop <= here.at || target.is_full(out, here.count) {
            break;
        }
        let Some(next) = taken_wide::<HOLDS, T, K>(target, kinds, steps, here, text, out) else {
            break;
        };
        here = next;
    }
    here
}
