//! Scalars of any width and ill-formed bytes, where they are mixed.

ghost use Rattle.lbk_bytes.specs.Steps.{MayStep, StepsOn};

use crate::decoding::{ENOUGH, REPLACEMENT, piece_of};
use crate::fill_state::FillState;
use crate::target::Target;
use crate::tries::patience_after;
use lbk_rules::{HELD, KindSource, Rows, step_at};

/// How many common scalars are taken here behind one that is not. Behind more of them the loops for scalars of one
/// width are faster.
const PATIENCE: usize = 4;

/// Takes scalars and ill-formed bytes that begin before a byte, whatever may follow the text, until some common
/// scalars come one after another, or a held position. Those in the last bytes of a text may go on behind it, and
/// are left.
#[cold]
#[inline(never)]
pub(crate) fn pieces<T: Target, K: KindSource>(
    target: T,
    kinds: &K,
    steps: &Rows,
    start: FillState,
    stop: usize,
    text: &[u8],
    out: &mut [T::Entry],
) -> FillState
    requires { MayStep (T.fits target) steps.now text.now stop out.old start }
    ensures { StepsOn (T.fits target) (T.in_order target) (T.reached target) steps.now (K.kinds_of kinds.now) text.now
        stop out.old start out.new result }
{
    let mut count = start.count;
    let mut row = start.row;
    let mut at = start.at;
    let mut patience = PATIENCE;
    let end = stop.min(text.len().saturating_sub(ENOUGH - 1));
    'taking: while !target.is_full(out, count) && at < end && 0 < patience {
        let piece = piece_of(&text[at..]);
        let step = step_at(steps, row, kinds.kind_at(piece.code));
        if step.shown == HELD {
            break;
        }
        count = target.put(out, count, at, step.shown);
        row = step.next as usize;
        at += piece.size;
        patience = patience_after(piece.code == REPLACEMENT, PATIENCE, patience);
    }
    FillState { count, row, at }
}
