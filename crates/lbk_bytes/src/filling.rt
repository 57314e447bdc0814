//! A block that is filled with breaks.

ghost use Rattle.std.specs.Prelude.{◌≡◌, ℕ, ◌+◌, ◌<◌, ◌≤◌, ◌++◌, [], true, false, IfSome, IsUtf8, List, length, take};
ghost use Rattle.lbk_bytes.specs.Terms.{Cell, First, IsFlatBy, IsPlace, IsShown, verdict_shown};
ghost use Rattle.lbk_bytes.specs.Bytes.{with_break};
ghost use Rattle.lbk_bytes.specs.Order.{AreBreaks, AreInOrder};
ghost use Rattle.lbk_bytes.specs.Reached.{Ahead, IsInOrder, Reached};
ghost use Rattle.lbk_bytes.specs.Shown.{given_in};
ghost use Rattle.lbk_bytes.specs.Roomy.{BreaksOn, Holds};
ghost use Rattle.lbk_bytes.specs.Steps.{Fills, FillsIn, GoesIn, IsInText, IsSure, MayStep};

use crate::block_marks::{BLOCK, LEAST};
use crate::blocks::blocks;
use crate::fill_state::FillState;
use crate::held::take_ones;
use crate::raw_break::RawBreak;
use crate::roomy::roomy;
use crate::stepping::{emoji, mixed, quick, scalars};
use crate::target::{AmpleBreaks, Breaks};
use crate::tries::{are_near, begins_emoji, next_try};
use lbk_rules::{KindSource, Profile, Rows, rows_of, shows_break};

/// Goes on until the block is full or the text ends, and writes the breaks before the scalars taken after those in
/// the front of the block. In a text of fewer than 64 bytes the scalars that no block takes are gone over here, with
/// no call, as long as they are common. The breaks are the same with masks, by which blocks of bytes are taken, and
/// without: these are for targets that have no vectors. They are the same, too, where emoji are expected at the front, and
/// where the text is known to be well-formed and the profile is the first (`SURE`): then less is looked at.
#[inline(always)]
pub fn fill<const MASKS: bool, const EMOJI: bool, const SURE: bool, K: KindSource>(
    table: &K,
    profile: Profile,
    start: FillState,
    text: &[u8],
    out: &mut [RawBreak],
) -> FillState
    requires within { IsInText start (length text.now) (length out.old) }
    requires sure { SURE ≡ true → (profile ≡ First) × IsUtf8 text.now }
    ensures { Fills profile (K.kinds_of table.now) (K.pairs_of table.now) text.now out.old start out.new result }
{
    if start.count == out.len() {
        return start;
    }
    let begun = begin::<MASKS, EMOJI, K>(table, profile, start, text, out);
    if begun.count == out.len() || begun.at == text.len() {
        return begun;
    }
    copied(fill_on::<MASKS, SURE, K>(table, profile, copied(begun), text, out))
}

/// Fewer bytes than this are few. No block takes them, so one loop does.
pub const FEW: usize = LEAST;

/// Takes common scalars, with no call, where the block has room for more breaks than bytes are left. What it leaves is
/// for `fill_on`.
#[inline(always)]
pub fn fill_few<const HOLDS: bool, K: KindSource>(
    table: &K,
    profile: Profile,
    start: FillState,
    text: &[u8],
    out: &mut [RawBreak],
) -> FillState
    requires room { IsInText start (length text.now) (length out.old)
        × (start.count + length text.now < length out.old + start.at) }
    requires settled { HOLDS ≡ false → profile ≡ First }
    ensures in_room { result.count + length text.now < length out.old + result.at }
    ensures fills { FillsIn profile (K.kinds_of table.now) (K.pairs_of table.now) text.now out.old start out.new result }
{
    mixed::<HOLDS, AmpleBreaks, K>(
        AmpleBreaks,
        table,
        rows_of(profile),
        start,
        text.len(),
        text,
        out,
    )
}

/// Takes common scalars at the front: emoji, where they are expected, and those of a text of fewer than 64 bytes.
#[inline(always)]
fn begin<const MASKS: bool, const EMOJI: bool, K: KindSource>(
    table: &K,
    profile: Profile,
    start: FillState,
    text: &[u8],
    out: &mut [RawBreak],
) -> FillState
    requires { IsInText start (length text.now) (length out.old) }
    ensures { FillsIn profile (K.kinds_of table.now) (K.pairs_of table.now) text.now out.old start out.new result }
{
    if EMOJI {
        let here = emoji_first(table, profile, start, text, out);
        return short::<false, K>(table, profile, here, text, out);
    }
    short::<MASKS, K>(table, profile, start, text, out)
}

/// Takes the emoji at the front, if the text seems to begin with some.
#[inline(always)]
fn emoji_first<K: KindSource>(
    table: &K,
    profile: Profile,
    start: FillState,
    text: &[u8],
    out: &mut [RawBreak],
) -> FillState
    requires { IsInText start (length text.now) (length out.old) }
    ensures { FillsIn profile (K.kinds_of table.now) (K.pairs_of table.now) text.now out.old start out.new result }
{
    if !begins_emoji(&text[start.at..]) {
        return start;
    }
    copied(emoji(
        Breaks,
        table,
        rows_of(profile),
        start,
        text.len(),
        text,
        out,
    ))
}

/// Takes the common scalars of a text of fewer than 64 bytes. A block comes first, unless they are very few or of
/// scalars that a block leaves to steps.
#[inline(always)]
fn short<const MASKS: bool, K: KindSource>(
    table: &K,
    profile: Profile,
    start: FillState,
    text: &[u8],
    out: &mut [RawBreak],
) -> FillState
    requires { IsInText start (length text.now) (length out.old) }
    ensures { FillsIn profile (K.kinds_of table.now) (K.pairs_of table.now) text.now out.old start out.new result }
{
    let left = text.len() - start.at;
    if BLOCK <= left {
        return start;
    }
    let steps = rows_of(profile);
    let mut here = start;
    if MASKS && LEAST <= left && are_near(&text[start.at..]) {
        here = copied(blocks::<MASKS, false, K>(table, steps, start, text, out));
    }
    scalars::<false, Breaks, K>(Breaks, table, steps, here, text.len(), text, out)
}

/// The same state, field by field. A state that a call takes or returns stands in memory, and a copy of it in
/// registers.
#[inline(always)]
fn copied(state: FillState) -> FillState
    ensures { result ≡ state }
{
    FillState {
        count: state.count,
        row: state.row,
        at: state.at,
    }
}

/// Does what `fill` does by blocks of bytes and single scalars in turn, in a text of any length.
#[inline(never)]
pub fn fill_on<const MASKS: bool, const SURE: bool, K: KindSource>(
    table: &K,
    profile: Profile,
    start: FillState,
    text: &[u8],
    out: &mut [RawBreak],
) -> FillState
    requires within { IsInText start (length text.now) (length out.old) }
    requires sure { SURE ≡ true → (profile ≡ First) × IsUtf8 text.now }
    ensures { Fills profile (K.kinds_of table.now) (K.pairs_of table.now) text.now out.old start out.new result }
{
    let mut here = start;
    while here.count < out.len() && here.at < text.len() {
        here = further::<MASKS, SURE, K>(table, profile, here, text, out);
    }
    here
}

/// Takes emoji, blocks of bytes, scalars and ill-formed bytes until a held position comes, the block is full or the last
/// bytes of the text come, whatever may follow the text.
#[inline(never)]
pub fn fill_common<K: KindSource>(
    table: &K,
    profile: Profile,
    start: FillState,
    text: &[u8],
    out: &mut [RawBreak],
) -> FillState
    requires { IsInText start (length text.now) (length out.old) }
    ensures { FillsIn profile (K.kinds_of table.now) (K.pairs_of table.now) text.now out.old start out.new result }
{
    if start.at == text.len() {
        return start;
    }
    let here = emoji_first(table, profile, start, text, out);
    if here.at == text.len() {
        return here;
    }
    let mut part = common_part::<true, false, K>(table, profile, here, text, out);
    while part.until <= part.here.at && part.here.at < text.len() {
        part = common_part::<true, false, K>(table, profile, part.here, text, out);
    }
    part.here
}

/// Takes blocks of bytes and then some scalars, at least one of them or a break more.
#[inline(always)]
fn further<const MASKS: bool, const SURE: bool, K: KindSource>(
    table: &K,
    profile: Profile,
    here: FillState,
    text: &[u8],
    out: &mut [RawBreak],
) -> FillState
    requires stands { (here.count < length out.old) × IsPlace here.row × (here.at < length text.now) }
    requires sure { SURE ≡ true → (profile ≡ First) × IsUtf8 text.now }
    ensures goes { GoesIn text.now out.old here out.new result }
    ensures moves { here.count + here.at < result.count + result.at }
    ensures reached { (cell : ℕ → Cell) (all : Ahead) → IsFlatBy (K.kinds_of table.now) (K.pairs_of table.now) cell
        → Reached profile cell text.now all here (given_in out.old here.count)
        → Reached profile cell text.now all result (given_in out.new result.count) }
{
    let part = common_part::<MASKS, SURE, K>(table, profile, here, text, out);
    if part.here.at < part.until && part.here.count < out.len() {
        return take_ones(Breaks, table, profile, part.here, text.len(), text, out);
    }
    part.here
}

/// How far a part of a text was taken, and up to where it goes.
#[derive(Clone, Copy)]
pub(crate) struct Part {
    /// How far a call got.
    pub(crate) here: FillState,
    /// Where blocks are tried again.
    pub(crate) until: usize,
}

/// Takes blocks of bytes and then common scalars, up to the first that begins where blocks are tried again or after
/// it, unless another scalar comes or the block is full before.
#[inline(always)]
fn common_part<const MASKS: bool, const SURE: bool, K: KindSource>(
    table: &K,
    profile: Profile,
    here: FillState,
    text: &[u8],
    out: &mut [RawBreak],
) -> Part
    requires stands { (here.count ≤ length out.old) × IsPlace here.row × (here.at < length text.now) }
    requires sure { SURE ≡ true → (profile ≡ First) × IsUtf8 text.now }
    ensures within { (result.here.count ≤ length out.old) × IsPlace result.here.row
        × (result.here.at ≤ length text.now) × (result.until ≤ length text.now) }
    ensures onward { (here.count ≤ result.here.count) × (here.at ≤ result.here.at) × (here.at < result.until) }
    ensures in_order { (from : ℕ) → IsInOrder out.old here.count from here.at
        → IsInOrder out.new result.here.count from result.here.at }
    ensures reached { (cell : ℕ → Cell) (more : List ℕ) (all : Ahead)
        → IsFlatBy (K.kinds_of table.now) (K.pairs_of table.now) cell
        → Reached profile cell (text.now ++ more) all here (given_in out.old here.count)
        → Reached profile cell (text.now ++ more) all result.here (given_in out.new result.here.count) }
{
    let steps = rows_of(profile);
    let there = blocks::<MASKS, SURE, K>(table, steps, here, text, out);
    let until = next_try::<MASKS>(there.at, text);
    Part {
        here: singles::<SURE, K>(table, steps, there, until, text, out),
        until,
    }
}

/// Takes scalars and ill-formed bytes as `quick` does, and before them those that `roomy` takes.
#[inline(always)]
fn singles<const SURE: bool, K: KindSource>(
    table: &K,
    steps: &Rows,
    start: FillState,
    stop: usize,
    text: &[u8],
    out: &mut [RawBreak],
) -> FillState
    requires steps { MayStep Holds steps.now text.now stop out.old start }
    requires sure { IsSure SURE steps.now text.now }
    ensures { BreaksOn steps.now (K.kinds_of table.now) text.now stop out.old start out.new result }
{
    if SURE {
        let here = roomy(table, steps, start, stop, text, out);
        if stop <= here.at {
            return here;
        }
        return quick::<true, Breaks, K>(Breaks, table, steps, here, stop, text, out);
    }
    quick::<false, Breaks, K>(Breaks, table, steps, start, stop, text, out)
}

/// Writes the verdict of a number after the breaks in the front of the block, and returns how many these are now: one
/// more, if it is a break.
#[inline(always)]
pub fn put(out: &mut [RawBreak], count: usize, at: usize, shown: u16) -> usize
    requires room { count < length out.old }
    requires shown { IsShown shown }
    ensures within { (result ≤ length out.old) × (count ≤ result) × (result ≤ count + 1) }
    ensures kept { take count out.new ≡ take count out.old }
    ensures breaks { AreBreaks out.old count → AreBreaks out.new result }
    ensures in_order { (from to : ℕ) → at < to → IsInOrder out.old count from at → AreInOrder out.new result from to }
    ensures front { given_in out.new result ≡ given_in out.old count ++ with_break at (verdict_shown shown) [] }
{
    let place = &mut out[count];
    place.at = at;
    place.kind = (shown % 256) as u8;
    place.rule = (shown / 256) as u8;
    count + usize::from(shows_break(shown))
}
