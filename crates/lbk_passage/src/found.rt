//! The breaks of a text, found a block at a time by the engine for bytes.

ghost use Rattle.std.specs.Prelude.{◌≡◌, ◌+◌, ◌≤◌, ◌++◌, ℕ, List, true, length, take};
ghost use Rattle.lbk_bytes.specs.Terms.{First};
ghost use Rattle.lbk_rules.specs.declared.Break.{Break};
ghost use Rattle.lbk_rules.specs.declared.neighbours.Neighbours.{Neighbours};
ghost use Rattle.lbk_rules.specs.FlatTable.{IsFlatBy};
ghost use Rattle.lbk_bytes.specs.Order.{AreBreaks};
ghost use Rattle.lbk_bytes.specs.Shown.{given_in, raw_of};
ghost use Rattle.lbk_bytes.specs.Steps.{Fills, IsInText};
ghost use Rattle.lbk_passage.specs.Found.{FindsNext, IsFound};
ghost use Rattle.lbk_passage.specs.Passages.{is_must};

use crate::near_kinds::NearKinds;
use lbk_bytes::{FillState, RawBreak, fill, put_end};
use lbk_rules::{Break, CellSource, CellTable, KindSource, Profile, verdict_of};

/// The first byte value with which a scalar of three bytes or more begins.
const LONG: u8 = 0xE0;

/// The number of `Kind::Must`.
const MUST: u8 = 2;

/// How far the breaks of a text were found.
#[derive(Clone, Copy)]
pub(crate) struct Progress {
    /// How many were found, and where the engine goes on.
    pub(crate) state: FillState,
    /// Whether the end was found.
    pub(crate) ended: bool,
}

/// Before the first break.
pub(crate) const START: Progress = Progress {
    state: FillState {
        count: 0,
        row: 0,
        at: 0,
    },
    ended: false,
};

/// A break that stands where a block has none.
pub(crate) const NO_BREAK: RawBreak = RawBreak {
    at: 0,
    kind: 0,
    rule: 0,
};

/// Writes the next breaks of a text into the front of a block, as many as it holds or all that are left, and returns
/// how far they were found.
pub(crate) fn find<C: CellSource>(
    cells: &C,
    profile: Profile,
    text: &str,
    from: Progress,
    out: &mut [RawBreak],
) -> Progress
    requires { IsFound profile (C.cell_of cells.now) text.now from }
    ensures { FindsNext profile (C.cell_of cells.now) text.now from result (length out.old) out.new }
{
    if from.ended {
        return from;
    }
    let start = FillState {
        count: 0,
        row: from.state.row,
        at: from.state.at,
    };
    let here = fill_by(cells, profile, start, text, out);
    if here.count == out.len() {
        return Progress {
            state: FillState {
                count: from.state.count + here.count,
                row: here.row,
                at: here.at,
            },
            ended: false,
        };
    }
    let count = put_end(false, here.row, out, here.count, text.len());
    Progress {
        state: FillState {
            count: from.state.count + count,
            row: here.row,
            at: here.at,
        },
        ended: true,
    }
}

/// Fills a block of breaks by the kinds of these cells, as the source keeps them.
#[inline(always)]
fn fill_by<C: CellSource>(
    cells: &C,
    profile: Profile,
    start: FillState,
    text: &str,
    out: &mut [RawBreak],
) -> FillState
    requires { IsInText start (length text.now) (length out.old) }
    ensures { (kinds : List ℕ) × (pairs : Neighbours) × IsFlatBy kinds pairs (C.cell_of cells.now)
        × Fills profile kinds pairs text.now out.old start out.new result }
{
    let Some(table) = NearKinds::of(cells, cells.kinds()) else {
        return fill_from::<false, CellTable<'_, C>>(
            &CellTable::new(cells),
            profile,
            start,
            text,
            out,
        );
    };
    match profile {
        Profile::First => { fill_from::<true, NearKinds<'_, C>>(&table, profile, start, text, out) }
        Profile::Second => {
            fill_from::<false, NearKinds<'_, C>>(&table, profile, start, text, out)
        }
    }
}

/// Fills a block of breaks, by blocks of bytes and by steps, or by steps alone where a scalar of three bytes or more comes
/// first: such scalars are then usual, and blocks leave them to steps. `SURE`: the profile is the first.
#[inline(always)]
fn fill_from<const SURE: bool, K: KindSource>(
    table: &K,
    profile: Profile,
    start: FillState,
    text: &str,
    out: &mut [RawBreak],
) -> FillState
    requires within { IsInText start (length text.now) (length out.old) }
    requires sure { SURE ≡ true → profile ≡ First }
    ensures { Fills profile (K.kinds_of table.now) (K.pairs_of table.now) text.now out.old start out.new result }
{
    let bytes = text.as_bytes();
    if start.at < bytes.len() && LONG <= bytes[start.at] {
        return fill::<false, false, SURE, K>(table, profile, start, bytes, out);
    }
    fill::<true, false, SURE, K>(table, profile, start, bytes, out)
}

/// A break by its numbers.
#[inline(always)]
pub(crate) fn break_of(raw: RawBreak) -> Break
    ensures { (found : Break) → raw ≡ raw_of found → result ≡ found }
{
    let verdict = verdict_of(256 * u16::from(raw.rule) + u16::from(raw.kind));
    Break {
        at: raw.at,
        kind: verdict.kind,
        rule: verdict.rule,
    }
}

/// Whether a line must end at a break, by its numbers.
#[inline(always)]
pub(crate) fn must_end_at(raw: RawBreak) -> bool
    ensures { (found : Break) → raw ≡ raw_of found → result ≡ is_must found.kind }
{
    raw.kind == MUST
}

/// Writes the breaks in the front of a block of numbers after those in the front of another block.
pub(crate) fn put_breaks(raw: &[RawBreak], some: usize, block: &mut [Break], count: usize)
    requires room { (some ≤ length raw.now) × (count + some ≤ length block.old) }
    requires breaks { AreBreaks raw.now some }
    ensures { take (count + some) block.new ≡ take count block.old ++ given_in raw.now some }
{
    for k in 0..some {
        block[count + k] = break_of(raw[k]);
    }
}
