//! Makes disjoint ranges of overlapping ones.
ghost use Rattle.std.specs.Prelude.{◌≡◌, ◌<◌, ◌≤◌, ℕ, true, false, length, reverse, IfOk, OnErr};
ghost use Rattle.std.specs.List.{All, AllPairs};
ghost use Rattle.lbk_ucd.specs.Ranges.{IsInOrder, IsOverlay, IsRange};
ghost use Rattle.lbk_ucd.specs.Rows.{AreApart, first_value};

use crate::ranges::{InOrder, LAST_CODE, Ranges, Row};
use std::alloc::{AllocError, Global};

/// Disjoint rows, sorted by code point.
pub(crate) fn sorted<V: Copy>(rows: Vec<Row<V>>) -> Result<Vec<Row<V>>, AllocError>
    requires ranges { All IsRange rows.items }
    requires apart { AllPairs AreApart rows.items }
    ensures ordered { IfOk result (λ sorted. IsInOrder sorted.items) }
    ensures values { IfOk result (λ sorted. (code : ℕ) → first_value code sorted.items
        ≡ first_value code rows.items) }
    ensures refused { OnErr result (0 < length rows.items) }
{
    let mut sorted = rows;
    sorted.sort_by_key(|row| row.first)?;
    Ok(sorted)
}

/// Disjoint rows, sorted by code point; a code point has the value of the last given row that has it.
pub(crate) fn flatten<V: Copy>(
    alloc: Global,
    ranges: &Ranges<'_, V>,
) -> Result<Vec<Row<V>>, AllocError>
    ensures ordered { IfOk result (λ flat. IsInOrder flat.items) }
    ensures values { IfOk result (λ flat. (code : ℕ) → first_value code flat.items
        ≡ first_value code (reverse ranges.now.rows.now)) }
{
    let rows = ranges.rows;
    if are_in_order(ranges) {
        return Vec::from_slice(alloc, rows);
    }
    let (earlier, later) = rows.split_at(rows.len() / 2);
    let under = flatten(alloc, &Ranges { rows: earlier })?;
    let over = flatten(alloc, &Ranges { rows: later })?;
    overlay(alloc, &InOrder { rows: &under }, &InOrder { rows: &over })
}

/// Sorted rows; a code point has its value in `over`, or else in `under`.
pub(crate) fn overlay<V: Copy>(
    alloc: Global,
    under: &InOrder<'_, V>,
    over: &InOrder<'_, V>,
) -> Result<Vec<Row<V>>, AllocError>
    ensures ordered { IfOk result (λ rows. IsInOrder rows.items) }
    ensures values { IfOk result (λ rows. IsOverlay under.now.rows.now over.now.rows.now rows.items) }
{
    let mut rows = Vec::new(alloc);
    let mut from = 0;
    let mut low = 0;
    let mut high = 0;
    while from <= LAST_CODE {
        low = under.next_from(low, from);
        high = over.next_from(high, from);
        let below = under.stretch_from(low, from);
        let above = over.stretch_from(high, from);
        let last = below.last.min(above.last);
        if let Some(value) = above.value.or(below.value) {
            rows.push(Row {
                first: from,
                last,
                value,
            })?;
        }
        from = last + 1;
    }
    Ok(rows)
}

/// Whether each row ends before the next begins.
fn are_in_order<V: Copy>(ranges: &Ranges<'_, V>) -> bool
    ensures yes { result ≡ true → IsInOrder ranges.now.rows.now }
    ensures no { result ≡ false → 2 ≤ length ranges.now.rows.now }
{
    let rows = ranges.rows;
    for next in 1..rows.len() {
        if rows[next].first <= rows[next - 1].last {
            return false;
        }
    }
    true
}
