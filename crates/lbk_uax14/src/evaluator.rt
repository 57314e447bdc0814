//! The verdict at one position of a list of cells.

ghost use Rattle.std.specs.Prelude.{◌≡◌, ◌≤◌, length};
ghost use Rattle.lbk_uax14.specs.Facts.{closes_in};
ghost use Rattle.lbk_uax14.specs.Sides.{leaves_closed};
ghost use Rattle.lbk_uax14.specs.Units.{units_after};
ghost use Rattle.lbk_uax14.specs.Verdict.{verdict, verdict_in, verdict_between_in};

use crate::cells::Cell;
use crate::facts::Left;
use crate::verdicts::Verdict;
use lbk_values::Profile;

/// The verdict at position `k` of a text, before cell `k` or after all cells, in the first profile (UAX #14, section
/// 6). Positions count cells from 0.
pub fn decide(cells: &[Cell], k: usize) -> Verdict
    requires { k ≤ length cells.now }
    ensures { result ≡ verdict cells.now k }
{
    decide_in(Profile::First, cells, k)
}

/// The verdict at position `k` of a text, before cell `k` or after all cells, in this profile. Positions count cells
/// from 0.
pub fn decide_in(profile: Profile, cells: &[Cell], k: usize) -> Verdict
    requires { k ≤ length cells.now }
    ensures { result ≡ verdict_in profile cells.now k }
{
    let (left, right) = cells.split_at(k);
    verdict_between(profile, left, right)
}

/// The verdict between the cells on the left and those on the right.
fn verdict_between(profile: Profile, left: &[Cell], right: &[Cell]) -> Verdict
    ensures { result ≡ verdict_between_in profile left.now right.now }
{
    let left = Left::of(left);
    match right.split_first() {
        None => left.verdict_at_end(),
        Some((cell, more)) => {
            let closes = closes_in(profile, cell.class.is_hard(), more);
            left.verdict(profile, *cell, closes)
        }
    }
}

/// Whether, in the second profile, the first unit of `cells` leaves a closing quotation mark before
/// it closed, or there is none. `fresh`: the cell before them is of a hard class.
fn closes_in(profile: Profile, fresh: bool, cells: &[Cell]) -> bool
    ensures { result ≡ closes_in profile (units_after fresh cells.now) }
{
    match profile {
        Profile::First => false,
        Profile::Second => leaves_closed(fresh, cells),
    }
}

/// Whether the first unit of `cells` leaves a closing quotation mark before it closed, or there is
/// none.
fn leaves_closed(fresh: bool, cells: &[Cell]) -> bool
    ensures { result ≡ leaves_closed (units_after fresh cells.now) }
{
    let mut heads = fresh;
    for cell in cells {
        if heads || !cell.class.is_mark() {
            return cell.unit().class.closes_before();
        }
        heads = cell.class.is_hard();
    }
    true
}
