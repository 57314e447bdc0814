//! The machine of either profile, which holds a position if it depends on what follows.

ghost use Rattle.std.specs.Prelude.{◌≡◌, ◌+◌, ◌<◌, ◌≤◌, ℕ, List, [], ◌∷◌, ◌++◌, length, reverse, Some, None};
ghost use Rattle.std.specs.Prelude.{if◌then◌else◌, slice_get, option_map};
ghost use Rattle.std.specs.Option.{ForSome};
ghost use Rattle.lbk_uax14.specs.Answers.{count_of, written};
ghost use Rattle.lbk_uax14.specs.Verdict.{verdict_in};
ghost use Rattle.lbk_uax14.specs.Held.{answer_at, is_15b, late_at, now_at};

use crate::cells::Cell;
use crate::facts::Left;
use crate::verdicts::{Verdict, is_second};
use lbk_values::Profile;

/// A held position: its verdict waits for the unit after a closing quotation mark.
#[derive(Clone, Copy, PartialEq, Eq, Debug)]
struct Held {
    position: u64,
    left: Left,
    quotation: Cell,
}

/// Decides the positions of a text one after another in either profile, without looking back (UAX #14, section 6).
/// In the second one it may hold a position open until the unit after a closing quotation mark begins (rule LB15b).
#[derive(Clone, Copy, PartialEq, Eq, Debug)]
pub struct LateMachine {
    profile: Profile,
    left: Left,
    steps: u64,
    held: Option<Held>,
}

/// The verdicts of a step. Positions count cells from 0.
#[derive(Clone, Copy, PartialEq, Eq, Debug)]
pub struct Out {
    /// The verdict of the position before the cell, unless it is held.
    pub now: Option<Verdict>,
    /// The position that was held until now, and its verdict.
    pub late: Option<(u64, Verdict)>,
}

/// The verdicts at the end of the text. Positions count cells from 0.
#[derive(Clone, Copy, PartialEq, Eq, Debug)]
pub struct End {
    /// The position that was held until now, and its verdict.
    pub late: Option<(u64, Verdict)>,
    /// The verdict of the position after all cells.
    pub end: Verdict,
}

impl LateMachine {
    ghost use Rattle.lbk_uax14.specs.LateFits.{LateFits, steps_of, waiting};
    ghost use Rattle.lbk_uax14.specs.Chain.{from_cells};
    ghost use Rattle.lbk_values.specs.declared.profile.Profile.{Profile};
    ghost use Rattle.lbk_values.specs.declared.profile.Profile.TheVariants.{Second};
    ghost use Rattle.lbk_uax14.specs.Classes.{hard};
    ghost use Rattle.lbk_uax14.specs.Facts.{closes_in};
    ghost use Rattle.lbk_uax14.specs.Units.{nearest, units_after};

    /// A machine of this profile that has taken no cell.
    #[tactic(auto, unfolding(crate::specs::LateFits::waiting, crate::specs::LateFits::steps_of))]
    pub fn start(profile: Profile) -> LateMachine
        ensures { LateFits result profile [] }
    {
        LateMachine {
            profile,
            left: Left::start(),
            steps: 0,
            held: None,
        }
    }

    /// How many cells it has taken.
    #[tactic(auto, unfolding(crate::specs::LateFits::steps_of))]
    pub fn steps(&self) -> u64
        ensures { result ≡ steps_of self.now }
    {
        self.steps
    }

    /// Takes the next cell: returns the verdict of the position before it, unless that is held, and that of the
    /// position held until now, if the cell heads the unit after its quotation mark. It takes at most
    /// 18,446,744,073,709,551,615 cells.
    #[tactic(auto, unfolding(crate::specs::LateFits::steps_of))]
    pub fn step(&mut self, cell: Cell) -> Out
        requires { steps_of self.old < 18446744073709551615 }
        ensures now { (profile : Profile) (cells more : List Cell) → LateFits self.old profile cells
            → result.now ≡ now_at profile cells (cell ∷ more) }
        ensures late { (profile : Profile) (cells more : List Cell) → LateFits self.old profile cells
            → result.late ≡ late_at profile cells cell more }
        ensures fits { (profile : Profile) (cells : List Cell) → LateFits self.old profile cells
            → LateFits self.new profile (cells ++ cell ∷ []) }
        ensures steps { steps_of self.new ≡ steps_of self.old + 1 }
    {
        let late = self.late(cell);
        let verdict = self.verdict_so_far(cell);
        self.held = self.holding(cell, verdict.rule.is_15b());
        self.left = self.left.then(cell);
        self.steps += 1;
        let now = unless_held(verdict);
        Out { now, late }
    }

    /// The verdict of the position after all cells taken, where the text ends, and that of the position held until now.
    pub fn finish(&self) -> End
        ensures late { (profile : Profile) (cells : List Cell) → LateFits self.now profile cells
            → result.late ≡ answer_at profile cells [] }
        ensures end { (profile : Profile) (cells : List Cell) → LateFits self.now profile cells
            → result.end ≡ verdict_in profile cells (length cells) }
    {
        End {
            late: self.answer(true),
            end: self.left.verdict_at_end(),
        }
    }

    /// The position that was held until now, and its verdict. `closes`: the next unit leaves the quotation mark closed,
    /// or there is none.
    fn answer(&self, closes: bool) -> Option<(u64, Verdict)>
        ensures { (profile : Profile) (cells more : List Cell) → LateFits self.now profile cells
            → closes_in Second (units_after (hard (nearest (reverse cells)).class) more) ≡ closes
            → result ≡ answer_at profile cells more }
    {
        match self.held {
            None => None,
            Some(held) => {
                let verdict = held.left.verdict(self.profile, held.quotation, closes);
                Some((held.position, verdict))
            }
        }
    }

    /// The verdict before `cell`, if no unit came after it.
    fn verdict_so_far(&self, cell: Cell) -> Verdict
        ensures { (profile : Profile) (cells : List Cell) → LateFits self.now profile cells
            → result ≡ from_cells profile (reverse cells) (cell ∷ []) }
    {
        self.left
            .verdict(self.profile, cell, is_second(self.profile))
    }

    /// The verdict that `cell` settles: none, if it heads no unit.
    fn late(&self, cell: Cell) -> Option<(u64, Verdict)>
        ensures { (profile : Profile) (cells more : List Cell) → LateFits self.now profile cells
            → result ≡ late_at profile cells cell more }
    {
        if !self.left.heads(cell) {
            return None;
        }
        self.answer(cell.unit().class.closes_before())
    }

    /// What the machine holds after `cell`. `holds`: the position before the cell is held.
    fn holding(&self, cell: Cell, holds: bool) -> Option<Held>
        ensures { (profile : Profile) (cells : List Cell) → LateFits self.now profile cells
            → is_15b (from_cells profile (reverse cells) (cell ∷ [])).rule ≡ holds
            → result ≡ waiting profile (cell ∷ reverse cells) }
    {
        if holds {
            return Some(Held {
                position: self.steps,
                left: self.left,
                quotation: cell,
            });
        }
        if self.left.heads(cell) {
            return None;
        }
        self.held
    }
}

/// The verdict, unless it is by rule 15b.
pub fn unless_held(verdict: Verdict) -> Option<Verdict>
    ensures { result ≡ (if is_15b verdict.rule then None else Some verdict) }
{
    if verdict.rule.is_15b() {
        None
    } else {
        Some(verdict)
    }
}

/// Writes the verdict of every position of a text, in all its paragraphs, by one late machine, and returns how many
/// verdicts it wrote: as many as positions, so each position has one (UAX #14, section 6). There is room for one more
/// verdict than cells.
pub fn decide_all_in(profile: Profile, cells: &[Cell], verdicts: &mut [Verdict]) -> usize
    requires { length verdicts.old ≡ length cells.now + 1 }
    ensures each { (k : ℕ) → k ≤ length cells.now
        → slice_get verdicts.new k ≡ Some (verdict_in profile cells.now k) }
    ensures once { result ≡ length cells.now + 1 }
{
    let mut machine = LateMachine::start(profile);
    let mut answers = 0;
    let last = verdicts.len() - 1;
    for (k, cell) in cells.iter().enumerate() {
        let out = machine.step(*cell);
        answers += write_late(verdicts, out.late);
        answers += write_now(verdicts, k, out.now);
    }
    let end = machine.finish();
    answers += write_late(verdicts, end.late);
    verdicts[last] = end.end;
    answers + 1
}

/// Writes a verdict at its position, if there is one, and returns how many there were.
fn write_late(verdicts: &mut [Verdict], late: Option<(u64, Verdict)>) -> usize
    requires { ForSome late (λ answer. answer.0 < length verdicts.old) }
    ensures list { verdicts.new ≡ written late verdicts.old }
    ensures count { result ≡ count_of late }
    ensures few { result ≤ 1 }
{
    match late {
        None => 0,
        Some((position, verdict)) => {
            verdicts[position as usize] = verdict;
            1
        }
    }
}

/// Writes the verdict of position `k`, if there is one, and returns how many there were.
fn write_now(verdicts: &mut [Verdict], k: usize, now: Option<Verdict>) -> usize
    requires { k < length verdicts.old }
    ensures list { verdicts.new ≡ written (option_map (λ verdict. (k, verdict)) now) verdicts.old }
    ensures count { result ≡ count_of now }
    ensures few { result ≤ 1 }
{
    match now {
        None => 0,
        Some(verdict) => {
            verdicts[k] = verdict;
            1
        }
    }
}
