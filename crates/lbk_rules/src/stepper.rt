//! The positions of a text, decided scalar by scalar.

ghost use Rattle.std.specs.Prelude.{◌≡◌, ℕ, ◌<◌, List, [], ◌∷◌, ◌++◌, length, map, reverse, None, if◌then◌else◌};
ghost use Rattle.lbk_rules.specs.Terms.{answer_at, is_15b, is_held, late_at, now_at, verdict_in};

use crate::row_machine::RowMachine;
use crate::source::CellSource;
use lbk_uax14::{End, Out, Profile, Verdict, unless_held};

/// A position that waits for the unit after a closing quotation mark, with both its verdicts: if that unit leaves the
/// mark closed or there is none, and if not.
#[derive(Clone, Copy, PartialEq, Eq, Debug)]
struct HeldRow {
    position: u64,
    if_closed: Verdict,
    if_open: Verdict,
}

impl HeldRow {
    /// Its position and the verdict there.
    fn answer(self, closes: bool) -> (u64, Verdict)
        ensures { result ≡ (self.position, if closes then self.if_closed else self.if_open) }
    {
        if closes {
            (self.position, self.if_closed)
        } else {
            (self.position, self.if_open)
        }
    }
}

/// Decides the positions of a text one after another in either profile, scalar by scalar and without looking back, by
/// the cells of a source and the rows of steps (UAX #14, section 6). In the second profile it may hold a position
/// open until the unit after a closing quotation mark begins. Positions count scalars from 0.
///
/// ```rust
/// let mut stepper = Stepper::start(cells, profile);
/// let mut breaks = 0u64;
/// for c in text.chars() {
///     let out = stepper.step(c);
///     breaks = breaks.wrapping_add(breaks_in(out.late, out.now));
/// }
/// let end = stepper.finish();
/// ```
#[derive_where(Clone, Copy)]
pub struct Stepper<'a, C: CellSource> {
    machine: RowMachine<'a, C>,
    steps: u64,
    held: Option<HeldRow>,
}

impl<'a, C: CellSource> Stepper<'a, C> {
    ghost use Rattle.lbk_rules.specs.RowMachineFits.{normals};
    ghost use Rattle.lbk_rules.specs.StepperFits.{Holds, IsHeldRow, StepperFits};
    ghost use Rattle.lbk_rules.specs.Terms.{Cell, closes_in, facts, hard, nearest, normal, Profile, Second};
    ghost use Rattle.lbk_rules.specs.Terms.{units_after, waiting};

    /// A stepper of this profile that has taken no scalar.
    pub fn start(cells: &'a C, profile: Profile) -> Stepper<'a, C>
        ensures { StepperFits C.cell_of result profile (C.cell_of cells.now) [] }
    {
        Stepper {
            machine: RowMachine::start(cells, profile),
            steps: 0,
            held: None,
        }
    }

    /// Takes the next scalar: the verdict of the position before it, unless that is held, and that of
    /// the position that was held until now, where the scalar heads the unit after its quotation mark. It does so for
    /// the first 18,446,744,073,709,551,615 scalars of a text.
    #[inline(always)]
    pub fn step(&mut self, c: char) -> Out
        ensures now { (profile : Profile) (cell : ℕ → Cell) (taken : List ℕ) (more : List Cell)
            → StepperFits C.cell_of self.old profile cell taken → length taken < 18446744073709551615
            → result.now ≡ now_at profile (map cell taken) (cell c ∷ more) }
        ensures late { (profile : Profile) (cell : ℕ → Cell) (taken : List ℕ) (more : List Cell)
            → StepperFits C.cell_of self.old profile cell taken → length taken < 18446744073709551615
            → result.late ≡ late_at profile (map cell taken) (cell c) more }
        ensures fits { (profile : Profile) (cell : ℕ → Cell) (taken : List ℕ)
            → StepperFits C.cell_of self.old profile cell taken → length taken < 18446744073709551615
            → StepperFits C.cell_of self.new profile cell (taken ++ c ∷ []) }
    {
        let mut machine = self.machine;
        let verdict = machine.step(c);
        if self.held.is_none() && !verdict.rule.is_15b() {
            self.machine = machine;
            self.steps = self.steps.wrapping_add(1);
            return Out {
                now: Some(verdict),
                late: None,
            };
        }
        self.step_with_held(c)
    }

    /// The same where a position is held before the step or after it, which is rare. Its values are set up here and not
    /// in `step`, and `holding` and `late` take the stepper by value, so that a loop has its own in registers.
    #[inline(always)]
    fn step_with_held(&mut self, c: char) -> Out
        ensures now { (profile : Profile) (cell : ℕ → Cell) (taken : List ℕ) (more : List Cell)
            → StepperFits C.cell_of self.old profile cell taken
            → result.now ≡ now_at profile (map cell taken) (cell c ∷ more) }
        ensures late { (profile : Profile) (cell : ℕ → Cell) (taken : List ℕ) (more : List Cell)
            → StepperFits C.cell_of self.old profile cell taken
            → result.late ≡ late_at profile (map cell taken) (cell c) more }
        ensures fits { (profile : Profile) (cell : ℕ → Cell) (taken : List ℕ)
            → StepperFits C.cell_of self.old profile cell taken → length taken < 18446744073709551615
            → StepperFits C.cell_of self.new profile cell (taken ++ c ∷ []) }
    {
        let before = *self;
        let verdict = self.machine.step(c);
        self.steps = self.steps.wrapping_add(1);
        self.held = before.holding(c, verdict.rule.is_15b());
        Out {
            now: unless_held(verdict),
            late: before.late(c),
        }
    }

    /// The verdict of the position after all scalars taken, where the text ends, and that of the
    /// position that was held until now.
    pub fn finish(&self) -> End
        ensures late { (profile : Profile) (cell : ℕ → Cell) (taken : List ℕ)
            → StepperFits C.cell_of self.now profile cell taken
            → result.late ≡ answer_at profile (map cell taken) [] }
        ensures end { (profile : Profile) (cell : ℕ → Cell) (taken : List ℕ)
            → StepperFits C.cell_of self.now profile cell taken
            → result.end ≡ verdict_in profile (map cell taken) (length taken) }
    {
        End {
            late: self.answer(true),
            end: self.machine.finish(),
        }
    }

    /// The position that was held until now, and its verdict. `closes`: the next unit leaves the quotation mark closed,
    /// or there is none.
    fn answer(&self, closes: bool) -> Option<(u64, Verdict)>
        ensures { (profile : Profile) (cell : ℕ → Cell) (taken : List ℕ) (more : List Cell)
            → StepperFits C.cell_of self.now profile cell taken
            → closes_in Second (units_after (hard (nearest (reverse (normals cell taken))).class) more) ≡ closes
            → result ≡ answer_at profile (normals cell taken) more }
    {
        match self.held {
            None => None,
            Some(held) => Some(held.answer(closes)),
        }
    }

    /// The verdict that `c` settles: none, if it heads no unit.
    #[cold]
    #[inline(never)]
    fn late(self, c: char) -> Option<(u64, Verdict)>
        ensures { (profile : Profile) (cell : ℕ → Cell) (taken : List ℕ) (more : List Cell)
            → StepperFits C.cell_of self.entry profile cell taken
            → result ≡ late_at profile (map cell taken) (cell c) more }
    {
        if self.held.is_none() {
            return None;
        }
        let cell = self.machine.cell(c);
        if !self.machine.left().heads(cell) {
            return None;
        }
        self.answer(cell.unit().class.closes_before())
    }

    /// What it holds once `c` was taken. `holds`: the position before `c` is held.
    #[cold]
    #[inline(never)]
    fn holding(self, c: char, holds: bool) -> Option<HeldRow>
        ensures { (profile : Profile) (cell : ℕ → Cell) (taken : List ℕ)
            → StepperFits C.cell_of self.entry profile cell taken
            → is_held profile (map cell taken) (cell c ∷ []) ≡ holds
            → Holds profile result (waiting profile (normal (cell c) ∷ reverse (normals cell taken))) }
    {
        if holds {
            return Some(self.held_before(c));
        }
        if self.held.is_none() {
            return None;
        }
        if self.machine.left().heads(self.machine.cell(c)) {
            return None;
        }
        self.held
    }

    /// The position before `c` with both its verdicts.
    fn held_before(&self, c: char) -> HeldRow
        ensures { (profile : Profile) (cell : ℕ → Cell) (taken : List ℕ)
            → StepperFits C.cell_of self.now profile cell taken
            → IsHeldRow profile result (record {
              position = length (reverse (normals cell taken));
              left = facts (reverse (normals cell taken));
              quotation = normal (cell c);
            }) }
    {
        let left = self.machine.left();
        let cell = self.machine.cell(c);
        let profile = self.machine.profile();
        let if_closed = left.verdict(profile, cell, true);
        let if_open = left.verdict(profile, cell, false);
        HeldRow {
            position: self.steps,
            if_closed,
            if_open,
        }
    }
}
