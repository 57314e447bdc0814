//! The machine that steps by the rows of steps.

ghost use Rattle.std.specs.Prelude.{◌≡◌, ◌+◌, ◌<◌, ℕ, List, [], ◌∷◌, ◌++◌, length, map, reverse, true, false};
ghost use Rattle.lbk_rules.specs.Rows.{IsPlace, steps_in};

use crate::kinds::cell_of_kind;
use crate::row_steps::SAMPLES;
use crate::source::CellSource;
use crate::steps::{Rows, Step, WIDTH, are_some, known_of, rows_of, step_at, verdict_of};
use lbk_uax14::{Cell, Kind, Left, Profile, Rule, Verdict};

/// The verdict at the end of a text that is not empty (UAX #14, rule LB3).
const END: Verdict = Verdict {
    kind: Kind::Must,
    rule: Rule::Lb3,
};

/// A row of steps in a profile.
#[derive(Clone, Copy)]
struct Row {
    profile: Profile,
    /// The steps of the profile.
    steps: &'static Rows,
    /// The place of the row.
    place: usize,
    ghost of_profile: { steps.now ≡ steps_in profile },
    ghost begins: { IsPlace place },
}

impl Row {
    ghost use Rattle.lbk_rules.specs.Rows.{left_at};

    /// What it knows. It is asked for seldom, and is found from the row's sample.
    fn left(&self) -> Left
        ensures { result ≡ left_at self.now.place }
    {
        known_of(&SAMPLES[self.place / WIDTH])
    }

    /// Whether it knows of some cell: whether its sample has a nearest one. It is asked for at the end of each text.
    #[inline(always)]
    fn knows_some(&self) -> bool
        ensures { result ≡ true → (left_at self.now.place).empty ≡ false }
    {
        are_some(&SAMPLES[self.place / WIDTH])
    }
}

/// Decides the positions of a text one after another by the rows of steps: two reads a scalar (UAX #14, section 6). It
/// holds no position: where rule 15b may decide, the caller waits.
#[derive_where(Clone, Copy)]
pub(crate) struct RowMachine<'a, C: CellSource> {
    cells: &'a C,
    /// The row that knows what the rules ask of the cells taken.
    row: Row,
}

impl<'a, C: CellSource> RowMachine<'a, C> {
    ghost use Rattle.lbk_rules.specs.Rows.{left_at, shown_of};
    ghost use Rattle.lbk_rules.specs.RowMachineFits.{RowMachineFits, normals};
    ghost use Rattle.lbk_rules.specs.Terms.{Cell, facts, from_cells, is_15b, is_held, normal, Profile, verdict_in};

    /// A machine of this profile that has taken no scalar.
    pub(crate) fn start(cells: &'a C, profile: Profile) -> RowMachine<'a, C>
        ensures { RowMachineFits C.cell_of result profile (C.cell_of cells.now) [] }
    {
        RowMachine {
            cells,
            row: Row {
                profile,
                steps: rows_of(profile),
                place: 0,
            },
        }
    }

    /// Takes the next scalar: the verdict of the position before it, whatever follows, unless it is by rule 15b.
    /// Exactly then the position is held, and what follows decides it.
    #[inline]
    pub(crate) fn step(&mut self, c: char) -> Verdict
        ensures held { (profile : Profile) (cell : ℕ → Cell) (taken : List ℕ) (more : List Cell)
            → RowMachineFits C.cell_of self.old profile cell taken
            → is_held profile (map cell taken) (cell c ∷ more) ≡ is_15b result.rule }
        ensures decides { (profile : Profile) (cell : ℕ → Cell) (taken : List ℕ) (more : List Cell)
            → RowMachineFits C.cell_of self.old profile cell taken → is_15b result.rule ≡ false
            → result ≡ verdict_in profile (map cell taken ++ cell c ∷ more) (length taken) }
        ensures fits { (profile : Profile) (cell : ℕ → Cell) (taken : List ℕ)
            → RowMachineFits C.cell_of self.old profile cell taken
            → RowMachineFits C.cell_of self.new profile cell (taken ++ c ∷ []) }
    {
        let step = self.step_by(c);
        self.row.place = usize::from(step.next);
        verdict_of(step.shown)
    }

    /// The step by `c`, with the number of the verdict where nothing follows.
    #[inline(always)]
    fn step_by(&self, c: char) -> Step
        ensures row { IsPlace result.next }
        ensures leads { (profile : Profile) (cell : ℕ → Cell) (taken : List ℕ)
            → RowMachineFits C.cell_of self.now profile cell taken
            → facts (reverse (normals cell (taken ++ c ∷ []))) ≡ left_at result.next }
        ensures shows { (profile : Profile) (cell : ℕ → Cell) (taken : List ℕ)
            → RowMachineFits C.cell_of self.now profile cell taken
            → result.shown ≡ shown_of (from_cells profile (reverse (map cell taken)) (cell c ∷ [])) }
    {
        *step_at(self.row.steps, self.row.place, self.cells.kind(c))
    }

    /// What it knows of the cells that it has taken.
    pub(crate) fn left(&self) -> Left
        ensures { (profile : Profile) (cell : ℕ → Cell) (taken : List ℕ)
            → RowMachineFits C.cell_of self.now profile cell taken
            → facts (reverse (normals cell taken)) ≡ result }
    {
        self.row.left()
    }

    /// The cell of the kind of `c`.
    pub(crate) fn cell(&self, c: char) -> Cell
        ensures { (profile : Profile) (cell : ℕ → Cell) (taken : List ℕ)
            → RowMachineFits C.cell_of self.now profile cell taken
            → result ≡ normal (cell c) }
    {
        cell_of_kind(self.cells.kind(c))
    }

    /// The profile whose verdicts it gives.
    pub(crate) fn profile(&self) -> Profile
        ensures { (profile : Profile) (cell : ℕ → Cell) (taken : List ℕ)
            → RowMachineFits C.cell_of self.now profile cell taken
            → result ≡ profile }
    {
        self.row.profile
    }

    /// The verdict of the position after all scalars taken, where the text ends.
    pub(crate) fn finish(&self) -> Verdict
        ensures { (profile : Profile) (cell : ℕ → Cell) (taken : List ℕ)
            → RowMachineFits C.cell_of self.now profile cell taken
            → result ≡ verdict_in profile (map cell taken) (length taken) }
    {
        if self.row.knows_some() {
            return END;
        }
        self.left().verdict_at_end()
    }
}
