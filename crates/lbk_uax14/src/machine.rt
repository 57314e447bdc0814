//! The machine of the first profile.

ghost use Rattle.std.specs.Prelude.{◌≡◌, ◌+◌, ◌≤◌, ℕ, List, [], ◌∷◌, ◌++◌, length, Option, Some, slice_get};
ghost use Rattle.lbk_uax14.specs.Verdict.{verdict};

use crate::cells::Cell;
use crate::facts::Left;
use crate::verdicts::Verdict;
use lbk_values::Profile;

/// Decides the positions of a text one after another in the first profile, without looking back: a few facts about the
/// cells so far suffice (UAX #14, section 6).
#[derive(Clone, Copy, PartialEq, Eq, Debug)]
pub struct Machine {
    left: Left,
}

impl Machine {
    ghost use Rattle.lbk_uax14.specs.Fits.{Fits};

    /// A machine that has taken no cell.
    #[tactic(auto, unfolding(crate::specs::Fits::Fits))]
    pub fn start() -> Machine
        ensures { Fits result [] }
    {
        Machine {
            left: Left::start(),
        }
    }

    /// Takes the next cell: returns the verdict of the position before it, whatever follows.
    #[tactic(auto, unfolding(crate::specs::Fits::Fits))]
    pub fn step(&mut self, cell: Cell) -> Verdict
        ensures decides { (cells more : List Cell) → Fits self.old cells
            → result ≡ verdict (cells ++ cell ∷ more) (length cells) }
        ensures fits { (cells : List Cell) → Fits self.old cells → Fits self.new (cells ++ cell ∷ []) }
    {
        let verdict = self.left.verdict(Profile::First, cell, false);
        self.left = self.left.then(cell);
        verdict
    }

    /// The verdict of the position after all cells taken, where the text ends.
    #[tactic(auto, unfolding(crate::specs::Fits::Fits))]
    pub fn finish(&self) -> Verdict
        ensures { (cells : List Cell) → Fits self.now cells → result ≡ verdict cells (length cells) }
    {
        self.left.verdict_at_end()
    }
}

/// Writes the verdict of every position of a text, in all its paragraphs, in the first profile, by one machine: one
/// step for each cell, and the end (UAX #14, section 6). There is room for one more verdict than cells.
pub fn decide_all(cells: &[Cell], verdicts: &mut [Verdict])
    requires { length verdicts.old ≡ length cells.now + 1 }
    ensures { (k : ℕ) → k ≤ length cells.now → slice_get verdicts.new k ≡ Some (verdict cells.now k) }
{
    let mut machine = Machine::start();
    for (k, cell) in cells.iter().enumerate() {
        verdicts[k] = machine.step(*cell);
    }
    verdicts[cells.len()] = machine.finish();
}
