//! Breaks of a text that were found and not yet given.

ghost use Rattle.std.specs.Prelude.{◌≡◌, ◌+◌, ◌≤◌, ◌<◌, ◌∷◌, [], true, false, length, drop};
ghost use Rattle.lbk_bytes.specs.Order.{AreBreaks};
ghost use Rattle.lbk_passage.specs.Found.{FillsNext, IsKept, held_in, skipped, to_give};

use crate::found::{NO_BREAK, Progress, START, break_of, find, put_breaks};
use lbk_bytes::RawBreak;
use lbk_rules::{Break, CellSource, Profile};

/// How many breaks are found at a time.
const ROOM: usize = 64;

/// The breaks that the last call found and that were not given, and how far they were found.
#[derive(Drop)]
pub(crate) struct Kept {
    /// How far they were found.
    progress: Progress,
    /// Those that the last call found.
    block: [RawBreak; ROOM],
    /// The place of the next one to give.
    next: usize,
    /// How many are to give, from there on.
    left: usize,
}

/// Before the first break.
pub(crate) const NONE_FOUND: Kept = Kept {
    progress: START,
    block: [NO_BREAK; ROOM],
    next: 0,
    left: 0,
};

impl Kept {
    /// Finds the next breaks, if none are left of those found: as many as the block holds or all. Returns whether there is
    /// one to give.
    #[inline(always)]
    pub(crate) fn hold<C: CellSource>(&mut self, cells: &C, profile: Profile, text: &str) -> bool
        requires { IsKept profile (C.cell_of cells.now) text.now self.old }
        ensures kept { IsKept profile (C.cell_of cells.now) text.now self.new }
        ensures same { to_give profile (C.cell_of cells.now) text.now self.new
            ≡ to_give profile (C.cell_of cells.now) text.now self.old }
        ensures some { result ≡ true → 0 < self.new.left }
        ensures none { result ≡ false → to_give profile (C.cell_of cells.now) text.now self.new ≡ [] }
    {
        if self.left != 0 {
            return true;
        }
        let found = find(cells, profile, text, self.progress, &mut self.block);
        self.left = found.state.count - self.progress.state.count;
        self.next = 0;
        self.progress = found;
        self.left != 0
    }

    /// Gives the next break.
    #[inline(always)]
    pub(crate) fn give(&mut self) -> Break
        requires some { (0 < self.old.left) × (self.old.next + self.old.left ≤ 64) }
        requires breaks { AreBreaks (drop self.old.next self.old.block) self.old.left }
        ensures rest { self.new ≡ skipped 1 self.old }
        ensures first { held_in self.old ≡ result ∷ held_in self.new }
    {
        let found = break_of(self.block[self.next]);
        self.next += 1;
        self.left -= 1;
        found
    }

    /// Writes the next breaks to the front of the block, as many as it holds or all that are left, and returns how
    /// many.
    pub(crate) fn fill<C: CellSource>(
        &mut self,
        cells: &C,
        profile: Profile,
        text: &str,
        block: &mut [Break],
    ) -> usize
        requires { IsKept profile (C.cell_of cells.now) text.now self.old }
        ensures { FillsNext profile (C.cell_of cells.now) text.now self.old self.new (length block.old) result
            block.new }
    {
        let mut count = 0;
        while count < block.len() {
            if !self.hold(cells, profile, text) {
                return count;
            }
            let some = self.left.min(block.len() - count);
            put_breaks(&self.block[self.next..], some, block, count);
            self.next += some;
            self.left -= some;
            count += some;
        }
        count
    }
}
