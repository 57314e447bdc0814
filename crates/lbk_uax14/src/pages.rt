//! The cells of all scalar values, in pages of 256 that are kept once where they are equal.

ghost use Rattle.std.specs.Prelude.{◌≡◌, ℕ, ◌+◌, ◌*◌, ◌<◌, ◌≤◌, length, slice_index, IfOk};
ghost use Rattle.std.specs.Char.{IsScalar};
ghost use Rattle.lbk_uax14.specs.Pages.{AreDistinct, IsPageOf, digest_of};

mod kept;

use crate::cells::Cell;
use crate::ranges::CellWalk;
use kept::{DigestedPage, Kept, NO_CELLS, cell_number, digest_with, with_run};
use std::alloc::{AllocError, Global};

/// How many codes have their cells in one page.
const PAGE_LENGTH: usize = 256;

/// How many pages all codes up to 10FFFF make.
const PAGE_COUNT: u32 = 4352;

/// The cells of 256 codes that follow one another.
type Page = [Cell; PAGE_LENGTH];

/// The cells of all scalar values, for a look-up of two reads: the number of a page, and a cell in
/// it. Equal pages are kept once.
#[derive(Debug, Drop)]
pub struct Pages {
    numbers: Vec<u16>,
    pages: Vec<Page>,
    ghost complete: { length numbers.items ≡ 4352 },
    ghost numbered: { (k : ℕ) → k < 4352 → slice_index numbers.items k < length pages.items },
    ghost distinct: { AreDistinct pages.items },
}

impl Pages {
    ghost use Rattle.lbk_uax14.specs.PageCells.{cell_of_pages};

    /// The pages of the cells that a walk goes over from its start to its end. Returns an error only if an allocation
    /// fails.
    pub fn build<W: CellWalk>(alloc: Global, walk: &mut W) -> Result<Pages, AllocError>
        requires { (W.at walk.old).first ≡ 0 }
        ensures cells { W.cell_at walk.new ≡ W.cell_at walk.old }
        ensures pages { IfOk result (λ pages. (code : ℕ) → IsScalar code
            → cell_of_pages pages code ≡ W.cell_at walk.old code) }
        ensures ends { IfOk result (λ _. 0x11_0000 ≤ (W.at walk.new).last + 1) }
    {
        let mut kept = Kept::new(alloc);
        let mut numbers = Vec::with_capacity(alloc, PAGE_COUNT as usize)?;
        let mut page = [walk.range().cell; PAGE_LENGTH];
        for k in 0..PAGE_COUNT {
            let first = 256 * k;
            let range = walk.range();
            // This page and the one before lie in one range of equal cells.
            if range.first + 256 <= first && first + 255 <= range.last {
                let number = numbers[k as usize - 1];
                numbers.push(number)?;
            } else {
                let digest = fill(&mut page, walk, first)?;
                let found = DigestedPage {
                    page: &page,
                    digest,
                };
                numbers.push(kept.number_of(&found)?)?;
            }
        }
        Ok(Pages {
            numbers,
            pages: kept.into_pages(),
        })
    }

    /// The cell of `c`.
    #[inline]
    #[tactic(auto, unfolding(crate::specs::PageCells::cell_of_pages))]
    pub fn cell(&self, c: char) -> Cell
        ensures { result ≡ cell_of_pages self.now c }
    {
        let code = c as usize;
        let number = self.numbers[code / PAGE_LENGTH];
        self.pages[usize::from(number)][code % PAGE_LENGTH]
    }
}

/// Puts the cells of the codes from `first` on into the page, and returns its digest. The walk is at a range that
/// begins there or before, or at the one before, and goes on to that of the last code. An error comes only where memory
/// was refused.
fn fill<W: CellWalk>(page: &mut Page, walk: &mut W, first: u32) -> Result<u64, AllocError>
    requires first { first + 256 ≤ 0x11_0000 }
    requires begins { (W.at walk.old).first ≤ first }
    requires reaches { first ≤ (W.at walk.old).last + 1 }
    ensures cells { W.cell_at walk.new ≡ W.cell_at walk.old }
    ensures page { IfOk result (λ _. IsPageOf (W.cell_at walk.old) first page.new) }
    ensures digest { IfOk result (λ digest. digest ≡ digest_of page.new) }
    ensures begins { IfOk result (λ _. (W.at walk.new).first < first + 256) }
    ensures reaches { IfOk result (λ _. first + 256 ≤ (W.at walk.new).last + 1) }
{
    let mut digest = NO_CELLS;
    let mut number = cell_number(walk.range().cell);
    for (k, cell) in page.iter_mut().enumerate() {
        if walk.range().last < first + k as u32 {
            walk.go_on()?;
            number = cell_number(walk.range().cell);
        }
        let range = walk.range();
        *cell = range.cell;
        digest = digest_with(digest, number);
    }
    Ok(with_run(digest))
}
