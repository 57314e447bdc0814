//! Pages that are kept once, while they are gathered.

ghost use Rattle.std.specs.Prelude.{◌≡◌, ◌≢◌, ℕ, ◌+◌, ◌<◌, ◌≤◌, ◌^◌, length, map, slice_index_or, [], ◌∷◌, ◌++◌};
ghost use Rattle.std.specs.Prelude.{IfOk, MatchOption, All};
ghost use Rattle.lbk_uax14.specs.Pages.{AreDistinct, cell_number, digest_of, digest_with, mixed, with_run};

use super::Page;
use crate::cells::Cell;
use std::alloc::{AllocError, Global};

/// A page with its digest.
#[derive(Clone, Copy)]
pub(super) struct DigestedPage<'a> {
    pub(super) page: &'a Page,
    pub(super) digest: u64,
    ghost digested: { digest ≡ digest_of page.now },
}

/// The pages kept so far, each with its digest.
#[derive(Drop)]
pub(super) struct Kept {
    pages: Vec<Page>,
    digests: Vec<u64>,
    ghost digested: { digests.items ≡ map digest_of pages.items },
    ghost distinct: { AreDistinct pages.items },
}

impl Kept {
    pub(super) fn new(alloc: Global) -> Kept
        ensures { result.pages.items ≡ [] }
    {
        Kept {
            pages: Vec::new(alloc),
            digests: Vec::new(alloc),
        }
    }

    /// The number of this page, which is kept if it is new.
    pub(super) fn number_of(&mut self, found: &DigestedPage<'_>) -> Result<u16, AllocError>
        requires { length self.old.pages.items < 2 ^ 16 }
        ensures number { IfOk result (λ n. (n < length self.new.pages.items)
            × (slice_index_or self.new.pages.items n [] ≡ found.now.page.now)) }
        ensures stay { IfOk result (λ _. (k : ℕ) → k < length self.old.pages.items
            → slice_index_or self.new.pages.items k [] ≡ slice_index_or self.old.pages.items k []) }
        ensures more { IfOk result (λ _. (length self.old.pages.items ≤ length self.new.pages.items)
            × (length self.new.pages.items ≤ length self.old.pages.items + 1)) }
    {
        if let Some(number) = self.find(found) {
            return Ok(number as u16);
        }
        let number = self.pages.len();
        self.add(found)?;
        Ok(number as u16)
    }

    /// The number of the kept page that equals this one.
    fn find(&self, found: &DigestedPage<'_>) -> Option<usize>
        ensures { MatchOption result (All (λ other. other ≢ found.now.page.now) self.now.pages.items)
            (λ n. (n < length self.now.pages.items)
            × (slice_index_or self.now.pages.items n [] ≡ found.now.page.now)) }
    {
        let DigestedPage { page, digest } = *found;
        for (number, known) in self.digests.iter().enumerate() {
            if *known == digest && self.pages[number] == *page {
                return Some(number);
            }
        }
        None
    }

    /// Keeps a page that is not among those kept.
    fn add(&mut self, found: &DigestedPage<'_>) -> Result<(), AllocError>
        requires { All (λ other. other ≢ found.now.page.now) self.old.pages.items }
        ensures { IfOk result (λ _. self.new.pages.items ≡ self.old.pages.items ++ found.now.page.now ∷ []) }
    {
        self.digests.reserve(1)?;
        self.pages.push(*found.page)?;
        self.digests.push(found.digest)?;
        Ok(())
    }

    /// The pages by their numbers, in no more memory than they need.
    pub(super) fn into_pages(self) -> Vec<Page>
        ensures kept { result.items ≡ self.pages.items }
        ensures distinct { AreDistinct result.items }
    {
        let Kept {
            mut pages,
            digests: _,
        } = self;
        pages.shrink_to_fit();
        pages
    }
}

/// A multiplier of good spectral quality for 64 bits (PCG's).
const MULTIPLIER: u64 = 0x5851_f42d_4c95_7f2d;

/// A number for the cells of a page so far, and how many of the last are equal.
#[derive(Clone, Copy)]
pub(super) struct CellSum {
    sum: u64,
    number: u64,
    count: u64,
}

/// Before all cells.
pub(super) const NO_CELLS: CellSum = CellSum {
    sum: 0,
    number: 0,
    count: 0,
};

/// The digest after one more cell, of this number. Only a cell that differs from the one before takes a multiplication.
#[inline]
pub(super) fn digest_with(digest: CellSum, number: u64) -> CellSum
    ensures { (cell : Cell) → number ≡ cell_number cell → result ≡ digest_with digest cell }
{
    if number == digest.number {
        return CellSum {
            count: digest.count.wrapping_add(1),
            ..digest
        };
    }
    CellSum {
        sum: with_run(digest),
        number,
        count: 1,
    }
}

/// The number with the run of equal cells at the end. Behind the last cell it is that of the page, the same for equal
/// pages, so that pages are seldom compared cell by cell.
pub(super) fn with_run(digest: CellSum) -> u64
    ensures { result ≡ with_run digest }
{
    mixed(
        digest.sum,
        digest.number.wrapping_mul(1024).wrapping_add(digest.count),
    )
}

/// A sum with one number more. The upper half goes into the lower, since a plain sum of multiples can be made to come
/// out the same for thousands of pages.
fn mixed(sum: u64, number: u64) -> u64
    ensures { result ≡ mixed sum number }
{
    (sum ^ (sum >> 32))
        .wrapping_mul(MULTIPLIER)
        .wrapping_add(number)
}

/// A number of its own for each cell.
pub(super) fn cell_number(cell: Cell) -> u64
    ensures { result ≡ cell_number cell }
{
    let flags = u64::from(cell.wide) + 2 * u64::from(cell.pict_cn) + 4 * u64::from(cell.letter);
    flags + 8 * u64::from(cell.quote as u8) + 32 * u64::from(cell.class as u8)
}
