//! A table as plain numbers in one block, in a caller's memory. It has what the property files say; the rules are in
//! the code.

ghost use Rattle.std.specs.Prelude.{◌≡◌, ℕ, ◌↔◌, false, nat_lt, IsTrue, IfOk, OnErr, fold};
ghost use Rattle.std.specs.List.{list_all};
ghost use Rattle.lbk_rules.specs.declared.kinds.TheConstants.{KINDS};
ghost use Rattle.lbk_rules.specs.FlatTable.{AreFlatKinds, AreKinds, AreKindsAlone, IsFlatOf, IsWhole, digest_of};
ghost use Rattle.lbk_rules.specs.FlatTable.{digest_of_bytes, digest_with};
ghost use Rattle.lbk_rules.specs.Neighbours.{AreNeighboursOf};
ghost use Rattle.lbk_rules.specs.CellOfTables.{cell_of_tables};
ghost use Rattle.lbk_rules.specs.Terms.{Cell, normal};
ghost use Rattle.lbk_rules.specs.Unicode.{unicode_cell};

use crate::kind_source::KindSource;
use crate::kind_table::KindTable;
use crate::kinds::KINDS;
use crate::neighbours::Neighbours;
use crate::unicode::fill_kinds;
use crate::unicode_runs::{UNICODE_DIGEST, UNICODE_NEIGHBOURS};
use lbk_uax14::Cell;
use lbk_ucd::Tables;
use std::alloc::{AllocError, Global};

/// The number of this layout of a table. It changes with the layout, the rules and the numbers of kinds.
pub const LAYOUT: u64 = 4;

/// How many codes there are.
pub(crate) const CODES: usize = 0x11_0000;

/// What a digest begins with: the offset basis of FNV-1a for 64 bits.
const DIGEST_START: u64 = 0xcbf2_9ce4_8422_2325;

/// What a digest is multiplied by: the prime of FNV-1a for 64 bits.
const DIGEST_PRIME: u64 = 0x100_0000_01b3;

/// The kinds of all scalar values, and what the steps tell of bytes side by side: plain numbers,
/// without pointers.
#[repr(C)]
pub struct FlatTable {
    /// The number of the layout, [`LAYOUT`].
    pub layout: u64,
    /// The digest of all that follows.
    pub digest: u64,
    /// What the steps tell of bytes side by side, in either profile.
    pub pairs: Neighbours,
    /// The kind of each code.
    pub kinds: [u8; CODES],
}

impl FlatTable {
    /// Fills the table with the cells of these property tables (UAX #14, section 6). Returns an error only if an
    /// allocation fails; the table is then unchanged.
    pub fn fill(&mut self, alloc: Global, tables: &Tables) -> Result<(), AllocError>
        ensures table { IfOk result (λ _. IsFlatOf self.new (cell_of_tables tables.now)) }
        ensures whole { IfOk result (λ _. IsWhole self.new) }
        ensures kinds { IfOk result (λ _. AreKindsAlone self.new (cell_of_tables tables.now)) }
        ensures neighbours { IfOk result (λ _. AreNeighboursOf self.new.kinds self.new.pairs) }
        ensures untouched { OnErr result (self.new ≡ self.old) }
    {
        let kinds = KindTable::build(alloc, tables)?;
        self.kinds.copy_from_slice(&kinds.kinds);
        self.complete();
        Ok(())
    }

    /// Fills the table with the values of Unicode 15.0.0 (UAX #14, section 6). It reads no file, allocates nothing, and
    /// does not fail.
    #[tactic(auto, unfolding(crate::specs::FlatTable::digest_of))]
    pub fn fill_unicode(&mut self)
        ensures table { IsFlatOf self.new unicode_cell }
        ensures whole { IsWhole self.new }
        ensures kinds { AreKindsAlone self.new unicode_cell }
        ensures neighbours { AreNeighboursOf self.new.kinds self.new.pairs }
    {
        fill_kinds(&mut self.kinds);
        self.pairs = UNICODE_NEIGHBOURS;
        self.layout = LAYOUT;
        self.digest = UNICODE_DIGEST;
    }

    /// Makes it the whole table of the kinds that it has, whatever else it had, and returns whether they are kinds. If
    /// one of them is none the table stays as it was.
    pub fn complete(&mut self) -> bool
        ensures kinds { IsTrue result ↔ AreKinds self.old.kinds }
        ensures table { IsTrue result → (cell : ℕ → Cell) → AreFlatKinds self.old.kinds cell → IsFlatOf self.new cell }
        ensures whole { IsTrue result → IsWhole self.new }
        ensures neighbours { IsTrue result → AreNeighboursOf self.new.kinds self.new.pairs }
        ensures same { self.new.kinds ≡ self.old.kinds }
        ensures untouched { result ≡ false → self.new ≡ self.old }
    {
        if !are_kinds(&self.kinds) {
            return false;
        }
        self.pairs = Neighbours::of_kinds(self);
        self.layout = LAYOUT;
        self.digest = self.digest_now();
        true
    }

    /// Whether its layout is that of this version and its digest is that of its numbers. So it is of each table that
    /// `fill` made, and of none of them in which one number was changed since.
    pub fn is_whole(&self) -> bool
        ensures { IsTrue result ↔ IsWhole self.now }
    {
        self.layout == LAYOUT && self.digest == self.digest_now()
    }

    /// The digest of its neighbours and kinds as they are now.
    #[tactic(auto, unfolding(crate::specs::FlatTable::digest_of))]
    fn digest_now(&self) -> u64
        ensures { result ≡ digest_of self.now }
    {
        let neighbours = self.pairs.digest(DIGEST_START);
        digest_kinds(neighbours, &self.kinds)
    }

    /// The cell of the kind of `c`, with nothing that no rule asks of it. A number that is no kind's is masked, as
    /// steps mask it.
    pub fn cell(&self, c: char) -> Cell
        ensures { (cell : ℕ → Cell) → AreFlatKinds self.now.kinds cell → result ≡ normal (cell c) }
    {
        self.cell_by_kind(c)
    }
}

impl KindSource for FlatTable {
    ghost kinds_of = { λ table. table.kinds };

    ghost pairs_of = { λ table. table.pairs };

    #[inline(always)]
    fn kind_at(&self, code: u32) -> u8 {
        self.kinds[code as usize]
    }

    #[inline(always)]
    fn pairs(&self) -> &Neighbours {
        &self.pairs
    }
}

/// Whether each number is that of a kind.
fn are_kinds(kinds: &[u8]) -> bool
    ensures { result ≡ list_all (λ kind. nat_lt kind KINDS) kinds.now }
{
    kinds.iter().all(|kind| (*kind as usize) < KINDS)
}

/// The digest of some bytes: FNV-1a, by which no two bytes lead from one digest to the same.
#[tactic(auto, unfolding(crate::specs::FlatTable::digest_of_bytes))]
pub fn digest_of_bytes(bytes: &[u8]) -> u64
    ensures { result ≡ digest_of_bytes bytes.now }
{
    digest_kinds(DIGEST_START, bytes)
}

/// A digest after some kinds more.
pub(crate) fn digest_kinds(digest: u64, kinds: &[u8]) -> u64
    ensures { result ≡ fold digest_with digest kinds.now }
{
    kinds.iter().fold(digest, |digest, kind| digest_with(digest, u64::from(*kind)))
}

/// A digest after one number more.
pub(crate) fn digest_with(digest: u64, number: u64) -> u64
    ensures { result ≡ digest_with digest number }
{
    (digest ^ number).wrapping_mul(DIGEST_PRIME)
}
