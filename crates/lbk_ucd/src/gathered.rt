//! The rows and defaults of one file so far.
ghost use Rattle.std.specs.Prelude.{◌≡◌, ◌+◌, ◌<◌, ◌≤◌, ℕ, false, [], length, not, nat_lt, None, Some, IfOk, OnOk};
ghost use Rattle.std.specs.Prelude.{OnErr};
ghost use Rattle.std.specs.List.{All, AllPairs, list_any};
ghost use Rattle.lbk_ucd.specs.Ranges.{AreMarked, IsInOrder, IsRange, row_of};
ghost use Rattle.lbk_ucd.specs.Rows.{shares, AreApart, value_at};
ghost use Rattle.lbk_ucd.specs.declared.gathered.TheConstants.{MOST_ROWS};

use crate::overlay::{flatten, overlay, sorted};
use crate::ranges::{Assigned, InOrder, Ranges, Row};
use crate::span::Span;
use crate::taken::Taken;
use std::alloc::{AllocError, Global};

/// The most kept rows and defaults of a file.
pub(crate) const MOST_ROWS: usize = 65_536;

/// The kept rows and default lines so far, in the order of the file, and the value of the other code points. `taken`
/// has the code points of the rows, once a row does not come after all earlier ones.
#[derive(Drop)]
pub(crate) struct Gathered<V> {
    pub(crate) rows: Vec<Row<V>>,
    pub(crate) defaults: Vec<Row<V>>,
    pub(crate) unlisted: V,
    taken: Taken,
    ghost ranges: { All IsRange rows.items },
    ghost default_ranges: { All IsRange defaults.items },
    ghost apart: { AllPairs AreApart rows.items },
    ghost ordered: { taken.words.items ≡ [] → IsInOrder rows.items },
    ghost marked: { 0 < length taken.words.items → AreMarked rows.items taken.words.items },
    ghost few: { length rows.items + length defaults.items ≤ MOST_ROWS },
}

impl<V: Copy> Gathered<V> {
    ghost use Rattle.lbk_ucd.specs.Reading.{Adds, count_of};
    ghost use Rattle.lbk_ucd.specs.Tables.{value_of};

    /// No rows and no defaults.
    pub(crate) fn new(alloc: Global, unlisted: V) -> Self
        ensures rows { result.rows.items ≡ [] }
        ensures defaults { result.defaults.items ≡ [] }
        ensures unlisted { result.unlisted ≡ unlisted }
    {
        Gathered {
            rows: Vec::new(alloc),
            defaults: Vec::new(alloc),
            unlisted,
            taken: Taken::new(alloc),
        }
    }

    /// How many rows and defaults there are.
    pub(crate) fn count(&self) -> usize
        ensures count { result ≡ count_of self.now }
        ensures most { result ≤ MOST_ROWS }
    {
        self.rows.len() + self.defaults.len()
    }

    /// Whether no further row or default has room.
    pub(crate) fn is_full(&self) -> bool
        ensures { result ≡ not (nat_lt (count_of self.now) MOST_ROWS) }
    {
        self.rows.len() + self.defaults.len() >= MOST_ROWS
    }

    /// Whether a row has one of these code points.
    pub(crate) fn any_shares(&self, span: Span) -> bool
        ensures { result ≡ list_any (shares span.first span.last) self.now.rows.items }
    {
        if self.taken.is_unused() {
            InOrder { rows: &self.rows }.shares(span)
        } else {
            self.taken.any(span)
        }
    }

    /// Keeps a row that shares no code point with the kept ones.
    pub(crate) fn add_row(&mut self, span: Span, value: V) -> Result<(), AllocError>
        requires apart { list_any (shares span.first span.last) self.old.rows.items ≡ false }
        requires room { count_of self.old < MOST_ROWS }
        ensures { OnOk result (Adds (Some (row_of span value)) None self.old self.new) }
    {
        self.take_before(span.first)?;
        self.rows.push(span.row(value))?;
        if !self.taken.is_unused() {
            self.taken.add(span);
        }
        Ok(())
    }

    /// Takes the code points of the kept rows, unless they are taken or all these rows end before this code point.
    fn take_before(&mut self, first: u32) -> Result<(), AllocError>
        ensures rows { self.new.rows.items ≡ self.old.rows.items }
        ensures defaults { self.new.defaults.items ≡ self.old.defaults.items }
        ensures unlisted { self.new.unlisted ≡ self.old.unlisted }
        ensures behind { OnOk result (self.new.taken.words.items ≡ []
            → All (λ other. other.last < first) self.new.rows.items) }
    {
        if self.taken.is_unused() && !(InOrder { rows: &self.rows }.stand_before(first)) {
            self.taken.add_rows(&Ranges { rows: &self.rows })?;
        }
        Ok(())
    }

    /// Keeps a further default line.
    pub(crate) fn add_default(&mut self, span: Span, value: V) -> Result<(), AllocError>
        requires { count_of self.old < MOST_ROWS }
        ensures { OnOk result (Adds None (Some (row_of span value)) self.old self.new) }
    {
        self.defaults.push(span.row(value))?;
        Ok(())
    }

    /// The values of code points by the rows and defaults. Allocates nothing if there are none.
    pub(crate) fn assigned(self, alloc: Global) -> Result<Assigned<V>, AllocError>
        ensures values { IfOk result
            (λ assigned. (code : ℕ) → value_of assigned code
            ≡ value_at self.rows.items self.defaults.items self.unlisted code) }
        ensures refused { OnErr result (0 < count_of self) }
    {
        let Gathered {
            rows,
            defaults,
            unlisted,
            taken: _,
        } = self;
        let rows = sorted(rows)?;
        if defaults.is_empty() {
            return Ok(Assigned { rows, unlisted });
        }
        let defaults = flatten(alloc, &Ranges { rows: &defaults })?;
        Ok(Assigned {
            rows: overlay(
                alloc,
                &InOrder { rows: &defaults },
                &InOrder { rows: &rows },
            )?,
            unlisted,
        })
    }
}
