//! Ranges of code points with a value, and look-ups in them.

ghost use Rattle.std.specs.Prelude.{◌≡◌, ◌≤◌, ◌<◌, ℕ, true, length, unwrap_or};
ghost use Rattle.std.specs.List.{All, AllWithin, list_any};
ghost use Rattle.lbk_ucd.specs.Ranges.{IsFirstFrom, IsInOrder, IsRange, IsStretch, row_of};
ghost use Rattle.lbk_ucd.specs.Rows.{first_value, shares};

use crate::span::Span;

/// The greatest code point.
pub(crate) const LAST_CODE: u32 = 0x10_FFFF;

/// The code points from `first` to `last`, both included, and their value.
#[derive(Clone, Copy)]
pub(crate) struct Row<V> {
    pub(crate) first: u32,
    pub(crate) last: u32,
    pub(crate) value: V,
}

impl Span {
    /// These code points with a value.
    pub(crate) fn row<V: Copy>(self, value: V) -> Row<V>
        ensures row { result ≡ row_of self value }
        ensures range { IsRange result }
    {
        Row {
            first: self.first,
            last: self.last,
            value,
        }
    }
}

/// A value, the last code point up to which all have it, and the index of the first row that does not end before the
/// first of them.
#[derive(Clone, Copy)]
pub(crate) struct Stretch<V> {
    pub(crate) value: V,
    pub(crate) last: u32,
    pub(crate) at: usize,
}

/// The values of code points in one file: disjoint rows, sorted by code point, and the value of all other code points.
#[derive(Drop)]
pub(crate) struct Assigned<V> {
    pub(crate) rows: Vec<Row<V>>,
    pub(crate) unlisted: V,
    ghost ordered: { IsInOrder rows.items },
}

/// Rows sorted by code point, of which no two share one.
#[derive(Drop)]
pub(crate) struct InOrder<'a, V> {
    pub(crate) rows: &'a [Row<V>],
    ghost ordered: { IsInOrder rows.now },
}

/// Rows, none of which ends before it begins or above the greatest code point.
#[derive(Drop)]
pub(crate) struct Ranges<'a, V> {
    pub(crate) rows: &'a [Row<V>],
    ghost each: { All IsRange rows.now },
}

impl<V: Copy> Assigned<V> {
    ghost use Rattle.lbk_ucd.specs.Tables.{value_of};

    /// The value of a code point.
    pub(crate) fn value(&self, code: u32) -> V
        ensures { result ≡ value_of self.now code }
    {
        let sorted = InOrder { rows: &self.rows };
        sorted.value(code).unwrap_or(self.unlisted)
    }

    /// The value of a code point, and the last one up to which all have it. The look-up is fast if `near` is the index
    /// of a range that ends a little before the code point.
    pub(crate) fn stretch(&self, code: u32, near: usize) -> Stretch<V>
        ensures { IsStretch (value_of self.now) code result.last result.value }
    {
        let sorted = InOrder { rows: &self.rows };
        let found = sorted.stretch_from(sorted.first_near(code, near), code);
        Stretch {
            value: found.value.unwrap_or(self.unlisted),
            last: found.last,
            at: found.at,
        }
    }
}

impl<V: Copy> InOrder<'_, V> {
    /// Whether one of the rows has one of these code points.
    pub(crate) fn shares(&self, span: Span) -> bool
        ensures { result ≡ list_any (shares span.first span.last) self.now.rows.now }
    {
        let rows = self.rows;
        let at = self.first_near(span.first, rows.len());
        at < rows.len() && rows[at].first <= span.last
    }

    /// Whether all of the rows end before a code point.
    pub(crate) fn stand_before(&self, code: u32) -> bool
        ensures { result ≡ true → All (λ row. row.last < code) self.now.rows.now }
    {
        let rows = self.rows;
        self.first_near(code, rows.len()) == rows.len()
    }

    /// The value of the row that has a code point, by binary search.
    fn value(&self, code: u32) -> Option<V>
        ensures { result ≡ first_value code self.now.rows.now }
    {
        let rows = self.rows;
        let at = self.first_near(code, 0);
        if at < rows.len() && rows[at].first <= code {
            Some(rows[at].value)
        } else {
            None
        }
    }

    /// The value of the row that has a code point, if one has it, and the last code point with the same result. The
    /// rows before `at` end before the code point, the others do not.
    pub(crate) fn stretch_from(&self, at: usize, code: u32) -> Stretch<Option<V>>
        requires { IsFirstFrom self.now.rows.now code at }
        ensures { IsStretch (λ k. first_value k self.now.rows.now) code result.last result.value }
    {
        let rows = self.rows;
        if at == rows.len() {
            return Stretch {
                value: None,
                last: LAST_CODE,
                at,
            };
        }
        let row = rows[at];
        if code < row.first {
            Stretch {
                value: None,
                last: row.first - 1,
                at,
            }
        } else {
            Stretch {
                value: Some(row.value),
                last: row.last,
                at,
            }
        }
    }

    /// The index of the first row that does not end before a code point, or the number of rows. It is searched from the
    /// index `near` on if the rows before that end before the code point, and else by binary search.
    fn first_near(&self, code: u32, near: usize) -> usize
        ensures { IsFirstFrom self.now.rows.now code result }
    {
        let rows = self.rows;
        if 0 < near && near <= rows.len() && rows[near - 1].last < code {
            return self.next_from(near, code);
        }
        rows.partition_point(|row| row.last < code)
    }

    /// The index of the first row that does not end before a code point; those before `at` do.
    pub(crate) fn next_from(&self, at: usize, code: u32) -> usize
        requires within { at ≤ length self.now.rows.now }
        requires before { AllWithin (λ row. row.last < code) self.now.rows.now 0 at }
        ensures { IsFirstFrom self.now.rows.now code result }
    {
        let rows = self.rows;
        let mut next = at;
        while next < rows.len() && rows[next].last < code {
            next += 1;
        }
        next
    }
}
