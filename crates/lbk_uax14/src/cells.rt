//! What the rules see of a scalar value.

ghost use Rattle.std.specs.Prelude.{◌≡◌, ℕ, ◌&&◌, ◌||◌, not, Some, None, IfSome, if◌then◌else◌};
ghost use Rattle.lbk_uax14.specs.Classes.{closes_before, hard, is, mark, none_of};
ghost use Rattle.lbk_uax14.specs.Sides.{opening, closing};
ghost use Rattle.lbk_uax14.specs.Units.{unit};

use crate::classes::{Class, Quote};

/// What the rules see of a scalar value.
#[derive(Clone, Copy, PartialEq, Eq, Debug)]
pub struct Cell {
    /// The class that rule LB1 resolves it to.
    pub class: Class,
    /// East Asian Width F, W or H (rule LB30).
    pub wide: bool,
    /// Extended_Pictographic and of category Cn (rule LB30b).
    pub pict_cn: bool,
    /// Whether it opens or closes a quotation.
    pub quote: Quote,
    /// Whether its category begins with L or N. No rule reads it; it tells words from other pieces.
    pub letter: bool,
}

impl Cell {
    /// The unit that this cell heads (rules LB9 and LB10): a mark without a base is a plain letter.
    pub fn unit(self) -> Cell
        ensures { result ≡ unit self }
    {
        if self.class.is_mark() { LETTER } else { self }
    }

    /// Whether it is a quotation mark that opens.
    pub fn is_opening_mark(self) -> bool
        ensures { result ≡ opening self }
    {
        self.class.is(Class::Quotation) && matches!(self.quote, Quote::Initial)
    }

    /// Whether it is a quotation mark that closes.
    pub fn is_closing_mark(self) -> bool
        ensures { result ≡ closing self }
    {
        self.class.is(Class::Quotation) && matches!(self.quote, Quote::Final)
    }

    /// Whether the unit that it heads leaves a closing quotation mark before it closed (rule LB15b). `None` if it heads
    /// no unit: it is a mark, and `fresh` is false.
    pub fn unit_closes(self, fresh: bool) -> Option<bool>
        ensures { result ≡ (if fresh || none_of mark self.class then Some (closes_before (unit self).class) else None) }
    {
        if fresh || !self.class.is_mark() {
            return Some(self.unit().class.closes_before());
        }
        None
    }

    /// Whether a mark after it heads a unit (rule LB10), because a line may end after it.
    pub fn leaves_fresh(self) -> bool
        ensures { result ≡ hard self.class }
    {
        self.class.is_hard()
    }

    /// Whether it is of this class, and not wide (rule LB30).
    pub fn is_narrow(self, class: Class) -> bool
        ensures { result ≡ (is class self.class && not self.wide) }
    {
        self.class.is(class) && !self.wide
    }
}

const LETTER: Cell = Cell {
    class: Class::Alphabetic,
    wide: false,
    pict_cn: false,
    quote: Quote::Neither,
    letter: false,
};
