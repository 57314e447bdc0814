//! The few facts about the left side of a position that the rules need.

ghost use Rattle.std.specs.Prelude.{◌≡◌, [], ◌∷◌, reverse};
ghost use Rattle.lbk_uax14.specs.Facts.{facts, facts_of_units};
ghost use Rattle.lbk_uax14.specs.Units.{heads};
ghost use Rattle.lbk_uax14.specs.Sides.{Side};

use crate::cells::Cell;
use crate::classes::{Class, Quote};

/// What the rules ask about the units before a position.
#[derive(Clone, Copy, PartialEq, Eq, Debug)]
pub struct Before {
    /// What the rules ask about the last unit; a space if there is none.
    pub last: Cell,
    /// Whether the last unit that is no space is OP, QU, CL (also for CP) or B2. A space means any other class.
    pub before_spaces: Class,
    /// Whether the last unit is HY or BA, and the one before it a Hebrew letter (rule LB21a).
    pub hebrew_hyphen: bool,
    /// Whether the run of regional indicators at the end has odd length.
    pub odd_indicators: bool,
    /// Whether an opening quotation mark that stays open is at the end, or before the spaces there.
    pub opens_quotation: bool,
}

/// What the rules ask about the cells before a position.
#[derive(Clone, Copy, PartialEq, Eq, Debug)]
pub struct Left {
    /// Whether there are none.
    pub empty: bool,
    /// The class of the last cell, or SP if there is none: LF also means NL, SP also ZW, and AL any class except BK,
    /// CR, LF, SP and ZWJ.
    pub last: Class,
    /// Whether they end with a zero width space and any number of spaces.
    pub past_zero_width: bool,
    /// What the rules ask about their units.
    pub units: Before,
}

const SPACE: Cell = Cell {
    class: Class::Space,
    wide: false,
    pict_cn: false,
    quote: Quote::Neither,
    letter: false,
};

impl Before {
    /// The facts after one more unit.
    fn then(self, unit: Cell) -> Before
        ensures { (side : Side) → facts_of_units side ≡ self → result ≡ facts_of_units (unit ∷ side) }
    {
        let space = unit.class.is(Class::Space);
        let opens = unit.is_opening_mark() && self.last.class.opens_after();
        let indicator = unit.class.is(Class::RegionalIndicator);
        Before {
            before_spaces: if space {
                self.before_spaces
            } else {
                unit.class.asked_before_spaces()
            },
            hebrew_hyphen: unit.class.is_hyphen() && self.last.class.is(Class::HebrewLetter),
            odd_indicators: indicator && !self.odd_indicators,
            opens_quotation: if space { self.opens_quotation } else { opens },
            last: unit.asked_of_unit(),
        }
    }
}

impl Left {
    /// The facts at the start of a text.
    #[tactic(auto, unfolding(crate::specs::Classes::is, crate::specs::Asked::asked_of_cell, crate::specs::Asked::asked_before_spaces, crate::specs::Asked::asked_class, crate::specs::Asked::asked_of_unit, crate::specs::Facts::facts, crate::specs::Sides::before_spaces, crate::specs::Sides::at_odd_run, crate::specs::Sides::opens_quotation))]
    pub fn start() -> Left
        ensures { result ≡ facts [] }
    {
        let units = Before {
            last: SPACE,
            before_spaces: Class::Space,
            hebrew_hyphen: false,
            odd_indicators: false,
            opens_quotation: false,
        };
        Left {
            empty: true,
            last: Class::Space,
            past_zero_width: false,
            units,
        }
    }

    /// Whether a cell that follows heads a unit (rules LB9 and LB10).
    #[tactic(auto, unfolding(crate::specs::Facts::facts))]
    pub fn heads(self, cell: Cell) -> bool
        ensures { (side : Side) → facts side ≡ self → result ≡ heads side cell }
    {
        self.last.is_hard() || !cell.class.is_mark()
    }

    /// The facts after one more cell.
    #[tactic(auto, unfolding(crate::specs::Facts::facts, crate::specs::Sides::before_spaces))]
    pub fn then(self, cell: Cell) -> Left
        ensures { (side : Side) → facts side ≡ self → result ≡ facts (cell ∷ side) }
    {
        let space = cell.class.is(Class::Space);
        let past_zero_width = if space {
            self.past_zero_width
        } else {
            cell.class.is(Class::ZWSpace)
        };
        let heads = self.heads(cell);
        let units = if heads {
            self.units.then(cell.unit())
        } else {
            self.units
        };
        Left {
            empty: false,
            last: cell.class.asked_of_cell(),
            past_zero_width,
            units,
        }
    }

    /// The facts after these cells.
    pub fn of(cells: &[Cell]) -> Left
        ensures { result ≡ facts (reverse cells.now) }
    {
        let mut left = Left::start();
        for cell in cells {
            left = left.then(*cell);
        }
        left
    }
}
