//! What the rules ask about the left side of a position. What no rule distinguishes there is one value.

ghost use Rattle.std.specs.Prelude.{◌≡◌};
ghost use Rattle.lbk_uax14.specs.Asked.{asked_before_spaces, asked_class, asked_of_cell, asked_of_unit};
ghost use Rattle.lbk_uax14.specs.Asked.{decides_before_30b};

use crate::cells::Cell;
use crate::classes::{Class, Quote};

impl Class {
    /// What rules LB4 to LB10 ask about the class of the last cell.
    #[tactic(auto, unfolding(crate::specs::Classes::is, crate::specs::Asked::asked_of_cell))]
    pub(crate) fn asked_of_cell(self) -> Class
        ensures { result ≡ asked_of_cell self }
    {
        match self {
            Class::LineFeed | Class::NextLine => Class::LineFeed,
            Class::Space | Class::ZWSpace => Class::Space,
            Class::MandatoryBreak | Class::CarriageReturn | Class::ZWJ => self,
            _ => Class::Alphabetic,
        }
    }

    /// What rules LB14 to LB17 ask about the class before the spaces.
    #[tactic(auto, unfolding(crate::specs::Classes::is, crate::specs::Asked::asked_before_spaces))]
    pub(crate) fn asked_before_spaces(self) -> Class
        ensures { result ≡ asked_before_spaces self }
    {
        match self {
            Class::ClosePunctuation | Class::CloseParenthesis => Class::ClosePunctuation,
            Class::OpenPunctuation | Class::Quotation | Class::BreakBoth => self,
            _ => Class::Space,
        }
    }

    /// What the rules ask about the class of the last unit.
    #[tactic(auto, unfolding(crate::specs::Classes::is, crate::specs::Asked::asked_class))]
    fn asked_of_unit(self, wide: bool) -> Class
        ensures { result ≡ asked_class self wide }
    {
        match self {
            Class::MandatoryBreak | Class::CarriageReturn | Class::NextLine => Class::LineFeed,
            Class::Exclamation | Class::Inseparable => Class::Nonstarter,
            Class::EBase | Class::EModifier => Class::Ideographic,
            Class::H2 => Class::JV,
            Class::H3 => Class::JT,
            Class::CloseParenthesis if wide => Class::ClosePunctuation,
            _ => self,
        }
    }

    /// Whether a rule before LB30b decides if an emoji modifier comes after it.
    #[tactic(auto, unfolding(crate::specs::Classes::is))]
    fn decides_before_30b(self) -> bool
        ensures { result ≡ decides_before_30b self }
    {
        matches!(
            self,
            Class::WordJoiner
                | Class::Glue
                | Class::OpenPunctuation
                | Class::Space
                | Class::Quotation
                | Class::ContingentBreak
                | Class::BreakBefore
                | Class::PrefixNumeric
        )
    }
}

impl Cell {
    /// What the rules ask about the last unit.
    #[tactic(auto, unfolding(crate::specs::Asked::asked_of_unit))]
    pub(crate) fn asked_of_unit(self) -> Cell
        ensures { result ≡ asked_of_unit self }
    {
        let pictograph = !self.class.decides_before_30b() && self.pict_cn;
        Cell {
            class: self.class.asked_of_unit(self.wide),
            wide: false,
            pict_cn: self.class.is(Class::EBase) || pictograph,
            quote: if self.is_opening_mark() {
                Quote::Initial
            } else {
                Quote::Neither
            },
            letter: false,
        }
    }
}
