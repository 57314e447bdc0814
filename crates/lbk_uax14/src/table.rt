//! The rules of UAX #14, section 6, in order, a method for each group. The first one that matches decides.
ghost use Rattle.std.specs.Prelude.{◌≡◌, ◌&&◌, [], ◌∷◌};
ghost use Rattle.lbk_values.specs.declared.profile.Profile.TheVariants.{First, Second};
ghost use Rattle.lbk_uax14.specs.Chain.{choose, from_11, from_14, from_15, from_16, from_19, from_23, from_25};
ghost use Rattle.lbk_uax14.specs.Chain.{from_26, from_28, from_cells};
ghost use Rattle.lbk_uax14.specs.Classes.{ZW, hard, is};
ghost use Rattle.lbk_uax14.specs.Facts.{class_cell, closes_in, facts, units_before, Sees};
ghost use Rattle.lbk_uax14.specs.Rules.{cell_rules};
ghost use Rattle.lbk_uax14.specs.Sides.{Side, leaves_closed, past_spaces};
ghost use Rattle.lbk_uax14.specs.Units.{units, units_after};

use crate::cells::Cell;
use crate::classes::Class;
use crate::facts::{Before, Left};
use crate::verdicts::{Rule, Verdict};
use lbk_values::Profile;

impl Left {
    /// The verdict before `right`. `closes` says, in the second profile, whether the unit after the one that `right`
    /// heads leaves a closing quotation mark closed.
    #[tactic(auto, unfolding(crate::specs::Rules::cell_rules, crate::specs::Facts::facts, crate::specs::Chain::from_cells))]
    pub fn verdict(self, profile: Profile, right: Cell, closes: bool) -> Verdict
        ensures { (side more : Side) → facts side ≡ self
            → closes_in profile (units_after (hard right.class) more) ≡ closes
            → result ≡ from_cells profile side (right ∷ more) }
    {
        if self.empty {
            Verdict::no(Rule::Lb2)
        } else {
            self.from_4(profile, right, closes)
        }
    }

    /// The verdict at the end of the text.
    #[tactic(auto, unfolding(crate::specs::Rules::cell_rules, crate::specs::Facts::facts, crate::specs::Chain::from_cells))]
    pub fn verdict_at_end(self) -> Verdict
        ensures { (profile : Profile) (side : Side) → facts side ≡ self → result ≡ from_cells profile side [] }
    {
        if self.empty {
            Verdict::no(Rule::Lb2)
        } else {
            Verdict::must(Rule::Lb3)
        }
    }

    /// Rules LB4 to LB31, after some cell. It sees only what the rules ask about that cell.
    #[tactic(auto, unfolding(crate::specs::Rules::cell_rules))]
    fn from_4(self, profile: Profile, right: Cell, closes: bool) -> Verdict
        ensures { (cell : Cell) (side more : Side) → facts (cell ∷ side) ≡ self
            → past_spaces ZW (class_cell self.last ∷ cell ∷ side) ≡ self.past_zero_width
            → closes_in profile (units_after (hard right.class) more) ≡ closes
            → result ≡ choose cell_rules (class_cell self.last ∷ cell ∷ side) (right ∷ more)
            (from_11 profile (units_before (cell ∷ side)) (units (right ∷ more))) }
    {
        if self.last.is(Class::MandatoryBreak) {
            return Verdict::must(Rule::Lb4);
        }
        if self.last.is(Class::CarriageReturn) && right.class.is(Class::LineFeed) {
            return Verdict::no(Rule::Lb5);
        }
        if self.last.ends_line() {
            return Verdict::must(Rule::Lb5);
        }
        if right.class.ends_line() {
            return Verdict::no(Rule::Lb6);
        }
        if right.class.is_space() {
            return Verdict::no(Rule::Lb7);
        }
        if self.past_zero_width {
            return Verdict::may(Rule::Lb8);
        }
        if self.last.is(Class::ZWJ) {
            return Verdict::no(Rule::Lb8a);
        }
        if right.class.is_mark() && !self.last.is_hard() {
            return Verdict::no(Rule::Lb9);
        }
        self.over_units(profile, right, closes)
    }

    /// Rules LB11 to LB31, which look at units.
    fn over_units(self, profile: Profile, right: Cell, closes: bool) -> Verdict
        ensures { (cell : Cell) (side more : Side) → facts (cell ∷ side) ≡ self
            → closes_in profile (units_after (hard right.class) more) ≡ closes
            → result ≡ from_11 profile (units_before (cell ∷ side)) (units (right ∷ more)) }
    {
        self.units.from_11(profile, right.unit(), closes)
    }
}

impl Before {
    /// Rules LB11 to LB13: word joiner, non-breaking characters, closing punctuation.
    #[tactic(auto, unfolding(crate::specs::Rules::joining_rules, crate::specs::Chain::from_11))]
    fn from_11(self, profile: Profile, right: Cell, closes: bool) -> Verdict
        ensures { (side more : Side) → Sees self side → closes_in profile more ≡ closes
            → result ≡ from_11 profile (self.last ∷ side) (right ∷ more) }
    {
        if right.class.is(Class::WordJoiner) {
            return Verdict::no(Rule::Lb11);
        }
        if self.last.class.is(Class::WordJoiner) {
            return Verdict::no(Rule::Lb11);
        }
        if self.last.class.is(Class::Glue) {
            return Verdict::no(Rule::Lb12);
        }
        if !self.last.class.is_space_or_hyphen() && right.class.is(Class::Glue) {
            return Verdict::no(Rule::Lb12a);
        }
        if right.class.is_end_punctuation() {
            return Verdict::no(Rule::Lb13);
        }
        self.from_14(profile, right, closes)
    }

    /// Rule LB14: opening punctuation.
    #[tactic(auto, unfolding(crate::specs::Rules::opening_rules, crate::specs::Chain::from_14))]
    fn from_14(self, profile: Profile, right: Cell, closes: bool) -> Verdict
        ensures { (side more : Side) → Sees self side → closes_in profile more ≡ closes
            → result ≡ from_14 profile (self.last ∷ side) (right ∷ more) }
    {
        if self.before_spaces.is(Class::OpenPunctuation) {
            return Verdict::no(Rule::Lb14);
        }
        match profile {
            Profile::First => self.from_15(right),
            Profile::Second => self.from_15a(right, closes),
        }
    }

    /// Rule LB15: quotation marks in the first profile.
    #[tactic(auto, unfolding(crate::specs::Rules::quotation_rules, crate::specs::Chain::from_15))]
    fn from_15(self, right: Cell) -> Verdict
        ensures { (side more : Side) → Sees self side
            → result ≡ from_15 First (self.last ∷ side) (right ∷ more) }
    {
        if self.before_spaces.is(Class::Quotation) && right.class.is(Class::OpenPunctuation) {
            return Verdict::no(Rule::Lb15);
        }
        self.from_16(right)
    }

    /// Rules LB15a and LB15b: quotation marks in the second profile.
    #[tactic(auto, unfolding(crate::specs::Rules::quotation_rules, crate::specs::Chain::from_15))]
    fn from_15a(self, right: Cell, closes: bool) -> Verdict
        ensures { (side more : Side) → Sees self side → leaves_closed more ≡ closes
            → result ≡ from_15 Second (self.last ∷ side) (right ∷ more) }
    {
        if self.opens_quotation {
            return Verdict::no(Rule::Lb15a);
        }
        if right.is_closing_mark() && closes {
            return Verdict::no(Rule::Lb15b);
        }
        self.from_16(right)
    }

    /// Rules LB16 to LB18: closing punctuation and nonstarters, dashes, spaces.
    #[tactic(auto, unfolding(crate::specs::Rules::space_rules, crate::specs::Chain::from_16))]
    fn from_16(self, right: Cell) -> Verdict
        ensures { (side more : Side) → Sees self side → result ≡ from_16 (self.last ∷ side) (right ∷ more) }
    {
        if self.before_spaces.is_closing() && right.class.is(Class::Nonstarter) {
            return Verdict::no(Rule::Lb16);
        }
        if self.before_spaces.is(Class::BreakBoth) && right.class.is(Class::BreakBoth) {
            return Verdict::no(Rule::Lb17);
        }
        if self.last.class.is(Class::Space) {
            return Verdict::may(Rule::Lb18);
        }
        self.from_19(right)
    }

    /// Rules LB19 to LB22: quotation marks, contingent breaks, hyphens, leaders.
    #[tactic(auto, unfolding(crate::specs::Rules::hyphen_rules, crate::specs::Chain::from_19))]
    fn from_19(self, right: Cell) -> Verdict
        ensures { (side more : Side) → Sees self side → result ≡ from_19 (self.last ∷ side) (right ∷ more) }
    {
        if right.class.is(Class::Quotation) {
            return Verdict::no(Rule::Lb19);
        }
        if self.last.class.is(Class::Quotation) {
            return Verdict::no(Rule::Lb19);
        }
        if right.class.is(Class::ContingentBreak) {
            return Verdict::may(Rule::Lb20);
        }
        if self.last.class.is(Class::ContingentBreak) {
            return Verdict::may(Rule::Lb20);
        }
        if right.class.is_never_first() {
            return Verdict::no(Rule::Lb21);
        }
        if self.last.class.is(Class::BreakBefore) {
            return Verdict::no(Rule::Lb21);
        }
        if self.hebrew_hyphen {
            return Verdict::no(Rule::Lb21a);
        }
        if self.last.class.is(Class::BreakSymbols) && right.class.is(Class::HebrewLetter) {
            return Verdict::no(Rule::Lb21b);
        }
        if right.class.is(Class::Inseparable) {
            return Verdict::no(Rule::Lb22);
        }
        self.from_23(right)
    }

    /// Rules LB23 and LB24: letters and digits, prefixes and postfixes.
    #[tactic(auto, unfolding(crate::specs::Rules::affix_rules, crate::specs::Chain::from_23))]
    fn from_23(self, right: Cell) -> Verdict
        ensures { (side more : Side) → Sees self side → result ≡ from_23 (self.last ∷ side) (right ∷ more) }
    {
        if self.last.class.is_letter() && right.class.is(Class::Numeric) {
            return Verdict::no(Rule::Lb23);
        }
        if self.last.class.is(Class::Numeric) && right.class.is_letter() {
            return Verdict::no(Rule::Lb23);
        }
        if self.last.class.is(Class::PrefixNumeric) && right.class.is_ideographic() {
            return Verdict::no(Rule::Lb23a);
        }
        if self.last.class.is_ideographic() && right.class.is(Class::PostfixNumeric) {
            return Verdict::no(Rule::Lb23a);
        }
        if self.last.class.is_affix() && right.class.is_letter() {
            return Verdict::no(Rule::Lb24);
        }
        if self.last.class.is_letter() && right.class.is_affix() {
            return Verdict::no(Rule::Lb24);
        }
        self.from_25(right)
    }

    /// Rule LB25: numbers.
    #[tactic(auto, unfolding(crate::specs::Rules::number_rules, crate::specs::Chain::from_25))]
    fn from_25(self, right: Cell) -> Verdict
        ensures { (side more : Side) → Sees self side → result ≡ from_25 (self.last ∷ side) (right ∷ more) }
    {
        if self.meets(right, Class::ClosePunctuation, Class::PostfixNumeric) {
            return Verdict::no(Rule::Lb25);
        }
        if self.meets(right, Class::CloseParenthesis, Class::PostfixNumeric) {
            return Verdict::no(Rule::Lb25);
        }
        if self.meets(right, Class::ClosePunctuation, Class::PrefixNumeric) {
            return Verdict::no(Rule::Lb25);
        }
        if self.meets(right, Class::CloseParenthesis, Class::PrefixNumeric) {
            return Verdict::no(Rule::Lb25);
        }
        if self.meets(right, Class::Numeric, Class::PostfixNumeric) {
            return Verdict::no(Rule::Lb25);
        }
        if self.meets(right, Class::Numeric, Class::PrefixNumeric) {
            return Verdict::no(Rule::Lb25);
        }
        if self.meets(right, Class::PostfixNumeric, Class::OpenPunctuation) {
            return Verdict::no(Rule::Lb25);
        }
        if self.meets(right, Class::PostfixNumeric, Class::Numeric) {
            return Verdict::no(Rule::Lb25);
        }
        if self.meets(right, Class::PrefixNumeric, Class::OpenPunctuation) {
            return Verdict::no(Rule::Lb25);
        }
        if self.meets(right, Class::PrefixNumeric, Class::Numeric) {
            return Verdict::no(Rule::Lb25);
        }
        if self.meets(right, Class::Hyphen, Class::Numeric) {
            return Verdict::no(Rule::Lb25);
        }
        if self.meets(right, Class::InfixNumeric, Class::Numeric) {
            return Verdict::no(Rule::Lb25);
        }
        if self.meets(right, Class::Numeric, Class::Numeric) {
            return Verdict::no(Rule::Lb25);
        }
        if self.meets(right, Class::BreakSymbols, Class::Numeric) {
            return Verdict::no(Rule::Lb25);
        }
        self.from_26(right)
    }

    /// Rules LB26 and LB27: Korean syllable blocks.
    #[tactic(auto, unfolding(crate::specs::Rules::syllable_rules, crate::specs::Chain::from_26))]
    fn from_26(self, right: Cell) -> Verdict
        ensures { (side more : Side) → Sees self side → result ≡ from_26 (self.last ∷ side) (right ∷ more) }
    {
        if self.last.class.is(Class::JL) && right.class.follows_leading() {
            return Verdict::no(Rule::Lb26);
        }
        if self.last.class.ends_in_vowel() && right.class.follows_vowel() {
            return Verdict::no(Rule::Lb26);
        }
        if self.last.class.ends_in_consonant() && right.class.is(Class::JT) {
            return Verdict::no(Rule::Lb26);
        }
        if self.last.class.is_syllable() && right.class.is(Class::PostfixNumeric) {
            return Verdict::no(Rule::Lb27);
        }
        if self.last.class.is(Class::PrefixNumeric) && right.class.is_syllable() {
            return Verdict::no(Rule::Lb27);
        }
        self.from_28(right)
    }

    /// Rules LB28 to LB31: letters, parentheses, flags, emoji, all others.
    #[tactic(auto, unfolding(crate::specs::Rules::letter_rules, crate::specs::Chain::from_28))]
    fn from_28(self, right: Cell) -> Verdict
        ensures { (side more : Side) → Sees self side → result ≡ from_28 (self.last ∷ side) (right ∷ more) }
    {
        if self.last.class.is_letter() && right.class.is_letter() {
            return Verdict::no(Rule::Lb28);
        }
        if self.last.class.is(Class::InfixNumeric) && right.class.is_letter() {
            return Verdict::no(Rule::Lb29);
        }
        if self.last.class.is_letter_or_digit() && right.is_narrow(Class::OpenPunctuation) {
            return Verdict::no(Rule::Lb30);
        }
        if self.last.is_narrow(Class::CloseParenthesis) && right.class.is_letter_or_digit() {
            return Verdict::no(Rule::Lb30);
        }
        if self.odd_indicators && right.class.is(Class::RegionalIndicator) {
            return Verdict::no(Rule::Lb30a);
        }
        if self.meets(right, Class::EBase, Class::EModifier) {
            return Verdict::no(Rule::Lb30b);
        }
        if self.last.pict_cn && right.class.is(Class::EModifier) {
            return Verdict::no(Rule::Lb30b);
        }
        Verdict::may(Rule::Lb31)
    }

    /// Whether the last unit has the one class and `right` the other.
    fn meets(self, right: Cell, class: Class, right_class: Class) -> bool
        ensures { result ≡ (is class self.last.class && is right_class right.class) }
    {
        self.last.class.is(class) && right.class.is(right_class)
    }
}
