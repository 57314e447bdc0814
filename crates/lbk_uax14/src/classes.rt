//! Line breaking classes, and the sets of them in the rules (UAX #14, section 5.1).

ghost use Rattle.std.specs.Prelude.{◌≡◌};
ghost use Rattle.lbk_uax14.specs.Classes.{is, hard, mark, closes_before, opens_after, ◌or◌, AL, BA, BK, CL, CP, CR};
ghost use Rattle.lbk_uax14.specs.Classes.{EB, EM, EX, GL, isH2, isH3, HL, HY, ID, IS, isJL, isJT, isJV, LF, NL, NS};
ghost use Rattle.lbk_uax14.specs.Classes.{NU, OP, PO, PR, QU, SP, SY, WJ, ZW};

/// A line breaking class as rule LB1 resolves it (UAX #14, section 5.1): the values of `Line_Break` without AI, CJ, SA,
/// SG and XX.
#[derive(Clone, Copy, PartialEq, Eq, Debug)]
pub enum Class {
    Alphabetic,
    BreakBoth,
    BreakAfter,
    BreakBefore,
    MandatoryBreak,
    ContingentBreak,
    ClosePunctuation,
    CombiningMark,
    CloseParenthesis,
    CarriageReturn,
    EBase,
    EModifier,
    Exclamation,
    Glue,
    H2,
    H3,
    HebrewLetter,
    Hyphen,
    Ideographic,
    Inseparable,
    InfixNumeric,
    JL,
    JT,
    JV,
    LineFeed,
    NextLine,
    Nonstarter,
    Numeric,
    OpenPunctuation,
    PostfixNumeric,
    PrefixNumeric,
    Quotation,
    RegionalIndicator,
    Space,
    BreakSymbols,
    WordJoiner,
    ZWSpace,
    ZWJ,
}

#[tactic(auto, unfolding(crate::specs::Classes::is))]
impl Class {
    /// Whether this is the class `other`.
    pub fn is(self, other: Class) -> bool
        ensures { result ≡ is other self }
    {
        self as u8 == other as u8
    }

    /// Whether a mark after it has no base.
    pub fn is_hard(self) -> bool
        ensures { result ≡ hard self }
    {
        matches!(
            self,
            Class::MandatoryBreak
                | Class::CarriageReturn
                | Class::LineFeed
                | Class::NextLine
                | Class::Space
                | Class::ZWSpace
        )
    }

    /// Whether it joins the character before it (rule LB9).
    pub fn is_mark(self) -> bool
        ensures { result ≡ mark self }
    {
        matches!(self, Class::CombiningMark | Class::ZWJ)
    }

    /// Whether a line ends after it (rules LB4 to LB6).
    pub fn ends_line(self) -> bool
        ensures { result ≡ (BK or CR or LF or NL) self }
    {
        matches!(
            self,
            Class::MandatoryBreak | Class::CarriageReturn | Class::LineFeed | Class::NextLine
        )
    }

    /// Whether it is a space, of no width too (rule LB7).
    pub fn is_space(self) -> bool
        ensures { result ≡ (SP or ZW) self }
    {
        matches!(self, Class::Space | Class::ZWSpace)
    }

    /// Whether a glue after it may begin a line (rule LB12a).
    pub fn is_space_or_hyphen(self) -> bool
        ensures { result ≡ (SP or BA or HY) self }
    {
        matches!(self, Class::Space | Class::BreakAfter | Class::Hyphen)
    }

    /// Whether it stays with what is before it, even after spaces (rule LB13).
    pub fn is_end_punctuation(self) -> bool
        ensures { result ≡ (CL or CP or EX or IS or SY) self }
    {
        matches!(
            self,
            Class::ClosePunctuation
                | Class::CloseParenthesis
                | Class::Exclamation
                | Class::InfixNumeric
                | Class::BreakSymbols
        )
    }

    /// Whether it closes a bracket (rule LB16).
    pub fn is_closing(self) -> bool
        ensures { result ≡ (CL or CP) self }
    {
        matches!(self, Class::ClosePunctuation | Class::CloseParenthesis)
    }

    /// Whether no line begins with it (rule LB21).
    pub fn is_never_first(self) -> bool
        ensures { result ≡ (BA or HY or NS) self }
    {
        matches!(self, Class::BreakAfter | Class::Hyphen | Class::Nonstarter)
    }

    /// Whether it is a hyphen after a Hebrew letter (rule LB21a).
    pub fn is_hyphen(self) -> bool
        ensures { result ≡ (HY or BA) self }
    {
        matches!(self, Class::Hyphen | Class::BreakAfter)
    }

    /// Whether it is a letter (rules LB23, LB24, LB28 and LB29).
    pub fn is_letter(self) -> bool
        ensures { result ≡ (AL or HL) self }
    {
        matches!(self, Class::Alphabetic | Class::HebrewLetter)
    }

    /// Whether it is a letter or a digit (rule LB30).
    pub fn is_letter_or_digit(self) -> bool
        ensures { result ≡ (AL or HL or NU) self }
    {
        matches!(
            self,
            Class::Alphabetic | Class::HebrewLetter | Class::Numeric
        )
    }

    /// Whether it is an ideograph or an emoji (rule LB23a).
    pub fn is_ideographic(self) -> bool
        ensures { result ≡ (ID or EB or EM) self }
    {
        matches!(self, Class::Ideographic | Class::EBase | Class::EModifier)
    }

    /// Whether it is a prefix or a postfix of numbers (rule LB24).
    pub fn is_affix(self) -> bool
        ensures { result ≡ (PR or PO) self }
    {
        matches!(self, Class::PrefixNumeric | Class::PostfixNumeric)
    }

    /// Whether it is a Korean syllable or a part of one (rule LB27).
    pub fn is_syllable(self) -> bool
        ensures { result ≡ (isJL or isJV or isJT or isH2 or isH3) self }
    {
        matches!(
            self,
            Class::JL | Class::JV | Class::JT | Class::H2 | Class::H3
        )
    }

    /// Whether it continues a leading consonant (rule LB26).
    pub fn follows_leading(self) -> bool
        ensures { result ≡ (isJL or isJV or isH2 or isH3) self }
    {
        matches!(self, Class::JL | Class::JV | Class::H2 | Class::H3)
    }

    /// Whether it ends with a vowel (rule LB26).
    pub fn ends_in_vowel(self) -> bool
        ensures { result ≡ (isJV or isH2) self }
    {
        matches!(self, Class::JV | Class::H2)
    }

    /// Whether it continues a vowel (rule LB26).
    pub fn follows_vowel(self) -> bool
        ensures { result ≡ (isJV or isJT) self }
    {
        matches!(self, Class::JV | Class::JT)
    }

    /// Whether it ends with a trailing consonant (rule LB26).
    pub fn ends_in_consonant(self) -> bool
        ensures { result ≡ (isJT or isH3) self }
    {
        matches!(self, Class::JT | Class::H3)
    }

    /// Whether a quotation mark after it opens (rule LB15a).
    pub fn opens_after(self) -> bool
        ensures { result ≡ opens_after self }
    {
        matches!(
            self,
            Class::MandatoryBreak
                | Class::CarriageReturn
                | Class::LineFeed
                | Class::NextLine
                | Class::OpenPunctuation
                | Class::Quotation
                | Class::Glue
                | Class::Space
                | Class::ZWSpace
        )
    }

    /// Whether a quotation mark before it closes (rule LB15b).
    pub fn closes_before(self) -> bool
        ensures { result ≡ closes_before self }
    {
        matches!(
            self,
            Class::Space
                | Class::Glue
                | Class::WordJoiner
                | Class::ClosePunctuation
                | Class::Quotation
                | Class::CloseParenthesis
                | Class::Exclamation
                | Class::InfixNumeric
                | Class::BreakSymbols
                | Class::MandatoryBreak
                | Class::CarriageReturn
                | Class::LineFeed
                | Class::NextLine
                | Class::ZWSpace
        )
    }
}

/// Whether a quotation mark opens or closes, by its general category: `Initial` for Pi, `Final`
/// for Pf.
#[derive(Clone, Copy, PartialEq, Eq, Debug)]
pub enum Quote {
    Neither,
    Initial,
    Final,
}
