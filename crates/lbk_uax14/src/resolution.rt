//! The cell of a scalar value, from its properties (UAX #14, section 6.1, rule LB1).

ghost use Rattle.std.specs.Prelude.{◌≡◌};
ghost use Rattle.lbk_uax14.specs.Resolve.{cell_of_properties, class_of, is_letter_or_number, is_wide, quote_of};

use crate::cells::Cell;
use crate::classes::{Class, Quote};
use lbk_values::{Category, EastAsian, LineBreak};

/// The cell of a scalar value with these properties: its class by rule LB1, and its flags (UAX #14,
/// section 6.1). `pictographic` is Extended_Pictographic.
pub fn resolve(
    line_break: LineBreak,
    east_asian: EastAsian,
    category: Category,
    pictographic: bool,
) -> Cell
    ensures { result ≡ cell_of_properties line_break east_asian category pictographic }
{
    Cell {
        class: class_of(line_break, category),
        wide: is_wide(east_asian),
        pict_cn: pictographic && matches!(category, Category::Cn),
        quote: quote_of(category),
        letter: is_letter_or_number(category),
    }
}

/// Rule LB1.
fn class_of(line_break: LineBreak, category: Category) -> Class
    ensures { result ≡ class_of line_break category }
{
    match line_break {
        LineBreak::Ambiguous | LineBreak::Surrogate | LineBreak::Unknown => Class::Alphabetic,
        LineBreak::ComplexContext => match category {
            Category::Mn | Category::Mc => Class::CombiningMark,
            _ => Class::Alphabetic,
        },
        LineBreak::ConditionalJapaneseStarter => Class::Nonstarter,
        LineBreak::Alphabetic => Class::Alphabetic,
        LineBreak::BreakBoth => Class::BreakBoth,
        LineBreak::BreakAfter => Class::BreakAfter,
        LineBreak::BreakBefore => Class::BreakBefore,
        LineBreak::MandatoryBreak => Class::MandatoryBreak,
        LineBreak::ContingentBreak => Class::ContingentBreak,
        LineBreak::ClosePunctuation => Class::ClosePunctuation,
        LineBreak::CombiningMark => Class::CombiningMark,
        LineBreak::CloseParenthesis => Class::CloseParenthesis,
        LineBreak::CarriageReturn => Class::CarriageReturn,
        LineBreak::EBase => Class::EBase,
        LineBreak::EModifier => Class::EModifier,
        LineBreak::Exclamation => Class::Exclamation,
        LineBreak::Glue => Class::Glue,
        LineBreak::H2 => Class::H2,
        LineBreak::H3 => Class::H3,
        LineBreak::HebrewLetter => Class::HebrewLetter,
        LineBreak::Hyphen => Class::Hyphen,
        LineBreak::Ideographic => Class::Ideographic,
        LineBreak::Inseparable => Class::Inseparable,
        LineBreak::InfixNumeric => Class::InfixNumeric,
        LineBreak::JL => Class::JL,
        LineBreak::JT => Class::JT,
        LineBreak::JV => Class::JV,
        LineBreak::LineFeed => Class::LineFeed,
        LineBreak::NextLine => Class::NextLine,
        LineBreak::Nonstarter => Class::Nonstarter,
        LineBreak::Numeric => Class::Numeric,
        LineBreak::OpenPunctuation => Class::OpenPunctuation,
        LineBreak::PostfixNumeric => Class::PostfixNumeric,
        LineBreak::PrefixNumeric => Class::PrefixNumeric,
        LineBreak::Quotation => Class::Quotation,
        LineBreak::RegionalIndicator => Class::RegionalIndicator,
        LineBreak::Space => Class::Space,
        LineBreak::BreakSymbols => Class::BreakSymbols,
        LineBreak::WordJoiner => Class::WordJoiner,
        LineBreak::ZWSpace => Class::ZWSpace,
        LineBreak::ZWJ => Class::ZWJ,
    }
}

/// Whether it is wide for rule LB30: East Asian Width F, W or H.
fn is_wide(east_asian: EastAsian) -> bool
    ensures { result ≡ is_wide east_asian }
{
    matches!(
        east_asian,
        EastAsian::Fullwidth | EastAsian::Wide | EastAsian::Halfwidth
    )
}

/// Whether a quotation mark of this category opens or closes.
fn quote_of(category: Category) -> Quote
    ensures { result ≡ quote_of category }
{
    match category {
        Category::Pi => Quote::Initial,
        Category::Pf => Quote::Final,
        _ => Quote::Neither,
    }
}

/// Whether the category begins with L or N.
fn is_letter_or_number(category: Category) -> bool
    ensures { result ≡ is_letter_or_number category }
{
    matches!(
        category,
        Category::Lu
            | Category::Ll
            | Category::Lt
            | Category::Lm
            | Category::Lo
            | Category::Nd
            | Category::Nl
            | Category::No
    )
}
