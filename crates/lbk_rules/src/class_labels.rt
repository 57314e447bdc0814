//! The names of line breaking classes.

ghost use Rattle.std.specs.Prelude.{◌≡◌, ◌≤◌, length};
ghost use Rattle.lbk_rules.specs.ClassLabels.{class_label};

use lbk_uax14::Class;

/// The name of a class, as LineBreak.txt has it (UAX #14, section 5.1).
pub fn class_label(class: Class) -> &'static str
    ensures name { result.now ≡ class_label class }
    ensures short { length result.now ≤ 4 }
{
    match class {
        Class::Alphabetic => "AL",
        Class::BreakBoth => "B2",
        Class::BreakAfter => "BA",
        Class::BreakBefore => "BB",
        Class::MandatoryBreak => "BK",
        Class::ContingentBreak => "CB",
        Class::ClosePunctuation => "CL",
        Class::CombiningMark => "CM",
        Class::CloseParenthesis => "CP",
        Class::CarriageReturn => "CR",
        Class::EBase => "EB",
        Class::EModifier => "EM",
        Class::Exclamation => "EX",
        Class::Glue => "GL",
        Class::H2 => "H2",
        Class::H3 => "H3",
        Class::HebrewLetter => "HL",
        Class::Hyphen => "HY",
        Class::Ideographic => "ID",
        Class::Inseparable => "IN",
        Class::InfixNumeric => "IS",
        Class::JL => "JL",
        Class::JT => "JT",
        Class::JV => "JV",
        Class::LineFeed => "LF",
        Class::NextLine => "NL",
        Class::Nonstarter => "NS",
        Class::Numeric => "NU",
        Class::OpenPunctuation => "OP",
        Class::PostfixNumeric => "PO",
        Class::PrefixNumeric => "PR",
        Class::Quotation => "QU",
        Class::RegionalIndicator => "RI",
        Class::Space => "SP",
        Class::BreakSymbols => "SY",
        Class::WordJoiner => "WJ",
        Class::ZWSpace => "ZW",
        Class::ZWJ => "ZWJ",
    }
}
