//! The four property files: their differences, and the reader of each.

ghost use Rattle.std.specs.Prelude.{◌≡◌};
ghost use Rattle.lbk_ucd.specs.File.{named};
ghost use Rattle.lbk_ucd.specs.Names.{line_break_format, east_asian_format, category_format, emoji_format};
ghost use Rattle.lbk_ucd.specs.Reading.{IsRead};
ghost use Rattle.lbk_ucd.specs.Shown.{shown_names};

use crate::faults::UcdFault;
use crate::file::read_file;
use crate::ranges::Assigned;
use crate::which::Which;
use lbk_values::{Category, EastAsian, LineBreak};
use std::alloc::Global;

/// What differs from one property file to another.
pub(crate) struct Format<V: 'static> {
    /// The accepted names, each with its value, ordered by frequency in the published file.
    pub(crate) names: &'static [(&'static [u8], V)],
    /// Whether rows with other names are skipped instead of refused.
    pub(crate) others: bool,
    /// Whether the file has default lines.
    pub(crate) defaults: bool,
    /// The value of code points in neither a row nor a default.
    pub(crate) unlisted: V,
}

/// The value of a name; case matters.
pub(crate) fn value_named<V: Copy>(names: &[(&'static [u8], V)], name: &[u8]) -> Option<V>
    ensures { result ≡ named (shown_names names.now) name.now }
{
    for named in names {
        if named.0 == name {
            return Some(named.1);
        }
    }
    None
}

/// LineBreak.txt: the short and the long name of each value of Line_Break (PropertyValueAliases.txt).
static LINE_BREAK: Format<LineBreak> = Format {
    names: &[
        (b"AL", LineBreak::Alphabetic),
        (b"Alphabetic", LineBreak::Alphabetic),
        (b"CM", LineBreak::CombiningMark),
        (b"Combining_Mark", LineBreak::CombiningMark),
        (b"H2", LineBreak::H2),
        (b"H3", LineBreak::H3),
        (b"ID", LineBreak::Ideographic),
        (b"Ideographic", LineBreak::Ideographic),
        (b"SA", LineBreak::ComplexContext),
        (b"Complex_Context", LineBreak::ComplexContext),
        (b"AI", LineBreak::Ambiguous),
        (b"Ambiguous", LineBreak::Ambiguous),
        (b"BA", LineBreak::BreakAfter),
        (b"Break_After", LineBreak::BreakAfter),
        (b"OP", LineBreak::OpenPunctuation),
        (b"Open_Punctuation", LineBreak::OpenPunctuation),
        (b"CL", LineBreak::ClosePunctuation),
        (b"Close_Punctuation", LineBreak::ClosePunctuation),
        (b"NU", LineBreak::Numeric),
        (b"Numeric", LineBreak::Numeric),
        (b"B2", LineBreak::BreakBoth),
        (b"Break_Both", LineBreak::BreakBoth),
        (b"BB", LineBreak::BreakBefore),
        (b"Break_Before", LineBreak::BreakBefore),
        (b"BK", LineBreak::MandatoryBreak),
        (b"Mandatory_Break", LineBreak::MandatoryBreak),
        (b"CB", LineBreak::ContingentBreak),
        (b"Contingent_Break", LineBreak::ContingentBreak),
        (b"CJ", LineBreak::ConditionalJapaneseStarter),
        (
            b"Conditional_Japanese_Starter",
            LineBreak::ConditionalJapaneseStarter,
        ),
        (b"CP", LineBreak::CloseParenthesis),
        (b"Close_Parenthesis", LineBreak::CloseParenthesis),
        (b"CR", LineBreak::CarriageReturn),
        (b"Carriage_Return", LineBreak::CarriageReturn),
        (b"EB", LineBreak::EBase),
        (b"E_Base", LineBreak::EBase),
        (b"EM", LineBreak::EModifier),
        (b"E_Modifier", LineBreak::EModifier),
        (b"EX", LineBreak::Exclamation),
        (b"Exclamation", LineBreak::Exclamation),
        (b"GL", LineBreak::Glue),
        (b"Glue", LineBreak::Glue),
        (b"HL", LineBreak::HebrewLetter),
        (b"Hebrew_Letter", LineBreak::HebrewLetter),
        (b"HY", LineBreak::Hyphen),
        (b"Hyphen", LineBreak::Hyphen),
        (b"IN", LineBreak::Inseparable),
        (b"Inseparable", LineBreak::Inseparable),
        (b"IS", LineBreak::InfixNumeric),
        (b"Infix_Numeric", LineBreak::InfixNumeric),
        (b"JL", LineBreak::JL),
        (b"JT", LineBreak::JT),
        (b"JV", LineBreak::JV),
        (b"LF", LineBreak::LineFeed),
        (b"Line_Feed", LineBreak::LineFeed),
        (b"NL", LineBreak::NextLine),
        (b"Next_Line", LineBreak::NextLine),
        (b"NS", LineBreak::Nonstarter),
        (b"Nonstarter", LineBreak::Nonstarter),
        (b"PO", LineBreak::PostfixNumeric),
        (b"Postfix_Numeric", LineBreak::PostfixNumeric),
        (b"PR", LineBreak::PrefixNumeric),
        (b"Prefix_Numeric", LineBreak::PrefixNumeric),
        (b"QU", LineBreak::Quotation),
        (b"Quotation", LineBreak::Quotation),
        (b"RI", LineBreak::RegionalIndicator),
        (b"Regional_Indicator", LineBreak::RegionalIndicator),
        (b"SG", LineBreak::Surrogate),
        (b"Surrogate", LineBreak::Surrogate),
        (b"SP", LineBreak::Space),
        (b"Space", LineBreak::Space),
        (b"SY", LineBreak::BreakSymbols),
        (b"Break_Symbols", LineBreak::BreakSymbols),
        (b"WJ", LineBreak::WordJoiner),
        (b"Word_Joiner", LineBreak::WordJoiner),
        (b"XX", LineBreak::Unknown),
        (b"Unknown", LineBreak::Unknown),
        (b"ZW", LineBreak::ZWSpace),
        (b"ZWSpace", LineBreak::ZWSpace),
        (b"ZWJ", LineBreak::ZWJ),
    ],
    others: false,
    defaults: true,
    unlisted: LineBreak::Unknown,
};

/// Reads LineBreak.txt.
#[tactic(auto, unfolding(crate::specs::Names::line_break_format))]
pub(crate) fn read_line_break(alloc: Global, bytes: &[u8]) -> Result<Assigned<LineBreak>, UcdFault>
    ensures { IsRead Which.LineBreak line_break_format bytes.now result }
{
    read_file(alloc, Which::LineBreak, &LINE_BREAK, bytes)
}

/// EastAsianWidth.txt: the short and the long name of each value of East_Asian_Width.
static EAST_ASIAN: Format<EastAsian> = Format {
    names: &[
        (b"N", EastAsian::Neutral),
        (b"Neutral", EastAsian::Neutral),
        (b"W", EastAsian::Wide),
        (b"Wide", EastAsian::Wide),
        (b"A", EastAsian::Ambiguous),
        (b"Ambiguous", EastAsian::Ambiguous),
        (b"Na", EastAsian::Narrow),
        (b"Narrow", EastAsian::Narrow),
        (b"F", EastAsian::Fullwidth),
        (b"Fullwidth", EastAsian::Fullwidth),
        (b"H", EastAsian::Halfwidth),
        (b"Halfwidth", EastAsian::Halfwidth),
    ],
    others: false,
    defaults: true,
    unlisted: EastAsian::Neutral,
};

/// Reads EastAsianWidth.txt.
#[tactic(auto, unfolding(crate::specs::Names::east_asian_format))]
pub(crate) fn read_east_asian(alloc: Global, bytes: &[u8]) -> Result<Assigned<EastAsian>, UcdFault>
    ensures { IsRead Which.EastAsianWidth east_asian_format bytes.now result }
{
    read_file(alloc, Which::EastAsianWidth, &EAST_ASIAN, bytes)
}

/// DerivedGeneralCategory.txt: the short names of General_Category.
static CATEGORY: Format<Category> = Format {
    names: &[
        (b"Cn", Category::Cn),
        (b"Ll", Category::Ll),
        (b"Lu", Category::Lu),
        (b"Lo", Category::Lo),
        (b"Mn", Category::Mn),
        (b"Po", Category::Po),
        (b"So", Category::So),
        (b"Mc", Category::Mc),
        (b"Lt", Category::Lt),
        (b"Lm", Category::Lm),
        (b"Me", Category::Me),
        (b"Nd", Category::Nd),
        (b"Nl", Category::Nl),
        (b"No", Category::No),
        (b"Pc", Category::Pc),
        (b"Pd", Category::Pd),
        (b"Ps", Category::Ps),
        (b"Pe", Category::Pe),
        (b"Pi", Category::Pi),
        (b"Pf", Category::Pf),
        (b"Sm", Category::Sm),
        (b"Sc", Category::Sc),
        (b"Sk", Category::Sk),
        (b"Zs", Category::Zs),
        (b"Zl", Category::Zl),
        (b"Zp", Category::Zp),
        (b"Cc", Category::Cc),
        (b"Cf", Category::Cf),
        (b"Cs", Category::Cs),
        (b"Co", Category::Co),
    ],
    others: false,
    defaults: false,
    unlisted: Category::Cn,
};

/// Reads DerivedGeneralCategory.txt.
#[tactic(auto, unfolding(crate::specs::Names::category_format))]
pub(crate) fn read_category(alloc: Global, bytes: &[u8]) -> Result<Assigned<Category>, UcdFault>
    ensures { IsRead Which.Category category_format bytes.now result }
{
    read_file(alloc, Which::Category, &CATEGORY, bytes)
}

/// emoji-data.txt; only one property is kept.
static EMOJI: Format<bool> = Format {
    names: &[(b"Extended_Pictographic", true)],
    others: true,
    defaults: false,
    unlisted: false,
};

/// Reads emoji-data.txt.
#[tactic(auto, unfolding(crate::specs::Names::emoji_format))]
pub(crate) fn read_emoji(alloc: Global, bytes: &[u8]) -> Result<Assigned<bool>, UcdFault>
    ensures { IsRead Which.Emoji emoji_format bytes.now result }
{
    read_file(alloc, Which::Emoji, &EMOJI, bytes)
}
