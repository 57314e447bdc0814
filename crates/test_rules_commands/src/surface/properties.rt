//! What `lbk_ucd` exports: the values of the properties, and their tables.

use crate::calls::{must, same};
use crate::property_calls::values_of;
use lbk_ucd::{
    Category, EastAsian, Files, LineBreak, SAMPLE_CATEGORY, SAMPLE_EAST_ASIAN, SAMPLE_EMOJI,
    SAMPLE_LINE_BREAK, Tables, UcdCause, UcdFault, Which,
};
use std::alloc::Global;

/// Each value: one more or less is an error here, and below.
fn line_break(value: LineBreak) {
    match value {
        LineBreak::Ambiguous
        | LineBreak::Alphabetic
        | LineBreak::BreakBoth
        | LineBreak::BreakAfter
        | LineBreak::BreakBefore
        | LineBreak::MandatoryBreak
        | LineBreak::ContingentBreak
        | LineBreak::ConditionalJapaneseStarter
        | LineBreak::ClosePunctuation
        | LineBreak::CombiningMark
        | LineBreak::CloseParenthesis
        | LineBreak::CarriageReturn
        | LineBreak::EBase
        | LineBreak::EModifier
        | LineBreak::Exclamation
        | LineBreak::Glue
        | LineBreak::H2
        | LineBreak::H3
        | LineBreak::HebrewLetter
        | LineBreak::Hyphen
        | LineBreak::Ideographic
        | LineBreak::Inseparable
        | LineBreak::InfixNumeric
        | LineBreak::JL
        | LineBreak::JT
        | LineBreak::JV
        | LineBreak::LineFeed
        | LineBreak::NextLine
        | LineBreak::Nonstarter
        | LineBreak::Numeric
        | LineBreak::OpenPunctuation
        | LineBreak::PostfixNumeric
        | LineBreak::PrefixNumeric
        | LineBreak::Quotation
        | LineBreak::RegionalIndicator
        | LineBreak::ComplexContext
        | LineBreak::Surrogate
        | LineBreak::Space
        | LineBreak::BreakSymbols
        | LineBreak::WordJoiner
        | LineBreak::Unknown
        | LineBreak::ZWSpace
        | LineBreak::ZWJ => {}
    }
}

fn east_asian(value: EastAsian) {
    match value {
        EastAsian::Ambiguous
        | EastAsian::Fullwidth
        | EastAsian::Halfwidth
        | EastAsian::Neutral
        | EastAsian::Narrow
        | EastAsian::Wide => {}
    }
}

fn category(value: Category) {
    match value {
        Category::Lu
        | Category::Ll
        | Category::Lt
        | Category::Lm
        | Category::Lo
        | Category::Mn
        | Category::Mc
        | Category::Me
        | Category::Nd
        | Category::Nl
        | Category::No
        | Category::Pc
        | Category::Pd
        | Category::Ps
        | Category::Pe
        | Category::Pi
        | Category::Pf
        | Category::Po
        | Category::Sm
        | Category::Sc
        | Category::Sk
        | Category::So
        | Category::Zs
        | Category::Zl
        | Category::Zp
        | Category::Cc
        | Category::Cf
        | Category::Cs
        | Category::Co
        | Category::Cn => {}
    }
}

fn which(value: Which) {
    match value {
        Which::LineBreak | Which::EastAsianWidth | Which::Category | Which::Emoji => {}
    }
}

fn ucd_cause(value: UcdCause) {
    match value {
        UcdCause::FileTooLong
        | UcdCause::LineTooLong
        | UcdCause::RowSyntax
        | UcdCause::Range
        | UcdCause::UnknownValue
        | UcdCause::Overlap
        | UcdCause::TooManyRows
        | UcdCause::Memory => {}
    }
}

fn read(alloc: Global, line_break: &[u8]) -> Result<Tables, UcdFault> {
    let east_asian: &[u8] = SAMPLE_EAST_ASIAN;
    let category: &[u8] = SAMPLE_CATEGORY;
    let emoji: &[u8] = SAMPLE_EMOJI;
    Tables::read(
        alloc,
        Files {
            line_break,
            east_asian,
            category,
            emoji,
        },
    )
}

#[test]
fn properties(rt: HostRuntime) {
    let sample: &[u8] = SAMPLE_LINE_BREAK;
    let tables: Tables = must(&rt, read(rt.alloc(), sample));
    let code: u32 = 0x1F466;
    let values: (LineBreak, EastAsian, Category, bool) = values_of(&rt, &tables, code);
    let want = (LineBreak::EBase, EastAsian::Wide, Category::So, true);
    same(&rt, &values, &want, &code);
    let refused: Result<Tables, UcdFault> = read(rt.alloc(), b"\n0061;AK\n");
    let line: u32 = 2;
    let fault = UcdFault {
        file: Which::LineBreak,
        line,
        cause: UcdCause::UnknownValue,
    };
    same(&rt, &refused.err(), &Some(fault), &"a bad row");
}
