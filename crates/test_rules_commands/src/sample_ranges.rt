//! The sample files, range by range: the tables' values for the first and the last code point of each, and for those on
//! either side.

use crate::calls::{must, same};
use crate::property_calls::{LAST_CODE, values_of};
use lbk_cmd::SAMPLE_FILES;
use lbk_ucd::{Category, EastAsian, LineBreak, Tables};
use std::alloc::{AllocError, Global};
use std::process::Abort;
use std::test::Fail;
use test_support::calls::tables_of;

/// First code point, last code point and value of a range. The last range of each table is the default.
type Range<T> = (u32, u32, T);

static LINE_BREAKS: [Range<LineBreak>; 49] = [
    (0xA, 0xA, LineBreak::LineFeed),
    (0xB, 0xC, LineBreak::MandatoryBreak),
    (0xD, 0xD, LineBreak::CarriageReturn),
    (0x20, 0x20, LineBreak::Space),
    (0x21, 0x21, LineBreak::Exclamation),
    (0x22, 0x22, LineBreak::Quotation),
    (0x23, 0x23, LineBreak::Alphabetic),
    (0x24, 0x24, LineBreak::PrefixNumeric),
    (0x25, 0x25, LineBreak::PostfixNumeric),
    (0x28, 0x28, LineBreak::OpenPunctuation),
    (0x29, 0x29, LineBreak::CloseParenthesis),
    (0x2C, 0x2C, LineBreak::InfixNumeric),
    (0x2D, 0x2D, LineBreak::Hyphen),
    (0x2F, 0x2F, LineBreak::BreakSymbols),
    (0x30, 0x39, LineBreak::Numeric),
    (0x41, 0x5A, LineBreak::Alphabetic),
    (0x61, 0x7A, LineBreak::Alphabetic),
    (0x7C, 0x7C, LineBreak::BreakAfter),
    (0x7D, 0x7D, LineBreak::ClosePunctuation),
    (0x85, 0x85, LineBreak::NextLine),
    (0xA0, 0xA0, LineBreak::Glue),
    (0xA7, 0xA7, LineBreak::Ambiguous),
    (0xB4, 0xB4, LineBreak::BreakBefore),
    (0x300, 0x34E, LineBreak::CombiningMark),
    (0x5D0, 0x5EA, LineBreak::HebrewLetter),
    (0xE01, 0xE31, LineBreak::ComplexContext),
    (0x1100, 0x1100, LineBreak::JL),
    (0x1161, 0x1161, LineBreak::JV),
    (0x11A8, 0x11A8, LineBreak::JT),
    (0x200B, 0x200B, LineBreak::ZWSpace),
    (0x200D, 0x200D, LineBreak::ZWJ),
    (0x2014, 0x2014, LineBreak::BreakBoth),
    (0x2018, 0x2019, LineBreak::Quotation),
    (0x2026, 0x2026, LineBreak::Inseparable),
    (0x2060, 0x2060, LineBreak::WordJoiner),
    (0x3005, 0x3005, LineBreak::Nonstarter),
    (0x3041, 0x3041, LineBreak::ConditionalJapaneseStarter),
    (0x4E00, 0x9FFF, LineBreak::Ideographic),
    (0xAC00, 0xAC00, LineBreak::H2),
    (0xAC01, 0xAC01, LineBreak::H3),
    (0xD800, 0xDFFF, LineBreak::Surrogate),
    (0xFF08, 0xFF08, LineBreak::OpenPunctuation),
    (0xFFFC, 0xFFFC, LineBreak::ContingentBreak),
    (0x1F1E6, 0x1F1FF, LineBreak::RegionalIndicator),
    (0x1F3FB, 0x1F3FF, LineBreak::EModifier),
    (0x1F466, 0x1F478, LineBreak::EBase),
    (0xFEFF, 0xFEFF, LineBreak::WordJoiner),
    (0x1F000, 0x1FAFF, LineBreak::Ideographic),
    (0x0, 0x10FFFF, LineBreak::Unknown),
];

static WIDTHS: [Range<EastAsian>; 11] = [
    (0x20, 0x7E, EastAsian::Narrow),
    (0x2014, 0x2014, EastAsian::Ambiguous),
    (0x20A9, 0x20A9, EastAsian::Halfwidth),
    (0x3005, 0x3005, EastAsian::Wide),
    (0x3041, 0x3041, EastAsian::Wide),
    (0x4E00, 0x9FFF, EastAsian::Wide),
    (0xAC00, 0xAC01, EastAsian::Wide),
    (0xFF08, 0xFF08, EastAsian::Fullwidth),
    (0x1F3FB, 0x1F3FF, EastAsian::Wide),
    (0x1F466, 0x1F478, EastAsian::Wide),
    (0x0, 0x10FFFF, EastAsian::Neutral),
];

static CATEGORIES: [Range<Category>; 46] = [
    (0x41, 0x5A, Category::Lu),
    (0x61, 0x7A, Category::Ll),
    (0x3005, 0x3005, Category::Lm),
    (0x5D0, 0x5EA, Category::Lo),
    (0xE01, 0xE30, Category::Lo),
    (0x1100, 0x1100, Category::Lo),
    (0x1161, 0x1161, Category::Lo),
    (0x11A8, 0x11A8, Category::Lo),
    (0x3041, 0x3041, Category::Lo),
    (0x4E00, 0x9FFF, Category::Lo),
    (0xAC00, 0xAC01, Category::Lo),
    (0x300, 0x34E, Category::Mn),
    (0xE31, 0xE31, Category::Mn),
    (0x30, 0x39, Category::Nd),
    (0x20, 0x20, Category::Zs),
    (0xA0, 0xA0, Category::Zs),
    (0xA, 0xD, Category::Cc),
    (0x85, 0x85, Category::Cc),
    (0x200B, 0x200B, Category::Cf),
    (0x200D, 0x200D, Category::Cf),
    (0x2060, 0x2060, Category::Cf),
    (0xFEFF, 0xFEFF, Category::Cf),
    (0xD800, 0xDFFF, Category::Cs),
    (0x2D, 0x2D, Category::Pd),
    (0x2014, 0x2014, Category::Pd),
    (0x28, 0x28, Category::Ps),
    (0xFF08, 0xFF08, Category::Ps),
    (0x29, 0x29, Category::Pe),
    (0x7D, 0x7D, Category::Pe),
    (0x2018, 0x2018, Category::Pi),
    (0x2019, 0x2019, Category::Pf),
    (0x21, 0x23, Category::Po),
    (0x25, 0x25, Category::Po),
    (0x2C, 0x2C, Category::Po),
    (0x2F, 0x2F, Category::Po),
    (0xA7, 0xA7, Category::Po),
    (0x2026, 0x2026, Category::Po),
    (0x7C, 0x7C, Category::Sm),
    (0x24, 0x24, Category::Sc),
    (0x20A9, 0x20A9, Category::Sc),
    (0xB4, 0xB4, Category::Sk),
    (0x1F3FB, 0x1F3FF, Category::Sk),
    (0xFFFC, 0xFFFC, Category::So),
    (0x1F1E6, 0x1F1FF, Category::So),
    (0x1F466, 0x1F478, Category::So),
    (0x0, 0x10FFFF, Category::Cn),
];

static PICTOGRAPHS: [Range<bool>; 5] = [
    (0x1F466, 0x1F478, true),
    (0x1FAFF, 0x1FAFF, true),
    (0x23, 0x23, false),
    (0x1F3FB, 0x1F3FF, false),
    (0x0, 0x10FFFF, false),
];

/// The value of the first range with the code point.
fn value_at<T: Copy>(ranges: &[Range<T>], code: u32) -> Option<T> {
    for (first, last, value) in ranges {
        if *first <= code && code <= *last {
            return Some(*value);
        }
    }
    None
}

/// The first and the last code point of each range, and those on either side.
fn push_codes<T>(codes: &mut Vec<u32>, ranges: &[Range<T>]) -> Result<(), AllocError> {
    for (first, last, _) in ranges {
        codes.extend_from_slice(&[
            first.saturating_sub(1),
            *first,
            *last,
            last.saturating_add(1).min(LAST_CODE),
        ])?;
    }
    Ok(())
}

fn check(rt: &impl Abort, tables: &Tables, code: u32) {
    let (line_break, width, category, is_pictographic) = values_of(rt, tables, code);
    same(rt, &Some(line_break), &value_at(&LINE_BREAKS, code), &code);
    same(rt, &Some(width), &value_at(&WIDTHS, code), &code);
    same(rt, &Some(category), &value_at(&CATEGORIES, code), &code);
    same(
        rt,
        &Some(is_pictographic),
        &value_at(&PICTOGRAPHS, code),
        &code,
    );
}

fn codes(rt: &impl Abort, alloc: Global) -> Vec<u32> {
    let mut codes = Vec::new(alloc);
    must(rt, push_codes(&mut codes, &LINE_BREAKS));
    must(rt, push_codes(&mut codes, &WIDTHS));
    must(rt, push_codes(&mut codes, &CATEGORIES));
    must(rt, push_codes(&mut codes, &PICTOGRAPHS));
    codes
}

#[test]
fn sample_ranges(rt: HostRuntime) -> Result<(), Fail> {
    let tables = tables_of(rt.alloc(), SAMPLE_FILES)?;
    for code in &codes(&rt, rt.alloc()) {
        check(&rt, &tables, *code);
    }
    Ok(())
}
