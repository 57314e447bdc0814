//! Texts of three scalars with all combinations of classes and flags, and property files that give them these.

use crate::calls::{cell_of, pages_by};
use crate::cells::{mark, pictograph, plain, wide};
use crate::checks::same;
use lbk_rules::{Cell, CellPages, Class, Quote};
use lbk_ucd::Files;
use std::alloc::{AllocError, Global};
use std::test::Fail;

/// A scalar and its cell.
pub type Scalar = (char, Cell);

/// A scalar of each class, without flags.
const CLASSES: [(char, Class); 38] = [
    ('\u{100}', Class::Alphabetic),
    ('\u{101}', Class::BreakBoth),
    ('\u{102}', Class::BreakAfter),
    ('\u{103}', Class::BreakBefore),
    ('\u{104}', Class::MandatoryBreak),
    ('\u{105}', Class::ContingentBreak),
    ('\u{106}', Class::ClosePunctuation),
    ('\u{107}', Class::CombiningMark),
    ('\u{108}', Class::CloseParenthesis),
    ('\u{109}', Class::CarriageReturn),
    ('\u{10A}', Class::EBase),
    ('\u{10B}', Class::EModifier),
    ('\u{10C}', Class::Exclamation),
    ('\u{10D}', Class::Glue),
    ('\u{10E}', Class::H2),
    ('\u{10F}', Class::H3),
    ('\u{110}', Class::HebrewLetter),
    ('\u{111}', Class::Hyphen),
    ('\u{112}', Class::Ideographic),
    ('\u{113}', Class::Inseparable),
    ('\u{114}', Class::InfixNumeric),
    ('\u{115}', Class::JL),
    ('\u{116}', Class::JT),
    ('\u{117}', Class::JV),
    ('\u{118}', Class::LineFeed),
    ('\u{119}', Class::NextLine),
    ('\u{11A}', Class::Nonstarter),
    ('\u{11B}', Class::Numeric),
    ('\u{11C}', Class::OpenPunctuation),
    ('\u{11D}', Class::PostfixNumeric),
    ('\u{11E}', Class::PrefixNumeric),
    ('\u{11F}', Class::Quotation),
    ('\u{120}', Class::RegionalIndicator),
    ('\u{121}', Class::Space),
    ('\u{122}', Class::BreakSymbols),
    ('\u{123}', Class::WordJoiner),
    ('\u{124}', Class::ZWSpace),
    ('\u{125}', Class::ZWJ),
];

/// One cell for each flag that a rule uses.
fn flagged() -> [Scalar; 5] {
    [
        ('\u{126}', wide(Class::OpenPunctuation)),
        ('\u{127}', wide(Class::CloseParenthesis)),
        ('\u{128}', pictograph()),
        ('\u{129}', mark(Quote::Initial)),
        ('\u{12A}', mark(Quote::Final)),
    ]
}

/// All these.
pub fn each_once(alloc: Global) -> Result<Vec<Scalar>, AllocError> {
    let mut scalars = Vec::new(alloc);
    for (c, class) in CLASSES {
        scalars.push((c, plain(class)))?;
    }
    scalars.extend_from_slice(&flagged())?;
    Ok(scalars)
}

/// All texts of three of these scalars.
pub fn triples(alloc: Global, scalars: &[Scalar]) -> Result<Vec<[Scalar; 3]>, AllocError> {
    let mut texts = Vec::new(alloc);
    for first in scalars {
        for second in scalars {
            for third in scalars {
                texts.push([*first, *second, *third])?;
            }
        }
    }
    Ok(texts)
}

/// All texts of three of all these.
pub fn texts_of_three(alloc: Global) -> Result<Vec<[Scalar; 3]>, Fail> {
    let texts = triples(alloc, &each_once(alloc)?)?;
    same(&texts.len(), &79_507, &"43 scalars, and no less")?;
    Ok(texts)
}

pub fn cells_of_three(text: &[Scalar; 3]) -> [Cell; 3] {
    [text[0].1, text[1].1, text[2].1]
}

/// Property files that give the code points from 0100 to 012A all these cells and marks, in order.
const EACH_ONCE: Files<'static> = Files {
    line_break: b"\
0100;AL
0101;B2
0102;BA
0103;BB
0104;BK
0105;CB
0106;CL
0107;CM
0108;CP
0109;CR
010A;EB
010B;EM
010C;EX
010D;GL
010E;H2
010F;H3
0110;HL
0111;HY
0112;ID
0113;IN
0114;IS
0115;JL
0116;JT
0117;JV
0118;LF
0119;NL
011A;NS
011B;NU
011C;OP
011D;PO
011E;PR
011F;QU
0120;RI
0121;SP
0122;SY
0123;WJ
0124;ZW
0125;ZWJ
0126;OP
0127;CP
0128;ID
0129;QU
012A;QU
",
    east_asian: b"0126..0127;W\n",
    category: b"0129;Pi\n012A;Pf\n",
    emoji: b"0128;Extended_Pictographic\n",
};

/// The pages of these files, with the cells of these scalars.
pub fn pages_with(alloc: Global, files: Files<'_>, scalars: &[Scalar]) -> Result<CellPages, Fail> {
    let pages = pages_by(alloc, files)?;
    check_cells(&pages, scalars)?;
    Ok(pages)
}

fn check_cells(pages: &CellPages, scalars: &[Scalar]) -> Result<(), Fail> {
    for (c, cell) in scalars {
        same(&cell_of(pages, *c), cell, c)?;
    }
    Ok(())
}

/// The pages with each cell once.
pub fn pages_of_each_once(alloc: Global) -> Result<CellPages, Fail> {
    let scalars = each_once(alloc)?;
    pages_with(alloc, EACH_ONCE, &scalars)
}
