//! The breaks of texts in memory agree with the evaluator in both profiles: of texts with the sample files, with pages
//! and with tables, in blocks of all sizes; and of every text of three scalars.

use crate::calls::{Setting, decided, must, same};
use lbk_bytes::RawBreak;
use lbk_cmd::SAMPLE_FILES;
use lbk_passage::{Break, Breaks, RawBreaks};
use lbk_rules::{CellPages, CellSource, Kind, Profile, Rule, Verdict, verdict_of};
use std::alloc::{AllocError, Global};
use std::fmt::Write;
use std::process::Abort;
use std::test::Fail;
use test_support::calls::{pages_by, tables_of};
use test_support::cells::cells_of;
use test_support::texts::{FIRST, SECOND};
use test_support::triples::{Scalar, pages_of_each_once, texts_of_three};

/// A text, and the offset, the kind and the rule of each of its breaks.
type Row = (&'static str, &'static str);

/// In both profiles.
static BOTH: [Row; 8] = [
    ("", ""),
    ("ab cd", "3 May 18 5 Must 3 "),
    ("a\r\nb", "3 Must 5 4 Must 3 "),
    ("\n\n", "1 Must 5 2 Must 3 "),
    ("e\u{301} b", "4 May 18 5 Must 3 "),
    ("\u{4E00}\u{4E00}", "3 May 31 6 Must 3 "),
    ("a \u{2019}\u{301}b", "2 May 18 8 Must 3 "),
    (
        "a \u{2019}a \u{2019}b\nc",
        "2 May 18 7 May 18 12 Must 5 13 Must 3 ",
    ),
];

/// In the first profile.
static IN_FIRST: [Row; 2] = [
    ("a \u{2019}\u{301},", "2 May 18 8 Must 3 "),
    ("\u{4E00} \u{2019} \u{4E00}", "4 May 18 8 May 18 11 Must 3 "),
];

/// The same in the second profile, where a closing quotation mark stays closed.
static IN_SECOND: [Row; 2] = [
    ("a \u{2019}\u{301},", "8 Must 3 "),
    ("\u{4E00} \u{2019} \u{4E00}", "8 May 18 11 Must 3 "),
];

const NO_BREAK: Break = Break {
    at: 0,
    kind: Kind::No,
    rule: Rule::Lb31,
};

const NO_NUMBERS: RawBreak = RawBreak {
    at: 0,
    kind: 0,
    rule: 0,
};

/// The sizes of blocks.
const SIZES: [usize; 4] = [1, 2, 3, 1024];

/// The breaks of the next block; after the last one there are none.
fn next_block<'b, C: CellSource>(
    breaks: &mut Breaks<'_, C>,
    block: &'b mut [Break],
) -> &'b [Break] {
    let count = breaks.fill(block);
    block.get(..count).unwrap_or(&[])
}

/// All breaks, in blocks of this size. A call after the last one returns none.
fn by_blocks<C: CellSource>(
    setting: &Setting<'_, C>,
    text: &str,
    size: usize,
) -> Result<Vec<Break>, AllocError> {
    let mut breaks = Breaks::new(setting.source, text, setting.profile);
    let mut block = vec![in setting.alloc; NO_BREAK; size]?;
    let mut found = Vec::new(setting.alloc);
    for _ in 0..=text.len() {
        found.extend_from_slice(next_block(&mut breaks, &mut block))?;
    }
    Ok(found)
}

/// All breaks, by their numbers in blocks of this size.
fn by_numbers<C: CellSource>(
    setting: &Setting<'_, C>,
    text: &str,
    size: usize,
) -> Result<Vec<Break>, AllocError> {
    let mut breaks = RawBreaks::new(setting.source, text, setting.profile);
    let mut block = vec![in setting.alloc; NO_NUMBERS; size]?;
    let mut found = Vec::new(setting.alloc);
    for _ in 0..=text.len() {
        let count = breaks.fill(&mut block);
        for one in block.get(..count).unwrap_or(&[]) {
            let number = (256 * u16::from(one.rule)).saturating_add(u16::from(one.kind));
            push_break(&mut found, one.at, verdict_of(number))?;
        }
    }
    Ok(found)
}

fn one_by_one<C: CellSource>(
    setting: &Setting<'_, C>,
    text: &str,
) -> Result<Vec<Break>, AllocError> {
    Breaks::new(setting.source, text, setting.profile).collect(setting.alloc)
}

/// Adds the break at this byte, unless the verdict is No.
fn push_break(found: &mut Vec<Break>, at: usize, verdict: Verdict) -> Result<(), AllocError> {
    let Verdict { kind, rule } = verdict;
    if kind != Kind::No {
        found.push(Break { at, kind, rule })?;
    }
    Ok(())
}

/// The positions after the first that are not No, by the plain rules.
fn by_rules<C: CellSource>(rt: &impl Abort, setting: &Setting<'_, C>, text: &str) -> Vec<Break> {
    let cells = must(rt, cells_of(setting.alloc, setting.source, text));
    let mut found = Vec::new(setting.alloc);
    let mut k = 0usize;
    let mut at = 0usize;
    for c in text.chars() {
        k = k.saturating_add(1);
        at = at.saturating_add(c.len_utf8());
        let verdict = decided(rt, setting.profile, &cells, k);
        must(rt, push_break(&mut found, at, verdict));
    }
    found
}

fn shown(alloc: Global, breaks: &[Break]) -> Result<String, AllocError> {
    let mut shown = String::new(alloc);
    for one in breaks {
        let label = one.rule.label();
        write!(shown, "{} {:?} {label} ", one.at, one.kind)?;
    }
    Ok(shown)
}

/// Compares the breaks of a text by the rules with those one by one.
fn agreed<C: CellSource>(rt: &impl Abort, setting: &Setting<'_, C>, text: &str) -> Vec<Break> {
    let want = by_rules(rt, setting, text);
    let found = must(rt, one_by_one(setting, text));
    same(rt, &found.as_slice(), &want.as_slice(), &text);
    want
}

/// Also with those in blocks of all sizes, and returns them as text.
fn agreed_in_blocks<C: CellSource>(
    rt: &impl Abort,
    setting: &Setting<'_, C>,
    text: &str,
) -> String {
    let want = agreed(rt, setting, text);
    for size in &SIZES {
        let found = must(rt, by_blocks(setting, text, *size));
        same(rt, &found.as_slice(), &want.as_slice(), &(*size, text));
        let numbers = must(rt, by_numbers(setting, text, *size));
        same(rt, &numbers.as_slice(), &want.as_slice(), &(*size, text));
    }
    must(rt, shown(setting.alloc, &want))
}

/// Compares the breaks of each text with its row.
fn check<C: CellSource>(rt: &impl Abort, setting: &Setting<'_, C>, rows: &[Row]) {
    for (text, want) in rows {
        let found = agreed_in_blocks(rt, setting, text);
        same(rt, &found.as_str(), want, text);
    }
}

/// All texts of some rows, and these joined.
fn check_agreement<C: CellSource>(rt: &impl Abort, setting: &Setting<'_, C>, rows: &[Row]) {
    let mut joined = String::new(setting.alloc);
    for (text, _) in rows {
        must(rt, joined.push_str(text));
        let _ = agreed_in_blocks(rt, setting, text);
    }
    let _ = agreed_in_blocks(rt, setting, joined.as_str());
}

/// In each profile its own rows, and those of both.
fn check_source<C: CellSource>(rt: &impl Abort, alloc: Global, source: &C) {
    for (profile, rows) in [(Profile::First, &IN_FIRST), (Profile::Second, &IN_SECOND)] {
        let setting = Setting {
            alloc,
            source,
            profile,
        };
        check(rt, &setting, &BOTH);
        check(rt, &setting, rows);
        check_agreement(rt, &setting, &FIRST);
        check_agreement(rt, &setting, &SECOND);
    }
}

#[test]
fn breaks_of_texts(rt: HostRuntime) -> Result<(), Fail> {
    check_source(&rt, rt.alloc(), &pages_by(rt.alloc(), SAMPLE_FILES)?);
    check_source(&rt, rt.alloc(), &tables_of(rt.alloc(), SAMPLE_FILES)?);
    Ok(())
}

/// The text of these scalars.
fn text_of(alloc: Global, scalars: &[Scalar; 3]) -> Result<String, AllocError> {
    let mut text = String::new(alloc);
    for (c, _) in scalars {
        text.push(*c)?;
    }
    Ok(text)
}

fn check_texts(rt: &impl Abort, setting: &Setting<'_, CellPages>, texts: &[[Scalar; 3]]) {
    for scalars in texts {
        let text = must(rt, text_of(setting.alloc, scalars));
        let _ = agreed(rt, setting, &text);
    }
}

#[test]
fn breaks_by_rows(rt: HostRuntime) -> Result<(), Fail> {
    let pages = pages_of_each_once(rt.alloc())?;
    let texts = texts_of_three(rt.alloc())?;
    for profile in [Profile::First, Profile::Second] {
        let setting = Setting {
            alloc: rt.alloc(),
            source: &pages,
            profile,
        };
        check_texts(&rt, &setting, &texts);
    }
    Ok(())
}
