//! Lines of the notation: what is read, refused, written and marked.

use crate::tests::calls::sample_cells;
use lbk_notation::{
    Form, LineFault, Mark, TestLine, laws, mark_of, push_line, push_mark, push_passage_line,
    push_scalar, read_back, read_passage_line,
};
use lbk_rules::{Cell, CellPages, Kind, Profile, Rule, Verdict, decide_all_in};
use std::alloc::{AllocError, Global};
use std::test::Fail;
use test_support::calls::{mark_text, read_line, write_line};
use test_support::cells::cells_of;
use test_support::checks::same;

/// What `read_line` returns: a line, as it is written in the same form, none, or the offset where it is wrong.
enum Want {
    Line(&'static str),
    Nothing,
    Bad(u32),
}

static PLAIN: [(&str, Want); 34] = [
    ("× 0023 × 0023 ÷\t# note", Want::Line("× 0023 × 0023 ÷")),
    ("×", Want::Line("×")),
    ("× 0023 ÷\r", Want::Line("× 0023 ÷")),
    ("× 0023 ÷ \t\r", Want::Line("× 0023 ÷")),
    ("× 10FFFF ÷", Want::Line("× 10FFFF ÷")),
    ("× FFFFF ÷", Want::Line("× FFFFF ÷")),
    ("× E000 ÷", Want::Line("× E000 ÷")),
    ("× D7FF ÷", Want::Line("× D7FF ÷")),
    ("× 100000 ÷", Want::Line("× 100000 ÷")),
    ("×  0061\t÷# c", Want::Line("× 0061 ÷")),
    (" \t× 0061 ÷", Want::Line("× 0061 ÷")),
    ("#", Want::Nothing),
    ("# × 0061\r ÷", Want::Nothing),
    ("", Want::Nothing),
    (" \r", Want::Nothing),
    ("× D800 ÷", Want::Bad(7)),
    ("× 00D800 ÷", Want::Bad(7)),
    ("× DFFF ÷", Want::Bad(7)),
    ("× 110000 ÷", Want::Bad(8)),
    ("× 1000000 ÷", Want::Bad(9)),
    ("× 00023 ÷", Want::Bad(7)),
    ("× 0023", Want::Bad(7)),
    ("× 002 ÷", Want::Bad(6)),
    ("× 002a ÷", Want::Bad(6)),
    ("× 0023 !", Want::Bad(8)),
    ("×0061", Want::Bad(2)),
    ("× 0061÷", Want::Bad(7)),
    ("× ÷", Want::Bad(3)),
    ("÷ 0061 ÷ x", Want::Bad(11)),
    ("! 0061 !", Want::Bad(0)),
    ("× 0061\r", Want::Bad(7)),
    ("× 0061 ÷\n", Want::Bad(10)),
    ("# c\n", Want::Bad(3)),
    ("\r ", Want::Bad(1)),
];

static KINDS: [(&str, Want); 5] = [
    ("! 0061 !", Want::Line("! 0061 !")),
    (
        "× 0061 × 0062 × 0020 ÷ 0063 × 0064 !\t# 2 28 7 18 28 3",
        Want::Line("× 0061 × 0062 × 0020 ÷ 0063 × 0064 !"),
    ),
    ("!!", Want::Bad(1)),
    ("× 0061 \r÷", Want::Bad(8)),
    ("× \r÷", Want::Bad(4)),
];

fn same_text(found: &[u8], want: &str) -> Result<(), Fail> {
    same(&found, &want.as_bytes(), &want)
}

fn check_line(alloc: Global, line: Option<TestLine>, form: Form, want: &str) -> Result<(), Fail> {
    let line = line.ok_or("no line")?;
    same_text(&write_line(alloc, &line, form)?, want)
}

fn check_fault(
    bytes: &[u8],
    answer: Result<Option<TestLine>, LineFault>,
    at: u32,
) -> Result<(), Fail> {
    match answer {
        Ok(_) => Err(Fail::new(format_args!("accepted: {bytes:?}"))),
        Err(fault) => same(&fault, &LineFault::Bad { at }, &bytes),
    }
}

fn check(alloc: Global, bytes: &[u8], form: Form, want: &Want) -> Result<(), Fail> {
    let answer = read_line(alloc, bytes, form);
    match want {
        Want::Line(text) => check_line(alloc, answer?, form, text),
        Want::Nothing => same(&answer?.is_none(), &true, &bytes),
        Want::Bad(at) => check_fault(bytes, answer, *at),
    }
}

fn check_rows(alloc: Global, form: Form, rows: &[(&str, Want)]) -> Result<(), Fail> {
    for (line, want) in rows {
        check(alloc, line.as_bytes(), form, want)?;
    }
    Ok(())
}

#[test]
fn reading(rt: HostRuntime) -> Result<(), Fail> {
    let alloc = rt.alloc();
    check_rows(alloc, Form::Plain, &PLAIN)?;
    check_rows(alloc, Form::Kinds, &KINDS)?;
    check(alloc, b"\xC3\x80", Form::Plain, &Want::Bad(1))
}

/// A comment of this many bytes.
fn comment(alloc: Global, length: usize) -> Result<Vec<u8>, AllocError> {
    let mut line = vec![in alloc; b'x'; length]?;
    if let Some(first) = line.first_mut() {
        *first = b'#';
    }
    Ok(line)
}

fn check_comment(alloc: Global, bytes: &[u8]) -> Result<(), Fail> {
    same(
        &read_line(alloc, bytes, Form::Plain)?.is_none(),
        &true,
        &bytes.len(),
    )
}

/// A comment with one byte more than a line may have.
fn check_longest(alloc: Global, longer: &[u8]) -> Result<(), Fail> {
    let too_long = read_line(alloc, longer, Form::Plain).err();
    same(&too_long, &Some(LineFault::LineTooLong), &"a line")?;
    check_comment(alloc, longer.get(..268_435_456).ok_or("no line")?)
}

#[test]
fn long_lines(rt: HostRuntime) -> Result<(), Fail> {
    let alloc = rt.alloc();
    let line = comment(alloc, 16_777_217)?;
    check_comment(alloc, &line)?;
    let longer = comment(alloc, 268_435_457)?;
    check_longest(alloc, &longer)
}

/// Compares what a line has.
fn check_parts(line: &TestLine, scalars: &[char], marks: &[Mark]) -> Result<(), Fail> {
    same(&line.scalars(), &scalars, &"scalars")?;
    same(&line.marks(), &marks, &"marks")
}

/// Writes a line piece by piece.
fn by_pieces(alloc: Global, form: Form) -> Result<Vec<u8>, AllocError> {
    let mut text = Vec::new(alloc);
    push_mark(&mut text, Mark::No, form)?;
    push_scalar(&mut text, '\u{1F466}', Mark::Must, form)?;
    Ok(text)
}

/// Writes a line after earlier text.
fn behind(alloc: Global, line: &TestLine, form: Form) -> Result<Vec<u8>, AllocError> {
    let mut text = Vec::new(alloc);
    text.push(b'>')?;
    push_line(&mut text, line.scalars(), line.marks(), form)?;
    Ok(text)
}

/// Checks how a line is written.
fn check_written(alloc: Global, line: &TestLine, form: Form, text: &str) -> Result<(), Fail> {
    same_text(&write_line(alloc, line, form)?, text)?;
    same_text(&by_pieces(alloc, form)?, text)?;
    let behind = behind(alloc, line, form)?;
    same_text(behind.get(1..).unwrap_or(b"nothing"), text)?;
    check_again(alloc, line, form)
}

/// Checks that a line is read back.
fn check_again(alloc: Global, line: &TestLine, form: Form) -> Result<(), Fail> {
    let again = read_back(alloc, line, form)?.ok_or("no line")?;
    same(&again.scalars(), &line.scalars(), &"a line")
}

/// The line of one scalar that the tests write.
fn one_scalar(alloc: Global) -> Result<TestLine, Fail> {
    let scalars = vec![in alloc; '\u{1F466}']?;
    let marks = vec![in alloc; Mark::No, Mark::Must]?;
    Ok(TestLine::new(scalars, marks).ok_or("refused")?)
}

#[test]
fn writing(rt: HostRuntime) -> Result<(), Fail> {
    let alloc = rt.alloc();
    let line = one_scalar(alloc)?;
    check_parts(&line, &['\u{1F466}'], &[Mark::No, Mark::Must])?;
    check_written(alloc, &line, Form::Kinds, "× 1F466 !")?;
    check_written(alloc, &line, Form::Plain, "× 1F466 ÷")?;
    let none = TestLine::new(Vec::new(alloc), Vec::new(alloc));
    same(&none.is_none(), &true, &"a line of nothing")
}

/// Texts, and their marks in the first profile and in the second.
static MARKED: [(&str, &str, &str); 5] = [
    ("", "×", "×"),
    (
        "ab cd",
        "× 0061 × 0062 × 0020 ÷ 0063 × 0064 !",
        "× 0061 × 0062 × 0020 ÷ 0063 × 0064 !",
    ),
    (
        "a\r\nb",
        "× 0061 × 000D × 000A ! 0062 !",
        "× 0061 × 000D × 000A ! 0062 !",
    ),
    (
        "a \u{2019}\u{301},",
        "× 0061 × 0020 ÷ 2019 × 0301 × 002C !",
        "× 0061 × 0020 × 2019 × 0301 × 002C !",
    ),
    (
        "a \u{2019}\u{301}b",
        "× 0061 × 0020 ÷ 2019 × 0301 × 0062 !",
        "× 0061 × 0020 ÷ 2019 × 0301 × 0062 !",
    ),
];

/// Checks the marks of a text.
fn check_marked(
    alloc: Global,
    (cells, profile, form): (&CellPages, Profile, Form),
    text: &str,
    want: &str,
) -> Result<(), Fail> {
    let line = mark_text(alloc, cells, text, profile)?;
    same_text(&write_line(alloc, &line, form)?, want)
}

#[test]
fn marking(rt: HostRuntime) -> Result<(), Fail> {
    let alloc = rt.alloc();
    let cells = sample_cells(&rt, alloc);
    check_kinds()?;
    for (text, first, second) in &MARKED {
        check_marked(alloc, (&cells, Profile::First, Form::Kinds), text, first)?;
        check_marked(alloc, (&cells, Profile::Second, Form::Kinds), text, second)?;
    }
    let plain = (&cells, Profile::First, Form::Plain);
    let want = "× 0061 × 0062 × 0020 ÷ 0063 × 0064 ÷";
    check_marked(alloc, plain, "ab cd", want)
}

fn check_kinds() -> Result<(), Fail> {
    let marks = [mark_of(Kind::No), mark_of(Kind::May), mark_of(Kind::Must)];
    same(&marks, &[Mark::No, Mark::May, Mark::Must], &"kinds")
}

const BLANK: Verdict = Verdict {
    kind: Kind::No,
    rule: Rule::Lb2,
};

/// The rules' verdict at each position.
fn verdicts_of(alloc: Global, cells: &[Cell]) -> Result<Vec<Verdict>, AllocError> {
    let mut verdicts = vec![in alloc; BLANK; cells.len() + 1]?;
    decide_all_in(Profile::First, cells, &mut verdicts);
    Ok(verdicts)
}

/// The line of a passage.
fn passage_line(alloc: Global, text: &str, verdicts: &[Verdict]) -> Result<Vec<u8>, Fail> {
    if verdicts.len() != text.chars().count() + 1 {
        return Err(Fail::new("verdicts for other positions"));
    }
    let mut shown = Vec::new(alloc);
    push_passage_line(&mut shown, text, verdicts)?;
    Ok(shown)
}

/// The laws of the notation can be called.
fn laws_of_lines() {
    laws::tokens();
    laws::one_value();
    laws::comments();
    laws::passage_lines();
}

fn check_passage_line(alloc: Global, shown: &[u8]) -> Result<(), Fail> {
    same_text(shown, "× 0061 × 000D × 000A !\t# 2 6 5 3")?;
    let line = read_passage_line(alloc, shown)?.ok_or("no line")?;
    let marks = [Mark::No, Mark::No, Mark::No, Mark::Must];
    check_parts(&line, &['a', '\r', '\n'], &marks)
}

#[test]
fn lines_of_passages(rt: HostRuntime) -> Result<(), Fail> {
    let alloc = rt.alloc();
    let source = sample_cells(&rt, alloc);
    let text = "a\r\n";
    let cells = cells_of(alloc, &source, text)?;
    let verdicts = verdicts_of(alloc, &cells)?;
    let shown = passage_line(alloc, text, &verdicts)?;
    laws_of_lines();
    check_passage_line(alloc, &shown)
}
