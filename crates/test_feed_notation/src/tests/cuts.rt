//! The output for worked texts and test files in both profiles, and how each run ends, for reads cut in any way: in two
//! and three reads, cut at every offset, and in reads of one to seven bytes.

use crate::tests::calls::{must, same, sample_cells};
use crate::tests::runs::{Run, check_run, whole};
use crate::tests::tasks::{End, MARK, REPLAY, SEGMENT, SHOW, Task};
use crate::tests::told_rows;
use lbk_notation::Form;
use lbk_passage::PassageFault::{self, Limit, NotUtf8, ParagraphTooLong};
use lbk_rules::{CellPages, Profile};
use std::alloc::Global;
use std::process::Abort;
use test_support::engines::{LIMIT, Setting};
use test_support::reads::cuttings;
use test_support::{marked, replayed, segment_lines, shown, texts};

const OF_TEXTS: [Task; 4] = [Task::Passages, MARK, SHOW, SEGMENT];

const KINDS: Task = Task::Replay(Form::Kinds);

const OF_FILES: [Task; 2] = [REPLAY, KINDS];

/// Compares how a run ends and what it writes, for all reads.
fn check(
    rt: &impl Abort,
    setting: Setting<'_>,
    task: Task,
    input: &[u8],
    end: End,
    written: &[u8],
) {
    for sizes in &must(rt, cuttings(setting.alloc, input.len())) {
        let run = Run {
            sizes,
            ..whole(task, input)
        };
        let _ = check_run(rt, run, setting, end, written);
    }
}

/// The cells, for both profiles or one.
type Settings<'a> = (Global, &'a CellPages, &'a [Profile]);

const BOTH: [Profile; 2] = [Profile::First, Profile::Second];

const FIRST: [Profile; 1] = [Profile::First];

const SECOND: [Profile; 1] = [Profile::Second];

/// A run accepts its input; after a test file it returns the counts that its last line has.
fn check_accepted(rt: &impl Abort, alloc: Global, end: End, written: &str) {
    let End::File(Ok(report)) = end else {
        return same(rt, &end, &End::Text(Ok(())), &written);
    };
    let [lines, agreed, differed, refused] = [
        report.lines,
        report.agreed,
        report.differed,
        report.refused,
    ];
    let last = must(
        rt,
        format!(in alloc; "T {lines} {agreed} {differed} {refused}\n"),
    );
    same(rt, &written.ends_with(last.as_str()), &true, &written);
}

/// Texts or test files, and the output for each.
fn check_rows(rt: &impl Abort, settings: Settings<'_>, task: Task, rows: &[(&str, &str)]) {
    let (alloc, cells, profiles) = settings;
    for (input, written) in rows {
        for profile in profiles {
            let setting = Setting::new(alloc, cells, *profile);
            let end = must(rt, whole(task, input.as_bytes()).ran(setting)).end;
            check_accepted(rt, alloc, end, written);
            check(rt, setting, task, input.as_bytes(), end, written.as_bytes());
        }
    }
}

fn check_texts(rt: &impl Abort, settings: Settings<'_>, rows: [&[(&str, &str)]; 4]) {
    for (task, rows) in OF_TEXTS.iter().zip(rows.iter()) {
        check_rows(rt, settings, *task, rows);
    }
}

#[test]
fn written_of_texts(rt: HostRuntime) {
    let cells = sample_cells(&rt, rt.alloc());
    check_texts(
        &rt,
        (rt.alloc(), &cells, &BOTH),
        [
            &told_rows::BOTH,
            &marked::BOTH,
            &shown::BOTH,
            &segment_lines::BOTH,
        ],
    );
    check_texts(
        &rt,
        (rt.alloc(), &cells, &FIRST),
        [
            &told_rows::FIRST,
            &marked::FIRST,
            &shown::FIRST,
            &segment_lines::FIRST,
        ],
    );
    check_texts(
        &rt,
        (rt.alloc(), &cells, &SECOND),
        [
            &told_rows::SECOND,
            &marked::SECOND,
            &shown::SECOND,
            &segment_lines::SECOND,
        ],
    );
}

/// Compares each run with one that reads everything at once.
fn check_uncut(rt: &impl Abort, settings: Settings<'_>, tasks: &[Task], input: &[u8]) {
    let (alloc, cells, profiles) = settings;
    for task in tasks {
        for profile in profiles {
            let setting = Setting::new(alloc, cells, *profile);
            let want = must(rt, whole(*task, input).ran(setting));
            check(rt, setting, *task, input, want.end, want.sink.bytes());
        }
    }
}

/// The same of the inputs of rows, with results elsewhere.
fn check_uncut_rows(
    rt: &impl Abort,
    settings: Settings<'_>,
    tasks: &[Task],
    rows: &[(&str, &str)],
) {
    for (input, _) in rows {
        check_uncut(rt, settings, tasks, input.as_bytes());
    }
}

/// Texts that are ill-formed at an end or inside, after passages or not; and test files: the start of a byte order
/// mark, which is a bad line; one after the first line; lines that end with CR LF; a line that is not in one of the
/// forms, and bytes that are no text.
static BAD: [(&[Task], &[u8]); 11] = [
    (&OF_TEXTS, b"a\xE2\x82"),
    (&OF_TEXTS, b"a\nb\xFF"),
    (&OF_TEXTS, b"a\n\xFF"),
    (&OF_TEXTS, b"a\r\n\xED\xA0\x80b"),
    (&OF_TEXTS, b"\xF0\x9F\x91\xA6\n\xF0\x9F\x91\n"),
    (&OF_TEXTS, b"\xEF\xBB\xBFa\r\rb\xC0\x80"),
    (&OF_FILES, b"\xEF\xBB"),
    (
        &OF_FILES,
        b"\xEF\xBB\xBF\xC3\x97 0061 \xC3\xB7\r\n\xEF\xBB\xBF\n",
    ),
    (
        &OF_FILES,
        b"\xC3\x97 0061 !\n\xC3\x97\xC3\x97\n\n\xC3\x97 002a \xC3\xB7",
    ),
    (&OF_FILES, b"\xFF\n\xC3\n\xC3\x80\n"),
    (&OF_FILES, b"# a\r\n \t\r\n\xC3\xB7\r\n"),
];

#[test]
fn reads_of_inputs(rt: HostRuntime) {
    let cells = sample_cells(&rt, rt.alloc());
    let settings: Settings<'_> = (rt.alloc(), &cells, &BOTH);
    check_uncut_rows(&rt, settings, &OF_TEXTS, &texts::FIRST);
    check_uncut_rows(&rt, settings, &OF_TEXTS, &texts::SECOND);
    check_uncut_rows(&rt, settings, &OF_TEXTS, &shown::BOTH);
    check_uncut_rows(&rt, settings, &OF_TEXTS, &shown::SECOND);
    check_uncut_rows(&rt, settings, &OF_TEXTS, &told_rows::BOTH);
    check_uncut_rows(&rt, settings, &OF_FILES, &replayed::PLAIN);
    check_uncut_rows(&rt, settings, &OF_FILES, &replayed::KINDS);
    check_uncut_rows(&rt, settings, &OF_FILES, &replayed::FIRST);
    for (tasks, input) in &BAD {
        check_uncut(&rt, settings, tasks, input);
    }
}

/// A text, the limit of a paragraph, the fault, if any, and the passages that are written.
type Row = (&'static [u8], u32, Option<PassageFault>, &'static str);

const TOO_LONG: Option<PassageFault> = Some(ParagraphTooLong { start: 0 });

/// Texts at a limit, over it, and ill-formed.
static ROWS: [Row; 21] = [
    (b"ab cd", 0, Some(Limit), ""),
    (b"", 0, Some(Limit), ""),
    (b"", 16_777_217, Some(Limit), ""),
    (b"ab cd", 16_777_217, Some(Limit), ""),
    (b"ab cd", 16_777_216, None, "ab cd"),
    (b"ab cd", 5, None, "ab cd"),
    (b"ab cd", 4, TOO_LONG, ""),
    (b"ab\r\n", 4, None, "ab\r\n"),
    (b"ab\r\nabc\rb", 4, None, "ab\r\nabc\rb"),
    (b"abc\r\n", 4, TOO_LONG, ""),
    (b"\xE2\x80\x99", 1, TOO_LONG, ""),
    (
        b"\n\xE2\x80\x99",
        1,
        Some(ParagraphTooLong { start: 1 }),
        "\n",
    ),
    (
        b"a\nbcdef\ng",
        4,
        Some(ParagraphTooLong { start: 2 }),
        "a\n",
    ),
    (
        b"a b\nabcde",
        4,
        Some(ParagraphTooLong { start: 4 }),
        "a b\n",
    ),
    (b"abcde\xFF", 4, TOO_LONG, ""),
    (b"abcd\xFF", 4, Some(NotUtf8 { at: 4 }), ""),
    (b"a\nb\xFFc\nd", 4, Some(NotUtf8 { at: 3 }), "a\n"),
    (b"a\nb\xFF", LIMIT, Some(NotUtf8 { at: 3 }), "a\n"),
    (b"a b\nb\xFF", 9, Some(NotUtf8 { at: 5 }), "a b\n"),
    (b"a\n\xFF", LIMIT, Some(NotUtf8 { at: 2 }), ""),
    (b"a\xE2\x82", LIMIT, Some(NotUtf8 { at: 1 }), ""),
];

/// Passages, and what each of `OF_TEXTS` writes for them.
static WRITTEN: [(&str, [&str; 4]); 7] = [
    ("", [""; 4]),
    (
        "ab cd",
        [
            "P 0 5 3 S 0 3 May 18 S 3 5 Must 3 W 0 2 p 2 3 W 3 5\n",
            "ab ÷cd\n",
            "× 0061 × 0062 × 0020 ÷ 0063 × 0064 !\t# 2 28 7 18 28 3\n",
            "P 0 5\nS 0 3 May 18\nS 3 5 Must 3\nW 0 2\nW 3 5\n",
        ],
    ),
    (
        "a\n",
        [
            "P 0 2 5 S 0 2 Must 5 W 0 1 p 1 2\n",
            "a\n",
            "× 0061 × 000A !\t# 2 6 5\n",
            "P 0 2\nS 0 2 Must 5\nW 0 1\n",
        ],
    ),
    (
        "a b\n",
        [
            "P 0 4 5 S 0 2 May 18 S 2 4 Must 5 W 0 1 p 1 2 W 2 3 p 3 4\n",
            "a ÷b\n",
            "× 0061 × 0020 ÷ 0062 × 000A !\t# 2 7 18 6 5\n",
            "P 0 4\nS 0 2 May 18\nS 2 4 Must 5\nW 0 1\nW 2 3\n",
        ],
    ),
    (
        "\n",
        [
            "P 0 1 5 S 0 1 Must 5 p 0 1\n",
            "\n",
            "× 000A !\t# 2 5\n",
            "P 0 1\nS 0 1 Must 5\n",
        ],
    ),
    (
        "ab\r\n",
        [
            "P 0 4 3 S 0 4 Must 3 W 0 2 p 2 4\n",
            "ab\r\n",
            "× 0061 × 0062 × 000D × 000A !\t# 2 28 6 5 3\n",
            "P 0 4\nS 0 4 Must 3\nW 0 2\n",
        ],
    ),
    (
        "ab\r\nabc\rb",
        [
            "P 0 4 5 S 0 4 Must 5 W 0 2 p 2 4\nP 4 4 5 S 0 4 Must 5 W 0 3 p 3 4\nP 8 1 3 S 0 1 Must 3 W 0 1\n",
            "ab\r\nabc\rb\n",
            "× 0061 × 0062 × 000D × 000A !\t# 2 28 6 5 5\n× 0061 × 0062 × 0063 × 000D !\t# 2 28 28 6 5\n× 0062 !\t# 2 3\n",
            "P 0 4\nS 0 4 Must 5\nW 0 2\nP 4 8\nS 4 8 Must 5\nW 4 7\nP 8 9\nS 8 9 Must 3\nW 8 9\n",
        ],
    ),
];

/// What each of `OF_TEXTS` writes for some passages.
fn written_for(passages: &str) -> Option<&'static [&'static str; 4]> {
    for (text, written) in &WRITTEN {
        if *text == passages {
            return Some(written);
        }
    }
    None
}

/// Compares what each task writes for a text, and how it ends.
fn check_tasks(rt: &impl Abort, setting: Setting<'_>, row: &Row) {
    let (text, limit, fault, passages) = *row;
    let mut setting = setting;
    setting.limit = limit;
    let end = match fault {
        Some(fault) => End::refused(fault),
        None => End::Text(Ok(())),
    };
    let all_written = written_for(passages).expect(rt, "passages that are not in the table");
    for (task, written) in OF_TEXTS.iter().zip(all_written.iter()) {
        check(rt, setting, *task, text, end, written.as_bytes());
    }
}

#[test]
fn limits_and_faults(rt: HostRuntime) {
    let cells = sample_cells(&rt, rt.alloc());
    for row in &ROWS {
        for profile in BOTH {
            check_tasks(&rt, Setting::new(rt.alloc(), &cells, profile), row);
        }
    }
}

#[test]
fn written_of_files(rt: HostRuntime) {
    let cells = sample_cells(&rt, rt.alloc());
    let settings: Settings<'_> = (rt.alloc(), &cells, &BOTH);
    check_rows(&rt, settings, REPLAY, &replayed::PLAIN);
    check_rows(&rt, settings, KINDS, &replayed::KINDS);
    let first: Settings<'_> = (rt.alloc(), &cells, &FIRST);
    check_rows(&rt, first, REPLAY, &replayed::FIRST);
    let second: Settings<'_> = (rt.alloc(), &cells, &SECOND);
    check_rows(&rt, second, REPLAY, &replayed::SECOND);
}
