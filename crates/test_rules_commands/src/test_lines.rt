//! Lines in the notation of the published break tests: written for a text, read, and compared with the rules.

use lbk_cmd::{SAMPLE_FILES, read_cells};
use lbk_notation::{Form, Mark, Outcome, mark_text, read_line, replay_line, write_line};
use lbk_rules::{Kind, Profile, Rule, Verdict};
use std::test::Fail;

/// The line of a text.
#[test]
fn written_lines(rt: HostRuntime) -> Result<(), Fail> {
    let cells = read_cells(rt.alloc(), SAMPLE_FILES)?;
    let line = mark_text(rt.alloc(), &cells, "b d", Profile::First)?;
    let bytes = write_line(rt.alloc(), &line, Form::Kinds)?;
    assert_eq!(&rt; bytes.as_slice(), "× 0062 × 0020 ÷ 0064 !".as_bytes());
    Ok(())
}

/// A line of a test file, with a break inside a word.
#[test]
fn test_lines(rt: HostRuntime) -> Result<(), Fail> {
    let cells = read_cells(rt.alloc(), SAMPLE_FILES)?;
    let text = "× 0061 ÷ 0062 ÷ # comment".as_bytes();
    let line = read_line(rt.alloc(), text, Form::Plain)?.ok_or("a blank line")?;
    let differ = Outcome::Differ {
        position: 1,
        file: Mark::May,
        rules: Verdict {
            kind: Kind::No,
            rule: Rule::Lb28,
        },
    };
    assert_eq!(&rt;
        replay_line(&cells, &line, Form::Plain, Profile::First),
        differ
    );
    Ok(())
}
