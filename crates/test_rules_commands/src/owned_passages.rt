//! Returns the passages of a text in one call, from the property files on, each with its breaks and its words.

use lbk_cmd::{OwnedPassage, SAMPLE_FILES, read_passages};
use lbk_feed::devices::MemorySource;
use lbk_rules::{Kind, Profile};
use std::fmt::Write;
use std::test::Fail;

/// Appends a passage to a text: its start, its breaks with their rules, and its words.
fn push_passage(seen: &mut String, passage: &OwnedPassage) -> Result<(), Fail> {
    write!(seen, "{}:", passage.start())?;
    for found in passage.breaks() {
        let sign = if found.kind == Kind::Must { '!' } else { '÷' };
        write!(seen, " {sign}{} by {}", found.at, found.rule.label())?;
    }
    for word in passage.words() {
        write!(seen, " {}..{}", word.start, word.end)?;
    }
    write!(seen, " {}", passage.text())?;
    Ok(())
}

#[test]
fn owned_passages(rt: HostRuntime) -> Result<(), Fail> {
    let mut reader = MemorySource::cut(b"ab cd\nef", &[1]);
    let profile = Profile::First;
    let passages = read_passages(rt.alloc(), SAMPLE_FILES, &mut reader, 65_536, profile)?;
    let mut seen = String::new(rt.alloc());
    for passage in &passages {
        push_passage(&mut seen, passage)?;
    }
    let shown = "0: ÷3 by 18 !6 by 5 0..2 3..5 ab cd\n6: !8 by 3 6..8 ef";
    assert_eq!(&rt; seen.as_str(), shown);
    Ok(())
}
