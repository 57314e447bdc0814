//! Breaks a text in one call, from the property files on: the characters of each passage, with the marks between them.

use lbk_cmd::{SAMPLE_FILES, break_text};
use lbk_feed::devices::MemorySource;
use lbk_notation::{Mark, TestLine};
use lbk_rules::Profile;
use std::alloc::AllocError;
use std::test::Fail;

/// Appends the characters of a passage to a text, each with the mark after it.
fn push_marked(seen: &mut String, passage: &TestLine) -> Result<(), AllocError> {
    let behind = &passage.marks()[1..];
    for (c, mark) in passage.scalars().iter().zip(behind) {
        seen.push(*c)?;
        match mark {
            Mark::No => {}
            Mark::May => seen.push('÷')?,
            Mark::Must => seen.push('!')?,
        }
    }
    Ok(())
}

#[test]
fn broken_text(rt: HostRuntime) -> Result<(), Fail> {
    let mut reader = MemorySource::new(b"ab cd\nef");
    let profile = Profile::First;
    let passages = break_text(rt.alloc(), SAMPLE_FILES, &mut reader, 65_536, profile)?;
    let mut seen = String::new(rt.alloc());
    for passage in &passages {
        push_marked(&mut seen, passage)?;
    }
    assert_eq!(&rt; seen.as_str(), "ab ÷cd\n!ef!");
    Ok(())
}
