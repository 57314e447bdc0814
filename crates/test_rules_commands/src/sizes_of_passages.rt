//! Passages of many sizes in one call, with ample memory: each has all of its bytes, breaks and words, and no call runs
//! out of memory.

use crate::calls::{must, same};
use lbk_cmd::{BreakFault, OwnedPassage, SAMPLE_FILES, break_text, read_passages};
use lbk_feed::devices::MemorySource;
use lbk_notation::TestLine;
use lbk_passage::LIMIT_MAX;
use lbk_rules::Profile;
use std::alloc::{AllocError, Global};
use std::process::Abort;
use std::test::Fail;

/// How many passages of one letter follow the others.
const SHORT: usize = 70_000;

/// `read_passages` without its contract.
fn owned(alloc: Global, text: &str, limit: u32) -> Result<Vec<OwnedPassage>, BreakFault> {
    let mut source = MemorySource::new(text.as_bytes());
    read_passages(alloc, SAMPLE_FILES, &mut source, limit, Profile::First)
}

/// `break_text` without its contract.
fn broken(alloc: Global, text: &str, limit: u32) -> Result<Vec<TestLine>, BreakFault> {
    let mut source = MemorySource::new(text.as_bytes());
    break_text(alloc, SAMPLE_FILES, &mut source, limit, Profile::First)
}

/// Two pseudorandom sizes between each power of two, up to so many, and the next.
fn drawn(alloc: Global, powers: u32) -> Result<Vec<u32>, AllocError> {
    let mut sizes = Vec::new(alloc);
    let mut chance: u32 = 14;
    for power in 0..powers.min(24) {
        for _ in 0..2 {
            chance = chance.wrapping_mul(1_664_525).wrapping_add(1_013_904_223);
            let least = 1u32 << power;
            sizes.push(least + (chance >> 8) % least)?;
        }
    }
    Ok(sizes)
}

/// Each size up to 1,030, and the pseudorandom ones.
fn sizes(alloc: Global) -> Result<Vec<u32>, AllocError> {
    let mut sizes = drawn(alloc, 17)?;
    for size in 1..1_031 {
        sizes.push(size)?;
    }
    Ok(sizes)
}

/// For each size a paragraph of so many letters and one of so many words, and then the short ones.
fn text_of(rt: &impl Abort, alloc: Global, sizes: &[u32]) -> String {
    let mut text = String::new(alloc);
    for size in sizes {
        push_repeated(rt, &mut text, "a", *size as usize);
        must(rt, text.push('\n'));
        push_repeated(rt, &mut text, "a ", *size as usize);
        must(rt, text.push('\n'));
    }
    push_repeated(rt, &mut text, "a\n", SHORT);
    text
}

fn push_repeated(rt: &impl Abort, text: &mut String, part: &str, count: usize) {
    for _ in 0..count {
        must(rt, text.push_str(part));
    }
}

/// How many bytes, breaks and words the passage with this index has.
fn counts(place: usize, sizes: &[u32]) -> (usize, usize, usize) {
    match sizes.get(place / 2) {
        Some(size) if place % 2 == 0 => (*size as usize + 1, 1, 1),
        Some(size) => (2 * *size as usize + 1, *size as usize, *size as usize),
        None => (2, 1, 1),
    }
}

fn check_passages(rt: &impl Abort, passages: &[OwnedPassage], sizes: &[u32]) {
    for (place, passage) in passages.iter().enumerate() {
        let found = (
            passage.text().len(),
            passage.breaks().len(),
            passage.words().len(),
        );
        same(rt, &found, &counts(place, sizes), &place);
    }
}

fn check_lines(rt: &impl Abort, lines: &[TestLine], sizes: &[u32]) {
    for (place, line) in lines.iter().enumerate() {
        let (bytes, _, _) = counts(place, sizes);
        let found = (line.scalars().len(), line.marks().len());
        same(rt, &found, &(bytes, bytes.saturating_add(1)), &place);
    }
}

#[test]
fn passages_of_each_size(rt: HostRuntime) -> Result<(), Fail> {
    let sizes = sizes(rt.alloc())?;
    let text = text_of(&rt, rt.alloc(), &sizes);
    let count = sizes.len().saturating_mul(2).saturating_add(SHORT);
    let passages = must(&rt, owned(rt.alloc(), &text, LIMIT_MAX));
    same(&rt, &passages.len(), &count, &"passages");
    check_passages(&rt, &passages, &sizes);
    let lines = must(&rt, broken(rt.alloc(), &text, LIMIT_MAX));
    same(&rt, &lines.len(), &count, &"lines");
    check_lines(&rt, &lines, &sizes);
    Ok(())
}

#[test]
fn limits_of_each_size(rt: HostRuntime) -> Result<(), Fail> {
    for limit in &drawn(rt.alloc(), 24)? {
        let passages = must(&rt, owned(rt.alloc(), "a", *limit)).len();
        let lines = must(&rt, broken(rt.alloc(), "a", *limit)).len();
        same(&rt, &(passages, lines), &(1, 1), limit);
    }
    Ok(())
}
