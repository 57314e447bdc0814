//! What `lbk_passage` exports: the segmenter, and what it lends.

use crate::calls::{must, same};
use lbk_cmd::SAMPLE_FILES;
use lbk_feed::devices::MemorySource;
use lbk_passage::{Passage, PassageFault, Piece, Segment, Segmenter};
use lbk_rules::{CellPages, Kind, Profile, Rule, Verdict};
use std::process::Abort;
use std::test::Fail;
use test_support::calls::{next_passage, pages_by, segmenter_of};

/// Each value, and the type of what it holds: one more or less is an error here.
fn values(passage_fault: PassageFault) {
    match passage_fault {
        PassageFault::Limit
        | PassageFault::Memory
        | PassageFault::Read
        | PassageFault::TextTooLong
        | PassageFault::Spent => {}
        PassageFault::NotUtf8 { at } => {
            let _: u64 = at;
        }
        PassageFault::ParagraphTooLong { start } => {
            let _: u64 = start;
        }
    }
}

const LIMIT: u32 = 4;

const AT: u64 = 4;

const KIND: Kind = Kind::Must;

const RULE: Rule = Rule::Lb5;

/// The segment and the word of the first passage.
const SEGMENT: Segment = Segment {
    start: 0,
    end: 3,
    kind: KIND,
    rule: RULE,
};

const WORD: Piece = Piece {
    start: 0,
    end: 2,
    word: true,
};

fn check_passage(rt: &impl Abort, passage: Passage<'_>) {
    let Passage {
        start,
        text,
        segments,
        pieces,
        end,
    } = passage;
    let (start, text): (u64, &str) = (start, text);
    same(rt, &(start, text), &(0, "ab\n"), &"the text");
    let segments: &[Segment] = segments;
    same(rt, &segments, &[SEGMENT].as_slice(), &"the segments");
    let pieces: &[Piece] = pieces;
    same(rt, &pieces.first(), &Some(&WORD), &"the first word");
    let end: Verdict = end;
    let want = Verdict {
        kind: KIND,
        rule: RULE,
    };
    same(rt, &end, &want, &"the end");
}

/// The first passage of a text, and then its fault.
fn check_passages(rt: &impl Abort, segmenter: &mut Segmenter<'_, CellPages>) {
    let mut reader = MemorySource::new(b"ab\nc\xFF");
    let passage: Option<Passage<'_>> = must(rt, next_passage(segmenter, &mut reader));
    check_passage(rt, must(rt, passage.ok_or("no passage")));
    let ended = next_passage(segmenter, &mut reader).err();
    same(
        rt,
        &ended,
        &Some(PassageFault::NotUtf8 { at: AT }),
        &"an ill-formed byte",
    );
}

#[test]
fn passages(rt: HostRuntime) -> Result<(), Fail> {
    let cells: CellPages = pages_by(rt.alloc(), SAMPLE_FILES)?;
    let refused = segmenter_of(rt.alloc(), &cells, 0, Profile::First).err();
    same(&rt, &refused, &Some(PassageFault::Limit), &"no limit");
    check_passages(
        &rt,
        &mut must(&rt, segmenter_of(rt.alloc(), &cells, LIMIT, Profile::First)),
    );
    Ok(())
}
