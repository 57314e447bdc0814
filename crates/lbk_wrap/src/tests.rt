//! The lines of a Japanese text.

use crate::{Layout, LineKind, lines, push_filled};
use lbk_passage::Segment;
use lbk_rules::{Kind, Rule};
use std::test::Fail;

const TEXT: &str = "日本語の「文章」 and text";

/// Where the segments of the text end.
const ENDS: [u32; 8] = [3, 6, 9, 12, 18, 25, 29, 33];

#[test]
fn lines_of_eight_columns(rt: HostRuntime) -> Result<(), Fail> {
    let mut segments = Vec::new(rt.alloc());
    let mut start = 0;
    for end in ENDS {
        segments.push(Segment {
            start,
            end,
            kind: if end == 33 { Kind::Must } else { Kind::May },
            rule: Rule::Lb31,
        })?;
        start = end;
    }
    let narrow = Layout::new(8).tab(4).whole(true);
    let mut text = Vec::new(rt.alloc());
    push_filled(
        &mut text,
        rt.alloc(),
        &narrow,
        TEXT,
        segments.as_slice(),
        false,
    )?;
    assert_eq!(&rt; text.as_slice(), "日本語の\n「文章」\nand text".as_bytes());
    let found = lines(rt.alloc(), &narrow, TEXT, segments.as_slice())?;
    assert_eq!(&rt; found.len(), 3);
    if let Some(first) = found.first() {
        assert_eq!(&rt; first.columns, 8);
        assert!(&rt; first.kind == LineKind::May);
    }
    Ok(())
}
