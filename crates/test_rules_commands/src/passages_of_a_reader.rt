//! The passages of a reader's text, a paragraph at a time.

use lbk_cmd::{SAMPLE_FILES, read_cells};
use lbk_feed::devices::MemorySource;
use lbk_passage::{Passage, Segmenter};
use lbk_rules::Profile;
use std::fmt::Write;
use std::test::Fail;

/// Writes the start of a passage, its words, and its number of segments.
fn push_passage(seen: &mut String, passage: &Passage<'_>) -> Result<(), Fail> {
    write!(seen, "{}:", passage.start)?;
    for piece in passage.pieces {
        if piece.word {
            let word = passage.text.get(piece.start as usize..piece.end as usize);
            seen.push(' ')?;
            seen.push_str(word.unwrap_or(""))?;
        }
    }
    writeln!(seen, " ({} segments)", passage.segments.len())?;
    Ok(())
}

#[test]
fn passages_of_a_reader(rt: HostRuntime) -> Result<(), Fail> {
    let cells = read_cells(rt.alloc(), SAMPLE_FILES)?;
    // `Device::new(file)` makes a reader of a file or of standard input.
    let mut reader = MemorySource::new("ab cd.\nef".as_bytes());
    let mut segmenter = Segmenter::new(rt.alloc(), &cells, 65_536, Profile::First)?;
    let mut seen = String::new(rt.alloc());
    for _ in 0..u64::MAX {
        let Some(passage) = segmenter.next(&mut reader)? else {
            break;
        };
        push_passage(&mut seen, &passage)?;
    }
    assert_eq!(&rt;
        seen.as_str(),
        "0: ab cd (2 segments)\n7: ef (1 segments)\n"
    );
    Ok(())
}
