//! How another crate calls the library: a snippet of each passage.

ghost use Rattle.std.specs.Prelude.{◌≡◌, ◌≤◌, ◌⊎◌, Contains};
ghost use Rattle.std.specs.List.{All};
ghost use Rattle.lbk_passage.specs.declared.passage.Segment.{Segment};

use lbk_cmd::{SAMPLE_FILES, read_cells};
use lbk_feed::devices::MemorySource;
use lbk_passage::{Segment, Segmenter};
use lbk_rules::Profile;
use std::test::Fail;

/// The end of the longest snippet of at most `most` bytes from a passage's start; 0 if not even one segment fits.
fn snippet_end(segments: &[Segment], most: u32) -> u32
    ensures fits { result ≤ most }
    ensures breaks { (result ≡ 0) ⊎ ((s : Segment) × Contains segments.now s × (s.end ≡ result)) }
    ensures longest { All (λ s. s.end ≤ most → s.end ≤ result) segments.now }
{
    let mut end = 0;
    for segment in segments {
        if segment.end > end && segment.end <= most {
            end = segment.end;
        }
    }
    end
}

#[test]
fn guide(rt: HostRuntime) -> Result<(), Fail> {
    // A program reads its own four files, and passes their bytes instead of the samples.
    let cells = read_cells(rt.alloc(), SAMPLE_FILES)?;

    // `Device` makes a reader from a file or from standard input, as `MemorySource` does from bytes.
    let mut reader = MemorySource::new(b"ab cd ef\ngh");
    let mut segmenter = Segmenter::new(rt.alloc(), &cells, 65_536, Profile::First)?;
    let mut snippets = Vec::new(rt.alloc());
    for _ in 0..u64::MAX {
        let Some(passage) = segmenter.next(&mut reader)? else {
            break;
        };
        snippets.push((passage.start, snippet_end(passage.segments, 7)))?;
    }
    assert_eq!(&rt; snippets.as_slice(), [(0, 6), (9, 2)].as_slice());
    Ok(())
}
