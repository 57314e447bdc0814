//! The output of `show` for a text in memory, with a contract.

ghost use Rattle.std.specs.Prelude.{◌≡◌, IfOk};
ghost use Rattle.std.specs.Str.{chars};
ghost use Rattle.lbk_cmd.specs.Texts.{show_text};
ghost use Rattle.lbk_feed.specs.MemorySink.{sink_bytes};
ghost use Rattle.lbk_passage.specs.Passages.{passages};
ghost use Rattle.lbk_rules.specs.CellPages.{page_cell};

use lbk_cmd::{CmdFault, SAMPLE_FILES, read_cells, show};
use lbk_feed::devices::{MemorySink, MemorySource};
use lbk_rules::{CellPages, Profile};
use std::alloc::Global;
use std::test::Fail;

/// What `show` writes for a text, in at most `room` bytes.
fn shown(alloc: Global, cells: &CellPages, text: &str, room: usize) -> Result<MemorySink, CmdFault>
    ensures { IfOk result (λ out. sink_bytes out
        ≡ show_text (passages Profile.First (page_cell cells.now) (chars text.now))) }
{
    let mut reader = MemorySource::new(text.as_bytes());
    let mut out = MemorySink::new(alloc, room)?;
    show(alloc, &mut reader, &mut out, cells, 65_536, Profile::First)?;
    Ok(out)
}

#[test]
fn shown_text(rt: HostRuntime) -> Result<(), Fail> {
    let cells = read_cells(rt.alloc(), SAMPLE_FILES)?;
    let out = shown(rt.alloc(), &cells, "ab cd", 100)?;
    let line = "× 0061 × 0062 × 0020 ÷ 0063 × 0064 !\t# 2 28 7 18 28 3\n";
    assert_eq!(&rt; out.bytes(), line.as_bytes());
    Ok(())
}
