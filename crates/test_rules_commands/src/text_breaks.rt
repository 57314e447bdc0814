//! The breaks of a text in memory.

use lbk_cmd::{SAMPLE_FILES, read_cells};
use lbk_passage::Breaks;
use lbk_rules::{Kind, Profile};
use std::test::Fail;

#[test]
fn text_breaks(rt: HostRuntime) -> Result<(), Fail> {
    let cells = read_cells(rt.alloc(), SAMPLE_FILES)?;
    let text = "ab cd\nef";
    let mut lines = String::new(rt.alloc());
    let mut start = 0;
    for found in Breaks::new(&cells, text, Profile::First) {
        lines.push_str(text.get(start..found.at).unwrap_or(""))?;
        lines.push(if found.kind == Kind::Must { '!' } else { '÷' })?;
        start = found.at;
    }
    assert_eq!(&rt; lines.as_str(), "ab ÷cd\n!ef!");
    Ok(())
}
