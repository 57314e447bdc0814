//! The breaks of a text in memory, with contracts.

ghost use Rattle.std.specs.Prelude.{◌≡◌, IfOk};
ghost use Rattle.std.specs.Str.{chars};
ghost use Rattle.lbk_rules.specs.Breaks.{breaks};
ghost use Rattle.lbk_rules.specs.CellPages.{page_cell};
ghost use Rattle.lbk_values.specs.declared.profile.Profile.TheVariants.{First};

use lbk_cmd::{SAMPLE_FILES, read_cells};
use lbk_passage::Breaks;
use lbk_rules::{Break, CellPages, Kind, Profile, Rule};
use std::alloc::{AllocError, Global};
use std::test::Fail;

/// All breaks of a text.
fn all_breaks(alloc: Global, cells: &CellPages, text: &str) -> Result<Vec<Break>, AllocError>
    ensures { IfOk result (λ found.
        found.items ≡ breaks First (page_cell cells.now) (chars text.now)) }
{
    Breaks::new(cells, text, Profile::First).collect(alloc)
}

#[test]
fn text_breaks_proved(rt: HostRuntime) -> Result<(), Fail> {
    let cells = read_cells(rt.alloc(), SAMPLE_FILES)?;
    let found = all_breaks(rt.alloc(), &cells, "ab cd")?;
    let may = Break {
        at: 3,
        kind: Kind::May,
        rule: Rule::Lb18,
    };
    let must = Break {
        at: 5,
        kind: Kind::Must,
        rule: Rule::Lb3,
    };
    assert_eq!(&rt; found.as_slice(), [may, must].as_slice());
    Ok(())
}
