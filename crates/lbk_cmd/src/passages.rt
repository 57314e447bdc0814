//! The passages of a text in one call: from the bytes of four property files and of a text to its breaks and words.

ghost use Rattle.std.specs.Prelude.{◌≡◌, [], ◌∷◌, ◌++◌, IfOk, OnOk};
ghost use Rattle.lbk_rules.specs.CellPages.{page_cell};
ghost use Rattle.lbk_passage.specs.Next.{IsPlaced};
ghost use Rattle.lbk_cmd.specs.Acts.{Shows};
ghost use Rattle.lbk_cmd.specs.Broken.{IsBreakFault, ReadsBy};
ghost use Rattle.lbk_cmd.specs.Devices.{reader_alone};
ghost use Rattle.lbk_cmd.specs.Owned.{AreOwned, AreRead, lent_as};

use super::broken::BreakFault;
use super::faults::CmdFault;
use super::owned::OwnedPassage;
use lbk_feed::Source;
use lbk_files::read_cells;
use lbk_passage::{Passage, Segmenter};
use lbk_rules::{CellPages, Profile};
use lbk_ucd::Files;
use std::alloc::{AllocError, Global};

/// The passages of a text by the rules (UAX #14, section 6) and four property files, each with its text, its breaks and
/// its words (UAX #29, section 4). They depend only on the bytes, not on how the reader cuts them.
///
/// `limit` is the most bytes of a paragraph, 1 to 16,777,216. The call holds the whole text in memory.
///
/// ```rust
/// let passages = read_passages(rt.alloc(), SAMPLE_FILES, &mut reader, 65_536, profile)?;
/// ```
pub fn read_passages<R: Source>(
    alloc: Global,
    files: Files<'_>,
    reader: &mut R,
    limit: u32,
    profile: Profile,
) -> Result<Vec<OwnedPassage>, BreakFault>
    // The bytes read are a text, and these are its passages by the cells of the files.
    ensures passages { IfOk result (λ list. AreRead files.entry profile (R.unread reader.old) list.items) }

    // As in `show`.
    ensures reads { ReadsBy IsBreakFault files.entry limit profile
        (reader_alone R.Source reader.old) (reader_alone R.Source reader.new) result }
{
    let cells = read_cells(alloc, files)?;
    let mut passages = Vec::new(alloc);
    own_passages(alloc, reader, &cells, limit, profile, &mut passages)?;
    Ok(passages)
}

/// Appends the passages of a text by these cells to an empty list. After an error some of them may be in it.
fn own_passages<R: Source>(
    alloc: Global,
    reader: &mut R,
    cells: &CellPages,
    limit: u32,
    profile: Profile,
    passages: &mut Vec<OwnedPassage>,
) -> Result<(), CmdFault>
    requires { passages.old.items ≡ [] }
    ensures owned { OnOk result (AreOwned profile (page_cell cells.now) (R.unread reader.old) passages.new.items) }
    ensures shows { Shows (page_cell cells.now) limit profile
        (reader_alone R.Source reader.old) (reader_alone R.Source reader.new) result }
{
    let mut segmenter = Segmenter::new(alloc, cells, limit, profile)?;
    while let Some(passage) = segmenter.next(reader)? {
        push_owned(alloc, &passage, passages)?;
    }
    Ok(())
}

/// Appends a copy of a passage that a segmenter lends.
fn push_owned(
    alloc: Global,
    passage: &Passage<'_>,
    passages: &mut Vec<OwnedPassage>,
) -> Result<(), AllocError>
    requires { IsPlaced passage.now }
    ensures { OnOk result (passages.new.items ≡ passages.old.items ++ lent_as passage.now ∷ []) }
{
    let owned = OwnedPassage::of(alloc, passage)?;
    passages.push(owned)?;
    Ok(())
}
