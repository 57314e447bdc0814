//! Breaks a text in one call: from the bytes of four property files and of a text to what is read back from the lines
//! of `show`.

ghost use Rattle.std.specs.Prelude.{◌≡◌, ◌++◌, ◌∷◌, List, Ok, IfNone, IfSome, IfOk, MatchResult};
ghost use Rattle.lbk_rules.specs.CellPages.{page_cell};
ghost use Rattle.lbk_notation.specs.Stream.{HasNoLineEnd};
ghost use Rattle.lbk_passage.specs.Marks.{Marked};
ghost use Rattle.lbk_cmd.specs.Acts.{Shows};
ghost use Rattle.lbk_cmd.specs.Broken.{IsBroken, IsLinesFault, ReadsBy, ShowStops};
ghost use Rattle.lbk_cmd.specs.declared.broken.BreakFault.TheVariants.{Files as files_fault, Text as text_fault};
ghost use Rattle.lbk_cmd.specs.Devices.{reader_alone};
ghost use Rattle.lbk_cmd.specs.Engines.{showing};
ghost use Rattle.lbk_cmd.specs.ReadBack.{AreReadable, IsReadable, IsShown, Say, SayOf, line_of};

use super::engine::show;
use super::faults::CmdFault;
use lbk_feed::{Device, Source};
use lbk_files::{CellsFault, read_cells};
use lbk_notation::{LineFault, TestLine, read_passage_line};
use lbk_rules::{CellPages, Profile};
use lbk_ucd::Files;
use std::alloc::Global;
use thiserror::Error;

/// Why a text was not broken.
#[derive(Clone, Copy, Debug, PartialEq, Eq, Error)]
pub enum BreakFault {
    /// The property files give no cells. Nothing of the text was read.
    #[error(transparent)]
    Files(CellsFault),
    /// The text was refused, as `show` refuses it, or memory could not grow. Never `Write`.
    #[error(transparent)]
    Text(CmdFault),
}

impl From<CellsFault> for BreakFault {
    ghost from_gives = { λ cells fault. fault ≡ files_fault cells };

    fn from(fault: CellsFault) -> BreakFault {
        BreakFault::Files(fault)
    }
}

impl From<CmdFault> for BreakFault {
    ghost from_gives = { λ text fault. fault ≡ text_fault text };

    fn from(fault: CmdFault) -> BreakFault {
        BreakFault::Text(fault)
    }
}

/// Breaks a text by the rules (UAX #14, section 6) and four property files: for each passage, its scalars and the marks
/// of its positions, as read back from the line that `show` writes for it.
///
/// `limit` is the most bytes of a paragraph, 1 to 16,777,216. The call holds the lines of the whole text in memory.
///
/// ```rust
/// let mut reader = MemorySource::new(b"ab cd\nef");
/// let profile = Profile::First;
/// let passages = break_text(rt.alloc(), SAMPLE_FILES, &mut reader, 65_536, profile)?;
/// ```
pub fn break_text<R: Source>(
    alloc: Global,
    files: Files<'_>,
    reader: &mut R,
    limit: u32,
    profile: Profile,
) -> Result<Vec<TestLine>, BreakFault>
    // The bytes read are a text, and the lines are its passages by the cells of the files.
    ensures broken { IfOk result (λ lines. IsBroken files.entry profile (R.unread reader.old) lines.items) }

    ensures reads { ReadsBy IsLinesFault files.entry limit profile
        (reader_alone R.Source reader.old) (reader_alone R.Source reader.new) result }
{
    let cells = read_cells(alloc, files)?;
    let text = shown_text(alloc, reader, &cells, limit, profile)?;
    let lines = read_lines(alloc, &text)?;
    Ok(lines)
}

/// The output of `show` for a text. The error is that of `show`, or `Memory`.
fn shown_text<R: Source>(
    alloc: Global,
    reader: &mut R,
    cells: &CellPages,
    limit: u32,
    profile: Profile,
) -> Result<Vec<u8>, CmdFault>
    ensures { MatchResult result
        (λ text. IsShown (showing (page_cell cells.now) profile limit) (R.unread reader.old) text.items
        × Shows (page_cell cells.now) limit profile
        (reader_alone R.Source reader.old) (reader_alone R.Source reader.new) (Ok (tt {0})))
        (ShowStops (page_cell cells.now) limit profile
        (reader_alone R.Source reader.old) (reader_alone R.Source reader.new)) }
{
    let mut writer = Device::new(Vec::new(alloc));
    match show(alloc, reader, &mut writer, cells, limit, profile) {
        Ok(()) => Ok(writer.into_inner()),
        // A list in memory fails if it could not grow.
        Err(CmdFault::Write) => Err(CmdFault::Memory),
        Err(fault) => Err(fault),
    }
}

/// What the lines of passages say. Fails only if memory runs out.
fn read_lines(alloc: Global, text: &[u8]) -> Result<Vec<TestLine>, CmdFault>
    requires { AreReadable text.now }
    ensures { MatchResult result (λ lines. Say text.now lines.items) (λ fault. fault ≡ CmdFault.Memory) }
{
    let mut lines = Vec::new(alloc);
    let mut rest = text;
    while let Some((line, behind)) = first_line(rest) {
        lines.push(read_shown(alloc, line)?)?;
        rest = behind;
    }
    Ok(lines)
}

/// The first line of a text without its line end, and the text after it.
fn first_line(text: &[u8]) -> Option<(&[u8], &[u8])>
    ensures some { IfSome result (λ parts. (text.now ≡ parts.0.now ++ 10 ∷ parts.1.now) × HasNoLineEnd parts.0.now) }
    ensures none { IfNone result (HasNoLineEnd text.now) }
{
    let end = text.iter().position(|byte| *byte == b'\n')?;
    Some((&text[..end], &text[end + 1..]))
}

/// What the line of a passage says.
fn read_shown(alloc: Global, line: &[u8]) -> Result<TestLine, CmdFault>
    requires { (ms : List Marked) × (line.now ≡ line_of ms) × IsReadable ms }
    ensures { MatchResult result (SayOf line.now) (λ fault. fault ≡ CmdFault.Memory) }
{
    match read_passage_line(alloc, line) {
        Ok(Some(read)) => Ok(read),
        Ok(None) => unreachable!(),
        Err(LineFault::Memory) => Err(CmdFault::Memory),
        Err(LineFault::LineTooLong) => unreachable!(),
        Err(LineFault::Bad { .. }) => unreachable!(),
    }
}
