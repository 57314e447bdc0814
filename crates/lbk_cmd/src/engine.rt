//! The engines: each reads a text to its end, and writes the lines of every passage.

ghost use Rattle.lbk_cmd.specs.Acts.{Marks, Segments, Shows, Writes};
ghost use Rattle.lbk_args.specs.Sign.{default_sign};
ghost use Rattle.lbk_cmd.specs.Devices.{devices_of};

use super::faults::CmdFault;
use super::gathered::{Gathered, end_of};
use lbk_args::DEFAULT_SIGN;
use lbk_feed::{Sink, Source};
use lbk_passage::Segmenter;
use lbk_rules::{CellSource, Profile};
use std::alloc::Global;

/// Writes a text with `÷` at each position where a line may end (UAX #14, section 6), otherwise unchanged: where a line
/// must end, the text has its own line end. A text that ends without a line end gets one.
///
/// `limit`, the faults, and when lines are written: as in `show`.
pub fn mark<R: Source, W: Sink, C: CellSource>(
    alloc: Global,
    reader: &mut R,
    writer: &mut W,
    cells: &C,
    limit: u32,
    profile: Profile,
) -> Result<(), CmdFault>
    ensures { Marks default_sign (C.cell_of cells.now) limit profile
        (devices_of R.Source W.Sink reader.old writer.old) (devices_of R.Source W.Sink reader.new writer.new) result }
{
    mark_with(alloc, DEFAULT_SIGN, reader, writer, cells, limit, profile)
}

/// As `mark`, with this sign instead of `÷`.
pub fn mark_with<R: Source, W: Sink, C: CellSource>(
    alloc: Global,
    sign: &str,
    reader: &mut R,
    writer: &mut W,
    cells: &C,
    limit: u32,
    profile: Profile,
) -> Result<(), CmdFault>
    ensures { Marks sign.now (C.cell_of cells.now) limit profile
        (devices_of R.Source W.Sink reader.old writer.old) (devices_of R.Source W.Sink reader.new writer.new) result }
{
    let how = Breaking {
        cells,
        limit,
        profile,
    };
    let lines = Lines::Text(TextLines::Signed { sign });
    write_lines(alloc, lines, reader, writer, &how)
}

/// Writes a line for each passage of a text (UAX #14, section 6): the marks of its positions with its scalars between
/// them, a tab, `#`, and the number of the rule that decided each position.
///
/// It writes the lines of settled passages before the next read, and before it returns a fault; a passage is settled
/// once the scalar after it, or the end of the text, was read. `limit` is the most bytes of a paragraph, 1 to
/// 16,777,216. `Passage` says why there are no more passages, `Write` that the writer failed, `Memory` that memory
/// could not grow for a line; nothing of that line was written.
pub fn show<R: Source, W: Sink, C: CellSource>(
    alloc: Global,
    reader: &mut R,
    writer: &mut W,
    cells: &C,
    limit: u32,
    profile: Profile,
) -> Result<(), CmdFault>
    ensures { Shows (C.cell_of cells.now) limit profile
        (devices_of R.Source W.Sink reader.old writer.old) (devices_of R.Source W.Sink reader.new writer.new) result }
{
    let how = Breaking {
        cells,
        limit,
        profile,
    };
    write_lines(alloc, Lines::Text(TextLines::Shown), reader, writer, &how)
}

/// Writes the segments and words of a text: for each passage a line `P` with its first byte and the byte after its
/// last, then a line `S` for each segment, with the kind and the rule of the break at its end (UAX #14, section 6),
/// then a line `W` for each word (UAX #29, section 4). Offsets count bytes of the whole text.
///
/// `limit`, the faults, and when lines are written: as in `show`.
pub fn segment<R: Source, W: Sink, C: CellSource>(
    alloc: Global,
    reader: &mut R,
    writer: &mut W,
    cells: &C,
    limit: u32,
    profile: Profile,
) -> Result<(), CmdFault>
    ensures { Segments (C.cell_of cells.now) limit profile
        (devices_of R.Source W.Sink reader.old writer.old) (devices_of R.Source W.Sink reader.new writer.new) result }
{
    let how = Breaking {
        cells,
        limit,
        profile,
    };
    write_lines(alloc, Lines::Segmented, reader, writer, &how)
}

/// How a text is broken: by these cells and the rules of this profile, with at most so many bytes in a paragraph.
#[derive(Drop)]
pub(crate) struct Breaking<'a, C> {
    pub cells: &'a C,
    pub limit: u32,
    pub profile: Profile,
}

/// What to write for a passage.
#[derive(Clone, Copy)]
pub(crate) enum Lines<'a> {
    /// What the rules decided, in its text.
    Text(TextLines<'a>),
    /// Its offsets, its segments and its words.
    Segmented,
}

/// How to write a passage with what the rules decided.
#[derive(Clone, Copy)]
pub(crate) enum TextLines<'a> {
    /// Its text, with a sign at each position where a line may end.
    Signed { sign: &'a str },
    /// Its marks, scalars and rules, in one line.
    Shown,
}

/// Reads a text to its end, and writes the lines of each passage before the next read.
pub fn write_lines<R: Source, W: Sink, C: CellSource>(
    alloc: Global,
    lines: Lines<'_>,
    reader: &mut R,
    writer: &mut W,
    how: &Breaking<'_, C>,
) -> Result<(), CmdFault>
    ensures { Writes lines.entry (C.cell_of how.now.cells.now) how.now.limit how.now.profile
        (devices_of R.Source W.Sink reader.old writer.old) (devices_of R.Source W.Sink reader.new writer.new) result }
{
    let mut segmenter = Segmenter::new(alloc, how.cells, how.limit, how.profile)?;
    let mut gathered = Gathered::new(alloc);
    loop {
        gathered.write_due(&mut segmenter, writer)?;
        let put = gathered.put_next(lines, &mut segmenter, reader, how);
        if let Some(answer) = end_of(put) {
            gathered.write(writer)?;
            return answer;
        }
    }
}
