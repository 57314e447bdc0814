//! The chunks of a text (`lbk_chunks`), a line or an object for each.

ghost use Rattle.std.specs.Prelude.{◌≡◌, ℕ, List, true};
ghost use Rattle.lbk_feed.specs.Devices.{failures_after};
ghost use Rattle.lbk_cmd.specs.Acts.{Chunks};
ghost use Rattle.lbk_cmd.specs.Chunk.{wanted_of};
ghost use Rattle.lbk_cmd.specs.Chunking.{Gives, IsInOrder, StandsIn, WritesLast};
ghost use Rattle.lbk_cmd.specs.Devices.{devices_of};
ghost use Rattle.lbk_cmd.specs.Waiting.{waiting_in};

use super::faults::CmdFault;
use super::waiting::Waiting;
use lbk_args::Part;
use lbk_chunk_reader::Window;
use lbk_chunks::Limits;
use lbk_feed::{Failed, Sink, Source};
use lbk_passage::Segmenter;
use lbk_rules::{CellSource, Profile};
use std::alloc::Global;

/// Which chunks of a text to write, and how.
#[derive(Clone, Copy, Debug, PartialEq, Eq)]
pub struct Asked<'a> {
    /// Write only chunks that begin in this range; all of them without one.
    pub range: Option<Part>,
    /// Whether to write each as an object with its text.
    pub texts: bool,
    /// The name of the text's file, for a member of each object; none without one.
    pub file: Option<&'a str>,
}

/// Writes the chunks of a text: for each a line `C` with its first byte and the byte after its last, its number of
/// words, and the kind and the rule of the line break at its end (UAX #14, section 6). Offsets count bytes of the whole
/// text. With a range it writes only chunks that begin in it, but reads the whole text.
///
/// With texts each line is a JSON object instead, with the members `start`, `end`, `words` and `text`, and `file` before
/// them if the file is named.
///
/// It writes the lines of the chunks that are settled before the next read, and before it returns a fault; a chunk is
/// settled once a break after its end is known. `limit` and the faults are as in `show`.
pub fn chunk<R: Source, W: Sink, C: CellSource>(
    alloc: Global,
    limits: Limits,
    asked: Asked<'_>,
    reader: &mut R,
    writer: &mut W,
    cells: &C,
    limit: u32,
    profile: Profile,
) -> Result<(), CmdFault>
    ensures { Chunks (wanted_of asked.entry) limits (C.cell_of cells.now) limit profile
        (devices_of R.Source W.Sink reader.old writer.old) (devices_of R.Source W.Sink reader.new writer.new) result }
{
    let mut segmenter = Segmenter::new(alloc, cells, limit, profile)?;
    let mut window = Window::new(alloc, limits, asked.texts);
    let mut waiting = Waiting::new();
    loop {
        waiting.write_due(&mut segmenter, writer)?;
        match window.take_next(&mut segmenter, reader) {
            Ok(true) => write_chunks(asked, &mut window, &mut waiting, false, writer)?,
            Ok(false) => {
                write_last(asked, &mut window, &mut waiting, writer)?;
                return Ok(());
            }
            Err(fault) => {
                waiting.write(writer)?;
                return Err(CmdFault::Passage(fault));
            }
        }
    }
}

/// Writes the buffered lines, and those of the chunks that are left.
fn write_last<W: Sink>(
    asked: Asked<'_>,
    window: &mut Window,
    waiting: &mut Waiting,
    writer: &mut W,
) -> Result<(), Failed>
    requires { IsInOrder window.old }
    ensures { WritesLast W.Sink (wanted_of asked.entry) window.old writer.old writer.new (waiting_in waiting.old) result }
{
    write_chunks(asked, window, waiting, true, writer)?;
    waiting.write(writer)?;
    Ok(())
}

/// Appends the lines of the settled chunks to the buffer.
fn write_chunks<W: Sink>(
    asked: Asked<'_>,
    window: &mut Window,
    waiting: &mut Waiting,
    is_whole: bool,
    writer: &mut W,
) -> Result<(), Failed>
    requires { IsInOrder window.old }
    ensures gives { (text : List ℕ) → StandsIn (wanted_of asked.entry) text window.old
        → Gives (wanted_of asked.entry) text is_whole window.old window.new (W.written writer.old) (W.written writer.new)
        (waiting_in waiting.old) (waiting_in waiting.new) result }
    ensures failures { W.failure_count writer.new ≡ failures_after (W.failure_count writer.old) result }
{
    while let Some(chunk) = window.next(is_whole) {
        waiting.push(asked, &chunk, window.text_of(&chunk), writer)?;
    }
    Ok(())
}
