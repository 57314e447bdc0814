//! The engines over a range of a text: they write the passages that begin in it.

ghost use Rattle.lbk_cmd.specs.Devices.{devices_of};
ghost use Rattle.lbk_cmd.specs.Engines.{engine_by};
ghost use Rattle.lbk_cmd.specs.Ranges.{RangeRuns};

use super::engine::{Breaking, Lines};
use super::faults::CmdFault;
use super::gathered::{Gathered, end_of};
use lbk_args::Part;
use lbk_feed::{Sink, Source};
use lbk_passage::Segmenter;
use lbk_rules::CellSource;
use std::alloc::Global;

/// Writes the lines of the passages that begin in a range of bytes, as for the whole text. It reads the text from its
/// start, skips passages before the range, and stops reading after a passage that ends at or after the end of the
/// range.
///
/// `limit` and the faults are those of `show`: the text before the range is refused as in a run over the whole text.
pub fn write_range<R: Source, W: Sink, C: CellSource>(
    alloc: Global,
    lines: Lines<'_>,
    part: Part,
    reader: &mut R,
    writer: &mut W,
    how: &Breaking<'_, C>,
) -> Result<(), CmdFault>
    ensures { RangeRuns part (engine_by C.cell_of lines.entry how.now)
        (devices_of R.Source W.Sink reader.old writer.old) (devices_of R.Source W.Sink reader.new writer.new) result }
{
    let mut segmenter = Segmenter::new(alloc, how.cells, how.limit, how.profile)?;
    let mut gathered = Gathered::new(alloc);
    while gathered.at() < u64::from(part.to) {
        gathered.write_due(&mut segmenter, writer)?;
        let put = gathered.put_within(part, lines, &mut segmenter, reader, how);
        if let Some(answer) = end_of(put) {
            gathered.write(writer)?;
            return answer;
        }
    }
    gathered.write(writer)?;
    Ok(())
}
