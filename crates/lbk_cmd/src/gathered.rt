//! Lines that are buffered until the next read.

ghost use Rattle.std.specs.Prelude.{ℕ, ◌≡◌, ◌≤◌, ◌<◌, ◌⊎◌, ◌^◌, ◌++◌, List, [], length, take, true, Err};
ghost use Rattle.std.specs.Prelude.{OnOk};
ghost use Rattle.lbk_rules.specs.declared.Cell.{Cell};
ghost use Rattle.lbk_values.specs.declared.profile.Profile as specs;
ghost use Rattle.lbk_passage.specs.Shown.{state_of};
ghost use Rattle.lbk_passage.specs.declared.faults.PassageFault.{PassageFault};
ghost use Rattle.lbk_cmd.specs.Engines.{engine_by, engine_of};
ghost use Rattle.lbk_cmd.specs.declared.engine.Lines.TheVariants as kinds;
ghost use Rattle.lbk_cmd.specs.Deciding.{IsPassageText};
ghost use Rattle.lbk_cmd.specs.Gathering.{Leaves, PutsRead, PutsText, end_of};
ghost use Rattle.lbk_cmd.specs.Ranges.{within};
ghost use Rattle.lbk_cmd.specs.Writing.{WritesDue, WritesOut};

use super::engine::{Breaking, Lines, TextLines};
use super::faults::CmdFault;
use super::shown::{decide, push_shown};
use super::signed::{NOTHING_PUT, Room, push_signed};
use lbk_args::Part;
use lbk_feed::{Failed, Sink, Source, write_all};
use lbk_passage::Segmenter;
use lbk_passage::lines::{Offsets, push_segmented};
use lbk_rules::{CellSource, Verdict};
use std::alloc::{AllocError, Global};

/// How many bytes of lines are buffered at most, before those of one more passage.
const WAITING: usize = 65_536;

/// The lines of passages that were not written yet, and lists to work in.
#[derive(Drop)]
pub(crate) struct Gathered {
    lines: Vec<u8>,
    /// How many bytes of the text come before the next passage.
    at: u64,
    offsets: Offsets,
    verdicts: Vec<Verdict>,
    room: Room,
}

impl Gathered {
    /// No lines, at the start of a text.
    pub fn new(alloc: Global) -> Gathered
        ensures lines { result.lines.items ≡ [] }
        ensures start { result.at ≡ 0 }
    {
        Gathered {
            lines: Vec::new(alloc),
            at: 0,
            offsets: Offsets::new(),
            verdicts: Vec::new(alloc),
            room: NOTHING_PUT,
        }
    }

    /// How many bytes of the text come before the next passage.
    pub fn at(&self) -> u64
        ensures { result ≡ self.now.at }
    {
        self.at
    }

    /// Writes the lines, unless the bytes read settle the next passage and few lines are buffered.
    pub fn write_due<W: Sink, C: CellSource>(
        &mut self,
        segmenter: &mut Segmenter<'_, C>,
        writer: &mut W,
    ) -> Result<(), Failed>
        ensures writes { WritesDue W.Sink writer.old writer.new (state_of C.cell_of segmenter.old)
            (state_of C.cell_of segmenter.new) self.old.lines.items self.new.lines.items result }
        ensures left { Leaves (2 ^ 16) self.old self.new result }
    {
        if segmenter.look_ahead() && self.lines.len() < WAITING {
            return Ok(());
        }
        self.write(writer)
    }

    /// Writes the lines.
    pub fn write<W: Sink>(&mut self, writer: &mut W) -> Result<(), Failed>
        ensures out { WritesOut W.Sink writer.old writer.new self.old.lines.items self.new.lines.items result }
        ensures left { Leaves 1 self.old self.new result }
    {
        write_all(writer, &self.lines)?;
        self.lines.clear();
        Ok(())
    }

    /// Appends the lines of the next passage, and returns whether there was one. After a fault none of its lines are
    /// appended.
    pub fn put_next<R: Source, C: CellSource>(
        &mut self,
        lines: Lines<'_>,
        segmenter: &mut Segmenter<'_, C>,
        reader: &mut R,
        how: &Breaking<'_, C>,
    ) -> Result<bool, CmdFault>
        ensures { PutsRead R.Source (engine_by C.cell_of lines.entry how.now)
            (state_of C.cell_of segmenter.old) (state_of C.cell_of segmenter.new) reader.old reader.new
            self.old.lines.items self.new.lines.items self.new.at result }
    {
        match lines {
            Lines::Segmented => self.put_segmented(segmenter, reader),
            Lines::Text(lines) => self.put_text(segmenter, reader, lines, how),
        }
    }

    /// Appends those of its segments and words.
    fn put_segmented<R: Source, C: CellSource>(
        &mut self,
        segmenter: &mut Segmenter<'_, C>,
        reader: &mut R,
    ) -> Result<bool, CmdFault>
        ensures { (cell : ℕ → Cell) (profile : specs.Profile) (limit : ℕ)
            → PutsRead R.Source (engine_of kinds.Segmented cell profile limit)
            (state_of C.cell_of segmenter.old) (state_of C.cell_of segmenter.new) reader.old reader.new
            self.old.lines.items self.new.lines.items self.new.at result }
    {
        let Some(passage) = segmenter.next(reader)? else {
            return Ok(false);
        };
        let before = self.lines.len();
        match push_segmented(&mut self.lines, &mut self.offsets, &passage) {
            Ok(()) => {
                self.at = passage.start + passage.text.len() as u64;
                Ok(true)
            }
            Err(_) => self.take_back(before),
        }
    }

    /// Appends those of its text, without looking for segments or words.
    fn put_text<R: Source, C: CellSource>(
        &mut self,
        segmenter: &mut Segmenter<'_, C>,
        reader: &mut R,
        lines: TextLines<'_>,
        how: &Breaking<'_, C>,
    ) -> Result<bool, CmdFault>
        ensures { PutsRead R.Source (engine_by C.cell_of (kinds.Text lines.entry) how.now)
            (state_of C.cell_of segmenter.old) (state_of C.cell_of segmenter.new) reader.old reader.new
            self.old.lines.items self.new.lines.items self.new.at result }
    {
        let Some(passage) = segmenter.next_text(reader)? else {
            return Ok(false);
        };
        let before = self.lines.len();
        match self.push_text(lines, how, passage.text, passage.end) {
            Ok(()) => {
                self.at = passage.start + passage.text.len() as u64;
                Ok(true)
            }
            Err(_) => self.take_back(before),
        }
    }

    /// Takes back what was appended behind so many bytes: memory could not grow for the rest.
    fn take_back(&mut self, before: usize) -> Result<bool, CmdFault>
        ensures lines { self.new.lines.items ≡ take before self.old.lines.items }
        ensures memory { result ≡ Err CmdFault.Memory }
    {
        self.lines.truncate(before);
        Err(CmdFault::Memory)
    }

    /// Appends the lines of a passage, from its text and the verdict at its end. After an error some of them may be
    /// appended.
    fn push_text<C: CellSource>(
        &mut self,
        lines: TextLines<'_>,
        how: &Breaking<'_, C>,
        text: &str,
        end: Verdict,
    ) -> Result<(), AllocError>
        requires { IsPassageText text.now }
        ensures text { OnOk result (PutsText (engine_by C.cell_of (kinds.Text lines.entry) how.now) text.now end
            self.old.lines.items self.new.lines.items) }
        ensures kept { take (length self.old.lines.items) self.new.lines.items ≡ self.old.lines.items }
        ensures at { self.new.at ≡ self.old.at }
    {
        match lines {
            TextLines::Signed { sign } => push_signed(
                &mut self.lines,
                sign,
                how.cells,
                how.profile,
                text,
                &mut self.room,
            ),
            TextLines::Shown => {
                decide(how.cells, how.profile, text, end, &mut self.verdicts)?;
                push_shown(&mut self.lines, text, &self.verdicts)
            }
        }
    }

    /// As `put_next`, for a passage that begins before the end of a range. It skips a passage that begins before the
    /// range.
    pub fn put_within<R: Source, C: CellSource>(
        &mut self,
        part: Part,
        lines: Lines<'_>,
        segmenter: &mut Segmenter<'_, C>,
        reader: &mut R,
        how: &Breaking<'_, C>,
    ) -> Result<bool, CmdFault>
        requires start { self.old.at ≡ (state_of C.cell_of segmenter.old).start }
        requires early { self.old.at < part.to }
        ensures puts { PutsRead R.Source (within part (engine_by C.cell_of lines.entry how.now))
            (state_of C.cell_of segmenter.old) (state_of C.cell_of segmenter.new) reader.old reader.new
            self.old.lines.items self.new.lines.items self.new.at result }
        // No memory grows for passages before the range.
        ensures memory { (result ≡ Err CmdFault.Memory) ⊎ (result ≡ Err (CmdFault.Passage PassageFault.Memory))
            → part.from ≤ self.old.at }
    {
        if self.at >= u64::from(part.from) {
            return self.put_next(lines, segmenter, reader, how);
        }
        let Some(end) = segmenter.pass(reader)? else {
            return Ok(false);
        };
        self.at = end;
        Ok(true)
    }
}

/// How a run ends after this result, or `None` if it goes on.
pub(crate) fn end_of(put: Result<bool, CmdFault>) -> Option<Result<(), CmdFault>>
    ensures { result ≡ end_of put }
{
    match put {
        Ok(true) => None,
        Ok(false) => Some(Ok(())),
        Err(fault) => Some(Err(fault)),
    }
}
