//! The passages of a text, one after another.

ghost use Rattle.std.specs.Prelude.{◌≡◌, [], ◌≤◌, ◌<◌, ◌+◌, ◌^◌, ◌↔◌, ◌⊎◌, ◌-◌, true, false, length};
ghost use Rattle.std.specs.Prelude.{IfOk, IfErr, IfSome, OnOk, IsErrOf};
ghost use Rattle.std.specs.Borrow.{sem};
ghost use Rattle.std.specs.Io.BufRead.{Rests};
ghost use Rattle.std.specs.Str.{chars};
ghost use Rattle.lbk_passage.specs.Ahead.{IsAhead, KeepsTold};
ghost use Rattle.lbk_passage.specs.Pieces.{letter_by};
ghost use Rattle.lbk_passage.specs.Stays.{IsWhole};
ghost use Rattle.lbk_words.specs.Near.{AreMet};

use crate::ahead::{Ahead, NOTHING};
use crate::faults::PassageFault;
use crate::front::Front;
use crate::known::KnownCells;
use crate::paragraph::Paragraph;
use crate::passage::{Passage, PassageText, Piece, Segment};
use crate::pieces::cut_words;
use crate::segments::{BLOCK, NO_BREAKS, cut_lines};
use lbk_bytes::RawBreak;
use lbk_feed::{LIMIT_MAX, Source};
use lbk_rules::{CellSource, Profile, Verdict};
use lbk_words::NearScalars;
use std::alloc::{AllocError, Global};

/// Cuts a text of any length into passages, and holds one at a time.
///
/// One reader serves all calls. The text of a paragraph has at most as many bytes as the limit says.
///
/// ```rust
/// let mut segmenter = Segmenter::new(rt.alloc(), &cells, 65_536, Profile::First)?;
/// let mut seen = String::new(rt.alloc());
/// for _ in 0..u64::MAX {
///     let Some(passage) = segmenter.next(&mut reader)? else {
///         break;
///     };
/// ```
#[derive(Drop)]
pub struct Segmenter<'a, C: CellSource> {
    known: KnownCells<'a, C>,
    profile: Profile,
    paragraph: Paragraph,
    /// Breaks that are found ahead of the passages that they end, with the segments of these.
    ahead: Ahead,
    /// Whether the last passage was given with its segments, so that those of the next are likely to be asked for.
    gave_segments: bool,
    /// Where the breaks of a passage are found into that none was found ahead of.
    block: [RawBreak; BLOCK],
    /// The scalars that were met where pieces were found.
    near: NearScalars,
    /// The segments of a passage that none was found ahead of.
    segments: Front<Segment>,
    pieces: Front<Piece>,
    ghost told: { KeepsTold profile (C.cell_of known.cells.now) paragraph ahead },
    ghost found: { IsAhead profile (C.cell_of known.cells.now) paragraph.feed.ready ahead },
    ghost whole: { paragraph.is_held ≡ true → IsWhole (C.cell_of known.cells.now) paragraph },
    ghost met: { AreMet (letter_by (C.cell_of known.cells.now)) near },
}

impl<'a, C: CellSource> Segmenter<'a, C> {
    ghost use Rattle.lbk_passage.specs.State.{IsLimit, bytes_in, new_state};
    ghost use Rattle.lbk_passage.specs.Shown.{HasRoom, KeepsRoom, found_by, state_of};
    ghost use Rattle.lbk_passage.specs.Next.{AfterNext, GoesOnce, IsOpen, IsPlaced, fault_in, failures_with};
    ghost use Rattle.lbk_passage.specs.Passing.{LendsText, PassesOver};
    ghost use Rattle.lbk_passage.specs.Ahead.{segments_in};
    ghost use Rattle.lbk_passage.specs.Front.{items_of};
    ghost use Rattle.lbk_passage.specs.contracts.segmenter.Segmenter.{the_row};
    ghost use mir.Syntax.{named};

    /// A segmenter that has read nothing. It reserves room for the `limit` bytes of one paragraph and nothing else.
    ///
    /// `Limit` is returned exactly if the limit is not 1 to 16,777,216, `Memory` where the room could not be had.
    pub fn new(
        alloc: Global,
        cells: &'a C,
        limit: u32,
        profile: Profile,
    ) -> Result<Segmenter<'a, C>, PassageFault>
        ensures limit { IsErrOf result PassageFault.Limit ↔ (¬ (IsLimit limit)) }
        ensures only { IfErr result (λ fault. (fault ≡ PassageFault.Limit) ⊎ (fault ≡ PassageFault.Memory)) }
        ensures state { IfOk result (λ s. state_of C.cell_of s ≡ new_state (C.cell_of cells.now) profile limit) }
        ensures room { IfOk result (λ s. HasRoom s limit) }
    {
        if limit == 0 || limit > LIMIT_MAX {
            return Err(PassageFault::Limit);
        }
        let Ok(paragraph) = Paragraph::new(alloc, limit) else {
            return Err(PassageFault::Memory);
        };
        Ok(Segmenter {
            known: KnownCells::of(cells),
            profile,
            paragraph,
            ahead: NOTHING,
            gave_segments: false,
            block: NO_BREAKS,
            near: NearScalars::new(),
            segments: Front::new(alloc),
            pieces: Front::new(alloc),
        })
    }

    /// The next passage, or `None` at the end of the text and from then on.
    ///
    /// It is returned once the scalar after it, or the end of the text, was read, after at most `limit + 8` reads. A
    /// fault of the reader or of the text (`Read`, `NotUtf8`, `TextTooLong`, `ParagraphTooLong`) is returned exactly at
    /// its offset, after the passages before it, and then `Spent`. `Memory` is returned if an allocation for the
    /// passage's segments or pieces fails; nothing is lost, and the same call again reads nothing.
    pub fn next<R: Source>(&mut self, reader: &mut R) -> Result<Option<Passage<'_>>, PassageFault>
        ensures* after_borrow { sem 𝓛
            (Rests (the_row (record { mir = named 1; lft = [] }) C.row C.CellSource) self.entry (λ new.
            AfterNext (state_of C.cell_of self.old) (state_of C.cell_of new) (R.unread reader.old) (R.unread reader.new)
            (R.has_ended reader.old) (R.has_ended reader.new)
            (R.reads_made reader.old) (R.reads_made reader.new) result
            × KeepsRoom (found_by self.old) (found_by new) (state_of C.cell_of new) (fault_in result))) }

        ensures lent { IfOk result (λ o. IfSome o IsPlaced) }
        ensures goes_on { GoesOnce (state_of C.cell_of self.old) reader.old reader.new
            (R.reads_made reader.old).count (R.reads_made reader.new).count result }
        // `Read` is returned exactly where a read failed.
        ensures failures { R.failure_count reader.new ≡ failures_with (R.failure_count reader.old) (fault_in result) }
    {
        self.gave_segments = true;
        let listed = self.segments.count;
        let told = (self.ahead).tell(&self.known, self.profile, &self.paragraph, listed);
        let Some(end) = self.paragraph.fill(reader, &self.known, told)? else {
            return Ok(None);
        };
        let text = self.paragraph.text();
        let (ahead, block) = (&self.ahead, &mut self.block);
        let (cells, segments) = (self.known.cells, &mut self.segments);
        if cut_lines(cells, self.profile, text, end, ahead, block, segments).is_err() {
            return Err(PassageFault::Memory);
        }
        let (near, pieces) = (&mut self.near, &mut self.pieces);
        if cut_words(&self.known, near, text, pieces).is_err() {
            return Err(PassageFault::Memory);
        }
        self.paragraph.release();
        Ok(Some(self.lend(end)))
    }

    /// The text of the next passage and the verdict at its end, without its segments and words, or `None` at the end
    /// of the text. Reads and faults are those of `next`, and so is what later calls give.
    pub fn next_text<R: Source>(
        &mut self,
        reader: &mut R,
    ) -> Result<Option<PassageText<'_>>, PassageFault>
        ensures* after_borrow { sem 𝓛
            (Rests (the_row (record { mir = named 1; lft = [] }) C.row C.CellSource) self.entry (λ new.
            LendsText (state_of C.cell_of self.old) (state_of C.cell_of new) (R.unread reader.old) (R.unread reader.new)
            (R.has_ended reader.old) (R.has_ended reader.new)
            (R.reads_made reader.old) (R.reads_made reader.new) result
            × (found_by new ≡ found_by self.old))) }
        ensures goes_on { GoesOnce (state_of C.cell_of self.old) reader.old reader.new
            (R.reads_made reader.old).count (R.reads_made reader.new).count result }
        // Nothing grows, so it is never out of memory.
        ensures memory { ¬ (result ≡ Err PassageFault.Memory) }
        ensures failures { R.failure_count reader.new ≡ failures_with (R.failure_count reader.old) (fault_in result) }
    {
        self.ahead.forget();
        self.gave_segments = false;
        let Some(end) = self.paragraph.fill(reader, &self.known, None)? else {
            return Ok(None);
        };
        self.paragraph.release();
        Ok(Some(PassageText {
            start: self.paragraph.start(),
            text: self.paragraph.text(),
            end,
        }))
    }

    /// Passes over the next passage, without finding its segments and words, and returns the byte of the text after
    /// it, or `None` at the end of the text. Reads and faults are those of `next`, and so is what later calls give.
    pub fn pass<R: Source>(&mut self, reader: &mut R) -> Result<Option<u64>, PassageFault>
        ensures passes { PassesOver (state_of C.cell_of self.old) (state_of C.cell_of self.new) (R.unread reader.old)
            (R.unread reader.new)
            (R.has_ended reader.old) (R.has_ended reader.new) (R.reads_made reader.old) (R.reads_made reader.new)
            result }
        ensures goes_on { GoesOnce (state_of C.cell_of self.old) reader.old reader.new
            (R.reads_made reader.old).count (R.reads_made reader.new).count result }
        // Nothing grows, so it is never out of memory.
        ensures memory { ¬ (result ≡ Err PassageFault.Memory) }
        ensures found { found_by self.new ≡ found_by self.old }
        ensures failures { R.failure_count reader.new ≡ failures_with (R.failure_count reader.old) (fault_in result) }
    {
        self.ahead.forget();
        self.gave_segments = false;
        let Some(_) = self.paragraph.fill(reader, &self.known, None)? else {
            return Ok(None);
        };
        self.paragraph.release();
        Ok(Some(self.paragraph.given()))
    }

    /// Finds the next passage among the bytes that were read already, where these settle it: where a line must end
    /// before one of them. Returns whether the next call of `next` or `pass` makes no read. What it finds is kept for
    /// that call.
    pub fn look_ahead(&mut self) -> bool
        ensures state { state_of C.cell_of self.new ≡ record (state_of C.cell_of self.old) { is_settled = result } }
        ensures remains { result ≡ false → IsOpen (state_of C.cell_of self.old) }
        ensures found { found_by self.new ≡ found_by self.old }
    {
        if !self.gave_segments {
            self.ahead.forget();
            return self.paragraph.look_ahead(&self.known, None);
        }
        let listed = self.segments.count;
        let told = (self.ahead).tell(&self.known, self.profile, &self.paragraph, listed);
        self.paragraph.look_ahead(&self.known, told)
    }

    /// The segments of the passage that was taken last: those that were found ahead, if any were, else the list.
    #[inline(always)]
    fn found(&self) -> &[Segment]
        ensures { result.now ≡ segments_in self.now.ahead self.now.segments }
    {
        if self.ahead.has_told() {
            return self.ahead.found();
        }
        self.segments.as_slice()
    }

    /// The paragraph as a passage.
    fn lend(&self, end: Verdict) -> Passage<'_>
        ensures start { result.start ≡ self.now.paragraph.feed.given - length (bytes_in self.now.paragraph) }
        ensures text { result.text.now ≡ bytes_in self.now.paragraph }
        ensures segments { result.segments.now ≡ segments_in self.now.ahead self.now.segments }
        ensures pieces { result.pieces.now ≡ items_of self.now.pieces }
        ensures end { result.end ≡ end }
    {
        Passage {
            start: self.paragraph.start(),
            text: self.paragraph.text(),
            segments: self.found(),
            pieces: self.pieces.as_slice(),
            end,
        }
    }
}
