//! The cuts found past the start of the next chunk, and the text from there on.

ghost use Rattle.std.specs.Prelude.{◌≤◌, vec_len};

use crate::choosing::{chunk_to, end_among, past, start_behind};
use crate::cut::{Chunk, Cut};
use crate::gathering::push_cuts;
use crate::held::{Held, take_text};
use lbk_chunks::{Here, Limits};
use lbk_feed::Source;
use lbk_passage::{Passage, PassageFault, Segmenter};
use lbk_rules::CellSource;
use std::alloc::{AllocError, Global};

/// The cuts found past the start of the next chunk, and the text from there on if it is kept.
#[derive(Drop)]
pub struct Window {
    limits: Limits,
    cuts: Vec<Cut>,
    /// How many of them are not past the start.
    passed: usize,
    here: Here,
    /// How many words are in the passages that were taken.
    words: usize,
    held: Option<Held>,
    ghost passed_few: { passed ≤ vec_len cuts },
}

impl Window {
    ghost use Rattle.std.specs.Prelude.{◌≡◌, ◌≤◌, ◌<◌, ◌+◌, ◌^◌, ◌++◌, [], List, IfOk, IfSome, None, OnOk, false, length};
    ghost use Rattle.std.specs.Prelude.{map};
    ghost use Rattle.std.specs.Prelude.{ℕ, option_map, true, Some, if◌then◌else◌};
    ghost use Rattle.lbk_chunks.specs.declared.cut.Cut as spec;
    ghost use Rattle.lbk_chunks.specs.Chunks.{cuts_past};
    ghost use Rattle.lbk_chunks.specs.Cuts.{AreCutsPast};
    ghost use Rattle.lbk_chunk_reader.specs.Numbered.{numbered, numbered_chunk};
    ghost use Rattle.lbk_chunk_reader.specs.Choosing.{IsNextChunk};
    ghost use Rattle.lbk_chunk_reader.specs.Settled.{IsOpen};
    ghost use Rattle.lbk_chunk_reader.specs.Window.{IsNewWindow, IsSameWindow, IsTaken, cuts_in, here_in};
    ghost use Rattle.lbk_chunk_reader.specs.Window.{HoldsFew, HoldsFrom, held_in, keeps_text, limits_in, words_in};
    ghost use Rattle.lbk_chunk_reader.specs.Held.{KeepsFew, Reaches, chunk_text};
    ghost use Rattle.lbk_chunk_reader.specs.Pieces.{IsRegular};
    ghost use Rattle.lbk_chunk_reader.specs.Taking.{TakesNext};
    ghost use Rattle.lbk_passage.specs.Next.{IsDone, failures_with, fault_in};
    ghost use Rattle.lbk_passage.specs.Shown.{state_of};

    /// No cuts, at the start of a text. If it keeps the text, `text_of` returns that of each chunk.
    pub fn new(alloc: Global, limits: Limits, with_text: bool) -> Window
        ensures new { IsNewWindow limits result }
        ensures keeps { keeps_text result ≡ with_text }
    {
        Window {
            limits,
            cuts: Vec::new(alloc),
            passed: 0,
            here: Here {
                start: 0,
                words: 0,
                told: 0,
            },
            words: 0,
            held: if with_text {
                Some(Held::new(alloc))
            } else {
                None
            },
        }
    }

    /// Takes the cuts of the next passage, and its text if that is kept. Then at most half of the cuts held were passed,
    /// and at most half of the text held is before the next start. After an error some of the passage's cuts may be
    /// held.
    pub fn take(&mut self, passage: &Passage<'_>) -> Result<(), AllocError>
        requires { passage.now.start ≤ 2 ^ 62 }
        ensures taken { OnOk result (IsRegular passage.now.start (words_in self.old) passage.now.segments.now
            passage.now.pieces.now
            → IsTaken passage.now self.old self.new) }
        ensures few { HoldsFew self.new }
        ensures text { OnOk result (IfSome (held_in self.old) (Reaches (here_in self.old).start)
            → IfSome (held_in self.new) (KeepsFew (here_in self.new).start)) }
    {
        self.drop_passed();
        take_text(&mut self.held, self.here.start, passage.text)?;
        self.words = push_cuts(
            &mut self.cuts,
            passage.start as usize,
            self.words,
            passage.segments,
            passage.pieces,
        )?;
        Ok(())
    }

    /// Takes the cuts of a segmenter's next passage, and returns whether there was one. A window and a segmenter begin
    /// together, and the window takes each of its passages.
    ///
    /// Returns the faults of `Segmenter::next`, and `Memory` if an allocation for the cuts fails.
    pub fn take_next<R: Source, C: CellSource>(
        &mut self,
        segmenter: &mut Segmenter<'_, C>,
        reader: &mut R,
    ) -> Result<bool, PassageFault>
        ensures next { words_in self.old ≤ (state_of C.cell_of segmenter.old).start
            → TakesNext (state_of C.cell_of segmenter.old) (state_of C.cell_of segmenter.new) (R.unread reader.old)
            (R.unread reader.new) (R.has_ended reader.old) (R.has_ended reader.new) (R.reads_made reader.old)
            (R.reads_made reader.new) (R.failure_count reader.old) (R.failure_count reader.new) self.old self.new
            result }
        // `Read` is returned exactly where a read failed.
        ensures failures { R.failure_count reader.new ≡ failures_with (R.failure_count reader.old) (fault_in result) }
        ensures again { IsDone (state_of C.cell_of segmenter.old)
            → (state_of C.cell_of segmenter.old).is_spent ≡ false
            → (result ≡ Ok false) × (self.new ≡ self.old) }
        ensures ended { (state_of C.cell_of segmenter.old).is_ended ≡ true → reader.new ≡ reader.old }
        // Cuts that were passed are released, and so is the text before the next start.
        ensures few { IfOk result (λ came. came ≡ true → HoldsFew self.new) }
        ensures text { IfOk result (λ came. came ≡ true
            → IfSome (held_in self.old) (Reaches (here_in self.old).start)
            → IfSome (held_in self.new) (KeepsFew (here_in self.new).start)) }
    {
        let Some(passage) = segmenter.next(reader)? else {
            return Ok(false);
        };
        match self.take(&passage) {
            Ok(()) => Ok(true),
            Err(_) => Err(PassageFault::Memory),
        }
    }

    /// Releases the cuts that were passed once they are more than half.
    fn drop_passed(&mut self)
        ensures same { IsSameWindow self.old self.new }
        ensures few { HoldsFew self.new }
    {
        if self.passed > self.cuts.len() / 2 {
            drop(self.cuts.drain(..self.passed));
            self.passed = 0;
        }
    }

    /// The next chunk, if the cuts settle it or there are no others.
    ///
    /// They settle it if not all cuts ahead of it fit, and one past its end is known.
    pub fn next(&mut self, is_whole: bool) -> Option<Chunk>
        ensures chunk { IfSome result (λ chunk. (more : List spec.Cut) → (is_whole ≡ true → more ≡ [])
            → AreCutsPast (here_in self.old).start (cuts_in self.old ++ more)
            → IsNextChunk (limits_in self.old) (here_in self.old) (cuts_in self.old ++ more) (numbered_chunk chunk)
            (here_in self.new) (cuts_in self.new ++ more)) }
        ensures behind { IfSome result (λ chunk. is_whole ≡ false
            → 0 < length (cuts_past (here_in self.new).told (cuts_in self.old))) }
        ensures none { result ≡ None → self.new ≡ self.old }
        ensures last { result ≡ None → is_whole ≡ true → cuts_past (here_in self.old).told (cuts_in self.old) ≡ [] }
        ensures open { result ≡ None → is_whole ≡ false
            → IsOpen (limits_in self.old) (here_in self.old) (cuts_in self.old) }
        ensures limits { (limits_in self.new ≡ limits_in self.old) × (words_in self.new ≡ words_in self.old) }
        ensures held { held_in self.new ≡ held_in self.old }
    {
        let known = &self.cuts[self.passed..];
        let Some(end) = end_among(
            &self.limits,
            &self.here,
            past(known, self.here.told),
            is_whole,
        ) else {
            return None;
        };
        let behind = past(known, end.at);
        if behind.is_empty() && !is_whole {
            return None;
        }
        let told = &known[..known.len() - behind.len()];
        let next = start_behind(&self.limits, &self.here, &end, behind, told);
        let chunk = chunk_to(&self.limits, &self.here, &end);
        self.passed = self.cuts.len() - past(known, next.start).len();
        self.here = next;
        Some(chunk)
    }

    /// The text of the chunk that `next` returned last, if the text is kept.
    pub fn text_of(&self, chunk: &Chunk) -> Option<&[u8]>
        ensures { (text : List ℕ) → HoldsFrom chunk.now.start text self.now → chunk.now.start ≤ chunk.now.end
            → chunk.now.end ≤ length text
            → option_map (λ bytes. bytes.now) result
            ≡ (if keeps_text self.now then Some (chunk_text text (numbered_chunk chunk.now)) else None) }
    {
        match &self.held {
            Some(held) => Some(held.text(chunk.start, chunk.end)),
            None => None,
        }
    }
}
