//! The chunks of a text, one after another.

ghost use Rattle.std.specs.Prelude.{◌≡◌, ◌≤◌, ◌↔◌, ◌⊎◌, false, true, Ok, None, Err, IfErr, IfOk, IsErrOf, OnErr, OnOk, is_some};
ghost use Rattle.std.proofs.Props.{props};
ghost use Rattle.lbk_chunks.specs.Chunks.{are_limits};
ghost use Rattle.lbk_passage.specs.Shown.{state_of};
ghost use Rattle.lbk_chunk_reader.specs.Between.{AreCutsBetween-prop};
ghost use Rattle.lbk_chunk_reader.specs.Standing.{Stands};

use crate::cut::Chunk;
use crate::faults::ChunkFault;
use crate::window::Window;
use lbk_chunks::{Limits, are_limits};
use lbk_feed::Source;
use lbk_passage::{PassageFault, Segmenter};
use lbk_rules::{CellSource, Profile};
use std::alloc::Global;

/// Cuts a text of any length into chunks. It holds the text of one passage, and the cuts of one passage and one chunk.
///
/// Pass the same reader to all calls. The limit is the greatest size of a paragraph in bytes.
#[derive(Drop)]
pub struct Chunker<'a, C: CellSource> {
    segmenter: Segmenter<'a, C>,
    window: Window,
    /// Whether all passages were read.
    is_whole: bool,
    is_spent: bool,
    ghost stands: { is_spent ≡ false → Stands window (state_of C.cell_of segmenter) is_whole } by { Prim.hlevel (props, AreCutsBetween-prop) },
}

impl<'a, C: CellSource> Chunker<'a, C> {
    ghost use Rattle.lbk_passage.specs.State.{IsLimit};
    ghost use Rattle.lbk_passage.specs.Next.{IsDone, failures_with, fault_in};
    ghost use Rattle.lbk_chunk_reader.specs.Reader.{Answers, IsOver, ReadsEach, ReadsOn, new_view};
    ghost use Rattle.lbk_chunk_reader.specs.Settled.{IsUnsettled};
    ghost use Rattle.lbk_chunk_reader.specs.Shown.{is_spent, view_of};

    /// A chunker that has read nothing, for chunks within these limits. It reserves room for the `limit` bytes of one
    /// paragraph and nothing else.
    ///
    /// Returns `Limits` exactly if the limits are out of range, otherwise `Limit` exactly if the limit is not 1 to
    /// 16,777,216, and `Memory` if the allocation fails.
    pub fn new(
        alloc: Global,
        cells: &'a C,
        limits: Limits,
        limit: u32,
        profile: Profile,
    ) -> Result<Chunker<'a, C>, ChunkFault>
        ensures limits { IsErrOf result ChunkFault.Limits ↔ (are_limits limits ≡ false) }
        ensures limit { are_limits limits ≡ true → IsErrOf result (ChunkFault.Passage PassageFault.Limit)
            ↔ (¬ (IsLimit limit)) }
        ensures only { IfErr result (λ fault. (fault ≡ ChunkFault.Limits)
            ⊎ ((fault ≡ ChunkFault.Passage PassageFault.Limit)
            ⊎ (fault ≡ ChunkFault.Passage PassageFault.Memory))) }
        ensures view { IfOk result (λ c. view_of C.cell_of c ≡ new_view (C.cell_of cells.now) profile limits limit) }
        ensures unspent { IfOk result (λ c. is_spent c ≡ false) }
    {
        if !are_limits(&limits) {
            return Err(ChunkFault::Limits);
        }
        let window = Window::new(alloc, limits, false);
        match Segmenter::new(alloc, cells, limit, profile) {
            Ok(segmenter) => Ok(Chunker {
                segmenter,
                window,
                is_whole: false,
                is_spent: false,
            }),
            Err(fault) => Err(ChunkFault::Passage(fault)),
        }
    }

    /// The next chunk, or `None` once all were returned and from then on.
    ///
    /// Returns it once a cut is known that no longer fits, or the end of the text was read; until then it reads. Each
    /// read gives a byte, but the one that meets the end or fails. Returns a fault of the reader or of the text as
    /// `Segmenter` does, after all chunks that were settled before it. After an error each later call returns `Spent`.
    pub fn next<R: Source>(&mut self, reader: &mut R) -> Result<Option<Chunk>, PassageFault>
        ensures answer { Answers (view_of C.cell_of self.old) (view_of C.cell_of self.new) (R.unread reader.old)
            (R.unread reader.new) (is_spent self.old) result }
        ensures spent { is_spent self.old ≡ true → (result ≡ Err PassageFault.Spent) × (reader.new ≡ reader.old) }
        ensures unspent { OnOk result (is_spent self.new ≡ false) }
        ensures stopped { OnErr result (is_spent self.new ≡ true) }
        // `Read` is returned exactly where a read failed.
        ensures failures { R.failure_count reader.new ≡ failures_with (R.failure_count reader.old) (fault_in result) }
        // `None` stays.
        ensures again { IsOver (view_of C.cell_of self.old) → is_spent self.old ≡ false
            → (result ≡ Ok None) × (reader.new ≡ reader.old) }
        // A read is made only if the cuts held settle no chunk.
        ensures due { (reader.new ≡ reader.old) ⊎ IsUnsettled (view_of C.cell_of self.old) }
        ensures reads { ReadsEach (view_of C.cell_of self.old).passages (view_of C.cell_of self.new).passages
            (is_some (fault_in result)) (R.reads_made reader.old).count (R.reads_made reader.new).count }
    {
        if self.is_spent {
            return Err(PassageFault::Spent);
        }
        loop {
            if let Some(chunk) = self.window.next(self.is_whole) {
                return Ok(Some(chunk));
            }
            if self.is_whole {
                return Ok(None);
            }
            match self.read_on(reader) {
                Ok(()) => {}
                Err(fault) => return Err(fault),
            }
        }
    }

    /// Reads the next passage, or the end.
    fn read_on<R: Source>(&mut self, reader: &mut R) -> Result<(), PassageFault>
        requires going { self.old.is_whole ≡ false }
        requires unspent { self.old.is_spent ≡ false }
        ensures unspent { OnOk result (self.new.is_spent ≡ false) }
        ensures stopped { OnErr result (self.new.is_spent ≡ true) }
        ensures reads { ReadsOn (view_of C.cell_of self.old) (view_of C.cell_of self.new) (R.unread reader.old)
            (R.unread reader.new) self.new.is_whole result }
        ensures failures { R.failure_count reader.new ≡ failures_with (R.failure_count reader.old) (fault_in result) }
        ensures again { IsDone (view_of C.cell_of self.old).passages
            → OnErr result ⊥ × (self.new.is_whole ≡ true) × (self.new.window ≡ self.old.window)
            × (reader.new ≡ reader.old) }
        ensures costs { ReadsEach (view_of C.cell_of self.old).passages (view_of C.cell_of self.new).passages
            (is_some (fault_in result)) (R.reads_made reader.old).count (R.reads_made reader.new).count }
    {
        match self.window.take_next(&mut self.segmenter, reader) {
            Ok(came) => {
                self.is_whole = !came;
                Ok(())
            }
            Err(fault) => {
                self.is_spent = true;
                Err(fault)
            }
        }
    }
}
