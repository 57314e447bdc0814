//! A law about the chunks of a text: the contract of a function that does nothing.

ghost use Rattle.std.specs.Prelude.{◌≡◌, ℕ, ◌≤◌, [], ◌∷◌, true, List};
ghost use Rattle.lbk_rules.specs.declared.Cell.{Cell};
ghost use Rattle.lbk_values.specs.declared.profile.Profile.{Profile};
ghost use Rattle.lbk_chunks.specs.declared.chunk.Chunk.{Chunk};
ghost use Rattle.lbk_chunks.specs.declared.chunk.Limits.{Limits};
ghost use Rattle.lbk_chunks.specs.declared.cut.Cut.{Cut};
ghost use Rattle.lbk_chunks.specs.declared.chunk.Here.{Here};
ghost use Rattle.lbk_chunks.specs.Chunks.{AreChunks, cuts_past, end_of, fits};
ghost use Rattle.lbk_chunks.specs.Cuts.{AreCutsPast, cuts_of};
ghost use Rattle.lbk_chunks.specs.Laws.{AreJoined, AreWithin, IsFull, StartsRise, last_end};

/// From each place on there are chunks up to the last cut, the end of the text. Each is within the limits or has no cut
/// within them, and no longer one would do. Starts rise. Without overlap the chunks, joined, are the text.
pub fn chunks_of_cuts()
    ensures rising { (profile : Profile) (cell : ℕ → Cell) (text : List ℕ) → AreCutsPast 0 (cuts_of profile cell text) }
    ensures exist { (l : Limits) (cuts : List Cut) (here : Here) → AreCutsPast 0 cuts → (chunks : List Chunk)
        × AreChunks l cuts here chunks }
    ensures whole { (l : Limits) (cuts : List Cut) (here : Here) (chunks : List Chunk) → AreChunks l cuts here chunks
        → cuts_past (last_end here.told chunks) cuts ≡ [] }
    ensures within { (l : Limits) (cuts : List Cut) (here : Here) (chunks : List Chunk) → AreChunks l cuts here chunks
        → AreWithin l chunks }
    ensures joined { (l : Limits) (cuts : List Cut) (here : Here) (chunks : List Chunk) → l.overlap ≡ 0
        → AreChunks l cuts here chunks
        → AreJoined here.start chunks }
    ensures starts { (l : Limits) (cuts : List Cut) (here : Here) (c : Chunk) (cs : List Chunk) → AreCutsPast 0 cuts
        → here.start ≤ here.told
        → AreChunks l cuts here (c ∷ cs) → StartsRise c.start cs }
    ensures full { (l : Limits) (cuts : List Cut) (here : Here) (first : Cut) (more : List Cut) → AreCutsPast 0 cuts
        → cuts_past here.told cuts ≡ first ∷ more
        → fits l here first ≡ true → IsFull l cuts here (end_of l here first more) }
{}
