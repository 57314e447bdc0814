//! Laws about the chunks of a run. Each is the contract of a function that does nothing.

ghost use Rattle.std.specs.Prelude.{◌≡◌, ℕ, true, List, [], ◌++◌, IsUtf8, encode_utf8_all};
ghost use Rattle.std.specs.Str.{chars};
ghost use Rattle.lbk_chunk_reader.specs.Terms.{AreChunks, AreCutsPast, Cell, Chunk, Cut, IsDone, Limits, Profile};
ghost use Rattle.lbk_chunk_reader.specs.Terms.{cuts_of, passages, text_start};
ghost use Rattle.lbk_chunk_reader.specs.Agreement.{AgreeOnLetters, AgreeOnLines};
ghost use Rattle.lbk_chunk_reader.specs.Cuts.{cuts_of_passages};
ghost use Rattle.lbk_chunk_reader.specs.Reader.{ChunksCome, HasGiven, View, new_view};
ghost use Rattle.lbk_chunk_reader.specs.Settled.{AreSettled};

/// The cuts of the passages are those of the whole text. Premises: the cells have the letters and numbers of
/// `lbk_words`, and UAX #29 has a word boundary wherever the cells' classes say that a line must end.
pub fn cuts_of_all_passages()
    ensures { (profile : Profile) (cell : ℕ → Cell) (text : List ℕ) → AgreeOnLines cell
        → AgreeOnLetters cell (chars text) → IsUtf8 text
        → cuts_of profile cell text ≡ cuts_of_passages cell 0 0 (passages profile cell (chars text)) }
{}

/// Successive calls return the chunks of the first, and then those of the second.
pub fn run_goes_on()
    ensures { (first between last : View) (got more scalars others : List ℕ) (given later : List Chunk)
        → HasGiven first between got scalars given
        → HasGiven between last more others later
        → HasGiven first last (got ++ more) (scalars ++ others) (given ++ later) }
{}

/// A run from the start of a text to its end returned all its chunks: the bytes read are the text, and the chunks are
/// those of its cuts.
pub fn run_ends()
    ensures bytes { (cell : ℕ → Cell) (profile : Profile) (limits : Limits) (limit : ℕ) (last : View)
        (got scalars : List ℕ) (given : List Chunk)
        → HasGiven (new_view cell profile limits limit) last got scalars given → IsDone last.passages → got
        ≡ encode_utf8_all scalars }
    ensures chunks { (cell : ℕ → Cell) (profile : Profile) (limits : Limits) (limit : ℕ) (last : View)
        (got scalars : List ℕ) (given : List Chunk)
        → HasGiven (new_view cell profile limits limit) last got scalars given → IsDone last.passages
        → ChunksCome last [] []
        → AreChunks limits (cuts_of_passages cell 0 0 (passages profile cell scalars)) text_start given }
{}

/// The chunks that the first cuts of a text settle are the first chunks of the text, whatever cuts follow.
pub fn settled_chunks_come_first()
    ensures { (l : Limits) (cuts more : List Cut) (chunks all : List Chunk) → AreSettled l cuts chunks
        → AreCutsPast 0 (cuts ++ more) → AreChunks l (cuts ++ more) text_start all
        → (later : List Chunk) × (all ≡ chunks ++ later) }
{}
