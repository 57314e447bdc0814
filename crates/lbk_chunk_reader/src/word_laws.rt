//! Laws: the words of a text that `lbk_words` finds are those of its passages.
//!
//! Each is the contract of a function that does nothing.

ghost use Rattle.std.specs.Prelude.{◌≡◌, ℕ, ◌≤◌, List, ◌++◌, IsUtf8, drop, length, map, take};
ghost use Rattle.std.specs.Str.{chars};
ghost use Rattle.lbk_chunk_reader.specs.Terms.{Cell, EndsBefore, Profile, passages, pieces_of, words_of};
ghost use Rattle.lbk_chunk_reader.specs.Agreement.{AgreeOnLetters, AgreeOnLines};
ghost use Rattle.lbk_chunk_reader.specs.PassageWords.{moved_word, words_in_pieces, words_of_passages};

/// The words of a passage's text are its pieces that are words. Premise: the cells have the letters and numbers of
/// `lbk_words` (UAX #29, section 4).
pub fn words_of_a_passage()
    ensures { (cell : ℕ → Cell) (text : List ℕ) → AgreeOnLetters cell (chars text) → IsUtf8 text
        → words_of text ≡ words_in_pieces 0 (pieces_of cell text) }
{}

/// The words of a text are those of its passages. Premises: as above, and UAX #29 has a word boundary wherever the
/// cells' classes say that a line must end (rules WB3a, LB4 and LB5).
pub fn words_of_all_passages()
    ensures { (profile : Profile) (cell : ℕ → Cell) (text : List ℕ) → AgreeOnLines cell
        → AgreeOnLetters cell (chars text) → IsUtf8 text
        → words_of text ≡ words_of_passages cell 0 (passages profile cell (chars text)) }
{}

/// The words of any bytes are those of two parts, cut where a line must end, with the offsets of the second moved by
/// the size of the first. Premise: UAX #29 has a word boundary wherever the cells' classes say that a line must end.
pub fn words_of_parts()
    ensures { (cell : ℕ → Cell) (text : List ℕ) (place : ℕ) → AgreeOnLines cell → place ≤ length text
        → EndsBefore cell text place
        → words_of text ≡ words_of (take place text) ++ map (moved_word place) (words_of (drop place text)) }
{}
