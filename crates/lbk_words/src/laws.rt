//! What holds of the words of a text, over definitions only. Each law is the contract of a function with an empty body.

ghost use Rattle.std.specs.Prelude.{◌≡◌, ℕ, List, [], true, IsUtf8};
ghost use Rattle.unicode_segmentation.specs.Segments.{cut};
ghost use Rattle.unicode_segmentation.specs.Word.{is_word_break, word_bounds};
ghost use Rattle.lbk_words.specs.Words.{parts_of, words_in, words_of};

/// The words of well-formed text are those among the pieces between its word boundaries (UAX #29, section 4).
pub fn words_of_text()
    ensures { (text : List ℕ) → IsUtf8 text → words_of text ≡ words_in 0 (word_bounds text) }
{}

/// After a word boundary the parts of a text are those of the rest as a whole text: nothing before changes them (UAX
/// #29, section 4.1). `before` has the scalars before the place, nearest first.
pub fn behind_a_boundary()
    ensures { (before after : List ℕ) → is_word_break before after ≡ true → cut is_word_break before after []
        ≡ parts_of after }
{}
