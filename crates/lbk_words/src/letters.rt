//! Letters, as those who ask for the parts of a text tell them.

ghost use Rattle.std.specs.Prelude.{◌≡◌, ℕ, ◌<◌, ◌^◌, Bool};
ghost use Rattle.lbk_words.specs.Places.{IsReadAs};

/// Something that tells which scalars are letters.
pub trait Letters {
    // Which scalars are letters.
    ghost letter_of: { Self → ℕ → Bool };

    /// Whether a scalar of a text is a letter.
    fn is_letter(&self, code: u32) -> bool
        requires { IsReadAs code }
        ensures { result ≡ letter_of self.now code };
}

/// Something that a part of a text is written over.
pub trait PartSlot {
    // What is written there of a part from one byte up to another, which holds a letter or none.
    ghost made: { ℕ → ℕ → Bool → Self };

    /// Writes a part.
    fn put(&mut self, start: usize, end: usize, has_letter: bool)
        requires { (start < 2 ^ 32) × (end < 2 ^ 32) }
        ensures { self.new ≡ made start end has_letter };
}
