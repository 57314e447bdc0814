//! What was found out of the scalars below U+20000 that were met.

ghost use Rattle.std.specs.Prelude.{◌≡◌, ℕ, ◌<◌, Bool, IfSome};
ghost use Rattle.lbk_words.specs.Near.{AreMet, IsTold, near_number};
ghost use Rattle.lbk_words.specs.Places.{IsReadAs};

use crate::kinds::kind_of;
use crate::letters::Letters;

/// Of each scalar below this one a number is kept.
const NEAR: usize = 0x2_0000;

/// What is added to the kind of a scalar that was met.
const MET: u8 = 32;

/// What is added where it is a letter.
const LETTER: u8 = 64;

/// The kinds of the scalars below U+20000 that were met, and which are letters by those who were asked: so each is looked
/// up once, and found by one read from then on.
#[derive(Drop)]
pub struct NearScalars {
    /// A number for each scalar, 0 where it was not met.
    numbers: [u8; NEAR],
}

/// What is asked of a scalar.
#[derive(Clone, Copy)]
pub(crate) struct Told {
    /// Its kind.
    pub(crate) kind: usize,
    /// Whether it is a letter.
    pub(crate) is_letter: bool,
}

impl NearScalars {
    /// No scalar was met.
    pub fn new() -> NearScalars
        ensures { (letter : ℕ → Bool) → AreMet letter result }
    {
        NearScalars { numbers: [0; NEAR] }
    }

    /// What is asked of a scalar. It is looked up where it was not met.
    #[inline(always)]
    pub(crate) fn told<L: Letters>(&mut self, letters: &L, code: u32) -> Told
        requires read { IsReadAs code }
        requires few { code < 0x11_0000 }
        requires met { AreMet (L.letter_of letters.now) self.old }
        ensures told { IsTold (L.letter_of letters.now) code result }
        ensures met { AreMet (L.letter_of letters.now) self.new }
    {
        if let Some(told) = self.kept(code) {
            return told;
        }
        self.find(letters, code)
    }

    /// The same of a scalar that was not met, or is not kept.
    #[inline(never)]
    fn find<L: Letters>(&mut self, letters: &L, code: u32) -> Told
        requires read { IsReadAs code }
        requires few { code < 0x11_0000 }
        requires met { AreMet (L.letter_of letters.now) self.old }
        ensures told { IsTold (L.letter_of letters.now) code result }
        ensures met { AreMet (L.letter_of letters.now) self.new }
    {
        let kind = kind_of(code);
        let is_letter = letters.is_letter(code);
        let place = code as usize;
        if place < NEAR {
            self.numbers[place] = number_of(kind as u8, is_letter);
        }
        Told {
            kind: kind as usize,
            is_letter,
        }
    }

    /// What is asked of a scalar, where it was met and is kept.
    #[inline(always)]
    pub(crate) fn kept(&self, code: u32) -> Option<Told>
        ensures few { IfSome result (λ told. told.kind < 32) }
        ensures told { IfSome result (λ told. (letter : ℕ → Bool) → AreMet letter self.now → IsTold letter code told) }
    {
        let place = code as usize;
        if NEAR <= place {
            return None;
        }
        let number = self.numbers[place];
        if number == 0 {
            return None;
        }
        Some(Told {
            kind: (number % MET) as usize,
            is_letter: LETTER <= number,
        })
    }
}

/// The number that is kept of a scalar of this kind.
fn number_of(kind: u8, is_letter: bool) -> u8
    requires { kind < 32 }
    ensures { result ≡ near_number kind is_letter }
{
    if is_letter {
        kind + MET + LETTER
    } else {
        kind + MET
    }
}
