//! The words before an offset.

ghost use Rattle.std.specs.Prelude.{◌≡◌, ◌⊎◌, ℕ, [], ◌+◌, ◌-◌, ◌<◌, ◌≤◌, List};
ghost use Rattle.lbk_chunks.specs.Coming.{AreRead, IsFirstWord, IsLoaded, IsPassed, held, words_ahead};

use crate::cut::Place;
use crate::word_block::WordBlock;
use lbk_words::Word;

/// Passes the words that end at a byte or before it.
#[inline(always)]
pub(crate) fn pass_words(text: &[u8], at: usize, place: Place, words: &mut WordBlock) -> Place
    ensures same { result.breaks ≡ place.breaks }
    ensures passed { AreRead text.now words.old → AreRead text.now words.new × IsPassed text.now at place result }
    ensures none { AreRead text.now words.old → result.word.end ≡ 0 → words_ahead text.now result ≡ [] }
    ensures past { (result.word.end ≡ 0) ⊎ (at < result.word.end) }
{
    let mut here = loaded(text, place, words);
    while here.word.end != 0 && here.word.end <= at {
        here = loaded(text, without_word(here), words);
    }
    here
}

/// Passes the words that end at a byte or before it, as far as they were read.
#[inline(always)]
pub(crate) fn pass_known(at: usize, place: Place, words: &mut WordBlock) -> Place
    ensures passed { (text : List ℕ) → AreRead text words.old → AreRead text words.new × IsPassed text at place result }
{
    let mut here = place;
    while here.word.end != 0 && here.word.end <= at {
        let Some(word) = words.known_from(here.from) else {
            return here;
        };
        // The state is the one at the start, so it stays out of the loop.
        here = Place {
            breaks: place.breaks,
            ..with_word(without_word(here), word)
        };
    }
    here
}

/// Reads a word, if none was read and one is left.
#[inline(always)]
fn loaded(text: &[u8], place: Place, words: &mut WordBlock) -> Place
    ensures same { (result.breaks ≡ place.breaks) × (result.words ≡ place.words) }
    ensures loaded { AreRead text.now words.old → AreRead text.now words.new × IsLoaded text.now place result }
    ensures further { place.word.end ≡ 0 → (result.word.end ≡ 0)
        ⊎ ((result.word.end ≡ result.from) × (place.from < result.from)) }
{
    if place.word.end != 0 {
        return place;
    }
    let Some(word) = words.first_from(text, place.from) else {
        // The next call does not look for one again.
        return Place {
            from: place.from.max(text.len()),
            ..place
        };
    };
    with_word(place, word)
}

/// Reads the first word that is left.
#[inline(always)]
fn with_word(place: Place, word: Word) -> Place
    requires { place.word.end ≡ 0 }
    ensures same { (result.breaks ≡ place.breaks) × (result.words ≡ place.words) }
    ensures ahead { (text : List ℕ) → IsFirstWord text place.from word
        → words_ahead text result ≡ words_ahead text place }
    ensures counted { (text : List ℕ) → IsFirstWord text place.from word
        → place.words + held place.word ≤ place.from → result.words + held result.word ≤ result.from }
    ensures some { (result.word ≡ word) × (result.from ≡ word.end) }
{
    Place {
        from: word.end,
        word,
        ..place
    }
}

/// Passes the word that was read.
#[inline(always)]
fn without_word(place: Place) -> Place
    ensures same { (result.breaks ≡ place.breaks) × (result.from ≡ place.from) × (result.word.end ≡ 0) }
    ensures one_more { place.words < place.from → result.words ≡ place.words + 1 }
{
    Place {
        word: Word { start: 0, end: 0 },
        words: place.words.saturating_add(1),
        ..place
    }
}
