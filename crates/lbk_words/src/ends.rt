//! The parts of a text, and where they end: its cutting at word boundaries (UAX #29, section 4).

ghost use Rattle.std.specs.Prelude.{◌≡◌, ℕ, ◌+◌, ◌-◌, ◌*◌, ◌<◌, ◌≤◌, ◌⊎◌, ◌^◌, List, Bool, true, get_or, length, IfSome};
ghost use Rattle.lbk_masks.specs.Sets.{is_set};
ghost use Rattle.lbk_words.specs.Ends.{AreEnds, AreTold, FillsParts, IsNoted, IsNotedStep, IsReading, ReadsOn, is_pair};
ghost use Rattle.lbk_words.specs.Filling.{IsInRow, IsNextStep};
ghost use Rattle.lbk_words.specs.Near.{AreMet};

use crate::blocks::{BLOCK, Wides, marks_of, wides_of};
use crate::letters::{Letters, PartSlot};
use crate::near::NearScalars;
use crate::parts::one_of;
use crate::scalars::{scalar_at, scalar_of_size};
use crate::step_table::LETTER_ROW;
use crate::steps::{NextStep, first_row_of, step_by_kind, step_of_kind};
use crate::tries::{SOON, may_tell};
use crate::word::Filled;
use crate::zeros::with_zeros;
use lbk_masks::{equal, first_set, kept_below, kept_from};

/// The first byte value with which a scalar of three bytes begins.
const WIDE: u8 = 0xE0;

/// How far the parts of a text were read.
#[derive(Clone, Copy)]
pub(crate) struct Reading {
    /// How many slots were filled.
    count: usize,
    /// The byte that the part so far begins with.
    start: usize,
    /// The byte after the scalars of the part so far.
    at: usize,
    /// The row of the part so far.
    row: usize,
    /// Whether it holds a letter.
    has_letter: bool,
}

/// What the next scalar makes of a part, and whether it is a letter.
#[derive(Clone, Copy)]
pub(crate) struct Noted {
    next: NextStep,
    is_letter: bool,
}

/// Writes the next parts of a text over the slots from `from.count` on, from the boundary `from.at` on, scalar by scalar:
/// until no slot is left, the text ends, or bits are likely to tell the next end. Returns how many slots were filled, and
/// the boundary from which the other parts come. Letters are asked for here, where each scalar is read, so that no branch
/// depends on them.
#[inline(never)]
pub fn fill_parts<L: Letters, S: PartSlot>(
    letters: &L,
    near: &mut NearScalars,
    text: &str,
    from: Filled,
    out: &mut [S],
) -> Filled
    requires few { length text.now < 2 ^ 32 }
    requires some { (from.count < length out.old) × (from.at < length text.now) }
    requires met { AreMet (L.letter_of letters.now) near.old }
    ensures met { AreMet (L.letter_of letters.now) near.new }
    ensures onward { (from.count < result.count) × (from.at < result.at) }
    ensures within { (result.count ≤ length out.old) × (result.at ≤ length text.now) }
    ensures parts { FillsParts S.made (L.letter_of letters.now) text.now from out.old result out.new }
{
    let bytes = text.as_bytes();
    let first = scalar_at(bytes, from.at);
    let told = near.told(letters, first.code);
    let mut here = Reading {
        count: from.count,
        start: from.at,
        at: first.end,
        row: first_row_of(told.kind),
        has_letter: told.is_letter,
    };
    'scalars: loop {
        here = read_threes(near, text, here, out);
        if here.count == out.len() {
            return Filled {
                count: here.count,
                at: here.start,
            };
        }
        if here.at == text.len() {
            break;
        }
        if let Some(noted) = lone_at(near, here.row, text, here.at) {
            here = taken(here, noted, out);
            continue;
        }
        let noted = noted_at(letters, near, here.row, bytes, here.at);
        let read = taken(here, noted, out);
        if noted.next.step.cuts && may_tell(&bytes[here.at..]) {
            return Filled {
                count: read.count,
                at: read.start,
            };
        }
        here = read_behind(noted.next.code, near, text, read, out);
    }
    out[here.count].put(here.start, here.at, here.has_letter);
    Filled {
        count: here.count + 1,
        at: here.at,
    }
}

/// What the scalar at a byte makes of a part of this row, and whether it is a letter.
#[inline(always)]
fn noted_at<L: Letters>(
    letters: &L,
    near: &mut NearScalars,
    row: usize,
    text: &[u8],
    at: usize,
) -> Noted
    requires place { (row < 43) × (at < length text.now) }
    requires met { AreMet (L.letter_of letters.now) near.old }
    ensures noted { IsNotedStep (L.letter_of letters.now) text.now row at result }
    ensures met { AreMet (L.letter_of letters.now) near.new }
{
    let scalar = scalar_at(text, at);
    let told = near.told(letters, scalar.code);
    Noted {
        next: NextStep {
            code: scalar.code,
            step: step_by_kind(row, told.kind, text, scalar.end),
            end: scalar.end,
        },
        is_letter: told.is_letter,
    }
}

/// The same, where it takes the bytes that `scalar_of_size` reads, it was met before, and no step depends on what follows
/// it. One of two bytes is not taken where the part ends, since bits may tell what follows.
#[inline(always)]
fn noted_alike<const SIZE: usize>(
    near: &NearScalars,
    row: usize,
    text: &str,
    at: usize,
) -> Option<Noted>
    requires size { (SIZE ≡ 1) ⊎ (SIZE ≡ 2) ⊎ (SIZE ≡ 3) ⊎ (SIZE ≡ 4) }
    requires place { (row < 43) × (at + SIZE ≤ length text.now) }
    requires met { (letter : ℕ → Bool) × AreMet letter near.now }
    ensures next { IfSome result (λ noted. IsNextStep text.now row at noted.next) }
    ensures told { IfSome result (λ noted. (letter : ℕ → Bool) → AreMet letter near.now
        → noted.is_letter ≡ letter noted.next.code) }
{
    let scalar = scalar_of_size::<SIZE>(text, at)?;
    let told = near.kept(scalar.code)?;
    let step = step_of_kind(row, told.kind);
    if step.asks || (SIZE == 2 && step.cuts) {
        return None;
    }
    Some(Noted {
        next: NextStep {
            code: scalar.code,
            step,
            end: scalar.end,
        },
        is_letter: told.is_letter,
    })
}

/// The same of a scalar of one byte, where one of three or four follows, or nothing: so most words among these end.
#[inline(always)]
fn lone_at(near: &NearScalars, row: usize, text: &str, at: usize) -> Option<Noted>
    requires place { (row < 43) × (at < length text.now) }
    requires met { (letter : ℕ → Bool) × AreMet letter near.now }
    ensures next { IfSome result (λ noted. IsNextStep text.now row at noted.next) }
    ensures told { IfSome result (λ noted. (letter : ℕ → Bool) → AreMet letter near.now
        → noted.is_letter ≡ letter noted.next.code) }
{
    let bytes = text.as_bytes();
    if at + 1 < bytes.len() && bytes[at + 1] < WIDE {
        return None;
    }
    noted_alike::<1>(near, row, text, at)
}

/// Goes on behind a scalar with this code: if that has four bytes, by those of three and four, if it has two, by those of
/// two, else by those of one.
#[inline(always)]
fn read_behind<S: PartSlot>(
    code: u32,
    near: &NearScalars,
    text: &str,
    from: Reading,
    out: &mut [S],
) -> Reading
    requires few { length text.now < 2 ^ 32 }
    requires place { (from.start < from.at) × (from.at ≤ length text.now) × (from.count ≤ length out.old) }
    requires row { from.row < 43 }
    requires met { (letter : ℕ → Bool) × AreMet letter near.now }
    ensures { ReadsOn S.made near.now text.now from out.old result out.new }
{
    if 0xFFFF < code {
        return read_alike::<4, S>(near, text, from, out);
    }
    if 0x7F < code && code < 0x800 {
        return read_alike::<2, S>(near, text, from, out);
    }
    read_alike::<1, S>(near, text, from, out)
}

/// Goes on by scalars of one byte, a few, of two or of three (`SIZE`), since those of one size come in runs, or, where
/// `SIZE` is 4, by those of three and four, of which emoji consist: until another one comes, or there may be no slot for
/// the next.
#[inline(always)]
fn read_alike<const SIZE: usize, S: PartSlot>(
    near: &NearScalars,
    text: &str,
    from: Reading,
    out: &mut [S],
) -> Reading
    requires few { length text.now < 2 ^ 32 }
    requires place { (from.start < from.at) × (from.at ≤ length text.now) × (from.count ≤ length out.old) }
    requires size { (SIZE ≡ 1) ⊎ (SIZE ≡ 2) ⊎ (SIZE ≡ 3) ⊎ (SIZE ≡ 4) }
    requires row { from.row < 43 }
    requires met { (letter : ℕ → Bool) × AreMet letter near.now }
    ensures { ReadsOn S.made near.now text.now from out.old result out.new }
{
    let stop = stop_of::<SIZE>(from.at, out.len() - from.count, text.len());
    read_up_to::<SIZE, S>(near, text, from, out, stop)
}

/// Goes on by scalars of three bytes, as `read_alike` does. Behind a letter, those of its part are read in a loop that
/// writes nothing.
#[inline(always)]
fn read_threes<S: PartSlot>(near: &NearScalars, text: &str, from: Reading, out: &mut [S]) -> Reading
    requires few { length text.now < 2 ^ 32 }
    requires place { (from.start < from.at) × (from.at ≤ length text.now) × (from.count ≤ length out.old) }
    requires row { from.row < 43 }
    requires met { (letter : ℕ → Bool) × AreMet letter near.now }
    ensures { ReadsOn S.made near.now text.now from out.old result out.new }
{
    let stop = stop_of::<3>(from.at, out.len() - from.count, text.len());
    let mut here = from;
    if here.at < stop {
        let Some(noted) = noted_alike::<3>(near, here.row, text, here.at) else {
            return here;
        };
        here = taken(here, noted, out);
        if here.row == LETTER_ROW {
            here = read_joined(near, text, here);
        }
    }
    read_up_to::<3, S>(near, text, here, out, stop)
}

/// Goes on by scalars of three bytes that were met, until a part ends before one.
#[inline(always)]
fn read_joined(near: &NearScalars, text: &str, from: Reading) -> Reading
    requires place { (from.start < from.at) × (from.at ≤ length text.now) }
    requires row { from.row < 43 }
    requires met { (letter : ℕ → Bool) × AreMet letter near.now }
    ensures reads { (letter : ℕ → Bool) → AreMet letter near.now → IsInRow text.now from.start from.at from.row
        → IsNoted letter text.now from.start from.at from.has_letter
        → IsInRow text.now from.start result.at result.row
        × IsNoted letter text.now from.start result.at result.has_letter }
    ensures same { (result.count ≡ from.count) × (result.start ≡ from.start) }
    ensures place { (from.at ≤ result.at) × (result.at ≤ length text.now) × (result.row < 43) }
{
    let stop = text.len().saturating_sub(2);
    let mut here = from;
    'joined: while here.at < stop {
        let Some(noted) = noted_alike::<3>(near, here.row, text, here.at) else {
            break;
        };
        let step = noted.next.step;
        if step.cuts {
            break;
        }
        here.at = noted.next.end;
        here.row = step.next;
        here.has_letter = noted.is_letter | here.has_letter;
    }
    here
}

/// Up to where scalars of `SIZE` bytes may begin, from a byte on: there is a slot for each, and its bytes are there.
#[inline(always)]
fn stop_of<const SIZE: usize>(at: usize, room: usize, len: usize) -> usize
    requires { (SIZE ≡ 1) ⊎ (SIZE ≡ 2) ⊎ (SIZE ≡ 3) ⊎ (SIZE ≡ 4) }
    ensures room { result ≤ at + room }
    ensures inside { (place : ℕ) → place < result → place + SIZE ≤ len }
{
    let most = if SIZE == 1 { SOON.min(room) } else { room };
    // A sum that wraps is less, so the loop ends sooner.
    let far = at.wrapping_add(most);
    far.min(len.saturating_sub(SIZE - 1))
}

/// Goes on by scalars of `SIZE` bytes, which begin before a byte, until another one comes.
#[inline(always)]
fn read_up_to<const SIZE: usize, S: PartSlot>(
    near: &NearScalars,
    text: &str,
    from: Reading,
    out: &mut [S],
    stop: usize,
) -> Reading
    requires few { length text.now < 2 ^ 32 }
    requires place { (from.start < from.at) × (from.at ≤ length text.now) × (from.count ≤ length out.old) }
    requires size { (SIZE ≡ 1) ⊎ (SIZE ≡ 2) ⊎ (SIZE ≡ 3) ⊎ (SIZE ≡ 4) }
    requires row { from.row < 43 }
    requires met { (letter : ℕ → Bool) × AreMet letter near.now }
    requires room { from.count + stop ≤ length out.old + from.at }
    requires inside { (place : ℕ) → place < stop → place + SIZE ≤ length text.now }
    ensures { ReadsOn S.made near.now text.now from out.old result out.new }
{
    let mut here = from;
    'alike: while here.at < stop {
        let Some(noted) = noted_alike::<SIZE>(near, here.row, text, here.at) else {
            break;
        };
        let next = taken(here, noted, out);
        here.count = next.count;
        here.start = next.start;
        here.at = next.at;
        here.row = next.row;
        here.has_letter = next.has_letter;
    }
    here
}

/// Takes one more scalar. It writes the part so far whether it ends there or not, so that no branch depends on it.
#[inline(always)]
fn taken<S: PartSlot>(here: Reading, noted: Noted, out: &mut [S]) -> Reading
    requires room { here.count < length out.old }
    requires few { (here.start < here.at) × (here.at < 2 ^ 32) }
    ensures reads { (letter : ℕ → Bool) (text : List ℕ) (start : Filled) (old : List S)
        → IsNotedStep letter text here.row here.at noted
        → IsReading S.made letter text start old here out.old
        → IsReading S.made letter text start old result out.new }
    ensures place { (result.at ≡ noted.next.end) × (result.row ≡ noted.next.step.next) }
    ensures start { (here.start ≤ result.start) × (result.start ≤ here.at) }
    ensures starts { here.start + result.count ≤ result.start + here.count }
    ensures count { (here.count ≤ result.count) × (result.count ≤ here.count + 1) }
    ensures cut { noted.next.step.cuts ≡ true → here.count < result.count }
{
    out[here.count].put(here.start, here.at, here.has_letter);
    let step = noted.next.step;
    Reading {
        count: here.count + usize::from(step.cuts),
        start: one_of(step.cuts, here.at, here.start),
        at: noted.next.end,
        row: step.next,
        has_letter: noted.is_letter | (here.has_letter & !step.cuts),
    }
}

/// Where the next parts of a text end, from a boundary on, as far as bits tell it: a bit for each byte from there on, the
/// lowest for the first, and none set where they tell nothing. They tell little where a scalar of three bytes or more
/// comes that is none of their letters, or a few bytes are left.
#[inline(always)]
pub fn ends_from(text: &[u8], start: usize) -> u64
    requires { start < length text.now }
    ensures { 0 < result → AreTold text.now start result }
{
    let rest = &text[start..];
    if !may_tell(rest) {
        return 0;
    }
    if rest.len() < BLOCK {
        return ends_of_few(rest);
    }
    ends_in::<BLOCK>(rest)
}

/// The ends that bits tell of the parts of a text of fewer than 64 bytes, but for the last.
fn ends_of_few(text: &[u8]) -> u64
    requires { (4 ≤ length text.now) × (length text.now < 64) }
    ensures { (stop : ℕ) × (stop ≤ length text.now) × AreEnds text.now 0 stop result }
{
    if text.len() <= 16 {
        return ends_up_to::<16>(text);
    }
    if text.len() <= 32 {
        return ends_up_to::<32>(text);
    }
    ends_up_to::<BLOCK>(text)
}

/// The same of a text of N bytes at most: those of the text and zeros behind it. The marks of what is zero whatever the
/// text are known before the program runs.
fn ends_up_to<const N: usize>(text: &[u8]) -> u64
    requires few { (4 ≤ length text.now) × (length text.now < 64) }
    requires size { (length text.now ≤ N) × (N ≤ 64) }
    ensures { (stop : ℕ) × (stop ≤ length text.now) × AreEnds text.now 0 stop result }
{
    let front = with_zeros::<N>(text);
    let mut bytes = [0; BLOCK];
    bytes[..N].copy_from_slice(&front);
    kept_below(ends_in::<N>(&bytes), text.len())
}

/// Where parts end among the first 64 bytes, at the first of which one begins. `N` says nothing of the result: of short
/// texts those from there on are zeros, and a function for each `N` lets the compiler fold what it finds of them.
#[inline(always)]
fn ends_in<const N: usize>(bytes: &[u8]) -> u64
    requires { 64 ≤ length bytes.now }
    ensures { (stop : ℕ) × AreEnds bytes.now 0 stop result }
{
    let wides = wides_of(bytes);
    if is_one_run(wides) {
        return 0;
    }
    let marks = marks_of::<N>(bytes, wides);
    let before = marks.runs << 1;
    let others = (marks.runs & !before) & !marks.begins;
    let stop = first_set(marks.stops | others);
    let inside = (before & marks.runs) | pairs_in(bytes);
    kept_from(kept_below(!inside, stop), 1)
}

/// Whether all bytes before the first that is left to steps are of letters of two bytes or three: no part ends there.
#[inline(always)]
fn is_one_run(wides: Wides) -> bool {
    wides.letters & 1 == 1 && kept_below(!wides.letters, first_set(wides.stops)) == 0
}

/// Which of the first 64 bytes are the second of a pair that is one part.
#[inline(always)]
fn pairs_in(bytes: &[u8]) -> u64
    requires { 64 ≤ length bytes.now }
    ensures { (i : ℕ) → 0 < i → i < 64 → is_set result i ≡ is_pair (get_or bytes.now (i - 1) 0) (get_or bytes.now i 0) }
{
    let spaces = equal(b' ', bytes);
    let returns = equal(b'\r', bytes);
    let pairs = (spaces << 1) & spaces;
    // Few blocks have a carriage return.
    if returns == 0 {
        return pairs;
    }
    ((returns << 1) & equal(b'\n', bytes)) | pairs
}
