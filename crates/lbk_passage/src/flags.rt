//! What bytes tell of the scalars that they belong to.

ghost use Rattle.std.specs.Prelude.{◌≡◌, ◌+◌, ◌<◌, ◌≤◌, true, false, length, slice_index_or};
ghost use Rattle.std.specs.Option.{ForSome};
ghost use Rattle.lbk_masks.specs.Sets.{is_in};
ghost use Rattle.lbk_passage.specs.Flags.{AreLetters, AreLoud, AreQuiet, ArePassed, length_told};

use lbk_masks::HalfSets;
use lbk_rules::CellSource;

/// How many bytes are a scalar by themselves.
const ASCII: u8 = 0x80;

/// The first byte value above those that continue a scalar.
const FIRST: u8 = 0xC0;

/// How many bytes are examined in one turn.
const TURN: usize = 8;

/// All of eight sets of bytes.
pub const ALL_SETS: u8 = 0xFF;

/// More bytes than a piece has.
const ANY_LENGTH: u32 = u32::MAX;

/// For each byte what it tells of its scalar. Most bytes of most texts tell enough, by one read.
#[derive(Drop)]
pub struct ByteFlags {
    /// Whether it continues a scalar, or a line must end after no scalar that begins with it. False is right of each of
    /// the latter, too, and only slower: no contract says how many there are.
    is_quiet: [bool; 256],
    /// Up to which length a piece that begins with it is told by it: any length where all scalars that begin with it
    /// are letters or numbers, so that the piece is a word, else one byte. So one comparison tells both, and what the
    /// piece is.
    lengths_told: [u32; 256],
    /// Sets that have all bytes that are not quiet, and no others, if their halves tell them.
    loud: Option<HalfSets>,
    ghost are_loud: { ForSome loud (λ sets. AreLoud sets is_quiet) },
}

impl ByteFlags {
    /// Those of the cells of a source.
    pub fn of<C: CellSource>(cells: &C) -> ByteFlags
        ensures quiet { AreQuiet (C.cell_of cells.now) result.is_quiet }
        ensures letters { AreLetters (C.cell_of cells.now) result.lengths_told }
    {
        let is_quiet = quiet_bytes(cells);
        ByteFlags {
            is_quiet,
            lengths_told: lengths_told(cells),
            loud: loud_bytes(&is_quiet),
        }
    }

    /// Sets that have all bytes that are not quiet, and no others, if their halves tell them.
    #[inline(always)]
    pub fn loud(&self) -> Option<&HalfSets>
        ensures { ForSome result (λ sets. AreLoud sets.now self.now.is_quiet) }
    {
        self.loud.as_ref()
    }

    /// Up to where the bytes from `start` on are quiet, `end` at most.
    #[inline(always)]
    pub fn past_quiet(&self, bytes: &[u8], start: usize, end: usize) -> usize
        requires order { start ≤ end }
        requires end { end ≤ length bytes.now }
        ensures within { (start ≤ result) × (result ≤ end) }
        ensures passed { ArePassed self.now.is_quiet bytes.now start result }
        ensures stops { result < end → slice_index_or self.now.is_quiet (slice_index_or bytes.now result 0) false
            ≡ false }
    {
        let mut at = start;
        while end - at >= TURN && self.are_quiet(bytes, at) {
            at += TURN;
        }
        while at < end && self.is_quiet(bytes[at]) {
            at += 1;
        }
        at
    }

    /// Whether all bytes of a turn are quiet. It reads all of them, so that there is one branch for all.
    #[inline(always)]
    fn are_quiet(&self, bytes: &[u8], start: usize) -> bool
        requires { start + 8 ≤ length bytes.now }
        ensures { result ≡ true → ArePassed self.now.is_quiet bytes.now start (start + 8) }
    {
        let mut all = true;
        for k in 0..TURN {
            all = self.is_quiet(bytes[start + k]) & all;
        }
        all
    }

    #[inline(always)]
    fn is_quiet(&self, byte: u8) -> bool
        ensures { result ≡ slice_index_or self.now.is_quiet byte false }
    {
        self.is_quiet[usize::from(byte)]
    }

    /// Up to which length this byte tells of a piece that begins with it whether it is a word. It is one exactly if the
    /// length told is above 1.
    #[inline(always)]
    pub fn length_told(&self, byte: u8) -> u32
        ensures { result ≡ slice_index_or self.now.lengths_told byte 0 }
    {
        self.lengths_told[usize::from(byte)]
    }
}

/// For each byte whether it continues a scalar, or a line must end after no scalar that begins with it.
fn quiet_bytes<C: CellSource>(cells: &C) -> [bool; 256]
    ensures { AreQuiet (C.cell_of cells.now) result }
{
    let mut is_quiet = cells.quiet_first_bytes();
    let mut byte = 0u8;
    while byte < ASCII {
        let class = cells.cell(char::from(byte)).class;
        is_quiet[usize::from(byte)] = !class.ends_line();
        byte += 1;
    }
    while byte < FIRST {
        is_quiet[usize::from(byte)] = true;
        byte += 1;
    }
    is_quiet
}

/// Sets that have all bytes that are not quiet, and no others. None come where their halves are those of others, too:
/// then each byte is looked up.
fn loud_bytes(is_quiet: &[bool; 256]) -> Option<HalfSets>
    ensures { ForSome result (λ sets. AreLoud sets is_quiet.now) }
{
    let sets = loud_halves(is_quiet);
    for byte in 0..256 {
        if is_in(&sets, byte) == is_quiet[byte] {
            return None;
        }
    }
    Some(sets)
}

/// Sets of the halves of all bytes that are not quiet. Those with one high half share a set.
fn loud_halves(is_quiet: &[bool; 256]) -> HalfSets {
    let mut sets = HalfSets {
        low: [0; 16],
        high: [0; 16],
    };
    for byte in 0..256 {
        if !is_quiet[byte] {
            let set = 1 << (byte / 16 % 8);
            sets.low[byte % 16] |= set;
            sets.high[byte / 16] |= set;
        }
    }
    sets
}

/// Whether a byte is in one of these sets.
#[inline(always)]
fn is_in(sets: &HalfSets, byte: usize) -> bool
    requires { byte < 256 }
    ensures { result ≡ is_in sets.now ALL_SETS byte }
{
    sets.low[byte & 15] & sets.high[byte / 16 & 15] & ALL_SETS != 0
}

/// For each byte up to which length it tells of a piece that begins with it whether it is a word.
fn lengths_told<C: CellSource>(cells: &C) -> [u32; 256]
    ensures { AreLetters (C.cell_of cells.now) result }
{
    let are_letters = cells.letter_first_bytes();
    let mut lengths = [1; 256];
    for byte in 0..256 {
        lengths[byte] = length_told(are_letters[byte]);
    }
    for byte in 0..ASCII {
        let is_letter = cells.cell(char::from(byte)).letter;
        lengths[usize::from(byte)] = length_told(is_letter);
    }
    lengths
}

/// Up to which length a byte tells of a piece that begins with it whether it is a word, where each scalar that begins
/// with it is a letter or a number, or where that is not known. A scalar of one byte is told either way.
fn length_told(are_letters: bool) -> u32
    ensures { result ≡ length_told are_letters }
{
    if are_letters { ANY_LENGTH } else { 1 }
}
