//! What two sets of each byte tell of the steps: whether a line may break between two bytes that are scalars, and where
//! the steps themselves have to be asked. Both profiles have the same, since these bytes are no quotation marks that
//! open or close.

ghost use Rattle.std.specs.Prelude.{◌≡◌, ◌+◌, ◌*◌, ◌<◌, [], ℕ, fold, slice_index_or};
ghost use Rattle.lbk_rules.specs.declared.kinds.TheConstants.{KINDS};
ghost use Rattle.lbk_rules.specs.declared.neighbours.TheConstants.{CLASS_OF_KIND};
ghost use Rattle.lbk_rules.specs.FlatTable.{AreKinds};
ghost use Rattle.lbk_rules.specs.Neighbours.{AreNeighboursOf, AreTold, are_letters, begins_letters, class_of_byte};
ghost use Rattle.lbk_rules.specs.Neighbours.{digest_of_neighbours, digest_with, row_of_byte, row_of_kind};
ghost use Rattle.lbk_rules.specs.Rows.{steps_in};
ghost use Rattle.lbk_values.specs.declared.profile.Profile.{Profile};

use crate::flat_table::{digest_kinds, digest_with};
use crate::kind_source::KindSource;
use crate::kinds::KINDS;
use crate::steps::step_in;
use lbk_masks::ByteSets;
use lbk_uax14::Profile;
use std::fmt;

/// The kind of a letter.
const LETTER: u8 = 0;

/// The place of the row after a letter.
const BEHIND_A_LETTER: usize = 128;

/// The place of no row, since rows begin at multiples of 128.
const NO_ROW: u16 = 1;

/// The class of the bytes that are special after each other: those of kinds that are rare below 128.
const OTHER: u8 = 0;

/// The class of the bytes that go on with a scalar. As the left of two neighbours each is what a letter is, and none
/// stands out.
const CONTINUING: u8 = 1;

/// The class of each kind's bytes.
const CLASS_OF_KIND: [u8; KINDS] = [
    7, 0, 2, 0, 0, 0, 15, 0, 10, 0, 0, 0, 5, 0, 0, 0, 0, 12, 0, 0, 11, 0, 0, 0, 3, 0, 0, 14, 9, 8,
    8, 6, 0, 4, 13, 0, 0, 0, 0, 0, 0, 0, 0, 0, 0, 0, 0, 0, 0, 0, 0, 0, 0, 0, 0, 0, 0, 0, 0, 0, 0,
    0, 0, 0, 0, 0, 0, 0, 0, 0, 0, 0, 0, 0, 0, 0, 0, 0, 0, 0, 0, 0, 0, 0,
];

/// The set of each class on the left of two neighbours. The first thing is that by which a byte is special after each
/// other, the second that by which it is after some, and the others are rectangles that cover the breaks: all of some
/// classes after all of some others.
pub(crate) const LEFT: [u8; 16] = [
    0, 1, 181, 253, 245, 181, 3, 1, 17, 3, 131, 145, 149, 149, 1, 163,
];

/// The set of each class on the right of two neighbours.
pub(crate) const RIGHT: [u8; 16] = [1, 0, 72, 8, 10, 8, 72, 108, 92, 236, 8, 8, 72, 8, 104, 8];

/// What is known of bytes that stand side by side.
#[repr(C)]
#[derive(Clone, Copy)]
pub struct Neighbours {
    /// Sets by which a byte stands out where a line may or must break before it, and is special where the two bytes
    /// by themselves do not tell that.
    pub sets: ByteSets,
    /// The place of the row after each byte that is not special, or after the scalar that it begins; or a number that
    /// is no row's.
    pub rows: [u16; 256],
}

/// Neighbours of which nothing is known.
pub(crate) static NO_NEIGHBOURS: Neighbours = Neighbours {
    sets: ByteSets {
        classes: [[0; 16]; 8],
        left: [0; 16],
        right: [0; 16],
    },
    rows: [NO_ROW; 256],
};

impl fmt::Debug for Neighbours {
    fn fmt<W: fmt::Write>(&self, f: &mut fmt::Formatter<W>) -> fmt::Result {
        f.write_str("Neighbours")
    }
}

impl Neighbours {
    /// What the steps tell of neighbours, where codes have these kinds.
    pub(crate) fn of_kinds<K: KindSource>(kinds: &K) -> Neighbours
        requires { AreKinds (K.kinds_of kinds.now) }
        ensures are { AreNeighboursOf (K.kinds_of kinds.now) result }
        ensures told { (profile : Profile) → AreTold (steps_in profile) (K.kinds_of kinds.now) result }
    {
        let classes = classes_of_bytes(kinds);
        let rows = rows_of_bytes(kinds);
        let left = LEFT;
        let right = RIGHT;
        let sets = ByteSets {
            classes,
            left,
            right,
        };
        Neighbours { sets, rows }
    }

    /// A digest after these numbers too.
    #[tactic(auto, unfolding(crate::specs::Neighbours::digest_of_neighbours))]
    pub(crate) fn digest(&self, digest: u64) -> u64
        ensures { result ≡ digest_of_neighbours digest self.now }
    {
        let classes = digest_rows(digest, &self.sets.classes);
        let left = digest_kinds(classes, &self.sets.left);
        let right = digest_kinds(left, &self.sets.right);
        digest_places(right, &self.rows)
    }
}

/// The classes of all bytes, in rows of 16: of those below 128 in the low half of a number, and of the others in the
/// high half.
fn classes_of_bytes<K: KindSource>(kinds: &K) -> [[u8; 16]; 8]
    ensures { (row place : ℕ) → row < 8 → place < 16 → slice_index_or (slice_index_or result row []) place 0
        ≡ class_of_byte (K.kinds_of kinds.now) (16 * row + place)
        + 16 * class_of_byte (K.kinds_of kinds.now) (128 + (16 * row + place)) }
{
    let mut classes = [[0; 16]; 8];
    for row in 0..8_usize {
        classes[row] = classes_of_row(row, kinds);
    }
    classes
}

/// The classes of 16 bytes below 128, and of those that are greater by 128.
fn classes_of_row<K: KindSource>(row: usize, kinds: &K) -> [u8; 16]
    requires row { row < 8 }
    ensures { (place : ℕ) → place < 16 → slice_index_or result place 0
        ≡ class_of_byte (K.kinds_of kinds.now) (16 * row + place)
        + 16 * class_of_byte (K.kinds_of kinds.now) (128 + (16 * row + place)) }
{
    let mut classes = [0; 16];
    for place in 0..16_usize {
        let byte = (16 * row + place) as u8;
        classes[place] = class_of_byte(byte, kinds) + 16 * class_of_byte(128 + byte, kinds);
    }
    classes
}

/// The class of a byte.
fn class_of_byte<K: KindSource>(byte: u8, kinds: &K) -> u8
    ensures class { result ≡ class_of_byte (K.kinds_of kinds.now) byte }
    ensures few { result < 16 }
{
    if byte < 128 {
        return class_of_kind(kinds.kind_of_byte(byte));
    }
    if byte < 192 {
        return CONTINUING;
    }
    if begins_letters(byte, kinds) {
        return class_of_kind(LETTER);
    }
    OTHER
}

/// The class of a kind's bytes. A number that is no kind's has that of the rare ones.
fn class_of_kind(kind: u8) -> u8
    ensures class { result ≡ slice_index_or CLASS_OF_KIND kind 0 }
    ensures few { result < 16 }
{
    if KINDS <= kind as usize {
        return OTHER;
    }
    CLASS_OF_KIND[kind as usize]
}

/// Whether a byte begins only letters, of two bytes each, and the code that is its number is a letter.
fn begins_letters<K: KindSource>(byte: u8, kinds: &K) -> bool
    ensures { result ≡ begins_letters (K.kinds_of kinds.now) byte }
{
    if byte < 0xC2 || 0xDF < byte {
        return false;
    }
    kinds.kind_of_byte(byte) == LETTER && are_letters((u32::from(byte) - 192) * 64, kinds)
}

/// Whether 64 codes are letters.
fn are_letters<K: KindSource>(from: u32, kinds: &K) -> bool
    requires { from < 2048 }
    ensures { result ≡ are_letters (K.kinds_of kinds.now) from 64 }
{
    for more in 0..64_u32 {
        if kinds.kind_at(from + more) != LETTER {
            return false;
        }
    }
    true
}

/// The places of the rows after all bytes.
fn rows_of_bytes<K: KindSource>(kinds: &K) -> [u16; 256]
    ensures { (byte : ℕ) → byte < 256 → slice_index_or result byte 0 ≡ row_of_byte (K.kinds_of kinds.now) byte }
{
    let mut rows = [NO_ROW; 256];
    for byte in 0..256_usize {
        let kind = if byte < 128 {
            kinds.kind_of_byte(byte as u8)
        } else {
            LETTER
        };
        rows[byte] = row_of_kind(kind);
    }
    rows
}

/// The place of the row after a letter and a cell of a kind, or of no row where the steps are asked.
fn row_of_kind(kind: u8) -> u16
    ensures { result ≡ row_of_kind kind }
{
    if class_of_kind(kind) == OTHER {
        return NO_ROW;
    }
    step_in(Profile::First, BEHIND_A_LETTER, kind).next
}

/// A digest after some rows of numbers more.
fn digest_rows(digest: u64, rows: &[[u8; 16]]) -> u64
    ensures { result ≡ fold (λ sum row. fold digest_with sum row) digest rows.now }
{
    rows.iter()
        .fold(digest, |digest, row| digest_kinds(digest, row))
}

/// A digest after some places more.
fn digest_places(digest: u64, rows: &[u16]) -> u64
    ensures { result ≡ fold digest_with digest rows.now }
{
    rows.iter()
        .fold(digest, |digest, row| digest_with(digest, u64::from(*row)))
}
