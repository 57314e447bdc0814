//! The cells of Unicode 15.0.0, built in: nothing is read, and nothing is set up.

ghost use Rattle.std.specs.Prelude.{◌≡◌, ◌+◌, ◌*◌, ◌<◌, ◌≤◌};
ghost use Rattle.std.specs.Int.{from_bool};
ghost use Rattle.lbk_rules.specs.FirstBytes.{AreTold};
ghost use Rattle.lbk_rules.specs.Kinds.{kind_of, kinds_of_cells};
ghost use Rattle.lbk_rules.specs.Unicode.{unicode_cell};

use crate::first_bytes::FirstBytes;
use crate::flat_table::CODES;
use crate::kind_source::KindSource;
use crate::kinds::{cell_of_kind, kind_of};
use crate::neighbours::Neighbours;
use crate::source::CellSource;
use crate::unicode_kinds::{
    FAR_INDEX, FAR_TAIL, FAR_WORDS, FLAG_INDEX, FLAG_TAIL, FLAG_WORDS, UNICODE_KINDS,
};
use crate::unicode_runs::{UNICODE_CELLS, UNICODE_NEIGHBOURS, UNICODE_RUNS};
use lbk_uax14::Cell;

/// The cells of Unicode 15.0.0. It has no size, and each look-up reads constants.
#[derive(Clone, Copy, Debug)]
pub struct UnicodeCells;

impl CellSource for UnicodeCells {
    ghost cell_of = { λ _. unicode_cell };

    fn cell(&self, c: char) -> Cell {
        let code = u32::from(c);
        let flags = flags_of(code);
        let of_kind = cell_of_kind(kind_of_code(code));
        Cell {
            wide: flags % 2 == 1,
            letter: 2 <= flags,
            ..of_kind
        }
    }

    #[inline(always)]
    fn kind(&self, c: char) -> u8 {
        kind_of_code(u32::from(c))
    }

    #[inline]
    fn kinds(&self) -> &[u8] {
        &UNICODE_KINDS
    }

    #[inline(always)]
    fn neighbours(&self) -> &Neighbours {
        &UNICODE_NEIGHBOURS
    }

    fn quiet_first_bytes(&self) -> [bool; 256] {
        first_bytes().are_quiet
    }

    fn letter_first_bytes(&self) -> [bool; 256] {
        first_bytes().are_letters
    }
}

impl KindSource for UnicodeCells {
    ghost use Rattle.lbk_rules.specs.declared.unicode_runs.TheConstants.{UNICODE_NEIGHBOURS};

    ghost kinds_of = { λ _. kinds_of_cells unicode_cell };

    ghost pairs_of = { λ _. UNICODE_NEIGHBOURS };

    #[inline(always)]
    fn kind_at(&self, code: u32) -> u8 {
        kind_of_code(code)
    }

    #[inline(always)]
    fn pairs(&self) -> &Neighbours {
        &UNICODE_NEIGHBOURS
    }
}

/// The kind of a code.
#[inline(always)]
fn kind_of_code(code: u32) -> u8
    requires { code < 0x11_0000 }
    ensures { result ≡ kind_of (unicode_cell code) }
{
    match UNICODE_KINDS.get(code as usize) {
        Some(kind) => *kind,
        None => far_kind(code),
    }
}

/// The kind of a code beyond the basic plane.
#[inline]
fn far_kind(code: u32) -> u8
    requires { (0x1_0000 ≤ code) × (code < 0x11_0000) }
    ensures { result ≡ kind_of (unicode_cell code) }
{
    ucd_table::get::<8, 8>(&FAR_INDEX, &FAR_WORDS, &FAR_TAIL, code) as u8
}

/// What the kind of a code's cell leaves out: 1 if the cell is wide, and 2 more if it is a letter or a number.
fn flags_of(code: u32) -> u32
    requires { code < 0x11_0000 }
    ensures { result ≡ from_bool (unicode_cell code).wide + 2 * from_bool (unicode_cell code).letter }
{
    ucd_table::get::<2, 4>(&FLAG_INDEX, &FLAG_WORDS, &FLAG_TAIL, code)
}

/// What the first bytes of all scalars tell of them.
fn first_bytes() -> FirstBytes
    ensures { AreTold unicode_cell result 0x11_0000 }
{
    let mut told = FirstBytes::of_none();
    let mut first = 0;
    for &(codes, number) in &UNICODE_RUNS {
        let behind = first + u32::from(codes);
        told.add(first, behind - 1, UNICODE_CELLS[usize::from(number)]);
        first = behind;
    }
    told
}

/// Writes the kinds of all codes.
pub(crate) fn fill_kinds(kinds: &mut [u8; CODES])
    ensures { kinds.new ≡ kinds_of_cells unicode_cell }
{
    let mut first = 0;
    for &(codes, number) in &UNICODE_RUNS {
        let behind = first + usize::from(codes);
        kinds[first..behind].fill(kind_of(UNICODE_CELLS[usize::from(number)]));
        first = behind;
    }
}
