//! What the first byte of a scalar tells of it.

ghost use Rattle.std.specs.Prelude.{◌≡◌, ℕ, ◌+◌, ◌<◌, ◌≤◌, true, false, slice_index_or};
ghost use Rattle.std.specs.Char.{IsScalar};
ghost use Rattle.lbk_rules.specs.FirstBytes.{AreTold, first_byte};
ghost use Rattle.lbk_uax14.specs.Pages.{AreSame};
ghost use Rattle.lbk_uax14.specs.declared.cells.Cell.{Cell};

use lbk_uax14::Cell;

/// For each byte what is known of all scalars that begin with it.
#[derive(Clone, Copy, Debug, Drop)]
pub(crate) struct FirstBytes {
    /// Whether a line must end after none of them (UAX #14, rules LB4 and LB5).
    pub(crate) are_quiet: [bool; 256],
    /// Whether each of them is a letter or a number.
    pub(crate) are_letters: [bool; 256],
}

impl FirstBytes {
    /// All of it of each byte: no scalar was taken in yet.
    pub(crate) fn of_none() -> FirstBytes
        ensures { (cell : ℕ → Cell) → AreTold cell result 0 }
    {
        FirstBytes {
            are_quiet: [true; 256],
            are_letters: [true; 256],
        }
    }

    /// Takes in the scalars of one more range, which have this cell: what does not hold of them is not known of their
    /// first bytes any more.
    pub(crate) fn add(&mut self, first: u32, last: u32, cell: Cell)
        requires { (first ≤ 0x10FFFF) × (last ≤ 0x10FFFF) }
        ensures { (cells : ℕ → Cell) → AreSame cells first last cell → AreTold cells self.old first
            → AreTold cells self.new (last + 1) }
    {
        if cell.class.ends_line() {
            leave_out(&mut self.are_quiet, first, last);
        }
        if !cell.letter {
            leave_out(&mut self.are_letters, first, last);
        }
    }
}

/// Leaves out the first bytes of the scalars from `first` to `last`.
fn leave_out(flags: &mut [bool; 256], first: u32, last: u32)
    requires { (first ≤ 0x10FFFF) × (last ≤ 0x10FFFF) }
    ensures gone { (code : ℕ) → first ≤ code → code ≤ last → IsScalar code
        → slice_index_or flags.new (first_byte code) false ≡ false }
    ensures others { (byte : ℕ) → slice_index_or flags.new byte false ≡ true → slice_index_or flags.old byte false
        ≡ true }
{
    for byte in first_byte(first)..first_byte(last) + 1 {
        flags[usize::from(byte)] = false;
    }
}

/// The first byte of a code in UTF-8 (Unicode Standard, table 3-6).
fn first_byte(code: u32) -> u8
    requires { code ≤ 0x10FFFF }
    ensures byte { result ≡ first_byte code }
    ensures few { result < 0xF5 }
{
    if code < 0x80 {
        code as u8
    } else if code < 0x800 {
        (0xC0 + code / 0x40) as u8
    } else if code < 0x1_0000 {
        (0xE0 + code / 0x1000) as u8
    } else {
        (0xF0 + code / 0x4_0000) as u8
    }
}
