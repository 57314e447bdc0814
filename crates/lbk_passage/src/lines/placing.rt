//! The parts of a line, each written to a buffer with room for more than the line.

ghost use Rattle.std.specs.Prelude.{◌≡◌, ◌+◌, ◌<◌, ◌≤◌, ◌∷◌, [], length, take};
ghost use Rattle.lbk_passage.specs.Placing.{Placed, four_digits, two_digits};

use std::simd::Simd;

/// Writes a byte, and returns the index after it.
#[inline(always)]
pub fn place_byte(buf: &mut [u8], at: usize, byte: u8) -> usize
    requires { at < length buf.old }
    ensures { Placed buf.old buf.new at (byte ∷ []) result }
{
    buf[at] = byte;
    at + 1
}

/// Writes the first `len` of some bytes. It stores all of them, so that one instruction is enough.
#[inline(always)]
pub fn place_front<const N: usize>(buf: &mut [u8], at: usize, bytes: [u8; N], len: usize) -> usize
    requires { (len ≤ N) × (at + N ≤ length buf.old) }
    ensures { Placed buf.old buf.new at (take len bytes.entry) result }
{
    Simd::<u8, N>::from_array(bytes).copy_to_slice(&mut buf[at..]);
    at + len
}

/// The two digits of each number below 100.
#[rattlefmt::skip]
static PAIRS: [[u8; 2]; 100] = [
    *b"00", *b"01", *b"02", *b"03", *b"04", *b"05", *b"06", *b"07", *b"08", *b"09",
    *b"10", *b"11", *b"12", *b"13", *b"14", *b"15", *b"16", *b"17", *b"18", *b"19",
    *b"20", *b"21", *b"22", *b"23", *b"24", *b"25", *b"26", *b"27", *b"28", *b"29",
    *b"30", *b"31", *b"32", *b"33", *b"34", *b"35", *b"36", *b"37", *b"38", *b"39",
    *b"40", *b"41", *b"42", *b"43", *b"44", *b"45", *b"46", *b"47", *b"48", *b"49",
    *b"50", *b"51", *b"52", *b"53", *b"54", *b"55", *b"56", *b"57", *b"58", *b"59",
    *b"60", *b"61", *b"62", *b"63", *b"64", *b"65", *b"66", *b"67", *b"68", *b"69",
    *b"70", *b"71", *b"72", *b"73", *b"74", *b"75", *b"76", *b"77", *b"78", *b"79",
    *b"80", *b"81", *b"82", *b"83", *b"84", *b"85", *b"86", *b"87", *b"88", *b"89",
    *b"90", *b"91", *b"92", *b"93", *b"94", *b"95", *b"96", *b"97", *b"98", *b"99",
];

/// Writes the four digits of a number below 10,000.
#[inline(always)]
pub fn place_four(buf: &mut [u8], at: usize, number: u64) -> usize
    requires { (number < 10000) × (at + 4 ≤ length buf.old) }
    ensures { Placed buf.old buf.new at (four_digits number) result }
{
    let next = place_pair(buf, at, number / 100);
    place_pair(buf, next, number % 100)
}

/// Writes the two digits of a number below 100.
#[inline(always)]
fn place_pair(buf: &mut [u8], at: usize, number: u64) -> usize
    requires { (number < 100) × (at + 2 ≤ length buf.old) }
    ensures { Placed buf.old buf.new at (two_digits number) result }
{
    place_front(buf, at, PAIRS[number as usize], 2)
}
