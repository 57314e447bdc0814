//! Offsets as decimal text. Most share all digits except the last four with the previous one.

ghost use Rattle.std.specs.Prelude.{◌≡◌, ◌+◌, ◌/◌, ◌%◌, ◌<◌, ◌≤◌, ◌^◌, decimal, length, take};
ghost use Rattle.lbk_passage.specs.Placing.{PlacedIn};

use super::placing::{place_four, place_front};
use itoa::write_digits;

/// The most digits that are kept.
const MOST: usize = 16;

/// How many offsets share all digits except the last four.
const RANGE: u64 = 10_000;

/// The digits of a number, at the front of some bytes.
#[derive(Clone, Copy)]
struct Digits {
    bytes: [u8; MOST],
    len: usize,
}

/// The digits of a number.
#[cold]
#[inline(never)]
fn digits_of(number: u64) -> Digits
    requires { number < 10 ^ 16 }
    ensures text { take result.len result.bytes ≡ decimal number }
    ensures few { result.len ≤ 16 }
{
    let mut room = [0; 2 * MOST];
    let start = write_digits(number, &mut room, MOST);
    let mut bytes = [0; MOST];
    bytes.copy_from_slice(&room[start..start + MOST]);
    Digits {
        bytes,
        len: MOST - start,
    }
}

/// The digits of the last written offset, except its last four, and the offsets that share them.
#[derive(Clone, Copy)]
pub struct Offsets {
    /// The least of the 10,000 offsets.
    base: u64,
    digits: Digits,
    ghost kept: { (take digits.len digits.bytes ≡ decimal (base / 10000)) × (digits.len ≤ 16) },
    ghost range: { (base % 10000 ≡ 0) × (0 < base) × (base < 2 ^ 63) },
}

impl Offsets {
    /// Before any offset.
    pub fn new() -> Offsets {
        Offsets {
            base: RANGE,
            digits: digits_of(1),
        }
    }

    /// The digits of the offsets that share all except the last four with this one.
    #[cold]
    #[inline(never)]
    fn around(offset: u64) -> Offsets
        requires { (10000 ≤ offset) × (offset < 2 ^ 63) }
        ensures { (result.base ≤ offset) × (offset < result.base + 10000) }
    {
        let high = offset / RANGE;
        Offsets {
            base: high * RANGE,
            digits: digits_of(high),
        }
    }

    /// Writes an offset to a buffer, and returns the index after it. Keeps its digits if it has more than four.
    #[inline(always)]
    pub fn place(&mut self, buf: &mut [u8], at: usize, offset: u64) -> usize
        requires { (offset < 2 ^ 63) × (at + 20 ≤ length buf.old) }
        ensures { PlacedIn buf.old buf.new at 20 (decimal offset) result }
    {
        if offset.wrapping_sub(self.base) >= RANGE {
            if offset < RANGE {
                let digits = digits_of(offset);
                return place_front(buf, at, digits.bytes, digits.len);
            }
            *self = Offsets::around(offset);
        }
        self.place_known(buf, at, offset)
    }

    /// Writes one of the offsets that share the kept digits.
    #[inline(always)]
    fn place_known(&self, buf: &mut [u8], at: usize, offset: u64) -> usize
        requires known { (self.now.base ≤ offset) × (offset < self.now.base + 10000) }
        requires room { at + 20 ≤ length buf.old }
        ensures { PlacedIn buf.old buf.new at 20 (decimal offset) result }
    {
        let next = place_front(buf, at, self.digits.bytes, self.digits.len);
        place_four(buf, next, offset - self.base)
    }
}
