//! Whether bits are likely to tell where the next part of a text ends. Any answer is right: the other way is slower.

ghost use Rattle.std.specs.Prelude.{◌≡◌, ◌≤◌, length, true};

use lbk_masks::first_set;

/// Fewer bytes than this are left to steps.
const FEW: usize = 4;

/// The first byte value with which few letters of two bytes begin, or longer ones do.
const LONG: u8 = 0xDC;

/// How far a text is looked at for a long scalar: one of three bytes or more that is no letter told by bits. Near it steps
/// tell ends as fast as bits do.
pub(crate) const SOON: usize = 20;

/// The top bit of each of eight bytes.
const TOPS: u64 = 0x8080_8080_8080_8080;

/// Whether bits are likely to tell the end of the part at the front of some bytes.
#[inline(always)]
pub(crate) fn may_tell(bytes: &[u8]) -> bool
    ensures { result ≡ true → 4 ≤ length bytes.now }
{
    if bytes.len() < FEW {
        return false;
    }
    let (first, second) = (bytes[0], bytes[1]);
    let begins = if first < 0x80 {
        second < 0x80 || is_usual(second, bytes[2])
    } else {
        is_usual(first, second)
    };
    begins && !is_long_soon(bytes)
}

/// Whether a long scalar begins soon in some bytes: in the first eight, or further on in the first 20, where there are so
/// many, if those before it seem to be of one byte each. One that begins behind the first two of eight holds the fifth
/// or the eighth, so most text of one byte a scalar needs one test for six bytes.
#[inline(always)]
fn is_long_soon(bytes: &[u8]) -> bool {
    if bytes.len() < 8 {
        return false;
    }
    if 0x80 <= bytes[4] | bytes[7] {
        return is_long_in(bytes);
    }
    // The shorter the text, the less a look at its length is foreseen.
    if bytes.len() < SOON {
        return false;
    }
    if 0x80 <= bytes[10] | bytes[13] {
        return is_long_in(&bytes[6..]);
    }
    if 0x80 <= bytes[16] | bytes[19] {
        return is_long_in(&bytes[12..]);
    }
    false
}

/// Whether the first scalar of three bytes or more in the first eight bytes is long.
#[inline(always)]
fn is_long_in(bytes: &[u8]) -> bool
    requires { 8 ≤ length bytes.now }
{
    let front = u64::from_le_bytes([
        bytes[0], bytes[1], bytes[2], bytes[3], bytes[4], bytes[5], bytes[6], bytes[7],
    ]);
    let longs = front & (front << 1) & (front << 2) & TOPS;
    if longs == 0 {
        return false;
    }
    // (a byte has eight bits)
    let rest = front >> (first_set(longs) / 8 * 8);
    !begins_long((rest % 256) as u8, (rest / 256 % 256) as u8)
}

/// Whether a scalar from U+0080 on that begins with two bytes is likely to be a letter that bits tell. Most Arabic signs
/// and marks, which come before and behind the letters, are none.
#[inline(always)]
fn is_usual(first: u8, second: u8) -> bool {
    if LONG <= first {
        return begins_long(first, second);
    }
    match first {
        0xD7 => false,
        0xD8 => 0xA0 <= second,
        0xD9 => second < 0x8B || 0xAE <= second,
        _ => 0xC3 <= first,
    }
}

/// Whether two bytes begin a letter of three that bits tell, or the first may and the second is 0, since it is not seen.
#[inline(always)]
fn begins_long(first: u8, second: u8) -> bool {
    match first {
        0xE1 => second == 0 || second & 0xFC == 0xB8,
        0xEA => second == 0 || 0xB0 <= second,
        0xEB | 0xEC => true,
        0xED => second < 0x9E,
        _ => false,
    }
}
