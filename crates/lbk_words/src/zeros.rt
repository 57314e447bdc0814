//! The bytes of a short text with zeros behind them, so that a whole block can be examined.

ghost use Rattle.std.specs.Prelude.{◌≡◌, ◌-◌, ◌*◌, ◌≤◌, ◌++◌, drop, length, replicate};

/// The bytes of a text of N at most, and zeros behind them. A known number of bytes is copied from either end: a copy of
/// an unknown number is a call.
#[inline(always)]
pub(crate) fn with_zeros<const N: usize>(text: &[u8]) -> [u8; N]
    requires { (4 ≤ length text.now) × (length text.now ≤ N) × (N ≤ 64) }
    ensures { result ≡ text.now ++ replicate (N - length text.now) 0 }
{
    let mut bytes = [0; N];
    if text.len() < 8 {
        copy_ends::<4>(text, &mut bytes);
    } else if text.len() <= 16 {
        copy_ends::<8>(text, &mut bytes);
    } else if text.len() <= 32 {
        copy_ends::<16>(text, &mut bytes);
    } else {
        copy_ends::<32>(text, &mut bytes);
    }
    bytes
}

/// Copies a text of SIZE bytes to twice as many to the front of some bytes: its first ones, and then its last ones.
#[inline(always)]
fn copy_ends<const SIZE: usize>(text: &[u8], out: &mut [u8])
    requires size { (SIZE ≤ length text.now) × (length text.now ≤ 2 * SIZE) }
    requires room { length text.now ≤ length out.old }
    ensures { out.new ≡ text.now ++ drop (length text.now) out.old }
{
    let end = text.len();
    out[..SIZE].copy_from_slice(&text[..SIZE]);
    out[end - SIZE..end].copy_from_slice(&text[end - SIZE..end]);
}
