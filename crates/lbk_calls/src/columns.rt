//! Breaks as columns.

ghost use Rattle.std.specs.Prelude.{◌≡◌, ℕ, ◌+◌, ◌<◌, ◌≤◌, ◌%◌, ◌^◌, length, min, slice_index_or};
ghost use Rattle.lbk_bytes.specs.Order.{no_break};

use lbk_bytes::RawBreak;

/// Writes the breaks at the front of a block to columns, as many as each column holds, and returns how many: the low 32
/// bits of their offsets, counted from `from` on, and the numbers of their kinds and rules. The rest of the columns is
/// unchanged.
#[unsafe(no_mangle)]
pub extern "C" fn lbk_columns(
    breaks: &[RawBreak],
    from: u32,
    at: &mut [u32],
    kind: &mut [u8],
    rule: &mut [u8],
) -> usize
    ensures count { result ≡ min (length breaks.now) (min (length at.old) (min (length kind.old) (length rule.old))) }
    ensures at { (k : ℕ) → k < result → slice_index_or at.new k 0
        ≡ ((slice_index_or breaks.now k no_break).at + from) % 2 ^ 64 % 2 ^ 32 }
    ensures kind { (k : ℕ) → k < result → slice_index_or kind.new k 0 ≡ (slice_index_or breaks.now k no_break).kind }
    ensures rule { (k : ℕ) → k < result → slice_index_or rule.new k 0 ≡ (slice_index_or breaks.now k no_break).rule }
    ensures at_after { (k : ℕ) → result ≤ k → slice_index_or at.new k 0 ≡ slice_index_or at.old k 0 }
    ensures kind_after { (k : ℕ) → result ≤ k → slice_index_or kind.new k 0 ≡ slice_index_or kind.old k 0 }
    ensures rule_after { (k : ℕ) → result ≤ k → slice_index_or rule.new k 0 ≡ slice_index_or rule.old k 0 }
{
    let count = breaks.len().min(at.len().min(kind.len().min(rule.len())));
    let mut k = 0;
    while k < count {
        let it = breaks[k];
        at[k] = (it.at.wrapping_add(from as usize) % 0x1_0000_0000) as u32;
        kind[k] = it.kind;
        rule[k] = it.rule;
        k += 1;
    }
    count
}
