//! Ways to cut reads.

use std::alloc::{AllocError, Global};

/// Sizes of reads.
pub const SIZES: [usize; 5] = [1, 2, 3, 4096, usize::MAX];

/// For a text of so many bytes the sizes of the first, the second and all later reads: cut at every two offsets, and in
/// reads of one size.
pub fn cuttings(alloc: Global, length: usize) -> Result<Vec<[usize; 3]>, AllocError> {
    let mut cuttings = Vec::new(alloc);
    for size in [1, 2, 3, 7, usize::MAX] {
        cuttings.push([size, size, size])?;
    }
    for first in 1..=length {
        for second in 1..=length {
            cuttings.push([first, second, usize::MAX])?;
        }
    }
    Ok(cuttings)
}
