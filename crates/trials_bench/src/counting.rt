//! Marks where allocations are counted.
//!
//! A preloaded library, `checks/c/refuse.c`, refuses allocations. Requests of two sizes, which nothing else here makes,
//! tell it where to start counting and where to stop. Without the library they are plain requests.

use std::alloc::Global;

const BEGIN: usize = 1_000_003;

const END: usize = 1_000_033;

/// From here on allocations are counted.
pub fn begin(alloc: Global) {
    let _ = Vec::<u8>::with_capacity(alloc, BEGIN);
}

/// From here on allocations are not counted.
pub fn end(alloc: Global) {
    let _ = Vec::<u8>::with_capacity(alloc, END);
}
