// The letters of two bytes that masks find, written by scripts/word-tables.

use lbk_masks::HalfSets;

// The sets of their first bytes.
#[rattlefmt::skip]
pub(crate) const FIRSTS: HalfSets = HalfSets {
    low: [112, 112, 96, 117, 3, 3, 3, 3, 67, 131, 115, 16, 0, 0, 10, 1],
    high: [0, 0, 0, 0, 0, 0, 0, 0, 0, 0, 0, 0, 15, 240, 0, 0],
};

// The sets of their second bytes.
#[rattlefmt::skip]
pub(crate) const SECONDS: HalfSets = HalfSets {
    low: [255, 255, 247, 255, 255, 255, 255, 251, 255, 255, 255, 127, 127, 127, 127, 127],
    high: [0, 0, 0, 0, 0, 0, 0, 0, 145, 38, 73, 70, 0, 0, 0, 0],
};
