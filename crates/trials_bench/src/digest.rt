//! A number to compare long results by (the 64-bit FNV hash).

use lbk_rules::{Cell, Kind, Rule};
use lbk_ucd::{Category, EastAsian, LineBreak};

const MULTIPLIER: u64 = 0x100_0000_01b3;

const START: u64 = 0xcbf2_9ce4_8422_2325;

/// The digest of the numbers that were added.
#[derive(Clone, Copy)]
pub struct Digest {
    value: u64,
}

impl Digest {
    pub fn new() -> Digest {
        Digest { value: START }
    }

    pub fn add(&mut self, number: u64) {
        self.value = (self.value ^ number).wrapping_mul(MULTIPLIER);
    }

    pub fn add_bytes(&mut self, bytes: &[u8]) {
        for byte in bytes {
            self.add(u64::from(*byte));
        }
    }

    pub fn add_verdict(&mut self, kind: Kind, rule: Rule) {
        self.add(kind as u64);
        self.add_bytes(rule.label().as_bytes());
    }

    pub fn add_properties(
        &mut self,
        line_break: LineBreak,
        east_asian: EastAsian,
        category: Category,
        is_pictographic: bool,
    ) {
        self.add(line_break as u64);
        self.add(east_asian as u64);
        self.add(category as u64);
        self.add(u64::from(is_pictographic));
    }

    pub fn add_cell(&mut self, cell: Cell) {
        self.add(cell.class as u64);
        self.add(u64::from(cell.wide));
        self.add(u64::from(cell.pict_cn));
        self.add(cell.quote as u64);
        self.add(u64::from(cell.letter));
    }

    pub fn value(&self) -> u64 {
        self.value
    }
}

/// The digest of these bytes.
pub fn of(bytes: &[u8]) -> u64 {
    let mut digest = Digest::new();
    digest.add_bytes(bytes);
    digest.value()
}
