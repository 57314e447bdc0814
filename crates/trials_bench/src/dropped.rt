//! A writer that drops its bytes.

ghost use Rattle.std.specs.Prelude.{None};

use lbk_feed::{Failed, Sink};

/// A sink that accepts everything and keeps nothing.
#[derive(Clone, Copy)]
pub struct Dropped;

impl Sink for Dropped {
    ghost written = { λ _. None };

    ghost failure_count = { λ _. 0 };

    fn write(&mut self, bytes: &[u8]) -> Result<usize, Failed> {
        Ok(bytes.len())
    }

    fn failures(&self) -> u64 {
        0
    }
}
