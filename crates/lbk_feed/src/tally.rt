//! What every device counts.

ghost use Rattle.std.specs.Prelude.{◌≡◌};
ghost use Rattle.lbk_feed.specs.Devices.{failures_after};

use super::traits::Failed;

/// The counts of a device: reads, failures, the size of the last read, and whether the end was reached.
#[derive(Clone, Copy)]
pub struct Tally {
    pub reads: u64,
    pub gave: usize,
    pub failures: u64,
    pub ended: bool,
}

impl Tally {
    ghost use Rattle.lbk_feed.specs.Tally.{IsFresh, CountsRead};

    pub fn new() -> Tally
        ensures { IsFresh result }
    {
        Tally {
            reads: 0,
            gave: 0,
            failures: 0,
            ended: false,
        }
    }

    /// Records a read into a buffer of `room` bytes.
    pub fn note_read(&mut self, outcome: &Result<usize, Failed>, room: usize)
        ensures { CountsRead self.old self.new outcome.now room }
    {
        self.reads = self.reads.saturating_add(1);
        self.gave = match outcome {
            Ok(n) => *n,
            Err(_) => 0,
        };
        match outcome {
            Ok(n) => self.ended = self.ended || *n == 0 && room > 0,
            Err(_) => self.failures = self.failures.saturating_add(1),
        }
    }

    /// Records a write.
    pub fn note_write(&mut self, outcome: &Result<usize, Failed>)
        ensures { self.new ≡ record self.old { failures = failures_after self.old.failures outcome.now } }
    {
        if outcome.is_err() {
            self.failures = self.failures.saturating_add(1);
        }
    }
}
