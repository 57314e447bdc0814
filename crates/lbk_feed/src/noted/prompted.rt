//! A source that shows a prompt before its first read.
#![tactic(auto, unfolding(crate::specs::Within::within_prompted))]

ghost use Rattle.std.specs.Prelude.{◌≡◌};
ghost use Rattle.lbk_feed.specs.Within.{within_prompted};

use crate::traits::{Failed, Source};

/// A message that the program waits for input.
pub trait Prompt {
    /// Shows the message, or nothing if that fails.
    fn tell(&self);
}

/// A source that may show a prompt before its first read. Each read is one read of the inner source, with its bytes and
/// its failure.
#[derive(Drop)]
pub struct Prompted<S, P> {
    inner: S,
    prompt: P,
    /// Whether it is still to be shown.
    is_due: bool,
}

impl<S, P> Prompted<S, P> {
    /// The source `inner`; `prompt` is shown before its first read if `is_due`.
    pub fn new(inner: S, prompt: P, is_due: bool) -> Prompted<S, P>
        ensures { within_prompted result ≡ inner }
    {
        Prompted {
            inner,
            prompt,
            is_due,
        }
    }
}

impl<S: Source, P: Prompt> Source for Prompted<S, P> {
    ghost unread = { λ prompted. S.unread (within_prompted prompted) };

    ghost reads_made = { λ prompted. S.reads_made (within_prompted prompted) };

    ghost failure_count = { λ prompted. S.failure_count (within_prompted prompted) };

    ghost has_ended = { λ prompted. S.has_ended (within_prompted prompted) };

    fn read(&mut self, buf: &mut [u8]) -> Result<usize, Failed> {
        if self.is_due {
            self.is_due = false;
            self.prompt.tell();
        }
        self.inner.read(buf)
    }

    fn reads(&self) -> u64 {
        self.inner.reads()
    }

    fn failures(&self) -> u64 {
        self.inner.failures()
    }

    fn ended(&self) -> bool {
        self.inner.ended()
    }
}
