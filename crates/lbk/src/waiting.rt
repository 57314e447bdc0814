//! The message that the program waits for a person.

use super::hints;
use lbk_feed::noted::Prompt;

/// Says on standard error that the program waits for text.
#[derive(Drop)]
pub struct Waiting<'a> {
    rt: &'a HostRuntime,
}

impl<'a> Waiting<'a> {
    pub fn new(rt: &'a HostRuntime) -> Waiting<'a> {
        Waiting { rt }
    }
}

impl Prompt for Waiting<'_> {
    fn tell(&self) {
        let _ = eprintln!(self.rt; "lbk: {}", hints::WAITING);
    }
}
