//! The text that a window keeps for later chunks.

ghost use Rattle.std.specs.Prelude.{◌≡◌, ℕ, ◌-◌, ◌≤◌, ◌++◌, [], List, IfSome, OnOk, drop, is_some, length, take};
ghost use Rattle.lbk_chunk_reader.specs.Held.{IsHeld, KeepsFew, Reaches};

use std::alloc::{AllocError, Global};

/// The text of the passages taken, from a byte on.
#[derive(Drop)]
pub(crate) struct Held {
    bytes: Vec<u8>,
    /// The offset of its first byte.
    from: usize,
}

impl Held {
    /// Nothing, at the start of a text.
    pub fn new(alloc: Global) -> Held
        ensures { IsHeld 0 [] result }
    {
        Held {
            bytes: Vec::new(alloc),
            from: 0,
        }
    }

    /// Takes the text of the next passage. The bytes before `start` are no longer needed.
    pub fn take(&mut self, start: usize, passage: &str) -> Result<(), AllocError>
        ensures holds { OnOk result ((text : List ℕ) → IsHeld start text self.old
            → IsHeld start (text ++ passage.now) self.new) }
        ensures few { OnOk result (Reaches start self.old → KeepsFew start self.new) }
    {
        self.drop_before(start);
        self.bytes.extend_from_slice(passage.as_bytes())?;
        Ok(())
    }

    /// Releases the bytes before `start` once they are more than half.
    fn drop_before(&mut self, start: usize)
        ensures holds { (text : List ℕ) → IsHeld start text self.old → IsHeld start text self.new }
        ensures few { Reaches start self.old → KeepsFew start self.new }
    {
        let gone = start.saturating_sub(self.from).min(self.bytes.len());
        if gone > self.bytes.len() / 2 {
            drop(self.bytes.drain(..gone));
            self.from += gone;
        }
    }

    /// The text from one byte up to another.
    pub fn text(&self, start: usize, end: usize) -> &[u8]
        ensures { (text : List ℕ) → IsHeld start text self.now → start ≤ end → end ≤ length text
            → result.now ≡ take (end - start) (drop start text) }
    {
        let to = end.saturating_sub(self.from).min(self.bytes.len());
        let from = start.saturating_sub(self.from).min(to);
        &self.bytes[from..to]
    }
}

/// Takes the text of the next passage, if texts are kept.
pub(crate) fn take_text(
    held: &mut Option<Held>,
    start: usize,
    passage: &str,
) -> Result<(), AllocError>
    ensures keeps { OnOk result (is_some held.new ≡ is_some held.old) }
    ensures holds { OnOk result ((text : List ℕ) → IfSome held.old (IsHeld start text)
        → IfSome held.new (IsHeld start (text ++ passage.now))) }
    ensures few { OnOk result (IfSome held.old (Reaches start) → IfSome held.new (KeepsFew start)) }
{
    match held {
        Some(held) => held.take(start, passage),
        None => Ok(()),
    }
}
