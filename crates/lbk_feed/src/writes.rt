//! Writing a whole buffer.

ghost use Rattle.std.specs.Prelude.{◌≡◌, ℕ, [], take, IsOk, OnOk, OnErr};
ghost use Rattle.std.specs.Io.KnownBytes.{Appends};
ghost use Rattle.lbk_feed.specs.Devices.{failures_after};
ghost use Rattle.lbk_feed.specs.Runs.{HasFailed};
ghost use Rattle.lbk_feed.specs.Writes.{HasWritten};

use crate::traits::{Failed, Sink};

/// Writes all of `bytes`, in writes of at least one byte each; an empty buffer needs no write.
///
/// It stops at the first write that fails, with an `Err`; a prefix of `bytes` is written then.
pub fn write_all<W: Sink>(writer: &mut W, bytes: &[u8]) -> Result<(), Failed>
    ensures ok { OnOk result (Appends (W.written writer.old) (W.written writer.new) bytes.now) }
    ensures front { (n : ℕ) × Appends (W.written writer.old) (W.written writer.new) (take n bytes.now) }
    ensures failures { W.failure_count writer.new ≡ failures_after (W.failure_count writer.old) result }
    ensures failed { OnErr result (HasFailed (W.failure_count writer.old) (W.failure_count writer.new)) }
    ensures nothing { bytes.now ≡ [] → IsOk result × (writer.new ≡ writer.old) }
    ensures by_writes { HasWritten W.written W.failure_count writer.old writer.new }
    ensures none_failed { OnOk result (W.failure_count writer.new ≡ W.failure_count writer.old) }
{
    let mut done = 0;
    while done < bytes.len() {
        done += writer.write(&bytes[done..])?;
    }
    Ok(())
}
