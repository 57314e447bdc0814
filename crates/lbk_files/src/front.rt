//! The first bytes of a reader.

ghost use Rattle.std.specs.Prelude.{◌≡◌, ◌+◌, ◌<◌, ◌≤◌, take, vec_len, Err, IfOk, IfSome, IsErrOf, IsTrue};
ghost use Rattle.std.specs.Io.KnownBytes.{Consumes};
ghost use Rattle.lbk_feed.specs.Devices.{count_up};

use super::store::LoadFault;
use lbk_feed::Source;
use std::alloc::Global;

const BLOCK: usize = 16_384;

/// The first `most + 1` bytes of a reader, or all of them if it has fewer, in at most `most + 1` reads, and at most one
/// more than bytes returned.
///
/// Returns `Unreadable` if a read fails, and `Memory` if memory could not grow.
pub fn read_front<R: Source>(
    alloc: Global,
    reader: &mut R,
    most: usize,
) -> Result<Vec<u8>, LoadFault>
    ensures front { IfOk result (λ bytes. IfSome (R.unread reader.old) (λ all. bytes.items ≡ take (most + 1) all)) }
    ensures taken { IfOk result (λ bytes. Consumes (R.unread reader.old) (R.unread reader.new) bytes.items) }
    ensures within { IfOk result (λ bytes. vec_len bytes ≤ most + 1) }
    ensures ended { IfOk result (λ bytes. vec_len bytes < most + 1 → IsTrue (R.has_ended reader.new)) }
    ensures reads { (R.reads_made reader.new).count ≤ (R.reads_made reader.old).count + (most + 1) }
    ensures each_gave { IfOk result (λ bytes. (R.reads_made reader.new).count ≤ (R.reads_made reader.old).count
        + (vec_len bytes + 1)) }
    ensures failed { IsErrOf result LoadFault.Unreadable → R.failure_count reader.new
        ≡ count_up (R.failure_count reader.old) }
    ensures failure { R.failure_count reader.old < R.failure_count reader.new → result ≡ Err LoadFault.Unreadable }
{
    let mut front = Vec::new(alloc);
    let mut block = [0u8; BLOCK];
    while front.len() <= most {
        let room = BLOCK.min((most - front.len()).saturating_add(1));
        let Ok(count) = reader.read(&mut block[..room]) else {
            return Err(LoadFault::Unreadable);
        };
        if count == 0 {
            return Ok(front);
        }
        if front.extend_from_slice(&block[..count]).is_err() {
            return Err(LoadFault::Memory);
        }
    }
    Ok(front)
}
