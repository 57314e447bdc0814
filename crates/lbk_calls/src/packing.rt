//! Kinds in few bytes.

ghost use Rattle.std.specs.Prelude.{◌≡◌, ◌+◌, ◌≤◌, ◌<◌, ◌++◌, ◌∷◌, codes, drop, length, take};
ghost use Rattle.std.specs.Int.{to_le_bytes, w64};
ghost use Rattle.lbk_calls.specs.Packing.{packed, records_of};

use crate::records::Record;
use crate::runs::{KINDS_SIZE, run_at};
use lbk_rules::digest_of_bytes;

/// How many bytes the head has.
pub(crate) const HEAD: usize = 12;

/// Writes the packed form of kinds to the front of the bytes, and returns its size. If it exceeds the room, nothing is
/// written.
pub fn pack(version: u8, kinds: &[u8; KINDS_SIZE], bytes: &mut [u8]) -> usize
    ensures size { result ≡ length (packed version kinds.now) }
    ensures form { result ≤ length bytes.old → bytes.new ≡ packed version kinds.now ++ drop result bytes.old }
    ensures small { length bytes.old < result → bytes.new ≡ bytes.old }
{
    let size = HEAD + put_records(kinds, &mut []);
    if size <= bytes.len() {
        put_records(kinds, &mut bytes[HEAD..]);
        let digest = digest_of_bytes(&bytes[HEAD..size]);
        put_head(version, digest, bytes);
    }
    size
}

/// Writes the head before the records.
fn put_head(version: u8, digest: u64, bytes: &mut [u8])
    requires { 12 ≤ length bytes.old }
    ensures { bytes.new ≡ codes "lbk" ++ (version ∷ (to_le_bytes w64 digest ++ drop 12 bytes.old)) }
{
    let [a, b, c, d, e, f, g, h] = digest.to_le_bytes();
    let head = [b'l', b'b', b'k', version, a, b, c, d, e, f, g, h];
    bytes[..HEAD].copy_from_slice(&head);
}

/// Writes the records of kinds to the front of the bytes if there is room for all of them, and returns their size.
fn put_records(kinds: &[u8; KINDS_SIZE], bytes: &mut [u8]) -> usize
    ensures size { result ≡ length (records_of kinds.now) }
    ensures records { result ≤ length bytes.old → bytes.new ≡ records_of kinds.now ++ drop result bytes.old }
    ensures few { result ≤ 0x44_0000 }
{
    let mut at = 0;
    let mut size = 0;
    while at < kinds.len() {
        let run = run_at(kinds, at);
        size = put(bytes, size, Record::of(run).as_slice());
        at += run.length;
    }
    size
}

/// Writes some bytes at an offset if there is room for them, and returns the offset after them.
fn put(bytes: &mut [u8], at: usize, part: &[u8]) -> usize
    requires place { at ≤ 0x44_0000 }
    requires few { length part.now ≤ 4 }
    ensures end { result ≡ at + length part.now }
    ensures written { result ≤ length bytes.old → bytes.new ≡ take at bytes.old ++ (part.now ++ drop result bytes.old) }
{
    let end = at + part.len();
    if end <= bytes.len() {
        bytes[at..end].copy_from_slice(part);
    }
    end
}
