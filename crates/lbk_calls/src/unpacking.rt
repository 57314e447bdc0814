//! Kinds from their packed form.

ghost use Rattle.std.specs.Prelude.{◌≡◌, ◌≤◌, ℕ, List, Ok, Err, IfErr, OnOk, IsTrue, ◌↔◌, length};
ghost use Rattle.lbk_calls.specs.Packing.{body_of, packed, records_of};
ghost use Rattle.lbk_calls.specs.Refusals.{IsRefusal, LeavesAlone};

use crate::records::{Record, first_record};
use crate::runs::{KINDS_SIZE, run_at};
use lbk_rules::digest_of_bytes;

/// Why bytes are refused.
#[derive(Clone, Copy, PartialEq, Eq, Debug)]
pub enum Refusal {
    /// They do not begin as the packed form does.
    Foreign,
    /// They are of another version.
    Version,
    /// They were changed or truncated.
    Damaged,
}

/// Reads kinds from their packed form of this version, and refuses all other bytes.
///
/// After `Foreign` and `Version` the kinds are unchanged, after `Damaged` unspecified.
pub fn unpack(version: u8, bytes: &[u8], kinds: &mut [u8; KINDS_SIZE]) -> Result<(), Refusal>
    ensures form { OnOk result (bytes.now ≡ packed version kinds.new) }
    ensures each { (all : List ℕ) → length all ≡ 0x11_0000 → bytes.now ≡ packed version all
        → (result ≡ Ok tt) × (kinds.new ≡ all) }
    ensures refused { IfErr result (IsRefusal version bytes.now) }
    ensures untouched { IfErr result (λ refusal. LeavesAlone refusal → kinds.new ≡ kinds.old) }
{
    match bytes {
        [b'l', b'b', b'k', of, body @ ..] => {
            if *of != version {
                return Err(Refusal::Version);
            }
            if unpack_body(body, kinds) {
                Ok(())
            } else {
                Err(Refusal::Damaged)
            }
        }
        _ => Err(Refusal::Foreign),
    }
}

/// Reads kinds from what follows the version in their packed form, and returns whether it was well-formed.
fn unpack_body(body: &[u8], kinds: &mut [u8; KINDS_SIZE]) -> bool
    ensures form { IsTrue result → body.now ≡ body_of kinds.new }
    ensures each { (all : List ℕ) → length all ≡ 0x11_0000 → body.now ≡ body_of all
        → IsTrue result × (kinds.new ≡ all) }
{
    if body.len() < 8 {
        return false;
    }
    let (digest, records) = body.split_at(8);
    fill_runs(records, kinds);
    digest == digest_of_bytes(records).to_le_bytes().as_slice() && are_records(kinds, records)
}

/// Writes the runs of some records. If these are the records of so many kinds, all kinds are then written.
fn fill_runs(records: &[u8], kinds: &mut [u8])
    requires { length kinds.old ≤ 0x11_0000 }
    ensures { (all : List ℕ) → length all ≡ length kinds.old → records.now ≡ records_of all → kinds.new ≡ all }
{
    let mut rest = records;
    let mut at = 0;
    while let Some((run, after)) = first_record(rest) {
        let end = kinds.len().min(at + run.length);
        kinds[at..end].fill(run.kind);
        at = end;
        rest = after;
    }
}

/// Whether some bytes are the records of kinds.
fn are_records(kinds: &[u8; KINDS_SIZE], bytes: &[u8]) -> bool
    ensures { IsTrue result ↔ (bytes.now ≡ records_of kinds.now) }
{
    let mut left = bytes;
    let mut at = 0;
    while at < kinds.len() {
        let run = run_at(kinds, at);
        match left.strip_prefix(Record::of(run).as_slice()) {
            Some(after) => left = after,
            None => return false,
        }
        at += run.length;
    }
    left.is_empty()
}
