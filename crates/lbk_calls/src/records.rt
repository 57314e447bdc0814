//! A run as bytes.

ghost use Rattle.std.specs.Prelude.{◌≡◌, ◌<◌, ◌≤◌, ℕ, List, ◌++◌, length, take, IfSome, IsSomeAnd};
ghost use Rattle.lbk_calls.specs.declared.runs.Run.{Run};
ghost use Rattle.lbk_calls.specs.Packing.{record_of};

use crate::runs::Run;

/// A run of more codes has a record of four bytes.
const SHORT: usize = 128;

/// The bytes of a run.
#[derive(Clone, Copy)]
pub(crate) struct Record {
    bytes: [u8; 4],
    size: usize,
    ghost few: { size ≤ 4 },
}

impl Record {
    /// The record of a run.
    pub(crate) fn of(run: Run) -> Record
        requires some { 0 < run.length }
        requires few { run.length ≤ 0x11_0000 }
        ensures { take result.size result.bytes ≡ record_of run }
    {
        let more = run.length - 1;
        if more < SHORT {
            return Record {
                bytes: [run.kind, more as u8, 0, 0],
                size: 2,
            };
        }
        Record {
            bytes: [
                run.kind,
                (SHORT + more % SHORT) as u8,
                (more / 128 % 256) as u8,
                (more / 32_768) as u8,
            ],
            size: 4,
        }
    }

    /// Its bytes.
    pub(crate) fn as_slice(&self) -> &[u8]
        ensures bytes { result.now ≡ take self.now.size self.now.bytes }
        ensures few { length result.now ≤ 4 }
    {
        &self.bytes[..self.size]
    }
}

/// The run of the first record of some bytes, and what follows it; none if there is no complete record.
pub(crate) fn first_record(bytes: &[u8]) -> Option<(Run, &[u8])>
    ensures run { (run : Run) (rest : List ℕ) → 0 < run.length → run.length ≤ 0x11_0000
        → bytes.now ≡ record_of run ++ rest → IsSomeAnd result (λ read. (read.0 ≡ run) × (read.1.now ≡ rest)) }
    ensures onward { IfSome result (λ read. length read.1.now < length bytes.now) }
    ensures some { IfSome result (λ read. 0 < read.0.length) }
    ensures few { IfSome result (λ read. read.0.length ≤ 0x80_0000) }
{
    match bytes {
        [kind, more, rest @ ..] if *more < 128 => {
            let length = *more as usize + 1;
            Some((
                Run {
                    kind: *kind,
                    length,
                },
                rest,
            ))
        }
        [kind, low, middle, high, rest @ ..] if *low >= 128 => {
            let more = (*low as usize - SHORT) + 128 * *middle as usize + 32_768 * *high as usize;
            let length = more + 1;
            Some((
                Run {
                    kind: *kind,
                    length,
                },
                rest,
            ))
        }
        _ => None,
    }
}
