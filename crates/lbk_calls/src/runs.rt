//! Runs of codes of one kind.

ghost use Rattle.std.specs.Prelude.{◌≡◌, ◌∷◌, ◌<◌, ◌≤◌, drop, length, replicate, take};
ghost use Rattle.lbk_calls.specs.Runs.{IsNext, runs_of};

/// How many kinds are packed: one for each code, 0 to 10FFFF.
pub const KINDS_SIZE: usize = 0x11_0000;

/// How many codes in a row have this kind.
#[derive(Clone, Copy, PartialEq, Eq, Debug)]
pub struct Run {
    pub kind: u8,
    pub length: usize,
}

/// The first run of the kinds from a place on.
pub(crate) fn run_at(kinds: &[u8], at: usize) -> Run
    requires { at < length kinds.now }
    ensures next { IsNext kinds.now at result }
    ensures same { take result.length (drop at kinds.now) ≡ replicate result.length result.kind }
{
    first_run(&kinds[at..])
}

/// The first run of some kinds.
fn first_run(kinds: &[u8]) -> Run
    requires { 0 < length kinds.now }
    ensures some { 0 < result.length }
    ensures within { result.length ≤ length kinds.now }
    ensures same { take result.length kinds.now ≡ replicate result.length result.kind }
    ensures first { runs_of kinds.now ≡ result ∷ runs_of (drop result.length kinds.now) }
{
    let kind = kinds[0];
    let mut length = 1;
    while length < kinds.len() && kinds[length] == kind {
        length += 1;
    }
    Run { kind, length }
}
