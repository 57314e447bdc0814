//! How many leading bytes are well-formed, and what follows them.

ghost use Rattle.std.specs.Prelude.{◌≡◌, ◌≢◌, ◌≤◌, true, false, length};
ghost use Rattle.std.specs.Str.Lossy.{utf8_valid_len};
ghost use Rattle.lbk_feed.specs.Text.{after_prefix};
ghost use Rattle.lbk_feed.specs.Judge.{in_reach, stop_of};

use crate::limits::TEXT_MAX;
use simdutf8::compat;

/// The first byte value with which scalars of more than one byte begin.
const FIRST: u8 = 0xC0;

/// The most bytes of a scalar that is cut.
const CUT: usize = 3;

/// What follows a longest well-formed prefix.
#[derive(Clone, Copy)]
pub enum Stop {
    /// Nothing.
    Whole,
    /// The leading bytes of a scalar, without the rest.
    Cut,
    /// Bytes that begin no scalar.
    Faulty,
}

impl Stop {
    pub fn is_faulty(self) -> bool
        ensures yes { result ≡ true → self ≡ Stop.Faulty }
        ensures no { result ≡ false → self ≢ Stop.Faulty }
    {
        matches!(self, Stop::Faulty)
    }
}

/// How many bytes at the front are well-formed, and what follows them.
#[derive(Clone, Copy)]
pub struct Judgement {
    pub ready_len: usize,
    pub stop: Stop,
}

/// Judges the bytes after the first `given` ones of a text, up to the size limit of a text.
pub fn judge(held: &[u8], given: u64) -> Judgement
    requires { given ≤ TEXT_MAX }
    ensures ready_len { result.ready_len ≡ utf8_valid_len (in_reach given held.now) }
    ensures stop { result.stop ≡ stop_of (after_prefix (in_reach given held.now)) }
{
    let reach = (TEXT_MAX - given).min(held.len() as u64) as usize;
    judge_by_parts(&held[..reach])
}

/// Judges bytes that often end inside a scalar, which `from_utf8` would read again for that: so their last scalar is
/// judged by itself.
fn judge_by_parts(bytes: &[u8]) -> Judgement
    ensures ready_len { result.ready_len ≡ utf8_valid_len bytes.now }
    ensures stop { result.stop ≡ stop_of (after_prefix bytes.now) }
{
    let cut = last_scalar(bytes);
    match compat::from_utf8(&bytes[..cut]) {
        Ok(_) => {
            let last = judge_at_once(&bytes[cut..]);
            Judgement {
                ready_len: cut + last.ready_len,
                stop: last.stop,
            }
        }
        Err(_) => judge_at_once(bytes),
    }
}

/// Where the last scalar begins, if it has two bytes or three, or fewer than it should. Else the end.
fn last_scalar(bytes: &[u8]) -> usize
    ensures { result ≤ length bytes.now }
{
    let end = bytes.len();
    for back in 1..=CUT.min(end) {
        if FIRST <= bytes[end - back] {
            return end - back;
        }
    }
    end
}

/// Judges bytes by one reading, or by two where they are not well-formed.
fn judge_at_once(bytes: &[u8]) -> Judgement
    ensures ready_len { result.ready_len ≡ utf8_valid_len bytes.now }
    ensures stop { result.stop ≡ stop_of (after_prefix bytes.now) }
{
    match compat::from_utf8(bytes) {
        Ok(_) => Judgement {
            ready_len: bytes.len(),
            stop: Stop::Whole,
        },
        Err(error) => Judgement {
            ready_len: error.valid_up_to(),
            stop: if error.error_len().is_none() {
                Stop::Cut
            } else {
                Stop::Faulty
            },
        },
    }
}
