//! The arguments after the program's name.

use super::out_of_memory;
use lbk_cmd::Ending;
use std::alloc::AllocError;
use std::env::{self, Env};
use std::io::{self, ErrorKind};

/// The most bytes of an argument in Linux.
const LONGEST: usize = 131_072;

/// The arguments after the program's name, or how the run ends without them.
pub fn words_given(rt: &HostRuntime) -> Result<Vec<String>, Ending> {
    match collected(rt) {
        Ok(words) => Ok(words),
        Err(error) if error.kind() == ErrorKind::OutOfMemory => Err(out_of_memory()),
        Err(_) => Err(not_utf8(rt)),
    }
}

fn collected(rt: &HostRuntime) -> io::Result<Vec<String>> {
    let words = env::args(rt)?.skip(1).collect(rt.alloc())?;
    Ok(words)
}

/// The arguments without `--help` after `help`, which adds nothing.
pub fn without_help_of_help<'a>(words: &'a [&'a str]) -> &'a [&'a str] {
    let is_call = words.last() == Some(&"--help") || words.last() == Some(&"-h");
    if is_call && words.len() > 1 && words[0] == "help" {
        &words[..words.len() - 1]
    } else {
        words
    }
}

/// How a run ends with an argument that is not UTF-8.
fn not_utf8(rt: &HostRuntime) -> Ending {
    match not_utf8_text(rt) {
        Ok(text) => Ending::Usage { text },
        Err(_) => out_of_memory(),
    }
}

fn not_utf8_text(rt: &HostRuntime) -> Result<String, AllocError> {
    let mut text = String::from_str(rt.alloc(), "lbk: ")?;
    push_argument(rt, &mut text)?;
    text.push_str(" is not UTF-8; pass a file with such a name as standard input: < FILE\n")?;
    Ok(text)
}

/// Says which argument is not UTF-8.
fn push_argument(rt: &HostRuntime, text: &mut String) -> Result<(), AllocError> {
    let mut buffer = vec![in rt.alloc(); 0u8; LONGEST]?;
    for i in 1..usize::MAX {
        let Ok(len) = rt.arg(i, buffer.as_mut_slice()) else {
            break;
        };
        let word = &buffer[..len];
        if str::from_utf8(word).is_err() {
            write!(text, "argument {i}, ")?;
            push_bytes(text, word)?;
            return text.push(',');
        }
    }
    text.push_str("an argument")
}

/// Bytes as text; each byte that is not a visible ASCII character is `\x` and its code.
fn push_bytes(text: &mut String, bytes: &[u8]) -> Result<(), AllocError> {
    for byte in bytes {
        if byte.is_ascii_graphic() {
            text.push(char::from(*byte))?;
        } else {
            write!(text, "\\x{byte:02x}")?;
        }
    }
    Ok(())
}
