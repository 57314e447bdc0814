//! The parts of a JSON object (RFC 8259), each written to a buffer with enough room.

ghost use Rattle.std.specs.Prelude.{◌≡◌, ◌+◌, ◌<◌, ◌≤◌, length};
ghost use Rattle.std.specs.Char.{digit_char};
ghost use Rattle.json.specs.Print.{escape_byte, escape_letter};
ghost use Rattle.lbk_chunk_reader.specs.Numbered.{numbered_chunk};
ghost use Rattle.lbk_passage.specs.Placing.{Placed};
ghost use Rattle.lbk_cmd.specs.Objects.{front_of_object};

use super::waiting::place_number;
use lbk_chunk_reader::Chunk;
use lbk_passage::lines::{place_byte, place_front};

/// Writes the members of the object of a chunk, up to its text.
pub fn place_front_of_object(line: &mut [u8], at: usize, chunk: &Chunk) -> usize
    requires { at + 128 ≤ length line.old }
    ensures { Placed line.old line.new at (front_of_object (numbered_chunk chunk.now)) result }
{
    let next = place_front(line, at, *b"\"start\":        ", 8);
    let next = place_number(line, next, chunk.start);
    let next = place_front(line, next, *b",\"end\": ", 7);
    let next = place_number(line, next, chunk.end);
    let next = place_front(line, next, *b",\"words\":       ", 9);
    let next = place_number(line, next, chunk.words);
    place_front(line, next, *b",\"text\":\"       ", 9)
}

/// Writes a byte of a JSON string, escaped if needed.
#[inline(always)]
pub fn place_escaped(buf: &mut [u8], at: usize, byte: u8) -> usize
    requires { at + 8 ≤ length buf.old }
    ensures { Placed buf.old buf.new at (escape_byte byte) result }
{
    let letter = escape_letter(byte);
    if letter > 0 {
        return place_front(buf, at, [b'\\', letter], 2);
    }
    if byte < 32 {
        let code = [
            b'\\',
            b'u',
            b'0',
            b'0',
            digit(byte / 16),
            digit(byte % 16),
            0,
            0,
        ];
        return place_front(buf, at, code, 6);
    }
    place_byte(buf, at, byte)
}

/// The letter that escapes a byte after a backslash, or 0 for a byte without one.
#[inline(always)]
fn escape_letter(byte: u8) -> u8
    ensures { result ≡ escape_letter byte }
{
    match byte {
        b'"' | b'\\' => byte,
        0x08 => b'b',
        0x0C => b'f',
        b'\n' => b'n',
        b'\r' => b'r',
        b'\t' => b't',
        _ => 0,
    }
}

/// The hexadecimal digit of a number.
fn digit(number: u8) -> u8
    requires { number < 16 }
    ensures { result ≡ digit_char number }
{
    if number < 10 {
        b'0' + number
    } else {
        b'a' + (number - 10)
    }
}
