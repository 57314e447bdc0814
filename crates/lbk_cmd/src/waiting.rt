//! The lines of chunks, in a buffer of fixed size: no memory grows for them.

ghost use Rattle.std.specs.Prelude.{◌≡◌, ◌+◌, ◌≤◌, [], length, decimal};
ghost use Rattle.std.specs.Prelude.{OnOk, option_map};
ghost use Rattle.lbk_passage.specs.Shown.{state_of};
ghost use Rattle.lbk_passage.specs.Placing.{Placed, PlacedIn};
ghost use Rattle.lbk_chunk_reader.specs.Numbered.{numbered_chunk};
ghost use Rattle.json.specs.Print.{escape};
ghost use Rattle.lbk_cmd.specs.Chunk.{chunk_line, is_asked, line_in, object_line, wanted_of};
ghost use Rattle.lbk_cmd.specs.Objects.{opening};
ghost use Rattle.lbk_cmd.specs.Writing.{PutsBehind, WritesDue, WritesOut};

use super::chunked::Asked;
use super::objects::{place_escaped, place_front_of_object};
use itoa::write_digits;
use lbk_args::Part;
use lbk_chunk_reader::Chunk;
use lbk_feed::{Failed, Sink, write_all};
use lbk_passage::Segmenter;
use lbk_passage::lines::{place_byte, place_front, place_kind};
use lbk_rules::CellSource;

/// How many bytes are buffered at most.
const ROOM: usize = 16_384;

/// Room for a line, and for what its parts write past its end.
const LINE: usize = 128;

/// The most digits of a number.
const DIGITS: usize = 20;

/// Buffered lines.
#[derive(Drop)]
pub(crate) struct Waiting {
    bytes: [u8; ROOM],
    len: usize,
    ghost few: { len ≤ 16384 },
}

impl Waiting {
    ghost use Rattle.lbk_cmd.specs.Waiting.{waiting_in};

    /// No lines.
    pub fn new() -> Waiting
        ensures { waiting_in result ≡ [] }
    {
        Waiting {
            bytes: [0; ROOM],
            len: 0,
        }
    }

    /// Writes the lines.
    pub fn write<W: Sink>(&mut self, writer: &mut W) -> Result<(), Failed>
        ensures out { WritesOut W.Sink writer.old writer.new (waiting_in self.old) (waiting_in self.new) result }
        ensures empty { OnOk result (self.new.len ≡ 0) }
    {
        write_all(writer, &self.bytes[..self.len])?;
        self.len = 0;
        Ok(())
    }

    /// Writes the lines, unless the bytes read settle the next passage.
    pub fn write_due<W: Sink, C: CellSource>(
        &mut self,
        segmenter: &mut Segmenter<'_, C>,
        writer: &mut W,
    ) -> Result<(), Failed>
        ensures { WritesDue W.Sink writer.old writer.new (state_of C.cell_of segmenter.old)
            (state_of C.cell_of segmenter.new) (waiting_in self.old) (waiting_in self.new) result }
    {
        if segmenter.look_ahead() {
            return Ok(());
        }
        self.write(writer)
    }

    /// Appends the line of a chunk, if it is in the range: an object if its text is given.
    pub fn push<W: Sink>(
        &mut self,
        asked: Asked<'_>,
        chunk: &Chunk,
        text: Option<&[u8]>,
        writer: &mut W,
    ) -> Result<(), Failed>
        ensures { PutsBehind W.Sink writer.old writer.new (waiting_in self.old) (waiting_in self.new)
            (line_in (wanted_of asked.entry) (option_map (λ bytes. bytes.now) text.entry) (numbered_chunk chunk.now)) result }
    {
        if !is_asked(asked.range, chunk.start) {
            return Ok(());
        }
        match text {
            None => self.push_place(chunk, writer),
            Some(text) => self.push_object(asked.file, chunk, text, writer),
        }
    }

    /// Appends the line `C` of a chunk.
    fn push_place<W: Sink>(&mut self, chunk: &Chunk, writer: &mut W) -> Result<(), Failed>
        ensures { PutsBehind W.Sink writer.old writer.new (waiting_in self.old) (waiting_in self.new)
            (chunk_line (numbered_chunk chunk.now)) result }
    {
        self.make_room(writer)?;
        self.len = place_chunk(&mut self.bytes, self.len, chunk);
        Ok(())
    }

    /// Appends the object of a chunk with this text, and the name of its file.
    fn push_object<W: Sink>(
        &mut self,
        file: Option<&str>,
        chunk: &Chunk,
        text: &[u8],
        writer: &mut W,
    ) -> Result<(), Failed>
        ensures { PutsBehind W.Sink writer.old writer.new (waiting_in self.old) (waiting_in self.new)
            (object_line (option_map (λ name. name.now) file.entry) text.now (numbered_chunk chunk.now)) result }
    {
        self.push_opening(file, writer)?;
        self.make_room(writer)?;
        self.len = place_front_of_object(&mut self.bytes, self.len, chunk);
        self.push_escaped(text, writer)?;
        self.make_room(writer)?;
        self.len = place_front(&mut self.bytes, self.len, *b"\"}\n ", 3);
        Ok(())
    }

    /// Appends the first bytes of an object.
    fn push_opening<W: Sink>(&mut self, file: Option<&str>, writer: &mut W) -> Result<(), Failed>
        ensures { PutsBehind W.Sink writer.old writer.new (waiting_in self.old) (waiting_in self.new)
            (opening (option_map (λ name. name.now) file.entry)) result }
    {
        self.make_room(writer)?;
        let Some(name) = file else {
            self.len = place_byte(&mut self.bytes, self.len, b'{');
            return Ok(());
        };
        self.len = place_front(&mut self.bytes, self.len, *b"{\"file\":\"       ", 9);
        self.push_escaped(name.as_bytes(), writer)?;
        self.make_room(writer)?;
        self.len = place_front(&mut self.bytes, self.len, *b"\",", 2);
        Ok(())
    }

    /// Appends a text as the content of a JSON string.
    fn push_escaped<W: Sink>(&mut self, text: &[u8], writer: &mut W) -> Result<(), Failed>
        ensures { PutsBehind W.Sink writer.old writer.new (waiting_in self.old) (waiting_in self.new)
            (escape text.now) result }
    {
        let mut left = text;
        while let Some((byte, rest)) = left.split_first() {
            self.make_room(writer)?;
            self.len = place_escaped(&mut self.bytes, self.len, *byte);
            left = rest;
        }
        Ok(())
    }

    /// Writes the lines if there is no room for one more.
    fn make_room<W: Sink>(&mut self, writer: &mut W) -> Result<(), Failed>
        ensures puts { PutsBehind W.Sink writer.old writer.new (waiting_in self.old) (waiting_in self.new) [] result }
        ensures room { OnOk result (self.new.len + 128 ≤ 16384) }
    {
        if self.len > ROOM - LINE {
            self.write(writer)?;
        }
        Ok(())
    }
}

/// Whether a chunk that begins at this byte is in the range.
fn is_asked(range: Option<Part>, start: usize) -> bool
    ensures { result ≡ is_asked range start }
{
    match range {
        None => true,
        Some(range) => range.from as usize <= start && start < range.to as usize,
    }
}

/// Writes the line of a chunk.
fn place_chunk(line: &mut [u8], at: usize, chunk: &Chunk) -> usize
    requires { at + 128 ≤ length line.old }
    ensures { PlacedIn line.old line.new at 128 (chunk_line (numbered_chunk chunk.now)) result }
{
    let next = place_front(line, at, *b"C ", 2);
    let next = place_number(line, next, chunk.start);
    let next = place_byte(line, next, b' ');
    let next = place_number(line, next, chunk.end);
    let next = place_byte(line, next, b' ');
    let next = place_number(line, next, chunk.words);
    let next = place_kind(line, next, chunk.kind);
    let next = place_few(line, next, chunk.rule.label().as_bytes());
    place_byte(line, next, b'\n')
}

/// Writes the digits of a number.
pub(crate) fn place_number(line: &mut [u8], at: usize, number: usize) -> usize
    requires { at + 20 ≤ length line.old }
    ensures { PlacedIn line.old line.new at 20 (decimal number) result }
{
    let mut room = [0; DIGITS];
    let start = write_digits(number as u64, &mut room, DIGITS);
    let digits = &room[start..];
    let behind = at + digits.len();
    line[at..behind].copy_from_slice(digits);
    behind
}

/// Writes a text of at most three bytes.
#[inline(always)]
fn place_few(buf: &mut [u8], at: usize, text: &[u8]) -> usize
    requires { (length text.now ≤ 3) × (at + 3 ≤ length buf.old) }
    ensures { Placed buf.old buf.new at text.now result }
{
    match text {
        [] => at,
        [only] => place_byte(buf, at, *only),
        [first, second] => {
            let next = place_byte(buf, at, *first);
            place_byte(buf, next, *second)
        }
        [first, second, third, ..] => {
            let next = place_byte(buf, at, *first);
            let last = place_byte(buf, next, *second);
            place_byte(buf, last, *third)
        }
    }
}
