//! The text that `mark` writes for a passage.

ghost use Rattle.std.specs.Prelude.{◌≡◌, ◌+◌, ◌-◌, ◌≤◌, ◌++◌, List, drop, length, map, slice_range, take, IfOk};
ghost use Rattle.std.specs.Prelude.{None, false};
ghost use Rattle.std.specs.List.{last_or};
ghost use Rattle.std.specs.Option.{option_map_or};
ghost use Rattle.std.specs.Str.{chars};
ghost use Rattle.lbk_rules.specs.Breaks.{breaks};
ghost use Rattle.lbk_rules.specs.declared.Break.{Break};
ghost use Rattle.lbk_bytes.specs.Order.{AreBreaks};
ghost use Rattle.lbk_bytes.specs.Shown.{raw_of, shown};
ghost use Rattle.lbk_passage.specs.Adding.{Adds};
ghost use Rattle.lbk_passage.specs.Placing.{Placed};
ghost use Rattle.lbk_cmd.specs.Mark.{is_line_end, missing_line_end, sign};
ghost use Rattle.lbk_cmd.specs.Signing.{IsCut, signed_from};

use lbk_bytes::RawBreak;
use lbk_passage::RawBreaks;
use lbk_passage::lines::place_front;
use lbk_rules::{Cell, CellSource, Profile};
use std::alloc::AllocError;

/// How many breaks are found at a time.
const BLOCK: usize = 64;

/// How many bytes of a text and its signs are gathered before they are appended.
const PART: usize = 1024;

/// The most bytes of a short piece.
const WIDE: usize = 32;

/// The most bytes of a sign that is gathered.
const SIGN: usize = 8;

/// The number of `Kind::May`.
const MAY: u8 = 1;

/// Buffers: for the breaks that are found at a time, and for the text and its signs before they are appended.
#[derive(Drop)]
pub struct Room {
    block: [RawBreak; BLOCK],
    part: [u8; PART],
}

/// Empty buffers. A run fills them with zeros once, and not for each passage.
pub const NOTHING_PUT: Room = Room {
    block: [RawBreak {
        at: 0,
        kind: 0,
        rule: 0,
    }; BLOCK],
    part: [0; PART],
};

/// Appends the text of a passage to `out`, with a mark at each position where a line may end, and with a line end if
/// the text has none. The content of `room` is overwritten. After an error some of it may be appended.
#[tactic(auto, using(lbk_passage::proofs::Places::front_append))]
pub fn push_signed<C: CellSource>(
    out: &mut Vec<u8>,
    mark: &str,
    cells: &C,
    profile: Profile,
    text: &str,
    room: &mut Room,
) -> Result<(), AllocError>
    ensures { Adds out.old.items out.new.items
        (signed_from mark.now text.now 0 (breaks profile (C.cell_of cells.now) (chars text.now))
        ++ missing_line_end (C.cell_of cells.now) (chars text.now)) result }
{
    push_text(out, mark, text, RawBreaks::new(cells, text, profile), room)?;
    if !ends_in_line_end(cells, text) {
        out.push(b'\n')?;
    }
    Ok(())
}

/// Appends a text with the signs of these breaks to `out`.
fn push_text<C: CellSource>(
    out: &mut Vec<u8>,
    mark: &str,
    text: &str,
    mut breaks: RawBreaks<'_, C>,
    room: &mut Room,
) -> Result<(), AllocError>
    requires { IsCut 0 (length text.now) breaks }
    ensures { Adds out.old.items out.new.items (signed_from mark.now text.now 0 breaks.entry) result }
{
    let bytes = text.as_bytes();
    let mut done = 0;
    loop {
        let count = breaks.fill(&mut room.block);
        done = push_block(out, mark, bytes, &room.block[..count], done, &mut room.part)?;
        if count < BLOCK {
            return push_rest(out, bytes, done);
        }
    }
}

/// Appends the text from byte `start` on to `out`.
fn push_rest(out: &mut Vec<u8>, text: &[u8], start: usize) -> Result<(), AllocError>
    requires { start ≤ length text.now }
    ensures { Adds out.old.items out.new.items (drop start text.now) result }
{
    out.extend_from_slice(&text[start..])
}

/// Appends the text from byte `start` up to the last of these breaks to `out`, with their signs, and returns where the
/// rest begins.
#[tactic(auto, using(lbk_passage::proofs::Places::front_append))]
fn push_block(
    out: &mut Vec<u8>,
    mark: &str,
    text: &[u8],
    block: &[RawBreak],
    start: usize,
    part: &mut [u8; PART],
) -> Result<usize, AllocError>
    requires breaks { AreBreaks block.now (length block.now) }
    requires cut { IsCut start (length text.now) (map shown block.now) }
    ensures put { IfOk result (λ next. (more : List Break)
        → out.new.items ++ signed_from mark.now text.now next more ≡ out.old.items
        ++ signed_from mark.now text.now start (map shown block.now ++ more)) }
    ensures cut { IfOk result (λ next. (more : List Break)
        → IsCut start (length text.now) (map shown block.now ++ more) → IsCut next (length text.now) more) }
    ensures kept { take (length out.old.items) out.new.items ≡ out.old.items }
{
    let mut next = 0;
    let mut done = start;
    while next < block.len() {
        let put = place_block(part, mark, text, block, next, done);
        out.extend_from_slice(&part[..put.len])?;
        next = put.next;
        done = put.done;
        if next < block.len() {
            push_one(out, mark, text, block[next], done)?;
            done = block[next].at;
            next += 1;
        }
    }
    Ok(done)
}

/// How far the breaks of a block were put into a part.
#[derive(Clone, Copy)]
struct Put {
    /// The index of the next break.
    next: usize,
    /// Where the text behind the last break begins.
    done: usize,
    /// How many bytes of the part are filled.
    len: usize,
}

/// Fills the part with the text from byte `start` on and the signs of the breaks from index `from` on, as many breaks as
/// it has room for: none if the sign or the next piece is too long.
fn place_block(
    part: &mut [u8; PART],
    mark: &str,
    text: &[u8],
    block: &[RawBreak],
    from: usize,
    start: usize,
) -> Put
    requires from { from ≤ length block.now }
    requires breaks { AreBreaks block.now (length block.now) }
    requires cut { IsCut start (length text.now) (drop from (map shown block.now)) }
    ensures within { (from ≤ result.next) × (result.next ≤ length block.now) × (result.len ≤ 1024) }
    ensures put { (more : List Break) → take result.len part.new
        ++ signed_from mark.now text.now result.done (drop result.next (map shown block.now) ++ more)
        ≡ signed_from mark.now text.now start (drop from (map shown block.now) ++ more) }
    ensures cut { (more : List Break) → IsCut start (length text.now) (drop from (map shown block.now) ++ more)
        → IsCut result.done (length text.now) (drop result.next (map shown block.now) ++ more) }
{
    let mut put = Put {
        next: from,
        done: start,
        len: 0,
    };
    if SIGN < mark.len() {
        return put;
    }
    let sign = sign_bytes(mark);
    while put.next < block.len() {
        let one = block[put.next];
        if PART - WIDE < put.len + (one.at - put.done) {
            return put;
        }
        let behind = place_piece(part, put.len, text, put.done, one.at);
        put = Put {
            next: put.next + 1,
            done: one.at,
            len: place_front(part, behind, sign, sign_len(mark, one)),
        };
    }
    put
}

/// Copies the bytes of a text between two offsets into a buffer, and returns the index after them. A short piece is
/// copied as 32 bytes where the text has as many: a copy of a fixed size needs no call.
#[inline(always)]
fn place_piece(buf: &mut [u8], at: usize, text: &[u8], from: usize, to: usize) -> usize
    requires text { (from ≤ to) × (to ≤ length text.now) }
    requires room { (at + 32 ≤ length buf.old) × (at + (to - from) ≤ length buf.old) }
    ensures { Placed buf.old buf.new at (slice_range text.now from to) result }
{
    let len = to - from;
    if len <= WIDE && WIDE <= text.len() - from {
        let mut front = [0; WIDE];
        front.copy_from_slice(&text[from..from + WIDE]);
        return place_front(buf, at, front, len);
    }
    buf[at..at + len].copy_from_slice(&text[from..to]);
    at + len
}

/// The bytes of a sign, in an array.
fn sign_bytes(mark: &str) -> [u8; SIGN]
    requires { length mark.now ≤ 8 }
    ensures { take (length mark.now) result ≡ mark.now }
{
    let mut bytes = [0; SIGN];
    bytes[..mark.len()].copy_from_slice(mark.as_bytes());
    bytes
}

/// How many bytes of a sign stand at a break: all or none.
#[inline(always)]
fn sign_len(mark: &str, one: RawBreak) -> usize
    ensures few { result ≤ length mark.now }
    ensures sign { (found : Break) → one ≡ raw_of found → take result mark.now ≡ sign mark.now found.kind }
{
    if one.kind == MAY { mark.len() } else { 0 }
}

/// Appends the text from byte `start` up to a break to `out`, with its sign.
#[tactic(auto, using(lbk_passage::proofs::Places::front_append))]
fn push_one(
    out: &mut Vec<u8>,
    mark: &str,
    text: &[u8],
    one: RawBreak,
    start: usize,
) -> Result<(), AllocError>
    requires text { (start ≤ one.at) × (one.at ≤ length text.now) }
    ensures { (found : Break) → one ≡ raw_of found → Adds out.old.items out.new.items
        (slice_range text.now start one.at ++ sign mark.now found.kind) result }
{
    out.extend_from_slice(&text[start..one.at])?;
    out.extend_from_slice(&mark.as_bytes()[..sign_len(mark, one)])
}

/// Whether the last scalar is a line end (rules LB4 and LB5).
fn ends_in_line_end<C: CellSource>(cells: &C, text: &str) -> bool
    ensures { result ≡ option_map_or (λ c. is_line_end (C.cell_of cells.now c)) (last_or None (chars text.now)) false }
{
    match text.chars().next_back() {
        Some(last) => is_line_end(cells.cell(last)),
        None => false,
    }
}

fn is_line_end(cell: Cell) -> bool
    ensures { result ≡ is_line_end cell }
{
    cell.class.ends_line()
}
