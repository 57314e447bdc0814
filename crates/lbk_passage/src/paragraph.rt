//! The text of one paragraph, gathered from the pieces of a feed.

ghost use Rattle.std.specs.Prelude.{◌≤◌, ◌≡◌, ◌&&◌, not, false, string_len, string_capacity};
ghost use Rattle.lbk_feed.specs.Text.{greatest_limit};
ghost use Rattle.lbk_passage.specs.Lent.{IsLent};

use crate::ends::end_before;
use crate::faults::{PassageFault, from_feed};
use crate::known::KnownCells;
use crate::reach::{Reach, ReachEnd, reach_in};
use lbk_feed::{Feed, Source};
use lbk_rules::{CellSource, Class, Verdict};
use std::alloc::{AllocError, Global};

/// The bytes of the paragraph in progress, what was read after them, and how far the paragraph may reach.
#[derive(Drop)]
pub struct Paragraph {
    feed: Feed,
    /// What was gathered, where none of it is lent.
    text: String,
    /// How many bytes of it are lent of the feed, the last that were consumed: all, or none.
    lent: usize,
    limit: u32,
    /// The verdict at the end of the paragraph, where it is held; `None` where no text was left.
    end: Option<Verdict>,
    /// Whether its end was found, and it was not given.
    is_held: bool,
    is_spent: bool,
    ghost few: { limit ≤ greatest_limit },
    ghost room: { limit ≤ string_capacity text },
    ghost within: { string_len text ≤ limit },
    ghost given: { string_len text ≤ feed.given },
    ghost behind: { IsLent lent limit feed },
    ghost spent: { (feed.is_spent && not is_spent) ≡ false },
}

/// A text at the front of the bytes that are ready that is a paragraph.
#[derive(Clone, Copy)]
pub struct Told {
    /// How many bytes it has.
    pub len: usize,
    /// The verdict at its end.
    pub end: Verdict,
}

impl Paragraph {
    ghost use Rattle.std.specs.Prelude.{ℕ, ◌-◌, ◌+◌, ◌<◌, ◌∷◌, true, [], drop, length, OnOk, IfOk, IsCharBoundary};
    ghost use Rattle.lbk_feed.specs.View.{IsFront, LendsFront};
    ghost use Rattle.lbk_passage.specs.State.{bytes_in, state_with, new_state};
    ghost use Rattle.lbk_passage.specs.Stays.{IsWhole};
    ghost use Rattle.lbk_passage.specs.Gathering.{Asks, Reaches, Takes, Moves, ReadsOn, Settles, Gathering, Gathers, Fills};
    ghost use Rattle.lbk_passage.specs.Gathering.{Holds, IsSame};
    ghost use Rattle.lbk_passage.specs.Next.{IsDone, IsOpen};
    ghost use Rattle.lbk_passage.specs.Ahead.{GivesTold, IsTold};
    ghost use Rattle.std.specs.Prelude.{◌||◌, IfSome};
    ghost use Rattle.lbk_rules.specs.declared.Cell.{Cell};
    ghost use Rattle.lbk_values.specs.declared.profile.Profile.{Profile};

    /// A paragraph of at most `limit` bytes, for which room is reserved.
    pub fn new(alloc: Global, limit: u32) -> Result<Paragraph, AllocError>
        requires { limit ≤ greatest_limit }
        ensures state { IfOk result (λ p. (cell : ℕ → Cell) (profile : Profile) → state_with cell profile p
            ≡ new_state cell profile limit) }
        ensures room { IfOk result (λ p. string_capacity p.text ≡ limit) }
    {
        Ok(Paragraph {
            feed: Feed::new(),
            text: String::with_capacity(alloc, limit as usize)?,
            lent: 0,
            limit,
            end: None,
            is_held: false,
            is_spent: false,
        })
    }

    /// The bytes of the paragraph.
    pub fn text(&self) -> &str
        ensures text { result.now ≡ bytes_in self.now }
        ensures few { length result.now ≤ self.now.limit }
        ensures limit { self.now.limit ≤ greatest_limit }
    {
        if self.lent != 0 {
            return self.feed.behind(self.lent);
        }
        self.text.as_str()
    }

    /// How many bytes the paragraph has.
    fn len(&self) -> usize
        ensures len { result ≡ length (bytes_in self.now) }
        ensures within { result ≤ self.now.feed.given }
    {
        if self.lent != 0 {
            return self.lent;
        }
        self.text.len()
    }

    /// The number of bytes of the whole text before the paragraph.
    pub fn start(&self) -> u64
        ensures start { result ≡ self.now.feed.given - length (bytes_in self.now) }
    {
        self.feed.given() - self.len() as u64
    }

    /// How many bytes of the whole text were gathered, up to the end of the paragraph.
    pub fn given(&self) -> u64
        ensures { result ≡ self.now.feed.given }
    {
        self.feed.given()
    }

    /// Releases a paragraph that was already returned.
    pub fn release(&mut self)
        ensures { IsSame self.old self.new false self.old.is_spent }
    {
        self.is_held = false;
    }

    /// The bytes that are ready.
    #[inline(always)]
    pub fn ready(&self) -> &str
        ensures { result.now ≡ self.now.feed.ready }
    {
        self.feed.ready()
    }

    /// The most bytes that it may have.
    #[inline(always)]
    pub fn limit(&self) -> usize
        ensures { result ≡ self.now.limit }
    {
        self.limit as usize
    }

    /// Whether its end was found, and it was not given, or a fault was answered.
    #[inline(always)]
    pub fn is_in_hand(&self) -> bool
        ensures { result ≡ (self.now.is_held || self.now.is_spent) }
    {
        self.is_held || self.is_spent
    }

    /// Gathers the paragraph, unless it is held already, and returns the verdict at its end, or `None` where no text
    /// is left. `told`: the paragraph, where it is known already.
    #[inline(always)]
    pub fn fill<R: Source, C: CellSource>(
        &mut self,
        reader: &mut R,
        known: &KnownCells<'_, C>,
        told: Option<Told>,
    ) -> Result<Option<Verdict>, PassageFault>
        requires told { IfSome told (λ told. IsTold (C.cell_of known.now.cells.now) self.old told) }
        requires whole { self.old.is_held ≡ true → IsWhole (C.cell_of known.now.cells.now) self.old }
        ensures fills { (profile : Profile) → Fills (C.cell_of known.now.cells.now) profile self.old self.new
            (R.unread reader.old) (R.unread reader.new) (R.has_ended reader.old) (R.has_ended reader.new)
            (R.reads_made reader.old) (R.reads_made reader.new) result }
        ensures whole { self.new.is_held ≡ true → IsWhole (C.cell_of known.now.cells.now) self.new }
        ensures end { IfOk result (λ end. end ≡ self.new.end) }
        ensures asks { Asks R.failure_count self.old reader.old reader.new (R.reads_made reader.old).count
            (R.reads_made reader.new).count result }
        ensures again { (profile : Profile) → IsDone (state_with (C.cell_of known.now.cells.now) profile self.old)
            → self.old.is_spent ≡ false → result ≡ Ok None }
        ensures told { IfSome told (λ told. GivesTold self.old self.new told) }
        ensures answers { IfSome told (λ _. result ≡ Ok self.new.end) }
        ensures in_hand { (self.old.is_held || self.old.is_spent) ≡ true → self.new ≡ self.old }
        ensures held { OnOk result (self.new.is_held ≡ true) }
    {
        if self.is_spent {
            return Err(PassageFault::Spent);
        }
        if self.is_held {
            return Ok(self.end);
        }
        self.text.clear();
        self.lent = 0;
        if let Some(told) = told {
            self.lend(told.len, told.end);
            return Ok(self.end);
        }
        let end = self.gather(reader, known)?;
        self.end = end;
        self.is_held = true;
        Ok(end)
    }

    /// Gathers the paragraph if the bytes that are ready settle it: if a line must end before one of their scalars.
    /// Returns whether it is held, or a fault was met, so that the next `fill` makes no read. `told`: the paragraph,
    /// where it is known already.
    pub fn look_ahead<C: CellSource>(
        &mut self,
        known: &KnownCells<'_, C>,
        told: Option<Told>,
    ) -> bool
        requires told { IfSome told (λ told. IsTold (C.cell_of known.now.cells.now) self.old told) }
        requires whole { self.old.is_held ≡ true → IsWhole (C.cell_of known.now.cells.now) self.old }
        ensures state { (cell : ℕ → Cell) (profile : Profile)
            → state_with cell profile self.new ≡ record (state_with cell profile self.old) { is_settled = result } }
        ensures remains { result ≡ false → (profile : Profile)
            → IsOpen (state_with (C.cell_of known.now.cells.now) profile self.old) }
        ensures told { IfSome told (λ told. GivesTold self.old self.new told) }
        ensures in_hand { (self.old.is_held || self.old.is_spent) ≡ true → self.new ≡ self.old }
        ensures whole { self.new.is_held ≡ true → IsWhole (C.cell_of known.now.cells.now) self.new }
    {
        if self.is_held || self.is_spent {
            return true;
        }
        self.text.clear();
        self.lent = 0;
        if let Some(told) = told {
            self.lend(told.len, told.end);
            return true;
        }
        let reach = self.reach(known, None);
        let ReachEnd::LineEnds = reach.stop else {
            return false;
        };
        self.hold(reach.len, end_before(reach.last, true));
        true
    }

    /// Holds the first `len` bytes that are ready as the paragraph, with this verdict at its end.
    /// They are not copied: until the next read they stay in the feed.
    fn lend(&mut self, len: usize, end: Verdict)
        requires place { IsCharBoundary self.old.feed.ready len }
        requires few { len ≤ self.old.limit }
        requires fresh { bytes_in self.old ≡ [] }
        requires gathered { self.old.lent ≡ 0 }
        ensures { Holds self.old self.new len (Some end) }
    {
        // What is ready is a text.
        let _ready = self.feed.ready();
        self.feed.advance(len);
        self.lent = len;
        self.end = Some(end);
        self.is_held = true;
    }

    /// Moves the first `len` bytes that are ready to the end of the text, which is then held, with this verdict at its
    /// end.
    fn hold(&mut self, len: usize, end: Option<Verdict>)
        requires gathered { self.old.lent ≡ 0 }
        requires place { IsCharBoundary self.old.feed.ready len }
        requires room { string_len self.old.text + len ≤ self.old.limit }
        ensures { Holds self.old self.new len end }
    {
        self.move_up(len);
        self.end = end;
        self.is_held = true;
    }

    /// Takes pieces until a line must end before the next scalar, or no text is left. It is not put in line, so that
    /// `fill` is.
    #[inline(never)]
    fn gather<R: Source, C: CellSource>(
        &mut self,
        reader: &mut R,
        known: &KnownCells<'_, C>,
    ) -> Result<Option<Verdict>, PassageFault>
        requires fresh { bytes_in self.old ≡ [] }
        requires gathered { self.old.lent ≡ 0 }
        requires open_end { self.old.is_held ≡ false }
        requires unspent { self.old.is_spent ≡ false }
        ensures gathers { Gathers (C.cell_of known.now.cells.now) self.old self.new
            (R.unread reader.old) (R.unread reader.new) (R.has_ended reader.old) (R.has_ended reader.new)
            (R.reads_made reader.old) (R.reads_made reader.new) result }
        ensures reads_on { ReadsOn R.failure_count self.old.feed reader.old reader.new None result }
    {
        let mut last = None;
        while self.settle(reader)? {
            let reach = self.take(known, last);
            last = reach.last;
            match reach.stop {
                ReachEnd::PieceEnds => {}
                ReachEnd::LineEnds => return Ok(end_before(last, true)),
                ReachEnd::NoRoom => return Err(self.refuse()),
            }
        }
        Ok(end_before(last, false))
    }

    /// Makes sure that a piece is ready, by reads where they are due, and returns whether one is.
    fn settle<R: Source>(&mut self, reader: &mut R) -> Result<bool, PassageFault>
        requires unspent { self.old.is_spent ≡ false }
        requires gathered { self.old.lent ≡ 0 }
        ensures settles { Settles self.old self.new
            (R.unread reader.old) (R.unread reader.new) (R.has_ended reader.old) (R.has_ended reader.new)
            (R.reads_made reader.old) (R.reads_made reader.new) result }
        ensures reads_on { ReadsOn R.failure_count self.old.feed reader.old reader.new false result }
        ensures gathered { self.new.lent ≡ 0 }
    {
        let outcome = self.feed.settle(reader);
        self.is_spent = outcome.is_err();
        match outcome {
            Ok(stands) => Ok(stands),
            Err(fault) => Err(from_feed(fault)),
        }
    }

    /// Takes of the piece that is ready what belongs to the paragraph, after a scalar of class `last`.
    fn take<C: CellSource>(&mut self, known: &KnownCells<'_, C>, last: Option<Class>) -> Reach
        requires gathered { self.old.lent ≡ 0 }
        ensures takes { Takes (C.cell_of known.now.cells.now) last self.old self.new result }
        ensures gathered { self.new.lent ≡ 0 }
    {
        let reach = self.reach(known, last);
        self.move_up(reach.len);
        reach
    }

    /// How far the paragraph reaches into the piece that is ready, after a scalar of class `last`.
    fn reach<C: CellSource>(&self, known: &KnownCells<'_, C>, last: Option<Class>) -> Reach
        requires gathered { self.now.lent ≡ 0 }
        ensures reaches { Reaches (C.cell_of known.now.cells.now) last self.now.feed.ready
            (self.now.limit - string_len self.now.text) result }
        ensures place { IsCharBoundary self.now.feed.ready result.len }
        ensures lends { LendsFront self.now.feed }
        ensures front { IsFront self.now.feed }
    {
        let room = self.limit as usize - self.text.len();
        reach_in(known, last, self.feed.ready(), room)
    }

    /// Moves the first `len` bytes that are ready to the end of the text.
    fn move_up(&mut self, len: usize)
        requires gathered { self.old.lent ≡ 0 }
        requires place { IsCharBoundary self.old.feed.ready len }
        requires room { string_len self.old.text + len ≤ self.old.limit }
        ensures moves { Moves self.old self.new len }
        ensures gathered { self.new.lent ≡ 0 }
        ensures lends { LendsFront self.old.feed }
    {
        let ready = self.feed.ready();
        if self.text.push_str(&ready[..len]).is_err() {
            unreachable!();
        }
        self.feed.advance(len);
    }

    /// The fault of a paragraph that is too long.
    fn refuse(&mut self) -> PassageFault
        ensures same { IsSame self.old self.new self.old.is_held true }
        ensures fault { result ≡ PassageFault.ParagraphTooLong (self.old.feed.given - length (bytes_in self.old)) }
    {
        self.is_spent = true;
        PassageFault::ParagraphTooLong {
            start: self.start(),
        }
    }
}
