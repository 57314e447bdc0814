//! Well-formed pieces of a reader's bytes.

ghost use Rattle.std.specs.Prelude.{◌≡◌, ◌+◌, ◌≤◌, ◌<◌, drop, length, true, false, IfOk, IfSome, IsOkAnd, IsSomeAnd};
ghost use Rattle.std.specs.Prelude.{◌++◌, take, IsUtf8, []};
ghost use Rattle.std.specs.Borrow.{sem};
ghost use Rattle.std.specs.Io.BufRead.{Rests};
ghost use Rattle.std.specs.Str.{IsCharBoundary};
ghost use Rattle.std.specs.Bool.{OnTrue, OnFalse};
ghost use Rattle.lbk_feed.specs.Text.{longest_text};
ghost use Rattle.lbk_feed.specs.View.{new_view, IsFront, LendsFront, AfterCall, AfterPiece, Asks, fault_of};
ghost use Rattle.lbk_feed.specs.View.{last_used};
ghost use Rattle.lbk_feed.specs.contracts.pieces.Feed.{the_row};

use crate::faults::FeedFault;
use crate::intake::Intake;
use crate::traits::Source;
use std::marker::Model;

/// Makes well-formed pieces of UTF-8 from a reader's bytes, for reads of any size (Unicode Standard, Table 3-7).
///
/// Pass the same reader to all calls of a feed. No call allocates.
#[derive(Drop)]
pub struct Feed {
    intake: Intake,
}

impl Model for Feed {
    ghost use Rattle.lbk_feed.specs.View.{View};

    ghost Value = { View };

    ghost use Rattle.lbk_feed.specs.Intake.{view_of};

    ghost view = { λ f. view_of f.intake };
}

impl Feed {
    /// A feed that has read nothing.
    pub fn new() -> Feed
        ensures { result ≡ new_view }
    {
        Feed {
            intake: Intake::new(),
        }
    }

    /// How many bytes were consumed so far; at most 1,073,741,824.
    pub fn given(&self) -> u64
        ensures given { result ≡ self.now.given }
        ensures within { result ≤ longest_text }
    {
        self.intake.given()
    }

    /// The well-formed bytes that were read and not yet consumed.
    pub fn ready(&self) -> &str
        ensures ready { result.now ≡ self.now.ready }
        ensures front { IsFront self.now }
        ensures lends { LendsFront self.now }
    {
        self.intake.ready()
    }

    /// The last `n` bytes that were consumed, all of them since the last read. `advance` keeps them at
    /// hand, and the next read drops them.
    pub fn behind(&self, n: usize) -> &str
        requires within { n ≤ length self.now.behind }
        requires text { IsUtf8 (last_used self.now n) }
        ensures { result.now ≡ last_used self.now n }
    {
        self.intake.behind(n)
    }

    /// Consumes the first `n` bytes of `ready`. `n` must be on a character boundary.
    pub fn advance(&mut self, n: usize)
        requires { IsCharBoundary self.old.ready n }
        ensures used { self.new ≡ record self.old {
          held = drop n self.old.held;
          ready = drop n self.old.ready;
          behind = self.old.behind ++ take n self.old.ready;
          given = self.old.given + n;
        } }
        ensures front { IsFront self.new }
        ensures lends { LendsFront self.new }
    {
        self.intake.use_up(n);
    }

    /// Reads until `ready` has a piece, and returns whether it has one; `false` is the end of the text.
    ///
    /// It is `piece` without the loan: it makes the same reads, and returns the same faults.
    pub fn settle<R: Source>(&mut self, reader: &mut R) -> Result<bool, FeedFault>
        ensures call { AfterCall R.Source self.old self.new reader.old reader.new (fault_of result) }
        ensures asks { Asks R.Source self.old reader.old reader.new (fault_of result) }
        ensures stands { IfOk result (λ stands. OnTrue stands (0 < length self.new.ready)) }
        ensures ends { IfOk result (λ stands. OnFalse stands ((self.new.held ≡ []) × (self.new.is_ended ≡ true))) }
        ensures ready { 0 < length self.old.ready → result ≡ Ok true }
        ensures again { self.old.is_ended ≡ true → self.old.held ≡ [] → self.old.is_spent ≡ false → result ≡ Ok false }
    {
        self.intake.settle(reader)?;
        Ok(!self.intake.ready().is_empty())
    }

    /// The next piece: all ready bytes, at least one; or `None` at the end of the text.
    ///
    /// Bytes that `advance` does not consume are lent again. Errors are `NotUtf8` and `TextTooLong`, once all
    /// well-formed bytes before the fault were consumed; `Read`, if a read failed; and `Spent` after any of these. A
    /// call makes at most four reads.
    pub fn piece<R: Source>(&mut self, reader: &mut R) -> Result<Option<&str>, FeedFault>
        ensures* after_borrow { sem 𝓛 (Rests the_row self.entry (λ new.
            AfterPiece R.Source self.old new reader.old reader.new result)) }
        ensures asks { Asks R.Source self.old reader.old reader.new (fault_of result) }
        ensures some { IfOk result (λ o. IfSome o (λ piece. 0 < length piece.now)) }
        ensures text { IfOk result (λ o. IfSome o (λ piece. IsUtf8 piece.now)) }
        ensures as_ready { 0 < length self.old.ready
            → IsOkAnd result (λ o. IsSomeAnd o (λ piece. piece.now ≡ self.old.ready)) }
        ensures again { self.old.is_ended ≡ true → self.old.held ≡ [] → self.old.is_spent ≡ false → result ≡ Ok None }
    {
        if !self.settle(reader)? {
            return Ok(None);
        }
        Ok(Some(self.ready()))
    }
}
