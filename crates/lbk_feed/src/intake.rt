//! The bytes that were read and not yet consumed, and how many of them are well-formed.
#![tactic(auto, unfolding(crate::specs::Intake::view_of))]

ghost use Rattle.std.specs.Prelude.{◌≡◌};
ghost use Rattle.lbk_feed.specs.Block.{items};
ghost use Rattle.lbk_feed.specs.Judge.{IsJudged};

use crate::block::Block;
use crate::faults::FeedFault;
use crate::judge::{Stop, judge};
use crate::limits::TEXT_MAX;
use crate::traits::{Failed, Source};
use std::str;

/// The most reads of one call: at most three bytes are held before a read, each read returns at least one, and four
/// bytes are a scalar or ill-formed.
const READS: usize = 4;

/// The held bytes, how many of them are ready to be lent, and what follows those.
#[derive(Drop)]
pub struct Intake {
    block: Block,
    ready_len: usize,
    stop: Stop,
    given: u64,
    is_ended: bool,
    is_spent: bool,
    ghost judged: { IsJudged (items block) given ready_len stop is_spent },
}

impl Intake {
    ghost use Rattle.std.specs.Prelude.{◌+◌, ◌≤◌, ◌<◌, ◌⊎◌, true, false, length, drop, IfErr, OnOk};
    ghost use Rattle.std.specs.Prelude.{IfSome, IfNone, IsOk, IsUtf8, is_err, [], ◌++◌, take};
    ghost use Rattle.std.specs.Str.{IsCharBoundary};
    ghost use Rattle.lbk_feed.specs.View.{new_view, IsFront, LendsFront, LiesIn, AfterCall, Asks, IsOfText, fault_of};
    ghost use Rattle.lbk_feed.specs.View.{last_used};
    ghost use Rattle.lbk_feed.specs.Intake.{view_of, WantsMore, IsDue, IsSettled, Refills};

    pub fn new() -> Intake
        ensures { view_of result ≡ new_view }
    {
        Intake {
            block: Block::new(),
            ready_len: 0,
            stop: Stop::Whole,
            given: 0,
            is_ended: false,
            is_spent: false,
        }
    }

    pub fn given(&self) -> u64
        ensures given { result ≡ (view_of self.now).given }
        ensures within { result ≤ TEXT_MAX }
    {
        self.given
    }

    pub fn ready(&self) -> &str
        ensures ready { result.now ≡ (view_of self.now).ready }
        ensures front { IsFront (view_of self.now) }
        ensures lends { LendsFront (view_of self.now) }
    {
        let bytes = &self.block.as_slice()[..self.ready_len];
        // SAFETY: `judge` has found these bytes well-formed.
        unsafe { str::from_utf8_unchecked(bytes) }
    }

    /// The last n consumed bytes, where they are still in the block.
    pub fn behind(&self, n: usize) -> &str
        requires within { n ≤ length (view_of self.now).behind }
        requires text { IsUtf8 (last_used (view_of self.now) n) }
        ensures { result.now ≡ last_used (view_of self.now) n }
    {
        let bytes = self.block.behind(n);
        // SAFETY: the contract asks for well-formed bytes.
        unsafe { str::from_utf8_unchecked(bytes) }
    }

    /// Consumes the first n ready bytes.
    pub fn use_up(&mut self, n: usize)
        requires { IsCharBoundary (view_of self.old).ready n }
        ensures held { (view_of self.new).held ≡ drop n (view_of self.old).held }
        ensures ready { (view_of self.new).ready ≡ drop n (view_of self.old).ready }
        ensures behind { (view_of self.new).behind
            ≡ (view_of self.old).behind ++ take n (view_of self.old).ready }
        ensures given { (view_of self.new).given ≡ (view_of self.old).given + n }
        ensures ended { (view_of self.new).is_ended ≡ (view_of self.old).is_ended }
        ensures spent { (view_of self.new).is_spent ≡ (view_of self.old).is_spent }
        ensures front { IsFront (view_of self.new) }
        ensures lends { LendsFront (view_of self.new) }
    {
        self.block.consume(n);
        self.ready_len -= n;
        self.given += n as u64;
    }

    /// Whether nothing is ready, and a read is needed.
    fn wants_more(&self) -> bool
        ensures yes { result ≡ true → WantsMore self.now }
        ensures no { result ≡ false → IsSettled self.now }
    {
        if self.ready_len > 0 || self.stop.is_faulty() {
            return false;
        }
        if self.block.len() as u64 > TEXT_MAX - self.given {
            return false;
        }
        !self.is_ended
    }

    /// The fault of the held bytes, if nothing is ready and no read is needed.
    fn fault(&self) -> Option<FeedFault>
        requires { IsSettled self.now }
        ensures lies { IfSome result (λ e. ((view_of self.now).ready ≡ []) × LiesIn e (view_of self.now)) }
        ensures text { IfSome result IsOfText }
        ensures nothing { (view_of self.now).held ≡ [] → result ≡ None }
        ensures none { IfNone result ((0 < length (view_of self.now).ready)
            ⊎ (((view_of self.now).held ≡ []) × (self.now.is_ended ≡ true))) }
    {
        if self.ready_len > 0 {
            return None;
        }
        if self.stop.is_faulty() {
            return Some(FeedFault::NotUtf8 { at: self.given });
        }
        if self.block.len() as u64 > TEXT_MAX - self.given {
            return Some(FeedFault::TextTooLong);
        }
        if self.block.len() > 0 {
            return Some(FeedFault::NotUtf8 { at: self.given });
        }
        None
    }

    /// Reads once, if a read is needed.
    fn read_more<R: Source>(&mut self, reader: &mut R) -> Result<(), Failed>
        requires { IsDue self.old }
        ensures refills { Refills R.Source self.old self.new reader.old reader.new result }
        ensures grows { OnOk result ((self.new.is_ended ≡ true)
            ⊎ (length (items self.old.block) < length (items self.new.block))) }
        ensures reads { (R.reads_made reader.new).count ≤ (R.reads_made reader.old).count + 1 }
    {
        let n = self.block.read_from(reader)?;
        let judgement = judge(self.block.as_slice(), self.given);
        self.ready_len = judgement.ready_len;
        self.stop = judgement.stop;
        self.is_ended = n == 0;
        Ok(())
    }

    /// Reads until a piece is ready, a fault is certain, or the end is reached.
    fn refill<R: Source>(&mut self, reader: &mut R) -> Result<(), Failed>
        requires { IsDue self.old }
        ensures refills { Refills R.Source self.old self.new reader.old reader.new result }
        ensures settled { OnOk result (IsSettled self.new) }
        ensures reads { (R.reads_made reader.new).count ≤ (R.reads_made reader.old).count + 4 }
    {
        for _ in 0..READS {
            self.read_more(reader)?;
            if !self.wants_more() {
                return Ok(());
            }
        }
        unreachable!()
    }

    /// Returns the fault of the held bytes, and `Spent` from then on.
    fn finish(&mut self) -> Result<(), FeedFault>
        requires settled { IsSettled self.old }
        requires unspent { self.old.is_spent ≡ false }
        ensures view { view_of self.new ≡ record (view_of self.old) { is_spent = is_err result } }
        ensures text { IfErr result IsOfText }
        ensures lies { IfErr result (λ e. ((view_of self.old).ready ≡ []) × LiesIn e (view_of self.old)) }
        ensures found { OnOk result ((0 < length (view_of self.old).ready)
            ⊎ (((view_of self.old).held ≡ []) × (self.old.is_ended ≡ true))) }
        ensures nothing { (view_of self.old).held ≡ [] → IsOk result }
    {
        match self.fault() {
            None => Ok(()),
            Some(fault) => {
                self.is_spent = true;
                Err(fault)
            }
        }
    }

    /// Reads until a piece is ready or the end is reached.
    pub fn settle<R: Source>(&mut self, reader: &mut R) -> Result<(), FeedFault>
        ensures call { AfterCall R.Source (view_of self.old) (view_of self.new) reader.old reader.new
            (fault_of result) }
        ensures asks { Asks R.Source (view_of self.old) reader.old reader.new (fault_of result) }
        ensures again { (view_of self.old).is_ended ≡ true → (view_of self.old).held ≡ []
            → (view_of self.old).is_spent ≡ false → IsOk result }
    {
        if self.is_spent {
            return Err(FeedFault::Spent);
        }
        if !self.wants_more() {
            return self.finish();
        }
        if self.refill(reader).is_err() {
            self.is_spent = true;
            return Err(FeedFault::Read);
        }
        self.finish()
    }
}
