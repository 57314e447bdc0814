//! Calls on a text.

use crate::inputs::{Input, cells};
use crate::samples::Sample;
use crate::{breaks, devices, engines, lines, passages, pushes, verdicts};
use lbk_notation::Form;
use lbk_rules::Profile;
use std::alloc::{AllocError, Global};
use test_support::engines::Engine;

/// A call on a text, with the cells of the sample files.
#[derive(Clone, Copy)]
pub enum OnText {
    /// `Segmenter::next`, until the end of the text or a fault.
    Next,
    /// `read_line`.
    ReadLine,
    /// `read_passage_line`.
    ReadPassageLine,
    /// `read_back` of the text's line.
    ReadBack,
    /// `write_line` of the text's line.
    WriteLine,
    /// `mark_text`.
    MarkText,
    /// `push_line` of the text's line.
    PushLine,
    /// `push_passage_line`.
    PushPassageLine,
    /// `show`, `mark` or `segment`.
    Write(Engine),
    /// `break_text`.
    BreakText,
    /// `replay`.
    Replay,
    /// The feed, which allocates nothing.
    Feed,
    /// `decide`, `decide_in`, `decide_all`, `decide_all_in`, which allocate nothing.
    Decide,
    /// Each call of `Machine` and `LateMachine`, and `label`, which allocate nothing.
    Machines,
    /// `Breaks`, in blocks and one by one, and `Stepper`, over pages and over tables, which allocate nothing.
    Breaks,
    /// `replay_line`, which allocates nothing, for the line of a text and the rules' marks of a text, in both forms.
    ReplayLine,
}

impl OnText {
    /// Whether its result depends on the profile.
    pub fn has_profile(self) -> bool {
        !matches!(
            self,
            OnText::ReadLine | OnText::ReadPassageLine | OnText::Feed
        )
    }

    /// Makes what the call needs, makes the call, and returns its result as text.
    pub fn run(
        self,
        alloc: Global,
        (text, limit, form): Sample,
        profile: Profile,
    ) -> Result<String, AllocError> {
        let bytes = text.bytes(alloc)?;
        self.run_on_bytes(alloc, &bytes, (limit, form, profile))
    }

    fn run_on_bytes(
        self,
        alloc: Global,
        bytes: &[u8],
        (limit, form, profile): (u32, Form, Profile),
    ) -> Result<String, AllocError> {
        let cells = cells(alloc)?;
        let input = Input {
            bytes,
            cells: &cells,
            limit,
            profile,
            form,
        };
        self.run_on(alloc, &input)
    }

    fn run_on(self, alloc: Global, input: &Input<'_>) -> Result<String, AllocError> {
        match self {
            OnText::Next => passages::next(alloc, input),
            OnText::ReadLine => lines::read(alloc, input),
            OnText::ReadPassageLine => lines::read_passage(alloc, input),
            OnText::ReadBack => lines::again(alloc, input),
            OnText::WriteLine => lines::write(alloc, input),
            OnText::MarkText => lines::mark(alloc, input),
            OnText::PushLine => pushes::line(alloc, input),
            OnText::PushPassageLine => pushes::passage_line(alloc, input),
            OnText::Write(engine) => engines::write(alloc, engine, input),
            OnText::BreakText => engines::break_text(alloc, input),
            OnText::Replay => engines::replay(alloc, input),
            OnText::Feed => devices::feed(alloc, input),
            OnText::Decide => verdicts::decided(alloc, input),
            OnText::Machines => verdicts::machines(alloc, input),
            OnText::Breaks => breaks::breaks(alloc, input),
            OnText::ReplayLine => lines::replay(alloc, input),
        }
    }
}
