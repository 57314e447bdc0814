//! The state of a replay: the unfinished line, the output of the last one, and the counts.

ghost use Rattle.std.specs.Prelude.{◌≡◌, ◌≢◌, ◌⊎◌, ℕ, ◌+◌, ◌<◌, ◌≤◌, List, [], ◌∷◌, ◌++◌, length, true, false, OnOk};
ghost use Rattle.std.specs.Prelude.{IfOk, OnErr};
ghost use Rattle.std.specs.Bool.{OnTrue, OnFalse};
ghost use Rattle.lbk_notation.specs.Fault.{longest};
ghost use Rattle.lbk_notation.specs.Stream.{longest_stream};

use super::findings::{Finding, Report, STREAM_MAX};
use super::line_reading::LONGEST;
use super::replay_lines::push_total;
use super::replayer::Replayer;
use lbk_rules::CellSource;
use std::alloc::{AllocError, Global};

const MARK: [u8; 3] = [0xEF, 0xBB, 0xBF];

/// The state of a replay; it holds at most one line of the file.
#[derive(Drop)]
pub struct ReplayState {
    // The bytes after the last LF, unless they are too many for a line.
    line: Vec<u8>,
    is_long: bool,
    // The output of the last line that ended.
    text: Vec<u8>,
    // How many bytes were taken, and how many lines ended.
    taken: u32,
    number: u32,
    report: Report,
    ghost within: { taken ≤ longest_stream },
    ghost short: { length line.items ≤ longest },
    ghost few: { number + length line.items ≤ taken },
    ghost long: { is_long ≡ true → number < taken },
    ghost counted: { report.lines ≤ number },
    ghost sum: { report.agreed + report.differed + report.refused ≡ report.lines },
}

impl ReplayState {
    ghost use Rattle.lbk_rules.specs.declared.Cell.{Cell};
    ghost use Rattle.lbk_values.specs.declared.profile.Profile.{Profile};
    ghost use Rattle.lbk_notation.specs.declared.marks.Form.{Form};
    ghost use Rattle.lbk_notation.specs.Fault.{HasMarks};
    ghost use Rattle.lbk_notation.specs.Findings.{IsFinding};
    ghost use Rattle.lbk_notation.specs.ReplayState.{Holds, Settles, Stands, StandsAtEnd};
    ghost use Rattle.lbk_notation.specs.ReplayText.{total_text};
    ghost use Rattle.lbk_notation.specs.Stream.{byte_order_mark};

    /// Nothing was taken.
    pub fn new(alloc: Global) -> ReplayState
        ensures stands { (cell : ℕ → Cell) (form : Form) (profile : Profile) → Stands cell form profile result [] [] }
        ensures taken { result.taken ≡ 0 }
    {
        ReplayState {
            line: Vec::new(alloc),
            is_long: false,
            text: Vec::new(alloc),
            taken: 0,
            number: 0,
            report: Report::none(),
        }
    }

    /// How many more bytes are allowed.
    pub fn room(&self) -> usize
        ensures { result + self.now.taken ≡ longest_stream }
    {
        STREAM_MAX - self.taken as usize
    }

    /// The output of the last line that ended.
    pub fn text(&self) -> &[u8]
        ensures { result.now ≡ self.now.text.items }
    {
        self.text.as_slice()
    }

    /// The counts of the lines that ended.
    pub fn report(&self) -> Report
        ensures { result ≡ self.now.report }
    {
        self.report
    }

    /// Takes a byte that does not end a line.
    pub fn add(&mut self, byte: u8) -> Result<(), AllocError>
        requires room { self.old.taken < longest_stream }
        requires within_line { byte ≢ 10 }
        ensures stands { (cell : ℕ → Cell) (form : Form) (profile : Profile) (used out : List ℕ)
            → Stands cell form profile self.old used out
            → OnOk result (Stands cell form profile self.new (used ++ byte ∷ []) out) }
        ensures taken { self.new.taken ≡ self.old.taken + 1 }
    {
        self.taken += 1;
        if self.is_long {
            return Ok(());
        }
        if self.line.len() == LONGEST {
            self.line.clear();
            self.is_long = true;
            return Ok(());
        }
        self.line.push(byte)?;
        if self.holds_mark() {
            self.line.clear();
            return Ok(());
        }
        Ok(())
    }

    /// Whether the bytes taken are the byte order mark, and nothing else.
    fn holds_mark(&self) -> bool
        ensures yes { OnTrue result ((self.now.taken ≡ 3) × (self.now.line.items ≡ byte_order_mark)) }
        ensures no { OnFalse result (self.now.taken ≡ 3 → self.now.line.items ≢ byte_order_mark) }
    {
        self.taken == 3 && self.line.as_slice() == MARK.as_slice()
    }

    /// Takes the LF that ends a line, and sets `text` to the output of the line.
    pub fn end_line<C: CellSource>(
        &mut self,
        alloc: Global,
        replayer: &Replayer<C>,
    ) -> Result<(), AllocError>
        requires { self.old.taken < longest_stream }
        ensures stands { (used out : List ℕ)
            → Stands (C.cell_of replayer.now.cells.now) replayer.now.form replayer.now.profile self.old used out
            → OnOk result (Stands (C.cell_of replayer.now.cells.now) replayer.now.form replayer.now.profile
            self.new (used ++ 10 ∷ []) (out ++ self.new.text.items)) }
        ensures taken { self.new.taken ≡ self.old.taken + 1 }
    {
        self.taken += 1;
        self.settle(alloc, replayer)
    }

    /// Ends the last line of the file, unless an LF has ended it, and sets `text` to its output.
    pub fn end_last<C: CellSource>(
        &mut self,
        alloc: Global,
        replayer: &Replayer<C>,
    ) -> Result<(), AllocError>
        ensures stands { (used out : List ℕ)
            → Stands (C.cell_of replayer.now.cells.now) replayer.now.form replayer.now.profile self.old used out
            → OnOk result (StandsAtEnd (C.cell_of replayer.now.cells.now) replayer.now.form replayer.now.profile
            self.new used (out ++ self.new.text.items)) }
    {
        if !self.holds_line() {
            self.text.clear();
            return Ok(());
        }
        self.settle(alloc, replayer)
    }

    /// Whether there are bytes after the last LF.
    fn holds_line(&self) -> bool
        ensures yes { OnTrue result ((self.now.is_long ≡ true) ⊎ (0 < length self.now.line.items)) }
        ensures no { OnFalse result ((self.now.is_long ≡ false) × (self.now.line.items ≡ [])) }
        ensures few { OnTrue result (self.now.number < self.now.taken) }
    {
        if self.is_long {
            return true;
        }
        !self.line.is_empty()
    }

    /// Sets `text` to the line of the counts.
    pub fn total(&mut self) -> Result<(), AllocError>
        ensures text { OnOk result (self.new.text.items ≡ total_text self.old.report) }
        ensures report { self.new.report ≡ self.old.report }
    {
        self.text.clear();
        push_total(&mut self.text, self.report)?;
        Ok(())
    }

    /// Judges the held line, counts it, and sets `text` to its output.
    fn settle<C: CellSource>(
        &mut self,
        alloc: Global,
        replayer: &Replayer<C>,
    ) -> Result<(), AllocError>
        requires { self.old.number < self.old.taken }
        ensures settles { OnOk result (Settles (C.cell_of replayer.now.cells.now) replayer.now.form
            replayer.now.profile self.old self.new) }
        ensures taken { self.new.taken ≡ self.old.taken }
    {
        let finding = self.finding(alloc, replayer)?;
        self.number += 1;
        self.report.count(finding);
        self.line.clear();
        self.is_long = false;
        self.text.clear();
        finding.push_to(&mut self.text, replayer.form, self.number)?;
        Ok(())
    }

    /// The result of the held line.
    fn finding<C: CellSource>(
        &self,
        alloc: Global,
        replayer: &Replayer<C>,
    ) -> Result<Finding, AllocError>
        ensures finding { IfOk result (λ finding. (rest : List ℕ) → Holds rest self.now.line.items self.now.is_long
            → IsFinding (C.cell_of replayer.now.cells.now) replayer.now.form replayer.now.profile rest finding) }
        ensures memory { OnErr result (HasMarks replayer.now.form self.now.line.items) }
    {
        if self.is_long {
            return Ok(Finding::Long);
        }
        replayer.finding(alloc, self.line.as_slice())
    }
}
