//! Laws about the definitions of test files and replays. Each is the contract of a function with an empty body.

ghost use Rattle.std.specs.Prelude.{◌≡◌, ℕ, List, ◌++◌};
ghost use Rattle.std.specs.List.{AllByRecursion};
ghost use Rattle.lbk_rules.specs.declared.Cell.{Cell};
ghost use Rattle.lbk_values.specs.declared.profile.Profile.{Profile};
ghost use Rattle.lbk_notation.specs.declared.findings.Finding.{Finding};
ghost use Rattle.lbk_notation.specs.declared.findings.Report.{Report};
ghost use Rattle.lbk_notation.specs.declared.marks.Form.{Form};
ghost use Rattle.lbk_notation.specs.Findings.{IsFinding};
ghost use Rattle.lbk_notation.specs.Replay.{IsEndedText, IsReplayText};
ghost use Rattle.lbk_notation.specs.Stream.{HasNoLineEnd, cut_of, ended_lines, with_line_ends, without_mark};

/// A file without its byte order mark is its lines, each with its LF, and the text after the last LF; none of these has
/// an LF.
pub fn lines_make_up_the_file()
    ensures whole { (bytes : List ℕ) → with_line_ends (ended_lines bytes) ++ (cut_of bytes).rest ≡ without_mark bytes }
    ensures lines { (bytes : List ℕ) → AllByRecursion HasNoLineEnd (ended_lines bytes) }
    ensures rest { (bytes : List ℕ) → HasNoLineEnd (cut_of bytes).rest }
{}

/// A line has only one result, so a file has one replay text and one report.
pub fn one_replay_text()
    ensures line { (cell : ℕ → Cell) (form : Form) (profile : Profile) (bytes : List ℕ) (finding other : Finding)
        → IsFinding cell form profile bytes finding → IsFinding cell form profile bytes other → other ≡ finding }
    ensures file { (cell : ℕ → Cell) (form : Form) (profile : Profile) (bytes : List ℕ) (report other : Report)
        (out another : List ℕ)
        → IsReplayText cell form profile bytes report out → IsReplayText cell form profile bytes other another
        → (other ≡ report) × (another ≡ out) }
{}

/// The output of ended lines does not depend on what follows: it is a prefix of the output of more bytes, and of the
/// replay text of each file that continues them.
pub fn settled_text_stays()
    ensures more { (cell : ℕ → Cell) (form : Form) (profile : Profile) (bytes more out longer : List ℕ)
        → IsEndedText cell form profile bytes out → IsEndedText cell form profile (bytes ++ more) longer
        → (later : List ℕ) × (longer ≡ out ++ later) }
    ensures whole { (cell : ℕ → Cell) (form : Form) (profile : Profile) (bytes more out whole : List ℕ)
        (report : Report)
        → IsEndedText cell form profile bytes out → IsReplayText cell form profile (bytes ++ more) report whole
        → (later : List ℕ) × (whole ≡ out ++ later) }
{}
