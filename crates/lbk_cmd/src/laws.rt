//! Laws about the calls, over definitions only. Each is the contract of a function with an empty body.

ghost use Rattle.std.specs.Prelude.{ℕ, ◌+◌, ◌*◌, ◌≤◌, ◌↔◌, ◌∷◌, Bool, List, [], Option, None, Some, length};
ghost use Rattle.std.specs.Prelude.{encode_utf8_all};
ghost use Rattle.std.specs.Prelude.{◌≡◌};
ghost use Rattle.std.specs.Char.{IsScalar};
ghost use Rattle.std.specs.List.{AllByRecursion, flat_map};
ghost use Rattle.lbk_notation.specs.declared.marks.Form.TheVariants.{Kinds};
ghost use Rattle.lbk_notation.specs.Grammar.{IsLine};
ghost use Rattle.lbk_notation.specs.Shown.{passage_line, passage_marks};
ghost use Rattle.lbk_passage.specs.Marks.{Marked, scalars_of, text_of};
ghost use Rattle.lbk_cmd.specs.Show.{shown_passage, verdicts_of};
ghost use Rattle.lbk_ucd.specs.declared.tables.Files.{Files};
ghost use Rattle.lbk_rules.specs.declared.Cell.{Cell};
ghost use Rattle.lbk_values.specs.declared.profile.Profile.{Profile};
ghost use Rattle.lbk_passage.specs.Joins.{AreParts, of_parts};
ghost use Rattle.lbk_passage.specs.Next.{IsPassage};
ghost use Rattle.lbk_passage.specs.Passages.{passages};
ghost use Rattle.lbk_passage.specs.State.{State};
ghost use Rattle.lbk_passage.specs.declared.passage.Passage.{Passage};
ghost use Rattle.lbk_passage.specs.Lines.{segmented_passage};
ghost use Rattle.lbk_files.specs.Cells.{AreCellsOf};
ghost use Rattle.lbk_cmd.specs.Headline.{ArePassagesBy, ArePassagesOf};
ghost use Rattle.lbk_rules.specs.Unicode.{unicode_cell};
ghost use Rattle.lbk_cmd.specs.Owned.{AreRead, Owned, lent_as, owned_passage};
ghost use Rattle.lbk_cmd.specs.Engines.{lines_of};
ghost use Rattle.lbk_cmd.specs.Parts.{DiffersInLabel, lines_in, shown_in};
ghost use Rattle.lbk_cmd.specs.Ranges.{AreRanges, end_of_ranges, text_by_ranges, text_within};
ghost use Rattle.lbk_cmd.specs.declared.engine.Lines.{Lines};
ghost use Rattle.lbk_cmd.specs.Texts.{lines_from, segment_text, show_text, signed_text};
ghost use Rattle.lbk_chunks.specs.declared.chunk.Chunk.{Chunk};
ghost use Rattle.lbk_chunks.specs.declared.chunk.Limits.{Limits};
ghost use Rattle.lbk_chunks.specs.Chunks.{AreChunks, text_start};
ghost use Rattle.lbk_chunk_reader.specs.Cuts.{cuts_of_passages};
ghost use Rattle.lbk_cmd.specs.Chunk.{Wanted, chunk_lines, lines_by_ranges};
ghost use Rattle.lbk_args.specs.Task.{Task};
ghost use Rattle.lbk_files.specs.Store.{LoadCounts};
ghost use Rattle.lbk_cmd.specs.Acts.{Performs, PerformsAlone};
ghost use Rattle.lbk_cmd.specs.Operands.{Standing};

use lbk_files::Opens;

/// For all property files, every text and either profile: the passages, joined, are the text; their breaks are the
/// positions, kinds and rules that the first matching rule gives on the whole text (UAX #14, section 6); and the line
/// written for each passage is read back as its scalars and marks.
///
/// `read_cells` returns such cells for files that it accepts, `show` writes the lines of these passages for bytes cut
/// in any way, and `read_line` accepts exactly the lines of the grammar.
pub fn headline()
    ensures holds { (files : Files) (profile : Profile) (cell : ℕ → Cell) (text : List ℕ) → AreCellsOf files cell
        → AllByRecursion (λ scalar. IsScalar scalar) text
        → ArePassagesOf files profile text (passages profile cell text) }
    // No other cutting of the text has these properties.
    ensures only { (files : Files) (profile : Profile) (cell : ℕ → Cell) (text : List ℕ) (other : List (List Marked))
        → AreCellsOf files cell → AllByRecursion (λ scalar. IsScalar scalar) text
        → ArePassagesOf files profile text other
        → other ≡ passages profile cell text }
{}

/// The same for the cells of Unicode 15.0 that are built in.
pub fn unicode_headline()
    ensures holds { (profile : Profile) (text : List ℕ) → AllByRecursion (λ scalar. IsScalar scalar) text
        → ArePassagesBy unicode_cell profile text (passages profile unicode_cell text) }
    ensures only { (profile : Profile) (text : List ℕ) (other : List (List Marked))
        → ArePassagesBy unicode_cell profile text other → other ≡ passages profile unicode_cell text }
{}

/// The result of `read_passages` depends only on the files and the bytes of the text, not on how the reader cuts them;
/// and it is what a segmenter lends.
pub fn passages_of_bytes()
    ensures once { (files : Files) (profile : Profile) (bytes : List ℕ) (one other : List Owned)
        → AreRead files profile (Some bytes) one → AreRead files profile (Some bytes) other → one ≡ other }
    ensures lent { (s : State) (ms : List Marked) (p : Passage) → IsPassage s ms p → lent_as p
        ≡ owned_passage s.cell p.start ms }
{}

/// A passage's line has at most 12 bytes per byte of the passage's text and 9 more, including its line end. Without its
/// line end it is a line of the notation in form Kinds, which means the passage's scalars and marks.
pub fn shown_lines()
    ensures short { (ms : List Marked) → length (shown_passage ms) ≤ 12 * length (text_of ms) + 9 }
    ensures says { (ms : List Marked) → AllByRecursion (λ scalar. IsScalar scalar) (scalars_of ms)
        → IsLine Kinds (passage_line (scalars_of ms) (verdicts_of ms))
        (Some (passage_marks (scalars_of ms) (verdicts_of ms))) }
{}

/// The output for a text is that for its parts, if there is a required break between each two. `mark` writes for each
/// part what it writes for the part as a separate text. So does `show`, except the last label of a part: it is 3 in a
/// separate text, and 4 or 5 if another part follows. `segment` writes that rule, too, and the offsets in the whole
/// text.
pub fn joined_lines()
    ensures mark { (sign : List ℕ) (profile : Profile) (cell : ℕ → Cell) (parts : List (List ℕ)) → AreParts cell parts
        → signed_text sign cell (passages profile cell (flat_map (λ part. part) parts))
        ≡ flat_map (λ part. signed_text sign cell (passages profile cell part)) parts }
    ensures show { (profile : Profile) (cell : ℕ → Cell) (parts : List (List ℕ)) → AreParts cell parts
        → show_text (passages profile cell (flat_map (λ part. part) parts)) ≡ of_parts (shown_in profile cell) 0 parts }
    ensures segment { (profile : Profile) (cell : ℕ → Cell) (parts : List (List ℕ)) → AreParts cell parts
        → segment_text cell (passages profile cell (flat_map (λ part. part) parts))
        ≡ of_parts (lines_in (segmented_passage cell) profile cell) 0 parts }
    ensures label { (profile : Profile) (cell : ℕ → Cell) (first : ℕ) (rest : List ℕ)
        → DiffersInLabel profile cell (first ∷ rest) }
{}

/// The outputs for adjacent ranges, joined, are the output for the range of all of them: `mark`, `show` and `segment`
/// over ranges that tile a text write what they write for the text.
pub fn joined_ranges()
    ensures whole { (lines : Lines) (profile : Profile) (cell : ℕ → Cell) (text : List ℕ) (tos : List ℕ)
        → AreRanges 0 tos
        → length (encode_utf8_all text) ≤ end_of_ranges 0 tos
        → text_by_ranges (lines_of lines cell) 0 tos (passages profile cell text)
        ≡ lines_from (lines_of lines cell) 0 (passages profile cell text) }
    ensures range { (lines : Lines) (profile : Profile) (cell : ℕ → Cell) (text : List ℕ) (from : ℕ) (tos : List ℕ)
        → AreRanges from tos
        → text_by_ranges (lines_of lines cell) from tos (passages profile cell text)
        ≡ text_within (lines_of lines cell) from (end_of_ranges from tos) (passages profile cell text) }
{}

/// The outputs of `chunk` for adjacent ranges, joined, are its output for the range of all of them: over ranges that
/// tile a text, its output for the text.
pub fn joined_ranges_of_chunks()
    ensures { (wanted : Wanted) (limits : Limits) (cell : ℕ → Cell) (passages : List (List Marked)) (chunks : List Chunk)
        (tos : List ℕ)
        → AreChunks limits (cuts_of_passages cell 0 0 passages) text_start chunks
        → AreRanges 0 tos → length (flat_map text_of passages) ≤ end_of_ranges 0 tos
        → lines_by_ranges wanted (flat_map text_of passages) 0 tos chunks
        ≡ chunk_lines (record wanted { range = None }) (flat_map text_of passages) chunks }
{}

/// For a task that names no text `run_over_texts` does what `run` does, with any files, and reports nothing about them.
pub fn one_run_without_texts<T: Opens>(texts: &T)
    ensures { (file : List ℕ → Option (Option (List ℕ))) (task : Task) (counts after_counts : LoadCounts)
        (before after : Standing)
        → task.texts ≡ []
        → (Performs T.File.Source file (T.contents texts.now) task counts after_counts before after
        ↔ ((after.refused ≡ before.refused)
        × PerformsAlone file task counts after_counts before.devices after.devices after.ending)) }
{}
