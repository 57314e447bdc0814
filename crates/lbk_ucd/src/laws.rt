//! Laws about the definitions. Each is the contract of a function with an empty body.
ghost use Rattle.std.specs.Prelude.{◌≡◌, ◌==◌, ◌≤◌, ◌↔◌, ◌⊎◌, ℕ, Bool, true, false, not, List, Some};
ghost use Rattle.std.specs.List.{AllPairs, list_any, list_all, join_with_byte};
ghost use Rattle.lbk_ucd.specs.declared.ranges.Row.{Row};
ghost use Rattle.lbk_ucd.specs.declared.faults.UcdCause.{UcdCause};
ghost use Rattle.lbk_ucd.specs.declared.tables.Files.{Files};
ghost use Rattle.lbk_ucd.specs.declared.faults.UcdFault.{UcdFault};
ghost use Rattle.lbk_ucd.specs.Files.{AreLawful, IsRefused};
ghost use Rattle.lbk_ucd.specs.Samples.{AreSamples};
ghost use Rattle.lbk_ucd.specs.File.{Format, lines_of, rows_in, without_mark, IsLawful, IsFault};
ghost use Rattle.lbk_ucd.specs.Grammar.{IsSaid};
ghost use Rattle.lbk_ucd.specs.PropertyLine.{Meaning, meaning_of};
ghost use Rattle.lbk_ucd.specs.Rows.{holds, shares, AreApart};

/// A line of a property file means what the grammar relates to its bytes, and nothing else (UAX #44, section 4.2).
pub fn lines_say_what_the_grammar_has()
    ensures { (defaults : Bool) (line : List ℕ) (meaning : Meaning) → (meaning_of defaults line ≡ Some meaning)
        ↔ IsSaid defaults line meaning }
{}

/// The lines of a file, joined by LF, are the file without its byte order mark, and no line has an LF.
pub fn lines_make_up_the_file()
    ensures joined { (bytes : List ℕ) → join_with_byte 10 (lines_of bytes) ≡ without_mark bytes }
    ensures apart { (bytes : List ℕ) → list_all (λ line. not (list_any (λ byte. byte == 10) line)) (lines_of bytes)
        ≡ true }
{}

/// A row shares a code point with a range exactly if it has a code point of the range.
pub fn shared_codes_are_held<V: Copy>()
    ensures { (first last : ℕ) (row : Row V) → first ≤ last → row.first ≤ row.last
        → (shares first last row ≡ true) ↔ ((code : ℕ) × (first ≤ code) × (code ≤ last) × (holds code row ≡ true)) }
{}

/// A file is well-formed or has a fault, never both, and never two faults.
pub fn files_have_one_fault_or_none<V: Copy>()
    ensures either { (format : Format V) (bytes : List ℕ) → IsLawful format bytes
        ⊎ ((line : ℕ) × (cause : UcdCause) × IsFault format bytes line cause) }
    ensures not_both { (format : Format V) (bytes : List ℕ) (line : ℕ) (cause : UcdCause) → IsLawful format bytes
        → IsFault format bytes line cause → ⊥ }
    ensures one { (format : Format V) (bytes : List ℕ) (line other : ℕ) (cause why : UcdCause)
        → IsFault format bytes line cause → IsFault format bytes other why → (line ≡ other) × (cause ≡ why) }
{}

/// No code point is in two kept rows of a well-formed file, so at most one row has it.
pub fn kept_rows_are_apart<V: Copy>()
    ensures { (format : Format V) (bytes : List ℕ) → IsLawful format bytes
        → AllPairs AreApart (rows_in format (lines_of bytes)) }
{}

/// Files without a fault are refused only if memory runs out.
pub fn lawful_files_want_memory()
    ensures { (files : Files) (fault : UcdFault) → AreLawful files → IsRefused files fault → fault.cause
        ≡ UcdCause.Memory }
{}

/// The sample files have no fault.
pub fn samples_are_lawful()
    ensures { (files : Files) → AreSamples files → AreLawful files }
{}
