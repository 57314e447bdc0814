//! What the passages of a text have in common, over definitions only. Each law is the contract of a function
//! that does nothing.

ghost use Rattle.std.specs.Prelude.{◌≡◌, ◌⊎◌, ℕ, ◌<◌, List, [], ◌∷◌, ◌++◌, false, true, length, map, encode_utf8_all};
ghost use Rattle.std.specs.Prelude.{IsTrue, IsUtf8};
ghost use Rattle.std.specs.List.{AllByRecursion, flat_map};
ghost use Rattle.std.specs.Str.{chars};
ghost use Rattle.lbk_rules.specs.declared.Cell.{Cell};
ghost use Rattle.lbk_rules.specs.declared.Kind.TheVariants.{Must};
ghost use Rattle.lbk_values.specs.declared.profile.Profile.{Profile};
ghost use Rattle.lbk_rules.specs.Verdict.{verdict_between_in};
ghost use Rattle.lbk_passage.specs.declared.faults.PassageFault.{PassageFault};
ghost use Rattle.lbk_passage.specs.Breaks.{breaks};
ghost use Rattle.lbk_passage.specs.Laws.{EndsOnce, IsBehind, segment_breaks};
ghost use Rattle.lbk_passage.specs.Marks.{Marked, marks, scalars_of, text_of};
ghost use Rattle.lbk_passage.specs.Passages.{passages};
ghost use Rattle.lbk_passage.specs.Joins.{AreParts, must_end_between, of_parts};
ghost use Rattle.lbk_passage.specs.Parts.{passages_in, pieces_at, pieces_in, segments_at, segments_before, segments_in};
ghost use Rattle.lbk_passage.specs.State.{State};
ghost use Rattle.lbk_passage.specs.Next.{ComesFirst, IsDone, Stops};
ghost use Rattle.lbk_passage.specs.Runs.{HasGiven};

/// The paragraph law, for passages: after an earlier text that is empty or ends with a required break, the passages of
/// a text are those of the text alone, with the same marks (UAX #14, section 6.1, rules LB4 and LB5).
pub fn behind_an_earlier_text()
    ensures { (profile : Profile) (cell : ℕ → Cell) (earlier text : List ℕ)
        → (earlier ≡ []) ⊎ ((verdict_between_in profile (map cell earlier) (map cell text)).kind ≡ Must)
        → IsBehind profile cell earlier text }
{}

/// The passages of a text cut its marks after each Must: joined they are its marks, a line must end after the last mark
/// of each and after no other, and no other cutting is like that (UAX #14, section 6, rules LB3 to LB5).
#[tactic(auto, using(crate::proofs::Together::one_way))]
pub fn one_cutting()
    ensures joined { (profile : Profile) (cell : ℕ → Cell) (text : List ℕ)
        → flat_map (λ ms. ms) (passages profile cell text) ≡ marks profile cell text }
    ensures ends { (profile : Profile) (cell : ℕ → Cell) (text : List ℕ)
        → AllByRecursion EndsOnce (passages profile cell text) }
    ensures only { (profile : Profile) (cell : ℕ → Cell) (text : List ℕ) (other : List (List Marked))
        → flat_map (λ ms. ms) other ≡ marks profile cell text → AllByRecursion EndsOnce other
        → other ≡ passages profile cell text }
{}

/// The segments of all passages of a text end at the breaks of the whole text, in their order, each at its byte and
/// with its kind and rule (UAX #14, section 3).
pub fn segments_end_at_breaks()
    ensures { (profile : Profile) (cell : ℕ → Cell) (text : List ℕ)
        → segment_breaks 0 (passages profile cell text) ≡ breaks profile cell text }
{}

/// The bytes of the passages of a text, joined, are its bytes.
pub fn bytes_of_passages()
    ensures { (profile : Profile) (cell : ℕ → Cell) (text : List ℕ) → IsUtf8 text
        → flat_map text_of (passages profile cell (chars text)) ≡ text }
{}

/// Before a run nothing was given.
pub fn run_begins()
    ensures { (profile : Profile) (cell : ℕ → Cell) (left : List ℕ) → HasGiven profile cell [] left }
{}

/// One more passage: if it is the first of the rest of the text, then it and the passages returned before it are the
/// first ones of the whole text. The bytes left before it are its own, those after it, and those unread; at the end
/// none are unread.
pub fn run_goes_on()
    ensures { (s : State) (given : List (List Marked)) (passage : List Marked) (behind unread : List ℕ)
        → 0 < length passage → IsUtf8 (text_of passage) → (s.is_ended ≡ true → unread ≡ [])
        → HasGiven s.profile s.cell given (text_of passage ++ (behind ++ unread))
        → ComesFirst s passage behind → HasGiven s.profile s.cell (given ++ passage ∷ []) (behind ++ unread) }
{}

/// Where a run ends, all passages of the text were given; and where it stops by a fault, those given are the first ones
/// of every text that goes on from the scalars seen.
pub fn run_ends()
    ensures whole { (s : State) (given : List (List Marked)) → HasGiven s.profile s.cell given s.held → IsDone s
        → passages s.profile s.cell (flat_map scalars_of given) ≡ given }
    ensures stopped { (s : State) (fault : PassageFault) (given : List (List Marked)) (unread : List ℕ)
        (stops : Stops s fault)
        → HasGiven s.profile s.cell given (s.held ++ unread) → 0 < length stops.seen → (more : List ℕ)
        → passages s.profile s.cell (flat_map scalars_of given ++ (stops.seen ++ more))
        ≡ given ++ passages s.profile s.cell (stops.seen ++ more) }
{}

/// Texts between which a line must end may be cut into passages apart. Joined, these are the passages of the whole,
/// except the end of the first text: a text ends by rule 3, and by rule 4 or 5 where another follows. So are their
/// segments and their pieces, the words among them, if the places of the second are moved by the bytes of the first
/// (UAX #14, section 6.1, rules LB3 to LB5).
#[tactic(auto, using(crate::proofs::Joining::of_two))]
pub fn joined_texts()
    ensures passages { (profile : Profile) (cell : ℕ → Cell) (first second : List ℕ)
        → IsTrue (must_end_between cell first second)
        → passages profile cell (first ++ second) ≡ passages_in profile cell true first
        ++ passages profile cell second }
    ensures segments { (profile : Profile) (cell : ℕ → Cell) (first second : List ℕ)
        → IsTrue (must_end_between cell first second)
        → segments_at 0 (passages profile cell (first ++ second))
        ≡ segments_before profile cell true first
        ++ segments_in profile cell (length (encode_utf8_all first)) false second }
    ensures pieces { (profile : Profile) (cell : ℕ → Cell) (first second : List ℕ)
        → IsTrue (must_end_between cell first second)
        → pieces_at cell 0 (passages profile cell (first ++ second))
        ≡ pieces_at cell 0 (passages profile cell first)
        ++ pieces_in profile cell (length (encode_utf8_all first)) false second }
{}

/// The same for any number of parts: each is cut alone, given its offset and whether another part follows.
#[tactic(auto, using(crate::proofs::Joining::of_many))]
pub fn joined_parts()
    ensures passages { (profile : Profile) (cell : ℕ → Cell) (parts : List (List ℕ)) → AreParts cell parts
        → passages profile cell (flat_map (λ part. part) parts) ≡ of_parts (λ at. passages_in profile cell) 0 parts }
    ensures segments { (profile : Profile) (cell : ℕ → Cell) (parts : List (List ℕ)) → AreParts cell parts
        → segments_at 0 (passages profile cell (flat_map (λ part. part) parts))
        ≡ of_parts (segments_in profile cell) 0 parts }
    ensures pieces { (profile : Profile) (cell : ℕ → Cell) (parts : List (List ℕ)) → AreParts cell parts
        → pieces_at cell 0 (passages profile cell (flat_map (λ part. part) parts))
        ≡ of_parts (pieces_in profile cell) 0 parts }
{}
