//! Verdicts, rules and profiles.

ghost use Rattle.std.specs.Prelude.{◌≡◌, []};
ghost use Rattle.lbk_uax14.specs.Facts.{closes_in};
ghost use Rattle.lbk_uax14.specs.Held.{is_15b};
ghost use Rattle.lbk_uax14.specs.Labels.{label_of};

use lbk_values::Profile;

/// Whether a line breaks at a position (UAX #14, section 3): `No` is `×`, `May` is `÷`, `Must`
/// is `!`.
#[derive(Clone, Copy, PartialEq, Eq, Debug)]
pub enum Kind {
    No,
    May,
    Must,
}

/// A rule of UAX #14, section 6, by its number. `Lb15a` and `Lb15b` replace `Lb15` in the
/// second profile.
#[derive(Clone, Copy, PartialEq, Eq, Debug)]
pub enum Rule {
    Lb2,
    Lb3,
    Lb4,
    Lb5,
    Lb6,
    Lb7,
    Lb8,
    Lb8a,
    Lb9,
    Lb11,
    Lb12,
    Lb12a,
    Lb13,
    Lb14,
    Lb15,
    Lb15a,
    Lb15b,
    Lb16,
    Lb17,
    Lb18,
    Lb19,
    Lb20,
    Lb21,
    Lb21a,
    Lb21b,
    Lb22,
    Lb23,
    Lb23a,
    Lb24,
    Lb25,
    Lb26,
    Lb27,
    Lb28,
    Lb29,
    Lb30,
    Lb30a,
    Lb30b,
    Lb31,
}

impl Rule {
    /// The rule's number without `LB`, such as `8a`.
    pub fn label(&self) -> &'static str
        ensures { result.now ≡ label_of self.now }
    {
        match self {
            Rule::Lb2 => "2",
            Rule::Lb3 => "3",
            Rule::Lb4 => "4",
            Rule::Lb5 => "5",
            Rule::Lb6 => "6",
            Rule::Lb7 => "7",
            Rule::Lb8 => "8",
            Rule::Lb8a => "8a",
            Rule::Lb9 => "9",
            Rule::Lb11 => "11",
            Rule::Lb12 => "12",
            Rule::Lb12a => "12a",
            Rule::Lb13 => "13",
            Rule::Lb14 => "14",
            Rule::Lb15 => "15",
            Rule::Lb15a => "15a",
            Rule::Lb15b => "15b",
            Rule::Lb16 => "16",
            Rule::Lb17 => "17",
            Rule::Lb18 => "18",
            Rule::Lb19 => "19",
            Rule::Lb20 => "20",
            Rule::Lb21 => "21",
            Rule::Lb21a => "21a",
            Rule::Lb21b => "21b",
            Rule::Lb22 => "22",
            Rule::Lb23 => "23",
            Rule::Lb23a => "23a",
            Rule::Lb24 => "24",
            Rule::Lb25 => "25",
            Rule::Lb26 => "26",
            Rule::Lb27 => "27",
            Rule::Lb28 => "28",
            Rule::Lb29 => "29",
            Rule::Lb30 => "30",
            Rule::Lb30a => "30a",
            Rule::Lb30b => "30b",
            Rule::Lb31 => "31",
        }
    }
}

impl Rule {
    /// Whether it is rule 15b, which looks past the unit on the right.
    #[inline(always)]
    pub fn is_15b(self) -> bool
        ensures { result ≡ is_15b self }
    {
        matches!(self, Rule::Lb15b)
    }
}

/// Whether it is the second profile, in which the end of the text leaves a quotation mark closed.
pub fn is_second(profile: Profile) -> bool
    ensures { result ≡ closes_in profile [] }
{
    matches!(profile, Profile::Second)
}

/// Whether a line breaks at a position, and the rule that decided.
#[derive(Clone, Copy, PartialEq, Eq, Debug)]
pub struct Verdict {
    pub kind: Kind,
    pub rule: Rule,
}

impl Verdict {
    pub(crate) fn no(rule: Rule) -> Self
        ensures { result ≡ record { kind = Kind.No; rule = rule } }
    {
        Verdict {
            kind: Kind::No,
            rule,
        }
    }

    pub(crate) fn may(rule: Rule) -> Self
        ensures { result ≡ record { kind = Kind.May; rule = rule } }
    {
        Verdict {
            kind: Kind::May,
            rule,
        }
    }

    pub(crate) fn must(rule: Rule) -> Self
        ensures { result ≡ record { kind = Kind.Must; rule = rule } }
    {
        Verdict {
            kind: Kind::Must,
            rule,
        }
    }
}
