//! Rules as numbers.

ghost use Rattle.std.specs.Prelude.{◌≡◌, ◌==◌, find};
ghost use Rattle.lbk_uax14.specs.Codes.{rule_number, rules};

use crate::verdicts::Rule;

impl Rule {
    /// The rule with a number, which is 8 times its own number plus the place of its letter: 65 for rule 8a. `None` for
    /// a number that no rule has.
    #[inline(always)]
    pub fn numbered(number: u8) -> Option<Rule>
        ensures { result ≡ find (λ rule. rule_number rule == number) rules }
    {
        match number {
            16 => Some(Rule::Lb2),
            24 => Some(Rule::Lb3),
            32 => Some(Rule::Lb4),
            40 => Some(Rule::Lb5),
            48 => Some(Rule::Lb6),
            56 => Some(Rule::Lb7),
            64 => Some(Rule::Lb8),
            65 => Some(Rule::Lb8a),
            72 => Some(Rule::Lb9),
            88 => Some(Rule::Lb11),
            96 => Some(Rule::Lb12),
            97 => Some(Rule::Lb12a),
            104 => Some(Rule::Lb13),
            112 => Some(Rule::Lb14),
            120 => Some(Rule::Lb15),
            121 => Some(Rule::Lb15a),
            122 => Some(Rule::Lb15b),
            128 => Some(Rule::Lb16),
            136 => Some(Rule::Lb17),
            144 => Some(Rule::Lb18),
            152 => Some(Rule::Lb19),
            160 => Some(Rule::Lb20),
            168 => Some(Rule::Lb21),
            169 => Some(Rule::Lb21a),
            170 => Some(Rule::Lb21b),
            176 => Some(Rule::Lb22),
            184 => Some(Rule::Lb23),
            185 => Some(Rule::Lb23a),
            192 => Some(Rule::Lb24),
            200 => Some(Rule::Lb25),
            208 => Some(Rule::Lb26),
            216 => Some(Rule::Lb27),
            224 => Some(Rule::Lb28),
            232 => Some(Rule::Lb29),
            240 => Some(Rule::Lb30),
            241 => Some(Rule::Lb30a),
            242 => Some(Rule::Lb30b),
            248 => Some(Rule::Lb31),
            _ => None,
        }
    }
}
