//! What holds of one text in several encodings, over definitions only. Each law is the contract of a function that does
//! nothing.

ghost use Rattle.std.specs.Str.{encode_utf8_all};
ghost use Rattle.lbk_bytes.specs.Bytes.{breaks_of_bytes};
ghost use Rattle.lbk_units.specs.Encodings.{AreThoseOfScalars, encode_utf16_all};
ghost use Rattle.lbk_units.specs.Positions.{positions_of_bytes, positions_of_utf16, positions_of_utf32};
ghost use Rattle.lbk_units.specs.Units.{breaks_of_utf16, breaks_of_utf32};

/// The same scalars have the same breaks and positions in UTF-8, UTF-16 and UTF-32 (Unicode Standard, section 3.9),
/// each by the same rule and of the same kind, at the units that spell the scalars before it. In UTF-32 a unit is a
/// scalar.
#[tactic(auto, using(crate::proofs::EncodingLemmas::encodings))]
pub fn same_in_each_encoding()
    ensures utf8 { AreThoseOfScalars encode_utf8_all breaks_of_bytes breaks_of_utf32 }
    ensures utf16 { AreThoseOfScalars encode_utf16_all breaks_of_utf16 breaks_of_utf32 }
    ensures positions_utf8 { AreThoseOfScalars encode_utf8_all positions_of_bytes positions_of_utf32 }
    ensures positions_utf16 { AreThoseOfScalars encode_utf16_all positions_of_utf16 positions_of_utf32 }
{}
