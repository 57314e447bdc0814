//! What each rule says, in one line.

ghost use Rattle.std.specs.Prelude.{◌≡◌, ◌≤◌, length};
ghost use Rattle.lbk_calls.specs.RuleTexts.{rule_text_numbered, rule_text_of};

use crate::interface::Text;
use crate::padding::padded;
use lbk_rules::Rule;

/// What the rule with a number says, in one line: ASCII, padded by zeros. Only zeros for any other number.
#[unsafe(no_mangle)]
pub extern "C" fn lbk_rule_text(rule: u8) -> Text
    ensures { result.text ≡ rule_text_numbered rule }
{
    match Rule::numbered(rule) {
        Some(rule) => Text {
            text: padded(rule_text(rule).as_bytes()),
        },
        None => Text { text: [0; 96] },
    }
}

/// What a rule of UAX #14, section 6, says.
pub fn rule_text(rule: Rule) -> &'static str
    ensures text { result.now ≡ rule_text_of rule }
    ensures short { length result.now ≤ 95 }
{
    match rule {
        Rule::Lb2 => "No break at the start of the text.",
        Rule::Lb3 => "Always break at the end of the text.",
        Rule::Lb4 => "Always break after a mandatory break (BK).",
        Rule::Lb5 =>
            "CR LF is one line end. Break after it, and after a CR, LF or next line (NL) that stands alone.",
        Rule::Lb6 => "No break before a line end.",
        Rule::Lb7 => "No break before a space or a zero width space.",
        Rule::Lb8 => "A break is allowed after a zero width space, also where spaces follow it.",
        Rule::Lb8a => "No break after a zero width joiner.",
        Rule::Lb9 => "A combining mark or joiner stays with the character before it.",
        Rule::Lb11 => "No break before or after a word joiner.",
        Rule::Lb12 => "No break after a no-break space or other glue.",
        Rule::Lb12a => "No break before glue, except after a space or a hyphen.",
        Rule::Lb13 =>
            "No break before closing punctuation, exclamation, infix separators or slashes.",
        Rule::Lb14 => "No break after opening punctuation, even where spaces follow it.",
        Rule::Lb15 =>
            "No break between a quotation mark and opening punctuation, even across spaces.",
        Rule::Lb15a =>
            "No break after an opening quotation mark that starts a quotation, even across spaces.",
        Rule::Lb15b => "No break before a closing quotation mark that ends a quotation.",
        Rule::Lb16 => "No break between closing punctuation and a nonstarter, even across spaces.",
        Rule::Lb17 => "No break between two em dashes, even across spaces.",
        Rule::Lb18 => "A break is allowed after spaces.",
        Rule::Lb19 => "No break before or after a quotation mark.",
        Rule::Lb20 =>
            "A break is allowed before and after an object whose breaks others decide (CB).",
        Rule::Lb21 =>
            "No break before hyphens, nonstarters and break-after (BA); none after break-before (BB).",
        Rule::Lb21a => "No break after a hyphen that follows a Hebrew letter.",
        Rule::Lb21b => "No break between a slash and a Hebrew letter.",
        Rule::Lb22 => "No break before an ellipsis.",
        Rule::Lb23 => "No break between letters and digits.",
        Rule::Lb23a => "No break between a prefix and an ideograph, or an ideograph and a postfix.",
        Rule::Lb24 => "No break between letters and prefixes or postfixes.",
        Rule::Lb25 => "No break within a number with its signs, separators and units.",
        Rule::Lb26 => "No break within a Korean syllable.",
        Rule::Lb27 => "Korean syllables stay with prefixes and postfixes as ideographs do.",
        Rule::Lb28 => "No break between letters.",
        Rule::Lb29 => "No break between an infix separator and a letter.",
        Rule::Lb30 => "No break between a letter or digit and a narrow parenthesis.",
        Rule::Lb30a => "Regional indicators go in pairs, and break between pairs only.",
        Rule::Lb30b => "No break between an emoji and its modifier.",
        Rule::Lb31 => "A break is allowed everywhere else.",
    }
}
