//! The label of a rule.

ghost use Rattle.std.specs.Prelude.{◌≡◌};
ghost use Rattle.lbk_calls.specs.Labels.{label_numbered};

use crate::interface::RuleLabel;
use crate::padding::padded;
use lbk_rules::Rule;

/// The name of the rule with a number, without `LB`, for example `8a` for 65: ASCII, padded by zeros. Only zeros for
/// any other number.
#[unsafe(no_mangle)]
pub extern "C" fn lbk_label(rule: u8) -> RuleLabel
    ensures { result.text ≡ label_numbered rule }
{
    match Rule::numbered(rule) {
        Some(rule) => RuleLabel {
            text: padded(rule.label().as_bytes()),
        },
        None => RuleLabel { text: [0; 4] },
    }
}
