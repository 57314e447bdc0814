//! The label of a rule.

ghost use Rattle.std.specs.Prelude.{◌≡◌};
ghost use Rattle.lbk_calls.specs.Labels.{label_numbered};

use lbk_calls::RuleLabel;

/// The name of the rule with a number, without `LB`, for example `8a` for 65: ASCII, padded by zeros. Only zeros for
/// any other number.
#[unsafe(no_mangle)]
pub extern "C" fn lbk_label(rule: u8) -> RuleLabel
    ensures { result.text ≡ label_numbered rule }
{
    lbk_calls::lbk_label(rule)
}
