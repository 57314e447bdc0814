//! A description of a property file that is not the published one.

ghost use Rattle.std.specs.Prelude.{◌≡◌};
ghost use Rattle.lbk_calls.specs.Padding.{padded};
ghost use Rattle.lbk_ucd.specs.ClaimTexts.{remedy_text};
ghost use Rattle.lbk_c.specs.ClaimTexts.{IsClaimText};
ghost use Rattle.lbk_c.specs.Faults.{which_numbered};

use crate::faults::which_numbered;
use crate::texts::text_of;
use lbk_calls::Text;
use lbk_ucd::{claim_of, claim_text, remedy_text};

/// Describes a file, by its number, that Unicode 15.0.0 did not publish: it is of another version, it was changed or
/// truncated, or it is another file. ASCII, padded by zeros; only zeros for any other number.
#[unsafe(no_mangle)]
pub extern "C" fn lbk_claim_text(file: u32, contents: &[u8]) -> Text
    ensures { IsClaimText (which_numbered file) contents.now result.text }
{
    let Some(which) = which_numbered(file) else {
        return Text { text: [0; 96] };
    };
    let text = claim_text(which, claim_of(which, contents));
    text_of(text.as_str())
}

/// Where to get the published files: ASCII, padded by zeros.
#[unsafe(no_mangle)]
pub extern "C" fn lbk_remedy_text() -> Text
    ensures { result.text ≡ padded 96 remedy_text }
{
    text_of(remedy_text())
}
