//! Laws about the definitions of well-formed bytes, each the contract of a function with an empty body, and one about the
//! reads of a device.

ghost use Rattle.std.specs.Prelude.{◌≡◌, ℕ, Bool, List, Result, ◌++◌, IsErr, IsUtf8};
ghost use Rattle.std.specs.declared.io.Error.{Error};
ghost use Rattle.lbk_feed.specs.Device.{inner_of};
ghost use Rattle.lbk_feed.specs.Text.{greatest_limit, longest_text, well_formed_prefix, IsLongestText, IsNotUtf8At};
ghost use Rattle.lbk_feed.specs.Text.{IsTooLong};

use crate::adapter::Device;
use crate::limits::{LIMIT_MAX, TEXT_MAX};
use crate::one_call::OneRead;
use crate::traits::{Failed, Source};

/// `TEXT_MAX` is the size limit of a text in the definitions.
pub fn text_max()
    ensures { TEXT_MAX ≡ longest_text }
{}

/// `LIMIT_MAX` is the greatest limit of a paragraph in the definitions.
pub fn limit_max()
    ensures { LIMIT_MAX ≡ greatest_limit }
{}

/// The well-formed prefix of any bytes is a text, and no longer prefix is one.
pub fn prefix_is_longest_text()
    ensures { (bs : List ℕ) → IsLongestText bs (well_formed_prefix bs) }
{}

/// The well-formed prefix of a text followed by bytes is the text followed by the well-formed prefix of those bytes.
pub fn prefix_behind_a_text()
    ensures { (text bs : List ℕ) → IsUtf8 text → well_formed_prefix (text ++ bs) ≡ text ++ well_formed_prefix bs }
{}

/// Bytes that are ill-formed, or end inside a scalar, are never too long a text as well.
pub fn faults_exclude_each_other()
    ensures { (bs : List ℕ) (ended : Bool) (at : ℕ) → IsNotUtf8At bs ended at → ¬ (IsTooLong bs) }
{}

/// A read of a device fails where one read of its reader can only fail, as an interrupted one does.
pub fn interrupted_read_fails<R: OneRead>(
    device: &mut Device<R>,
    buf: &mut [u8],
) -> Result<usize, Failed>
    ensures { ((outcome : Result ℕ Error) (after : R) → R.is_one_read (inner_of device.old) outcome after
        → IsErr outcome) → IsErr result }
{
    device.read(buf)
}
