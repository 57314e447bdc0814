//! A check of results. A library ends no process: it returns what is wrong as a test's failure.

use std::fmt::Debug;
use std::test::Fail;

/// Compares a result with the expected one.
pub fn same<T: PartialEq + Debug, D: Debug>(found: &T, want: &T, of: &D) -> Result<(), Fail> {
    if found == want {
        return Ok(());
    }
    Err(Fail::new(format_args!("{found:?} in place of {want:?}: {of:?}")))
}
