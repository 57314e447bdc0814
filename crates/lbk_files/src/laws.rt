//! Laws about the definitions of the files. Each is the contract of a function with an empty body.

ghost use Rattle.std.specs.Prelude.{◌≡◌, ℕ, List};
ghost use Rattle.lbk_ucd.specs.declared.which.Which.{Which};
ghost use Rattle.lbk_ucd.specs.declared.published.ClaimCause.{ClaimCause};
ghost use Rattle.lbk_ucd.specs.Published.{IsClaimCause};

/// A refused file has one cause: what holds for each cause that fits holds for the returned one.
pub fn refused_files_have_one_cause()
    ensures { (which : Which) (bytes : List ℕ) (cause other : ClaimCause)
        → IsClaimCause which bytes cause → IsClaimCause which bytes other → cause ≡ other }
{}
