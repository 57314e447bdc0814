//! What holds of bytes that are cut, over definitions only. The law is the contract of a function that does nothing.

ghost use Rattle.std.specs.Prelude.{◌≡◌, ℕ, ◌<◌, ◌++◌, true, false, List, length};
ghost use Rattle.bstr.specs.Utf8.{decoded};
ghost use Rattle.lbk_bytes.specs.Open.{IsCut, could_go_on};

/// Bytes could go on just where some bytes after them make one scalar of all (Unicode Standard, table 3-7). Else the
/// first of them are a scalar or ill-formed, as they stand, whatever follows.
pub fn bytes_that_could_go_on()
    ensures cut { (bytes : List ℕ) → could_go_on bytes ≡ true → IsCut bytes }
    ensures whole { (bytes more : List ℕ) → 0 < length bytes → could_go_on bytes ≡ false → decoded (bytes ++ more)
        ≡ decoded bytes }
{}
