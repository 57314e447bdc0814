//! The version that a file claims.

ghost use Rattle.std.specs.Prelude.{◌≡◌};
ghost use Rattle.lbk_ucd.specs.Claims.{TellsCut, claims_name};

/// Whether a file is truncated: its first line claims a name that Unicode published, such as `# LineBreak-15.0.0.txt`,
/// and its last line, without trailing white space, is not `# EOF`.
pub fn is_cut(bytes: &[u8]) -> bool
    ensures { TellsCut bytes.now result }
{
    let text = bytes.trim_ascii_end();
    let is_whole = text.ends_with(b"\n# EOF".as_slice()) || text.ends_with(b"\n#EOF".as_slice());
    claims_name(bytes) && !is_whole
}

/// Whether a file begins like a published one.
fn claims_name(bytes: &[u8]) -> bool
    ensures { result ≡ claims_name bytes.now }
{
    bytes.starts_with(b"# LineBreak-".as_slice())
        || bytes.starts_with(b"# EastAsianWidth-".as_slice())
        || bytes.starts_with(b"# DerivedGeneralCategory-".as_slice())
        || bytes.starts_with(b"# emoji-data.".as_slice())
}
