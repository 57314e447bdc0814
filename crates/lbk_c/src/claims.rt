//! What a file claims to be.

ghost use Rattle.lbk_ucd.specs.Claims.{TellsCut};

/// Whether a file is truncated: its first line claims a name that Unicode published, for example `#
/// LineBreak-15.0.0.txt`, and its last line, without trailing white space, is not `# EOF`.
#[unsafe(no_mangle)]
pub extern "C" fn lbk_is_cut(file: &[u8]) -> bool
    ensures { TellsCut file.now result }
{
    lbk_ucd::is_cut(file)
}
