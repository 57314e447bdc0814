//! The sign that `mark` writes where a line may end.

ghost use Rattle.std.specs.Prelude.{◌≡◌};
ghost use Rattle.std.specs.Str.{chars};
ghost use Rattle.lbk_args.specs.Sign.{ends_line, has_line_end, is_sign};

/// The default sign.
pub const DEFAULT_SIGN: &str = "÷";

/// The most bytes of a sign.
const LONGEST: usize = 8;

/// Whether a text is one to eight bytes without a line end.
pub(crate) fn is_sign(text: &str) -> bool
    ensures { result ≡ is_sign text.now }
{
    !text.is_empty() && text.len() <= LONGEST && !has_line_end(text)
}

fn has_line_end(text: &str) -> bool
    ensures { result ≡ has_line_end (chars text.now) }
{
    for scalar in text.chars() {
        if ends_line(scalar) {
            return true;
        }
    }
    false
}

/// Whether a line ends at this character: LF, VT, FF, CR, NEL, and the separators of lines and paragraphs.
fn ends_line(scalar: char) -> bool
    ensures { result ≡ ends_line scalar }
{
    let code = u32::from(scalar);
    (0x0A..=0x0D).contains(&code) || code == 0x85 || (0x2028..=0x2029).contains(&code)
}
