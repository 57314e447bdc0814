//! Names of files and other arguments, printed in one line.

ghost use Rattle.std.specs.Prelude.{◌≡◌, Some};
ghost use Rattle.std.specs.Fmt.{WritesOnOk};
ghost use Rattle.lbk_args.specs.OneLine.{is_escaped, is_turning, one_line, one_scalar};

use std::fmt;

/// Prints an argument in one line: control characters, such as line ends, and characters that change the text direction
/// on a terminal are written as `\u` and their code in braces.
#[derive(Clone, Copy)]
pub struct OneLine<'a>(pub &'a str);

impl<'a> fmt::Display for OneLine<'a> {
    ghost output = { λ name. Some (one_line name.0.now) };

    fn fmt<W: fmt::Write>(&self, f: &mut fmt::Formatter<W>) -> fmt::Result {
        write_name(f, self.0)
    }
}

fn write_name<W: fmt::Write>(f: &mut fmt::Formatter<W>, name: &str) -> fmt::Result
    ensures { WritesOnOk W.write_str_gives f.old result (one_line name.now) f.new }
{
    for scalar in name.chars() {
        write_scalar(f, scalar)?;
    }
    Ok(())
}

fn write_scalar<W: fmt::Write>(f: &mut fmt::Formatter<W>, scalar: char) -> fmt::Result
    ensures { WritesOnOk W.write_str_gives f.old result (one_scalar scalar) f.new }
{
    if is_escaped(scalar) {
        write!(f, "\\u{{{:x}}}", u32::from(scalar))
    } else {
        f.write_char(scalar)
    }
}

/// Whether a character is written as its code.
pub(crate) fn is_escaped(scalar: char) -> bool
    ensures { result ≡ is_escaped scalar }
{
    scalar.is_control() || is_turning(u32::from(scalar))
}

/// Whether a code point ends a line, or changes the text direction (PropList.txt, Bidi_Control).
fn is_turning(code: u32) -> bool
    ensures { result ≡ is_turning code }
{
    code == 0x061C
        || (0x200E..=0x200F).contains(&code)
        || (0x2028..=0x202E).contains(&code)
        || (0x2066..=0x2069).contains(&code)
}
