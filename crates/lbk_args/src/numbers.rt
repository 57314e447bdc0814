//! Numbers of bytes in the arguments, perhaps with a unit.

ghost use Rattle.std.specs.Prelude.{◌≡◌, Some, option_map};
ghost use Rattle.lbk_args.specs.Command.{greatest_byte};
ghost use Rattle.lbk_args.specs.Numbers.{bytes_in, bytes_or, last_of, number_or, unit_of, without_unit};

/// The number of bytes that a text means, or `other` without a text.
pub(crate) fn bytes_or(text: Option<&str>, other: u32) -> u32
    ensures { result ≡ bytes_or other (option_map (λ text. text.now) text.entry) }
{
    match text {
        None => other,
        Some(text) => bytes_in(text),
    }
}

/// The number of bytes that a text means: decimal digits, perhaps followed by K for 1,024 or M for 1,048,576, also in
/// lower case. The greatest one for more bytes, and for a text that is no such number.
fn bytes_in(text: &str) -> u32
    ensures { result ≡ bytes_in text.now }
{
    let unit = unit_of(last_of(text));
    number_in(without_unit(text)).saturating_mul(unit)
}

/// The last byte of a text, or 0.
fn last_of(text: &str) -> u8
    ensures { result ≡ last_of text.now }
{
    match text.as_bytes().last() {
        Some(byte) => *byte,
        None => 0,
    }
}

/// The bytes that a letter behind a number means; 1 for a byte that is no unit.
fn unit_of(byte: u8) -> u32
    ensures { result ≡ unit_of byte }
{
    match byte {
        b'K' | b'k' => 1_024,
        b'M' | b'm' => 1_048_576,
        _ => 1,
    }
}

/// A text without the unit at its end.
pub(crate) fn without_unit(text: &str) -> &str
    ensures { result.now ≡ without_unit text.entry.now }
{
    let last = last_of(text);
    if unit_of(last) == 1 {
        return text;
    }
    text.strip_suffix(char::from(last)).unwrap_or(text)
}

/// The number in a text, or the greatest one.
fn number_in(text: &str) -> u32
    ensures { result ≡ number_or greatest_byte (Some text.now) }
{
    text.parse().unwrap_or(u32::MAX)
}
