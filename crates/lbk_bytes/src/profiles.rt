//! The numbers of profiles.

ghost use Rattle.std.specs.Prelude.{◌≡◌};
ghost use Rattle.lbk_bytes.specs.Profiles.{goes_on, plain_number, profile_numbered};

use lbk_rules::Profile;

/// The profile of a number: 0 for the first, 1 for the second; `None` for any other.
pub fn profile_numbered(number: u8) -> Option<Profile>
    ensures { result ≡ profile_numbered number }
{
    match number {
        0 => Some(Profile::First),
        1 => Some(Profile::Second),
        _ => None,
    }
}

/// Whether the number of a profile says, too, that the text goes on after its end.
pub fn goes_on(number: u8) -> bool
    ensures { result ≡ goes_on number }
{
    number == 2 || number == 3
}

/// The number of a profile without that.
pub fn plain_number(number: u8) -> u8
    ensures { result ≡ plain_number number }
{
    if number < 4 { number % 2 } else { number }
}
