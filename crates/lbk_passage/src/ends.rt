//! Where a paragraph ends, decided by two classes.

ghost use Rattle.std.specs.Prelude.{◌≡◌};
ghost use Rattle.lbk_passage.specs.Stays.{ends_at, end_before};

use lbk_rules::{Class, Kind, Rule, Verdict};

/// Whether a line must end between a scalar of class `last`, if there is one, and one of class `next` (UAX #14, rules
/// LB4 and LB5).
pub fn ends_at(last: Option<Class>, next: Class) -> bool
    ensures { result ≡ ends_at last next }
{
    match last {
        None => false,
        Some(last) => last.ends_line()
            && !(last.is(Class::CarriageReturn) && next.is(Class::LineFeed)),
    }
}

/// The verdict at the end of a paragraph whose last scalar is of class `last`, or `None` where it has none. `follows`:
/// text follows, before which a line must end (UAX #14, rules LB3 to LB5).
pub fn end_before(last: Option<Class>, follows: bool) -> Option<Verdict>
    ensures { result ≡ end_before last follows }
{
    let last = last?;
    let rule = if !follows {
        Rule::Lb3
    } else if last.is(Class::MandatoryBreak) {
        Rule::Lb4
    } else {
        Rule::Lb5
    };
    Some(Verdict {
        kind: Kind::Must,
        rule,
    })
}
