//! Code points that follow one another.

ghost use Rattle.std.specs.Prelude.{◌≤◌};

/// The code points from `first` to `last`, both included.
#[derive(Clone, Copy)]
pub(crate) struct Span {
    pub(crate) first: u32,
    pub(crate) last: u32,
    ghost rises: { first ≤ last },
    ghost within: { last ≤ 0x10FFFF },
}
