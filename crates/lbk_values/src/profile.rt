//! The two sets of rules.

/// The rules for quotation marks: `First` has rule LB15 of Unicode 15.0, `Second` rules 15a and 15b instead, which look
/// at both sides of the mark.
#[derive(Clone, Copy, PartialEq, Eq, Debug)]
pub enum Profile {
    First,
    Second,
}
