//! The stable public interface: each item of each crate, with its types written out, here or in a `calls.rt` of the
//! test crates. A crate that renames or no longer exports one, or changes a variant, a field, a parameter or a result,
//! fails there.

mod commands;
mod feeds;
mod notation;
mod passages;
mod properties;
mod rules;
