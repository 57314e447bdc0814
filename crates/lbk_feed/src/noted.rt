//! Devices that wrap another one, pass its bytes on unchanged, and record what an error message needs.

mod input;
mod noting;
mod prompted;

pub use input::Input;
pub use noting::{Notes, Noting};
pub use prompted::{Prompt, Prompted};
