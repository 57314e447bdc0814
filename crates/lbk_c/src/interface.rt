//! The types that C and the library share, except the table and those of `lbk_calls`.

/// Why no table was made; all zeros if one was.
#[repr(C)]
#[derive(Clone, Copy)]
pub struct Fault {
    /// The number of the property file, from 1, or 0.
    pub file: u32,
    /// Its line, from 1; 0 for a whole file, or for no file.
    pub line: u32,
    /// The number of the cause, from 1; 0 for no fault.
    pub cause: u32,
}
