//! First bytes of scalars that never end a line, and of letters alone: without them the passages are the same, but found
//! more slowly.

use crate::calls::same;
use lbk_rules::CellSource;
use lbk_ucd::Files;
use std::test::Fail;
use test_support::calls::pages_by;
use test_support::property_files::{NO_FILES, line_break_alone};

/// The code points after which a line must end.
const LINE_ENDS: &[u8] = b"000A;LF\n000B..000C;BK\n000D;CR\n0085;NL\n2028..2029;BK\n";

/// The letters from U+0400 to U+047F, and others, which are not all that begin with their first bytes.
const LETTERS: &[u8] = b"0400..047F;Lo\n0530..0540;Lo\n";

/// The first bytes of the former.
const LETTERS_ALONE: [usize; 2] = [0xD0, 0xD1];

/// The first bytes of scalars after which a line must end.
const NOT_QUIET: [usize; 6] = [0x0A, 0x0B, 0x0C, 0x0D, 0xC2, 0xE2];

#[test]
fn quiet_first_bytes(rt: HostRuntime) -> Result<(), Fail> {
    let pages = pages_by(rt.alloc(), line_break_alone(LINE_ENDS))?;
    for (byte, is_quiet) in pages.quiet_first_bytes().iter().enumerate() {
        same(&rt, is_quiet, &!NOT_QUIET.contains(&byte), &byte);
    }
    Ok(())
}

#[test]
fn letter_first_bytes(rt: HostRuntime) -> Result<(), Fail> {
    let files = Files {
        category: LETTERS,
        ..NO_FILES
    };
    let pages = pages_by(rt.alloc(), files)?;
    for (byte, are_letters) in pages.letter_first_bytes().iter().enumerate() {
        // Other bytes begin no scalar of two bytes or more.
        if 0xC2 <= byte && byte < 0xF5 {
            same(&rt, are_letters, &LETTERS_ALONE.contains(&byte), &byte);
        }
    }
    Ok(())
}
