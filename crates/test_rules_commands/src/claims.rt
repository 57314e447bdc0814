//! What the files in a folder of the Unicode Character Database have to claim.

use crate::calls::same;
use lbk_cmd::{ClaimCause, Version};
use lbk_files::{check_claim, name_in_database};
use lbk_ucd::Which;

const LINES: Which = Which::LineBreak;

const CATEGORY: Which = Which::Category;

const WIDTHS: Which = Which::EastAsianWidth;

/// Files of other versions, and their version.
static VERSIONS: [(Which, &str, [u32; 3]); 7] = [
    (
        LINES,
        "# LineBreak-15.1.0.txt\n0020;SP\n# EOF\n",
        [15, 1, 0],
    ),
    (WIDTHS, "# EastAsianWidth-9.0.0.txt\n# EOF\n", [9, 0, 0]),
    (CATEGORY, CATEGORY_15_0_1, [15, 0, 1]),
    (LINES, "# LineBreak-15.1.txt\n# EOF\n", [15, 1, 0]),
    (LINES, GREATEST, [4_294_967_295, 10, 12_345]),
    (Which::Emoji, EMOJI_16, [16, 0, 0]),
    (Which::Emoji, EMOJI_15_0_1, [15, 0, 1]),
];

const CATEGORY_15_0_1: &str = "# DerivedGeneralCategory-15.0.1.txt\n# EOF\n";

const GREATEST: &str = "# LineBreak-4294967295.10.12345.txt\n";

const EMOJI_16: &str = "# emoji-data.txt\n# Used with Emoji Version 16.0 and so on\n#EOF\n";

const EMOJI_15_0_1: &str = "# emoji-data.txt\n# Used with Emoji Version 15.0.1 and so on\n#EOF\n";

/// Files of no version.
static UNTITLED: [(Which, &str); 9] = [
    (LINES, ""),
    (LINES, "# LineBreak-"),
    (LINES, "# LineBreak-15.txt\n"),
    (LINES, "# LineBreak-15.x.txt\n"),
    (LINES, "# LineBreak-+15.0.0.txt\n"),
    (LINES, "# LineBreak-4294967296.0.0.txt\n"),
    (LINES, "#LineBreak-15.0.0.txt\n"),
    (LINES, EAST_ASIAN),
    (Which::Emoji, "# emoji-data.txt\n#EOF\n"),
];

/// Files that name the version, but are not the published ones.
static CHANGED: [(Which, &str); 7] = [
    (
        LINES,
        "# LineBreak-15.0.0.txt\n0020;SP\n0061..007A;AL\n# EOF\n",
    ),
    (LINES, "# LineBreak-15.0.0.txt\r\n# EOF\r\n"),
    (LINES, "# LineBreak-15.0.0"),
    (LINES, "# LineBreak-15.00.txt"),
    (WIDTHS, EAST_ASIAN),
    (CATEGORY, "# DerivedGeneralCategory-15.0.0.txt\n# EOF\n"),
    (Which::Emoji, EMOJI_15),
];

const EAST_ASIAN: &str = "# EastAsianWidth-15.0.0.txt\n# EOF\n";

const EMOJI_15: &str = "# emoji-data.txt\n# Used with Emoji Version 15.0 and so on\n#EOF\n";

/// `check_claim` without its contract.
fn claim_of(which: Which, text: &str) -> Result<(), ClaimCause> {
    check_claim(which, text.as_bytes())
}

fn version_of([major, minor, update]: [u32; 3]) -> Version {
    Version {
        major,
        minor,
        update,
    }
}

#[test]
fn claims(rt: HostRuntime) {
    for (which, text, version) in &VERSIONS {
        let cause = ClaimCause::Version(version_of(*version));
        same(&rt, &claim_of(*which, text), &Err(cause), text);
    }
    for (which, text) in &UNTITLED {
        same(&rt, &claim_of(*which, text), &Err(ClaimCause::Title), text);
    }
    for (which, text) in &CHANGED {
        same(
            &rt,
            &claim_of(*which, text),
            &Err(ClaimCause::Changed),
            text,
        );
    }
    let name = name_in_database(Which::Emoji);
    same(&rt, &name, &"emoji/emoji-data.txt", &"a name");
}
