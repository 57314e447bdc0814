//! The four properties of every code point, from the property files.

ghost use Rattle.std.specs.Prelude.{◌≡◌, ◌≤◌, ℕ, IfOk, IfErr, OnOk};

use crate::faults::UcdFault;
use crate::format::{read_category, read_east_asian, read_emoji, read_line_break};
use crate::ranges::Assigned;
use lbk_values::{Category, EastAsian, LineBreak};
use std::alloc::Global;

/// The bytes of the four property files (UAX #44, section 4.2).
#[derive(Clone, Copy)]
pub struct Files<'a> {
    /// LineBreak.txt.
    pub line_break: &'a [u8],
    /// EastAsianWidth.txt.
    pub east_asian: &'a [u8],
    /// DerivedGeneralCategory.txt.
    pub category: &'a [u8],
    /// emoji-data.txt.
    pub emoji: &'a [u8],
}

/// The four properties of every code point, by the files.
#[derive(Drop)]
pub struct Tables {
    line_break: Assigned<LineBreak>,
    east_asian: Assigned<EastAsian>,
    category: Assigned<Category>,
    pictographic: Assigned<bool>,
}

/// The properties of a code point, and of all code points from it to `last`.
#[derive(Clone, Copy, PartialEq, Eq, Debug)]
pub struct Run {
    /// Line_Break (UAX #14, section 5).
    pub line_break: LineBreak,
    /// East_Asian_Width (UAX #11).
    pub east_asian: EastAsian,
    /// General_Category (Unicode Standard, section 4.5).
    pub category: Category,
    /// Extended_Pictographic (UTS #51, Annex A).
    pub is_pictographic: bool,
    /// The last code point that is known to have them, at most 10FFFF.
    pub last: u32,
    /// Where the look-up found them.
    pub places: Places,
}

/// Where the properties of a code point were found in the tables, a hint for the next code points. No result depends on
/// it.
#[derive(Clone, Copy, PartialEq, Eq, Debug)]
pub struct Places {
    line_break: usize,
    east_asian: usize,
    category: usize,
    pictographic: usize,
}

impl Places {
    /// Before all code points.
    pub const START: Places = Places {
        line_break: 0,
        east_asian: 0,
        category: 0,
        pictographic: 0,
    };
}

impl Tables {
    ghost use Rattle.lbk_ucd.specs.Tables.{line_break_of, east_asian_of, category_of, is_pictographic_of};
    ghost use Rattle.lbk_ucd.specs.File.{property_of};
    ghost use Rattle.lbk_ucd.specs.Files.{AreLawful, IsRefused};
    ghost use Rattle.lbk_ucd.specs.Names.{line_break_format, east_asian_format, category_format, emoji_format};

    /// The tables of four files without a fault. Otherwise the first fault of the first file that has one, or `Memory`
    /// at a line where the tables could not grow. Lines count from 1; a file that is too long is refused at line 0.
    #[tactic(auto, unfolding(crate::specs::Tables::line_break_of, crate::specs::Tables::east_asian_of, crate::specs::Tables::category_of, crate::specs::Tables::is_pictographic_of))]
    pub fn read(alloc: Global, files: Files<'_>) -> Result<Tables, UcdFault>
        ensures lawful { OnOk result (AreLawful files.entry) }
        ensures line_break { IfOk result
            (λ tables. (code : ℕ) → line_break_of tables code
            ≡ property_of line_break_format files.entry.line_break.now code) }
        ensures east_asian { IfOk result
            (λ tables. (code : ℕ) → east_asian_of tables code
            ≡ property_of east_asian_format files.entry.east_asian.now code) }
        ensures category { IfOk result
            (λ tables. (code : ℕ) → category_of tables code
            ≡ property_of category_format files.entry.category.now code) }
        ensures pictographic { IfOk result
            (λ tables. (code : ℕ) → is_pictographic_of tables code
            ≡ property_of emoji_format files.entry.emoji.now code) }
        ensures refused { IfErr result (IsRefused files.entry) }
    {
        let line_break = read_line_break(alloc, files.line_break)?;
        let east_asian = read_east_asian(alloc, files.east_asian)?;
        let category = read_category(alloc, files.category)?;
        let pictographic = read_emoji(alloc, files.emoji)?;
        Ok(Tables {
            line_break,
            east_asian,
            category,
            pictographic,
        })
    }

    /// Line_Break of a code point, at most 10FFFF (UAX #14, section 5).
    #[tactic(auto, unfolding(crate::specs::Tables::line_break_of))]
    pub fn line_break(&self, code: u32) -> LineBreak
        ensures { result ≡ line_break_of self.now code }
    {
        self.line_break.value(code)
    }

    /// East_Asian_Width of a code point, at most 10FFFF (UAX #11).
    #[tactic(auto, unfolding(crate::specs::Tables::east_asian_of))]
    pub fn east_asian(&self, code: u32) -> EastAsian
        ensures { result ≡ east_asian_of self.now code }
    {
        self.east_asian.value(code)
    }

    /// General_Category of a code point, at most 10FFFF (Unicode Standard, section 4.5).
    #[tactic(auto, unfolding(crate::specs::Tables::category_of))]
    pub fn category(&self, code: u32) -> Category
        ensures { result ≡ category_of self.now code }
    {
        self.category.value(code)
    }

    /// Extended_Pictographic of a code point, at most 10FFFF (UTS #51, Annex A).
    #[tactic(auto, unfolding(crate::specs::Tables::is_pictographic_of))]
    pub fn is_pictographic(&self, code: u32) -> bool
        ensures { result ≡ is_pictographic_of self.now code }
    {
        self.pictographic.value(code)
    }

    /// The four properties of a code point, at most 10FFFF, and a last code point up to which all have them. To visit
    /// all code points range by range, start at 0 and continue with the one after `last`, with the hint found, until
    /// `last` is 10FFFF.
    #[tactic(auto, unfolding(crate::specs::Tables::line_break_of, crate::specs::Tables::east_asian_of, crate::specs::Tables::category_of, crate::specs::Tables::is_pictographic_of))]
    pub fn run(&self, code: u32, near: Places) -> Run
        requires { code ≤ 0x10FFFF }
        ensures last { (code ≤ result.last) × (result.last ≤ 0x10FFFF) }
        ensures line_break { (k : ℕ) → code ≤ k → k ≤ result.last → line_break_of self.now k ≡ result.line_break }
        ensures east_asian { (k : ℕ) → code ≤ k → k ≤ result.last → east_asian_of self.now k ≡ result.east_asian }
        ensures category { (k : ℕ) → code ≤ k → k ≤ result.last → category_of self.now k ≡ result.category }
        ensures pictographic { (k : ℕ) → code ≤ k → k ≤ result.last → is_pictographic_of self.now k
            ≡ result.is_pictographic }
    {
        let line_break = self.line_break.stretch(code, near.line_break);
        let east_asian = self.east_asian.stretch(code, near.east_asian);
        let category = self.category.stretch(code, near.category);
        let pictographic = self.pictographic.stretch(code, near.pictographic);
        Run {
            line_break: line_break.value,
            east_asian: east_asian.value,
            category: category.value,
            is_pictographic: pictographic.value,
            last: line_break
                .last
                .min(east_asian.last)
                .min(category.last)
                .min(pictographic.last),
            places: Places {
                line_break: line_break.at,
                east_asian: east_asian.at,
                category: category.at,
                pictographic: pictographic.at,
            },
        }
    }
}
