// The limits of levels 1 and 2 (document 01, "Level limits").
ghost use Rattle.std.specs.Prelude.{◌≡◌};
ghost use Rattle.profile.specs.Limits.{exceeds, limit};
ghost use Rattle.sheet.specs.Words.{sheet_of};

use sheet::layout::level;

// "two rows of fixed length in one table", level 1, then 2.
const LIMITS: [[u16; 15]; 2] = [
    [8, 16, 48, 32, 32, 16, 16, 4, 16, 15, 8, 12, 8, 16, 16],
    [16, 28, 84, 56, 56, 28, 28, 8, 28, 27, 16, 24, 14, 16, 28],
];

// The columns, numbers as in the definitions: `limit level column` holds for every number, and an enum of columns would ask more of
// callers.
pub const PROGRAMMES_LIMIT: u8 = 0;

pub const CONTENTS_LIMIT: u8 = 1;

pub const OBJECTS_LIMIT: u8 = 2;

pub const PACKS_LIMIT: u8 = 3;

pub const TRACKS_LIMIT: u8 = 4;

pub const PROGRAMME_CONTENTS_LIMIT: u8 = 5;

pub const PROGRAMME_SETS_LIMIT: u8 = 6;

pub const LABELS_LIMIT: u8 = 7;

pub const CHILDREN_LIMIT: u8 = 8;

pub const COMPLEMENTS_LIMIT: u8 = 9;

pub const SPAN_LIMIT: u8 = 10;

pub const CHANNELS_LIMIT: u8 = 11;

pub const GROUPS_LIMIT: u8 = 12;

pub const UNITS_LIMIT: u8 = 13;

pub const COUNTED_LIMIT: u8 = 14;

// The limit of a level, 0 where the table has none.
#[tactic(auto, unfolding(crate::specs::Limits::limit, crate::specs::Limits::limits))]
pub fn limit(level: u16, column: u8) -> u16
    ensures { result ≡ limit level column }
{
    let Some(row) = LIMITS.get(usize::from(level.saturating_sub(1))) else {
        return 0;
    };
    row.get(usize::from(column)).copied().unwrap_or(0)
}

// Whether n is above the sheet's limit; level 0 has none.
#[tactic(auto, unfolding(crate::specs::Limits::exceeds))]
pub fn exceeds(s: &[u8], column: u8, n: u64) -> bool
    ensures { result ≡ exceeds (sheet_of s.now) column n }
{
    let l = level(s);
    (l != 0) & (u64::from(limit(l, column)) < n)
}
