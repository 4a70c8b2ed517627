// A list answered by one look at a table, where the table has it and the list is inside section 6. That a table is right (`StrayRight`,
// `OrdinalRight`, `Tells`) is a premise: a `requires`, or a type with the fact, is narrower than what callers hand in today, which may not
// be asked of them.
ghost use Rattle.std.specs.Prelude.{◌+◌, ◌<◌, ◌≤◌, leb, ltb, get_or, length, ◌&&◌, ◌≡◌};
ghost use Rattle.runs.specs.steps.Runs.{LookedUp, OrdinalRight, StrayRight, odd_tracks};
ghost use Rattle.sheet.specs.Fields.{pack_channels, packs, references};
ghost use Rattle.sheet.specs.Layout.{count, field};
ghost use Rattle.sheet.specs.Words.{sheet_of};

use sheet::fields::{REFERENCES, TRACK_ORDINAL, TRACK_PACK, TRACKS};
use sheet::layout::{count, field, reference};
use sheet::spans::Span;
use tables::reads::look;

// The table has the first index of a list, and the references of the list are there.
pub fn inside(s: &[u8], table: &[u16], list: Span) -> bool
    ensures { result ≡ (ltb list.first (length table.now) && ltb list.first (count (sheet_of s.now) references) && leb (list.first + list.count) (count (sheet_of s.now) references)) }
{
    let m = count(s, REFERENCES);
    (usize::from(list.first) < table.len()) & (list.first < m) & !list.is_beyond(m)
}

// What stands at a list's first index is below the list's end.
pub fn among(table: &[u16], list: Span) -> bool
    ensures { list.first < length table.now → result ≡ ltb (get_or table.now list.first 0) (list.first + list.count) }
{
    match look(table, list.first) {
        Some(v) => u32::from(v) < list.end(),
        None => false,
    }
}

// Whether one of the tracks of a list is not of this pack of as many channels, or their ordinals aren't each channel once: the first is
// tested, `next` tells of those that don't go on with it, `again` of ordinals that repeat.
pub fn odd_tracks(s: &[u8], next: &[u16], again: &[u16], list: Span, pack: u16) -> bool
    ensures { StrayRight (sheet_of s.now) next.now → OrdinalRight (sheet_of s.now) again.now → list.first < length next.now → list.first < length again.now → list.first + list.count ≤ count (sheet_of s.now) references → field (sheet_of s.now) packs pack pack_channels ≡ list.count → result ≡ odd_tracks (sheet_of s.now) list.first list.count pack }
{
    if list.count == 0 {
        return false;
    }
    let but_last = Span {
        first: list.first,
        count: list.count - 1,
    };
    let e = reference(s, u32::from(list.first));
    (field(s, TRACKS, e, TRACK_PACK) != pack)
        | (list.count <= field(s, TRACKS, e, TRACK_ORDINAL))
        | among(next, but_last)
        | among(again, list)
}

// What the table tells of the list at a position of a record, where it does. An empty table tells of none, and the list isn't read: without
// that test, tried and proved, the rules that this is drawn into (`list_lacks_by`, `repeats_by`, `bad_speech`) take 407,000 instructions
// more of 7,544,000 on the benchmark's sheet of short lists with a set for one of three, which is 5.4 %.
pub fn look_up(s: &[u8], table: &[u16], section: u8, k: u16, at: u8) -> Option<bool>
    ensures { LookedUp (sheet_of s.now) table.now section k at result }
{
    if table.is_empty() {
        return None;
    }
    let list = Span::at(s, section, k, at);
    inside(s, table, list).then_some(among(table, list))
}
