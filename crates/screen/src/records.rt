// The records of each section. That a table is right is a premise, as lib.rt tells.
ghost use Rattle.std.specs.Prelude.{false, true, ◌||◌, ◌≡◌};
ghost use Rattle.lists.specs.steps.Speech.{content_broken};
ghost use Rattle.profile.specs.Rules.{bad_pack, rule5, rule10, rule12};
ghost use Rattle.screen.specs.steps.Screened.{RecordsKept, RecordsTabled, header_broken};
ghost use Rattle.sheet.specs.Fields.{contents, packs, tracks};
ghost use Rattle.sheet.specs.Layout.{offset};
ghost use Rattle.sheet.specs.Words.{sheet_of};
ghost use Rattle.tables.specs.steps.Right.{Listed};

use crate::RecordTables;
use crate::objects::object_breaks;
use languages::list::Languages;
use lists::speech::{content_breaks, programme_breaks};
use lists::words::{ends_before, record_at, word_at};
use profile::counting::all;
use profile::limits::{CHANNELS_LIMIT, exceeds};
use relations::objects::lacks;
use rules::header::{rule1, rule2, rule3};
use rules::limits::{rule7, rule10};
use rules::words::bad_pack;
use sheet::fields::{
    CONTENTS, KIND_DIRECT_SPEAKERS, KIND_OBJECTS, OBJECTS, PACK_CHANNELS, PACK_FRONT, PACK_KIND,
    PACKS, PROGRAMMES, TRACK_PACK, TRACKS, VALUE_SETS,
};
use sheet::layout::{count, offset, record_words};
use sheet::words::word;
use tables::members::flagged;

// The header and the sections themselves: rules 1, 2, 3 and 7. By `a..b`, whose numbers std has as a list (`YieldsList-from_range`):
// tried by `a..=b`, the goal `returns` stays open.
pub fn header_breaks(s: &[u8]) -> bool
    ensures { result ≡ header_broken (sheet_of s.now) }
{
    rule1(s, 0, 0)
        | rule2(s, 0, 0)
        | (PROGRAMMES..VALUE_SETS + 1).any(|section| rule3(s, section, 0))
        | (PROGRAMMES..TRACKS + 1).any(|section| rule7(s, section, 0))
}

// Whether a content keeps the rules that need no table, and is in a content list, as far as the table tells.
fn content_keeps(s: &[u8], langs: &Languages, listed: &[u16], k: u16) -> bool
    ensures { result ≡ true → Listed (sheet_of s.now) listed.now → (content_broken (sheet_of s.now) langs.now k || rule12 (sheet_of s.now) contents k) ≡ false }
{
    !content_breaks(s, langs, k) & flagged(listed, k)
}

// Whether a pack breaks rule 6 or 10. Its words are read once: `bad_pack` and `rule10` (rules) each find the record anew, and are asked where
// the sheet ends before it.
#[tactic(auto, unfolding(profile::specs::Rules::bad_pack, profile::specs::Rules::rule10, profile::specs::Rules::outside, sheet::specs::Layout::field))]
fn pack_breaks(s: &[u8], k: u16) -> bool
    ensures { result ≡ (bad_pack (sheet_of s.now) k || rule10 (sheet_of s.now) packs k) }
{
    let at = record_at(s, PACKS, k);
    if ends_before(s, PACKS, at) {
        return bad_pack(s, k) | rule10(s, PACKS, k);
    }
    let kind = word_at(s, at, PACK_KIND);
    let channels = word_at(s, at, PACK_CHANNELS);
    let front = word_at(s, at, PACK_FRONT);
    if kind == KIND_OBJECTS {
        return (1 < front) | (channels != 1);
    }
    (kind != KIND_DIRECT_SPEAKERS)
        | (1 < front)
        | (channels < 1)
        | exceeds(s, CHANNELS_LIMIT, u64::from(channels))
}

// Whether a track breaks rule 5. `first` is where its section begins, which is a premise: `field` would read it again for each track.
#[tactic(auto, unfolding(profile::specs::Rules::rule5, sheet::specs::Layout::field, sheet::specs::Layout::start))]
fn track_breaks(s: &[u8], first: u16, k: u16) -> bool
    ensures { first ≡ offset (sheet_of s.now) tracks → result ≡ rule5 (sheet_of s.now) tracks k }
{
    let at = usize::from(first) + usize::from(k) * usize::from(record_words(TRACKS));
    lacks(s, PACKS, word(s, at + usize::from(TRACK_PACK)))
}

// Whether no record of sections 1 to 5 breaks one. The references are tested with the lists that have them, the value sets with their
// objects.
pub fn records_pass(s: &[u8], langs: &Languages, tables: &RecordTables) -> bool
    ensures { result ≡ true → RecordsTabled (sheet_of s.now) tables.now → RecordsKept (sheet_of s.now) langs.now }
{
    if !all(count(s, PROGRAMMES), |k| !programme_breaks(s, langs, k)) {
        return false;
    }
    if !all(count(s, CONTENTS), |k| {
        content_keeps(s, langs, tables.listed, k)
    }) {
        return false;
    }
    if !all(count(s, OBJECTS), |k| {
        !object_breaks(s, tables.named, &tables.objects, k)
    }) {
        return false;
    }
    if !all(count(s, PACKS), |k| !pack_breaks(s, k)) {
        return false;
    }
    let first = offset(s, TRACKS);
    all(count(s, TRACKS), |k| !track_breaks(s, first, k))
}
