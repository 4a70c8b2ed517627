// Rules 7, 8 and 10: counts against the limits of the sheet's level.
ghost use Rattle.std.specs.Prelude.{◌≡◌};
ghost use Rattle.profile.specs.Rules.{outside, rule10, rule7, rule8};
ghost use Rattle.sheet.specs.Words.{sheet_of};

use profile::counting::how_many;
use profile::limits::{
    CHANNELS_LIMIT, CHILDREN_LIMIT, COMPLEMENTS_LIMIT, CONTENTS_LIMIT, LABELS_LIMIT, OBJECTS_LIMIT,
    PACKS_LIMIT, PROGRAMME_CONTENTS_LIMIT, PROGRAMME_SETS_LIMIT, PROGRAMMES_LIMIT, SPAN_LIMIT,
    TRACKS_LIMIT, exceeds,
};
use sheet::fields::{
    CHILD_LIST, COMPLEMENT_LIST, CONTENT_LABELS, CONTENT_LIST, CONTENTS, KIND_DIRECT_SPEAKERS,
    KIND_OBJECTS, OBJECTS, PACK_CHANNELS, PACK_KIND, PACKS, PROGRAMME_LABELS, PROGRAMMES, SET_LIST,
    SET_SPAN, TRACKS,
};
use sheet::layout::{count, field, number};

// Below 1 or above the limit.
#[tactic(auto, unfolding(profile::specs::Rules::outside))]
fn outside(s: &[u8], column: u8, n: u16) -> bool
    ensures { result ≡ outside (sheet_of s.now) column n }
{
    (n < 1) | exceeds(s, column, u64::from(n))
}

#[tactic(auto, unfolding(profile::specs::Rules::rule7))]
pub fn rule7(s: &[u8], section: u8, k: u16) -> bool
    ensures { result ≡ rule7 (sheet_of s.now) section k }
{
    match section {
        PROGRAMMES => outside(s, PROGRAMMES_LIMIT, count(s, PROGRAMMES)),
        CONTENTS => outside(s, CONTENTS_LIMIT, count(s, CONTENTS)),
        OBJECTS => outside(s, OBJECTS_LIMIT, count(s, OBJECTS)),
        PACKS => exceeds(
            s,
            PACKS_LIMIT,
            u64::from(how_many(count(s, PACKS), |k| {
                field(s, PACKS, k, PACK_KIND) == KIND_OBJECTS
            })),
        ),
        TRACKS => outside(s, TRACKS_LIMIT, count(s, TRACKS)),
        _ => false,
    }
}

#[tactic(auto, unfolding(profile::specs::Rules::rule8))]
pub fn rule8(s: &[u8], section: u8, k: u16) -> bool
    ensures { result ≡ rule8 (sheet_of s.now) section k }
{
    match section {
        PROGRAMMES => {
            outside(
                s,
                PROGRAMME_CONTENTS_LIMIT,
                number(s, PROGRAMMES, k, CONTENT_LIST),
            ) | exceeds(
                s,
                PROGRAMME_SETS_LIMIT,
                u64::from(number(s, PROGRAMMES, k, SET_LIST)),
            ) | exceeds(
                s,
                LABELS_LIMIT,
                u64::from(number(s, PROGRAMMES, k, PROGRAMME_LABELS)),
            )
        }
        CONTENTS => exceeds(
            s,
            LABELS_LIMIT,
            u64::from(number(s, CONTENTS, k, CONTENT_LABELS)),
        ),
        OBJECTS => {
            exceeds(
                s,
                CHILDREN_LIMIT,
                u64::from(number(s, OBJECTS, k, CHILD_LIST)),
            ) | exceeds(
                s,
                COMPLEMENTS_LIMIT,
                u64::from(number(s, OBJECTS, k, COMPLEMENT_LIST)),
            ) | exceeds(s, SPAN_LIMIT, u64::from(number(s, OBJECTS, k, SET_SPAN)))
        }
        _ => false,
    }
}

#[tactic(auto, unfolding(profile::specs::Rules::rule10))]
pub fn rule10(s: &[u8], section: u8, k: u16) -> bool
    ensures { result ≡ rule10 (sheet_of s.now) section k }
{
    let kind = field(s, PACKS, k, PACK_KIND);
    let channels = field(s, PACKS, k, PACK_CHANNELS);
    (kind == KIND_OBJECTS) & (channels != 1)
        | (kind == KIND_DIRECT_SPEAKERS) & outside(s, CHANNELS_LIMIT, channels)
}
