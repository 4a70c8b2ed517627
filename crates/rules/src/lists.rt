// Rules 4, 5 and 9: lists and the indices and labels in them. That a table is right is a premise, as lib.rt tells.
ghost use Rattle.std.specs.Prelude.{◌≡◌};
ghost use Rattle.profile.specs.Rules.{beyond, list_lacks, rule4, rule5, rule9};
ghost use Rattle.rules.specs.steps.Loops.{first_target, second_target};
ghost use Rattle.runs.specs.steps.Runs.{LacksRight, RepeatRight};
ghost use Rattle.sheet.specs.Words.{sheet_of};

use crate::repeats::repeats_by;
use relations::entries::any_entry;
use relations::objects::{has_pack, lacks, pack_of};
use runs::reads::look_up;
use sheet::fields::{
    CHILD_LIST, COMPLEMENT_LIST, CONTENT_LABELS, CONTENT_LIST, CONTENT_OBJECT, CONTENTS, OBJECTS,
    PACKS, PROGRAMME_LABELS, PROGRAMMES, REFERENCES, SET_LIST, SET_SPAN, TRACK_LIST, TRACK_PACK,
    TRACKS, VALUE_SETS,
};
use sheet::layout::{count, field};
use sheet::spans::Span;

// The list or span at a position of a record ends beyond the target section.
#[tactic(auto, unfolding(profile::specs::Rules::beyond))]
fn beyond(s: &[u8], target: u8, section: u8, k: u16, at: u8) -> bool
    ensures { result ≡ beyond (sheet_of s.now) target section k at }
{
    Span::at(s, section, k, at).is_beyond(count(s, target))
}

#[tactic(auto, unfolding(profile::specs::Rules::rule4))]
pub fn rule4(s: &[u8], section: u8, k: u16) -> bool
    ensures { result ≡ rule4 (sheet_of s.now) section k }
{
    match section {
        PROGRAMMES => beyond(s, REFERENCES, PROGRAMMES, k, CONTENT_LIST)
            | beyond(s, REFERENCES, PROGRAMMES, k, SET_LIST)
            | beyond(s, REFERENCES, PROGRAMMES, k, PROGRAMME_LABELS),
        CONTENTS => beyond(s, REFERENCES, CONTENTS, k, CONTENT_LABELS),
        OBJECTS => {
            beyond(s, REFERENCES, OBJECTS, k, TRACK_LIST)
                | beyond(s, REFERENCES, OBJECTS, k, CHILD_LIST)
                | beyond(s, REFERENCES, OBJECTS, k, COMPLEMENT_LIST)
                | beyond(s, VALUE_SETS, OBJECTS, k, SET_SPAN)
        }
        _ => false,
    }
}

// An entry of the list at a position of a record names an index that the target section lacks.
fn list_lacks(s: &[u8], target: u8, section: u8, k: u16, at: u8) -> bool
    ensures { result ≡ list_lacks (sheet_of s.now) target section k at }
{
    any_entry(s, section, k, at, |e| lacks(s, target, e))
}

// The same, by the table where it has the list.
fn list_lacks_by(s: &[u8], next: &[u16], target: u8, section: u8, k: u16, at: u8) -> bool
    ensures { LacksRight (sheet_of s.now) target next.now → result ≡ list_lacks (sheet_of s.now) target section k at }
{
    look_up(s, next, section, k, at).unwrap_or_else(|| list_lacks(s, target, section, k, at))
}

// The section that contents, or tracks, are listed for. This function and the next are the definitions of their names, which contracts cite;
// a pair would be taken apart at each use.
#[tactic(auto, unfolding(crate::specs::steps::Loops::first_target))]
pub fn first_target(section: u8) -> u8
    ensures { result ≡ first_target section }
{
    if section == PROGRAMMES {
        CONTENTS
    } else {
        TRACKS
    }
}

// The section that value sets, or objects, are listed for.
#[tactic(auto, unfolding(crate::specs::steps::Loops::second_target))]
pub fn second_target(section: u8) -> u8
    ensures { result ≡ second_target section }
{
    if section == PROGRAMMES {
        VALUE_SETS
    } else {
        OBJECTS
    }
}

// It is lent a table for each of the two sections that the lists name records of.
#[tactic(auto, unfolding(profile::specs::Rules::rule5))]
pub fn rule5(s: &[u8], first: &[u16], second: &[u16], section: u8, k: u16) -> bool
    ensures { LacksRight (sheet_of s.now) (first_target section) first.now → LacksRight (sheet_of s.now) (second_target section) second.now → result ≡ rule5 (sheet_of s.now) section k }
{
    match section {
        PROGRAMMES => list_lacks_by(s, first, CONTENTS, PROGRAMMES, k, CONTENT_LIST)
            | list_lacks_by(s, second, VALUE_SETS, PROGRAMMES, k, SET_LIST),
        CONTENTS => lacks(s, OBJECTS, field(s, CONTENTS, k, CONTENT_OBJECT)),
        OBJECTS => {
            has_pack(s, k) & lacks(s, PACKS, pack_of(s, k))
                | list_lacks_by(s, first, TRACKS, OBJECTS, k, TRACK_LIST)
                | list_lacks_by(s, second, OBJECTS, OBJECTS, k, CHILD_LIST)
                | list_lacks_by(s, second, OBJECTS, OBJECTS, k, COMPLEMENT_LIST)
        }
        TRACKS => lacks(s, PACKS, field(s, TRACKS, k, TRACK_PACK)),
        _ => false,
    }
}

#[tactic(auto, unfolding(profile::specs::Rules::rule9))]
pub fn rule9(s: &[u8], next: &[u16], section: u8, k: u16) -> bool
    ensures { RepeatRight (sheet_of s.now) next.now → result ≡ rule9 (sheet_of s.now) section k }
{
    match section {
        PROGRAMMES => repeats_by(s, next, PROGRAMMES, k, PROGRAMME_LABELS),
        CONTENTS => repeats_by(s, next, CONTENTS, k, CONTENT_LABELS),
        _ => false,
    }
}
