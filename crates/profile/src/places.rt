// The numbers that document 01 gives verdicts and places.
ghost use Rattle.std.specs.Prelude.{◌<◌, ◌≡◌};
ghost use Rattle.profile.specs.Verdict.{place_at, record_of, section_of, verdict_code};

use crate::{Place, Verdict};
use sheet::fields::{CONTENTS, OBJECTS, PACKS, PROGRAMMES, REFERENCES, TRACKS, VALUE_SETS};

// Sections are numbers here, as in document 01 and in its definitions. `at` gives the header where no section has the number: the
// definition holds for every number, and an enum of sections would ask more of callers.
impl Place {
    // The section of a place.
    pub fn section(self) -> u32
        ensures { (result ≡ section_of self) × (result < 8) }
    {
        u32::from(match self {
            Place::Header => 0,
            Place::Programme(_) => PROGRAMMES,
            Place::Content(_) => CONTENTS,
            Place::Object(_) => OBJECTS,
            Place::Pack(_) => PACKS,
            Place::Track(_) => TRACKS,
            Place::Reference(_) => REFERENCES,
            Place::ValueSet(_) => VALUE_SETS,
        })
    }

    // The record of a place, 0 for the header.
    pub fn record(self) -> u32
        ensures { (result ≡ record_of self) × (result < 65536) }
    {
        match self {
            Place::Header => 0,
            Place::Programme(k)
            | Place::Content(k)
            | Place::Object(k)
            | Place::Pack(k)
            | Place::Track(k)
            | Place::Reference(k)
            | Place::ValueSet(k) => u32::from(k),
        }
    }

    // The place of a section and a record.
    #[tactic(auto, unfolding(crate::specs::Verdict::place_at), using(crate::proofs::PlaceLaws::header_place))]
    pub fn at(section: u8, k: u16) -> Place
        ensures { result ≡ place_at section k }
    {
        match section {
            PROGRAMMES => Place::Programme(k),
            CONTENTS => Place::Content(k),
            OBJECTS => Place::Object(k),
            PACKS => Place::Pack(k),
            TRACKS => Place::Track(k),
            REFERENCES => Place::Reference(k),
            VALUE_SETS => Place::ValueSet(k),
            _ => Place::Header,
        }
    }
}

// 0, or 1,000,000 times the rule plus 100,000 times the section plus the record.
impl From<Verdict> for u32 {
    ghost from_gives = { λ verdict n. n ≡ verdict_code verdict };

    fn from(verdict: Verdict) -> u32 {
        match verdict {
            Verdict::Accepted => 0,
            Verdict::Broken(rule, place) => {
                1_000_000 * u32::from(rule) + 100_000 * place.section() + place.record()
            }
        }
    }
}
