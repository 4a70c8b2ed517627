// What a programme gives its objects.
ghost use Rattle.std.specs.Prelude.{◌≡◌};
ghost use Rattle.granted.specs.Granted.{in_whole_group, start_value, starts_active};
ghost use Rattle.granted.specs.steps.NamedSet.{granted_range, named_for, range_by, set_place, start_by};
ghost use Rattle.granted.specs.steps.Tables.{ProgrammeTabled};
ghost use Rattle.sheet.specs.Words.{sheet_of};

use crate::{ProgrammeTables, Range};
use profile::counting::lowest;
use relations::objects::leader;
use relations::programmes::named_set;
use relations::sets::{Values, effective_value, effective_values, object_values, own_value};
use sheet::fields::{OBJECTS, PROGRAMMES, SET_LIST, SET_SPAN};
use sheet::layout::number;
use sheet::spans::Span;
use values::Sort;

// Where the programme's set list has the first set of the object, the list's length where it has none: `lowest` answers the number of
// places for none, as its definition does.
fn set_place(s: &[u8], p: u16, o: u16) -> u16
    ensures { result ≡ set_place (sheet_of s.now) p o }
{
    let span = Span::at(s, OBJECTS, o, SET_SPAN);
    let to = span.end();
    let sets = Span::at(s, PROGRAMMES, p, SET_LIST).entries(s);
    lowest(sets.list.count, |i| {
        let v = sets.at(s, i);
        (span.first <= v) & (u32::from(v) < to)
    })
}

// The set that the programme names for the object. Many programmes name none.
pub fn named_for(s: &[u8], p: u16, o: u16) -> Option<u16>
    ensures { result ≡ named_for (sheet_of s.now) p o }
{
    let n = number(s, PROGRAMMES, p, SET_LIST);
    if n == 0 {
        return None;
    }
    let i = set_place(s, p, o);
    if i < n {
        Some(named_set(s, p, i))
    } else {
        None
    }
}

// "included objects take the effective gain and offset of the set that the programme names, or their own, or 0". An object and the set that
// is named for it go through three functions of this crate: a struct of the two would be taken apart in each equation, since a set's
// effective words are functions of object and set (`effective_value`), and an object's own of the object alone.
#[tactic(auto, unfolding(crate::specs::steps::NamedSet::start_by))]
pub fn start_by(s: &[u8], o: u16, named: Option<u16>, sort: Sort) -> u16
    ensures { result ≡ start_by (sheet_of s.now) o named sort }
{
    match named {
        Some(set) => effective_value(s, o, set, sort),
        None => own_value(s, o, sort),
    }
}

// The start value of an object that a programme includes.
#[tactic(auto, using(crate::proofs::NamedLaws::start_named))]
pub fn start_value(s: &[u8], p: u16, o: u16, sort: Sort) -> u16
    ensures { result ≡ start_value (sheet_of s.now) p o sort }
{
    start_by(s, o, named_for(s, p, o), sort)
}

impl From<Values> for Range {
    ghost from_gives = { λ values range. (range.minimum ≡ values.minimum) × (range.maximum ≡ values.maximum) };

    fn from(values: Values) -> Range {
        Range {
            minimum: values.minimum,
            maximum: values.maximum,
        }
    }
}

// "ranges come from the programme's set, else the object"
#[tactic(auto, unfolding(crate::specs::steps::NamedSet::range_by))]
pub fn range_by(s: &[u8], o: u16, named: Option<u16>, sort: Sort) -> Range
    ensures { result ≡ range_by (sheet_of s.now) o named sort }
{
    match named {
        Some(set) => Range::from(effective_values(s, o, set, sort)),
        None => Range::from(object_values(s, o, sort)),
    }
}

// The range that the sheet grants the object.
#[tactic(auto, using(crate::proofs::NamedLaws::range_named))]
pub fn granted_range(s: &[u8], p: u16, o: u16, sort: Sort) -> Range
    ensures { result ≡ granted_range (sheet_of s.now) p o sort }
{
    range_by(s, o, named_for(s, p, o), sort)
}

// Whether the object is in a group that the programme wholly includes.
pub fn in_whole_group(s: &[u8], p: u16, o: u16) -> bool
    ensures { result ≡ in_whole_group (sheet_of s.now) p o }
{
    let tables = ProgrammeTables {
        programme: p,
        leaders: &[],
        included: &[],
    };
    tables.in_whole_group(s, o)
}

impl<'a> ProgrammeTables<'a> {
    // "Active are included objects, but of a wholly included group the leader only."
    #[tactic(auto, unfolding(crate::specs::Granted::starts_active))]
    pub fn starts_active(&self, s: &[u8], o: u16) -> bool
        ensures { ProgrammeTabled (sheet_of s.now) self.now → result ≡ starts_active (sheet_of s.now) self.now.programme o }
    {
        !self.in_whole_group(s, o) | leader(s, o)
    }
}
