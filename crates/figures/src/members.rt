// Rule 20: "the leader's, then the member's unequal word or kind". A leader and a member are two object numbers, as in the definitions that
// the contracts cite: each is looked up by itself, so a struct of the two would be taken apart wherever a word is read.
ghost use Rattle.std.specs.Prelude.{not, ◌≡◌};
ghost use Rattle.figures.specs.Clashes.{clash};
ghost use Rattle.figures.specs.Members.{kind_clash, kind_figure, leader_clash, member_clash, word_clash, word_clashes};
ghost use Rattle.figures.specs.contracts.FigureNumberPartialEq.TheImpl.{eq-value};
ghost use Rattle.sheet.specs.Words.{sheet_of};

use crate::{Clash, Figure, FigureNumber, WordPlace};
use relations::objects::kind;
use sheet::fields::{
    COMPLEMENT_LIST, INTERACT, OBJECT_GAIN, OBJECT_GAIN_MAXIMUM, OBJECT_GAIN_MINIMUM,
    OBJECT_OFFSET, OBJECT_OFFSET_MAXIMUM, OBJECT_OFFSET_MINIMUM, OBJECTS,
};
use sheet::layout::{entry, number};

// "interact, gain, offset, the four range words", in this order.
const COMPARED: [u8; 7] = [
    INTERACT,
    OBJECT_GAIN,
    OBJECT_OFFSET,
    OBJECT_GAIN_MINIMUM,
    OBJECT_GAIN_MAXIMUM,
    OBJECT_OFFSET_MINIMUM,
    OBJECT_OFFSET_MAXIMUM,
];

// Two figures side by side, where their numbers are unequal.
fn unequal(first: Figure, second: Figure) -> Option<Clash>
    ensures { result ≡ clash (not (eq-value.it first.number second.number)) first second }
{
    (first.number != second.number).then_some(Clash { first, second })
}

// A word of the leader against the member's.
#[tactic(auto, unfolding(crate::specs::Members::word_clash))]
fn word_clash(s: &[u8], l: u16, q: u16, at: u8) -> Option<Clash>
    ensures { result ≡ word_clash (sheet_of s.now) l q at }
{
    unequal(
        WordPlace::in_object(l, at).told(s),
        WordPlace::in_object(q, at).told(s),
    )
}

// An object's kind, as a figure.
fn kind_figure(s: &[u8], o: u16) -> Figure
    ensures { result ≡ kind_figure (sheet_of s.now) o }
{
    Figure {
        section: OBJECTS,
        index: o,
        number: FigureNumber::Derived(u32::from(kind(s, o))),
    }
}

// The leader's kind against the member's.
#[tactic(auto, unfolding(crate::specs::Members::kind_clash))]
fn kind_clash(s: &[u8], l: u16, q: u16) -> Option<Clash>
    ensures { result ≡ kind_clash (sheet_of s.now) l q }
{
    unequal(kind_figure(s, l), kind_figure(s, q))
}

// The first unequal word.
fn word_clashes(s: &[u8], l: u16, q: u16) -> Option<Clash>
    ensures { result ≡ word_clashes (sheet_of s.now) l q }
{
    COMPARED.iter().find_map(|at| word_clash(s, l, q, *at))
}

// What a leader and a member differ in first: the words, then the kinds.
#[tactic(auto, unfolding(crate::specs::Members::member_clash, crate::specs::Clashes::earlier))]
fn member_clash(s: &[u8], l: u16, q: u16) -> Option<Clash>
    ensures { result ≡ member_clash (sheet_of s.now) l q }
{
    word_clashes(s, l, q).or(kind_clash(s, l, q))
}

// The first clash of a leader: "by member in list order".
pub fn leader_clash(s: &[u8], l: u16) -> Option<Clash>
    ensures { result ≡ leader_clash (sheet_of s.now) l }
{
    (0..number(s, OBJECTS, l, COMPLEMENT_LIST)).find_map(|i| {
        member_clash(s, l, entry(s, OBJECTS, l, COMPLEMENT_LIST, i))
    })
}
