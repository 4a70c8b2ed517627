// Rule 24: "each group's (under its leader) and lone object's share by rising record".
ghost use Rattle.std.specs.Prelude.{◌≡◌};
ghost use Rattle.figures.specs.Lists.{first_figures, no_figures};
ghost use Rattle.figures.specs.Shares.{has_share, share_figure, share_figures, share_list};
ghost use Rattle.sheet.specs.Words.{sheet_of};

use crate::{Figure, FigureNumber, Figures};
use relations::objects::leader;
use sheet::fields::OBJECTS;
use sheet::layout::count;
use tables::ObjectTables;

// No tables: each relation is found by its own search. Rule 24 is told of once.
const NO_TABLES: ObjectTables<'static> = ObjectTables {
    tops: &[],
    complements: &[],
};

// A leader or a lone object.
#[tactic(auto, unfolding(crate::specs::Shares::has_share))]
fn has_share(s: &[u8], o: u16) -> bool
    ensures { result ≡ has_share (sheet_of s.now) o }
{
    leader(s, o) | NO_TABLES.lone_by(s, o)
}

// Its share, as a figure.
fn share_figure(s: &[u8], o: u16) -> Figure
    ensures { result ≡ share_figure (sheet_of s.now) o }
{
    Figure {
        section: OBJECTS,
        index: o,
        number: FigureNumber::Derived(NO_TABLES.share(s, o)),
    }
}

// The share of an object that has one, behind those before it.
#[tactic(auto, unfolding(crate::specs::Shares::share_figures, crate::specs::Lists::first_figures))]
fn push_share(s: &[u8], o: u16, given: &mut Figures)
    ensures { given.new ≡ first_figures given.old (share_figures (sheet_of s.now) o) }
{
    if has_share(s, o) {
        given.push(share_figure(s, o));
    }
}

// The shares of all objects that have one.
pub fn shares(s: &[u8]) -> Figures
    ensures { result ≡ first_figures no_figures (share_list (sheet_of s.now)) }
{
    let mut given = Figures::new();
    for o in 0..count(s, OBJECTS) {
        push_share(s, o, &mut given);
    }
    given
}
