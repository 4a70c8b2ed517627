// The figures of a refusal, by the verdict.
ghost use Rattle.std.specs.Prelude.{◌≡◌};
ghost use Rattle.figures.specs.Figures.{clash_figures, figures_by, figures_of};
ghost use Rattle.figures.specs.Lists.{first_figures, no_figures};
ghost use Rattle.sheet.specs.Words.{sheet_of};

use crate::members::leader_clash;
use crate::ranges::range_clashes;
use crate::shares::shares;
use crate::{Clash, Figures};
use profile::{Place, Verdict};

// The two figures of a clash.
#[tactic(auto, unfolding(crate::specs::Figures::clash_figures, crate::specs::Lists::first_figures))]
fn clash_figures(clash: Option<Clash>) -> Figures
    ensures { result ≡ first_figures no_figures (clash_figures clash) }
{
    let mut given = Figures::new();
    if let Some(clash) = clash {
        given.push(clash.first);
        given.push(clash.second);
    }
    given
}

// The figures of a rule that is broken at a place.
#[tactic(auto, unfolding(crate::specs::Figures::figures_of, crate::specs::Lists::first_figures))]
fn figures_of(s: &[u8], rule: u8, place: Place) -> Figures
    ensures { result ≡ first_figures no_figures (figures_of (sheet_of s.now) rule place) }
{
    // a record is below 65536, by the contract of `record`
    let k = place.record() as u16;
    // the rules have document 01's numbers, as in the verdict: an enum of rules would be made of the verdict's number by this same match
    match rule {
        18 => clash_figures(range_clashes(s, place.section(), k)),
        20 => clash_figures(leader_clash(s, k)),
        24 => shares(s),
        _ => Figures::new(),
    }
}

// The first figures of a verdict on a sheet; there are no more where the verdict is the sheet's own, under whatever list of languages
// (`figures_most`, proofs/Theorems.antt).
#[tactic(auto, unfolding(crate::specs::Figures::figures_by, crate::specs::Lists::first_figures))]
pub fn figures_by(s: &[u8], verdict: Verdict) -> Figures
    ensures { result ≡ first_figures no_figures (figures_by (sheet_of s.now) verdict) }
{
    match verdict {
        Verdict::Accepted => Figures::new(),
        Verdict::Broken(rule, place) => figures_of(s, rule, place),
    }
}
