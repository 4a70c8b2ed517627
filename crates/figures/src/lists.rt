// Figures in sixteen places.
ghost use Rattle.std.specs.Prelude.{take, ◌≡◌};
ghost use Rattle.figures.specs.Lists.{no_figures, with_figure};

use crate::{Figure, FigureNumber, Figures, MOST_FIGURES};

// What stands where there is no figure. A derived `Default` would need a variant of `FigureNumber` without a number.
const NO_FIGURE: Figure = Figure {
    section: 0,
    index: 0,
    number: FigureNumber::Word(0),
};

impl Figures {
    // No figures.
    pub fn new() -> Figures
        ensures { result ≡ no_figures }
    {
        Figures {
            count: 0,
            lines: [NO_FIGURE; MOST_FIGURES],
        }
    }

    // One figure more; a list that is full stays as it is.
    #[tactic(auto, unfolding(crate::specs::Lists::with_figure))]
    pub fn push(&mut self, figure: Figure)
        ensures { self.new ≡ with_figure self.old figure }
    {
        if self.count < MOST_FIGURES {
            self.lines[self.count] = figure;
            self.count += 1;
        }
    }

    // The figures that are there.
    pub fn as_slice(&self) -> &[Figure]
        ensures { result.now ≡ take self.now.count self.now.lines }
    {
        &self.lines[..self.count.min(MOST_FIGURES)]
    }
}
