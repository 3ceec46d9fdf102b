// Fewer links first, then the greater width, which is that of the narrowest link.
ghost use Rattle.std.specs.Prelude.{Some as SomeT};
ghost use Rattle.measure.specs.HopsWidth.{hops_width, hops_width_text};
ghost use Rattle.measure.specs.HopsWidths.{hops_width_laws};
ghost use Rattle.measure.specs.WidthFirst.{WidthFirstFails};

use crate::Measure;
use network::types::Figures;
use std::fmt;

#[derive(Clone, Copy, PartialEq, Eq, Debug)]
pub struct HopsWidthCost {
    pub hops: u32,
    pub width: u32,
}

impl fmt::Display for HopsWidthCost {
    ghost output = { λ c. SomeT (hops_width_text c) };

    fn fmt<W: fmt::Write>(&self, f: &mut fmt::Formatter<W>) -> fmt::Result {
        write!(f, "{}/{}", self.hops, self.width)
    }
}

pub struct HopsWidth;

impl Measure for HopsWidth {
    type Cost = HopsWidthCost;

    ghost measure = { hops_width };

    ghost laws = { hops_width_laws };

    fn start() -> HopsWidthCost {
        HopsWidthCost {
            hops: 0,
            width: 1_000_000,
        }
    }

    fn extend(cost: HopsWidthCost, figures: Figures) -> HopsWidthCost {
        HopsWidthCost {
            hops: cost.hops + 1,
            width: cost.width.min(figures.width),
        }
    }

    fn less(a: HopsWidthCost, b: HopsWidthCost) -> bool {
        (a.hops, b.width) < (b.hops, a.width)
    }

    fn in_range(cost: HopsWidthCost) -> bool {
        cost.hops <= 1024 && 1 <= cost.width && cost.width <= 1_000_000
    }
}

// The other order, width first and then hops, does not keep all of the laws: width 10 with 5 hops beats width 5 with 1, but behind a
// link of width 3 it loses.
pub fn width_first_fails()
    ensures { WidthFirstFails }
{}
