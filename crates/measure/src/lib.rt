// What a path can be measured by: its cost, and the laws that every measure keeps.
#![tactic(auto)]

ghost use Rattle.std.specs.Prelude.{◌≡◌};
ghost use Rattle.network.specs.Limits.{Limits};
ghost use Rattle.measure.specs.Measures.{Measure as MeasureT, Laws, Within};

use network::types::Figures;

pub mod delay;
pub mod hops_width;

// A measure tells what no link costs, what one more link in front makes of a cost, which cost is less, and which costs are in range. Two
// costs that are compared are two arguments, and two measures two impls: a struct or a macro would only wrap them.
pub trait Measure {
    type Cost: Copy;

    ghost measure: { MeasureT Self.Cost };

    fn start() -> Self::Cost
        ensures { result ≡ measure.start };

    fn extend(cost: Self::Cost, figures: Figures) -> Self::Cost
        requires within { Within measure cost }
        requires limits { Limits figures }
        ensures { result ≡ measure.extend cost figures };

    fn less(a: Self::Cost, b: Self::Cost) -> bool
        ensures { result ≡ measure.less a b };

    fn in_range(cost: Self::Cost) -> bool
        ensures { result ≡ measure.within cost };

    ghost laws: { Laws measure };
}
