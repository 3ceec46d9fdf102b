// How the cheapest legal paths to an AS are found, over plain functions: the cheapest entry that waits is taken, and its AS makes its
// offers to its neighbours, until nothing waits. The crate has the invariants and the proofs that each step keeps them, and no code
// of its own.
#![tactic(auto)]

ghost use Rattle.labels.specs.Theorems.{LabelsStart, LabelsEnd};

use measure::Measure;

// With the destination's two entries alone, both of them waiting, the invariant holds.
pub fn labels_start<M: Measure>()
    ensures { LabelsStart M.measure }
{}

// When nothing waits any more, the invariant says that the table has the cheapest legal paths.
pub fn labels_end<M: Measure>()
    ensures { LabelsEnd M.measure }
{}
