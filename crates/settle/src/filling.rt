// A column that is being filled.
ghost use Rattle.std.specs.Prelude.{◌≡◌, ℕ, ◌<◌, ◌≤◌, length, Some};
ghost use Rattle.waiting.specs.Lists.{held, memory};

use measure::Measure;
use table::types::Entry;
use waiting::list::Waiting;

pub mod ends;
pub mod fill;
mod links;
pub mod pairs;
mod relax;
mod starts;
mod turns;

// A column, and what waits: places of the column alone, and the list has space for all of them.
#[derive(Drop)]
pub struct Filling<'c, 'w, M: Measure> {
    column: &'c mut [Entry<M::Cost>],
    waiting: Waiting<'w, M>,
    ghost few: { length column.now ≤ 1024 },
    ghost bounded: { (p : ℕ) (k : M.Cost) → held waiting p ≡ Some k → p < length column.now },
    ghost spacious: { length column.now ≤ length (memory waiting) },
}
