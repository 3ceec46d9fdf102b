// The walk by the entries, from AS to AS.
ghost use Rattle.std.specs.Prelude.{◌≡◌, ℕ, not, ◌&&◌, List, length, Ok, IfSome};
ghost use Rattle.network.specs.Limits.{Limits};
ghost use Rattle.routes.specs.Raw.{pays};
ghost use Rattle.routes.specs.Columns.{Stands, next_in, walk_in, placed};
ghost use Rattle.routes.specs.Walks.{Links};

use crate::column::{Column, Stop};
use legality::next_class;
use measure::Measure;
use network::steps::step;
use network::stores::Store;
use network::types::Figures;
use table::types::RouteRefusal;

// Whether neither of two costs is less than the other.
fn ties<M: Measure>(a: M::Cost, b: M::Cost) -> bool
    ensures { result ≡ (not (M.measure.less a b) && not (M.measure.less b a)) }
{
    !M::less(a, b) && !M::less(b, a)
}

// Whether a cost is that of a link more than another, and both are in range; `==` of costs would ask more of a measure.
fn pays<M: Measure>(cost: M::Cost, base: M::Cost, figures: Figures) -> bool
    requires { Limits figures }
    ensures { result ≡ pays M.measure cost base figures }
{
    M::in_range(cost) && M::in_range(base) && ties::<M>(cost, M::extend(base, figures))
}

impl<S: Store, M: Measure> Column<'_, S, M> {
    // The stop after one step by the entries, if all is right with it.
    #[tactic(auto, using(crate::proofs::Known::step_limits))]
    fn step_on(&self, from: Stop) -> Option<Stop>
        requires { Stands self.now from }
        ensures is { placed result ≡ next_in self.now from }
        ensures stands { IfSome result (Stands self.now) }
    {
        let entry = self.entry(from);
        // A blank entry's place is no AS's, so one look-up stops at it as at every other false place.
        let place = entry.next as usize;
        let number = self.store.as_at(place)?;
        let (relation, figures) = step(self.store, from.number, number)?;
        let class = next_class(from.class, relation)?;
        let next = Stop {
            number,
            place,
            class,
        };
        pays::<M>(entry.cost, self.owed(next), figures).then_some(next)
    }

    // How many links the walk by the entries has: a `loop` whose breaks are the answer (a rule).
    pub fn count_links(&self, from: Stop) -> Result<usize, RouteRefusal>
        requires { Stands self.now from }
        ensures { Links (walk_in self.now from) result }
    {
        let most = 2 * self.store.as_count();
        let mut at = from;
        let mut count = 0;
        loop {
            if count >= most {
                break Err(RouteRefusal::LongWalk);
            }
            if at.place == self.to {
                break Ok(count);
            }
            let Some(next) = self.step_on(at) else {
                break Err(RouteRefusal::FalseEntry);
            };
            at = next;
            count += 1;
        }
    }

    // Writes the ASes of the walk, which has as many as the slice has places.
    pub fn write_walk(&self, from: Stop, walked: &mut [u32])
        requires from { Stands self.now from }
        requires fits { (p : List ℕ) × (walk_in self.now from ≡ Ok p) × (length p ≡ length walked.old) }
        ensures { walk_in self.now from ≡ Ok walked.new }
    {
        let Some((last, passed)) = walked.split_last_mut() else {
            return;
        };
        let mut at = from;
        for number in passed.iter_mut() {
            *number = at.number;
            let Some(next) = self.step_on(at) else {
                return;
            };
            at = next;
        }
        *last = at.number;
    }
}
