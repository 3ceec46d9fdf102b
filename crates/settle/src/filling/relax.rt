// One offer to one entry of a column.
ghost use Rattle.std.specs.Prelude.{◌<◌, length};
ghost use Rattle.table.specs.Columns.{pair};
ghost use Rattle.settle.specs.Memory.{SameColumn};
ghost use Rattle.settle.specs.Offers.{Ready, Offered, Told};

use crate::filling::Filling;
use crate::filling::pairs::entry_place;
use legality::next_class;
use legality::types::Class;
use measure::Measure;
use network::types::Relation;
use table::types::Entry;

impl<M: Measure> Filling<'_, '_, M> {
    // The entry at `place` is offered `offer` in place of what it holds.
    fn relax(&mut self, place: usize, offer: Entry<M::Cost>)
        requires within { place < length self.old.column.now }
        requires ready { Ready self.old place offer.cost }
        ensures offered { Offered offer place self.old self.new }
        ensures lent { SameColumn self.old self.new }
    {
        let old = self.column[place];
        if old.next_place().is_none() {
            self.column[place] = offer;
            let _ = self.waiting.put(place as u32, offer.cost);
            return;
        }
        // Costs are compared by the measure's `less`, here and below: an `Ord` of costs would ask more of a measure.
        if M::less(offer.cost, old.cost) {
            self.column[place] = offer;
            let _ = self.waiting.lower(place as u32, offer.cost);
            return;
        }
        if M::less(old.cost, offer.cost) {
            return;
        }
        if offer.next < old.next {
            self.column[place] = offer;
        }
    }

    // The AS at `spot` is offered `offer` for one class, if a step of that relation leads the class to `goal`.
    pub(super) fn relax_class(
        &mut self,
        spot: usize,
        class: Class,
        relation: Relation,
        goal: Class,
        offer: Entry<M::Cost>,
    )
        requires within { pair spot class < length self.old.column.now }
        requires ready { Ready self.old (pair spot class) offer.cost }
        ensures told { Told class relation goal offer (pair spot class) self.old self.new }
        ensures lent { SameColumn self.old self.new }
    {
        if next_class(class, relation) == Some(goal) {
            self.relax(entry_place(spot, class), offer);
        }
    }
}
