// The links of the pair that was taken last.
ghost use Rattle.std.specs.Prelude.{ℕ, ◌+◌, ◌<◌, length};
ghost use Rattle.legality.specs.Tables.{Table};
ghost use Rattle.settle.specs.Memory.{SameColumn};
ghost use Rattle.settle.specs.States.{Midway};

use crate::filling::Filling;
use crate::filling::ends::end_at;
use crate::filling::pairs::Taken;
use legality::types::Class;
use measure::Measure;
use network::stores::Store;
use table::types::Entry;

impl<M: Measure> Filling<'_, '_, M> {
    // The pair `from` makes its offers over the link at `spot`.
    fn relax_link<S: Store>(&mut self, store: &S, from: Taken<M::Cost>, spot: usize)
        requires known { from.place < length (S.roster store.now) }
        requires before { (d : ℕ) × (q : Table (M.Cost)) × Midway (S.roster store.now) (S.book store.now) from spot d q self.old }
        ensures after { (d : ℕ) (q : Table (M.Cost)) → Midway (S.roster store.now) (S.book store.now) from spot d q self.old → Midway (S.roster store.now) (S.book store.now) from (spot + 1) d q self.new }
        ensures lent { SameColumn self.old self.new }
    {
        let Some(end) = end_at(store, from.place, spot) else {
            return;
        };
        let offer = Entry {
            next: from.place as u16,
            cost: M::extend(from.cost, end.figures),
        };
        self.relax_class(end.spot, Class::Home, end.relation, from.class, offer);
        self.relax_class(end.spot, Class::Outside, end.relation, from.class, offer);
    }

    // The pair `from` makes its offers over each link; a store answers for a link by its place, so the loop is over places.
    pub(super) fn relax_links<S: Store>(&mut self, store: &S, from: Taken<M::Cost>)
        requires known { from.place < length (S.roster store.now) }
        requires before { (d : ℕ) × (q : Table (M.Cost)) × Midway (S.roster store.now) (S.book store.now) from 0 d q self.old }
        ensures after { (d : ℕ) (q : Table (M.Cost)) → Midway (S.roster store.now) (S.book store.now) from 0 d q self.old → Midway (S.roster store.now) (S.book store.now) from (length (S.book store.now)) d q self.new }
        ensures lent { SameColumn self.old self.new }
    {
        for spot in 0..store.link_count() {
            self.relax_link(store, from, spot);
        }
    }
}
