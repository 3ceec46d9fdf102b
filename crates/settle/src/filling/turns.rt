// Pairs are taken until none waits.
ghost use Rattle.std.specs.Prelude.{ℕ};
ghost use Rattle.settle.specs.Memory.{SameColumn};
ghost use Rattle.settle.specs.States.{Between, Ended};

use crate::filling::Filling;
use measure::Measure;
use network::stores::Store;

impl<M: Measure> Filling<'_, '_, M> {
    // Takes the cheapest pair and has it make its offers, until none waits: the column has the cheapest legal paths then.
    pub fn settle_pairs<S: Store>(&mut self, store: &S)
        requires before { (d : ℕ) × Between (S.roster store.now) (S.book store.now) d self.old }
        ensures after { (d : ℕ) → Between (S.roster store.now) (S.book store.now) d self.old → Ended M.measure (S.roster store.now) (S.book store.now) d self.new.column.now }
        ensures lent { SameColumn self.old self.new }
    {
        while let Some(slot) = self.waiting.take() {
            self.relax_links(store, slot.into());
        }
    }
}
