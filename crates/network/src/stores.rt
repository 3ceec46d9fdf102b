// What a store of links lets ask and edit.
ghost use Rattle.std.specs.Prelude.{◌≡◌, ℕ, List, length, slice_get};
ghost use Rattle.network.specs.declared.types.Link.{Link as LinkT};
ghost use Rattle.network.specs.Rosters.{place};
ghost use Rattle.network.specs.Books.{link_of};
ghost use Rattle.network.specs.Sound.{Sound};
ghost use Rattle.network.specs.Edits.{Links, Recosts, Unlinks};

use crate::types::{EditRefusal, Figures, Link};

// A store that answers questions about its roster and its book of links; places count from 0.
pub trait Store {
    ghost roster: { Self → List ℕ };

    ghost book: { Self → List LinkT };

    fn as_count(&self) -> usize
        ensures { result ≡ length (roster self.now) };

    fn link_count(&self) -> usize
        ensures { result ≡ length (book self.now) };

    // The AS at a place.
    fn as_at(&self, spot: usize) -> Option<u32>
        ensures { result ≡ slice_get (roster self.now) spot };

    // The place of an AS.
    fn place_of(&self, number: u32) -> Option<usize>
        ensures { result ≡ place (roster self.now) number };

    // The link at a place.
    fn link_at(&self, spot: usize) -> Option<Link>
        ensures { result ≡ slice_get (book self.now) spot };

    // The link of two ASes, named in either order; its lower AS comes first.
    fn link_of(&self, first: u32, second: u32) -> Option<Link>
        ensures { result ≡ link_of (book self.now) first second };

    ghost sound: { (s : Self) → Sound (roster s) (book s) };
}

// A store that also takes edits of its book. Two ASes are named in order, the first looked up before the second (a struct of both
// would only wrap them). The relation is what the first is to the second: 1 its provider, 2 its customer, 3 its peer; it is a number,
// since link is asked to refuse another one (a rule). Each store has the same signatures, and refuses in the same order before it does what
// its own memory needs: shared code would take all of these as parameters again.
pub trait EditableStore: Store {
    ghost limit: { Self → ℕ };

    // The most links that the book may have.
    fn link_limit(&self) -> usize
        ensures { result ≡ limit self.now };

    fn link(
        &mut self,
        first: u32,
        second: u32,
        relation: u32,
        figures: Figures,
    ) -> Result<(), EditRefusal>
        ensures { Links first second relation figures (Self.Store.roster self.old) (Self.Store.roster self.new) (Self.Store.book self.old) (Self.Store.book self.new) (limit self.old) (limit self.new) result };

    // New figures for a link; its relation stays.
    fn recost(&mut self, first: u32, second: u32, figures: Figures) -> Result<(), EditRefusal>
        ensures { Recosts first second figures (Self.Store.roster self.old) (Self.Store.roster self.new) (Self.Store.book self.old) (Self.Store.book self.new) (limit self.old) (limit self.new) result };

    fn unlink(&mut self, first: u32, second: u32) -> Result<(), EditRefusal>
        ensures { Unlinks first second (Self.Store.roster self.old) (Self.Store.roster self.new) (Self.Store.book self.old) (Self.Store.book self.new) (limit self.old) (limit self.new) result };
}
