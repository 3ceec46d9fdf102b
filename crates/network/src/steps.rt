// Steps over links, and the relation of a link from either end.
ghost use Rattle.std.specs.Prelude.{◌≡◌};
ghost use Rattle.network.specs.Books.{turned};
ghost use Rattle.network.specs.Steps.{step_of, far_end};

use crate::stores::Store;
use crate::types::{Figures, Link, Relation};

impl Relation {
    // The same link, told from its other end.
    pub fn turn(self) -> Relation
        ensures { result ≡ turned self }
    {
        match self {
            Relation::Provider => Relation::Customer,
            Relation::Customer => Relation::Provider,
            Relation::Peer => Relation::Peer,
        }
    }
}

// The AS at the other end of a link of `number`, and what that AS is to `number`.
pub fn other_end(link: Link, number: u32) -> Option<(u32, Relation)>
    ensures { result ≡ far_end link number }
{
    if link.low == number {
        return Some((link.high, link.relation.turn()));
    }
    if link.high == number {
        return Some((link.low, link.relation));
    }
    None
}

// What `a` is to `b`, and the figures of their link.
pub fn step<S: Store>(store: &S, a: u32, b: u32) -> Option<(Relation, Figures)>
    ensures { result ≡ step_of (S.book store.now) a b }
{
    let link = store.link_of(a, b)?;
    if link.low == a {
        return Some((link.relation, link.figures));
    }
    Some((link.relation.turn(), link.figures))
}
