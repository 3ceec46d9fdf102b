// The other end of a link.
ghost use Rattle.std.specs.Prelude.{◌<◌, length, MatchOption};
ghost use Rattle.settle.specs.Ends.{Other, NoEnd};

use network::steps::other_end;
use network::stores::Store;
use network::types::{Figures, Relation};

// The place of the AS at the other end of a link, the relation of the step from there, and the link's figures.
#[derive(Clone, Copy)]
pub struct End {
    pub spot: usize,
    pub relation: Relation,
    pub figures: Figures,
}

// The other end of the link at `spot`, if it is a link of the AS at `place`.
pub fn end_at<S: Store>(store: &S, place: usize, spot: usize) -> Option<End>
    requires { place < length (S.roster store.now) }
    ensures { MatchOption result (NoEnd (S.roster store.now) (S.book store.now) place spot) (λ end. Other (S.roster store.now) (S.book store.now) place spot end) }
{
    let number = store.as_at(place)?;
    let link = store.link_at(spot)?;
    let (end, relation) = other_end(link, number)?;
    Some(End {
        spot: store.place_of(end)?,
        relation,
        figures: link.figures,
    })
}
