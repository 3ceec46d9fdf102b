// What an edit enters into the book, and what is asked of it.
ghost use Rattle.std.specs.Prelude.{◌≡◌, []};
ghost use Rattle.network.specs.Books.{entered as entered_link};
ghost use Rattle.network.specs.Limits.{in_limits};
ghost use Rattle.network.specs.Causes.{first_cause, pair_causes, figures_causes};
ghost use Rattle.stores.specs.Refusals.{judged, places};

use network::stores::Store;
use network::types::{EditRefusal, Figures, Link, Relation};

// The places of two ASes, if both are in the store's roster and they are not the same; each look-up refuses by a `let .. else` (a rule).
pub(crate) fn places_of<S: Store>(
    store: &S,
    first: u32,
    second: u32,
) -> Result<(usize, usize), EditRefusal>
    ensures { result ≡ judged (first_cause (pair_causes (S.Store.roster store.now) first second [])) (places (S.Store.roster store.now) first second) }
{
    let Some(place) = store.place_of(first) else {
        return Err(EditRefusal::UnknownFirst);
    };
    let Some(other) = store.place_of(second) else {
        return Err(EditRefusal::UnknownSecond);
    };
    if first == second {
        return Err(EditRefusal::SameAs);
    }
    Ok((place, other))
}

// Whether a figure is in its limits.
fn in_limits(figure: u32) -> bool
    ensures { result ≡ in_limits figure }
{
    (1..=1_000_000).contains(&figure)
}

// Whether both figures are in their limits.
pub(crate) fn check_figures(figures: Figures) -> Result<(), EditRefusal>
    ensures { result ≡ judged (first_cause (figures_causes figures [])) tt }
{
    if !in_limits(figures.delay) {
        return Err(EditRefusal::BadDelay);
    }
    if !in_limits(figures.width) {
        return Err(EditRefusal::BadWidth);
    }
    Ok(())
}

// The link of two ASes, its lower AS first; the relation is what the first is to the second.
pub(crate) fn entered(first: u32, second: u32, relation: Relation, figures: Figures) -> Link
    ensures { result ≡ entered_link first second relation figures }
{
    let relation = if first < second {
        relation
    } else {
        relation.turn()
    };
    Link {
        low: first.min(second),
        high: first.max(second),
        relation,
        figures,
    }
}
