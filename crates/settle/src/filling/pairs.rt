// Pairs of an AS's place and a class: each has an entry in a column.
ghost use Rattle.std.specs.Prelude.{◌≡◌, ◌<◌};
ghost use Rattle.table.specs.Columns.{pair};

use legality::types::Class;
use table::class_number;
use waiting::types::Slot;

// Where the entry of the AS at `spot` stands, for a class. The two are passed as two words, since an offer goes to one place in both
// classes.
// This function is here and not in the crate `table`, since a public function asks nothing of its callers.
pub fn entry_place(spot: usize, class: Class) -> usize
    requires { pair spot class < 1024 }
    ensures { result ≡ pair spot class }
{
    2 * spot + class_number(class)
}

// The pair that was taken last: the place of its AS, its class, and its cost.
#[derive(Clone, Copy)]
pub struct Taken<C> {
    pub place: usize,
    pub class: Class,
    pub cost: C,
}

impl<C: Copy> From<Slot<C>> for Taken<C> {
    ghost from_gives = { λ slot taken. (pair taken.place taken.class ≡ slot.place) × (taken.cost ≡ slot.cost) };

    fn from(slot: Slot<C>) -> Taken<C> {
        let place = slot.place as usize;
        // The class of a waiting place: the inverse of `entry_place`.
        let class = if place % 2 == 0 {
            Class::Home
        } else {
            Class::Outside
        };
        Taken {
            place: place / 2,
            class,
            cost: slot.cost,
        }
    }
}
