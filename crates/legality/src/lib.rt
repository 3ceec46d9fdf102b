// Legal paths, and the tables of the cheapest of them. A function for the step rule, and one for each theorem.
#![tactic(auto)]

ghost use Rattle.std.specs.Prelude.{◌≡◌};
ghost use Rattle.legality.specs.Classes.{allowed};
ghost use Rattle.legality.specs.Theorems.{StoresSound, LocalIsGlobal, OneTable, WalksArrive, ServedEverywhere};

pub mod types;

use measure::Measure;
use network::types::Relation;
use types::Class;

// The class of traffic after a step, if it may take it; the relation is what the AS that is left is to the AS that is reached. One `match`
// over both, with guards, is a rule.
pub fn next_class(class: Class, relation: Relation) -> Option<Class>
    ensures { result ≡ allowed class relation }
{
    match (class, relation) {
        (_, Relation::Provider) => Some(Class::Outside),
        (from, Relation::Customer) if from == Class::Home => Some(Class::Home),
        (from, Relation::Peer) if from == Class::Home => Some(Class::Outside),
        _ => None,
    }
}

// The network of every store is sound.
pub fn stores_sound()
    ensures { StoresSound }
{}

// A table has the cheapest legal paths exactly when each entry is the best offer of its neighbours' entries.
pub fn local_is_global<M: Measure>()
    ensures { LocalIsGlobal M.measure }
{}

// There is one table of the cheapest legal paths to an AS.
pub fn one_table<M: Measure>()
    ensures { OneTable M.measure }
{}

// Who goes by a table of the cheapest legal paths comes to its AS, on a cheapest legal path.
pub fn walks_arrive<M: Measure>()
    ensures { WalksArrive M.measure }
{}

// On a legal path each AS but the first and the last has a customer before or after it.
pub fn served_everywhere()
    ensures { ServedEverywhere }
{}
