// The table memory. For n ASes it has 2 · n entries to each destination, one for each AS and class, and a mark for each destination.
#![tactic(auto)]

ghost use Rattle.std.specs.Prelude.{◌≡◌};
ghost use Rattle.table.specs.Columns.{number};

pub mod types;

use legality::types::Class;

// The number of a class, in the place of an entry.
pub fn class_number(class: Class) -> usize
    ensures { result ≡ number class }
{
    class as usize
}
