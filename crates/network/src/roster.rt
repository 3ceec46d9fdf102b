// The roster check.
ghost use Rattle.std.specs.Prelude.{◌≡◌};
ghost use Rattle.network.specs.Rosters.{roster_answer};

use crate::types::RosterRefusal;

// The most ASes that a roster may have.
pub const MOST_ASES: usize = 512;

// Whether the numbers are a roster of at most `most` ASes: not empty, none of them 0, strictly increasing.
pub fn check_roster(numbers: &[u32], most: usize) -> Result<(), RosterRefusal>
    ensures { result ≡ roster_answer most numbers.now }
{
    let positive = numbers.first().is_some_and(|first| *first > 0);
    if positive && numbers.len() <= most && numbers.is_sorted_by(|a, b| a < b) {
        Ok(())
    } else {
        Err(RosterRefusal::NotARoster)
    }
}
