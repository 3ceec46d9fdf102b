// Rosters, and places in them.
ghost use Rattle.std.specs.Prelude.{◌≡◌, true};
ghost use Rattle.network.specs.Rosters.{climbs, place, roster_from};

use network::roster::check_roster;

// The roster that is made of the numbers: no ASes if they are no roster of at most `most`.
pub(crate) fn roster_of(numbers: &[u32], most: usize) -> &[u32]
    ensures { result.now ≡ roster_from most numbers.now }
{
    if check_roster(numbers, most).is_ok() {
        return numbers;
    }
    &[]
}

// The place of an AS in a roster.
pub(crate) fn place_in(roster: &[u32], number: u32) -> Option<usize>
    requires { climbs 0 roster.now ≡ true }
    ensures { result ≡ place roster.now number }
{
    roster.binary_search(&number).ok()
}
