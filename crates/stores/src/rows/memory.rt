// The memory of the row store.
ghost use Rattle.std.specs.Prelude.{◌≡◌, ◌≤◌, true, length, take};
ghost use Rattle.network.specs.Rosters.{climbs};
ghost use Rattle.stores.specs.Ranks.{is_book};

use network::types::Link;

// The most links of a row store, however much memory it is handed.
pub const MOST_LINKS: usize = 16_384;

// A roster, and the links in the first `used` rows of the memory handed in, in the order of the book.
// The caller lends the rows, and what stands behind the book in them stays: so a count, and no list that grows.
#[derive(Drop)]
pub struct RowStore<'a, 'b> {
    pub(super) roster: &'a [u32],
    pub(super) rows: &'b mut [Link],
    pub(super) used: usize,
    ghost few: { length roster.now ≤ 512 },
    ghost rising: { climbs 0 roster.now ≡ true },
    ghost room: { used ≤ length rows.now },
    ghost limited: { used ≤ 16384 },
    ghost sorted: { is_book roster.now (take used rows.now) ≡ true },
}
