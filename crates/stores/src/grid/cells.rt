// The memory of the grid store.
ghost use Rattle.std.specs.Prelude.{◌≡◌, ◌<◌, ◌≤◌, true, length};
ghost use Rattle.std.specs.List.{flat_map};
ghost use Rattle.arrayvec.specs.ArrayVec.{array_vec_len};
ghost use Rattle.network.specs.Rosters.{climbs};
ghost use Rattle.stores.specs.Cells.{fit};

use super::rows::GridRow;
use arrayvec::ArrayVec;

// The most ASes of a grid store.
pub const MOST_ASES: usize = 24;

// Where a cell stands: its row, and its place in the row.
#[derive(Clone, Copy, Drop)]
pub(super) struct Cell {
    pub(super) row: usize,
    pub(super) place: usize,
    ghost low: { row < 24 },
    ghost high: { place < 24 },
}

// Up to 24 ASes, and a cell for each pair of them: the link of the ASes at places i < j stands in the cell j of the row i.
#[derive(Drop)]
pub struct GridStore {
    pub(super) ases: ArrayVec<u32, MOST_ASES>,
    pub(super) rows: [GridRow; MOST_ASES],
    ghost few: { array_vec_len ases ≤ 24 },
    ghost sized: { length rows ≡ 24 },
    ghost rising: { climbs 0 ases.items ≡ true },
    ghost placed: { fit ases.items 0 (flat_map (λ r. r.cells) rows) ≡ true },
}
