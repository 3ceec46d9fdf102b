// A row of the cells of the grid store.
ghost use Rattle.std.specs.Prelude.{◌≡◌, ◌<◌, length, slice_set, slice_get};
ghost use Rattle.stores.specs.Cells.{filled};

use super::cells::MOST_ASES;
use network::types::Link;

// A cell for each place of the roster, and how many of them hold a link.
#[derive(Clone, Copy, Drop)]
pub(super) struct GridRow {
    pub(super) cells: [Option<Link>; MOST_ASES],
    pub(super) tally: usize,
    ghost sized: { length cells ≡ 24 },
    ghost tallied: { tally ≡ length (filled cells) },
}

// A row without links.
pub(super) const BARE: GridRow = GridRow {
    cells: [None; MOST_ASES],
    tally: 0,
};

impl GridRow {
    // The link at a place among those of the row: a loop over all cells, since it is by far the fastest, and settling rests on it.
    pub(super) fn link_at(&self, spot: usize) -> Option<Link>
        ensures { result ≡ slice_get (filled self.now.cells) spot }
    {
        let mut left = spot;
        for cell in &self.cells {
            if let Some(link) = cell {
                if left == 0 {
                    return Some(*link);
                }
                left -= 1;
            }
        }
        None
    }

    // Writes a cell; the tally follows what comes and what goes.
    pub(super) fn put(&mut self, place: usize, held: Option<Link>)
        requires { place < 24 }
        ensures { self.new.cells ≡ slice_set self.old.cells place held }
    {
        self.tally += usize::from(held.is_some());
        self.tally -= usize::from(self.cells[place].is_some());
        self.cells[place] = held;
    }
}
