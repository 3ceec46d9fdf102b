// The grid store: up to 24 ASes and a cell for each pair of them.
ghost use Rattle.std.specs.Prelude.{◌≡◌, ◌<◌, true, [], ◌∷◌, Some, None, slice_set, slice_index_or};
ghost use Rattle.std.specs.Result.{result_map_both};
ghost use Rattle.network.specs.Rosters.{roster_from};
ghost use Rattle.network.specs.Causes.{first_cause, pair_causes};
ghost use Rattle.stores.specs.Cells.{fit, cell_at, cell_of};
ghost use Rattle.stores.specs.Grid.{grid_roster, grid_cells, grid_book, grid_limit, number};
ghost use Rattle.stores.specs.Refusals.{judged};
ghost use Rattle.stores.specs.CellsLemmas.{few, cells_proper, cells_in_order};

use crate::entries::{check_figures, entered, places_of};
use crate::rosters::{place_in, roster_of};
use arrayvec::ArrayVec;
use network::stores::{EditableStore, Store};
use network::types::{EditRefusal, Figures, Link, Relation};
use std::array::from_fn;

mod cells;
mod rows;

use cells::Cell;
pub use cells::{GridStore, MOST_ASES};
use rows::BARE;

// The most links of a grid store: as many as 24 ASes have pairs.
pub const MOST_LINKS: usize = 276;

// The cell of two places, named in either order.
fn cell_index(first: usize, second: usize) -> Cell
    requires { (first < 24) × (second < 24) }
    ensures { number result ≡ cell_at (Some first) (Some second) }
{
    Cell {
        row: first.min(second),
        place: first.max(second),
    }
}

impl GridStore {
    // A store without links over a roster; it has no ASes if the numbers are no roster of at most 24.
    pub fn new(ases: &[u32]) -> GridStore
        ensures roster { grid_roster result ≡ roster_from 24 ases.now }
        ensures book { grid_book result ≡ [] }
        ensures limit { grid_limit result ≡ 276 }
    {
        GridStore {
            ases: ArrayVec::try_from(roster_of(ases, MOST_ASES)).unwrap_or_default(),
            rows: from_fn(|_| BARE),
        }
    }

    // The cell of two ASes, if both are in the roster and they are not the same.
    fn cell_of(&self, first: u32, second: u32) -> Result<Cell, EditRefusal>
        ensures { result_map_both number (λ refusal. refusal) result ≡ judged (first_cause (pair_causes (grid_roster self.now) first second [])) (cell_of (grid_roster self.now) first second) }
    {
        let (place, other) = places_of(self, first, second)?;
        Ok(cell_index(place, other))
    }

    // What a cell holds.
    fn held(&self, cell: Cell) -> Option<Link>
        ensures { result ≡ slice_index_or (grid_cells self.now) (number cell) None }
    {
        self.rows[cell.row].cells[cell.place]
    }

    // Writes a cell.
    fn put(&mut self, cell: Cell, held: Option<Link>)
        requires { fit (grid_roster self.old) (number cell) (held ∷ []) ≡ true }
        ensures roster { grid_roster self.new ≡ grid_roster self.old }
        ensures cells { grid_cells self.new ≡ slice_set (grid_cells self.old) (number cell) held }
    {
        // The rows by their own name: the toolchain has no plan for the call through `self.rows`.
        let GridStore { rows, .. } = self;
        rows[cell.row].put(cell.place, held);
    }
}

impl Store for GridStore {
    ghost roster = { grid_roster };

    ghost book = { grid_book };

    ghost sound = { λ s.
        record {
          few = few s.ases.items s.few;
          rising = s.rising;
          proper = cells_proper s.ases.items s.rising 0 (grid_cells s) s.placed;
          in_order = cells_in_order s.ases.items s.rising 0 (grid_cells s) s.placed;
        } };

    fn as_count(&self) -> usize {
        self.ases.len()
    }

    fn link_count(&self) -> usize {
        self.rows.iter().map(|row| row.tally).sum()
    }

    fn as_at(&self, spot: usize) -> Option<u32> {
        self.ases.get(spot).copied()
    }

    fn place_of(&self, number: u32) -> Option<usize> {
        place_in(&self.ases, number)
    }

    fn link_at(&self, spot: usize) -> Option<Link> {
        let mut left = spot;
        for row in &self.rows {
            if left < row.tally {
                return row.link_at(left);
            }
            left -= row.tally;
        }
        None
    }

    fn link_of(&self, first: u32, second: u32) -> Option<Link> {
        let first = self.place_of(first)?;
        let second = self.place_of(second)?;
        self.held(cell_index(first, second))
    }
}

impl EditableStore for GridStore {
    ghost limit = { grid_limit };

    fn link_limit(&self) -> usize {
        MOST_LINKS
    }

    fn link(
        &mut self,
        first: u32,
        second: u32,
        relation: u32,
        figures: Figures,
    ) -> Result<(), EditRefusal> {
        let cell = self.cell_of(first, second)?;
        let relation = Relation::try_from(relation)?;
        check_figures(figures)?;
        let held = self.held(cell);
        if held.is_some() {
            return Err(EditRefusal::AlreadyLinked);
        }
        if self.link_count() == MOST_LINKS {
            return Err(EditRefusal::Full);
        }
        self.put(cell, Some(entered(first, second, relation, figures)));
        Ok(())
    }

    fn recost(&mut self, first: u32, second: u32, figures: Figures) -> Result<(), EditRefusal> {
        let cell = self.cell_of(first, second)?;
        check_figures(figures)?;
        let held = self.held(cell);
        let Some(link) = held else {
            return Err(EditRefusal::NotLinked);
        };
        self.put(cell, Some(Link { figures, ..link }));
        Ok(())
    }

    fn unlink(&mut self, first: u32, second: u32) -> Result<(), EditRefusal> {
        let cell = self.cell_of(first, second)?;
        let held = self.held(cell);
        if held.is_none() {
            return Err(EditRefusal::NotLinked);
        }
        self.put(cell, None);
        Ok(())
    }
}
