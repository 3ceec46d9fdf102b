// The row store: the links in rows of memory handed in, in the order of the book.
ghost use Rattle.std.specs.Prelude.{◌≡◌, min, max, [], length, slice_get};
ghost use Rattle.std.specs.List.Sorted.{IsSearchInRange};
ghost use Rattle.std.specs.Option.{is_some, option_and_then};
ghost use Rattle.std.specs.Result.{is_ok, result_ok};
ghost use Rattle.network.specs.Books.{link_of};
ghost use Rattle.network.specs.Edits.{Links, Recosts, Unlinks};
ghost use Rattle.network.specs.Rosters.{roster_from};
ghost use Rattle.stores.specs.Ranks.{row_of};
ghost use Rattle.stores.specs.RanksLemmas.{book_proper, book_in_order};
ghost use Rattle.stores.specs.Rows.{row_roster, row_book, row_limit, KeptRows};

use crate::entries::{check_figures, entered, places_of};
use crate::rosters::{place_in, roster_of};
use network::roster::MOST_ASES;
use network::stores::{EditableStore, Store};
use network::types::{EditRefusal, Figures, Link, Relation};

mod memory;
mod moves;

pub use memory::{MOST_LINKS, RowStore};
use moves::{insert_row, remove_row};

impl<'a, 'b> RowStore<'a, 'b> {
    // A store without links over a roster; it has no ASes if the numbers are no roster of at most 512.
    pub fn new(numbers: &'a [u32], rows: &'b mut [Link]) -> RowStore<'a, 'b>
        ensures roster { row_roster result ≡ roster_from 512 numbers.now }
        ensures book { row_book result ≡ [] }
        ensures limit { row_limit result ≡ min (length rows.old) 16384 }
        ensures memory { result.rows.now ≡ rows.old }
        ensures same { result.rows.ghost_name ≡ rows.entry.ghost_name }
    {
        RowStore {
            roster: roster_of(numbers, MOST_ASES),
            rows,
            used: 0,
        }
    }

    // The row of the link of two ASes: Ok where it stands, Err where it would stand.
    fn find_row(&self, first: u32, second: u32) -> Result<usize, usize>
        ensures row { result ≡ row_of (row_book self.now) (min first second) (max first second) }
        ensures within { IsSearchInRange result self.now.used }
        ensures variant { is_some (link_of (row_book self.now) first second) ≡ is_ok result }
        ensures held { link_of (row_book self.now) first second ≡ option_and_then (slice_get (row_book self.now)) (result_ok result) }
    {
        let pair = (first.min(second), first.max(second));
        self.rows[..self.used].binary_search_by_key(&pair, |link| (link.low, link.high))
    }
}

impl<'a, 'b> Store for RowStore<'a, 'b> {
    ghost roster = { row_roster };

    ghost book = { row_book };

    ghost sound = { λ s.
        record {
          few = s.few;
          rising = s.rising;
          proper = book_proper (row_roster s) (row_book s) s.sorted;
          in_order = book_in_order (row_roster s) (row_book s) s.sorted;
        } };

    fn as_count(&self) -> usize {
        self.roster.len()
    }

    fn link_count(&self) -> usize {
        self.used
    }

    fn as_at(&self, spot: usize) -> Option<u32> {
        self.roster.get(spot).copied()
    }

    fn place_of(&self, number: u32) -> Option<usize> {
        place_in(self.roster, number)
    }

    fn link_at(&self, spot: usize) -> Option<Link> {
        self.rows[..self.used].get(spot).copied()
    }

    fn link_of(&self, first: u32, second: u32) -> Option<Link> {
        let row = self.find_row(first, second).ok()?;
        self.link_at(row)
    }
}

impl<'a, 'b> EditableStore for RowStore<'a, 'b> {
    ghost limit = { row_limit };

    fn link_limit(&self) -> usize {
        self.rows.len().min(MOST_LINKS)
    }

    // That the memory is the one lent stands here and in the two calls below: it relates what was before a call to what is after it, which
    // no field can.
    fn link(
        &mut self,
        first: u32,
        second: u32,
        relation: u32,
        figures: Figures,
    ) -> Result<(), EditRefusal>
        ensures edit { Links first second relation figures (row_roster self.old) (row_roster self.new) (row_book self.old) (row_book self.new) (row_limit self.old) (row_limit self.new) result }
        ensures kept { KeptRows self.old self.new }
    {
        places_of(self, first, second)?;
        let relation = Relation::try_from(relation)?;
        check_figures(figures)?;
        let Err(row) = self.find_row(first, second) else {
            return Err(EditRefusal::AlreadyLinked);
        };
        if self.used == self.link_limit() {
            return Err(EditRefusal::Full);
        }
        let link = entered(first, second, relation, figures);
        insert_row(self.rows, self.used, row, link);
        self.used += 1;
        Ok(())
    }

    fn recost(&mut self, first: u32, second: u32, figures: Figures) -> Result<(), EditRefusal>
        ensures edit { Recosts first second figures (row_roster self.old) (row_roster self.new) (row_book self.old) (row_book self.new) (row_limit self.old) (row_limit self.new) result }
        ensures kept { KeptRows self.old self.new }
    {
        places_of(self, first, second)?;
        check_figures(figures)?;
        let Ok(row) = self.find_row(first, second) else {
            return Err(EditRefusal::NotLinked);
        };
        self.rows[row].figures = figures;
        Ok(())
    }

    fn unlink(&mut self, first: u32, second: u32) -> Result<(), EditRefusal>
        ensures edit { Unlinks first second (row_roster self.old) (row_roster self.new) (row_book self.old) (row_book self.new) (row_limit self.old) (row_limit self.new) result }
        ensures kept { KeptRows self.old self.new }
    {
        places_of(self, first, second)?;
        let Ok(row) = self.find_row(first, second) else {
            return Err(EditRefusal::NotLinked);
        };
        remove_row(self.rows, self.used, row);
        self.used -= 1;
        Ok(())
    }
}
