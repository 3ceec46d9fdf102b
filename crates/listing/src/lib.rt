// The route lister's work: from the bytes of a link list to what is printed.
#![tactic(auto)]

ghost use Rattle.std.specs.Prelude.{◌≡◌, IfOk, string_bytes};
ghost use Rattle.listing.specs.Listings.{Tables, Lists};
ghost use Rattle.listing.specs.Pages.{printed};

mod all_pairs;
mod page;
mod survey;
pub mod types;

use all_pairs::{AllPairs, settle_all};
use link_list::load::load;
use link_list::types::{Cause, Fault};
use settle::types::Work;
use std::alloc::{AllocError, Global};
use stores::grid::{GridStore, MOST_ASES};
use survey::Named;
use table::types::{Entry, Table};
use types::Listing;
use waiting::types::Slot;

// The most bytes of a list: 276 lines, one for each pair of 24 ASes.
pub const MOST_BYTES: usize = 11_316;

// The table of a list whose form is right, over the ASes that it names.
fn table_of(heap: Global, text: &[u8], named: &Named) -> Result<Listing, AllocError>
    ensures { IfOk result (λ l. Tables named.now.ases.items text.now l) }
{
    let ases = named.ases.as_slice();
    // The memory of a board of 24 ASes, here and where a script runs: a struct of these arrays would be no shorter.
    let mut entries = [Entry::blank(0u32); 2 * MOST_ASES * MOST_ASES];
    let mut marks = [0u8; MOST_ASES];
    let mut slots = [Slot {
        place: 0,
        cost: 0u32,
    }; 2 * MOST_ASES];
    let mut numbers = [0u32; 2 * MOST_ASES];
    let mut store = GridStore::new(ases);
    let mut table = Table {
        entries: &mut entries,
        marks: &mut marks,
    };
    let mut work = Work {
        waiting: &mut slots,
        numbers: &mut numbers,
    };
    if let Err(fault) = load(&mut store, &mut table, text) {
        return Ok(Listing::Faulty(fault));
    }
    // Never refused: the memory is enough, and the ASes are the store's.
    let _ = settle_all(&store, &mut table, &mut work, ases);
    let pairs = AllPairs {
        store: &store,
        table: &table,
        ases,
    };
    Ok(Listing::Table(pairs.rows(heap)?))
}

// The table of a link list, or its first fault.
pub fn list_routes(heap: Global, text: &[u8]) -> Result<Listing, AllocError>
    ensures { IfOk result (λ l. Lists text.now l) }
{
    if text.len() > MOST_BYTES {
        return Ok(Listing::Faulty(Fault {
            cause: Cause::TooLong,
            line: 0,
        }));
    }
    let mut named = Named::new(heap)?;
    if let Err(fault) = named.survey(text) {
        return Ok(Listing::Faulty(fault));
    }
    table_of(heap, text, &named)
}

// What is printed of a listing.
pub fn print_listing(heap: Global, listing: &Listing) -> Result<String, AllocError>
    ensures { IfOk result (λ text. string_bytes text ≡ printed listing.now) }
{
    listing.to_string(heap)
}
