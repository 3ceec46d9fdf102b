// The route lister: a link list on standard input, its per-pair table on standard output.
#![tactic(auto)]

ghost use Rattle.std.specs.Prelude.{◌≡◌, ◌≤◌, [], IfOk, vec_capacity};

use listing::types::Listing;
use listing::{MOST_BYTES, list_routes, print_listing};
use std::alloc::{AllocError, Global};
use std::io::Read;
use std::process::ExitCode;

// An empty list, with room for all that is read of one and a byte more: reading it never asks for more memory.
fn empty_list(heap: Global) -> Result<Vec<u8>, AllocError>
    ensures empty { IfOk result (λ list. list.items ≡ []) }
    ensures room { IfOk result (λ list. 11318 ≤ vec_capacity list) }
{
    Vec::with_capacity(heap, MOST_BYTES + 2)
}

// The list, as far as it can be right: one byte more than the longest list shows that it is too long.
fn read_list(rt: &HostRuntime) -> anyhow::Result<Vec<u8>> {
    let mut list = empty_list(rt.alloc())?;
    rt.stdin()
        .take(MOST_BYTES as u64 + 1)
        .read_to_end(&mut list)?;
    Ok(list)
}

// The status is 1 for a list at fault.
fn main(rt: HostRuntime) -> anyhow::Result<ExitCode> {
    let list = read_list(&rt)?;
    let listing = list_routes(rt.alloc(), &list)?;
    let text = print_listing(rt.alloc(), &listing)?;
    print!(rt; "{text}")?;
    match listing {
        Listing::Table(_) => Ok(ExitCode::SUCCESS),
        Listing::Faulty(_) => Ok(ExitCode::FAILURE),
    }
}
