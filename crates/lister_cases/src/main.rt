// Many link lists at once, for the lister's library functions: what is printed is each case's name and what the lister prints of it.
#![tactic(auto)]

use cases::{Case, CaseFile, read_input};
use listing::{list_routes, print_listing};
use std::io::Write;

fn run_list(rt: &HostRuntime, case: Case<'_>) -> anyhow::Result<()> {
    let listing = list_routes(rt.alloc(), case.text)?;
    let page = print_listing(rt.alloc(), &listing)?;
    case.print_heading(rt)?;
    // The page's bytes in one write: printed by a format they would go out in pieces.
    rt.stdout().write_all(page.as_bytes())?;
    Ok(())
}

fn main(rt: HostRuntime) -> anyhow::Result<()> {
    let bytes = read_input(&rt)?;
    // A loop in each case program: a public function that ran a closure here would ask its callers that it may be called.
    for case in CaseFile::new(&bytes) {
        run_list(&rt, case)?;
    }
    Ok(())
}
