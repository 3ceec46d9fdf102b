// What the lister tells.
use link_list::types::Fault;

// A route: the next AS, the number of links and the delay. The two numbers of 32 bits stand side by side, so that a row takes no more memory
// than its numbers need.
#[derive(Clone, Copy, PartialEq, Eq, Debug, Default)]
pub struct Route {
    pub next: u32,
    pub delay: u32,
    pub links: usize,
}

// The route from one AS to another, if there is a legal path.
#[derive(Clone, Copy, PartialEq, Eq, Debug)]
pub struct Row {
    pub source: u32,
    pub destination: u32,
    pub route: Option<Route>,
}

// What a list comes to: the rows of its table, or its first fault. It is no `Result`: a fault is printed as the output, and no `?` may
// pass it by.
#[derive(Drop)]
pub enum Listing {
    Table(Vec<Row>),
    Faulty(Fault),
}
