// The board at its edges: one AS, no ASes, memory that is one place too small, and memory that is larger than it need be.
// What is printed was worked by hand.
#![tactic(auto)]

use board::edits::{link, open};
use link_list::load::load;
use measure::Measure;
use measure::delay::Delay;
use measure::hops_width::HopsWidth;
use network::stores::Store;
use network::types::{Figures, Link, Relation};
use routes::send;
use settle::settle;
use settle::types::Work;
use std::io;
use stores::grid::GridStore;
use stores::rows::RowStore;
use table::types::{Entry, RouteRefusal, Table};
use waiting::types::Slot;

// What stands in memory before a call. Each run has memory of its own lengths: none like 2 · N · N can be computed from a const
// parameter.
const OLD: Entry<u32> = Entry {
    next: 77,
    cost: 999,
};

const SLOT: Slot<u32> = Slot { place: 0, cost: 0 };

const ROW: Link = Link {
    low: 0,
    high: 0,
    relation: Relation::Peer,
    figures: Figures { delay: 0, width: 0 },
};

// How much of memory of ten each is lent to a settle.
#[derive(Clone, Copy)]
struct Sizes {
    entries: usize,
    marks: usize,
    waiting: usize,
    numbers: usize,
}

// Just as much as a pair of ASes needs.
const PAIR: Sizes = Sizes {
    entries: 8,
    marks: 2,
    waiting: 4,
    numbers: 4,
};

// All of it.
const FULL: Sizes = Sizes {
    entries: 10,
    marks: 10,
    waiting: 10,
    numbers: 10,
};

fn print_settle(
    rt: &HostRuntime,
    name: &str,
    answer: Result<usize, RouteRefusal>,
) -> io::Result<()> {
    match answer {
        Ok(count) => println!(rt; "{name}: {count}"),
        Err(refusal) => println!(rt; "{name}: refused {}", refusal.number()),
    }
}

// Settles `destination` on the network 10 provider of 20 (delay 5, width 7) in memory of such sizes, and prints the answer, all entries
// and all marks.
fn run_pair(rt: &HostRuntime, name: &str, sizes: Sizes, destination: u32) -> io::Result<()> {
    let mut entries = [OLD; 10];
    let mut marks = [9u8; 10];
    let mut slots = [SLOT; 10];
    let mut numbers = [0u32; 10];
    let mut rows = [ROW; 2];
    let mut store = RowStore::new(&[10, 20], &mut rows);
    let figures = Figures { delay: 5, width: 7 };
    let mut table = Table {
        entries: &mut entries,
        marks: &mut marks,
    };
    let _ = link(&mut store, &mut table, 10, 20, 1, figures);
    let mut part = Table {
        entries: &mut entries[..sizes.entries.min(10)],
        marks: &mut marks[..sizes.marks.min(10)],
    };
    let mut work = Work {
        waiting: &mut slots[..sizes.waiting.min(10)],
        numbers: &mut numbers[..sizes.numbers.min(10)],
    };
    let answer = settle::<RowStore, Delay>(&store, &mut part, &mut work, destination);
    print_settle(rt, name, answer)?;
    for Entry { next, cost } in &entries {
        print!(rt; " {next}/{cost}")?;
    }
    println!(rt; " marks {marks:?}")
}

fn run_pairs(rt: &HostRuntime) -> io::Result<()> {
    for (name, sizes, destination) in [
        ("just enough", PAIR, 20),
        ("more than enough", FULL, 10),
        ("one entry too few", Sizes { entries: 7, ..PAIR }, 20),
        ("one mark too few", Sizes { marks: 1, ..PAIR }, 20),
        (
            "one waiting place too few",
            Sizes { waiting: 3, ..PAIR },
            20,
        ),
        ("one number too few", Sizes { numbers: 3, ..PAIR }, 20),
        ("an unknown AS", PAIR, 30),
    ] {
        run_pair(rt, name, sizes, destination)?;
    }
    Ok(())
}

// One AS: both its entries name itself, and a send to itself needs one place in the list.
fn run_one(rt: &HostRuntime) -> io::Result<()> {
    let store = GridStore::new(&[5]);
    let mut table = Table {
        entries: &mut [OLD; 2],
        marks: &mut [9u8; 1],
    };
    let mut work = Work {
        waiting: &mut [SLOT; 2],
        numbers: &mut [0u32; 2],
    };
    let opened = open(&store, &mut table);
    println!(rt; "one AS, opened: {opened:?}")?;
    let answer = settle::<GridStore, Delay>(&store, &mut table, &mut work, 5);
    print_settle(rt, "one AS", answer)?;
    let mut list = [0u32; 1];
    let sent = send::<GridStore, Delay>(&store, &table, 5, 5, &mut list);
    println!(rt; "one AS, sent: {sent:?} {list:?}")?;
    let none = send::<GridStore, Delay>(&store, &table, 5, 5, &mut []);
    println!(rt; "one AS, no room: {none:?}")
}

// No ASes: nothing is too small, and nothing is known.
fn run_none(rt: &HostRuntime) -> io::Result<()> {
    let mut store = GridStore::new(&[2, 1]);
    let mut table = Table {
        entries: &mut [],
        marks: &mut [],
    };
    let mut work = Work {
        waiting: &mut [],
        numbers: &mut [],
    };
    let opened = open(&store, &mut table);
    println!(rt; "no ASes, opened: {opened:?}")?;
    let figures = Figures { delay: 5, width: 7 };
    let linked = link(&mut store, &mut table, 1, 2, 1, figures);
    println!(rt; "no ASes, linked: {linked:?}")?;
    let answer = settle::<GridStore, Delay>(&store, &mut table, &mut work, 1);
    print_settle(rt, "no ASes", answer)
}

// 10 provider of 20 and peer of 30, 20 and 30 providers of 40, in a row store: under hops-width the wider way to 40 is taken.
fn run_wide(rt: &HostRuntime) -> io::Result<()> {
    let cost = HopsWidth::start();
    let mut rows = [ROW; 4];
    let mut store = RowStore::new(&[10, 20, 30, 40], &mut rows);
    let mut table = Table {
        entries: &mut [Entry { next: 0, cost }; 32],
        marks: &mut [0u8; 4],
    };
    let mut work = Work {
        waiting: &mut [Slot { place: 0, cost }; 8],
        numbers: &mut [0u32; 8],
    };
    for (first, second, relation, delay, width) in [
        (30, 40, 1, 20, 40),
        (10, 20, 1, 30, 100),
        (40, 20, 2, 30, 100),
        (10, 30, 3, 10, 40),
    ] {
        let figures = Figures { delay, width };
        let _ = link(&mut store, &mut table, first, second, relation, figures);
    }
    let figures = Figures {
        delay: 10,
        width: 40,
    };
    let full = link(&mut store, &mut table, 20, 30, 3, figures);
    println!(rt; "four rows, a fifth link: {full:?}")?;
    let answer = settle::<RowStore, HopsWidth>(&store, &mut table, &mut work, 40);
    print_settle(rt, "four rows", answer)?;
    let mut list = [0u32; 4];
    let sent = send::<RowStore, HopsWidth>(&store, &table, 10, 40, &mut list);
    println!(rt; "four rows, sent: {sent:?} {list:?}")
}

// Loads a list into a row store of the ASes 7, 8 and 9 with one row, and prints what the load answered and how many links there are.
fn run_load(rt: &HostRuntime, name: &str, marks: usize, list: &[u8]) -> io::Result<()> {
    let mut rows = [ROW; 1];
    let mut store = RowStore::new(&[7, 8, 9], &mut rows);
    let mut memory = [0u8; 3];
    let mut table = Table {
        entries: &mut [OLD; 18],
        marks: &mut memory[..marks.min(3)],
    };
    match load(&mut store, &mut table, list) {
        Ok(count) => print!(rt; "{name}: {count}")?,
        Err(fault) => print!(rt;
            "{name}: fault {} {} {} {}",
            fault.number(),
            fault.line,
            fault.column(),
            fault.layer()
        )?,
    }
    println!(rt; ", links {}", store.link_count())
}

fn run_loads(rt: &HostRuntime) -> io::Result<()> {
    let one = b"         7         8   3       5      40\n";
    let first = b"         6         8   3       5      40\n";
    let second = b"         8        10   3       5      40\n";
    let full =
        b"         7         8   3       5      40\n         9         8   1       5      40\n";
    let again =
        b"         7         8   3       5      40\n         8         7   1       5      40\n";
    let loads: [(&str, usize, &[u8]); 8] = [
        ("one line", 3, one),
        ("no line, memory too small", 2, b""),
        ("one line, memory too small", 2, one),
        ("a broken line, memory too small", 2, b"x"),
        ("unknown first", 3, first),
        ("unknown second", 3, second),
        ("a second line for one row", 3, full),
        ("the pair again before full", 3, again),
    ];
    for (name, marks, list) in loads {
        run_load(rt, name, marks, list)?;
    }
    Ok(())
}

fn main(rt: HostRuntime) -> io::Result<()> {
    run_pairs(&rt)?;
    run_one(&rt)?;
    run_none(&rt)?;
    run_wide(&rt)?;
    run_loads(&rt)
}
