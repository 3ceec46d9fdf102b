// Settled tables of many link lists at both measures: for each destination settle's answer, and each entry of its column.
#![tactic(auto)]

use cases::{Case, CaseFile, read_input};
use legality::types::Class;
use link_list::load::load;
use link_text::reader::Reader;
use measure::Measure;
use measure::delay::Delay;
use measure::hops_width::{HopsWidth, HopsWidthCost};
use network::stores::Store;
use settle::settle;
use settle::types::Work;
use std::alloc::{AllocError, Global};
use std::collections::BTreeSet;
use std::fmt::Display;
use stores::grid::{GridStore, MOST_ASES};
use table::types::{Entry, Table};
use waiting::types::Slot;

// The bytes of a line of a list, its line feed with them.
const LINE_BYTES: usize = 41;

// A measure under which lists are settled.
trait Named: Measure {
    const NAME: &'static str;
}

impl Named for Delay {
    const NAME: &'static str = "delay";
}

impl Named for HopsWidth {
    const NAME: &'static str = "hops-width";
}

// The entry of the AS `number` for a class.
fn print_entry<S: Store, C: Copy + Display>(
    rt: &HostRuntime,
    store: &S,
    number: u32,
    class: Class,
    entry: Entry<C>,
) -> anyhow::Result<()> {
    let Some(place) = entry.next_place() else {
        println!(rt; "{number} {class} blank")?;
        return Ok(());
    };
    // 0 is printed where the store has no AS at the next place, as it always was: what the program prints stays.
    let next = store.as_at(place).unwrap_or(0);
    let cost = entry.cost;
    println!(rt; "{number} {class} {next} {cost}")?;
    Ok(())
}

// The column of the destination at a place, after its settle.
fn print_column<S: Store, C: Copy + Display>(
    rt: &HostRuntime,
    store: &S,
    table: &Table<'_, '_, C>,
    place: usize,
) -> anyhow::Result<()> {
    let n = store.as_count();
    let ases = (0..n).map_while(|spot| store.as_at(spot));
    let pairs = table.entries.chunks(2).skip(place.saturating_mul(n));
    for (number, pair) in ases.zip(pairs) {
        if let [home, outside] = pair {
            print_entry(rt, store, number, Class::Home, *home)?;
            print_entry(rt, store, number, Class::Outside, *outside)?;
        }
    }
    Ok(())
}

// The entries of a board and the slots of a settle, on the heap: no proof closes that an array of them fits at every type of cost.
#[derive(Drop)]
struct Memory<C> {
    entries: Vec<Entry<C>>,
    slots: Vec<Slot<C>>,
}

impl<C: Copy> Memory<C> {
    fn new(heap: Global, cost: C) -> Result<Memory<C>, AllocError> {
        let entries = vec![in heap; Entry { next: 0, cost }; 2 * MOST_ASES * MOST_ASES]?;
        let slots = vec![in heap; Slot { place: 0, cost }; 2 * MOST_ASES]?;
        Ok(Memory { entries, slots })
    }
}

// Settles every AS of the store under a measure, and prints the columns.
fn run_under<M: Named>(
    rt: &HostRuntime,
    store: &GridStore,
    memory: &mut Memory<M::Cost>,
) -> anyhow::Result<()>
where
    M::Cost: Display,
{
    let mut table = Table {
        entries: &mut memory.entries,
        marks: &mut [0u8; MOST_ASES],
    };
    let mut work = Work {
        waiting: &mut memory.slots,
        numbers: &mut [0u32; 2 * MOST_ASES],
    };
    let ases = (0..store.as_count()).map_while(|place| store.as_at(place));
    for (place, destination) in ases.enumerate() {
        if let Ok(count) = settle::<GridStore, M>(store, &mut table, &mut work, destination) {
            println!(rt; "{} to {destination}: {count}", M::NAME)?;
        }
        print_column(rt, store, &table, place)?;
    }
    Ok(())
}

// The ASes of a list, each once, in increasing order: its first two fields, as far as they are numbers.
fn roster_in(heap: Global, text: &[u8]) -> anyhow::Result<Vec<u32>> {
    let mut reader = Reader::new(text);
    let mut ases = BTreeSet::new(heap);
    // A line at fault is not passed as a whole, so the turns are counted by the most lines of the text.
    for _ in 0..text.len() / LINE_BYTES {
        if let Ok(line) = reader.line() {
            ases.extend([line.first, line.second])?;
        }
    }
    Ok(ases.iter().copied().collect(heap)?)
}

// The memory of a board under each measure, for all cases.
#[derive(Drop)]
struct Memories {
    delay: Memory<u32>,
    hops_width: Memory<HopsWidthCost>,
}

// One store for both measures. What an earlier case left in the memory is not printed: a column is settled before it is.
fn run_list(rt: &HostRuntime, memories: &mut Memories, case: Case<'_>) -> anyhow::Result<()> {
    let ases = roster_in(rt.alloc(), case.text)?;
    let mut store = GridStore::new(&ases);
    let mut table = Table {
        entries: &mut memories.delay.entries,
        marks: &mut [0u8; MOST_ASES],
    };
    let _ = load(&mut store, &mut table, case.text);
    case.print_heading(rt)?;
    run_under::<Delay>(rt, &store, &mut memories.delay)?;
    run_under::<HopsWidth>(rt, &store, &mut memories.hops_width)
}

fn main(rt: HostRuntime) -> anyhow::Result<()> {
    let bytes = read_input(&rt)?;
    let heap = rt.alloc();
    let mut memories = Memories {
        delay: Memory::new(heap, Delay::start())?,
        hops_width: Memory::new(heap, HopsWidth::start())?,
    };
    // A loop in each case program: a public function that ran a closure here would ask its callers that it may be called.
    for case in CaseFile::new(&bytes) {
        run_list(&rt, &mut memories, case)?;
    }
    Ok(())
}
