// An orbit feed and a ground station record on a tape of plan records, and every step is printed.
#![tactic(auto)]

use std::io;
use stores::{Entry, Store, Table, Tape, exchange};
use values::{PlanRecord, PlanRow};

// item 0 is where the satellite is, item 1 where it will be, item 2 the booked station
const ITEMS: usize = 3;

fn orbit(x: f64, y: f64, z: f64, epoch: u32) -> PlanRecord {
    PlanRecord::Orbit { x, y, z, epoch }
}

fn booking(station: u16, start: u32, end: u32) -> PlanRecord {
    PlanRecord::Booking {
        station,
        start,
        end,
    }
}

// Writes a record, and prints what it replaced or why it was refused.
fn record<S: Store<Value = PlanRecord>>(
    rt: &impl Print,
    who: &str,
    store: &mut S,
    item: usize,
    value: PlanRecord,
) -> io::Result<()> {
    match exchange(store, item, value) {
        Ok(old) => {
            let room = store.room();
            println!(rt; "{who} writes item {item}: {value} (was: {old}); room for {room} more")
        }
        Err(refusal) => println!(rt; "{who} writes item {item}: refused, {refusal}"),
    }
}

// Prints the newest record of each item, and of one item too many.
fn read_back<S: Store<Value = PlanRecord>>(rt: &impl Print, store: &S) -> io::Result<()> {
    for item in 0..=ITEMS {
        match store.read(item) {
            Ok(value) => println!(rt; "item {item} is {value}")?,
            Err(refusal) => println!(rt; "item {item}: refused, {refusal}")?,
        }
    }
    Ok(())
}

fn shift<S: Store<Value = PlanRecord>>(rt: &impl Print, store: &mut S) -> io::Result<()> {
    record(rt, "feed", store, 0, orbit(6871.0, 0.0, 0.5, 1_000))?;
    record(rt, "feed", store, 1, orbit(0.0, 6871.0, 0.5, 2_000))?;
    record(rt, "station", store, 2, booking(7, 1_900, 2_100))?;
    record(rt, "feed", store, 3, PlanRecord::Empty)?;
    // the receiver lost one coordinate
    record(rt, "feed", store, 0, orbit(6870.5, 0.0 / 0.0, 12.25, 1_010))?;
    record(rt, "station", store, 2, booking(7, 1_950, 2_150))?;
    record(rt, "feed", store, 0, orbit(6870.0, 3.5, 24.0, 1_020))?;
    read_back(rt, store)
}

// Opens a tape and works on it; a row that no tape opens over is only named.
fn run(rt: &impl Print, row: &mut [Entry<PlanRow>]) -> io::Result<()> {
    let len = row.len();
    match Tape::<PlanRecord>::open(row, ITEMS) {
        Ok(mut tape) => {
            let room = tape.room();
            println!(rt;
                "a tape of {ITEMS} items over {len} entries is open, with room for {room} writes"
            )?;
            shift(rt, &mut tape)
        }
        Err(unopened) => {
            let refusal = unopened.refusal;
            println!(rt; "a tape of {ITEMS} items over {len} entries: refused, {refusal}")
        }
    }
}

// What the row holds once the tape has gone.
fn print_row(rt: &impl Print, row: &[Entry<PlanRow>]) -> io::Result<()> {
    for (k, entry) in row.iter().enumerate() {
        let item = entry.item;
        let value = entry.value;
        println!(rt; "entry {k}: item {item}, {value}")?;
    }
    Ok(())
}

// Counts one entry of an item in a store of numbers.
fn count<S: Store<Value = i32>>(rt: &impl Print, tally: &mut S, item: usize) -> io::Result<()> {
    let Ok(before) = tally.read(item) else {
        return println!(rt; "no tally of item {item}");
    };
    if exchange(tally, item, before.saturating_add(1)).is_err() {
        println!(rt; "the tally of item {item} is full")?;
    }
    Ok(())
}

fn print_tally(rt: &impl Print, row: &[Entry<PlanRow>]) -> io::Result<()> {
    let mut counts = [0; ITEMS];
    let mut tally = Table::<i32>::open(&mut counts);
    for entry in row {
        count(rt, &mut tally, usize::from(entry.item))?;
    }
    for (item, times) in counts.iter().enumerate() {
        println!(rt; "item {item} has {times} entries")?;
    }
    Ok(())
}

fn main(rt: HostRuntime) -> io::Result<()> {
    let empty = Entry {
        item: 0,
        value: PlanRow::Empty,
    };
    let mut short = [empty; 2];
    run(&rt, &mut short)?;
    let mut row = [empty; 8];
    run(&rt, &mut row)?;
    row[1].item = 1;
    row[2].item = 2;
    run(&rt, &mut row)?;
    print_row(&rt, &row)?;
    print_tally(&rt, &row)
}
