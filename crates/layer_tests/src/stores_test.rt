use refusals::{Reason, Refusal};
use std::test::Fail;
use stores::{Entry, Store, Table, Tape, exchange};

fn entry(item: u16, value: i32) -> Entry<i32> {
    Entry { item, value }
}

// The refusal of a tape of n items over a row, or none where it opens.
fn refusal_of(row: &mut [Entry<i32>], n: usize) -> Option<Refusal> {
    match Tape::<i32>::open(row, n) {
        Ok(_) => None,
        Err(unopened) => Some(unopened.refusal),
    }
}

#[test]
fn rows_that_a_tape_opens_over(rt: HostRuntime) {
    let mut row = [entry(0, 7), entry(1, 8), entry(0, 9)];
    assert_eq!(rt; refusal_of(&mut row, 2), None);
    assert_eq!(rt; refusal_of(&mut row, 0), None);
    assert_eq!(rt; refusal_of(&mut row, 3), Some(Reason::BadTapeRow.at(2)));
    assert_eq!(rt; refusal_of(&mut row, 4), Some(Reason::BadTapeRow.at(0)));
}

#[test]
fn the_longest_row(rt: HostRuntime) -> Result<(), Fail> {
    let mut row = vec![in rt.alloc(); entry(0, 0); 65_535]?;
    assert_eq!(rt; refusal_of(row.as_mut_slice(), 1), None);
    row.push(entry(0, 0))?;
    assert_eq!(rt;
        refusal_of(row.as_mut_slice(), 1),
        Some(Reason::BadTapeRow.at(0))
    );
    Ok(())
}

// Works on two items of any store, and answers what the first held.
fn work<S: Store<Value = i32>>(store: &mut S) -> Result<i32, Refusal> {
    let old = exchange(store, 0, -1)?;
    let _ = exchange(store, 1, -2)?;
    Ok(old)
}

fn first_of<S: Store<Value = i32> + Drop>(store: S) -> Result<i32, Refusal> {
    store.read(0)
}

// hands on by value a tape that it was given: with a ghost field in its type, no caller could
fn handed_on(tape: Tape<'_, i32>) -> Result<i32, Refusal> {
    first_of(tape)
}

#[test]
fn a_tape_is_handed_on_by_value(rt: HostRuntime) -> Result<(), Fail> {
    let mut row = [entry(0, 7), entry(1, 8)];
    match Tape::<i32>::open(&mut row, 2) {
        Ok(tape) => assert_eq!(rt; handed_on(tape), Ok(7)),
        Err(_) => return Err(Fail::new("the row does not open")),
    }
    Ok(())
}

#[test]
fn a_full_tape_loses_nothing(rt: HostRuntime) -> Result<(), Fail> {
    let mut row = [entry(0, 7), entry(1, 8), entry(0, 0), entry(0, 0)];
    match Tape::<i32>::open(&mut row, 2) {
        Ok(mut tape) => {
            assert_eq!(rt; tape.room(), 2);
            assert_eq!(rt; work(&mut tape), Ok(7));
            assert_eq!(rt; tape.room(), 0);
            assert_eq!(rt; tape.write(1, 5), Err(Reason::NoRoom.at(0)));
            assert_eq!(rt; tape.write(2, 5), Err(Reason::NoSuchItem.at(2)));
            assert_eq!(rt; tape.read(1), Ok(-2));
            assert_eq!(rt; tape.read(2), Err(Reason::NoSuchItem.at(2)));
        }
        Err(_) => return Err(Fail::new("the row does not open")),
    }
    assert_eq!(rt; row[2], entry(0, -1));
    assert_eq!(rt; row[3], entry(1, -2));
    Ok(())
}

#[test]
fn a_table_has_room_for_ever(rt: HostRuntime) {
    let mut row = [7, 8];
    let mut table = Table::<i32>::open(&mut row);
    assert_eq!(rt; work(&mut table), Ok(7));
    assert_eq!(rt; table.room(), 65_535);
    assert_eq!(rt; table.len(), 2);
    assert_eq!(rt; table.read(1), Ok(-2));
    assert_eq!(rt; table.read(2), Err(Reason::NoSuchItem.at(2)));
    assert_eq!(rt; table.write(2, 5), Err(Reason::NoSuchItem.at(2)));
    assert_eq!(rt; row, [-1, -2]);
}
