// The tape: a lent row of entries. The first n are the opening values of items 0 to n - 1, and every write adds one behind those in use.
// It has no ghost field, since no caller could hand it on by value then. So nothing rests on what opening checked, and the numbers may be any: a tape holds no more items than its row has entries.
pub mod entry;
mod front;
mod newest;

ghost use Rattle.std.specs.Prelude.{◌≡◌, ◌+◌, ◌<◌, ◌≤◌, min, [], ◌∷◌, length, take, drop, MatchResult, slice_set};
ghost use Rattle.stores.specs.Answers.{WriteOf};
ghost use Rattle.stores.specs.Tapes.{Appended, Opened, Recorded, RefusedRow, tape_loans, tape_values, unused};

use crate::store::{Store, check_item};
use crate::tape::entry::Entry;
use crate::tape::front::{LONGEST_ROW, check_row};
use crate::tape::newest::newest;
use refusals::{Reason, Refusal};
use values::Value;

#[derive(Drop)]
pub struct Tape<'a, V: Value> {
    row: &'a mut [Entry<V::Row>],
    n: u16,
    // how many entries were written since the tape was opened: the row is lent memory, which no Vec can take
    count: usize,
}

// A row over which no tape was opened, and why.
#[derive(Drop)]
pub struct Unopened<'a, R> {
    pub refusal: Refusal,
    pub row: &'a mut [Entry<R>],
}

impl<'a, V: Value> Tape<'a, V> {
    pub fn open(row: &'a mut [Entry<V::Row>], n: usize) -> Result<Tape<'a, V>, Unopened<'a, V::Row>>
        ensures answer { MatchResult result (Opened V.Value.unrowed n row.old) (λ u. RefusedRow n row.old u.refusal × (u.row.now ≡ row.old)) }
        ensures lent { MatchResult result (λ t. tape_loans t ≡ row.entry.ghost_name ∷ []) (λ u. u.row.ghost_name ≡ row.entry.ghost_name) }
    {
        if let Err(refusal) = check_row(row, n) {
            return Err(Unopened { refusal, row });
        }
        Ok(Tape {
            row,
            n: n as u16,
            count: 0,
        })
    }

    // How many items there are: n, but no more than the row has entries.
    fn items(&self) -> usize
        ensures value { result ≡ min self.now.n (length self.now.row.now) }
        ensures bound { result ≤ 65535 }
    {
        usize::from(self.n).min(self.row.len())
    }

    // The entries with which the tape was opened.
    fn opening(&self) -> &[Entry<V::Row>]
        ensures { result.now ≡ take self.now.n self.now.row.now }
    {
        &self.row[..self.items()]
    }

    // The entries that were written since, oldest first.
    fn log(&self) -> &[Entry<V::Row>]
        ensures { result.now ≡ take self.now.count (drop self.now.n self.now.row.now) }
    {
        let later = &self.row[self.items()..];
        &later[..self.count.min(later.len())]
    }

    // Adds an entry behind the others.
    #[tactic(auto, using(crate::proofs::Written::written_push))]
    fn push(&mut self, entry: Entry<V::Row>)
        requires { 0 < unused self.old }
        ensures values { tape_values V.Value.unrowed self.new ≡ slice_set (tape_values V.Value.unrowed self.old) entry.item (V.Value.unrowed entry.value) }
        ensures row { Appended self.old entry self.new }
        ensures room { (unused self.new ≤ unused self.old) × (unused self.old ≤ unused self.new + 1) }
        ensures lent { tape_loans self.new ≡ tape_loans self.old }
    {
        self.row[usize::from(self.n) + self.count] = entry;
        self.count += 1;
    }
}

#[tactic(auto, using(crate::proofs::Written::tape_lengths))]
impl<'a, V: Value> Store for Tape<'a, V> {
    type Value = V;

    ghost values = { tape_values V.Value.unrowed };

    ghost space = { unused };

    ghost loans = { tape_loans };

    fn len(&self) -> usize {
        self.items()
    }

    fn room(&self) -> u16 {
        let behind_opening = self.row.len().saturating_sub(usize::from(self.n));
        behind_opening.saturating_sub(self.count).min(LONGEST_ROW) as u16
    }

    fn read(&self, item: usize) -> Result<V, Refusal> {
        let first = self.opening().get(item).ok_or(Reason::NoSuchItem.at(item))?;
        let entry = newest(self.log(), item).unwrap_or(first);
        Ok(V::from_row(entry.value))
    }

    // the trait's clauses stand here again, since clauses of an impl's own replace them
    fn write(&mut self, item: usize, value: V) -> Result<(), Refusal>
        ensures answer { WriteOf (tape_values V.Value.unrowed self.old) (unused self.old) item value result (tape_values V.Value.unrowed self.new) (unused self.new) }
        ensures loans { tape_loans self.new ≡ tape_loans self.old }
        ensures row { Recorded self.old item (V.Value.rowed value) result self.new }
    {
        check_item(item, self.items())?;
        if self.room() == 0 {
            return Err(Reason::NoRoom.at(0));
        }
        // no u16::try_from, here, in open and in room: its error could never come
        self.push(Entry {
            item: item as u16,
            value: value.to_row(),
        });
        Ok(())
    }
}
