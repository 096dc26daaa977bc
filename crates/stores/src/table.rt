// The table: a lent row of n values. Its room is always 65,535.
ghost use Rattle.std.specs.Prelude.{◌≡◌, [], ◌∷◌};
ghost use Rattle.stores.specs.Answers.{WriteOf};
ghost use Rattle.stores.specs.Tables.{table_loans, table_row, table_values, Rewritten};

use crate::store::{Store, check_item};
use refusals::{Reason, Refusal};
use values::Value;

#[derive(Drop)]
pub struct Table<'a, V: Value> {
    row: &'a mut [V::Row],
}

impl<'a, V: Value> Table<'a, V> {
    pub fn open(row: &'a mut [V::Row]) -> Table<'a, V>
        ensures same { table_row result ≡ row.old }
        ensures lent { table_loans result ≡ row.entry.ghost_name ∷ [] }
    {
        Table { row }
    }
}

#[tactic(auto, using(crate::proofs::Mapped::mapped_write))]
impl<'a, V: Value> Store for Table<'a, V> {
    type Value = V;

    // the way from row forms is handed on: with no ghost field, no kind comes with the type
    ghost values = { table_values V.Value.unrowed };

    ghost space = { λ _. 65535 };

    ghost loans = { table_loans };

    fn len(&self) -> usize {
        self.row.len()
    }

    fn room(&self) -> u16 {
        u16::MAX
    }

    fn read(&self, item: usize) -> Result<V, Refusal> {
        let row = self.row.get(item).ok_or(Reason::NoSuchItem.at(item))?;
        Ok(V::from_row(*row))
    }

    // the trait's clauses stand here again, since clauses of an impl's own replace them
    fn write(&mut self, item: usize, value: V) -> Result<(), Refusal>
        ensures answer { WriteOf (table_values V.Value.unrowed self.old) 65535 item value result (table_values V.Value.unrowed self.new) 65535 }
        ensures loans { table_loans self.new ≡ table_loans self.old }
        ensures row { Rewritten self.old item (V.Value.rowed value) result self.new }
    {
        check_item(item, self.row.len())?;
        // by index, since after a write through get_mut a proof knows the row's length and no value
        self.row[item] = value.to_row();
        Ok(())
    }
}
