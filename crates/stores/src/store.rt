// A store, by the list of its values and its room, the number of writes (0 to 65,535) that it will surely still take.
ghost use Rattle.std.specs.Prelude.{◌≡◌, ℕ, ◌<◌, List, length, MatchResult};
ghost use Rattle.std.specs.Borrow.{GName};
ghost use Rattle.stores.specs.Answers.{ReadOf, RefusesItem, WriteOf};

use refusals::{Reason, Refusal};

pub trait Store {
    type Value: Copy;

    // the value of each item, in item order
    ghost values: { Self → List Self.Value };

    // the room
    ghost space: { Self → ℕ };

    // the rows that the store has on loan, so that who lent one knows that it comes back as the store left it
    ghost loans: { Self → List GName };

    fn len(&self) -> usize
        ensures { result ≡ length (values self.now) };

    fn room(&self) -> u16
        ensures { result ≡ space self.now };

    fn read(&self, item: usize) -> Result<Self::Value, Refusal>
        ensures { ReadOf (values self.now) item result };

    fn write(&mut self, item: usize, value: Self::Value) -> Result<(), Refusal>
        ensures answer { WriteOf (values self.old) (space self.old) item value result (values self.new) (space self.new) }
        ensures loans { loans self.new ≡ loans self.old };
}

// Refuses an item that a store of so many items does not have. It takes no store, since an impl's method that passes itself on gets no proof.
pub(crate) fn check_item(item: usize, len: usize) -> Result<(), Refusal>
    ensures { MatchResult result (λ _. item < len) (RefusesItem len item) }
{
    if item >= len {
        return Err(Reason::NoSuchItem.at(item));
    }
    Ok(())
}
