// A list whose places lie in the value itself: memory is sized once, and nothing here may allocate, so it is no Vec.
// The filler stands in the places that were never used.
// Clauses see it by `held`: it has no `impl Model`, since what holds a struct with one cannot be passed on twice.
ghost use Rattle.std.specs.Prelude.{◌≡◌, ◌≤◌, [], ◌++◌, length, take, ⊤};

use std::alloc::AllocError;

#[derive(Copy)]
pub struct FixedList<T, const N: usize> {
    places: [T; N],
    len: usize,
    ghost whole: { length places ≡ N },
    ghost fits: { len ≤ N },
}

// A derived clone would promise no more than the items' own clones do. This one is the list itself, and never fails.
impl<T: Copy, const N: usize> Clone for FixedList<T, N> {
    ghost is_clone = { λ x y. y ≡ x };

    ghost is_infallible = { λ _. ⊤ };

    fn clone(&self) -> Result<FixedList<T, N>, AllocError> {
        Ok(*self)
    }
}

impl<T: Copy, const N: usize> FixedList<T, N> {
    ghost use Rattle.lists.specs.FixedList.{held, Pushes, AddsAll};

    pub fn new(filler: T) -> FixedList<T, N>
        ensures { held result ≡ [] }
    {
        FixedList {
            places: [filler; N],
            len: 0,
        }
    }

    // the items, as many as there are places for
    pub fn of(items: &[T], filler: T) -> FixedList<T, N>
        ensures { held result ≡ take N items.now }
    {
        let mut list = FixedList::new(filler);
        list.extend(items);
        list
    }

    pub fn len(&self) -> usize
        ensures value { result ≡ length (held self.now) }
        ensures fits { result ≤ N }
    {
        self.len
    }

    pub fn as_slice(&self) -> &[T]
        ensures value { result.now ≡ held self.now }
        ensures fits { length result.now ≤ N }
    {
        &self.places[..self.len]
    }

    // adds an item at the end, or hands it back where every place is used
    pub fn push(&mut self, item: T) -> Result<(), T>
        ensures { Pushes N item (held self.old) (held self.new) result }
    {
        if self.len >= N {
            return Err(item);
        }
        self.places[self.len] = item;
        self.len += 1;
        Ok(())
    }

    // adds the items at the end, as many as there are places for
    pub fn extend(&mut self, items: &[T])
        ensures after { held self.new ≡ take N (held self.old ++ items.now) }
        ensures whole { AddsAll N (held self.old) items.now (held self.new) }
    {
        let taken = (N - self.len).min(items.len());
        let places = &mut self.places[..];
        places[self.len..self.len + taken].copy_from_slice(&items[..taken]);
        self.len += taken;
    }
}
