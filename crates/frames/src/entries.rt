// The list at the end of a frame, in the bytes of the decoded line: N bytes for each entry.
ghost use Rattle.std.specs.Prelude.{◌≡◌, ◌≢◌, ◌<◌, ◌%◌, length, nat_lt, position, MatchResult, slice_get, slice_index};
ghost use Rattle.frames.specs.declared.malformed.Malformed.TheVariants.{Length};

use crate::field::Field;
use crate::malformed::Malformed;
use calls::Access;
use std::marker::PhantomData;

// That modes are modes is a clause of the reader: a ghost field for it is no plainer, since each definition over the struct would take the trait's members too.
#[derive(Clone, Copy, PartialEq, Eq, Debug)]
pub struct Entries<'a, T: Field<N>, const N: usize> {
    chunks: &'a [[u8; N]],
    entry: PhantomData<T>,
}

// the accesses of a begin frame: mode and item of each
pub type Accesses<'a> = Entries<'a, Access, 2>;

// the values of a finish frame
pub type Values<'a> = Entries<'a, i32, 4>;

impl<'a, T: Field<N>, const N: usize> Entries<'a, T, N> {
    ghost use Rattle.frames.specs.Entries.{entries_of, IsEntriesOf};

    pub(crate) fn of(bytes: &'a [u8]) -> Result<Self, Malformed>
        ensures { MatchResult result (IsEntriesOf bytes.now) (λ e. (e ≡ Length) × (length bytes.now % N ≢ 0)) }
    {
        let (chunks, rest) = bytes.as_chunks();
        if !rest.is_empty() {
            return Err(Malformed::Length);
        }
        Ok(Entries {
            chunks,
            entry: PhantomData,
        })
    }

    pub fn len(&self) -> usize
        ensures { result ≡ length (entries_of T.value_of self.now) }
    {
        self.chunks.len()
    }

    #[tactic(auto, using(crate::proofs::Chunks::mapped_element))]
    pub fn get(&self, i: usize) -> Option<T>
        ensures { result ≡ slice_get (entries_of T.value_of self.now) i }
    {
        let chunk = self.chunks.get(i)?;
        Some(T::from_bytes(chunk))
    }
}

impl<'a> Accesses<'a> {
    // The first access whose mode is no mode.
    pub(crate) fn bad_mode(&self) -> Option<usize>
        ensures { result ≡ position (λ chunk. nat_lt 1 (slice_index chunk 0)) self.now.chunks.now }
    {
        self.chunks.iter().position(|[mode, _]| *mode > 1)
    }
}

impl<'a, T: Field<N>, const N: usize> IntoIterator for Entries<'a, T, N> {
    ghost use Rattle.std.specs.Prelude.{◌≡◌};
    ghost use Rattle.frames.specs.Entries.{entries_left, entries_of};

    type Item = T;

    type IntoIter = EntriesIter<'a, T, N>;

    ghost into_iter_gives = { λ entries iter. entries_left T.value_of iter ≡ entries_of T.value_of entries };

    fn into_iter(self) -> EntriesIter<'a, T, N> {
        EntriesIter { left: self }
    }
}

// The entries of a list, one after another.
#[derive(Drop)]
pub struct EntriesIter<'a, T: Field<N>, const N: usize> {
    left: Entries<'a, T, N>,
}

impl<'a, T: Field<N>, const N: usize> Iterator for EntriesIter<'a, T, N> {
    ghost use Rattle.std.specs.Iterator.{YieldsFirst, item_count};
    ghost use Rattle.frames.specs.Entries.{entries_left};

    type Item = T;

    ghost next_gives = { YieldsFirst (entries_left T.value_of) };

    ghost remaining = { item_count (entries_left T.value_of) };

    fn next(&mut self) -> Option<T> {
        let (first, rest) = self.left.chunks.split_first()?;
        self.left.chunks = rest;
        Some(T::from_bytes(first))
    }
}
