// The bytes of a frame that are still to be read.
ghost use Rattle.std.specs.Prelude.{◌≡◌, ◌≢◌, ◌%◌, ◌<◌, [], ◌++◌, length, MatchOption, MatchResult, OnOk};
ghost use Rattle.frames.specs.declared.malformed.Malformed.TheVariants.{Length};
ghost use Rattle.frames.specs.Borrowed.{AccessesIn, ValuesIn};
ghost use Rattle.frames.specs.Entries.{IsEntriesOf};

use crate::entries::{Accesses, Entries, Values};
use crate::field::{Field, Unsigned};
use crate::malformed::Malformed;
use std::marker::Model;

#[derive(Drop)]
pub struct Cursor<'a> {
    rest: &'a [u8],
}

impl<'a> Model for Cursor<'a> {
    ghost use Rattle.std.specs.Prelude.{ℕ, List};

    ghost Value = { List ℕ };

    ghost view = { λ c. c.rest.now };
}

// The field that bytes begin with, and the bytes behind it.
fn first_field<T: Unsigned<N>, const N: usize>(bytes: &[u8]) -> Option<(T, &[u8])>
    ensures { MatchOption result (length bytes.now < N) (λ p. bytes.now ≡ T.bytes_of p.0 ++ p.1.now) }
{
    let (front, rest) = bytes.split_first_chunk()?;
    Some((T::from_bytes(front), rest))
}

impl<'a> Cursor<'a> {
    pub fn new(bytes: &'a [u8]) -> Self
        ensures { result ≡ bytes.now }
    {
        Cursor { rest: bytes }
    }

    // The next field, which stands before the rest.
    pub fn take<T: Unsigned<N>, const N: usize>(&mut self) -> Result<T, Malformed>
        ensures { MatchResult result (λ value. self.old ≡ T.bytes_of value ++ self.new) (λ e. (e ≡ Length) × (length self.old < N)) }
    {
        let (value, rest) = first_field(self.rest).ok_or(Malformed::Length)?;
        self.rest = rest;
        Ok(value)
    }

    // All that is left, as a list. That nothing is left then is said of each reading of a list: a word for it would be no shorter.
    fn entries<T: Field<N>, const N: usize>(&mut self) -> Result<Entries<'a, T, N>, Malformed>
        ensures rest { OnOk result (self.new ≡ []) }
        ensures value { MatchResult result (IsEntriesOf self.old) (λ e. (e ≡ Length) × (length self.old % N ≢ 0)) }
    {
        let entries = Entries::of(self.rest)?;
        self.rest = &[];
        Ok(entries)
    }

    #[tactic(auto, using(crate::proofs::Chunks::values_from))]
    pub fn values(&mut self) -> Result<Values<'a>, Malformed>
        ensures rest { OnOk result (self.new ≡ []) }
        ensures value { ValuesIn self.old result }
    {
        self.entries()
    }

    // The length comes before the modes.
    pub fn accesses(&mut self) -> Result<Accesses<'a>, Malformed>
        ensures rest { OnOk result (self.new ≡ []) }
        ensures value { AccessesIn self.old result }
    {
        let accesses: Accesses<'a> = self.entries()?;
        match accesses.bad_mode() {
            Some(i) => Err(Malformed::BadMode(i)),
            None => Ok(accesses),
        }
    }

    pub fn end(self) -> Result<(), Malformed>
        ensures { MatchResult result (λ _. self.entry ≡ []) (λ e. (e ≡ Length) × (0 < length self.entry)) }
    {
        if !self.rest.is_empty() {
            return Err(Malformed::Length);
        }
        Ok(())
    }
}
