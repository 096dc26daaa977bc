// A bank of two protocols is a protocol: the first one's numbers, then the second one's, as far as 255.
ghost use Rattle.std.specs.Prelude.{◌≡◌, ◌+◌, ◌-◌, min, if◌then◌else◌, nat_lt, Some, None};
ghost use Rattle.protocols.specs.Renumbered.{renumbered};
ghost use Rattle.std.proofs.Common.{rules};

use crate::protocol::Protocol;
use crate::question::{Kind, Placement, Question};

#[derive(Clone, Copy, Debug)]
pub struct Bank<A, B> {
    pub first: A,
    pub second: B,
}

impl<A: Protocol, B: Protocol> Bank<A, B> {
    // The second protocol's number for a number of the bank, or none where that is one of the first's.
    fn second_number(&self, number: u8) -> Option<u8>
        ensures { result ≡ (if nat_lt number (A.count self.now.first) then None else Some (number - A.count self.now.first)) }
    {
        u16::from(number)
            .checked_sub(self.first.numbers())
            // no u8::try_from: its error could never come
            .map(|behind| behind as u8)
    }
}

impl<A: Protocol, B: Protocol> Protocol for Bank<A, B> {
    ghost count = { λ p. min (A.Protocol.count p.first + B.Protocol.count p.second) 256 };

    ghost kinds = { λ p n. (if nat_lt n (A.Protocol.count p.first) then A.Protocol.kinds p.first n else B.Protocol.kinds p.second (n - A.Protocol.count p.first)) };

    ghost placed = { λ p q. (if nat_lt q.number (A.Protocol.count p.first) then A.Protocol.placed p.first q else B.Protocol.placed p.second (renumbered (A.Protocol.count p.first) q)) };

    ghost few = { Prim.search rules };

    ghost terms = { Prim.search rules };

    fn numbers(&self) -> u16 {
        self.first
            .numbers()
            .saturating_add(self.second.numbers())
            .min(256)
    }

    fn kind(&self, number: u8) -> Kind {
        match self.second_number(number) {
            None => self.first.kind(number),
            Some(behind) => self.second.kind(behind),
        }
    }

    fn place(&self, question: Question) -> Placement {
        match self.second_number(question.number) {
            None => self.first.place(question),
            Some(number) => self.second.place(Question { number, ..question }),
        }
    }
}
