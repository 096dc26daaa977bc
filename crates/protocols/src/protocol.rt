// A protocol serves the numbers 0 to count - 1, each of one kind, and places requests.
ghost use Rattle.std.specs.Prelude.{◌≡◌, ℕ, ◌<◌, ◌≤◌};
ghost use Rattle.protocols.specs.declared.question.Kind.{Kind};
ghost use Rattle.protocols.specs.declared.question.Placement.{Placement};
ghost use Rattle.protocols.specs.declared.question.Question.{Question};
ghost use Rattle.protocols.specs.Limits.{Within};
ghost use Rattle.protocols.specs.Terms.{Terms};

use crate::question::{Kind, Placement, Question};

pub trait Protocol {
    // how many numbers it serves
    ghost count: { Self → ℕ };

    ghost kinds: { Self → ℕ → Kind };

    // a function, so equal questions get equal answers
    ghost placed: { Self → Question → Placement };

    // no default body of 1: its clause cannot be proved for every count
    fn numbers(&self) -> u16
        ensures { result ≡ count self.now };

    fn kind(&self, number: u8) -> Kind
        ensures { result ≡ kinds self.now number };

    fn place(&self, question: Question) -> Placement
        ensures { result ≡ placed self.now question };

    ghost few: { (p : Self) → count p ≤ 256 };

    ghost terms: { (p : Self) (q : Question) → q.number < count p → Within q → Terms (kinds p q.number) q.timestamp q.bar (placed p q) };
}
