// Static two-phase locking: every request stands last.
ghost use Rattle.protocols.specs.declared.question.Kind.TheVariants.{Lock};
ghost use Rattle.protocols.specs.declared.question.Placement.TheVariants.{Last};
ghost use Rattle.std.proofs.Common.{rules};

use crate::protocol::Protocol;
use crate::question::{Kind, Placement, Question};

#[derive(Clone, Copy, Debug)]
pub struct Locking;

impl Protocol for Locking {
    ghost count = { λ _. 1 };

    ghost kinds = { λ _ _. Lock };

    ghost placed = { λ _ _. Last };

    ghost few = { Prim.search rules };

    ghost terms = { Prim.search rules };

    fn numbers(&self) -> u16 {
        1
    }

    fn kind(&self, _number: u8) -> Kind {
        Kind::Lock
    }

    fn place(&self, _question: Question) -> Placement {
        Placement::Last
    }
}
