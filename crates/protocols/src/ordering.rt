// Basic timestamp ordering: a request keeps its timestamp, or is turned away where that is not above the bar.
ghost use Rattle.protocols.specs.declared.question.Kind.TheVariants.{Order};
ghost use Rattle.protocols.specs.Placed.{ordered};
ghost use Rattle.std.proofs.Common.{rules};

use crate::protocol::Protocol;
use crate::question::{Kind, Placement, Question};

#[derive(Clone, Copy, Debug)]
pub struct Ordering;

impl Protocol for Ordering {
    ghost count = { λ _. 1 };

    ghost kinds = { λ _ _. Order };

    ghost placed = { λ _ q. ordered q.timestamp q.bar };

    ghost few = { Prim.search rules };

    ghost terms = { Prim.search rules };

    fn numbers(&self) -> u16 {
        1
    }

    fn kind(&self, _number: u8) -> Kind {
        Kind::Order
    }

    fn place(&self, question: Question) -> Placement {
        if question.timestamp > question.bar {
            Placement::Own
        } else {
            Placement::Away
        }
    }
}
