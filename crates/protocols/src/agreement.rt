// Precedence agreement: a request that is not above the bar moves up by whole intervals until it is.
ghost use Rattle.std.specs.Prelude.{◌≡◌, ◌≤◌};
ghost use Rattle.protocols.specs.declared.question.Kind.TheVariants.{Agree};
ghost use Rattle.protocols.specs.Placed.{agreed, first_above, AgreedBySmallestStep};
ghost use Rattle.std.proofs.Common.{rules};

use crate::limits::LAST_TIMESTAMP;
use crate::protocol::Protocol;
use crate::question::{Kind, Placement, Question};

#[derive(Clone, Copy, Debug)]
pub struct Agreement;

// The first of timestamp + interval, timestamp + 2 × interval, .. above the bar.
fn first_above(question: Question) -> u64
    requires order { question.timestamp ≤ question.bar }
    requires step { 1 ≤ question.interval }
    ensures { result ≡ first_above question.timestamp question.interval question.bar }
{
    let Question {
        timestamp,
        interval,
        bar,
        ..
    } = question;
    // the bar is (bar - timestamp) % interval past the last step that is not above it
    u64::from(bar) + u64::from(interval) - u64::from((bar - timestamp) % interval)
}

impl Protocol for Agreement {
    ghost count = { λ _. 1 };

    ghost kinds = { λ _ _. Agree };

    ghost placed = { λ _ q. agreed q.timestamp q.interval q.bar };

    ghost few = { Prim.search rules };

    ghost terms = { Prim.search rules };

    fn numbers(&self) -> u16 {
        1
    }

    fn kind(&self, _number: u8) -> Kind {
        Kind::Agree
    }

    fn place(&self, question: Question) -> Placement {
        if question.timestamp > question.bar {
            return Placement::Own;
        }
        if question.interval == 0 {
            return Placement::Away;
        }
        match u32::try_from(first_above(question)) {
            Ok(place) if place <= LAST_TIMESTAMP => Placement::Moved(place),
            _ => Placement::Away,
        }
    }
}

// What agreement answers is moved by the smallest whole number of intervals. This holds of the definition that `place` meets, so it has nothing to run.
#[tactic(auto, using(crate::proofs::Smallest::by_smallest_step))]
pub fn agreement_takes_the_smallest_step()
    ensures { AgreedBySmallestStep }
{}
