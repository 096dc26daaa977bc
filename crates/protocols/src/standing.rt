// Where a request stands in its queue, by any protocol.
ghost use Rattle.std.specs.Prelude.{◌≡◌, ◌<◌, IfSome, ◌≢◌};
ghost use Rattle.protocols.specs.declared.question.Kind.TheVariants.{Lock};
ghost use Rattle.protocols.specs.Limits.{Within};
ghost use Rattle.protocols.specs.Terms.{stands};

use crate::protocol::Protocol;
use crate::question::{Placement, Question};

// The place, in a queue whose largest place ever was `high`, or none where the request is turned away.
// Only kind lock can stand at or below the bar.
pub fn stands_at<P: Protocol>(protocol: &P, question: Question, high: u32) -> Option<u32>
    ensures place { result ≡ stands (P.placed protocol.now question) question.timestamp high }
    ensures above { question.number < P.count protocol.now → Within question → (P.kinds protocol.now question.number ≢ Lock) → IfSome result (λ place. question.bar < place) }
{
    match protocol.place(question) {
        Placement::Own => Some(question.timestamp),
        Placement::Moved(place) => Some(place),
        Placement::Last => Some(high),
        Placement::Away => None,
    }
}
