// The answer to a call, whichever of the nine it is.
use crate::asked::Asked;
use crate::finished::Finished;
use crate::granted::Granted;
use lists::FixedList;
use refusals::Refusal;

// how many transactions can be live at once, and so stand in one list
pub const LIVE_LIMIT: usize = 16;

// transaction numbers
pub type Numbers = FixedList<u16, LIVE_LIMIT>;

#[derive(Clone, Copy)]
pub enum Answer<V> {
    // the number of the transaction
    Begun(u16),
    Asked(Asked),
    // the timestamp agreed on, or the transaction's own; 0 for kind lock
    Settled(u32),
    Granted(Granted<V>),
    Finished(Finished),
    // the place in the serial order
    Cleared(u16),
    Abandoned,
    // the members of a ring, the lowest number first; empty where there is none
    Ring(Numbers),
    // in the order begun
    Owing(Numbers),
}

// What a call comes to: an answer, or a refusal.
pub type Reply<V> = Result<Answer<V>, Refusal>;
