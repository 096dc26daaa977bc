// What the nine calls of a board are asked with and what they answer.
#![tactic(auto)]

mod access;
mod answer;
mod asked;
mod finished;
mod granted;

pub use access::Access;
pub use answer::{Answer, LIVE_LIMIT, Numbers, Reply};
pub use asked::Asked;
pub use finished::Finished;
pub use granted::{Granted, GrantedLock, Schedule};
