// Protocols: how a transaction's request is placed in a queue, by locking, by timestamp ordering, by precedence agreement, or by a bank of these.
#![tactic(auto)]

mod agreement;
mod bank;
mod delivered;
mod limits;
mod locking;
mod ordering;
mod protocol;
mod question;
mod served;
mod standing;

pub use agreement::{Agreement, agreement_takes_the_smallest_step};
pub use bank::Bank;
pub use delivered::{Delivered, delivered_bank, delivered_kind};
pub use limits::LAST_TIMESTAMP;
pub use locking::Locking;
pub use ordering::Ordering;
pub use protocol::Protocol;
pub use question::{Kind, Mode, Placement, Question};
pub use served::served_kind;
pub use standing::stands_at;
