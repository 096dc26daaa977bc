// Stores: what keeps the values of the items, and the two that are delivered.
#![tactic(auto)]

mod exchanges;
mod store;
mod table;
mod tape;

pub use exchanges::exchange;
pub use store::Store;
pub use table::Table;
pub use tape::entry::Entry;
pub use tape::{Tape, Unopened};
