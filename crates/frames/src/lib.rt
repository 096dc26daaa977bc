// Frames: a line read as a call, with its lists borrowed from the decoded line.
#![tactic(auto)]

mod cursor;
mod display;
mod entries;
mod field;
mod frame;
mod kinds;
mod line;
mod malformed;
mod reading;

pub use entries::{Accesses, Entries, EntriesIter, Values};
pub use frame::Frame;
pub use line::read_line;
