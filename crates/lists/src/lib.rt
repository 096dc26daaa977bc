// A list of fixed capacity: nothing is allocated, so nothing fails for want of memory.
#![tactic(auto)]

mod fixed;

pub use fixed::FixedList;
