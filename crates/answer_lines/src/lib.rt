// Answers as the lines that are printed.
#![tactic(auto)]

mod codes;
mod kinds;
mod writing;

pub use writing::write_answer;
