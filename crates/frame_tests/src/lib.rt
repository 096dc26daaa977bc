#![tactic(auto)]

// Examples on either side of each rule of lines, frames and answers.
#[cfg(test)]
mod answers_test;
#[cfg(test)]
mod lines_test;
#[cfg(test)]
mod refused_test;
#[cfg(test)]
mod served_test;
