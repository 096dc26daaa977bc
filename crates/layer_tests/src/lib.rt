#![tactic(auto)]

// Examples on either side of each rule of the lists, values, stores and protocols.
#[cfg(test)]
mod lent_test;
#[cfg(test)]
mod lists_test;
#[cfg(test)]
mod protocols_test;
#[cfg(test)]
mod refusals_test;
#[cfg(test)]
mod stores_test;
#[cfg(test)]
mod values_test;
