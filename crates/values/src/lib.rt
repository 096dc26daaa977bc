// Kinds of value: what a store can keep, and the row form in which a lent row keeps it.
#![tactic(auto)]

mod number;
mod plan;
mod value;

pub use number::{bytes_of_number, number_of_bytes};
pub use plan::{Plan, PlanRecord, PlanRow};
pub use value::Value;
