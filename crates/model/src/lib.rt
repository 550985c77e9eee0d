// The vocabulary of the product: stages, the limits of a box, faults, and the check of a table.
#![tactic(auto)]

pub mod fault;
pub mod limits;
pub mod names;
pub mod stage;
pub mod table;
