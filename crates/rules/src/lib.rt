// Passing rules: which loads one core serves in time, and what share of a core a load leaves.
#![tactic(auto)]

pub mod caps;
pub mod harmonic;
pub mod load;
pub mod response;
pub mod rule;
