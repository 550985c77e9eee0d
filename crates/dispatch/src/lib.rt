// Running a plan: which stage each core runs, tick by tick.
#![tactic(auto)]

pub mod examples;
pub mod job;
pub mod run;
pub mod state;
mod turn;
