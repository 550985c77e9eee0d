// What the product writes about plans, ticks and refusals, into pages that the caller owns.
#![tactic(auto)]

pub mod plan_page;
pub mod refusal;
pub mod tick_line;
