// Trials: examples that are run, over the public calls of the other crates.
#![tactic(auto)]

mod order;
#[cfg(test)]
mod piles;
#[cfg(test)]
mod runs;
#[cfg(test)]
mod sheets;
