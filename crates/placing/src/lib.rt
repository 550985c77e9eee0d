// Placing: which core runs which stage, and how a stage is split over two neighbouring cores.
#![tactic(auto)]

pub mod fit;
pub mod placement;
pub mod plan;
