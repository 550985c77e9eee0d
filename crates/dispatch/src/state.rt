// What a run keeps of one stage.
use crate::job::Job;

// A stage that was just released is in the default state.
#[derive(Clone, Copy, PartialEq, Eq, Debug, Default)]
pub struct State {
    // the ticks since the stage's release
    pub age: u32,
    // the ticks given since then on its first core, and on its second
    pub first: u32,
    pub second: u32,
    pub job: Job,
}
