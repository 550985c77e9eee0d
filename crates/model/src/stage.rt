// A stage of a session, as a record of the caller's table.
use crate::limits::NAME_BYTES;

// Cost and period are in ticks: in each period the stage may use up to its cost.
// A name is kept in a fixed number of bytes: its letters stand in front, and zeros fill the rest.
#[derive(Clone, Copy, Default, PartialEq, Eq, Debug)]
pub struct Stage {
    pub name: [u8; NAME_BYTES],
    pub cost: u32,
    pub period: u32,
}
