// A text that a call composes before it touches the caller's page.
ghost use Rattle.std.specs.Prelude.{◌≤◌, length};
ghost use Rattle.writing.specs.Room.{room};

use arrayvec::ArrayVec;

// The bytes that a text can hold: more than any text that is composed.
pub const ROOM: usize = 4096;

// The bytes that were put, as far as there was room.
#[derive(Drop)]
pub struct Text {
    pub(crate) bytes: ArrayVec<u8, ROOM>,
    ghost within: { length bytes.items ≤ room },
}
