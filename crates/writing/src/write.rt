// Composing a text.
ghost use Rattle.std.specs.Prelude.{◌≡◌, [], decimal};
ghost use Rattle.writing.specs.Texts.{text_of, Adds};

use crate::text::Text;
use arrayvec::ArrayVec;
use itoa::Buffer;

impl Text {
    // The text of no byte.
    pub fn new() -> Text
        ensures { text_of result ≡ [] }
    {
        Text {
            bytes: ArrayVec::new(),
        }
    }

    // Adds these bytes, as far as there is room.
    pub fn put(&mut self, bytes: &[u8])
        ensures { Adds self.old bytes.now self.new }
    {
        let count = bytes.len().min(self.bytes.remaining_capacity());
        self.bytes.try_extend_from_slice(&bytes[..count]).unwrap();
    }

    // Adds a number in base ten, as far as there is room.
    pub fn put_number(&mut self, n: usize)
        ensures { Adds self.old (decimal n) self.new }
    {
        self.put(Buffer::new().format(n).as_bytes());
    }
}
