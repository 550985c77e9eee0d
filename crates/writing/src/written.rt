// What has a text, and writing it into a page that the caller owns.
ghost use Rattle.std.specs.Prelude.{◌≡◌, ◌≤◌, ℕ, List, length, Ok};
ghost use Rattle.writing.specs.Pages.{page_answer, page_after};
ghost use Rattle.writing.specs.Room.{room};
ghost use Rattle.writing.specs.Texts.{Adds};

use crate::text::Text;
use model::fault::Fault;

// A value with a text. It is composed by bytes and not by `Display`, which may fail at any value and
// would have the names of stages, which are bytes, made into `str` first.
pub trait Written {
    // Its text.
    ghost text: { Self → List ℕ };

    // Adds its text, which a text that is empty has room for.
    fn put(&self, onto: &mut Text)
        ensures added { Adds onto.old (text self.now) onto.new }
        ensures fits { length (text self.now) ≤ room };
}

// Writes the text of a value to the front of the page, and answers how many bytes it has.
// A page that is too short is left as it was; one as large as a text never is.
pub fn write<W: Written>(it: &W, page: &mut [u8]) -> Result<usize, Fault>
    ensures answer { result ≡ page_answer (Ok (W.text it.now)) page.old }
    ensures page { page.new ≡ page_after (Ok (W.text it.now)) page.old }
    ensures fits { room ≤ length page.old → result ≡ Ok (length (W.text it.now)) }
{
    let mut text = Text::new();
    it.put(&mut text);
    text.deliver(page)
}
