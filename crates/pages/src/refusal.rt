// The refusal line.
ghost use Rattle.std.specs.Prelude.{◌≡◌, ◌++◌, Ok};
ghost use Rattle.writing.specs.Pages.{page_answer, page_after};
ghost use Rattle.writing.specs.Room.{cut};
ghost use Rattle.writing.specs.Texts.{text_of};
ghost use Rattle.pages.specs.Refusals.{refusal_text};

use model::fault::Fault;
use writing::text::Text;
use writing::written::{Written, write};

// The line `(refused N P)` of a fault.
#[derive(Clone, Copy)]
pub struct Refusal {
    pub fault: Fault,
}

impl Written for Refusal {
    ghost text = { λ line. refusal_text line.fault };

    fn put(&self, onto: &mut Text) {
        onto.put(b"(refused ");
        onto.put_number(u8::from(self.fault.cause) as usize);
        onto.put(b" ");
        onto.put_number(self.fault.place);
        onto.put(b")\n");
    }
}

// Writes that line, and answers how many bytes it has. A page that is too short is left as it was.
pub fn write_refusal(fault: Fault, page: &mut [u8]) -> Result<usize, Fault>
    ensures answer { result ≡ page_answer (Ok (refusal_text fault)) page.old }
    ensures page { page.new ≡ page_after (Ok (refusal_text fault)) page.old }
{
    write(&Refusal { fault }, page)
}
