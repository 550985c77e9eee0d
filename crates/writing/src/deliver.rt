// Handing a text to the caller.
ghost use Rattle.std.specs.Prelude.{◌≡◌, Ok};
ghost use Rattle.writing.specs.Texts.{text_of};
ghost use Rattle.writing.specs.Pages.{page_answer, page_after};

use crate::text::Text;
use model::fault::{Cause, Fault, Layer};

impl Text {
    // Copies the text to the front of the page and answers how many bytes it has.
    // A page that is too short is left as it was. Here, and in each call that writes a page, one clause says
    // what is answered and one what the page then is.
    pub fn deliver(&self, page: &mut [u8]) -> Result<usize, Fault>
        ensures answer { result ≡ page_answer (Ok (text_of self.now)) page.old }
        ensures page { page.new ≡ page_after (Ok (text_of self.now)) page.old }
    {
        let n = self.bytes.len();
        if page.len() < n {
            return Err(Cause::ShortPage.at(0, Layer::Writing));
        }
        page[..n].copy_from_slice(&self.bytes);
        Ok(n)
    }
}
