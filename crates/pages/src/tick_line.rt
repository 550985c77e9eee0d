// The tick line: the number of a tick, and the stage that each core runs in it.
ghost use Rattle.std.specs.Prelude.{◌≡◌, ◌*◌, ◌≤◌, length, take, Ok};
ghost use Rattle.std.specs.List.{flat_map};
ghost use Rattle.model.specs.Limits.{review_box};
ghost use Rattle.writing.specs.Pages.{page_answer, page_after};
ghost use Rattle.writing.specs.Texts.{Adds};
ghost use Rattle.pages.specs.Ticks.{number_text, line_text, tick_text};

use model::fault::Fault;
use model::limits::MOST_CORES;
use writing::text::Text;
use writing::written::{Written, write};

// Adds the numbers, a space before each. A loop of its own beside those of the other pages: it also says how
// long the text is.
fn put_numbers(text: &mut Text, numbers: &[u8])
    ensures added { Adds text.old (flat_map number_text numbers.now) text.new }
    ensures short { length (flat_map number_text numbers.now) ≤ 4 * length numbers.now }
{
    for number in numbers {
        text.put(b" ");
        text.put_number(*number as usize);
    }
}

// The line of a tick: its number, and a number for each core.
#[derive(Clone, Copy)]
pub struct TickLine<'a> {
    tick: usize,
    numbers: &'a [u8],
    ghost few: { length numbers.now ≤ review_box.cores },
}

impl<'a> TickLine<'a> {
    // The line of a tick of a plan with so many cores.
    pub fn new(tick: usize, cores: usize, answer: &'a [u8; MOST_CORES]) -> TickLine<'a>
        ensures tick { result.tick ≡ tick }
        ensures numbers { result.numbers.now ≡ take cores answer.now }
    {
        let count = cores.min(MOST_CORES);
        TickLine {
            tick,
            numbers: &answer[..count],
        }
    }
}

impl<'a> Written for TickLine<'a> {
    ghost text = { λ line. line_text line.tick line.numbers.now };

    fn put(&self, onto: &mut Text) {
        onto.put(b"(tick ");
        onto.put_number(self.tick);
        put_numbers(onto, self.numbers);
        onto.put(b")\n");
    }
}

// Writes the line of a tick of a plan with so many cores, and answers how many bytes it has.
// A page that is too short is left as it was.
pub fn write_tick(
    tick: usize,
    cores: usize,
    answer: &[u8; MOST_CORES],
    page: &mut [u8],
) -> Result<usize, Fault>
    ensures answer { result ≡ page_answer (Ok (tick_text tick cores answer.now)) page.old }
    ensures page { page.new ≡ page_after (Ok (tick_text tick cores answer.now)) page.old }
{
    write(&TickLine::new(tick, cores, answer), page)
}
