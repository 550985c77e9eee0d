// What the program prints for a sheet.
ghost use Rattle.std.specs.Prelude.{◌≡◌, ◌≤◌, length, Ok};
ghost use Rattle.writing.specs.Pages.{page_answer, page_after};
ghost use Rattle.writing.specs.Room.{room};
ghost use Rattle.writing.specs.Texts.{Adds};
ghost use Rattle.placing.specs.Plans.{layout_of};
ghost use Rattle.dispatch.specs.Ticks.{fresh_states};
ghost use Rattle.session.specs.Sessions.{tick_lines, session_text};

use crate::planning::plan_of;
use dispatch::run::Run;
use model::fault::Fault;
use pages::plan_page::PlanPage;
use pages::refusal::Refusal;
use pages::tick_line::TickLine;
use placing::plan::Plan;
use writing::text::Text;
use writing::written::{Written, write};

// The ticks that are printed.
const TICKS: usize = 12;

// Composes the lines of the first ticks of the plan's run.
fn put_ticks(text: &mut Text, plan: Plan)
    ensures { Adds text.old (tick_lines 12 0 (layout_of plan) fresh_states) text.new }
{
    let cores = plan.cores();
    let mut run = Run::open(plan);
    for tick in 0..TICKS {
        let answer = run.tick();
        TickLine::new(tick, cores, &answer).put(text);
    }
}

// What the program prints for the bytes of a sheet: the plan page and the first ticks, or why there is
// no plan.
#[derive(Clone, Copy)]
struct Session<'a> {
    sheet: &'a [u8],
}

impl<'a> Written for Session<'a> {
    ghost text = { λ session. session_text session.sheet.now };

    fn put(&self, onto: &mut Text) {
        match plan_of(self.sheet) {
            Ok(plan) => {
                PlanPage { plan: &plan }.put(onto);
                put_ticks(onto, plan);
            }
            Err(fault) => Refusal { fault }.put(onto),
        }
    }
}

// Writes the plan page of a sheet and the first ticks of its run, or why there is no plan, and answers
// how many bytes that has. A page that is too short is left as it was; one as large as a text never is.
pub fn write_session(sheet: &[u8], page: &mut [u8]) -> Result<usize, Fault>
    ensures answer { result ≡ page_answer (Ok (session_text sheet.now)) page.old }
    ensures page { page.new ≡ page_after (Ok (session_text sheet.now)) page.old }
    ensures fits { room ≤ length page.old → result ≡ Ok (length (session_text sheet.now)) }
{
    write(&Session { sheet }, page)
}
