// Writing a sheet.
ghost use Rattle.std.specs.Prelude.{◌≡◌, ◌↔◌, Ok};
ghost use Rattle.std.specs.List.{flat_map};
ghost use Rattle.model.specs.Limits.{review_box};
ghost use Rattle.model.specs.declared.fault.Layer.{Layer};
ghost use Rattle.model.specs.Lawful.{Lawful};
ghost use Rattle.model.specs.Tables.{check_of};
ghost use Rattle.writing.specs.Pages.{page_answer, page_after};
ghost use Rattle.writing.specs.Texts.{Adds};
ghost use Rattle.sheet.specs.Printed.{cores_text, stage_text, sheet_of, page_of};
ghost use Rattle.sheet.specs.Exact.{WritesBack, Accepted, Longest};

use model::fault::{Fault, Layer};
use model::limits::REVIEW_BOX;
use model::names::word;
use model::stage::Stage;
use model::table::check;
use writing::text::Text;
use writing::written::{Written, write};

// The most bytes of a sheet: a page of so many takes any.
pub const LONGEST_SHEET: usize = 3146;

// Adds the line of the core count.
#[tactic(auto, using(writing::proofs::Texts::pieces), unfolding(crate::specs::Printed::cores_text))]
fn put_cores(text: &mut Text, cores: usize)
    ensures { Adds text.old (cores_text cores) text.new }
{
    text.put(b"(cores ");
    text.put_number(cores);
    text.put(b")\n");
}

// Adds the line of a stage.
#[tactic(auto, using(writing::proofs::Texts::pieces), unfolding(crate::specs::Printed::stage_text))]
fn put_stage(text: &mut Text, stage: &Stage)
    ensures { Adds text.old (stage_text stage.now) text.new }
{
    text.put(b"(stage ");
    text.put(word(&stage.name));
    text.put(b" (cost ");
    text.put_number(stage.cost as usize);
    text.put(b") (period ");
    text.put_number(stage.period as usize);
    text.put(b"))\n");
}

// Adds the lines of the stages, in their order. A loop of its own, as those of the plan page and the tick line
// are: what is added of an element hangs on other things in each.
fn put_stages(text: &mut Text, table: &[Stage])
    ensures { Adds text.old (flat_map stage_text table.now) text.new }
{
    for stage in table {
        put_stage(text, stage);
    }
}

// A core count and a table that the check of writing has accepted.
#[derive(Clone, Copy)]
struct Sheet<'a> {
    cores: usize,
    table: &'a [Stage],
    ghost checked: { check_of review_box cores table.now Layer.Writing ≡ Ok tt },
}

impl<'a> Written for Sheet<'a> {
    ghost text = { λ sheet. sheet_of sheet.cores sheet.table.now };

    fn put(&self, onto: &mut Text) {
        put_cores(onto, self.cores);
        put_stages(onto, self.table);
    }
}

// Writes the sheet of a core count and a table to the front of the page, and answers how many bytes it has.
// A refusal leaves the page as it was.
pub fn write_sheet(cores: usize, table: &[Stage], page: &mut [u8]) -> Result<usize, Fault>
    ensures answer { result ≡ page_answer (page_of cores table.now) page.old }
    ensures page { page.new ≡ page_after (page_of cores table.now) page.old }
    ensures back { WritesBack cores table.now result page.new }
    ensures exactly { Accepted result ↔ Lawful review_box cores table.now }
    ensures longest { Longest LONGEST_SHEET result }
{
    check(&REVIEW_BOX, cores, table, Layer::Writing)?;
    write(&Sheet { cores, table }, page)
}
