// The plan page: a line for the plan, and one for each core.
ghost use Rattle.std.specs.Prelude.{◌≡◌, Ok};
ghost use Rattle.std.specs.List.{flat_map};
ghost use Rattle.model.specs.Names.{letters_of};
ghost use Rattle.writing.specs.Pages.{page_answer, page_after};
ghost use Rattle.writing.specs.Texts.{Adds};
ghost use Rattle.placing.specs.Plans.{layout_of};
ghost use Rattle.pages.specs.Plans.{whole_text, share_text, member_text, core_text, core_lines, plan_text};

use model::fault::Fault;
use model::names::word;
use placing::placement::Placement;
use placing::plan::Plan;
use writing::text::Text;
use writing::written::{Written, write};

// The letters of a stage's name. Not inlined: in the walk over a plan's stages they would leave too few registers
// to the walk, and the page of a plan of 64 stages would take half as long again.
#[inline(never)]
fn shown_name(placement: &Placement) -> &[u8]
    ensures { result.now ≡ letters_of placement.now.name }
{
    word(&placement.name)
}

// `(whole audio)`, a space before it.
#[tactic(auto, using(writing::proofs::Texts::pieces), unfolding(crate::specs::Plans::whole_text))]
fn put_whole(text: &mut Text, placement: &Placement)
    ensures { Adds text.old (whole_text placement.now) text.new }
{
    text.put(b" (whole ");
    text.put(shown_name(placement));
    text.put(b")");
}

// `(first grain 2)` or `(second grain 2)`, from its head on.
#[tactic(auto, using(writing::proofs::Texts::pieces), unfolding(crate::specs::Plans::share_text))]
fn put_share(text: &mut Text, head: &[u8], placement: &Placement, share: u32)
    ensures { Adds text.old (share_text head.now placement.now share) text.new }
{
    text.put(head);
    text.put(shown_name(placement));
    text.put(b" ");
    text.put_number(share as usize);
    text.put(b")");
}

// What a core's line says of a stage, if it says anything.
fn put_member(text: &mut Text, core: usize, placement: &Placement)
    ensures { Adds text.old (member_text core placement.now) text.new }
{
    if core == placement.core {
        if placement.second == 0 {
            put_whole(text, placement);
        } else {
            put_share(text, b" (first ", placement, placement.first);
        }
    } else if placement.core < core && core - placement.core == 1 && placement.second > 0 {
        put_share(text, b" (second ", placement, placement.second);
    }
}

// What the line says of all stages. A loop of its own: what it adds of a stage hangs on the core too.
fn put_members(text: &mut Text, core: usize, placements: &[Placement])
    ensures { Adds text.old (flat_map (member_text core) placements.now) text.new }
{
    for placement in placements {
        put_member(text, core, placement);
    }
}

// The line of a core.
#[tactic(auto, using(writing::proofs::Texts::pieces), unfolding(crate::specs::Plans::core_text))]
fn put_core(text: &mut Text, core: usize, placements: &[Placement])
    ensures { Adds text.old (core_text core placements.now) text.new }
{
    text.put(b"(core ");
    text.put_number(core);
    put_members(text, core, placements);
    text.put(b")\n");
}

// The lines of all cores, from core 1 on. The loop counts from 0: over `1..=cores` it ends in two places, and
// each would need its proof.
#[tactic(auto, using(writing::proofs::Texts::pieces))]
fn put_cores(text: &mut Text, cores: usize, placements: &[Placement])
    ensures { Adds text.old (core_lines cores placements.now) text.new }
{
    for i in 0..cores {
        put_core(text, i + 1, placements);
    }
}

// The plan page of a plan.
#[derive(Clone, Copy)]
pub struct PlanPage<'a> {
    pub plan: &'a Plan,
}

impl<'a> Written for PlanPage<'a> {
    ghost text = { λ page. plan_text (layout_of page.plan.now) };

    fn put(&self, onto: &mut Text) {
        let cores = self.plan.cores();
        onto.put(b"(plan ");
        onto.put_number(cores);
        onto.put(b")\n");
        put_cores(onto, cores, self.plan.placements());
    }
}

// Writes the plan page to the front of the page, and answers how many bytes it has.
// A page that is too short is left as it was.
pub fn write_plan(plan: &Plan, page: &mut [u8]) -> Result<usize, Fault>
    ensures answer { result ≡ page_answer (Ok (plan_text (layout_of plan.now))) page.old }
    ensures page { page.new ≡ page_after (Ok (plan_text (layout_of plan.now))) page.old }
{
    write(&PlanPage { plan }, page)
}
