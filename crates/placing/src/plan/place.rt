// Placing the stages of a table, in turn, core by core.
ghost use Rattle.std.specs.Prelude.{◌≡◌, ◌-◌, ◌≤◌, []};
ghost use Rattle.model.specs.Lawful.{Lawful};
ghost use Rattle.model.specs.Limits.{review_box};
ghost use Rattle.placing.specs.Placing.{place_stage, place_stages, place_of};
ghost use Rattle.placing.specs.CoreLoads.{Leaves};
ghost use Rattle.placing.specs.Steps.{step_of};
ghost use Rattle.placing.specs.Plans.{layout_of, kept, seated, laid_out, place_answer, place_layout};

use crate::placement::Placement;
use crate::plan::Plan;
use crate::plan::core_load::CoreLoad;
use arrayvec::ArrayVec;
use model::fault::{Cause, Fault, Layer};
use model::limits::{MOST_STAGES, REVIEW_BOX};
use model::stage::Stage;
use model::table::check;
use rules::load::{AsMember, Member};
use rules::rule::PassingRule;

// What is done with a stage on the present core. The four words stay data for one `match`: they are the
// subject's own, and a trait or a closure for each would tell one decision in four places.
#[derive(Clone, Copy)]
enum Step {
    // it joins the load
    Whole,
    // there is no core after this one
    NoRoom,
    // it is taken up on the next core
    NextCore,
    // it is split between this core and the next
    Split,
}

// Which of the four steps, by the share that the rule answered.
fn step_for(share: u32, cost: u32, is_last: bool) -> Step
    ensures { result ≡ step_of share cost is_last }
{
    if share == cost {
        Step::Whole
    } else if is_last {
        Step::NoRoom
    } else if share == 0 {
        Step::NextCore
    } else {
        Step::Split
    }
}

impl CoreLoad {
    // Finds a stage its place, on this core or on those after it.
    #[tactic(auto, using(crate::proofs::Steps::one_turn))]
    fn place_stage<R: PassingRule>(&mut self, rule: &R, stage: &Stage) -> Result<Placement, Cause>
        requires some { 1 ≤ stage.now.cost }
        ensures leaves { Leaves (place_stage (R.PassingRule.passes rule.now) (self.old.cores - self.old.core) self.old.core self.old.members.items stage.now) result self.new }
        ensures cores { self.new.cores ≡ self.old.cores }
    {
        loop {
            let share = rule.share(&self.members, stage.cost, stage.period);
            match step_for(share, stage.cost, self.core == self.cores) {
                Step::Whole => {
                    self.members.push(stage.as_member());
                    return Ok(Placement::seat(stage, self.core, stage.cost, 0));
                }
                Step::NoRoom => return Err(Cause::NoRoom),
                Step::NextCore => {
                    self.core += 1;
                    self.members.clear();
                }
                Step::Split => {
                    let rest = stage.cost - share;
                    if !rule.alone(rest, stage.period, share) {
                        return Err(Cause::NotAlone);
                    }
                    let core = self.core;
                    self.core += 1;
                    self.members.clear();
                    self.members.push(Member {
                        cost: rest,
                        period: stage.period,
                        hold: share,
                    });
                    return Ok(Placement::seat(stage, core, share, rest));
                }
            }
        }
    }
}

// The placements of all stages, in the order of the table.
fn place_stages<R: PassingRule>(
    rule: &R,
    cores: usize,
    table: &[Stage],
) -> Result<ArrayVec<Placement, MOST_STAGES>, Fault>
    requires { Lawful review_box cores table.now }
    ensures { seated result ≡ place_stages (R.PassingRule.passes rule.now) cores 1 1 [] table.now }
{
    let mut at = CoreLoad {
        cores,
        core: 1,
        members: ArrayVec::new(),
    };
    let mut placements = ArrayVec::new();
    for (i, stage) in table.iter().enumerate() {
        let placement = at
            .place_stage(rule, stage)
            .map_err(|cause| cause.at(i + 1, Layer::Placing))?;
        placements.push(placement);
    }
    Ok(placements)
}

// The plan of a core count and a table. They go on one by one, as the public calls are given them: a type for
// the two would be made here and taken apart in the one call below.
fn laid_out<R: PassingRule>(rule: &R, cores: usize, table: &[Stage]) -> Result<Plan, Fault>
    ensures { kept result ≡ laid_out cores (place_of (R.PassingRule.passes rule.now) cores table.now) }
{
    check(&REVIEW_BOX, cores, table, Layer::Placing)?;
    let placements = place_stages(rule, cores, table)?;
    Ok(Plan { cores, placements })
}

impl Plan {
    // Fills the plan from a core count and a table, under a passing rule. A refusal leaves it as it was.
    pub fn place<R: PassingRule>(
        &mut self,
        rule: &R,
        cores: usize,
        table: &[Stage],
    ) -> Result<(), Fault>
        ensures answer { result ≡ place_answer (place_of (R.PassingRule.passes rule.now) cores table.now) }
        ensures plan { layout_of self.new ≡ place_layout (place_of (R.PassingRule.passes rule.now) cores table.now) cores (layout_of self.old) }
    {
        *self = laid_out(rule, cores, table)?;
        Ok(())
    }
}
