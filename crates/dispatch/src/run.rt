// A run of a plan, and the calls on it.
ghost use Rattle.std.specs.Prelude.{◌≡◌};
ghost use Rattle.placing.specs.Plans.{placements_of};
ghost use Rattle.dispatch.specs.Bounds.{Within};
ghost use Rattle.dispatch.specs.Ticks.{answer_of, after_tick, fresh_states};
ghost use Rattle.dispatch.specs.Ends.{index_answer, end_answer, after_end, look_answer};

use crate::job::{Event, Job};
use crate::state::State;
use crate::turn::Turn;
use model::fault::{Cause, Fault, Layer};
use model::limits::{MOST_CORES, MOST_STAGES};
use placing::plan::Plan;

// The plan that was opened, and the state of each stage beside its placement, not in it: closing gives back
// the very plan.
#[derive(Drop)]
pub struct Run {
    plan: Plan,
    states: [State; MOST_STAGES],
    ghost within: { Within (placements_of plan) states },
}

impl Run {
    // Takes the plan into a run: every job is open, and nothing is given yet.
    pub fn open(plan: Plan) -> Run
        ensures plan { result.plan ≡ plan }
        ensures states { result.states ≡ fresh_states }
    {
        Run {
            plan,
            states: [State::default(); MOST_STAGES],
        }
    }

    // Ends the run and gives back the plan.
    pub fn close(self) -> Plan
        ensures { result ≡ self.plan }
    {
        let Run { plan, states: _ } = self;
        plan
    }

    // Answers which stage each core runs in this tick, as eight numbers whatever the plan, and moves the run on
    // by the tick.
    pub fn tick(&mut self) -> [u8; MOST_CORES]
        ensures answers { result ≡ answer_of self.old.plan.cores (placements_of self.old.plan) self.old.states }
        ensures plan { self.new.plan ≡ self.old.plan }
        ensures states { self.new.states ≡ after_tick self.old.plan.cores (placements_of self.old.plan) self.old.states }
    {
        let mut row = [0; MOST_CORES];
        let placements = self.plan.placements();
        let states = &mut self.states;
        for (i, placement) in placements.iter().enumerate() {
            let turn = Turn {
                number: (i + 1) as u8,
                placement,
            };
            // by index: nothing is known of what an adapter of `iter_mut` leaves in the states
            turn.take(&mut states[i], &mut row);
        }
        row
    }

    // Ends the open job of a stage.
    pub fn end(&mut self, stage: usize) -> Result<(), Fault>
        ensures answers { result ≡ end_answer stage (placements_of self.old.plan) self.old.states }
        ensures plan { self.new.plan ≡ self.old.plan }
        ensures states { self.new.states ≡ after_end stage (placements_of self.old.plan) self.old.states }
    {
        let i = self.index_of(stage)?;
        let Job::Open = self.states[i].job else {
            return Err(Cause::NotOpen.at(stage, Layer::Running));
        };
        self.states[i].job = Job::Open.moved(Event::Ended);
        Ok(())
    }

    // Tells a stage's job, age and given ticks.
    pub fn look(&self, stage: usize) -> Result<State, Fault>
        ensures { result ≡ look_answer stage (placements_of self.now.plan) self.now.states }
    {
        let i = self.index_of(stage)?;
        Ok(self.states[i])
    }

    // Where a stage's state stands, if there is such a stage. Stages are numbered from 1.
    fn index_of(&self, stage: usize) -> Result<usize, Fault>
        ensures { result ≡ index_answer stage (placements_of self.now.plan) }
    {
        if stage == 0 || stage > self.plan.placements().len() {
            return Err(Cause::NoSuchStage.at(stage, Layer::Running));
        }
        Ok(stage - 1)
    }
}
