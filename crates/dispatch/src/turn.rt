// A stage's turn in a tick. A tick is one walk along the stages, in the order of their numbers.
ghost use Rattle.std.specs.Prelude.{◌≡◌, ◌<◌};
ghost use Rattle.model.specs.Limits.{review_box};
ghost use Rattle.placing.specs.Sound.{SoundPlacement};
ghost use Rattle.dispatch.specs.Ticks.{grown};
ghost use Rattle.dispatch.specs.Walk.{served_after, state_after, row_after};
ghost use Rattle.dispatch.specs.Bounds.{InBounds};

use crate::job::{Event, Job};
use crate::state::State;
use model::limits::MOST_CORES;
use placing::placement::Placement;

// A stage whose turn it is in a tick. Its state is no field beside these. A loop that lends an element to a
// struct is not known to keep the number of elements (tried). And each method would have to promise that it
// keeps the reference.
#[derive(Drop)]
pub(crate) struct Turn<'a> {
    pub(crate) number: u8,
    pub(crate) placement: &'a Placement,
    ghost sound: { SoundPlacement review_box.cores placement.now },
}

impl<'a> Turn<'a> {
    // What the stage does in a tick: it is served or passed over, and the tick is over.
    pub(crate) fn take(&self, state: &mut State, row: &mut [u8; MOST_CORES])
        requires within { InBounds self.now.placement.now state.old }
        ensures state { state.new ≡ state_after self.now.placement.now state.old row.old }
        ensures row { row.new ≡ row_after self.now.number self.now.placement.now state.old row.old }
    {
        self.serve(state, row);
        self.grow(state);
    }

    // Gives the stage a tick on its first core or else on its second, if its job is open, some of its share
    // there is not yet given, and no stage before it took the core. `row` has what each core took so far, as an
    // answer has it: 0 stands for no stage.
    fn serve(&self, state: &mut State, row: &mut [u8; MOST_CORES])
        requires within { InBounds self.now.placement.now state.old }
        ensures state { state.new ≡ served_after self.now.placement.now state.old row.old }
        ensures row { row.new ≡ row_after self.now.number self.now.placement.now state.old row.old }
    {
        let Job::Open = state.job else {
            return;
        };
        let core = self.placement.core;
        if state.first < self.placement.first && row[core - 1] == 0 {
            row[core - 1] = self.number;
            state.first += 1;
        } else if state.second < self.placement.second && row[core] == 0 {
            row[core] = self.number;
            state.second += 1;
        } else {
            return;
        }
        state.job = state.job.moved(Event::Served {
            done: state.first + state.second == self.placement.cost,
        });
    }

    // The stage once the tick is over: a tick older, or released.
    fn grow(&self, state: &mut State)
        requires young { state.old.age < self.now.placement.now.period }
        ensures { state.new ≡ grown self.now.placement.now state.old }
    {
        state.age += 1;
        if state.age == self.placement.period {
            *state = State {
                job: state.job.moved(Event::Released),
                ..State::default()
            };
        }
    }
}
