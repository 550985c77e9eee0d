// Where one stage is placed. Its name, cost and period stand here one by one, as the plan lists them.
ghost use Rattle.std.specs.Prelude.{◌≡◌};
ghost use Rattle.placing.specs.Placements.{seat};

use model::limits::NAME_BYTES;
use model::stage::Stage;

#[derive(Clone, Copy, Default, PartialEq, Eq, Debug)]
pub struct Placement {
    pub name: [u8; NAME_BYTES],
    pub cost: u32,
    pub period: u32,
    // the stage's first core, numbered from 1
    pub core: usize,
    // its share on that core: the whole cost, if it is not split
    pub first: u32,
    // its share on the core after: 0, and no Option, if it is not split, since shares are added up
    pub second: u32,
}

impl Placement {
    // A stage with its first share on a core and its second on the core after.
    pub(crate) fn seat(stage: &Stage, core: usize, first: u32, second: u32) -> Placement
        ensures { result ≡ seat stage.now core first second }
    {
        Placement {
            name: stage.name,
            cost: stage.cost,
            period: stage.period,
            core,
            first,
            second,
        }
    }
}
