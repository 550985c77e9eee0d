// A plan: what placing has made of a table.
ghost use Rattle.std.specs.Prelude.{◌≡◌, ◌≤◌, [], length};
ghost use Rattle.model.specs.Limits.{review_box};
ghost use Rattle.placing.specs.Sound.{Sound};

use crate::placement::Placement;
use arrayvec::ArrayVec;
use model::limits::MOST_STAGES;

mod core_load;
mod place;

// A plan is had in three ways only: empty, filled by placing, or back from a run that is closed.
// What its type says of it holds whatever rule placed it.
#[derive(Drop)]
pub struct Plan {
    cores: usize,
    placements: ArrayVec<Placement, MOST_STAGES>,
    ghost narrow: { cores ≤ review_box.cores },
    ghost few: { length placements.items ≤ review_box.stages },
    ghost sound: { ∥ Sound cores placements.items ∥₁ },
}

impl Plan {
    // The plan with no cores and no stages.
    pub fn empty() -> Plan
        ensures cores { result.cores ≡ 0 }
        ensures placements { result.placements.items ≡ [] }
    {
        Plan {
            cores: 0,
            placements: ArrayVec::new(),
        }
    }

    pub fn cores(&self) -> usize
        ensures { result ≡ self.now.cores }
    {
        self.cores
    }

    // The placements of the stages, in the order of the table.
    pub fn placements(&self) -> &[Placement]
        ensures { result.now ≡ self.now.placements.items }
    {
        &self.placements
    }
}
