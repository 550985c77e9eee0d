// The core that placing has come to, with the members that it has so far.
ghost use Rattle.std.specs.Prelude.{◌≤◌};

use arrayvec::ArrayVec;
use model::limits::MOST_STAGES;
use rules::load::Member;

#[derive(Drop)]
pub struct CoreLoad {
    // how many cores there are
    pub cores: usize,
    pub core: usize,
    pub members: ArrayVec<Member, MOST_STAGES>,
    ghost on_a_core: { core ≤ cores },
}
