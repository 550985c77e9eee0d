// What a box can take. Every limit of the product stands here and nowhere else.
ghost use Rattle.std.specs.Prelude.{◌≡◌};
ghost use Rattle.model.specs.Limits.{cores_allowed, stages_allowed, times_allowed};

// The bytes of a name, its letters and the zeros behind them.
pub const NAME_BYTES: usize = 12;

// The room that plans, runs and answers keep, whatever the session.
pub const MOST_STAGES: usize = 64;

pub const MOST_CORES: usize = 8;

#[derive(Clone, Copy, PartialEq, Eq, Debug)]
pub struct Limits {
    // the most stages of a session, and so the most members of a load
    pub stages: usize,
    // the most cores
    pub cores: usize,
    // the shortest and the longest period, in ticks
    pub shortest: u32,
    pub longest: u32,
}

// The limits of a review box.
pub const REVIEW_BOX: Limits = Limits {
    stages: MOST_STAGES,
    cores: MOST_CORES,
    shortest: 2,
    longest: 60_000,
};

impl Limits {
    // Whether a box can have this many cores.
    pub fn allows_cores(&self, cores: usize) -> bool
        ensures { result ≡ cores_allowed self.now cores }
    {
        1 <= cores && cores <= self.cores
    }

    // Whether a session can have this many stages.
    pub fn allows_stages(&self, count: usize) -> bool
        ensures { result ≡ stages_allowed self.now count }
    {
        1 <= count && count <= self.stages
    }

    // Whether a stage can have this cost and this period.
    pub fn allows_times(&self, cost: u32, period: u32) -> bool
        ensures { result ≡ times_allowed self.now cost period }
    {
        self.shortest <= period && period <= self.longest && 1 <= cost && cost <= period
    }
}
