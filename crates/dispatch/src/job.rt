// A stage's job, and what moves it.
ghost use Rattle.std.specs.Prelude.{◌≡◌};
ghost use Rattle.dispatch.specs.Jobs.{job_number, moved_by};

// The work of a stage between one release and the next, by the number that look tells.
#[derive(Clone, Copy, PartialEq, Eq, Debug, Default)]
pub enum Job {
    #[default]
    Open = 1,
    Ended = 2,
    Spent = 3,
}

// What can happen to a job. `done` says that it has now had its cost.
#[derive(Clone, Copy, PartialEq, Eq, Debug)]
pub enum Event {
    Served { done: bool },
    Ended,
    Released,
}

// The number that look tells.
impl From<Job> for u8 {
    ghost from_gives = { λ job n. n ≡ job_number job };

    fn from(job: Job) -> u8 {
        job as u8
    }
}

impl Job {
    // The job after an event: the one place where a job moves.
    pub fn moved(self, event: Event) -> Job
        ensures { result ≡ moved_by self event }
    {
        match (self, event) {
            (Job::Open, Event::Served { done: true }) => Job::Spent,
            (Job::Open, Event::Served { done: false }) => Job::Open,
            (Job::Open, Event::Ended) => Job::Ended,
            (Job::Ended, Event::Served { .. } | Event::Ended) => Job::Ended,
            (Job::Spent, Event::Served { .. } | Event::Ended) => Job::Spent,
            (Job::Open | Job::Ended | Job::Spent, Event::Released) => Job::Open,
        }
    }
}
