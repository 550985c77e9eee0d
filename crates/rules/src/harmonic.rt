// The harmonic rule: each period divides the next, and the work fits into the last.
ghost use Rattle.std.specs.Prelude.{◌≡◌, ◌%◌, ◌==◌, map};
ghost use Rattle.rules.specs.Rules.{chained, work_in, harmonic};
ghost use Rattle.rules.specs.Walk.{last_or};
ghost use Rattle.rules.specs.Lemmas.Lowering.{harmonic_keeps};
ghost use Rattle.rules.specs.Lemmas.HarmonicTimely.{timely_harmonic};
ghost use Rattle.std.proofs.Common.{rules};

use crate::load::{AsMember, Load, Member, Room};
use crate::rule::PassingRule;

// Passes the lawful loads whose periods are a chain that the work fits into.
#[derive(Clone, Copy, Debug)]
pub struct Harmonic;

impl<'a, T: AsMember> Load<'a, T> {
    // Whether each period divides the next. Before the first stands 1, which divides every period.
    pub fn is_chained(&self) -> bool
        ensures { result ≡ chained (map T.member_of self.now.members.now) }
    {
        let mut before = 1;
        for item in self.members {
            let m = item.as_member();
            if m.period % before != 0 {
                return false;
            }
            before = m.period;
        }
        true
    }

    // The ticks that all ask for in so many ticks, a multiple of every period.
    pub fn work_in(&self, ticks: u32) -> u64
        ensures { result ≡ work_in ticks (map T.member_of self.now.members.now) }
    {
        let mut work = 0;
        for item in self.members {
            let m = item.as_member();
            work += m.cost as u64 * (ticks / m.period) as u64;
        }
        work
    }
}

impl<'a> Room<'a> {
    // Whether the last period, if there is one, divides that of the new member.
    fn ends_chain(&self) -> bool
        ensures { result ≡ (self.now.period % last_or 1 self.now.load.members.now == 0) }
    {
        match self.load.members.last() {
            Some(last) => self.period % last.period == 0,
            None => true,
        }
    }
}

impl PassingRule for Harmonic {
    ghost passes = { λ _. harmonic };

    ghost lawful_only = { Prim.search rules };

    ghost lowering = { λ s. harmonic_keeps };

    ghost timely = { λ s. timely_harmonic };

    // What the load's work leaves of the period, and no more than the cost.
    fn share(&self, load: &[Member], cost: u32, period: u32) -> u32 {
        let Some(room) = Room::behind(load, period) else {
            return 0;
        };
        if !room.load.is_chained() {
            return 0;
        }
        if !room.ends_chain() {
            return 0;
        }
        let left = (period as u64).saturating_sub(room.load.work_in(period));
        left.min(cost as u64) as u32
    }

    // The work of a lawful member alone fits into its period.
    fn alone(&self, cost: u32, period: u32, hold: u32) -> bool {
        Member { cost, period, hold }.may_open()
    }
}
