// Layers on any rule: a cap on the members' uses, and a cap on how many there are.
ghost use Rattle.std.specs.Prelude.{◌≡◌, nat_le};
ghost use Rattle.rules.specs.Bounds.{Modest};
ghost use Rattle.rules.specs.Rules.{use_of, uses, use_cap, count_cap};
ghost use Rattle.std.proofs.lemmas.Bool.{and_parts};
ghost use Rattle.rules.specs.Lemmas.Lowering.{use_cap_keeps, count_cap_keeps};
ghost use Rattle.std.proofs.Common.{rules};

use crate::load::{Load, Member};
use crate::rule::PassingRule;

// Uses are told in millionths of the core.
const MILLION: u64 = 1_000_000;

// Passes what the rule below passes, if the members' uses add up to at most `most` millionths.
#[derive(Clone, Copy, Debug)]
pub struct UseCap<R> {
    pub most: u32,
    pub below: R,
}

// Passes what the rule below passes, if there are at most `most` members. A type of its own beside the other
// cap: they have a number and a rule below in common, and nothing of what they answer.
#[derive(Clone, Copy, Debug)]
pub struct CountCap<R> {
    pub most: u32,
    pub below: R,
}

// The part of the core that a member uses, in millionths, rounded up. A clause says that the member is
// within the limits: it comes from a load or by itself, and a type for one member would be no plainer.
fn use_of(m: &Member) -> u32
    requires { Modest m.now }
    ensures { result ≡ use_of m.now }
{
    (MILLION * m.cost as u64).div_ceil(m.period as u64) as u32
}

impl<'a> Load<'a, Member> {
    // The sum of the members' uses.
    fn uses(&self) -> u32
        ensures { result ≡ uses self.now.members.now }
    {
        let mut sum = 0;
        for m in self.members {
            sum += use_of(m);
        }
        sum
    }
}

impl<R: PassingRule> PassingRule for UseCap<R> {
    ghost passes = { λ s l. use_cap s.most (R.PassingRule.passes s.below) l };

    ghost lawful_only = { λ s l h. R.PassingRule.lawful_only s.below l (and_parts (nat_le (uses l) s.most) (R.PassingRule.passes s.below l) h).1 };

    ghost lowering = { λ s. use_cap_keeps s.most (R.PassingRule.passes s.below) (R.PassingRule.lowering s.below) };

    ghost timely = { Prim.search rules };

    // What the rule below leaves, as far as the use that is left covers it in each period.
    fn share(&self, load: &[Member], cost: u32, period: u32) -> u32 {
        let below = self.below.share(load, cost, period);
        if below == 0 {
            return 0;
        }
        let used = Load { members: load }.uses();
        if self.most < used {
            return 0;
        }
        let room = (self.most - used) as u64 * period as u64 / MILLION;
        room.min(below as u64) as u32
    }

    fn alone(&self, cost: u32, period: u32, hold: u32) -> bool {
        self.below.alone(cost, period, hold) && use_of(&Member { cost, period, hold }) <= self.most
    }
}

impl<R: PassingRule> PassingRule for CountCap<R> {
    ghost passes = { λ s l. count_cap s.most (R.PassingRule.passes s.below) l };

    ghost lawful_only = { Prim.search rules };

    ghost lowering = { λ s. count_cap_keeps s.most (R.PassingRule.passes s.below) (R.PassingRule.lowering s.below) };

    ghost timely = { Prim.search rules };

    // What the rule below leaves, unless there are as many members as there may be.
    fn share(&self, load: &[Member], cost: u32, period: u32) -> u32 {
        if load.len() < self.most as usize {
            self.below.share(load, cost, period)
        } else {
            0
        }
    }

    fn alone(&self, cost: u32, period: u32, hold: u32) -> bool {
        1 <= self.most && self.below.alone(cost, period, hold)
    }
}
