// The response rule: for each member some moment up to its period covers its demand.
ghost use Rattle.std.specs.Prelude.{◌≡◌, ◌+◌, ◌*◌, ◌≤◌, min, []};
ghost use Rattle.model.specs.Limits.{review_box};
ghost use Rattle.rules.specs.Bounds.{Modest};
ghost use Rattle.rules.specs.Rules.{rounded_up, interference, covers, least_moment, all_covered, covered_to, greatest, response};
ghost use Rattle.rules.specs.Lemmas.Lowering.{response_keeps};
ghost use Rattle.rules.specs.Lemmas.Passed.{timely_response};
ghost use Rattle.std.proofs.Common.{rules};

use crate::load::{Load, Member, Room};
use crate::rule::PassingRule;

// Passes the lawful loads whose members are all covered within their periods.
#[derive(Clone, Copy, Debug)]
pub struct Response;

// How often a member can ask for its cost in `t` ticks. That `t` is short stands in a clause here and
// below: a type for it would be made anew at each step of the walk, which is no plainer.
fn releases(m: &Member, t: u32) -> u32
    requires modest { Modest m.now }
    requires short { t ≤ review_box.longest }
    ensures { result ≡ rounded_up (t + m.now.hold) m.now.period }
{
    (t + m.hold).div_ceil(m.period)
}

impl<'a> Load<'a, Member> {
    // The ticks that the members can ask for in `t` ticks.
    fn interference(&self, t: u32) -> u32
        requires { t ≤ review_box.longest }
        ensures { result ≡ interference self.now.members.now t }
    {
        let mut sum = 0;
        for m in self.members {
            sum += m.cost * releases(m, t);
        }
        sum
    }

    // The first moment, up to the limit, that covers `own` ticks and what the members can ask for.
    // A moment below the demand is followed by the demand itself: no moment between the two will do,
    // since the demand never falls.
    fn covering_moment(&self, own: u32, limit: u32) -> Option<u32>
        requires small { own ≤ 2 * review_box.longest }
        requires short { limit ≤ review_box.longest }
        ensures { result ≡ least_moment (covers self.now.members.now own) limit }
    {
        let mut t = 1;
        while t <= limit {
            let demand = own + self.interference(t);
            if demand <= t {
                return Some(t);
            }
            t = demand;
        }
        None
    }

    // Whether each member is covered within its period.
    fn all_in_time(&self) -> bool
        ensures { result ≡ all_covered [] self.now.members.now }
    {
        for (i, m) in self.members.iter().enumerate() {
            let own = m.cost + m.hold;
            if self.front(i).covering_moment(own, m.period).is_none() {
                return false;
            }
        }
        true
    }
}

impl<'a> Room<'a> {
    // The greatest cost, up to the one given, that is covered within the period, or 0, as a share is told; by
    // bisection.
    fn greatest_in_time(&self, cost: u32) -> u32
        ensures { result ≡ greatest (λ c. covered_to self.now.load.members.now c self.now.period) (min cost self.now.period) }
    {
        let mut low = 0;
        let mut high = cost.min(self.period);
        while low < high {
            let middle = high - (high - low) / 2;
            if self.load.covering_moment(middle, self.period).is_some() {
                low = middle;
            } else {
                high = middle - 1;
            }
        }
        low
    }
}

impl PassingRule for Response {
    ghost passes = { λ _. response };

    ghost lawful_only = { Prim.search rules };

    ghost lowering = { λ s. response_keeps };

    ghost timely = { λ s. timely_response };

    fn share(&self, load: &[Member], cost: u32, period: u32) -> u32 {
        let Some(room) = Room::behind(load, period) else {
            return 0;
        };
        if !room.load.all_in_time() {
            return 0;
        }
        room.greatest_in_time(cost)
    }

    // A lawful member alone is covered by its period.
    fn alone(&self, cost: u32, period: u32, hold: u32) -> bool {
        Member { cost, period, hold }.may_open()
    }
}
