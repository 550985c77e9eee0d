// Loads: the members on one core, and which loads are lawful.
ghost use Rattle.std.specs.Prelude.{◌≡◌, ◌≤◌, true, false, length, take, map, MatchOption};
ghost use Rattle.rules.specs.declared.load.Member.{Member};
ghost use Rattle.rules.specs.Loads.{newcomer, whole_member, joined, within_limits, lawful};
ghost use Rattle.rules.specs.Bounds.{AllModest};
ghost use Rattle.rules.specs.Walk.{may_open, may_follow, orderly};

use model::limits::REVIEW_BOX;
use model::stage::Stage;

// A member of a load: in each of its periods it may ask for its cost. The core before keeps it back
// in at most `hold` ticks of each period. All are told in ticks.
#[derive(Clone, Copy, Debug, Default, PartialEq, Eq)]
pub struct Member {
    pub cost: u32,
    pub period: u32,
    pub hold: u32,
}

impl Member {
    // A member that joins a load behind the others, and so is never held.
    pub fn newcomer(cost: u32, period: u32) -> Member
        ensures { result ≡ newcomer cost period }
    {
        Member {
            cost,
            period,
            hold: 0,
        }
    }

    // Whether cost and period are such as a review box takes.
    fn is_within(&self) -> bool
        ensures { result ≡ within_limits self.now }
    {
        REVIEW_BOX.allows_times(self.cost, self.period)
    }

    // Whether the member can stand first.
    pub(crate) fn may_open(&self) -> bool
        ensures { result ≡ may_open self.now }
    {
        self.is_within() && self.hold <= self.period - self.cost
    }

    // Whether the member can stand behind one of the given period.
    fn may_follow(&self, period: u32) -> bool
        ensures { result ≡ may_follow period self.now }
    {
        period <= self.period && self.hold == 0 && self.is_within()
    }
}

// What can stand in a load. A trait of its own and no `From`: the walks over a load name in their clauses as
// which member each of its elements stands there.
pub trait AsMember {
    // As which member it stands there.
    ghost member_of: { Self → Member };

    fn as_member(&self) -> Member
        ensures { result ≡ member_of self.now };
}

impl AsMember for Member {
    ghost member_of = { λ m. m };

    fn as_member(&self) -> Member {
        *self
    }
}

// A stage stands there whole, as a member that is never held.
impl AsMember for Stage {
    ghost member_of = { whole_member };

    fn as_member(&self) -> Member {
        Member::newcomer(self.cost, self.period)
    }
}

// Members of a load, or what can stand as such: no more than a box has stages, each within the limits.
#[derive(Drop)]
pub struct Load<'a, T: AsMember> {
    pub members: &'a [T],
    pub ghost modest: { AllModest (map T.member_of members.now) },
}

// A load, and the period of a member that it has room for behind its own.
#[derive(Drop)]
pub(crate) struct Room<'a> {
    pub(crate) load: Load<'a, Member>,
    pub(crate) period: u32,
    ghost lawful: { lawful (joined load.members.now 1 period) ≡ true },
}

// Whether the members can stand, in their order, behind one of the given period.
fn in_order(members: &[Member], period: u32) -> bool
    ensures { result ≡ orderly period members.now }
{
    let mut before = period;
    for m in members {
        if !m.may_follow(before) {
            return false;
        }
        before = m.period;
    }
    true
}

// Whether the load is lawful.
fn is_lawful(load: &[Member]) -> bool
    ensures { result ≡ lawful load.now }
{
    let [first, rest @ ..] = load else {
        return false;
    };
    if load.len() > REVIEW_BOX.stages {
        return false;
    }
    first.may_open() && in_order(rest, first.period)
}

// Whether the load stays lawful with a member of cost 1 and this period at its end.
fn has_room(load: &[Member], period: u32) -> bool
    ensures { result ≡ lawful (joined load.now 1 period) }
{
    let next = Member::newcomer(1, period);
    let Some(last) = load.last() else {
        return next.is_within();
    };
    if load.len() >= REVIEW_BOX.stages {
        return false;
    }
    next.may_follow(last.period) && is_lawful(load)
}

impl<'a> Load<'a, Member> {
    // The first `n` members.
    pub(crate) fn front(&self, n: usize) -> Load<'a, Member>
        requires { n ≤ length self.now.members.now }
        ensures { result.members.now ≡ take n self.now.members.now }
    {
        Load {
            members: &self.members[..n],
        }
    }
}

impl<'a> Room<'a> {
    // The load, if it stays lawful with a member of cost 1 and this period at its end.
    pub(crate) fn behind(load: &'a [Member], period: u32) -> Option<Room<'a>>
        ensures { MatchOption result (lawful (joined load.now 1 period) ≡ false) (λ room. (room.load.members.now ≡ load.now) × (room.period ≡ period)) }
    {
        if has_room(load, period) {
            Some(Room {
                load: Load { members: load },
                period,
            })
        } else {
            None
        }
    }
}
