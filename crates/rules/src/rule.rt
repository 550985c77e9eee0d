// What a passing rule is.
ghost use Rattle.std.specs.Prelude.{◌≡◌, Bool, true, List};
ghost use Rattle.rules.specs.declared.load.Member.{Member};
ghost use Rattle.rules.specs.Laws.{LoweringKeeps};
ghost use Rattle.rules.specs.Loads.{lawful, single};
ghost use Rattle.rules.specs.Rules.{share_of};
ghost use Rattle.rules.specs.Timing.{Timely};

use crate::load::Member;

// A rule passes some loads and not others. Its laws are proved by each implementation; code over any
// rule rests on them. Both questions may be asked of any numbers and any slice.
pub trait PassingRule {
    // The loads that the rule passes.
    ghost passes: { Self → List Member → Bool };

    // The greatest cost from 1 to the one given at which a member of this period, never held, is
    // passed at the end of the load; 0 if there is none. No Option: a share is counted with, and none of
    // 0 ticks is given.
    fn share(&self, load: &[Member], cost: u32, period: u32) -> u32
        ensures { result ≡ share_of (passes self.now) load.now cost period };

    // Whether the load of this one member is passed. It is told by its numbers, as a share is asked for.
    fn alone(&self, cost: u32, period: u32, hold: u32) -> bool
        ensures { result ≡ passes self.now (single cost period hold) };

    // It passes lawful loads only.
    ghost lawful_only: { (s : Self) (l : List Member) → passes s l ≡ true → lawful l ≡ true };

    // A passed load stays passed when its last member's cost is lowered.
    ghost lowering: { (s : Self) → LoweringKeeps (passes s) };

    // In every run of a passed load each job closes before its member's next release.
    ghost timely: { (s : Self) (l : List Member) → passes s l ≡ true → Timely l };
}
