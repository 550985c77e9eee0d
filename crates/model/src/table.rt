// The rules of a table of stages, and the check that placing and writing share.
ghost use Rattle.std.specs.Prelude.{◌≡◌, ◌↔◌, [], Ok};
ghost use Rattle.std.specs.Result.{result_err};
ghost use Rattle.model.specs.Lawful.{Lawful};
ghost use Rattle.model.specs.Tables.{used, last_period, breach_of, follows, first_bad, check_of};

use crate::fault::{Cause, Fault, Layer};
use crate::limits::{Limits, NAME_BYTES};
use crate::names::is_name;
use crate::stage::Stage;

// Whether one of these stages has the name.
fn name_used(name: &[u8; NAME_BYTES], before: &[Stage]) -> bool
    ensures { result ≡ used name.now before.now }
{
    before.iter().any(|stage| stage.name == *name)
}

// The period of the last of these stages, or 0. No Option: 0 is below every period, so it needs no case of
// its own where periods are compared.
pub fn last_period(before: &[Stage]) -> u32
    ensures { result ≡ last_period before.now }
{
    before.last().map_or(0, |stage| stage.period)
}

// Refuses a stage that the rules of a table keep from standing right behind these, its name's bytes apart.
#[tactic(auto, using(std::proofs::lemmas::Bool::Decides::nat_tests), unfolding(crate::specs::Tables::breach_of))]
pub fn check_next(limits: &Limits, stage: &Stage, before: &[Stage]) -> Result<(), Cause>
    ensures { result_err result ≡ breach_of limits.now stage.now before.now }
{
    if !limits.allows_times(stage.cost, stage.period) {
        return Err(Cause::OutsideLimits);
    }
    if stage.period < last_period(before) {
        return Err(Cause::PeriodFalls);
    }
    if name_used(&stage.name, before) {
        return Err(Cause::NameUsed);
    }
    Ok(())
}

// Whether a record can stand right behind these.
#[tactic(auto, unfolding(crate::specs::Tables::follows))]
fn can_follow(limits: &Limits, stage: &Stage, before: &[Stage]) -> bool
    ensures { result ≡ follows limits.now stage.now before.now }
{
    is_name(&stage.name) && check_next(limits, stage, before).is_ok()
}

// The number of the first record that cannot stand behind those before it.
fn first_bad(limits: &Limits, table: &[Stage]) -> Option<usize>
    ensures { result ≡ first_bad limits.now [] table.now }
{
    for (i, stage) in table.iter().enumerate() {
        if !can_follow(limits, stage, &table[..i]) {
            return Some(i + 1);
        }
    }
    None
}

// Refuses a core count or a table that does not keep the limits and the rules of a table.
pub fn check(limits: &Limits, cores: usize, table: &[Stage], layer: Layer) -> Result<(), Fault>
    ensures answer { result ≡ check_of limits.now cores table.now layer }
    ensures exactly { (result ≡ Ok tt) ↔ Lawful limits.now cores table.now }
{
    if !limits.allows_cores(cores) || !limits.allows_stages(table.len()) {
        return Err(Cause::CountOutside.at(0, layer));
    }
    match first_bad(limits, table) {
        Some(place) => Err(Cause::BadRecord.at(place, layer)),
        None => Ok(()),
    }
}
