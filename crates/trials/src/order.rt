// The calls of a session in their order: place, open, tick, close, and place again.
use dispatch::run::Run;
use model::fault::Fault;
use model::limits::MOST_CORES;
use model::stage::Stage;
use placing::plan::Plan;
use rules::response::Response;

// The first answer of a table, and the first answer after it was placed anew.
pub(crate) fn twice(
    cores: usize,
    table: &[Stage],
) -> Result<([u8; MOST_CORES], [u8; MOST_CORES]), Fault> {
    let mut plan = Plan::empty();
    plan.place(&Response, cores, table)?;
    let mut run = Run::open(plan);
    let first = run.tick();
    let mut plan = run.close();
    plan.place(&Response, cores, table)?;
    let mut run = Run::open(plan);
    let second = run.tick();
    Ok((first, second))
}
