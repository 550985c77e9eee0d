// Runs of the worked session, with ends and looks.
use dispatch::job::Job;
use dispatch::run::Run;
use dispatch::state::State;
use model::fault::{Cause, Fault, Layer};
use model::limits::MOST_STAGES;
use model::stage::Stage;
use placing::plan::Plan;
use rules::response::Response;
use sheet::read::read;
use std::process::Abort;
use std::test::Fail;

const SHEET: &[u8; 148] =
    b"(cores 2)\n(stage audio (cost 1) (period 4))\n(stage decode (cost 2) (period 6))\n(stage grain (cost 4) (period 8))\n(stage scope (cost 5) (period 12))\n";

// The worked session, opened.
fn opened() -> Result<Run, Fault> {
    let mut table = [Stage::default(); MOST_STAGES];
    let counts = read(SHEET, &mut table)?;
    let mut plan = Plan::empty();
    plan.place(&Response, counts.cores, &table[..counts.stages])?;
    Ok(Run::open(plan))
}

// Ending the stage is refused with this number (as a refusal line prints it), at the stage.
fn not_ended(rt: &impl Abort, run: &mut Run, stage: usize, number: u8) -> Result<(), Fail> {
    let Err(why) = run.end(stage) else {
        return Err(Fail::new("ended"));
    };
    assert_eq!(rt; why.place, stage);
    assert_eq!(rt; u8::from(why.cause), number);
    Ok(())
}

#[test]
fn ends_before_the_first_tick(rt: HostRuntime) -> Result<(), Fail> {
    let mut run = opened()?;
    assert_eq!(rt; run.end(1), Ok(()));
    assert_eq!(rt; run.end(2), Ok(()));
    assert_eq!(rt; run.tick(), [3, 4, 0, 0, 0, 0, 0, 0]);
    not_ended(&rt, &mut run, 1, 32)?;
    not_ended(&rt, &mut run, 0, 31)?;
    not_ended(&rt, &mut run, 5, 31)?;
    not_ended(&rt, &mut run, usize::MAX, 31)
}

#[test]
fn looks(rt: HostRuntime) -> Result<(), Fail> {
    let mut run = opened()?;
    let _ = run.tick();
    let spent = State {
        age: 1,
        first: 1,
        second: 0,
        job: Job::Spent,
    };
    assert_eq!(rt; run.look(1), Ok(spent));
    assert_eq!(rt; u8::from(Job::Spent), 3);
    assert_eq!(rt; run.look(5), Err(Cause::NoSuchStage.at(5, Layer::Running)));
    Ok(())
}

#[test]
fn empty_plan(rt: HostRuntime) -> Result<(), Fail> {
    let mut run = Run::open(Plan::empty());
    assert_eq!(rt; run.tick(), [0; 8]);
    not_ended(&rt, &mut run, 1, 31)?;
    assert_eq!(rt; run.look(0), Err(Cause::NoSuchStage.at(0, Layer::Running)));
    let plan = run.close();
    assert_eq!(rt; plan.cores(), 0);
    Ok(())
}
