// From the text of a sheet to its plan.
ghost use Rattle.std.specs.Prelude.{◌≡◌};
ghost use Rattle.sheet.specs.Sheets.{read_of};
ghost use Rattle.placing.specs.Plans.{kept};
ghost use Rattle.session.specs.Sessions.{plan_for};

use model::fault::Fault;
use model::limits::MOST_STAGES;
use model::stage::Stage;
use placing::plan::Plan;
use rules::caps::{CountCap, UseCap};
use rules::response::Response;
use sheet::read::read;

// At most so many members on one core, and so many millionths of a core used.
const MOST_MEMBERS: u32 = 12;

const MOST_USE: u32 = 900_000;

// Reads the sheet and places its stages.
pub fn plan_of(text: &[u8]) -> Result<Plan, Fault>
    ensures { kept result ≡ plan_for (read_of text.now) }
{
    // the table is a row of records that is lent: `read` fills its front
    let mut table = [Stage::default(); MOST_STAGES];
    let counts = read(text, &mut table)?;
    let rule = CountCap {
        most: MOST_MEMBERS,
        below: UseCap {
            most: MOST_USE,
            below: Response,
        },
    };
    let mut plan = Plan::empty();
    plan.place(&rule, counts.cores, &table[..counts.stages])?;
    Ok(plan)
}
