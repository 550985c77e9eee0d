// Whether a table whose periods each divide the next fits on so many cores, without placing it.
ghost use Rattle.std.specs.Prelude.{◌≡◌};
ghost use Rattle.placing.specs.Fits.{fit_of, HarmonicIsExact};

use model::fault::{Fault, Layer};
use model::limits::REVIEW_BOX;
use model::stage::Stage;
use model::table::{check, last_period};
use rules::load::Load;

// What is told of a table.
#[derive(Clone, Copy, PartialEq, Eq, Debug)]
pub enum Fit {
    // each period divides the next, and the sum of cost / period is at most the core count
    Fits,
    // each period divides the next, and the sum is more than that
    TooMuch,
    // some period does not divide the next
    NoChain,
}

// Tells from the exact sum of cost / period whether the harmonic rule places the table.
pub fn harmonic_fit(cores: usize, table: &[Stage]) -> Result<Fit, Fault>
    ensures answer { result ≡ fit_of cores table.now }
    ensures exactly { HarmonicIsExact cores table.now }
{
    check(&REVIEW_BOX, cores, table, Layer::Placing)?;
    let load = Load { members: table };
    if !load.is_chained() {
        return Ok(Fit::NoChain);
    }
    let last = last_period(table);
    let work = load.work_in(last);
    if work <= cores as u64 * last as u64 {
        Ok(Fit::Fits)
    } else {
        Ok(Fit::TooMuch)
    }
}
