// Reading a sheet.
ghost use Rattle.std.specs.Prelude.{◌≡◌, ◌≤◌, [], length, nat_le};
ghost use Rattle.model.specs.Limits.{review_box};
ghost use Rattle.sheet.specs.Tokens.{rest_of};
ghost use Rattle.sheet.specs.Forms.{Passes};
ghost use Rattle.sheet.specs.Sheets.{line_of, stages_from, read_of, listed, told, answer_of, table_of};
ghost use Rattle.sheet.specs.Exact.{ReadsExactly};

use crate::cursor::Cursor;
use crate::forms::{cores_line, stage_line};
use arrayvec::ArrayVec;
use model::fault::{Cause, Fault, Layer};
use model::limits::{MOST_STAGES, REVIEW_BOX};
use model::stage::Stage;
use model::table::check_next;

// The core count of a sheet, and how many stages it has.
#[derive(Clone, Copy, PartialEq, Eq, Debug)]
pub struct Counts {
    pub cores: usize,
    pub stages: usize,
}

// The next stage line, which is to follow these stages.
#[tactic(auto, unfolding(crate::specs::Sheets::line_of))]
fn next_stage(cursor: &mut Cursor, before: &[Stage], line: usize) -> Result<Stage, Fault>
    ensures { Passes (line_of line before.now (rest_of cursor.old)) result (rest_of cursor.new) }
{
    let stage = stage_line(cursor, line)?;
    check_next(&REVIEW_BOX, &stage, before).map_err(|cause| cause.at(line, Layer::Reading))?;
    Ok(stage)
}

// Reads stage lines, from line 2 on, up to the end of the sheet, into a vector that is lent: answered by value, the
// whole vector would be zeroed and copied at each call on its way, and a short sheet would take a quarter longer.
fn stage_lines(cursor: &mut Cursor, stages: &mut ArrayVec<Stage, MOST_STAGES>) -> Result<(), Fault>
    ensures { listed result stages.new ≡ stages_from review_box.stages 2 [] (rest_of cursor.old) }
{
    stages.clear();
    while !cursor.at_end() {
        let line = stages.len() + 2;
        if stages.is_full() {
            return Err(Cause::TooManyLines.at(line, Layer::Reading));
        }
        let stage = next_stage(cursor, stages, line)?;
        stages.push(stage);
    }
    Ok(())
}

// Reads a whole sheet: answers its core count, and leaves its stages in the vector.
#[tactic(auto, unfolding(crate::specs::Sheets::read_of))]
fn gather(text: &[u8], stages: &mut ArrayVec<Stage, MOST_STAGES>) -> Result<usize, Fault>
    ensures { told result stages.new ≡ read_of text.now }
{
    let mut cursor = Cursor::new(text);
    let cores = cores_line(&mut cursor, 1)? as usize;
    if !REVIEW_BOX.allows_cores(cores) {
        return Err(Cause::OutsideLimits.at(1, Layer::Reading));
    }
    stage_lines(&mut cursor, stages)?;
    if stages.is_empty() {
        return Err(Cause::NoStageLine.at(1, Layer::Reading));
    }
    Ok(cores)
}

// Whether a table has room for the stages of any sheet.
fn takes_any(table: &[Stage]) -> bool
    ensures { result ≡ nat_le review_box.stages (length table.now) }
{
    MOST_STAGES <= table.len()
}

// Reads a sheet into the front of the table. A refusal leaves the table as it was.
pub fn read(text: &[u8], table: &mut [Stage]) -> Result<Counts, Fault>
    ensures answer { result ≡ answer_of (length table.old) text.now }
    ensures table { table.new ≡ table_of table.old text.now }
    ensures exactly { review_box.stages ≤ length table.old → ReadsExactly text.now result table.new }
{
    if !takes_any(table) {
        return Err(Cause::ShortTable.at(0, Layer::Reading));
    }
    let mut stages = ArrayVec::new();
    let cores = gather(text, &mut stages)?;
    let n = stages.len();
    table[..n].copy_from_slice(&stages);
    Ok(Counts { cores, stages: n })
}
