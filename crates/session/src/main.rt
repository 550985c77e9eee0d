// The program: reads a session sheet from standard input, and prints its plan page and the first ticks
// of its run, or why there is no plan.
#![tactic(auto)]

use input::read_input;
use output::write_session;
use std::io;
use std::io::Write;
use writing::text::ROOM;

mod input;
mod output;
mod planning;

fn main(rt: HostRuntime) -> io::Result<()> {
    let sheet = read_input(&mut rt.stdin())?;
    // a page is a row of bytes that its owner lends, so what was written is its front
    let mut page = [0; ROOM];
    match write_session(&sheet, &mut page) {
        Ok(n) => rt.stdout().write_all(&page[..n]),
        Err(_) => unreachable!(),
    }
}
