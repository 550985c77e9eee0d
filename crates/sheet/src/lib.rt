// Sheets: the text of a core count and a table of stages, read and written.
#![tactic(auto)]

mod cursor;
mod forms;
pub mod read;
mod token;
mod walk;
pub mod write;
