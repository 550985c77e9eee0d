// Texts of bytes and numbers, and their delivery into a page that the caller owns.
#![tactic(auto)]

pub mod deliver;
pub mod text;
pub mod write;
pub mod written;
