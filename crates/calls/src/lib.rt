// The file of calls: its lines, and what each asks for.
#![tactic(auto)]

pub mod line;
pub mod lines;
mod number;
pub mod reading;
mod word;
