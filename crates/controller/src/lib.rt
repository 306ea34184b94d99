// The controller of a table that was checked: it holds a state and makes the table's steps.
#![tactic(auto)]

pub mod call;
pub mod control;
mod entry;
pub mod held;
mod machines;
pub mod run;
