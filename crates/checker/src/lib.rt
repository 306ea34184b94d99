// The check of a table against a state set, under a queue abstraction.
#![tactic(auto)]

mod case;
pub mod check;
mod form;
mod held;
mod hints;
mod judge;
mod parts;
pub mod pass;
mod pattern;
mod plan;
pub mod state_set;
mod step;
mod surprise;
