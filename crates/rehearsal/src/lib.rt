// A rehearsal: a pass and a text of calls, and the reply to each line.
#![tactic(auto)]

pub mod rehearsal;
pub mod reply;
mod turn;
