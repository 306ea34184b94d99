// Machines with message queues: the types that a system is written in, and the laws of its steps.
#![tactic(auto)]

pub mod fault;
pub mod laws;
pub mod mask;
pub mod pattern;
pub mod queue;
pub mod rule;
