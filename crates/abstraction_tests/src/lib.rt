// Runs of the abstractions: against a direct enumeration of queues, and at the edges of what they take.
#![tactic(auto)]

#[cfg(test)]
mod edges;
#[cfg(test)]
mod enumeration;
