// Laws of systems, each the contract of a function.
ghost use Rattle.model.specs.Laws.{RuleDetermines, ReachedIsState};

// A rule makes at most one state of another.
#[tactic(auto, using(crate::proofs::States::rule_determines))]
pub fn rule_determines()
    ensures { RuleDetermines }
{}

// Every state that a well-formed system reaches has a local state and a queue of its events for each machine.
#[tactic(auto, using(crate::proofs::States::reached_is_state))]
pub fn reached_is_state()
    ensures { ReachedIsState }
{}
