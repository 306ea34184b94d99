// Whole runs: from the bytes of a table and a set to the answers.
ghost use Rattle.std.specs.Prelude.{◌≤◌, min};
ghost use Rattle.table.specs.Reading.{Reads};
ghost use Rattle.table.specs.SystemOf.{system_of};
ghost use Rattle.checker.specs.SetFile.{claim_of};
ghost use Rattle.controller.specs.Hosted.{hosted};
ghost use Rattle.controller.specs.Promises.{Promised, Ran, Rehearsed};
ghost use Rattle.controller.specs.Views.{state_in};

use crate::call::{Answer, Call};
use crate::held::Controller;
use abstraction::QueueAbstraction;
use checker::check::check;
use checker::pass::Pass;
use model::fault::Fault;

// Loads a table and makes calls in their order, as many as there are places for answers; the controller is handed on.
pub fn run<'a>(
    pass: Pass<'a>,
    calls: &[Call],
    answers: &mut [Result<Answer, Fault>],
) -> Controller<'a>
    ensures ran { Ran (hosted (system_of pass.entry.table.bytes.now)) (min pass.entry.capacity 32) calls.now answers.old answers.new (state_in result) }
    ensures whole { Reads pass.entry.table.bytes.now → pass.entry.capacity ≤ 32 → Ran (system_of pass.entry.table.bytes.now) pass.entry.capacity calls.now answers.old answers.new (state_in result) }
{
    let mut controller = Controller::load(pass);
    let _ = controller.answer_all(calls, answers);
    controller
}

// Checks a table against a set, loads it at a capacity and makes calls in their order, as many as there are places for
// answers; says how many.
pub fn rehearse<A: QueueAbstraction>(
    table: &[u8],
    set: &[u8],
    abstraction: &A,
    capacity: u8,
    calls: &[Call],
    answers: &mut [Result<Answer, Fault>],
) -> Result<usize, Fault>
    ensures { Rehearsed table.now set.now (claim_of table.now set.now (A.bits abstraction.now) (A.code abstraction.now) (A.removals abstraction.now)) capacity calls.now answers.old answers.new result }
{
    let mut pass = check_for_runs(table, set, abstraction)?;
    pass.set_capacity(capacity)?;
    let mut controller = Controller::load(pass);
    Ok(controller.answer_all(calls, answers))
}

// The check, with what it promises of every run of a controller.
#[tactic(auto, using(crate::proofs::Promising::promised))]
pub fn check_for_runs<'a, A: QueueAbstraction>(
    table: &'a [u8],
    set: &[u8],
    abstraction: &A,
) -> Result<Pass<'a>, Fault>
    ensures { Promised table.now set.now (claim_of table.now set.now (A.bits abstraction.now) (A.code abstraction.now) (A.removals abstraction.now)) result }
{
    check(table, set, abstraction)
}
