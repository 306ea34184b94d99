// The check of a table against a state set, under any queue abstraction.
ghost use Rattle.std.specs.Prelude.{◌≡◌, ℕ, ◌<◌, OnOk};
ghost use Rattle.table.specs.Layout.{machines_n};
ghost use Rattle.closed_sets.specs.Records.{Closed};
ghost use Rattle.checker.specs.Case.{claim, FindsFirst, AllSound};
ghost use Rattle.checker.specs.Promise.{Checked, SetRead};
ghost use Rattle.checker.specs.SetFile.{claim_of, SetReady};
ghost use Rattle.checker.specs.Verdict.{closed_order, set_order};

use crate::case::{Case, Judge};
use crate::pass::{FULL_CAPACITY, Pass};
use crate::state_set::StateSet;
use abstraction::QueueAbstraction;
use model::fault::{Fault, Refusal};
use table::header::fault_at;
use table::view::Table;

impl<A: QueueAbstraction> Judge<'_, '_, A> {
    // The first thing that keeps a set in good form from being closed.
    fn check_closed(&self) -> Result<(), Fault>
        requires { AllSound A.QueueAbstraction self.now.case.now }
        ensures first { FindsFirst A.QueueAbstraction self.now.case.now (closed_order (claim A.QueueAbstraction self.now.case.now)) result }
        ensures closed { OnOk result (Closed (claim A.QueueAbstraction self.now.case.now)) }
    {
        if !self.has_start() {
            return Err(fault_at(Refusal::StartAbsent, 0));
        }
        self.check_records()
    }
}

impl<A: QueueAbstraction> Case<'_, '_, A> {
    // The first thing wrong with the set.
    fn check_set(&self) -> Result<(), Fault>
        ensures first { FindsFirst A.QueueAbstraction self.now (set_order self.now.set.bytes.now (claim A.QueueAbstraction self.now)) result }
        ensures closed { OnOk result (Closed (claim A.QueueAbstraction self.now)) }
    {
        self.check_form()?;
        let judge = Judge { case: self };
        judge.check_closed()
    }
}

// A pass for the table if the set is in good form and closed; else the fault of the first thing wrong.
pub fn check<'a, A: QueueAbstraction>(
    table: &'a [u8],
    set: &[u8],
    abstraction: &A,
) -> Result<Pass<'a>, Fault>
    ensures { Checked table.now set.now (claim_of table.now set.now (A.bits abstraction.now) (A.code abstraction.now) (A.removals abstraction.now)) result }
{
    let view = Table::read(table)?;
    Case::over(view, StateSet::over(set), abstraction).check_set()?;
    Ok(Pass {
        table: view,
        capacity: FULL_CAPACITY,
    })
}

// A view of the set if the table reads and the set is in good form; else the fault of the first thing wrong.
pub fn read_set<'a, A: QueueAbstraction>(
    table: &[u8],
    set: &'a [u8],
    abstraction: &A,
) -> Result<StateSet<'a>, Fault>
    ensures { SetRead table.now set.now (claim_of table.now set.now (A.bits abstraction.now) (A.code abstraction.now) (A.removals abstraction.now)) result }
{
    let view = Table::read(table)?;
    let states = StateSet::over(set);
    Case::over(view, states, abstraction).check_form()?;
    Ok(states)
}
