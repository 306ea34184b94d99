// What is judged: a case, its set once that is in good form, and one record of the set.
ghost use Rattle.table.specs.Layout.{machines_n};
ghost use Rattle.checker.specs.Plan.{Planned};
ghost use Rattle.checker.specs.Props.{set_ready_prop, planned_prop};
ghost use Rattle.checker.specs.SetFile.{SetReady};

use crate::held::Held;
use crate::parts::ReadTable;
use crate::plan::Plan;
use crate::state_set::StateSet;
use table::view::Table;

// A table that reads, a set and an abstraction.
#[derive(Drop)]
pub(crate) struct Case<'t, 'a, A> {
    pub(crate) table: ReadTable<'t>,
    pub(crate) set: StateSet<'a>,
    pub(crate) abstraction: &'a A,
}

impl<'t, 'a, A> Case<'t, 'a, A> {
    ghost use Rattle.std.specs.Prelude.{◌≡◌};
    ghost use Rattle.table.specs.Reading.{Reads};

    // The case of a table that reads.
    pub(crate) fn over(view: Table<'t>, set: StateSet<'a>, abstraction: &'a A) -> Case<'t, 'a, A>
        requires { Reads view.bytes.now }
        ensures table { result.table.view.bytes.now ≡ view.entry.bytes.now }
        ensures set { result.set.bytes.now ≡ set.entry.bytes.now }
        ensures abstraction { result.abstraction.now ≡ abstraction.now }
    {
        Case {
            table: ReadTable { view },
            set,
            abstraction,
        }
    }
}

// A case whose set is as long as it says and has records that rise. The plan of its table isn't here: it is made once the
// records are judged, so that no set that is refused before pays for it.
#[derive(Drop)]
pub(crate) struct Judge<'t, 'a, A> {
    pub(crate) case: &'a Case<'t, 'a, A>,
    ghost rising: { SetReady (machines_n case.now.table.view.bytes.now) case.now.set.bytes.now } by { set_ready_prop (machines_n case.now.table.view.bytes.now) case.now.set.bytes.now },
}

// Record `k` of the set, as it is held, and the plan of its table. That it is sound is asked of callers: a good code names
// some queue, so a ghost field could only say that there is a proof, `∥ .. ∥₁`. A lemma that opens that for a clause as
// `Decides` was tried, and asks that any two queues are equal.
#[derive(Drop)]
pub(crate) struct Judgement<'t, 'a, A> {
    pub(crate) judge: &'a Judge<'t, 'a, A>,
    pub(crate) plan: &'a Plan,
    pub(crate) k: u16,
    pub(crate) held: Held,
    ghost planned: { Planned judge.now.case.now.table.view.bytes.now plan.now } by { planned_prop judge.now.case.now.table.view.bytes.now plan.now },
}
