// The judgement of the records of a set, one by one.
ghost use Rattle.std.specs.Prelude.{◌≡◌, ℕ, ◌<◌};
ghost use Rattle.table.specs.Layout.{machines_n};
ghost use Rattle.closed_sets.specs.Judging.{Judged, of_record, judged};
ghost use Rattle.checker.specs.Case.{claim, claim_at, table_at, fault_of, AllSound, IsSound, Finds};
ghost use Rattle.checker.specs.Inner.{Calm};

use crate::case::{Judge, Judgement};
use crate::held::Held;
use crate::hints::Hints;
use crate::plan::Plan;
use abstraction::QueueAbstraction;
use model::fault::{Fault, Refusal};

impl<A: QueueAbstraction> Judgement<'_, '_, A> {
    // A fault of the record.
    pub(crate) fn fault(&self, number: Refusal, b: u16, c: u64) -> Fault
        ensures { result ≡ fault_of number self.now.k b c }
    {
        Fault {
            number,
            a: u32::from(self.k),
            b,
            c,
        }
    }

    // The first thing found in the record; `last` is the record before.
    fn check_record(&self, hints: &mut Hints, last: &Held) -> Result<(), Fault>
        requires sound { IsSound A.QueueAbstraction self.now }
        requires calm { 0 < self.now.k → Calm (claim_at A.QueueAbstraction self.now) (machines_n (table_at self.now)) last.now }
        ensures { Finds A.QueueAbstraction self.now (of_record (claim_at A.QueueAbstraction self.now) self.now.k) result }
    {
        self.check_surprises(last)?;
        self.check_patterns(hints)?;
        self.check_steps(hints)
    }
}

impl<A: QueueAbstraction> Judge<'_, '_, A> {
    // The first thing found in the records.
    pub(crate) fn check_records(&self) -> Result<(), Fault>
        requires { AllSound A.QueueAbstraction self.now.case.now }
        ensures { Judged (claim A.QueueAbstraction self.now.case.now) (judged (claim A.QueueAbstraction self.now.case.now)) result }
    {
        let n = self.case.table.machines();
        let plan = Plan::of(&self.case.table);
        let mut hints = Hints::none();
        let mut last = Held::uniform(n, 0);
        for k in 0..self.case.set.record_count() {
            let held = self.case.set.record(n, k);
            let judgement = Judgement {
                judge: &*self,
                plan: &plan,
                k,
                held,
            };
            judgement.check_record(&mut hints, &last)?;
            last = held;
        }
        Ok(())
    }
}
