// Whether a record lets a machine be surprised.
ghost use Rattle.std.specs.Prelude.{◌≡◌, ℕ, ◌<◌, Decides};
ghost use Rattle.model.specs.Order.{each, one};
ghost use Rattle.table.specs.Layout.{machines_n, events_n};
ghost use Rattle.closed_sets.specs.Judging.{Applies, surprise, surprises};
ghost use Rattle.checker.specs.Case.{claim_at, table_at, IsSound, Finds};
ghost use Rattle.checker.specs.Inner.{Calm};

use crate::case::Judgement;
use crate::held::Held;
use abstraction::QueueAbstraction;
use model::fault::{Fault, Refusal};
use model::queue::Front;

impl<A: QueueAbstraction> Judgement<'_, '_, A> {
    // Whether the record lets machine `i` be surprised by event `e`. That there is such a machine is asked wherever one is
    // named by number, here and in eight functions more: a type for such numbers would be opened at each use.
    fn lets_surprise(&self, i: u8, e: u8) -> bool
        requires sound { IsSound A.QueueAbstraction self.now }
        requires below { i < machines_n (table_at self.now) }
        ensures { Decides result (Applies (claim_at A.QueueAbstraction self.now) (surprise self.now.k i e)) }
    {
        let case = self.judge.case;
        let entry = self.held.entry(i);
        if self.plan.has_taker(&case.table, i, entry.local, e) {
            return false;
        }
        if !case
            .abstraction
            .allows(case.table.events(), entry.code, Front::Event(e), 0)
        {
            return false;
        }
        case.table.no_take(i, entry.local, e)
    }

    // The first event that machine `i` can be surprised by.
    fn machine_surprises(&self, i: u8) -> Result<(), Fault>
        requires sound { IsSound A.QueueAbstraction self.now }
        requires below { i < machines_n (table_at self.now) }
        ensures { Finds A.QueueAbstraction self.now (each (events_n (table_at self.now)) (λ e. one (surprise self.now.k i e))) result }
    {
        for e in 0..self.judge.case.table.events() {
            if self.lets_surprise(i, e) {
                return Err(self.fault(Refusal::Surprise, u16::from(i), u64::from(e)));
            }
        }
        Ok(())
    }

    // The first machine that can be surprised. One that stands as in the record before cannot be.
    pub(crate) fn check_surprises(&self, last: &Held) -> Result<(), Fault>
        requires sound { IsSound A.QueueAbstraction self.now }
        requires calm { 0 < self.now.k → Calm (claim_at A.QueueAbstraction self.now) (machines_n (table_at self.now)) last.now }
        ensures { Finds A.QueueAbstraction self.now (surprises (claim_at A.QueueAbstraction self.now) self.now.k) result }
    {
        // by number, which the refusal gives
        for i in 0..self.held.machines {
            if self.k > 0 && self.held.entry(i) == last.entry(i) {
                continue;
            }
            self.machine_surprises(i)?;
        }
        Ok(())
    }
}
