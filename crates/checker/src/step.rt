// Whether a record lets a rule lead outside the set.
ghost use Rattle.std.specs.Prelude.{◌≡◌, ℕ, ◌<◌, true, List, length, Some};
ghost use Rattle.std.specs.List.{slice_get};
ghost use Rattle.model.specs.declared.rule.Action.TheVariants.{Local, Take, Send};
ghost use Rattle.model.specs.Order.{each, one, Nothing};
ghost use Rattle.model.specs.System.{rule_of};
ghost use Rattle.table.specs.SystemOf.{system_of};
ghost use Rattle.table.specs.Layout.{machines_n, events_n, rules_n};
ghost use Rattle.closed_sets.specs.Records.{record_of, code_in};
ghost use Rattle.closed_sets.specs.Judging.{Applies, outside, outcomes_of, steps};
ghost use Rattle.closed_sets.specs.Codes.{moved_in};
ghost use Rattle.checker.specs.Case.{claim_at, table_at, set_at, IsSound, Finds};
ghost use Rattle.checker.specs.Held.{record_in};
ghost use Rattle.checker.specs.Inner.{Enabled, Inside};
ghost use Rattle.checker.specs.Props.{enabled_prop};
ghost use Rattle.checker.specs.SetFile.{records_of};

use crate::case::Judgement;
use crate::held::{Entry, Held};
use crate::hints::Hints;
use abstraction::QueueAbstraction;
use abstraction::removals::each_removal;
use model::fault::{Fault, Refusal};
use model::rule::{Action, Rule};

// A rule of the table, by its number, that leads on from a record: its machine is in the local state that it leads from.
#[derive(Drop)]
struct Step<'j, 't, 'a, A> {
    judgement: &'j Judgement<'t, 'a, A>,
    r: u16,
    rule: Rule,
    ghost enabled: { Enabled judgement.now.judge.now.case.now.table.view.bytes.now judgement.now.held r rule } by { enabled_prop judgement.now.judge.now.case.now.table.view.bytes.now judgement.now.held r rule },
}

impl<A: QueueAbstraction> Step<'_, '_, '_, A> {
    // Whether the record that outcome `c` leads to stands in the set.
    fn inside(&self, hints: &mut Hints, c: u64, target: &Held) -> Result<(), Fault>
        requires { target.now.machines ≡ machines_n (table_at self.now.judgement.now) }
        ensures { Inside (records_of (machines_n (table_at self.now.judgement.now)) (set_at self.now.judgement.now)) (record_in target.now) self.now.judgement.now.k self.now.r c result }
    {
        let from = self.judgement;
        let near = hints.place(from.k, self.r, c);
        let Some(place) = from.judge.case.set.find(target, near) else {
            return Err(from.fault(Refusal::StepOutside, self.r, c));
        };
        hints.found(from.k, self.r, c, place);
        Ok(())
    }

    // The record that the rule leads to, with that code of its own queue.
    fn moved(&self, code: u64) -> Held
        requires { IsSound A.QueueAbstraction self.now.judgement.now }
        ensures is { record_in result ≡ moved_in self.now.rule code (record_of (claim_at A.QueueAbstraction self.now.judgement.now) self.now.judgement.now.k) }
        ensures machines { result.machines ≡ machines_n (table_at self.now.judgement.now) }
    {
        self.judgement.held.with(
            self.rule.machine,
            Entry {
                local: self.rule.to,
                code,
            },
        )
    }

    // A local move leads to a record of the set.
    fn check_local(&self, hints: &mut Hints) -> Result<(), Fault>
        requires sound { IsSound A.QueueAbstraction self.now.judgement.now }
        requires action { self.now.rule.action ≡ Local }
        ensures { Finds A.QueueAbstraction self.now.judgement.now (one (outside self.now.judgement.now.k self.now.r 0)) result }
    {
        let own = self.judgement.held.entry(self.rule.machine);
        self.inside(hints, 0, &self.moved(own.code))
    }

    // Removal `c` of a take leads to a record of the set, if it takes the rule's event. What it is judged by comes from the
    // one loop that has it, so no struct holds it.
    fn take_inside(
        &self,
        hints: &mut Hints,
        event: u8,
        c: u64,
        removal: (u8, u64),
    ) -> Result<(), Fault>
        requires sound { IsSound A.QueueAbstraction self.now.judgement.now }
        requires action { self.now.rule.action ≡ Take event }
        requires removal { slice_get (A.removals self.now.judgement.now.judge.now.case.now.abstraction.now (events_n (table_at self.now.judgement.now)) (code_in (record_of (claim_at A.QueueAbstraction self.now.judgement.now) self.now.judgement.now.k) self.now.rule.machine)) c ≡ Some removal }
        ensures { Finds A.QueueAbstraction self.now.judgement.now (one (outside self.now.judgement.now.k self.now.r c)) result }
    {
        let (taken, left) = removal;
        if taken != event {
            return Ok(());
        }
        self.inside(hints, c, &self.moved(left))
    }

    // The first removal by which a take leads outside.
    fn check_take(&self, hints: &mut Hints, event: u8) -> Result<(), Fault>
        requires sound { IsSound A.QueueAbstraction self.now.judgement.now }
        requires action { self.now.rule.action ≡ Take event }
        ensures { Finds A.QueueAbstraction self.now.judgement.now (each (length (A.removals self.now.judgement.now.judge.now.case.now.abstraction.now (events_n (table_at self.now.judgement.now)) (code_in (record_of (claim_at A.QueueAbstraction self.now.judgement.now) self.now.judgement.now.k) self.now.rule.machine))) (λ c. one (outside self.now.judgement.now.k self.now.r c))) result }
    {
        let case = self.judgement.judge.case;
        let m = case.table.events();
        let own = self.judgement.held.entry(self.rule.machine);
        for (c, removal) in each_removal(case.abstraction, m, own.code).enumerate() {
            self.take_inside(hints, event, c as u64, removal)?;
        }
        Ok(())
    }

    // A send leads to a record of the set.
    fn check_send(&self, hints: &mut Hints, event: u8, target: u8) -> Result<(), Fault>
        requires sound { IsSound A.QueueAbstraction self.now.judgement.now }
        requires action { self.now.rule.action ≡ Send event target }
        ensures { Finds A.QueueAbstraction self.now.judgement.now (one (outside self.now.judgement.now.k self.now.r 0)) result }
    {
        let case = self.judgement.judge.case;
        let own = self.judgement.held.entry(self.rule.machine);
        let there = self.judgement.held.entry(target);
        let Some(longer) = case
            .abstraction
            .append(case.table.events(), there.code, event)
        else {
            return Ok(());
        };
        let next = self.moved(own.code);
        let local = next.entry(target).local;
        let sent = next.with(
            target,
            Entry {
                local,
                code: longer,
            },
        );
        self.inside(hints, 0, &sent)
    }

    // The first outcome by which the rule leads outside.
    fn check(&self, hints: &mut Hints) -> Result<(), Fault>
        requires { IsSound A.QueueAbstraction self.now.judgement.now }
        ensures { Finds A.QueueAbstraction self.now.judgement.now (outcomes_of (claim_at A.QueueAbstraction self.now.judgement.now) self.now.judgement.now.k self.now.r) result }
    {
        // a rule is an enum of actions, each with its own numbers
        match self.rule.action {
            Action::Local => self.check_local(hints),
            Action::Take { event } => self.check_take(hints, event),
            Action::Send { event, target } => self.check_send(hints, event, target),
        }
    }
}

impl<A: QueueAbstraction> Judgement<'_, '_, A> {
    // The first outcome by which rule `r` leads outside.
    fn check_rule(&self, hints: &mut Hints, r: u16) -> Result<(), Fault>
        requires sound { IsSound A.QueueAbstraction self.now }
        requires below { r < rules_n (table_at self.now) }
        ensures { Finds A.QueueAbstraction self.now (outcomes_of (claim_at A.QueueAbstraction self.now) self.now.k r) result }
    {
        let rule = self.plan.rule(r);
        let own = self.held.entry(rule.machine);
        if own.local != rule.from {
            return Ok(());
        }
        let step = Step {
            judgement: self,
            r,
            rule,
        };
        step.check(hints)
    }

    // Whether every rule of machine `i` leads to records of the set.
    fn machine_inside(&self, hints: &mut Hints, i: u8) -> bool
        requires sound { IsSound A.QueueAbstraction self.now }
        requires below { i < machines_n (table_at self.now) }
        ensures { result ≡ true → (r : ℕ) → r < rules_n (table_at self.now) → (rule_of (system_of (table_at self.now)) r).machine ≡ i → Nothing (Applies (claim_at A.QueueAbstraction self.now)) (outcomes_of (claim_at A.QueueAbstraction self.now) self.now.k r) }
    {
        let plan = self.plan;
        let mut next = plan.first(i, self.held.entry(i).local);
        // a walk along a chain: std says of `iter::successors` that it has no end, so `all` over it asks for a proof of `⊥`
        while let Some(r) = next {
            if self.check_rule(hints, r).is_err() {
                return false;
            }
            next = plan.after(r);
        }
        true
    }

    // Whether every rule leads to records of the set, in any order.
    fn all_inside(&self, hints: &mut Hints) -> bool
        requires { IsSound A.QueueAbstraction self.now }
        ensures { result ≡ true → Nothing (Applies (claim_at A.QueueAbstraction self.now)) (steps (claim_at A.QueueAbstraction self.now) self.now.k) }
    {
        // each machine changes the hints, which a closure would have to hold
        for i in 0..self.held.machines {
            if !self.machine_inside(hints, i) {
                return false;
            }
        }
        true
    }

    // The first rule that leads outside.
    pub(crate) fn check_steps(&self, hints: &mut Hints) -> Result<(), Fault>
        requires { IsSound A.QueueAbstraction self.now }
        ensures { Finds A.QueueAbstraction self.now (steps (claim_at A.QueueAbstraction self.now) self.now.k) result }
    {
        if self.all_inside(hints) {
            return Ok(());
        }
        for r in 0..self.judge.case.table.view.rule_count() {
            self.check_rule(hints, r)?;
        }
        Ok(())
    }
}
