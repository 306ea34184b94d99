// The form of a set: its header, its length, and its records one by one.
ghost use Rattle.std.specs.Prelude.{◌≡◌, ℕ, ◌+◌, ◌-◌, ◌*◌, ◌<◌, ◌≤◌, length, Decides, MatchResult, OnOk};
ghost use Rattle.model.specs.State.{start};
ghost use Rattle.model.specs.System.{states_of};
ghost use Rattle.model.specs.Order.{Answered, FirstFault, under, each};
ghost use Rattle.table.specs.Header.{fields};
ghost use Rattle.table.specs.Layout.{machines_n, events_n};
ghost use Rattle.table.specs.SystemOf.{system_of};
ghost use Rattle.abstraction.specs.Meaning.{Good};
ghost use Rattle.closed_sets.specs.Records.{record_of, Sound, Represented};
ghost use Rattle.checker.specs.Case.{claim, FindsFirst};
ghost use Rattle.checker.specs.Held.{record_in};
ghost use Rattle.checker.specs.Inner.{Formed};
ghost use Rattle.checker.specs.SetFile.{records_n, record_byte, Before, SetReady};
ghost use Rattle.checker.specs.Verdict.{bounds, field, HeaderApplies, header_numbers, header_order, Applies, numbers, form_of, form_order};

use crate::case::{Case, Judge};
use crate::held::{Entry, Held};
use crate::state_set::{EDITION, ENTRY_LENGTH, LAST_KIND, MOST_KEPT, MOST_RECORDS};
use abstraction::QueueAbstraction;
use model::fault::{Fault, Refusal};
use table::header::{FIELDS, HEADER_LENGTH, check_fields, fault_at};

impl<A: QueueAbstraction> Case<'_, '_, A> {
    // The least and the greatest value of each header field; the machines and the events are the table's.
    fn header_bounds(&self) -> [(u32, u32); FIELDS]
        ensures { result ≡ bounds self.now.table.view.bytes.now }
    {
        let machines = u32::from(self.table.view.machine_count());
        let events = u32::from(self.table.view.event_count());
        let records_at = HEADER_LENGTH as u32;
        [
            (EDITION, EDITION),
            (0, LAST_KIND),
            (0, MOST_KEPT),
            (machines, machines),
            (events, events),
            (0, MOST_RECORDS),
            (records_at, records_at),
            (0, 0),
        ]
    }

    fn check_header_fields(&self) -> Result<(), Fault>
        ensures { Answered (HeaderApplies self.now.table.view.bytes.now self.now.set.bytes.now) header_numbers (under field fields) result }
    {
        check_fields(self.set.bytes(), &self.header_bounds(), Refusal::SetHeader)
    }

    // The header of the set, and the length that it gives. A table's header is checked alike: one function for both would
    // take the bounds, two refusals and a way to the length.
    fn check_header(&self) -> Result<(), Fault>
        ensures { Answered (HeaderApplies self.now.table.view.bytes.now self.now.set.bytes.now) header_numbers header_order result }
    {
        let bytes = self.set.bytes();
        if bytes.len() < HEADER_LENGTH {
            return Err(fault_at(Refusal::SetLength, 0));
        }
        self.check_header_fields()?;
        let record_length = ENTRY_LENGTH * usize::from(self.table.machines());
        if bytes.len() != HEADER_LENGTH + record_length * usize::from(self.set.record_count()) {
            return Err(fault_at(Refusal::SetLength, 0));
        }
        Ok(())
    }

    // Whether the machine has the local state and the code is good.
    fn entry_sound(&self, i: u8, entry: Entry) -> bool
        requires { i < machines_n self.now.table.view.bytes.now }
        ensures { Decides result ((entry.local < states_of (system_of self.now.table.view.bytes.now) i) × Good (A.bits self.now.abstraction.now) (A.code self.now.abstraction.now) (events_n self.now.table.view.bytes.now) entry.code) }
    {
        entry.local < self.table.local_states(i)
            && self.abstraction.good(self.table.events(), entry.code)
    }

    // Whether each machine has the local state that the record gives it, and each code is good.
    fn is_sound(&self, k: u16, held: &Held) -> bool
        requires is { record_in held.now ≡ record_of (claim A.QueueAbstraction self.now) k }
        requires machines { held.now.machines ≡ machines_n self.now.table.view.bytes.now }
        requires sized { length (record_in held.now) ≡ machines_n self.now.table.view.bytes.now }
        ensures { Decides result (Sound (claim A.QueueAbstraction self.now) (record_of (claim A.QueueAbstraction self.now) k)) }
    {
        (0..held.machines).all(
            |i|
                requires held { i < held.now.machines }
                requires below { i < machines_n self.now.table.view.bytes.now }
            { self.entry_sound(i, held.entry(i)) },
        )
    }

    // The first thing wrong with the form of record `k`.
    fn form_record(&self, k: u16) -> Result<(), Fault>
        requires head { 16 ≤ length self.now.set.bytes.now }
        requires long { length self.now.set.bytes.now ≡ 16 + 9 * machines_n self.now.table.view.bytes.now * records_n self.now.set.bytes.now }
        requires below { k < records_n self.now.set.bytes.now }
        ensures { MatchResult result (λ _. Sound (claim A.QueueAbstraction self.now) (record_of (claim A.QueueAbstraction self.now) k) × (0 < k → Before (9 * machines_n self.now.table.view.bytes.now) (record_byte (machines_n self.now.table.view.bytes.now) self.now.set.bytes.now (k - 1)) (record_byte (machines_n self.now.table.view.bytes.now) self.now.set.bytes.now k))) (λ f. FirstFault (Applies self.now.table.view.bytes.now self.now.set.bytes.now (claim A.QueueAbstraction self.now)) (numbers self.now.table.view.bytes.now) (form_of k) f) }
    {
        let held = self.set.record(self.table.machines(), k);
        if !self.is_sound(k, &held) {
            return Err(fault_at(Refusal::RecordParts, u32::from(k)));
        }
        if k == 0 {
            return Ok(());
        }
        if !self.set.stands_above(k, &held) {
            return Err(fault_at(Refusal::RecordOrder, u32::from(k)));
        }
        Ok(())
    }

    // The first thing wrong with the form of the records.
    fn form_records(&self) -> Result<(), Fault>
        requires head { 16 ≤ length self.now.set.bytes.now }
        requires long { length self.now.set.bytes.now ≡ 16 + 9 * machines_n self.now.table.view.bytes.now * records_n self.now.set.bytes.now }
        ensures { MatchResult result (λ _. Formed (machines_n self.now.table.view.bytes.now) self.now.set.bytes.now (claim A.QueueAbstraction self.now)) (λ f. FirstFault (Applies self.now.table.view.bytes.now self.now.set.bytes.now (claim A.QueueAbstraction self.now)) (numbers self.now.table.view.bytes.now) (each (records_n self.now.set.bytes.now) form_of) f) }
    {
        for k in 0..self.set.record_count() {
            self.form_record(k)?;
        }
        Ok(())
    }

    // The first thing wrong with the header or the records of the set.
    pub(crate) fn check_form(&self) -> Result<(), Fault>
        ensures form { FindsFirst A.QueueAbstraction self.now (form_order self.now.set.bytes.now) result }
        ensures ready { OnOk result (SetReady (machines_n self.now.table.view.bytes.now) self.now.set.bytes.now × Formed (machines_n self.now.table.view.bytes.now) self.now.set.bytes.now (claim A.QueueAbstraction self.now)) }
    {
        self.check_header()?;
        self.form_records()
    }
}

impl<A: QueueAbstraction> Judge<'_, '_, A> {
    // Whether the start is represented.
    pub(crate) fn has_start(&self) -> bool
        ensures { Decides result (Represented (claim A.QueueAbstraction self.now.case.now) (start (system_of self.now.case.now.table.view.bytes.now))) }
    {
        let case = self.case;
        let held = Held::uniform(case.table.machines(), case.abstraction.empty());
        case.set.contains(&held)
    }
}
