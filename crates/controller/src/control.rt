// What can be asked of a controller.
ghost use Rattle.std.specs.Prelude.{◌≡◌, ◌≤◌, min};
ghost use Rattle.model.specs.System.{machines};
ghost use Rattle.table.specs.Header.{fault_at};
ghost use Rattle.table.specs.SystemOf.{system_of};
ghost use Rattle.controller.specs.Hosted.{hosted};
ghost use Rattle.controller.specs.Promises.{HasTable, HasCapacity, HasGranted, HasWhole, AtStart};
ghost use Rattle.controller.specs.Promises.{FireAnswered, LookAnswered, CallAnswered, AllCounted, AllAnswered, Moves, MovesAll, RefusalStays, FirstReason, ExactStep};
ghost use Rattle.controller.specs.Views.{Keeps};

use crate::call::{Answer, Call, Sight};
use crate::held::Controller;
use crate::machines::Machines;
use checker::pass::{FULL_CAPACITY, Pass};
use model::fault::{Fault, Refusal};
use table::header::fault_at;
use table::layout::MOST_MACHINES;
use table::view::Table;

// The capacity of a pass, as far as a queue has places.
fn bounded(capacity: u8) -> u8
    ensures { result ≡ min capacity 32 }
{
    capacity.min(FULL_CAPACITY)
}

// The refusal of a rule, by its number.
fn refused(number: Refusal, rule: u16) -> Fault
    ensures { result ≡ fault_at number rule }
{
    fault_at(number, u32::from(rule))
}

// How many machines of a table a controller holds.
fn machines_held(table: &Table<'_>) -> u8
    ensures few { result ≤ 6 }
    ensures is { result ≡ machines (hosted (system_of table.now.bytes.now)) }
{
    table.machine_count().min(MOST_MACHINES as u16) as u8
}

impl<'a> Controller<'a> {
    // A controller at the start. The pass is used up.
    pub fn load(pass: Pass<'a>) -> Controller<'a>
        ensures table { HasTable pass.entry result }
        ensures capacity { HasCapacity pass.entry result }
        ensures granted { HasGranted pass.entry result }
        ensures state { AtStart result }
        ensures whole { HasWhole pass.entry result }
    {
        let table = pass.table();
        Controller {
            table,
            capacity: bounded(pass.capacity()),
            machines: Machines::at_start(machines_held(&table)),
        }
    }

    // Fires a rule, or says why it cannot be fired.
    pub fn fire(&mut self, rule: u16) -> Result<(), Fault>
        ensures answer { FireAnswered self.old rule result }
        ensures state { Moves self.old (Call.Fire rule) self.new }
        ensures stays { RefusalStays self.old result self.new }
        ensures first { FirstReason self.old rule result }
        ensures exact { ExactStep self.old rule result self.new }
        ensures keeps { Keeps self.old self.new }
    {
        let named = self.table.rule(rule).ok_or(refused(Refusal::NoRule, rule))?;
        self.machines
            .fire(self.capacity, named)
            .map_err(|refusal| refused(refusal, rule))
    }

    // Goes back to the start.
    pub fn reset(&mut self)
        ensures state { Moves self.old Call.Reset self.new }
        ensures keeps { Keeps self.old self.new }
    {
        self.machines.restart();
    }

    // What is seen of a machine, with the event at a place of its queue; 0 is the front.
    pub fn look(&self, machine: u8, place: u8) -> Result<Sight, Fault>
        ensures { LookAnswered self.now machine place result }
    {
        self.machines
            .sight(machine, place)
            .ok_or(fault_at(Refusal::NoMachine, u32::from(machine)))
    }

    // Makes a call, or says why it cannot be made.
    pub fn answer(&mut self, call: Call) -> Result<Answer, Fault>
        ensures answer { CallAnswered self.old call result }
        ensures state { Moves self.old call self.new }
        ensures stays { RefusalStays self.old result self.new }
        ensures keeps { Keeps self.old self.new }
    {
        // A match: a call is an enum, whose kinds carry numbers of their own.
        match call {
            Call::Fire { rule } => {
                self.fire(rule)?;
                Ok(Answer::Accepted)
            }
            Call::Reset => {
                self.reset();
                Ok(Answer::Reset)
            }
            Call::Look { machine, place } => Ok(Answer::Seen(self.look(machine, place)?)),
        }
    }

    // Makes calls in their order, as many as there are places for answers.
    pub fn answer_all(&mut self, calls: &[Call], answers: &mut [Result<Answer, Fault>]) -> usize
        ensures count { AllCounted calls.now answers.old result }
        ensures answers { AllAnswered self.old calls.now answers.old answers.new }
        ensures state { MovesAll self.old calls.now answers.old self.new }
        ensures keeps { Keeps self.old self.new }
    {
        let made = &calls[..calls.len().min(answers.len())];
        // By its index: of a place that a zip lends no proof knows what was written.
        for (i, call) in made.iter().enumerate() {
            answers[i] = self.answer(*call);
        }
        made.len()
    }
}
