// The machines of a controller, as they stand.
ghost use Rattle.std.specs.Prelude.{◌≡◌, ◌<◌, ◌≤◌, [], length, replicate};
ghost use Rattle.model.specs.State.{local_at, queue_at};
ghost use Rattle.model.specs.Steps.{moved, sent};
ghost use Rattle.controller.specs.Exact.{Room};
ghost use Rattle.controller.specs.Held.{left, delivered};
ghost use Rattle.controller.specs.Reference.{blocked, taking, outcome, acted, unless, seen_of};

use crate::call::Sight;
use crate::entry::Entry;
use arrayvec::ArrayVec;
use model::fault::Refusal;
use model::rule::{Action, Rule};
use std::array;
use std::marker::Model;
use table::layout::MOST_MACHINES;

// One entry for each machine. Seen as the state that these stand for.
#[derive(Drop)]
pub struct Machines {
    entries: ArrayVec<Entry, MOST_MACHINES>,
}

impl Model for Machines {
    ghost use Rattle.model.specs.State.{State};

    ghost Value = { State };

    ghost view = { λ m. m.entries.items };
}

impl Machines {
    // Every machine at the start.
    pub(crate) fn at_start(count: u8) -> Machines
        requires { count ≤ 6 }
        ensures { result ≡ replicate count (0, []) }
    {
        let mut entries = ArrayVec::from(array::from_fn(|_| Entry::at_start()));
        entries.truncate(count as usize);
        Machines { entries }
    }

    // Every machine back at the start.
    pub(crate) fn restart(&mut self)
        ensures { self.new ≡ replicate (length self.old) (0, []) }
    {
        // entry by entry: a new vector would blank its unused places too, and be moved here whole
        for entry in self.entries.as_mut_slice() {
            *entry = Entry::at_start();
        }
    }

    // The local state of a machine; where there is no such machine, 0.
    fn local(&self, machine: u8) -> u8
        ensures { result ≡ local_at self.now machine }
    {
        self.entries.get(machine as usize).map_or(0, Entry::local)
    }

    // The events that wait for a machine; where there is no such machine, none.
    fn events(&self, machine: u8) -> &[u8]
        ensures { result.now ≡ queue_at self.now machine }
    {
        self.entries
            .get(machine as usize)
            .map_or(&[], Entry::events)
    }

    // What a look sees of a machine and a place of its queue, if there is such a machine.
    pub(crate) fn sight(&self, machine: u8, place: u8) -> Option<Sight>
        ensures { result ≡ seen_of self.now machine place }
    {
        let entry = self.entries.get(machine as usize)?;
        let events = entry.events();
        Some(Sight {
            local: entry.local(),
            waiting: events.len() as u8,
            event: events.get(place as usize).copied(),
        })
    }

    // Lets a rule be fired, or says why it cannot be.
    fn may_fire(&self, capacity: u8, rule: Rule) -> Result<(), Refusal>
        ensures { result ≡ outcome (blocked capacity self.now rule) }
    {
        if self.local(rule.machine) != rule.from {
            return Err(Refusal::OtherState);
        }
        // A match: an action is an enum, whose kinds carry numbers of their own.
        match rule.action {
            Action::Local => Ok(()),
            Action::Take { event } => may_take(self.events(rule.machine), event),
            Action::Send { event: _, target } => {
                if self.events(target).len() < capacity as usize {
                    Ok(())
                } else {
                    Err(Refusal::QueueFull)
                }
            }
        }
    }

    // Moves the machine of a rule.
    fn follow(&mut self, rule: Rule)
        ensures { self.new ≡ moved rule (left rule.action (queue_at self.old rule.machine)) self.old }
    {
        if let Some(entry) = self.entries.get_mut(rule.machine as usize) {
            entry.follow(rule);
        }
    }

    // Lets an event come to the back of a machine's queue.
    fn receive(&mut self, event: u8, target: u8)
        requires { length (queue_at self.old target) < 32 }
        ensures { self.new ≡ sent event target self.old }
    {
        if let Some(entry) = self.entries.get_mut(target as usize) {
            entry.receive(event);
        }
    }

    // Delivers the event of a send to its target; any other rule leaves the queues.
    fn deliver(&mut self, rule: Rule)
        requires { Room 32 rule.action self.old }
        ensures { self.new ≡ delivered rule.action self.old }
    {
        if let Action::Send { event, target } = rule.action {
            self.receive(event, target);
        }
    }

    // Fires a rule, or says why it cannot be fired.
    pub(crate) fn fire(&mut self, capacity: u8, rule: Rule) -> Result<(), Refusal>
        requires { capacity ≤ 32 }
        ensures answer { result ≡ outcome (blocked capacity self.old rule) }
        ensures state { self.new ≡ unless (blocked capacity self.old rule) self.old (acted rule.action rule self.old) }
    {
        self.may_fire(capacity, rule)?;
        self.follow(rule);
        self.deliver(rule);
        Ok(())
    }
}

// Lets the front event be taken as `event`, or says why it cannot be.
fn may_take(events: &[u8], event: u8) -> Result<(), Refusal>
    ensures { result ≡ outcome (taking event events.now) }
{
    match events.first() {
        None => Err(Refusal::QueueEmpty),
        Some(front) if *front == event => Ok(()),
        Some(_) => Err(Refusal::OtherFront),
    }
}
