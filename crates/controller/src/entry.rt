// A machine as a controller holds it: its local state and its queue, whose events lie in the value itself.
ghost use Rattle.std.specs.Prelude.{◌≡◌, ◌<◌, ◌≤◌, [], ◌∷◌, ◌++◌, length};
ghost use Rattle.controller.specs.Held.{left};

use arrayvec::ArrayVec;
use checker::pass::FULL_CAPACITY;
use model::rule::{Action, Rule};
use std::marker::Model;

// How many events a queue has room for.
pub const PLACES: usize = FULL_CAPACITY as usize;

// Seen as the local state and the events that wait, front first.
#[derive(Drop)]
pub struct Entry {
    pub(crate) local: u8,
    pub(crate) queue: ArrayVec<u8, PLACES>,
}

impl Model for Entry {
    ghost use Rattle.std.specs.Prelude.{ℕ, List};

    ghost Value = { ℕ × List ℕ };

    ghost view = { λ e. (e.local, e.queue.items) };
}

// What a vector of entries holds in its unused places.
impl Default for Entry {
    ghost is_default = { λ e. e ≡ (0, []) };

    fn default() -> Entry {
        Entry::at_start()
    }
}

impl Entry {
    // A machine in local state 0 with nothing waiting.
    pub(crate) fn at_start() -> Entry
        ensures { result ≡ (0, []) }
    {
        Entry {
            local: 0,
            queue: ArrayVec::new(),
        }
    }

    pub(crate) fn local(&self) -> u8
        ensures { result ≡ self.now.0 }
    {
        self.local
    }

    // The events that wait, front first.
    pub(crate) fn events(&self) -> &[u8]
        ensures events { result.now ≡ self.now.1 }
        ensures few { length result.now ≤ 32 }
    {
        self.queue.as_slice()
    }

    // Goes where a rule of this machine leads, and takes the front event off if the rule is a take.
    pub(crate) fn follow(&mut self, rule: Rule)
        ensures { self.new ≡ (rule.to, left rule.action self.old.1) }
    {
        self.local = rule.to;
        if let Action::Take { event: _ } = rule.action {
            self.queue.pop_at(0);
        }
    }

    // Lets an event come to the back of the queue.
    pub(crate) fn receive(&mut self, event: u8)
        requires { length self.old.1 < 32 }
        ensures { self.new ≡ (self.old.0, self.old.1 ++ (event ∷ [])) }
    {
        self.queue.push(event);
    }
}
