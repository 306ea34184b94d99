// Queue abstractions: a code, one number, keeps part of what a queue of any length holds.
#![tactic(auto)]

ghost use Rattle.std.specs.Prelude.{◌≡◌, ℕ, List, [], Decides};
ghost use Rattle.std.specs.List.{slice_get};
ghost use Rattle.abstraction.specs.Meaning.{Meaning, Good, Allowed, Appended, Removal};

use crate::removals::each_removal;
use model::queue::Front;

pub mod limits;
pub mod removals;

// What callers may rely on, whatever the abstraction: m is the number of events, c a code. Each call takes the two by
// themselves, as the definitions of every abstraction do: a pair would be taken apart in each.
pub trait QueueAbstraction {
    // the width of codes, the code of a queue, and the removals of a code in their order
    ghost bits: { Self → ℕ };

    ghost code: { Self → ℕ → List ℕ → ℕ };

    ghost removals: { Self → ℕ → ℕ → List (ℕ × ℕ) };

    // How many bits a code has.
    fn width(&self) -> u8
        ensures { result ≡ bits self.now };

    // The code of the empty queue.
    fn empty(&self) -> u64
        ensures { result ≡ code self.now 1 [] };

    // Does some queue have the code?
    fn good(&self, m: u8, c: u64) -> bool
        ensures { Decides result (Good (bits self.now) (code self.now) m c) };

    // The code after event e has come to the back.
    fn append(&self, m: u8, c: u64, e: u8) -> Option<u64>
        ensures { Appended (bits self.now) (code self.now) m c e result };

    // Has some queue with the code that front and every event of the mask?
    fn allows(&self, m: u8, c: u64, front: Front, mask: u8) -> bool
        ensures { Decides result (Allowed (bits self.now) (code self.now) m c front mask) };

    // The k-th way to remove the front event: the event taken and the code left.
    fn removal(&self, m: u8, c: u64, k: u64) -> Option<(u8, u64)>
        ensures { result ≡ slice_get (removals self.now m c) k };

    ghost meaning: { (a : Self) → Meaning (bits a) (code a) (removals a) };
}

// Does some queue with code c begin with event e and have code d without it?
pub fn has_removal<A: QueueAbstraction>(abstraction: &A, m: u8, c: u64, e: u8, d: u64) -> bool
    ensures { Decides result (Removal (A.bits abstraction.now) (A.code abstraction.now) m c e d) }
{
    each_removal(abstraction, m, c).any(|removal| removal == (e, d))
}
