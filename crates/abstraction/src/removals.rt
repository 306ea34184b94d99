// The removals of a code, one after another.
ghost use Rattle.std.specs.Prelude.{◌≡◌, ℕ, ◌^◌, ◌≤◌, length};
ghost use Rattle.std.specs.Iterator.{YieldsFirst, item_count};
ghost use Rattle.std.specs.Iterator.Runs.{YieldsInOrder};

use crate::QueueAbstraction;
use std::marker::Model;

// Contracts see it as the list of the removals that are left.
#[derive(Drop)]
pub struct Removals<'a, A: QueueAbstraction> {
    abstraction: &'a A,
    m: u8,
    c: u64,
    k: u64,
}

impl<'a, A: QueueAbstraction> Model for Removals<'a, A> {
    ghost use Rattle.std.specs.Prelude.{ℕ, List, drop};

    ghost Value = { List (ℕ × ℕ) };

    ghost view = { λ r. drop r.k (A.removals r.abstraction.now r.m r.c) };
}

impl<'a, A: QueueAbstraction> Iterator for Removals<'a, A> {
    type Item = (u8, u64);

    ghost next_gives = { YieldsFirst (λ s. s) };

    ghost remaining = { item_count (λ s. s) };

    fn next(&mut self) -> Option<(u8, u64)> {
        let removal = self.abstraction.removal(self.m, self.c, self.k)?;
        self.k += 1;
        Some(removal)
    }
}

// All removals of the code, in their order.
pub fn each_removal<A: QueueAbstraction>(abstraction: &A, m: u8, c: u64) -> Removals<'_, A>
    ensures value { result ≡ A.removals abstraction.now m c }
    ensures few { length result ≤ 2 ^ 63 }
    ensures runs { YieldsInOrder (YieldsFirst {A = ℕ × ℕ} (λ s. s)) (λ s. s) }
{
    Removals {
        abstraction,
        m,
        c,
        k: 0,
    }
}
