// The set abstraction: a code is the mask of the events that wait, whatever their order and number.
#![tactic(auto)]

ghost use Rattle.std.specs.Prelude.{◌≡◌};
ghost use Rattle.std.specs.List.{slice_get, filter, range_with_len};
ghost use Rattle.model.specs.Queue.{present};
ghost use Rattle.set_abstraction.specs.Set.{set_code, set_removals};
ghost use Rattle.set_abstraction.specs.Removals.{set_meaning};

use abstraction::QueueAbstraction;
use abstraction::limits::valid;
use model::mask::{bit, fits, has, within, without};
use model::queue::Front;

#[derive(Clone, Copy, PartialEq, Eq, Debug, Default)]
pub struct SetAbstraction;

// The n-th event of the set, upwards. A loop that counts down: `filter` and `nth` make two loops, one in the other, and
// most of a check of such codes is spent here.
fn nth_event(m: u8, c: u64, n: u64) -> Option<u8>
    ensures { result ≡ slice_get (filter (present c) (range_with_len 0 m)) n }
{
    let mut left = n;
    for e in 0..m {
        if has(c, e) {
            if left == 0 {
                return Some(e);
            }
            left -= 1;
        }
    }
    None
}

impl QueueAbstraction for SetAbstraction {
    ghost bits = { λ _. 8 };

    ghost code = { λ _. set_code };

    ghost removals = { λ _. set_removals };

    ghost meaning = { λ p. set_meaning };

    fn width(&self) -> u8 {
        8
    }

    fn empty(&self) -> u64 {
        0
    }

    fn good(&self, m: u8, c: u64) -> bool {
        valid(m, self.width()) && fits(c, u16::from(m))
    }

    fn append(&self, m: u8, c: u64, e: u8) -> Option<u64> {
        (self.good(m, c) && e < m).then_some(c | u64::from(bit(e)))
    }

    // Any event of the set may stand in front, and all of them wait.
    fn allows(&self, m: u8, c: u64, front: Front, mask: u8) -> bool {
        if !self.good(m, c) {
            return false;
        }
        let held = within(mask, c as u8);
        match front {
            Front::Any => held,
            Front::Empty => c == 0 && mask == 0,
            Front::Event(e) => has(c, e) && held,
        }
    }

    // Two for each event present, upwards: it was the last of its kind, or another one waits behind it.
    fn removal(&self, m: u8, c: u64, k: u64) -> Option<(u8, u64)> {
        if !self.good(m, c) {
            return None;
        }
        let e = nth_event(m, c, k / 2)?;
        let left = if k % 2 == 0 {
            u64::from(without(c as u8, e))
        } else {
            c
        };
        Some((e, left))
    }
}
