// The list abstraction: the first occurrence of each event, in order. Position i of a code is its i-th digit in
// base 16, which holds the event + 1, and 0 behind the last event.
#![tactic(auto)]

ghost use Rattle.std.specs.Prelude.{◌≡◌, ◌*◌, ◌^◌, ◌<◌};
ghost use Rattle.list_abstraction.specs.List.{list_code, list_removals};
ghost use Rattle.list_abstraction.specs.Read.{Read};
ghost use Rattle.list_abstraction.specs.Meaning.{list_meaning};

use abstraction::QueueAbstraction;
use abstraction::limits::valid;
use model::mask::{bit, has, within};
use model::queue::Front;

#[derive(Clone, Copy, PartialEq, Eq, Debug, Default)]
pub struct ListAbstraction;

const WIDTH: u8 = 32;

// The mask of the events of a good code.
fn read(m: u8, c: u64) -> Option<u8>
    ensures { Read m c result }
{
    if !valid(m, WIDTH) {
        return None;
    }
    let mut mask = 0;
    let mut rest = c;
    // a loop that divides, since the code ends where nothing is left: an iterator over digits would not tell a gap
    while rest != 0 {
        let digit = (rest % 16) as u8;
        if !(1..=m).contains(&digit) {
            return None;
        }
        let one = bit(digit - 1);
        if within(one, mask) {
            return None;
        }
        mask |= one;
        rest /= 16;
    }
    Some(mask)
}

// The value of position i.
fn place(i: u32) -> u64
    requires { i < 8 }
    ensures { result ≡ 2 ^ (4 * i) }
{
    1 << (4 * i)
}

impl QueueAbstraction for ListAbstraction {
    ghost bits = { λ _. 32 };

    ghost code = { λ _. list_code };

    ghost removals = { λ _. list_removals };

    ghost meaning = { λ p. list_meaning };

    fn width(&self) -> u8 {
        WIDTH
    }

    fn empty(&self) -> u64 {
        0
    }

    fn good(&self, m: u8, c: u64) -> bool {
        read(m, c).is_some()
    }

    fn append(&self, m: u8, c: u64, e: u8) -> Option<u64> {
        let listed = read(m, c)?;
        if e >= m {
            return None;
        }
        if has(u64::from(listed), e) {
            return Some(c);
        }
        Some(c + (u64::from(e) + 1) * place(listed.count_ones()))
    }

    // The first event stands in front, and the events listed are those that wait.
    fn allows(&self, m: u8, c: u64, front: Front, mask: u8) -> bool {
        let Some(listed) = read(m, c) else {
            return false;
        };
        let wait = within(mask, listed);
        match front {
            Front::Any => wait,
            Front::Empty => c == 0 && mask == 0,
            Front::Event(e) => c % 16 == u64::from(e) + 1 && wait,
        }
    }

    // The first event may wait nowhere behind, or before any of the others, or behind them all.
    fn removal(&self, m: u8, c: u64, k: u64) -> Option<(u8, u64)> {
        let listed = read(m, c)?;
        let e = ((c % 16) as u8).checked_sub(1)?;
        let rest = c / 16;
        if k == 0 {
            return Some((e, rest));
        }
        if k > u64::from(listed.count_ones()) {
            return None;
        }
        let here = place((k - 1) as u32);
        let high = rest / here;
        let low = rest % here;
        let left = (16 * high + u64::from(e) + 1) * here + low;
        Some((e, left))
    }
}
