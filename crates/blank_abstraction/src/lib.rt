// The blank abstraction: nothing of a queue is kept, every queue has code 0.
#![tactic(auto)]

ghost use Rattle.blank_abstraction.specs.Blank.{blank_code, blank_removals};
ghost use Rattle.blank_abstraction.specs.Removals.{blank_meaning};

use abstraction::QueueAbstraction;
use abstraction::limits::valid;
use model::mask::fits;
use model::queue::Front;

#[derive(Clone, Copy, PartialEq, Eq, Debug, Default)]
pub struct BlankAbstraction;

impl QueueAbstraction for BlankAbstraction {
    ghost bits = { λ _. 0 };

    ghost code = { λ _. blank_code };

    ghost removals = { λ _. blank_removals };

    ghost meaning = { λ p. blank_meaning };

    fn width(&self) -> u8 {
        0
    }

    fn empty(&self) -> u64 {
        0
    }

    fn good(&self, m: u8, c: u64) -> bool {
        c == 0 && valid(m, self.width())
    }

    fn append(&self, m: u8, c: u64, e: u8) -> Option<u64> {
        (self.good(m, c) && e < m).then_some(0)
    }

    // Every queue has the code, so only the events asked for have to exist.
    fn allows(&self, m: u8, c: u64, front: Front, mask: u8) -> bool {
        if !self.good(m, c) {
            return false;
        }
        let exist = fits(u64::from(mask), u16::from(m));
        match front {
            Front::Any => exist,
            Front::Empty => mask == 0,
            Front::Event(e) => e < m && exist,
        }
    }

    fn removal(&self, m: u8, c: u64, k: u64) -> Option<(u8, u64)> {
        let e = u8::try_from(k).ok()?;
        (self.good(m, c) && e < m).then_some((e, 0))
    }
}
