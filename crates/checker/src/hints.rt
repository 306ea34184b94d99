// Where to look first: what was found of one record mostly helps with the next. A hint that is wrong costs time only.
ghost use Rattle.std.specs.Prelude.{◌≡◌, ℕ, ◌+◌, ◌-◌, ◌*◌, ◌%◌, ◌^◌, ◌<◌, length, set as put, slice_index};
ghost use Rattle.checker.specs.Hints.{slot_of};

use table::layout::{MOST_PATTERN_LINES, MOST_RULES};

// The outcomes of a rule that have a hint of their own.
const OUTCOMES: u64 = 8;

const RULES: u16 = MOST_RULES as u16;

// a pattern has a line of its own
const PATTERNS: u16 = MOST_PATTERN_LINES as u16;

const SLOTS: usize = RULES as usize * OUTCOMES as usize;

// Arrays, since nothing is allocated on the way to a verdict; their slots are numbered, as the cells of a plan. They go
// beside a judgement and not in it: they change while it stays, which every clause would have to say.
#[derive(Drop)]
pub(crate) struct Hints {
    // how far from its record each outcome of each rule last led
    shifts: [u16; SLOTS],
    // the line that last kept each pattern from being met
    lines: [u16; PATTERNS as usize],
}

// Where the hint for an outcome of a rule is kept.
fn slot(r: u16, c: u64) -> usize
    ensures is { result ≡ slot_of r c }
    ensures small { result < 2048 }
{
    OUTCOMES as usize * (r % RULES) as usize + (c % OUTCOMES) as usize
}

impl Hints {
    pub(crate) fn none() -> Hints {
        Hints {
            shifts: [0; SLOTS],
            lines: [0; PATTERNS as usize],
        }
    }

    // Where outcome `c` of rule `r` may lead from record `k`.
    pub(crate) fn place(&self, k: u16, r: u16, c: u64) -> u16
        ensures { result ≡ (k + slice_index self.now.shifts (slot_of r c)) % 2 ^ 16 }
    {
        k.wrapping_add(self.shifts[slot(r, c)])
    }

    // Keeps how far outcome `c` of rule `r` led from record `k`.
    pub(crate) fn found(&mut self, k: u16, r: u16, c: u64, place: u16)
        ensures { self.new.shifts ≡ put self.old.shifts (slot_of r c) ((place + 2 ^ 16 - k) % 2 ^ 16) }
    {
        self.shifts[slot(r, c)] = place.wrapping_sub(k);
    }

    // The line that last kept the pattern from being met.
    pub(crate) fn line(&self, pattern: u16) -> u16
        ensures { result ≡ slice_index self.now.lines (pattern % 64) }
    {
        self.lines[(pattern % PATTERNS) as usize]
    }

    // Keeps the line that kept the pattern from being met.
    pub(crate) fn kept_by(&mut self, pattern: u16, line: u16)
        ensures { self.new.lines ≡ put self.old.lines (pattern % 64) line }
    {
        self.lines[(pattern % PATTERNS) as usize] = line;
    }
}
