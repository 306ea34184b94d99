// A table read once into what the judgement of a record asks for.
ghost use Rattle.std.specs.Prelude.{◌≡◌, ℕ, ◌+◌, ◌*◌, ◌%◌, ◌<◌, ◌≤◌, true, length, slice_index_or, IfSome, None};
ghost use Rattle.model.specs.Bad.{NoTake};
ghost use Rattle.model.specs.System.{rule_of};
ghost use Rattle.table.specs.Layout.{rules_n, pattern_lines_n, pattern_offset};
ghost use Rattle.table.specs.Lines.{pattern_line_at};
ghost use Rattle.table.specs.SystemOf.{system_of};
ghost use Rattle.checker.specs.Plan.{no_link, no_line, cell_of, Chained, Planned};

use crate::parts::{ReadTable, takes};
use model::mask::MOST_EVENTS;
use model::pattern::Condition;
use model::queue::Front;
use model::rule::{Action, Rule};
use table::layout::{MOST_LOCAL_STATES, MOST_PATTERN_LINES, MOST_RULES};
use table::line::PatternLine;

// The next power of two above the most machines, so that a cell is found by `%`, which a compiler turns into a mask.
const MACHINES: u8 = 8;

// The pairs of a machine and a local state, and those with an event.
const CELLS: usize = MACHINES as usize * MOST_LOCAL_STATES as usize;

const TAKER_CELLS: usize = MOST_EVENTS as usize * CELLS;

// A rule, and the next one of the same cell. The number of a rule is held as a `u8`, here and in the tables below: there
// are at most 256 rules, and the plan lies on the stack.
#[derive(Clone, Copy)]
pub(crate) struct Link {
    rule: Rule,
    next: Option<u8>,
}

// The rules, and for each machine and local state the chain of its rules. Cells are numbered: arrays of arrays would be
// indexed twice at each use, and are no plainer.
#[derive(Drop)]
pub(crate) struct Chains {
    // by number, in fixed memory: a link is a number
    links: [Link; MOST_RULES],
    // the first rule of each cell
    heads: [Option<u8>; CELLS],
}

// All of it lies in fixed memory, since nothing is allocated on the way to a verdict.
#[derive(Drop)]
pub(crate) struct Plan {
    chains: Chains,
    // a rule by which a machine in a local state may take an event: a hint
    takers: [Option<u8>; TAKER_CELLS],
    lines: [PatternLine; MOST_PATTERN_LINES],
}

const NO_LINK: Link = Link {
    rule: Rule {
        machine: 0,
        from: 0,
        to: 0,
        action: Action::Local,
    },
    next: None,
};

const NO_LINE: PatternLine = PatternLine {
    number: 0,
    condition: Condition {
        machine: 0,
        local: None,
        front: Front::Any,
        mask: 0,
    },
};

// Where the rules of a machine from a local state are kept. The two go together here, in `has_taker`, `no_take` and
// `takes`: a struct for them would be made of an entry for each question, and be no plainer.
fn cell(machine: u8, local: u8) -> usize
    ensures is { result ≡ cell_of machine local }
    ensures small { result < 256 }
{
    MOST_LOCAL_STATES as usize * (machine % MACHINES) as usize
        + (local % MOST_LOCAL_STATES) as usize
}

// Where the taker of an event is kept.
fn taker_cell(machine: u8, local: u8, event: u8) -> usize
    ensures { result < 2048 }
{
    MOST_EVENTS as usize * cell(machine, local) + (event % MOST_EVENTS) as usize
}

impl Chains {
    // Puts rule `r` before those of its cell that follow it.
    fn link(&mut self, table: &ReadTable<'_>, r: u16)
        requires below { r < rules_n table.now.view.bytes.now }
        requires chained { Chained table.now.view.bytes.now (r + 1) self.old }
        ensures { Chained table.now.view.bytes.now r self.new }
    {
        let added = table.rule(r);
        let at = cell(added.machine, added.from);
        self.links[r as usize] = Link {
            rule: added,
            next: self.heads[at],
        };
        self.heads[at] = Some(r as u8);
    }

    // The chains of a table's rules.
    fn of(table: &ReadTable<'_>) -> Chains
        ensures { Chained table.now.view.bytes.now 0 result }
    {
        let mut chains = Chains {
            links: [NO_LINK; MOST_RULES],
            heads: [None; CELLS],
        };
        for r in (0..table.view.rule_count()).rev() {
            chains.link(table, r);
        }
        chains
    }
}

impl Plan {
    // The plan of a table that reads.
    pub(crate) fn of(table: &ReadTable<'_>) -> Plan
        ensures { Planned table.now.view.bytes.now result }
    {
        Plan {
            chains: Chains::of(table),
            takers: Plan::takers_of(table),
            lines: Plan::lines_of(table),
        }
    }

    // Some rule by which each event is taken, where there is one.
    fn takers_of(table: &ReadTable<'_>) -> [Option<u8>; TAKER_CELLS]
        ensures { (x : ℕ) → IfSome (slice_index_or result x None) (λ r. r < rules_n table.now.view.bytes.now) }
    {
        let mut takers = [None; TAKER_CELLS];
        for r in 0..table.view.rule_count() {
            let taker = table.rule(r);
            if let Action::Take { event } = taker.action {
                takers[taker_cell(taker.machine, taker.from, event)] = Some(r as u8);
            }
        }
        takers
    }

    // The pattern lines.
    fn lines_of(table: &ReadTable<'_>) -> [PatternLine; MOST_PATTERN_LINES]
        ensures { (l : ℕ) → l < pattern_lines_n table.now.view.bytes.now → slice_index_or result l no_line ≡ pattern_line_at table.now.view.bytes.now (pattern_offset table.now.view.bytes.now l) }
    {
        let mut lines = [NO_LINE; MOST_PATTERN_LINES];
        // lines go by number, and the table may have fewer than there are places
        for l in 0..table.view.pattern_line_count() {
            lines[l as usize] = table.pattern_line(l);
        }
        lines
    }

    // Rule `r`.
    pub(crate) fn rule(&self, r: u16) -> Rule
        requires { r < 256 }
        ensures { result ≡ (slice_index_or self.now.chains.links r no_link).rule }
    {
        self.chains.links[r as usize].rule
    }

    // Pattern line `l`.
    pub(crate) fn line(&self, l: u16) -> PatternLine
        requires { l < 64 }
        ensures { result ≡ slice_index_or self.now.lines l no_line }
    {
        self.lines[l as usize]
    }

    // The first rule that may lead a machine on from a local state.
    pub(crate) fn first(&self, machine: u8, local: u8) -> Option<u16>
        ensures { result ≡ slice_index_or self.now.chains.heads (cell_of machine local) None }
    {
        self.chains.heads[cell(machine, local)].map(u16::from)
    }

    // The next such rule after rule `r`.
    pub(crate) fn after(&self, r: u16) -> Option<u16>
        requires { r < 256 }
        ensures { result ≡ (slice_index_or self.now.chains.links r no_link).next }
    {
        self.chains.links[r as usize].next.map(u16::from)
    }

    // Whether the rule that is kept for it lets a machine in a local state take an event.
    pub(crate) fn has_taker(&self, table: &ReadTable<'_>, machine: u8, local: u8, event: u8) -> bool
        requires { Planned table.now.view.bytes.now self.now }
        ensures { result ≡ true → NoTake (system_of table.now.view.bytes.now) machine local event → ⊥ }
    {
        self.takers[taker_cell(machine, local, event)].is_some_and(|r| takes(
            self.rule(u16::from(r)),
            machine,
            local,
            event,
        ))
    }
}
