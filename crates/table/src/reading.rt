// Reading a table: the first thing wrong with its bytes, or a view of them.
ghost use Rattle.std.specs.Prelude.{◌≡◌, ℕ, ◌<◌, MatchResult, OnOk};
ghost use Rattle.model.specs.declared.fault.Fault.{Fault as TheFault};
ghost use Rattle.model.specs.Order.{one, under};
ghost use Rattle.model.specs.System.{WellFormed};
ghost use Rattle.table.specs.Header.{fields};
ghost use Rattle.table.specs.Findings.{bounds, field, machine_line, rule_line, pattern_line, header_order, machine_order, rule_order, pattern_order, order};
ghost use Rattle.table.specs.Reading.{Finds, FirstErr, Reads, Refuses, NoneListed, FirstListed, Numbered};
ghost use Rattle.table.specs.SystemOf.{system_of};

use crate::header::{FIELDS, HEADER_LENGTH, check_fields, fault_at};
use crate::layout::{EDITION, MOST_MACHINES, MOST_PATTERN_LINES, MOST_RULES};
use crate::view::{Table, machine_offset};
use model::fault::{Fault, Refusal};
use model::mask::MOST_EVENTS;

// The first of `count` lines that `check` refuses.
fn check_lines<C: Fn(u16) -> Result<(), Fault>>(count: u16, check: C) -> Result<(), Fault>
    requires { C.IsAlwaysCallable check }
    ensures { FirstErr count (C.post check) result }
{
    (0..count).try_for_each(check)
}

impl<'a> Table<'a> {
    // The least and the greatest value of each header field: edition, the four counts, the three offsets.
    fn header_bounds(&self) -> [(u32, u32); FIELDS]
        ensures { result ≡ bounds self.now.bytes.now }
    {
        let machines_at = machine_offset(0);
        let rules_at = self.rule_offset(0);
        let patterns_at = self.pattern_offset(0);
        [
            (EDITION, EDITION),
            (1, MOST_MACHINES as u32),
            (1, u32::from(MOST_EVENTS)),
            (0, MOST_RULES as u32),
            (0, MOST_PATTERN_LINES as u32),
            (machines_at, machines_at),
            (rules_at, rules_at),
            (patterns_at, patterns_at),
        ]
    }

    fn check_header_fields(&self) -> Result<(), Fault>
        ensures { Finds self.now.bytes.now (under field fields) result }
    {
        check_fields(self.bytes(), &self.header_bounds(), Refusal::TableHeader)
    }

    // The header, and the length that it gives.
    #[tactic(auto, using(model::proofs::Findings::answered_first, model::proofs::Findings::answered_after, crate::proofs::Parts::counted))]
    fn check_header(&self) -> Result<(), Fault>
        ensures { Finds self.now.bytes.now header_order result }
    {
        let bytes = self.bytes();
        if bytes.len() < HEADER_LENGTH {
            return Err(fault_at(Refusal::TableLength, 0));
        }
        self.check_header_fields()?;
        if bytes.len() != self.pattern_offset(self.pattern_line_count()) as usize {
            return Err(fault_at(Refusal::TableLength, 0));
        }
        Ok(())
    }

    fn check_machine_lines(&self) -> Result<(), Fault>
        ensures { Finds self.now.bytes.now (machine_order self.now.bytes.now) result }
    {
        check_lines(
            self.machine_count(),
            |machine: u16| -> Result<(), Fault>
                ensures { Finds self.entry.now.bytes.now (one (machine_line machine)) result }
            {
                let line = self.line_at(machine_offset(machine));
                line.verdict(line.machine_good())
            },
        )
    }

    fn check_rule_lines(&self) -> Result<(), Fault>
        ensures { Finds self.now.bytes.now (rule_order self.now.bytes.now) result }
    {
        check_lines(
            self.rule_count(),
            |rule: u16| -> Result<(), Fault>
                ensures { Finds self.entry.now.bytes.now (one (rule_line rule)) result }
            {
                let line = self.line_at(self.rule_offset(rule));
                line.verdict(line.rule_good())
            },
        )
    }

    fn check_pattern_lines(&self) -> Result<(), Fault>
        ensures { Finds self.now.bytes.now (pattern_order self.now.bytes.now) result }
    {
        check_lines(
            self.pattern_line_count(),
            |number: u16| -> Result<(), Fault>
                ensures { Finds self.entry.now.bytes.now (one (pattern_line number)) result }
            {
                let line = self.line_at(self.pattern_offset(number));
                line.verdict(line.pattern_good(number))
            },
        )
    }

    // The first thing wrong, in the order of the file.
    #[tactic(auto, using(model::proofs::Findings::answered_after))]
    fn check(&self) -> Result<(), Fault>
        ensures { Finds self.now.bytes.now (order self.now.bytes.now) result }
    {
        self.check_header()?;
        self.check_machine_lines()?;
        self.check_rule_lines()?;
        self.check_pattern_lines()
    }

    // A view of the bytes if nothing is wrong with them; else the fault of the first thing that is.
    pub fn read(bytes: &'a [u8]) -> Result<Table<'a>, Fault>
        ensures verdict { MatchResult result (λ t. (t.bytes.now ≡ bytes.now) × Reads bytes.now) (λ f. Refuses bytes.now f) }
        ensures only { MatchResult result (λ _. (f : TheFault) → Refuses bytes.now f → ⊥) (λ f. (Reads bytes.now → ⊥) × ((g : TheFault) → Refuses bytes.now g → g ≡ f)) }
        ensures listed { MatchResult result (λ _. NoneListed bytes.now) (λ f. FirstListed bytes.now f) }
        ensures well_formed { OnOk result (WellFormed (system_of bytes.now) × Numbered bytes.now) }
    {
        let table = Table::over(bytes);
        table.check()?;
        Ok(table)
    }
}
